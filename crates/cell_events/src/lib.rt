// The events and the drain at a cell in the bytes of a host. Its frame and its jobs are read from there, its stages are lent where they lie, and all of
// it is asked at each call.
#![tactic(auto)]

ghost use Rattle.std.specs.Prelude.{◌≡◌};
ghost use Rattle.cell_layout.specs.HostAnswers.{packed, event_answer, event_cell, drain_answer, drain_cell};

use admission::Table;
use cell_layout::{CELL, JOB_COUNT, NO_CELL, STAGES};
use cell_reads::{count_in, frame_in, jobs_in, list_in};
use cell_writes::put_list;
use events::Event;
use internals::LentJobs;
use plan_bytes::LentPlan;
use table_events::judge;
use table_jobs::changed;
use table_numbers::{answer_number, answer_place, end_number};

// A number with one place, and NO_CELL: numbers in place of enums, since they are what C is answered.
pub fn pack(number: u32, place: u32) -> u64
    ensures { result ≡ packed number place 0 }
{
    u64::from(number) + 4294967296 * u64::from(place)
}

// An event at the cell. Only an admitted one reads the list as a whole, and writes the one that it leads to.
pub fn event_at(cell: &mut [u8], event: Event) -> u64
    ensures { (result ≡ event_answer cell.old event) × (cell.new ≡ event_cell cell.old event) }
{
    if cell.len() < CELL {
        return NO_CELL;
    }
    let frame = frame_in(cell);
    let numbers = jobs_in(cell);
    let count = count_in(cell);
    let plan = LentPlan {
        frame: &frame,
        stages: &cell[STAGES..JOB_COUNT],
    };
    let jobs = LentJobs {
        count,
        numbers: &numbers,
    };
    let judged = judge(plan, jobs, event);
    if let Err(answer) = judged {
        let number = answer_number(answer);
        let place = answer_place(answer);
        return pack(number, place);
    }
    let list = list_in(cell);
    let after = changed(list, judged);
    put_list(after.list, cell);
    0
}

// A drain of the cell; one that makes no move writes nothing.
pub fn drain_at(cell: &mut [u8], budget: u32) -> u64
    ensures { (result ≡ drain_answer cell.old budget) × (cell.new ≡ drain_cell cell.old budget) }
{
    if cell.len() < CELL {
        return NO_CELL;
    }
    let list = list_in(cell);
    let table = Table { list };
    let frame = frame_in(cell);
    let plan = LentPlan {
        frame: &frame,
        stages: &cell[STAGES..JOB_COUNT],
    };
    let drained = table.drain(plan, budget);
    let end = drained.end;
    let left = drained.table;
    let number = end_number(end);
    if drained.moves < 1 {
        return pack(number, 0);
    }
    put_list(left.list, cell);
    pack(number, drained.moves)
}
