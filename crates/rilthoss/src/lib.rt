// What the library of a host does: the whole run of `cellmoves`, and a cell that lives in the host's bytes. Every function takes any
// bytes and any numbers; what a cell holds is asked at each call. `rilthoss_c` has the same for C.
#![tactic(auto)]

ghost use Rattle.std.specs.Prelude.{◌≡◌, ◌≤◌};
ghost use Rattle.moves_text.specs.Output.{output};
ghost use Rattle.moves_text.specs.Buffer.{filled, length_filled};
ghost use Rattle.cell_layout.specs.HostAnswers.{packed, read_answer, read_cell, shown_answer, write_answer, written_buffer, check_answer, event_answer, event_cell, drain_answer, drain_cell};

use cell_events::{drain_at, event_at, pack};
use cell_layout::{CELL, JOB_COUNT, NO_CELL, STAGES};
use cell_reads::frame_in;
use cell_writes::put_plan;
use events::Event;
use moves_run::answer_input;
use plan_bytes::LentPlan;
use plan_numbers::{check_first, check_number, check_second, text_number, write_number};
use plan_upstream::upstream_check;
use read_plan::read;
use write_plan::write_plan;

// A number with two places, the check's alone: all other answers have one.
fn pack_two(number: u32, first: u32, second: u32) -> u64
    requires { (number ≤ 65535) × (second ≤ 65535) }
    ensures { result ≡ packed number first second }
{
    u64::from(number) + 65536 * u64::from(second) + 4294967296 * u64::from(first)
}

pub fn rilthoss_load(cell: &mut [u8], job: u32, kind: u32) -> u64
    ensures { (result ≡ event_answer cell.old (Event.Load job kind)) × (cell.new ≡ event_cell cell.old (Event.Load job kind)) }
{
    event_at(cell, Event::Load { job, kind })
}

pub fn rilthoss_advance(cell: &mut [u8], job: u32) -> u64
    ensures { (result ≡ event_answer cell.old (Event.Advance job)) × (cell.new ≡ event_cell cell.old (Event.Advance job)) }
{
    event_at(cell, Event::Advance(job))
}

pub fn rilthoss_unload(cell: &mut [u8], job: u32) -> u64
    ensures { (result ≡ event_answer cell.old (Event.Unload job)) × (cell.new ≡ event_cell cell.old (Event.Unload job)) }
{
    event_at(cell, Event::Unload(job))
}

pub fn rilthoss_pull(cell: &mut [u8], job: u32) -> u64
    ensures { (result ≡ event_answer cell.old (Event.Pull job)) × (cell.new ≡ event_cell cell.old (Event.Pull job)) }
{
    event_at(cell, Event::Pull(job))
}

pub fn rilthoss_drain(cell: &mut [u8], budget: u32) -> u64
    ensures { (result ≡ drain_answer cell.old budget) × (cell.new ≡ drain_cell cell.old budget) }
{
    drain_at(cell, budget)
}

// The plan of a text in place of the one that was there; a refused text gives the empty plan. The table stays.
pub fn rilthoss_read_plan(cell: &mut [u8], text: &[u8]) -> u64
    ensures { (result ≡ read_answer text.now cell.old) × (cell.new ≡ read_cell text.now cell.old) }
{
    if cell.len() < CELL {
        return NO_CELL;
    }
    let reading = read(text);
    let answer = reading.answer;
    let plan = LentPlan {
        frame: &reading.frame,
        stages: &reading.stages,
    };
    put_plan(plan, cell);
    pack(text_number(answer), reading.line)
}

// Where in a text the line that its refusal is about begins and ends.
pub fn rilthoss_shown(text: &[u8]) -> u64
    ensures { result ≡ shown_answer text.now }
{
    let reading = read(text);
    let from = reading.from as u64;
    let to = reading.to as u64;
    from + 4294967296 * to
}

// The canonical text of the plan, written into the buffer; beside the number stands its length.
pub fn rilthoss_write_plan<'a>(cell: &'a [u8], buffer: &'a mut [u8]) -> u64
    ensures { (result ≡ write_answer cell.now buffer.old) × (buffer.new ≡ written_buffer cell.now buffer.old) }
{
    if cell.len() < CELL {
        return NO_CELL;
    }
    let frame = frame_in(cell);
    let plan = LentPlan {
        frame: &frame,
        stages: &cell[STAGES..JOB_COUNT],
    };
    let written = write_plan(plan, buffer);
    let answer = written.answer;
    pack(write_number(answer), written.length as u32)
}

// The upstream check of the plan.
pub fn rilthoss_check(cell: &[u8]) -> u64
    ensures { result ≡ check_answer cell.now }
{
    if cell.len() < CELL {
        return NO_CELL;
    }
    let frame = frame_in(cell);
    let check = upstream_check(LentPlan {
        frame: &frame,
        stages: &cell[STAGES..JOB_COUNT],
    });
    let number = check_number(check);
    let first = check_first(check);
    let second = check_second(check);
    pack_two(number, first, second)
}

// The whole run of `cellmoves`: the output then begins with what is printed, and the answer is its length; 0 where it does not fit.
pub fn rilthoss_run(input: &[u8], buffer: &mut [u8]) -> usize
    ensures { (result ≡ length_filled (output input.now) buffer.old) × (buffer.new ≡ filled (output input.now) buffer.old) }
{
    let printed = answer_input(input, buffer);
    printed
}
