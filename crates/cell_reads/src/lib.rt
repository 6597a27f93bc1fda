// The frame of the plan and the job list that lie in the bytes of a host; the stages are lent where they lie. Any bytes hold some: whether they are
// sound and agree is asked by whoever uses them.
#![tactic(auto)]

ghost use Rattle.std.specs.Prelude.{◌≡◌, length};
ghost use Rattle.model.specs.Limits.{max_rows};
ghost use Rattle.events.specs.JobList.{empty_list};
ghost use Rattle.plan_bytes.specs.Over.{entries_in};
ghost use Rattle.internals.specs.JobNumbers.{jobs_laid};
ghost use Rattle.cell_layout.specs.Layout.{value_of, bound_size, size_of, bounds_part, frame_in, list_in};

use crate::entries::{bound_at, bytes, job_from, number_at};
use cell_layout::{
    BOUNDS, CAPACITIES, CELL, JOB_COUNT, JOBS, LENGTHS, RANKS, RESOURCES, ROWS, STAGES, TYPES,
};
use events::JobList;
use model::Job;
use plan_bytes::Frame;
use plan_empty::empty_frame;

mod entries;

fn bounds_in(part: &[u8]) -> [u16; 32]
    requires { length part.now ≡ size_of bounds_part }
    ensures { result ≡ entries_in value_of bound_size max_rows part.now }
{
    let mut bounds = [0u16; 32];
    for i in 0..32 {
        bounds[i] = bound_at(part, 2 * i);
    }
    bounds
}

// The frame of the cell's plan; that of the empty plan where the bytes are too few.
pub fn frame_in(cell: &[u8]) -> Frame
    ensures { result ≡ frame_in cell.now }
{
    if cell.len() < CELL {
        return empty_frame();
    }
    Frame {
        resources: cell[RESOURCES],
        types: cell[TYPES],
        rows: cell[ROWS],
        capacity: bytes(&cell[CAPACITIES..RANKS]),
        rank: bytes(&cell[RANKS..BOUNDS]),
        bound: bounds_in(&cell[BOUNDS..LENGTHS]),
        lengths: bytes(&cell[LENGTHS..STAGES]),
    }
}

// What `Table::empty` holds; to take it from there, these reads would stand on all that an event does.
fn no_jobs() -> JobList
    ensures { result ≡ empty_list }
{
    let none = Job {
        number: 0,
        kind: 0,
        stage: 0,
    };
    JobList {
        count: 0,
        jobs: [none; 64],
    }
}

// How many jobs the cell counts.
pub fn count_in(cell: &[u8]) -> usize
    ensures { result ≡ (list_in cell.now).count }
{
    if cell.len() < CELL {
        return 0;
    }
    usize::from(cell[JOB_COUNT])
}

// The jobs of the cell by their numbers, three a slot, for an event that only asks them.
pub fn jobs_in(cell: &[u8]) -> [u32; 192]
    ensures { jobs_laid result ≡ (list_in cell.now).jobs }
{
    let mut jobs = [0u32; 192];
    if cell.len() < CELL {
        return jobs;
    }
    for i in 0..192 {
        jobs[i] = number_at(&cell[JOBS..CELL], 4 * i);
    }
    jobs
}

// The job list of the cell; no job where the bytes are too few. It is filled in place, so that no job is copied twice.
pub fn list_in(cell: &[u8]) -> JobList
    ensures { result ≡ list_in cell.now }
{
    let mut list = no_jobs();
    if cell.len() < CELL {
        return list;
    }
    list.count = count_in(cell);
    for i in 0..64 {
        list.jobs[i] = job_from(&cell[JOBS..CELL], 12 * i);
    }
    list
}
