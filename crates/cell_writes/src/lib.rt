// A plan and a job list, written into the bytes of a host.
#![tactic(auto)]

ghost use Rattle.std.specs.Prelude.{◌≡◌, ◌+◌, ◌≤◌, ◌%◌, [], length, take};
ghost use Rattle.plan_bytes.specs.Over.{plan_read, plan_of};
ghost use Rattle.moves_text.specs.Buffer.{overlaid_at};
ghost use Rattle.cell_layout.specs.Layout.{bytes_of, bytes_of_each, bound_size, job_bytes, job_size, offset_of, bounds_part, stages_part, cell_size};
ghost use Rattle.cell_layout.specs.Layout.{with_parts, plan_parts, with_plan, with_list};

use cell_layout::{BOUNDS, CAPACITIES, CELL, JOB_COUNT, JOBS, LENGTHS, RANKS, RESOURCES, STAGES};
use events::JobList;
use model::Job;
use plan_bytes::{Frame, LentPlan};
use write_lines::put_text;

// The bytes of all stages.
const ALL_STAGES: usize = JOB_COUNT - STAGES;

fn lay_number(n: u32, cell: &mut [u8], at: usize)
    requires { at + 4 ≤ length cell.old }
    ensures { cell.new ≡ overlaid_at at (bytes_of 4 n) cell.old }
{
    cell[at..at + 4].copy_from_slice(&n.to_le_bytes());
}

fn lay_job(j: Job, cell: &mut [u8], at: usize)
    requires { at + job_size ≤ length cell.old }
    ensures { cell.new ≡ overlaid_at at (job_bytes j) cell.old }
{
    lay_number(j.number, cell, at);
    lay_number(j.kind, cell, at + 4);
    lay_number(j.stage, cell, at + 8);
}

fn lay_bound(bound: u16, cell: &mut [u8], at: usize)
    requires { at + bound_size ≤ length cell.old }
    ensures { cell.new ≡ overlaid_at at (bytes_of bound_size bound) cell.old }
{
    cell[at..at + 2].copy_from_slice(&bound.to_le_bytes());
}

fn lay_bounds(bound: [u16; 32], cell: &mut [u8])
    requires { cell_size ≤ length cell.old }
    ensures { cell.new ≡ overlaid_at (offset_of bounds_part) (bytes_of_each (bytes_of bound_size) bound) cell.old }
{
    for (i, b) in bound.iter().enumerate() {
        lay_bound(*b, cell, BOUNDS + 2 * i);
    }
}

// All parts of a plan but the last, its stages.
fn lay_frame(frame: &Frame, cell: &mut [u8])
    requires { cell_size ≤ length cell.old }
    ensures { cell.new ≡ with_parts (take stages_part (plan_parts (plan_read frame.now []))) cell.old }
{
    put_text(&[frame.resources, frame.types, frame.rows], cell, RESOURCES);
    put_text(&frame.capacity, cell, CAPACITIES);
    put_text(&frame.rank, cell, RANKS);
    let bound = frame.bound;
    lay_bounds(bound, cell);
    put_text(&frame.lengths, cell, LENGTHS);
}

// The plan in place of the one that was there. A slice that has not the bytes of all stages is that of none, and then those in the cell stay. Bytes
// too few for a cell stay as they are.
pub fn put_plan(plan: LentPlan<'_>, cell: &mut [u8])
    ensures { cell.new ≡ with_plan (plan_of plan.entry) cell.old }
{
    if cell.len() < CELL {
        return;
    }
    lay_frame(plan.frame, cell);
    if plan.stages.len() != ALL_STAGES {
        return;
    }
    put_text(plan.stages, cell, STAGES);
}

// The job list in place of the one that was there. The jobs are taken from it where it lies: handed on, the whole list would be copied.
pub fn put_list(l: JobList, cell: &mut [u8])
    ensures { cell.new ≡ with_list l cell.old }
{
    if cell.len() < CELL {
        return;
    }
    cell[JOB_COUNT] = (l.count % 256) as u8;
    for i in 0..64 {
        lay_job(l.jobs[i], cell, JOBS + 12 * i);
    }
}
