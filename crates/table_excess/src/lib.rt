// By how much an event would exceed a row. As in question 19 one stage is exchanged for another in the sums over the jobs, but no question need be met, and any
// row may be asked.
#![tactic(auto)]

ghost use Rattle.std.specs.Prelude.{◌≡◌, ◌+◌, ◌-◌};
ghost use Rattle.model.specs.Numbers.{at};
ghost use Rattle.model.specs.Jobs.{job_of};
ghost use Rattle.events.specs.JobList.{jobs_of};
ghost use Rattle.plan_bytes.specs.Over.{plan_of};
ghost use Rattle.told_text.specs.EventMessage.{excess_after};
ghost use Rattle.internals.specs.Internals.{index_in};
ghost use Rattle.internals.specs.JobNumbers.{list_lent};
ghost use Rattle.table_excess.specs.Exchanges.{removal_in, exchange_in};

use events::{Event, JobList};
use internals::LentJobs;
use model::{Job, NO_JOB};
use plan_bytes::LentPlan;
use plan_stages::{NO_STAGE, length_of, weights_at};
use table_jobs::{laid, look_up};
use table_sums::{above_ceiling, index_of, sums_of};

// Where the stages stand that an event gives back and takes, counted from 0. 128 for none, as of `index_of`: no stage stands there, which weighs nothing, so
// neither end has to be asked whether it is there.
#[derive(Clone, Copy)]
pub(crate) struct Exchange {
    pub old: usize,
    pub new: usize,
}

// Where the stage after a job's own stands; 128 where there is none.
fn next_index(lengths: &[u8; 16], types: u32, j: Job) -> usize
    ensures { result ≡ index_in lengths.now types j.kind (j.stage + 1) }
{
    if length_of(lengths, j.kind) <= j.stage {
        return NO_STAGE;
    }
    let next = Job {
        stage: j.stage + 1,
        ..j
    };
    index_of(lengths, types, next)
}

// The job with a number; none where it is not active.
fn named(jobs: LentJobs<'_>, job: u32) -> Job
    ensures { result ≡ job_of job (jobs_of (list_lent jobs.entry)) }
{
    match look_up(jobs, job) {
        Some(found) => found.job,
        None => NO_JOB,
    }
}

// A job that goes only gives back.
fn removal<'a>(lengths: &'a [u8; 16], types: u32, jobs: LentJobs<'a>, job: u32) -> Exchange
    ensures { result ≡ removal_in lengths.now types (jobs_of (list_lent jobs.entry)) job }
{
    let j = named(jobs, job);
    Exchange {
        old: index_of(lengths, types, j),
        new: NO_STAGE,
    }
}

fn exchange_of<'a>(lengths: &'a [u8; 16], types: u32, jobs: LentJobs<'a>, event: Event) -> Exchange
    ensures { result ≡ exchange_in lengths.now types (jobs_of (list_lent jobs.entry)) event }
{
    match event {
        Event::Load { job, kind } => {
            let loaded = Job {
                number: job,
                kind,
                stage: 1,
            };
            Exchange {
                old: NO_STAGE,
                new: index_of(lengths, types, loaded),
            }
        }
        Event::Advance(job) => {
            let j = named(jobs, job);
            Exchange {
                old: index_of(lengths, types, j),
                new: next_index(lengths, types, j),
            }
        }
        Event::Unload(job) | Event::Pull(job) => removal(lengths, types, jobs, job),
    }
}

// By how much a row is above its bound once the old weight is given back and the new taken; 0 where it is not, and where there is no such row.
fn row_above(sums: [u16; 32], old: [u8; 32], new: [u8; 32], bounds: [u16; 32], row: u32) -> u32
    ensures { result ≡ at sums row - at old row + at new row - at bounds row }
{
    if !(1..=32).contains(&row) {
        return 0;
    }
    let i = (row - 1) as usize;
    above_ceiling(sums[i], old[i], new[i], bounds[i])
}

// By how much the row would be exceeded, were the event made; 0 where it would be kept.
pub fn excess_after(list: JobList, plan: LentPlan<'_>, event: Event, row: u32) -> u32
    ensures { result ≡ excess_after (plan_of plan.entry) list event row }
{
    let numbers = laid(list);
    let jobs = LentJobs {
        count: list.count,
        numbers: &numbers,
    };
    let sums = sums_of(plan, jobs);
    let exchange = exchange_of(&plan.frame.lengths, plan.frame.types as u32, jobs, event);
    let old = weights_at(plan.stages, exchange.old);
    let new = weights_at(plan.stages, exchange.new);
    let rows = sums.rows;
    let bounds = plan.frame.bound;
    row_above(rows, old, new, bounds, row)
}
