// The drain of a job list: the earliest loaded job whose move is admitted moves, as long as there is budget.
#![tactic(auto)]

ghost use Rattle.std.specs.Prelude.{◌≡◌, ◌≤◌, ◌<◌, get_or};
ghost use Rattle.model.specs.Limits.{max_stages, max_jobs};
ghost use Rattle.model.specs.Soundness.{Sound};
ghost use Rattle.model.specs.Jobs.{no_job};
ghost use Rattle.events.specs.JobList.{Agrees};
ghost use Rattle.events.specs.Drain.{drain_from, list_drain};
ghost use Rattle.internals.specs.Internals.{ceilings_of, earliest_position, moved_at};
ghost use Rattle.plan_bytes.specs.Over.{plan_of};
ghost use Rattle.model.specs.declared.Plan.{Plan};

use events::{Answer, End, JobList, ListDrained};
use internals::{Ceilings, LentJobs};
use model::Job;
use plan_bytes::LentPlan;
use plan_stages::{length_of, stage_index};
use table_agreement::agree;
use table_jobs::{laid, with_replaced, without_job};
use table_sums::{kept_after, sums_of};

// The position of the earliest loaded job whose move is admitted. A job at its last stage can always be unloaded.
fn earliest(plan: LentPlan<'_>, t: JobList, ceilings: Ceilings) -> Option<usize>
    requires { Sound (plan_of plan) × Agrees (plan_of plan) t × (ceilings ≡ ceilings_of (plan_of plan)) }
    ensures { result ≡ earliest_position (plan_of plan.entry) t }
{
    let numbers = laid(t);
    let count = t.count;
    let jobs = LentJobs {
        count,
        numbers: &numbers,
    };
    let sums = sums_of(plan, jobs);
    for i in 0..count {
        let j = t.jobs[i];
        if length_of(&plan.frame.lengths, j.kind) == j.stage {
            return Some(i);
        }
        let from = stage_index(&plan.frame.lengths, j.kind, j.stage);
        let to = from + 1;
        if kept_after(sums, plan.stages, from, to, ceilings).is_ok() {
            return Some(i);
        }
    }
    None
}

// The list after the move of the job at this position, under any plan with these stages per type: an advance, or an unload
// at the last stage.
fn after_move(t: JobList, at: usize, lengths: &[u8; 16]) -> JobList
    requires { (at < t.count) × (t.count ≤ max_jobs) × ((get_or t.jobs at no_job).stage ≤ max_stages) }
    ensures { (p : Plan) → Sound p → Agrees p t → p.lengths ≡ lengths.now → result ≡ moved_at p t at }
{
    let j = t.jobs[at];
    if length_of(lengths, j.kind) == j.stage {
        return without_job(t, at);
    }
    let next = Job {
        stage: j.stage + 1,
        ..j
    };
    with_replaced(t, at, next)
}

// From an agreeing list: is a job left, is there budget, is some job's move admitted.
fn drain_from(plan: LentPlan<'_>, t: JobList, ceilings: Ceilings, budget: u32) -> ListDrained
    requires { Sound (plan_of plan) × Agrees (plan_of plan) t × (ceilings ≡ ceilings_of (plan_of plan)) }
    ensures { result ≡ drain_from (plan_of plan.entry) budget t }
{
    let mut t = t;
    let mut moves = 0;
    // the loop with a budget that document 01 names
    while 0 < t.count {
        if budget <= moves {
            return ListDrained {
                end: End::OutOfBudget,
                moves,
                list: t,
            };
        }
        let first = earliest(plan, t, ceilings);
        let Some(at) = first else {
            return ListDrained {
                end: End::NoMove,
                moves,
                list: t,
            };
        };
        t = after_move(t, at, &plan.frame.lengths);
        moves += 1;
    }
    ListDrained {
        end: End::Emptied,
        moves,
        list: t,
    }
}

pub fn drain(t: JobList, plan: LentPlan<'_>, budget: u32) -> ListDrained
    ensures { result ≡ list_drain (plan_of plan.entry) t budget }
{
    let numbers = laid(t);
    let jobs = LentJobs {
        count: t.count,
        numbers: &numbers,
    };
    let refusal = match agree(plan, jobs) {
        Ok(agreed) => return drain_from(plan, t, agreed.ceilings, budget),
        Err(refusal) => refusal,
    };
    match refusal {
        Answer::UnsoundPlan => ListDrained {
            end: End::UnsoundPlan,
            moves: 0,
            list: t,
        },
        _ => ListDrained {
            end: End::Disagreement,
            moves: 0,
            list: t,
        },
    }
}
