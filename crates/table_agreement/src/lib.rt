// Does a job list agree with a plan: questions 11 and 12, which every event and the drain ask first.
#![tactic(auto)]

ghost use Rattle.std.specs.Prelude.{◌≡◌, ℕ, ◌≤◌, Bool, true, ◌&&◌, eqb, fold};
ghost use Rattle.model.specs.Numbers.{each};
ghost use Rattle.model.specs.Jobs.{numbers, distinct, fits};
ghost use Rattle.events.specs.JobList.{jobs_of};
ghost use Rattle.plan_bytes.specs.Over.{plan_of};
ghost use Rattle.internals.specs.Internals.{well_formed, agreed};
ghost use Rattle.internals.specs.JobNumbers.{jobs_laid, list_lent};

use events::Answer;
use internals::{Agreed, Ceilings, LentJobs};
use model::Job;
use plan_bytes::LentPlan;
use plan_soundness::is_sound;
use plan_stages::{NO_STAGE, length_of};
use table_jobs::job_at;
use table_sums::{kept_after, sums_of};

// No number stands in the list twice: each is looked for among those after it.
fn all_distinct(ns: &[u32]) -> bool
    ensures { result ≡ distinct ns.now }
{
    let mut rest = ns;
    while let Some((n, after)) = rest.split_first() {
        if after.contains(n) {
            return false;
        }
        rest = after;
    }
    true
}

fn numbers_of(jobs: &[u32; 192]) -> [u32; 64]
    ensures { result ≡ numbers (jobs_laid jobs.now) }
{
    std::array::from_fn(|i| jobs[i * 3])
}

#[tactic(auto, unfolding(model::specs::Jobs::fits))]
fn job_fits(j: Job, lengths: &[u8; 16], types: u32) -> bool
    ensures { result ≡ fits types lengths.now j }
{
    (1..=65535).contains(&j.number)
        && (1..=types).contains(&j.kind)
        && (1..=length_of(lengths, j.kind)).contains(&j.stage)
}

fn jobs_fit<'a>(jobs: LentJobs<'a>, lengths: &'a [u8; 16], types: u32) -> bool
    requires { jobs.count ≤ 64 }
    ensures { result ≡ each (fits types lengths.now) (jobs_of (list_lent jobs.entry)) }
{
    for i in 0..jobs.count {
        let j = job_at(jobs.numbers, i);
        if !job_fits(j, lengths, types) {
            return false;
        }
    }
    true
}

// Only zeros. A fold by `&`, since `all` and `&&` leave at the first that is none: that is not vectorised, and takes four times the instructions.
fn all_zero(xs: &[u32]) -> bool
    ensures { result ≡ fold (λ (zero : Bool) (x : ℕ). zero && eqb x 0) true xs.now }
{
    xs.iter().fold(true, |zero, x| zero & (*x == 0))
}

// What question 12 asks of the jobs one by one, of their numbers and of what lies beyond them.
fn well_formed<'a>(jobs: LentJobs<'a>, lengths: &'a [u8; 16], types: u32) -> bool
    ensures { result ≡ well_formed types lengths.now (list_lent jobs.entry) }
{
    if 64 < jobs.count {
        return false;
    }
    let laid = jobs.numbers;
    all_zero(&laid[jobs.count * 3..])
        && jobs_fit(jobs, lengths, types)
        && all_distinct(&numbers_of(laid)[..jobs.count])
}

// The same numbers in 16 bits each.
fn widened(xs: [u8; 32]) -> [u16; 32]
    ensures { result ≡ xs }
{
    std::array::from_fn(|i| u16::from(xs[i]))
}

// Questions 11 and 12. The ceilings are copied out of the frame here, for all later questions.
pub fn agree<'a>(plan: LentPlan<'a>, jobs: LentJobs<'a>) -> Result<Agreed, Answer>
    ensures { result ≡ agreed (plan_of plan.entry) (list_lent jobs.entry) }
{
    if !is_sound(plan) {
        return Err(Answer::UnsoundPlan);
    }
    let lengths = plan.frame.lengths;
    if !well_formed(jobs, &lengths, plan.frame.types as u32) {
        return Err(Answer::Disagreement);
    }
    let sums = sums_of(plan, jobs);
    let capacity = plan.frame.capacity;
    let bound = plan.frame.bound;
    let ceilings = Ceilings {
        capacity: widened(capacity),
        bound,
    };
    if kept_after(sums, plan.stages, NO_STAGE, NO_STAGE, ceilings).is_err() {
        return Err(Answer::Disagreement);
    }
    Ok(Agreed { sums, ceilings })
}
