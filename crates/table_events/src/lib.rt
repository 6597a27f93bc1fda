// The events at a job list that is lent: the questions in their order, and what an admitted event does to the list.
#![tactic(auto)]

ghost use Rattle.std.specs.Prelude.{◌≡◌};
ghost use Rattle.plan_bytes.specs.Over.{plan_of};
ghost use Rattle.internals.specs.JobNumbers.{list_lent, Judges};
ghost use Rattle.table_events.specs.ActiveAsked.{active_asked, removal_from};

use events::{Answer, Event};
use internals::{Agreed, Change, Found, LentJobs, StageAsked};
use model::Job;
use plan_bytes::LentPlan;
use plan_stages::{NO_STAGE, stage_index};
use table_agreement::agree;
use table_jobs::look_up;
use table_questions::{active_answer, load_answer};
use table_sums::kept_after;

pub fn load<'a>(
    plan: LentPlan<'a>,
    jobs: LentJobs<'a>,
    job: u32,
    kind: u32,
) -> Result<Change, Answer>
    ensures { Judges (plan_of plan.entry) (list_lent jobs.entry) (Event.Load job kind) result }
{
    let agreed = agree(plan, jobs)?;
    let types = plan.frame.types as u32;
    load_answer(jobs.count, look_up(jobs, job), types, job, kind)?;
    let to = stage_index(&plan.frame.lengths, kind, 1);
    kept_after(agreed.sums, plan.stages, NO_STAGE, to, agreed.ceilings)?;
    Ok(Change::Added(Job {
        number: job,
        kind,
        stage: 1,
    }))
}

// What questions 11 to 14 and 17 hand on of an event whose job must be active: what agreement does, and the job that it names.
#[derive(Clone, Copy)]
pub(crate) struct Asked {
    pub agreed: Agreed,
    pub found: Found,
}

fn ask_active<'a>(
    plan: LentPlan<'a>,
    jobs: LentJobs<'a>,
    job: u32,
    wanted: StageAsked,
) -> Result<Asked, Answer>
    ensures { result ≡ active_asked (plan_of plan.entry) (list_lent jobs.entry) job wanted }
{
    let agreed = agree(plan, jobs)?;
    let found = active_answer(&plan.frame.lengths, look_up(jobs, job), job, wanted)?;
    Ok(Asked { agreed, found })
}

pub fn advance<'a>(plan: LentPlan<'a>, jobs: LentJobs<'a>, job: u32) -> Result<Change, Answer>
    ensures { Judges (plan_of plan.entry) (list_lent jobs.entry) (Event.Advance job) result }
{
    let Asked { agreed, found } = ask_active(plan, jobs, job, StageAsked::Next)?;
    let from = stage_index(&plan.frame.lengths, found.job.kind, found.job.stage);
    let to = from + 1;
    kept_after(agreed.sums, plan.stages, from, to, agreed.ceilings)?;
    let next = Job {
        stage: found.job.stage + 1,
        ..found.job
    };
    Ok(Change::Moved {
        at: found.at,
        job: next,
    })
}

// The job goes. It only gives back, so 18 and 19 need not be asked.
fn removal<'a>(
    plan: LentPlan<'a>,
    jobs: LentJobs<'a>,
    job: u32,
    wanted: StageAsked,
) -> Result<Change, Answer>
    ensures { result ≡ removal_from (active_asked (plan_of plan.entry) (list_lent jobs.entry) job wanted) }
{
    let asked = ask_active(plan, jobs, job, wanted)?;
    Ok(Change::Removed(asked.found.at))
}

pub fn unload<'a>(plan: LentPlan<'a>, jobs: LentJobs<'a>, job: u32) -> Result<Change, Answer>
    ensures { Judges (plan_of plan.entry) (list_lent jobs.entry) (Event.Unload job) result }
{
    removal(plan, jobs, job, StageAsked::Last)
}

pub fn pull<'a>(plan: LentPlan<'a>, jobs: LentJobs<'a>, job: u32) -> Result<Change, Answer>
    ensures { Judges (plan_of plan.entry) (list_lent jobs.entry) (Event.Pull job) result }
{
    removal(plan, jobs, job, StageAsked::Any)
}

// Any event.
pub fn judge<'a>(plan: LentPlan<'a>, jobs: LentJobs<'a>, event: Event) -> Result<Change, Answer>
    ensures { Judges (plan_of plan.entry) (list_lent jobs.entry) event result }
{
    match event {
        Event::Load { job, kind } => load(plan, jobs, job, kind),
        Event::Advance(job) => advance(plan, jobs, job),
        Event::Unload(job) => unload(plan, jobs, job),
        Event::Pull(job) => pull(plan, jobs, job),
    }
}
