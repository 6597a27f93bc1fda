// The job list as numbers, three a slot, as an event asks it; the job with a number there; and the job list after a job is added, replaced or taken
// out. Any list may be handed in.
#![tactic(auto)]

ghost use Rattle.std.specs.Prelude.{◌≡◌, get_or};
ghost use Rattle.model.specs.Jobs.{no_job};
ghost use Rattle.events.specs.JobList.{jobs_of};
ghost use Rattle.internals.specs.Internals.{found_in, with_job, with_replaced, without_job};
ghost use Rattle.internals.specs.JobNumbers.{jobs_laid, list_lent, changed_by, applied};

use events::{Answer, JobList, ListOutcome};
use internals::{Change, Found, LentJobs};
use model::{Job, NO_JOB};

// The job in a slot; none beyond the last.
pub fn job_at(jobs: &[u32; 192], at: usize) -> Job
    ensures { result ≡ get_or (jobs_laid jobs.now) at no_job }
{
    if 63 < at {
        return NO_JOB;
    }
    let from = at * 3;
    Job {
        number: jobs[from],
        kind: jobs[from + 1],
        stage: jobs[from + 2],
    }
}

// The numbers of a list's jobs, so that whoever asks is lent them and copies no list.
pub fn laid(t: JobList) -> [u32; 192]
    ensures { jobs_laid result ≡ t.jobs }
{
    let mut numbers = [0; 192];
    for i in 0..64 {
        let j = t.jobs[i];
        let from = i * 3;
        numbers[from] = j.number;
        numbers[from + 1] = j.kind;
        numbers[from + 2] = j.stage;
    }
    numbers
}

// Where the job with a number stands, and the job.
pub fn look_up(jobs: LentJobs<'_>, number: u32) -> Option<Found>
    ensures { result ≡ found_in number (jobs_of (list_lent jobs.entry)) }
{
    for at in 0..jobs.count.min(64) {
        let job = job_at(jobs.numbers, at);
        if job.number == number {
            return Some(Found { at, job });
        }
    }
    None
}

// A job more, last in order.
#[tactic(auto, unfolding(internals::specs::Internals::with_job))]
pub fn with_job(t: JobList, j: Job) -> JobList
    ensures { result ≡ with_job t j }
{
    let count = t.count;
    if 64 <= count {
        return t;
    }
    let mut next = t;
    next.jobs[count] = j;
    next.count = count + 1;
    next
}

// Another job at this position.
pub fn with_replaced(t: JobList, at: usize, j: Job) -> JobList
    ensures { result ≡ with_replaced t at j }
{
    if 64 <= at {
        return t;
    }
    let mut next = t;
    next.jobs[at] = j;
    next
}

// Without the job at this position; those after it close the gap, and the last slot is empty.
pub fn without_job(t: JobList, at: usize) -> JobList
    ensures { result ≡ without_job t at }
{
    let count = t.count;
    if count <= at {
        return t;
    }
    if 64 < count {
        return t;
    }
    let mut next = t;
    next.jobs.copy_within(at + 1.., at);
    next.jobs[63] = NO_JOB;
    next.count = count - 1;
    next
}

// A change made in a list, whatever the answer beside it.
pub fn changed_by(t: JobList, change: Change) -> JobList
    ensures { result ≡ changed_by t change }
{
    match change {
        Change::Added(job) => with_job(t, job),
        Change::Moved { at, job } => with_replaced(t, at, job),
        Change::Removed(at) => without_job(t, at),
    }
}

// What an event that was judged so leads to.
pub fn changed(t: JobList, judged: Result<Change, Answer>) -> ListOutcome
    ensures { result ≡ applied t judged }
{
    match judged {
        Ok(change) => ListOutcome {
            answer: Answer::Admitted,
            list: changed_by(t, change),
        },
        Err(answer) => ListOutcome { answer, list: t },
    }
}
