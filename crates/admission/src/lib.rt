// The table of active jobs with its methods: what a host calls. Each hands its job list to the function that does the work.
#![tactic(auto)]

ghost use Rattle.std.specs.Prelude.{◌≡◌};
ghost use Rattle.events.specs.Events.{agreement};
ghost use Rattle.plan_bytes.specs.Over.{plan_of};
ghost use Rattle.admission.specs.Table.{empty_table, outcome, drain};

use events::{Answer, End, Event, JobList};
use internals::LentJobs;
use model::NO_JOB;
use plan_bytes::LentPlan;
use table_jobs::{changed, laid};

// Document 01's table. Any list may stand in it: whether it agrees with a plan is asked, not assumed.
#[derive(Clone, Copy)]
pub struct Table {
    pub list: JobList,
}

// The answer to an event with the table afterwards. No `Result`: a refusal hands the table back as well, as document 01 asks.
#[derive(Clone, Copy)]
pub struct Outcome {
    pub answer: Answer,
    pub table: Table,
}

// The end of a drain with the moves made and the table afterwards, which come with every end.
#[derive(Clone, Copy)]
pub struct Drained {
    pub end: End,
    pub moves: u32,
    pub table: Table,
}

impl Table {
    #[tactic(auto, unfolding(events::specs::JobList::list_of))]
    pub fn empty() -> Table
        ensures { result ≡ empty_table }
    {
        Table {
            list: JobList {
                count: 0,
                jobs: [NO_JOB; 64],
            },
        }
    }

    // Does this table agree with the plan: 0, 11 or 12.
    pub fn agreement(self, plan: LentPlan<'_>) -> Answer
        ensures { result ≡ agreement (plan_of plan.entry) self.list }
    {
        let list = self.list;
        let numbers = laid(list);
        let jobs = LentJobs {
            count: list.count,
            numbers: &numbers,
        };
        match table_agreement::agree(plan, jobs) {
            Ok(_) => Answer::Admitted,
            Err(answer) => answer,
        }
    }

    // Any event. A refusal hands back the same table.
    pub fn handle(self, plan: LentPlan<'_>, event: Event) -> Outcome
        ensures { result ≡ outcome (plan_of plan.entry) self event }
    {
        let list = self.list;
        let numbers = laid(list);
        let jobs = LentJobs {
            count: list.count,
            numbers: &numbers,
        };
        let led = changed(list, table_events::judge(plan, jobs, event));
        let answer = led.answer;
        let list = led.list;
        Outcome {
            answer,
            table: Table { list },
        }
    }

    pub fn load(self, plan: LentPlan<'_>, job: u32, kind: u32) -> Outcome
        ensures { result ≡ outcome (plan_of plan.entry) self (Event.Load job kind) }
    {
        self.handle(plan, Event::Load { job, kind })
    }

    pub fn advance(self, plan: LentPlan<'_>, job: u32) -> Outcome
        ensures { result ≡ outcome (plan_of plan.entry) self (Event.Advance job) }
    {
        self.handle(plan, Event::Advance(job))
    }

    pub fn unload(self, plan: LentPlan<'_>, job: u32) -> Outcome
        ensures { result ≡ outcome (plan_of plan.entry) self (Event.Unload job) }
    {
        self.handle(plan, Event::Unload(job))
    }

    pub fn pull(self, plan: LentPlan<'_>, job: u32) -> Outcome
        ensures { result ≡ outcome (plan_of plan.entry) self (Event.Pull job) }
    {
        self.handle(plan, Event::Pull(job))
    }

    // Moves of the earliest loaded job for which one is admitted, as long as there is budget.
    pub fn drain(self, plan: LentPlan<'_>, budget: u32) -> Drained
        ensures { result ≡ drain (plan_of plan.entry) self budget }
    {
        let list = self.list;
        let drained = table_drain::drain(list, plan, budget);
        let end = drained.end;
        let list = drained.list;
        Drained {
            end,
            moves: drained.moves,
            table: Table { list },
        }
    }
}
