// The jobs of a table, the events and the drain as values. What is answered is defined in specs/, and nothing runs here.
#![tactic(auto)]

use model::Job;

// The active jobs in the order they were loaded; zeros beyond `count`. A table is this list with its methods. An array with a count, as nothing is allocated here, and the
// theorems of the table speak of both.
#[derive(Clone, Copy)]
pub struct JobList {
    pub count: usize,
    pub jobs: [Job; 64],
}

// What may happen to a job. Any number may stand in an event.
#[derive(Clone, Copy)]
pub enum Event {
    Load { job: u32, kind: u32 },
    Advance(u32),
    Unload(u32),
    Pull(u32),
}

// What an event is answered; its numbers are `answer_numbers` of specs/Events. One enum with `Admitted` in it, since `Judged` (specs/Events) and the published list speak of it so;
// a function that refuses hands it on as the error of a `Result`.
#[derive(Clone, Copy)]
pub enum Answer {
    Admitted,
    UnsoundPlan,
    Disagreement,
    BadNumber,
    WrongActivity,
    UnknownType,
    Full,
    WrongStage,
    OverCapacity(u32),
    RowBroken(u32),
}

// The answer to an event with the list afterwards. No `Result`: a refusal hands the list back as well (`Judged`).
#[derive(Clone, Copy)]
pub struct ListOutcome {
    pub answer: Answer,
    pub list: JobList,
}

// How a drain ends; its number is `end_number` of specs/Drain, which speaks of each end alike.
#[derive(Clone, Copy)]
pub enum End {
    Emptied,
    UnsoundPlan,
    Disagreement,
    OutOfBudget,
    NoMove,
}

// The end of a drain with the moves made and the list afterwards, which come with every end.
#[derive(Clone, Copy)]
pub struct ListDrained {
    pub end: End,
    pub moves: u32,
    pub list: JobList,
}

// The published numbers of refusals and of ends, as code says them; 11 is `model::UNSOUND_PLAN`.
pub const DISAGREEMENT: u32 = 12;

pub const BAD_NUMBER: u32 = 13;

pub const WRONG_ACTIVITY: u32 = 14;

pub const UNKNOWN_TYPE: u32 = 15;

pub const FULL: u32 = 16;

pub const WRONG_STAGE: u32 = 17;

pub const OVER_CAPACITY: u32 = 18;

pub const ROW_BROKEN: u32 = 19;

pub const OUT_OF_BUDGET: u32 = 31;

pub const NO_MOVE: u32 = 32;
