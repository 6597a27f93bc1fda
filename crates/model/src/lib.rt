// The plan of a cell and the jobs in it, as values: any bit pattern may come in, and soundness is asked, not assumed.
#![tactic(auto)]

// What one stage demands of each resource and weighs in each row; entry i is resource or row i + 1.
#[derive(Clone, Copy)]
pub struct Stage {
    pub demand: [u8; 32],
    pub weight: [u8; 32],
}

// Counts, then what is kept per resource, per row and per type; 0 beyond the counts. A rank of 0 is no rank.
// `lengths` has the stages of each type, and `stages` all of them, type by type.
#[derive(Clone, Copy)]
pub struct Plan {
    pub resources: u8,
    pub types: u8,
    pub rows: u8,
    pub capacity: [u8; 32],
    pub rank: [u8; 32],
    pub bound: [u16; 32],
    pub lengths: [u8; 16],
    pub stages: [Stage; 128],
}

// A job: its number, its type (`type` is a word of the language) and its stage, each counted from 1.
#[derive(Clone, Copy)]
pub struct Job {
    pub number: u32,
    pub kind: u32,
    pub stage: u32,
}

// What stands in an empty slot.
pub const NO_JOB: Job = Job {
    number: 0,
    kind: 0,
    stage: 0,
};

// What the upstream check answers; its numbers are `check_numbers` of specs/Upstream. One enum, and no `Result`: `check_exact` and the published list speak of `Meets` as of
// the other answers.
#[derive(Clone, Copy)]
pub enum Check {
    Meets,
    UnsoundPlan,
    NoRank,
    NotOneUnit { kind: u32, stage: u32 },
    RowCount,
    WrongWeight(u32),
    WrongBound(u32),
}

// The published numbers of its refusals, as code says them; 11 is that of every question whether a plan is sound.
pub const UNSOUND_PLAN: u32 = 11;

pub const NO_RANK: u32 = 21;

pub const NOT_ONE_UNIT: u32 = 22;

pub const ROW_COUNT: u32 = 23;

pub const WRONG_WEIGHT: u32 = 24;

pub const WRONG_BOUND: u32 = 25;
