// What the parts of the entrances hand each other, as values. What they compute is defined in specs/, and nothing runs here.
#![tactic(auto)]

use model::Job;

// A job list as it is lent: its count, and three numbers for each of its 64 slots.
#[derive(Clone, Copy)]
pub struct LentJobs<'a> {
    pub count: usize,
    pub numbers: &'a [u32; 192],
}

// The units held of each resource and the sum of each row; entry i is resource or row i + 1.
#[derive(Clone, Copy)]
pub struct Sums {
    pub units: [u16; 32],
    pub rows: [u16; 32],
}

// What the sums are held against: the capacities, in 16 bits each, and the bounds.
#[derive(Clone, Copy)]
pub struct Ceilings {
    pub capacity: [u16; 32],
    pub bound: [u16; 32],
}

// The row exceeded by the most, of equals the lowest, and its excess, which is its sum less its bound; 0 and 0 where every row is kept. The excess
// is 16,320 at most, of 64 jobs of weight 255 where the bound is 0; 32 bits hold that of any sums. No `Option`: `worst_after` promises the
// two zeros to all who use the row test.
#[derive(Clone, Copy)]
pub struct WorstRow {
    pub row: u32,
    pub excess: u32,
}

// Where the job with a number stands, counted from 0, and the job.
#[derive(Clone, Copy)]
pub struct Found {
    pub at: usize,
    pub job: Job,
}

// What is asked of a job's stage, question 17: that there is a next one, for an advance; that it is the last, for an unload; and nothing,
// for a pull.
#[derive(Clone, Copy)]
pub enum StageAsked {
    Next,
    Last,
    Any,
}

// What questions 11 and 12 hand on: the sums over the jobs and what they are held against.
#[derive(Clone, Copy)]
pub struct Agreed {
    pub sums: Sums,
    pub ceilings: Ceilings,
}

// What an admitted event does to a list: a job comes last, another stands at a position, the one at a position goes.
#[derive(Clone, Copy)]
pub enum Change {
    Added(Job),
    Moved { at: usize, job: Job },
    Removed(usize),
}
