// A cell in the bytes of a host: where its parts begin, each behind the one before it. Their meaning is defined in specs/, and nothing runs here.
#![tactic(auto)]

pub const RESOURCES: usize = 0;

pub const TYPES: usize = RESOURCES + 1;

pub const ROWS: usize = TYPES + 1;

pub const CAPACITIES: usize = ROWS + 1;

pub const RANKS: usize = CAPACITIES + 32;

pub const BOUNDS: usize = RANKS + 32;

pub const LENGTHS: usize = BOUNDS + 2 * 32;

pub const STAGES: usize = LENGTHS + 16;

pub const JOB_COUNT: usize = STAGES + 64 * 128;

pub const JOBS: usize = JOB_COUNT + 1;

// The bytes of the whole.
pub const CELL: usize = JOBS + 12 * 64;

// What is answered if there are fewer bytes: a number without a place.
pub const NO_CELL: u64 = 9;
