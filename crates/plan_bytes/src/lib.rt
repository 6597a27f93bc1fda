// The form of a plan that runs: a frame, and the bytes of its stages, both lent. What plan they are is defined in specs/, and nothing runs here.
#![tactic(auto)]

// All of a plan but its stages: the counts, what is kept per resource, per row and per type, as in `model::Plan`.
#[derive(Clone, Copy)]
pub struct Frame {
    pub resources: u8,
    pub types: u8,
    pub rows: u8,
    pub capacity: [u8; 32],
    pub rank: [u8; 32],
    pub bound: [u16; 32],
    pub lengths: [u8; 16],
}

// A plan as it is lent: its frame, and the bytes of its stages where they lie.
#[derive(Clone, Copy)]
pub struct LentPlan<'a> {
    pub frame: &'a Frame,
    pub stages: &'a [u8],
}
