// The canonical form of a plan, and what writing it answers, as values. What they mean is defined in specs/, and nothing runs here.
#![tactic(auto)]

// What the writer answers; its numbers are `write_number` of specs/Writing. One enum, as the published list has it.
#[derive(Clone, Copy)]
pub enum WriteAnswer {
    Written,
    UnsoundPlan,
    NoRoom,
}

// The answer, and the length of the text written; 0 where it is refused. No `Result`: `writing` (specs/Writing) gives both, and so does what a host is answered.
#[derive(Clone, Copy)]
pub struct Writing {
    pub answer: WriteAnswer,
    pub length: usize,
}

// The published number of a text that has no room, as code says it; 11 is `model::UNSOUND_PLAN`.
pub const NO_ROOM: u32 = 9;
