// What `celldesk` keeps from one read to the next, as values. What it puts is defined in specs/, and nothing runs here.
#![tactic(auto)]

use events::JobList;

// The line whose LF has not come yet: its first bytes, as many as there is room for, and how many bytes it has, 65 where these are more
// than there is room for. An event line has 13 at most. Fixed memory and no heap: so no Vec, and the laws of the desk are of these two fields.
#[derive(Clone, Copy)]
pub struct HeldLine {
    pub bytes: [u8; 64],
    pub count: usize,
}

// The jobs, the ordinal of the next counted line, and the line that is held.
#[derive(Clone, Copy)]
pub struct Desk {
    pub list: JobList,
    pub ordinal: u64,
    pub held: HeldLine,
}

// The desk after what came, and how many bytes were put of it: answers, and words for a person.
#[derive(Clone, Copy)]
pub struct DeskStep {
    pub desk: Desk,
    pub put: usize,
    pub told: usize,
}
