// The text of `cellmoves` as values: what an event line says. What its input means and what is printed is defined in specs/,
// and nothing runs here.
#![tactic(auto)]

use events::Event;

// A line after the `E`: skipped, of no known form (41), or an event. One enum of three, which `Means` (specs/EventLines) speaks of.
#[derive(Clone, Copy)]
pub enum EventLine {
    Skipped,
    Malformed,
    Given(Event),
}

// The published number of a malformed line, as code says it.
pub const MALFORMED: u32 = 41;
