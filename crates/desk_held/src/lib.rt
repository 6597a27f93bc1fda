// What the desk keeps: the line that is held until its LF comes, with more bytes, and what it then means; and the desk before the first line and
// after a line.
#![tactic(auto)]

ghost use Rattle.std.specs.Prelude.{◌≡◌};
ghost use Rattle.desk_text.specs.HeldLine.{no_line, held_with, held_means};
ghost use Rattle.desk_text.specs.Desk.{start_desk, desk_with};

use admission::Table;
use desk_text::{Desk, HeldLine};
use events::JobList;
use moves_input::event_of;
use moves_text::EventLine;
use read_fields::is_skipped;
use write_lines::put_text;

pub fn no_line() -> HeldLine
    ensures { result ≡ no_line }
{
    HeldLine {
        bytes: [0; 64],
        count: 0,
    }
}

// The line with more bytes: as many as there is room for are kept.
pub fn hold(held: HeldLine, more: &[u8]) -> HeldLine
    ensures { result ≡ held_with held more.now }
{
    let mut bytes = held.bytes;
    put_text(more, &mut bytes, held.count);
    let count = held.count.min(65) + more.len().min(65);
    HeldLine {
        bytes,
        count: count.min(65),
    }
}

// What it means when its LF has come. A line that is longer than there is room for is no event line.
#[tactic(auto, unfolding(desk_text::specs::HeldLine::held_means))]
pub fn meaning(held: HeldLine) -> EventLine
    ensures { result ≡ held_means held }
{
    let bytes = held.bytes;
    let count = held.count;
    if count <= 64 {
        return event_of(&bytes[..count], true);
    }
    if is_skipped(&bytes) {
        EventLine::Skipped
    } else {
        EventLine::Malformed
    }
}

// The desk before the first line.
pub fn start_desk() -> Desk
    ensures { result ≡ start_desk }
{
    Desk {
        list: Table::empty().list,
        ordinal: 1,
        held: no_line(),
    }
}

// The desk after a counted line, with these jobs.
pub fn next_desk(list: JobList, ordinal: u64) -> Desk
    ensures { result ≡ desk_with list ordinal }
{
    Desk {
        list,
        ordinal: ordinal.saturating_add(1),
        held: no_line(),
    }
}
