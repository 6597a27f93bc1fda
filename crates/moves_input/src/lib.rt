// The lines of an input of `cellmoves`: where its plan ends, and what an event line says.
#![tactic(auto)]

ghost use Rattle.std.specs.Prelude.{◌≡◌};
ghost use Rattle.moves_text.specs.Division.{is_mark, plan_length};
ghost use Rattle.moves_text.specs.EventLines.{event_with, event_in};

use events::Event;
use moves_text::EventLine;
use plan_text::Fields;
use read_fields::{fields_of, is_skipped, letter_of};
use read_lines::LineReader;

// The line is exactly `E` and its LF.
fn is_mark(line: &[u8], ended: bool) -> bool
    ensures { result ≡ is_mark (record { bytes = line.now; ended = ended }) }
{
    ended && matches!(line, [b'E'])
}

// How many bytes of the input are its plan: those before the line `E`, and all where there is none.
pub fn plan_length(input: &[u8]) -> usize
    ensures { result ≡ plan_length input.now }
{
    let mut at = 0;
    let mut reader = LineReader::new(input);
    // no `for`: after each line the reader is asked where it stands
    while let Some(line) = reader.next() {
        if is_mark(line.bytes, line.ended) {
            return at;
        }
        at = reader.at;
    }
    input.len()
}

// The event of a letter, with the numbers of the fields.
fn event_with(letter: u8, fields: Fields) -> EventLine
    ensures { result ≡ event_with letter fields }
{
    let [first, second, ..] = fields.numbers;
    match (letter, fields.count) {
        (b'L', 2) => EventLine::Given(Event::Load {
            job: first,
            kind: second,
        }),
        (b'A', 1) => EventLine::Given(Event::Advance(first)),
        (b'U', 1) => EventLine::Given(Event::Unload(first)),
        (b'X', 1) => EventLine::Given(Event::Pull(first)),
        _ => EventLine::Malformed,
    }
}

// What a line after the `E` says.
#[tactic(auto, unfolding(moves_text::specs::EventLines::event_in))]
pub fn event_of(line: &[u8], ended: bool) -> EventLine
    ensures { result ≡ event_in (record { bytes = line.now; ended = ended }) }
{
    if !ended {
        return EventLine::Malformed;
    }
    if is_skipped(line) {
        return EventLine::Skipped;
    }
    match fields_of(line) {
        Ok(fields) => event_with(letter_of(line), fields),
        Err(_) => EventLine::Malformed,
    }
}
