// What a person is told of a refused event and of a malformed line, in one line each.
#![tactic(auto, using(write_lines::proofs::Sinks::text_then))]

ghost use Rattle.std.specs.Prelude.{◌++◌, ◌≡◌, ◌≤◌, length};
ghost use Rattle.told_text.specs.Words.{words_of};
ghost use Rattle.told_text.specs.EventMessage.{event_head, event_place, told_line, malformed_message};
ghost use Rattle.write_lines.specs.Sink.{with_text};

use moves_text::MALFORMED;
use tell_places::{put_event_head, put_event_place};
use tell_slip_words::put_slip;
use tell_words::put_words;
use told_text::Slip;
use write_lines::Sink;

// The ordinal, and what the number means.
fn put_meaning(ordinal: u64, number: u32, out: &mut Sink<'_>)
    ensures { out.new ≡ with_text (event_head ordinal ++ words_of number) out.old }
{
    put_event_head(ordinal, out);
    put_words(number, out);
}

// Of an event: its ordinal, the number and the place of its answer, and by how much the row of a 19 would be exceeded.
pub fn put_event_message(ordinal: u64, number: u32, place: u32, excess: u32, out: &mut Sink<'_>)
    ensures value { out.new ≡ with_text (told_line ordinal number (event_place number place excess)) out.old }
    ensures upper_bound { length (told_line ordinal number (event_place number place excess)) ≤ 192 }
{
    put_meaning(ordinal, number, out);
    put_event_place(number, place, excess, out);
    out.put(b"\n");
}

// Of a malformed line: its ordinal, and the slip that it shows.
pub fn put_malformed_message(ordinal: u64, slip: Option<Slip>, out: &mut Sink<'_>)
    ensures value { out.new ≡ with_text (malformed_message ordinal slip) out.old }
    ensures upper_bound { length (malformed_message ordinal slip) ≤ 192 }
{
    put_meaning(ordinal, MALFORMED, out);
    put_slip(slip, out);
    out.put(b"\n");
}
