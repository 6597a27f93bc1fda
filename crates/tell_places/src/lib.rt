// The parts of what a person is told that have a number in them: which line or event, and the place of an answer, put into a sink.
#![tactic(auto, using(write_lines::proofs::Sinks::text_then, write_lines::proofs::Sinks::nothing_put))]

ghost use Rattle.std.specs.Prelude.{◌≡◌, ◌++◌};
ghost use Rattle.moves_text.specs.Decimals.{decimal};
ghost use Rattle.told_text.specs.PlanMessage.{line_head, check_place};
ghost use Rattle.told_text.specs.EventMessage.{event_head, event_place};
ghost use Rattle.write_lines.specs.Sink.{with_text};

use write_lines::Sink;

// A number between two texts.
fn put_between<'a>(before: &'a [u8], n: u64, after: &'a [u8], out: &mut Sink<'_>)
    ensures { out.new ≡ with_text (before.now ++ decimal n ++ after.now) out.old }
{
    out.put(before);
    out.put_decimal(n);
    out.put(after);
}

// The line that a message is about.
pub fn put_line_head(line: u32, out: &mut Sink<'_>)
    ensures { out.new ≡ with_text (line_head line) out.old }
{
    put_between(b"line ", u64::from(line), b": ", out);
}

// The event that it is about.
pub fn put_event_head(ordinal: u64, out: &mut Sink<'_>)
    ensures { out.new ≡ with_text (event_head ordinal) out.old }
{
    put_between(b"event ", ordinal, b": ", out);
}

// Where a plan does not meet the upstream rule, by the number of the check and its two places.
pub fn put_check_place(number: u32, first: u32, second: u32, out: &mut Sink<'_>)
    ensures { out.new ≡ with_text (check_place number first second) out.old }
{
    match number {
        22 => {
            put_between(b": stage ", u64::from(second), b" of type ", out);
            out.put_decimal(u64::from(first));
            out.put(b" does not");
        }
        24 => put_between(b": row ", u64::from(first), b" does not", out),
        25 => put_between(b": that of row ", u64::from(first), b" is not", out),
        _ => {}
    }
}

// The place of an event's answer, with the excess of its row.
pub fn put_event_place(number: u32, place: u32, excess: u32, out: &mut Sink<'_>)
    ensures { out.new ≡ with_text (event_place number place excess) out.old }
{
    match number {
        18 => {
            out.put(b": resource ");
            out.put_decimal(u64::from(place));
        }
        19 => {
            put_between(b": row ", u64::from(place), b", by ", out);
            out.put_decimal(u64::from(excess));
        }
        _ => {}
    }
}
