// A whole line at the desk: an event or a malformed line is answered, and a person is told of a refusal; and the line that is held when the
// input ends.
#![tactic(auto)]

ghost use Rattle.std.specs.Prelude.{◌≡◌, ◌≤◌, length};
ghost use Rattle.plan_bytes.specs.Over.{plan_of};
ghost use Rattle.moves_text.specs.Buffer.{overlaid};
ghost use Rattle.write_lines.specs.Sink.{with_text};
ghost use Rattle.told_text.specs.EventMessage.{malformed_message};
ghost use Rattle.desk_text.specs.HeldLine.{held_means, held_slip};
ghost use Rattle.desk_text.specs.Desk.{desk_with, malformed_out, desk_after_meaning, meaning_out, meaning_told, desk_at_end, out_at_end, told_at_end};

use desk_event::reply_to_event;
use desk_held::{meaning, next_desk, no_line};
use desk_text::{Desk, DeskStep, HeldLine};
use moves_text::{EventLine, MALFORMED};
use plan_bytes::LentPlan;
use tell_event::put_malformed_message;
use tell_slips::event_slip;
use told_text::Slip;
use write_lines::Sink;

// The slip in a malformed line.
#[tactic(auto, unfolding(desk_text::specs::HeldLine::held_slip))]
fn slip_of(held: HeldLine) -> Option<Slip>
    ensures { result ≡ held_slip held }
{
    let bytes = held.bytes;
    let count = held.count;
    if count <= 64 {
        return event_slip(&bytes[..count]);
    }
    Some(Slip::LongLine)
}

// A line that is malformed.
fn reply_to_malformed(
    desk: Desk,
    slip: Option<Slip>,
    out: &mut Sink<'_>,
    words: &mut Sink<'_>,
) -> Desk
    ensures after { result ≡ desk_with desk.list desk.ordinal }
    ensures answered { out.new ≡ with_text (malformed_out desk) out.old }
    ensures told { words.new ≡ with_text (malformed_message desk.ordinal slip) words.old }
    ensures short { (length (malformed_out desk) ≤ 84) × (length (malformed_message desk.ordinal slip) ≤ 192) }
{
    out.put_event_line(desk.ordinal, MALFORMED, 0, desk.list.count as u64);
    put_malformed_message(desk.ordinal, slip, words);
    next_desk(desk.list, desk.ordinal)
}

// Any line, as it was held.
pub fn reply(
    desk: Desk,
    held: HeldLine,
    plan: LentPlan<'_>,
    out: &mut Sink<'_>,
    words: &mut Sink<'_>,
) -> Desk
    ensures after { result ≡ desk_after_meaning (plan_of plan.entry) desk (held_means held) }
    ensures answered { out.new ≡ with_text (meaning_out (plan_of plan.entry) desk (held_means held)) out.old }
    ensures told { words.new ≡ with_text (meaning_told (plan_of plan.entry) desk held (held_means held)) words.old }
    ensures short { (length (meaning_out (plan_of plan.entry) desk (held_means held)) ≤ 84) × (length (meaning_told (plan_of plan.entry) desk held (held_means held)) ≤ 192) }
{
    match meaning(held) {
        EventLine::Skipped => Desk {
            held: no_line(),
            ..desk
        },
        EventLine::Malformed => reply_to_malformed(desk, slip_of(held), out, words),
        EventLine::Given(event) => reply_to_event(desk, plan, event, out, words),
    }
}

// A line that is held when the input ends has no LF.
fn reply_to_held(desk: Desk, out: &mut Sink<'_>, words: &mut Sink<'_>) -> Desk
    ensures after { result ≡ desk_at_end desk }
    ensures answered { out.new ≡ with_text (out_at_end desk) out.old }
    ensures told { words.new ≡ with_text (told_at_end desk) words.old }
    ensures short { (length (out_at_end desk) ≤ 84) × (length (told_at_end desk) ≤ 192) }
{
    if desk.held.count == 0 {
        return desk;
    }
    reply_to_malformed(desk, Some(Slip::NoLineEnd), out, words)
}

// What is put at the end of the input, as much of it as fits, and the length of all of it.
pub fn reply_at_end(desk: Desk, out: &mut [u8], words: &mut [u8]) -> DeskStep
    ensures after { result.desk ≡ desk_at_end desk }
    ensures answered { (result.put ≡ length (out_at_end desk)) × (out.new ≡ overlaid (out_at_end desk) out.old) }
    ensures told { (result.told ≡ length (told_at_end desk)) × (words.new ≡ overlaid (told_at_end desk) words.old) }
{
    let mut answers = Sink { buffer: out, at: 0 };
    let mut messages = Sink {
        buffer: words,
        at: 0,
    };
    let after = reply_to_held(desk, &mut answers, &mut messages);
    DeskStep {
        desk: after,
        put: answers.at,
        told: messages.at,
    }
}
