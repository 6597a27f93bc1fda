// An event at the desk: the answer at the table that is lent for it, and what a person is told of a refusal.
#![tactic(auto)]

ghost use Rattle.std.specs.Prelude.{◌≡◌, ◌≤◌, length};
ghost use Rattle.events.specs.Events.{answer, answer_numbers};
ghost use Rattle.plan_bytes.specs.Over.{plan_of};
ghost use Rattle.told_text.specs.EventMessage.{event_message};
ghost use Rattle.desk_text.specs.Desk.{desk_after_event, event_out};
ghost use Rattle.write_lines.specs.Sink.{with_text};

use admission::Table;
use desk_held::next_desk;
use desk_text::Desk;
use events::Event;
use plan_bytes::LentPlan;
use table_excess::excess_after;
use table_lends::handle_lent;
use table_numbers::{answer_number, answer_place};
use tell_event::put_event_message;
use write_lines::Sink;

// What a person is told of an event that is answered by this number and place; nothing of an admitted one.
fn tell_event(
    desk: Desk,
    plan: LentPlan<'_>,
    event: Event,
    number: u32,
    place: u32,
    words: &mut Sink<'_>,
)
    requires { (number, place) ≡ answer_numbers (answer (plan_of plan) desk.list event) }
    ensures told { words.new ≡ with_text (event_message (plan_of plan.entry) desk.list desk.ordinal event) words.old }
    ensures short { length (event_message (plan_of plan.entry) desk.list desk.ordinal event) ≤ 192 }
{
    // by the number, of which the words are
    if number == 0 {
        return;
    }
    let excess = excess_after(desk.list, plan, event, place);
    put_event_message(desk.ordinal, number, place, excess, words);
}

// An event: it is answered at the table, which is lent for it.
pub fn reply_to_event(
    desk: Desk,
    plan: LentPlan<'_>,
    event: Event,
    out: &mut Sink<'_>,
    words: &mut Sink<'_>,
) -> Desk
    ensures after { result ≡ desk_after_event (plan_of plan.entry) desk event }
    ensures answered { out.new ≡ with_text (event_out (plan_of plan.entry) desk event) out.old }
    ensures told { words.new ≡ with_text (event_message (plan_of plan.entry) desk.list desk.ordinal event) words.old }
    ensures short { (length (event_out (plan_of plan.entry) desk event) ≤ 84) × (length (event_message (plan_of plan.entry) desk.list desk.ordinal event) ≤ 192) }
{
    let outcome = handle_lent(Table { list: desk.list }, plan, event);
    let number = answer_number(outcome.answer);
    let place = answer_place(outcome.answer);
    let next = outcome.table.list;
    out.put_event_line(desk.ordinal, number, place, next.count as u64);
    tell_event(desk, plan, event, number, place, words);
    next_desk(next, desk.ordinal)
}
