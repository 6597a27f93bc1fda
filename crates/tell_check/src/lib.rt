// What a person is told of an accepted plan that does not meet the upstream rule, in one line.
#![tactic(auto)]

ghost use Rattle.std.specs.Prelude.{◌≡◌, length};
ghost use Rattle.told_text.specs.PlanMessage.{check_message_with, check_message};
ghost use Rattle.moves_text.specs.Buffer.{overlaid};
ghost use Rattle.plan_bytes.specs.Over.{plan_of};
ghost use Rattle.write_lines.specs.Sink.{with_text};

use plan_bytes::LentPlan;
use plan_numbers::{check_first, check_number, check_second};
use plan_upstream::upstream_check;
use tell_places::put_check_place;
use tell_words::put_words;
use write_lines::Sink;

fn put_check_message(number: u32, first: u32, second: u32, out: &mut Sink<'_>)
    ensures { out.new ≡ with_text (check_message_with number first second) out.old }
{
    out.put(b"the cell may deadlock although moves are admitted: ");
    put_words(number, out);
    put_check_place(number, first, second, out);
    out.put(b"\n");
}

// As much as fits of it, and the length of all of it; nothing of a plan that meets the rule.
pub fn check_message(plan: LentPlan<'_>, buffer: &mut [u8]) -> usize
    ensures { let p = plan_of plan.entry in (result ≡ length (check_message p)) × (buffer.new ≡ overlaid (check_message p) buffer.old) }
{
    let check = upstream_check(plan);
    // by its number, of which the words are
    let number = check_number(check);
    if number == 0 {
        return 0;
    }
    let mut out = Sink { buffer, at: 0 };
    put_check_message(number, check_first(check), check_second(check), &mut out);
    out.at
}
