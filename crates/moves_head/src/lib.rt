// The lines about a plan, put into a sink: `P`, and `Q` where it was accepted.
#![tactic(auto)]

ghost use Rattle.std.specs.Prelude.{◌≡◌};
ghost use Rattle.moves_text.specs.OutputLines.{about_check, about_text};
ghost use Rattle.plan_bytes.specs.Over.{plan_of};
ghost use Rattle.write_lines.specs.Sink.{with_text};

use plan_bytes::LentPlan;
use plan_numbers::{check_first, check_number, check_second};
use plan_upstream::upstream_check;
use write_lines::Sink;

fn put_check(plan: LentPlan<'_>, out: &mut Sink<'_>)
    ensures { out.new ≡ with_text (about_check (plan_of plan.entry)) out.old }
{
    let check = upstream_check(plan);
    out.put_check_line(check_number(check), check_first(check), check_second(check));
}

// By the number and the line of the reading, which are what is printed; 0 where the text was accepted.
#[tactic(auto, using(write_lines::proofs::Sinks::text_then, moves_text::proofs::OutputParts::about_accepted, moves_text::proofs::OutputParts::about_refused))]
pub fn put_about(number: u32, line: u32, plan: LentPlan<'_>, out: &mut Sink<'_>)
    ensures { out.new ≡ with_text (about_text number line (plan_of plan.entry)) out.old }
{
    out.put_plan_line(number, line);
    if number < 1 {
        put_check(plan, out);
    }
}
