// What a person is told of a plan, in one line: as much of it as fits, and the length of all of it.
#![tactic(auto)]

ghost use Rattle.std.specs.Prelude.{◌≡◌, length};
ghost use Rattle.told_text.specs.PlanMessage.{text_message, plan_message, message};
ghost use Rattle.moves_text.specs.Buffer.{overlaid};

use moves_input::plan_length;
use plan_bytes::LentPlan;
use plan_text::TextAnswer;
use read_lines::part_of;
use read_plan::read;
use tell_check::check_message;
use tell_line::put_line_message;

// Of a plan text; nothing of an accepted one.
pub fn text_message(text: &[u8], buffer: &mut [u8]) -> usize
    ensures { (result ≡ length (text_message text.now)) × (buffer.new ≡ overlaid (text_message text.now) buffer.old) }
{
    let reading = read(text);
    match reading.answer {
        TextAnswer::Accepted => 0,
        refusal => put_line_message(reading.line, refusal, text, buffer),
    }
}

// Of a plan text and of its plan.
pub fn plan_message(text: &[u8], buffer: &mut [u8]) -> usize
    ensures { (result ≡ length (plan_message text.now)) × (buffer.new ≡ overlaid (plan_message text.now) buffer.old) }
{
    let reading = read(text);
    match reading.answer {
        TextAnswer::Accepted => {
            let plan = LentPlan {
                frame: &reading.frame,
                stages: &reading.stages,
            };
            check_message(plan, buffer)
        }
        refusal => put_line_message(reading.line, refusal, text, buffer),
    }
}

// Of the plan in an input of `cellmoves`.
pub fn input_message(input: &[u8], buffer: &mut [u8]) -> usize
    ensures { (result ≡ length (message input.now)) × (buffer.new ≡ overlaid (message input.now) buffer.old) }
{
    if 65536 < input.len() {
        return put_line_message(0, TextAnswer::TooLong, input, buffer);
    }
    plan_message(part_of(input, 0, plan_length(input)), buffer)
}
