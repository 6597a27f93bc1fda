// The whole run of `cellmoves`: from the bytes of an input to the bytes that are printed.
#![tactic(auto)]

ghost use Rattle.std.specs.Prelude.{◌≡◌, ◌≤◌, length};
ghost use Rattle.events.specs.JobList.{empty_list};
ghost use Rattle.plan_bytes.specs.Over.{plan_of};
ghost use Rattle.moves_text.specs.Output.{to_print, output};
ghost use Rattle.moves_text.specs.Buffer.{filled, length_filled};
ghost use Rattle.write_lines.specs.Sink.{with_text};

use admission::Table;
use moves_head::put_about;
use moves_input::{event_of, plan_length};
use moves_text::{EventLine, MALFORMED};
use plan_bytes::LentPlan;
use plan_numbers::text_number;
use read_lines::{LineReader, part_of};
use read_plan::read;
use table_numbers::{answer_number, answer_place};
use write_lines::Sink;

// A buffer of so many bytes is enough for every output.
pub const ENOUGH: usize = 491526;

// The lines of the events, each answered at the table that the ones before it left.
fn put_replies(events: &[u8], plan: LentPlan<'_>, out: &mut Sink<'_>)
    requires { length events.now ≤ 65536 }
    ensures { out.new ≡ with_text (to_print (plan_of plan.entry) empty_list 1 events.now) out.old }
{
    let mut table = Table::empty();
    let mut ordinal: u64 = 1;
    for line in LineReader::new(events) {
        match event_of(line.bytes, line.ended) {
            EventLine::Skipped => {}
            EventLine::Malformed => {
                out.put_event_line(ordinal, MALFORMED, 0, table.list.count as u64);
                ordinal += 1;
            }
            EventLine::Given(event) => {
                let outcome = table.handle(plan, event);
                let number = answer_number(outcome.answer);
                let place = answer_place(outcome.answer);
                let active = outcome.table.list.count as u64;
                out.put_event_line(ordinal, number, place, active);
                ordinal += 1;
                table = outcome.table;
            }
        }
    }
}

fn put_output(input: &[u8], out: &mut Sink<'_>)
    ensures { out.new ≡ with_text (output input.now) out.old }
{
    if 65536 < input.len() {
        out.put_plan_line(1, 0);
        return;
    }
    let n = plan_length(input);
    let first = n + 2;
    let reading = read(part_of(input, 0, n));
    let plan = LentPlan {
        frame: &reading.frame,
        stages: &reading.stages,
    };
    put_about(text_number(reading.answer), reading.line, plan, out);
    put_replies(part_of(input, first, input.len()), plan, out);
}

// The length of the output: put where there is no room, it is only measured.
fn output_length(input: &[u8]) -> usize
    ensures { result ≡ length (output input.now) }
{
    let mut out = Sink {
        buffer: &mut [],
        at: 0,
    };
    put_output(input, &mut out);
    out.at
}

// The output, into a buffer that it fits into.
fn fill(input: &[u8], buffer: &mut [u8]) -> usize
    requires { length (output input.now) ≤ length buffer.old }
    ensures { (result ≡ length_filled (output input.now) buffer.old) × (buffer.new ≡ filled (output input.now) buffer.old) }
{
    let mut out = Sink { buffer, at: 0 };
    put_output(input, &mut out);
    out.at
}

// The buffer then begins with the output, and the answer is its length. Where the output does not fit, the buffer is left as it is
// and the answer is 0; a buffer shorter than `ENOUGH` costs a second run, which measures.
pub fn answer_input(input: &[u8], buffer: &mut [u8]) -> usize
    ensures { (result ≡ length_filled (output input.now) buffer.old) × (buffer.new ≡ filled (output input.now) buffer.old) }
{
    if ENOUGH <= buffer.len() {
        return fill(input, buffer);
    }
    let needed = output_length(input);
    if buffer.len() < needed {
        return 0;
    }
    fill(input, buffer)
}
