// What `cellplan` prints: a plan text in its canonical form.
#![tactic(auto)]

ghost use Rattle.std.specs.Prelude.{◌≡◌};
ghost use Rattle.moves_text.specs.OutputLines.{plan_line};
ghost use Rattle.moves_text.specs.Buffer.{filled, length_filled};
ghost use Rattle.canonical_text.specs.CanonicalOutput.{canonical_output};

use plan_bytes::LentPlan;
use plan_numbers::text_number;
use read_plan::read;
use write_lines::Sink;
use write_plan::write_plan;

// `P`, the number and the line of a refused text. It is measured first, so that a buffer that it does not fit into is left as it is.
fn put_refusal(number: u32, line: u32, buffer: &mut [u8]) -> usize
    ensures { (result ≡ length_filled (plan_line number line) buffer.old) × (buffer.new ≡ filled (plan_line number line) buffer.old) }
{
    let mut measured = Sink {
        buffer: &mut [],
        at: 0,
    };
    measured.put_plan_line(number, line);
    let n = measured.at;
    if buffer.len() < n {
        return 0;
    }
    let mut out = Sink { buffer, at: 0 };
    out.put_plan_line(number, line);
    n
}

// The buffer then begins with what is printed, and the answer is its length. Where that does not fit, the buffer is left as it is and
// the answer is 0; 65,536 bytes are enough for every text.
pub fn canonical_form(text: &[u8], buffer: &mut [u8]) -> usize
    ensures { (result ≡ length_filled (canonical_output text.now) buffer.old) × (buffer.new ≡ filled (canonical_output text.now) buffer.old) }
{
    let reading = read(text);
    let answer = reading.answer;
    // by its number, which a refusal prints
    let number = text_number(answer);
    if number == 0 {
        let plan = LentPlan {
            frame: &reading.frame,
            stages: &reading.stages,
        };
        let written = write_plan(plan, buffer);
        return written.length;
    }
    put_refusal(number, reading.line, buffer)
}
