// What a person is told of a refused line of a plan text, in one line.
#![tactic(auto)]

ghost use Rattle.std.specs.Prelude.{◌≡◌, map, length};
ghost use Rattle.plan_text.specs.NthLine.{nth_line};
ghost use Rattle.told_text.specs.PlanMessage.{visible, shown_after, message_with};
ghost use Rattle.moves_text.specs.Buffer.{overlaid};
ghost use Rattle.write_lines.specs.Sink.{with_text};

use plan_numbers::text_number;
use plan_text::TextAnswer;
use read_nth::nth_line;
use tell_places::put_line_head;
use tell_slip_words::put_slip;
use tell_slips::plan_slip;
use tell_words::put_words;
use write_lines::Sink;

// A byte that could upset a terminal is shown as `?`.
fn visible(b: u8) -> u8
    ensures { result ≡ visible b }
{
    match b {
        b'\t' | 32..=126 => b,
        _ => b'?',
    }
}

#[tactic(auto, using(write_lines::proofs::Sinks::text_then, write_lines::proofs::Sinks::nothing_put, crate::proofs::Shown::shown_next))]
fn put_visible(part: &[u8], out: &mut Sink<'_>)
    ensures { out.new ≡ with_text (map visible part.now) out.old }
{
    for b in part {
        out.put(&[visible(*b)]);
    }
}

// The line that was refused, where there is one, and the end.
#[tactic(auto, using(write_lines::proofs::Sinks::text_then, crate::proofs::Shown::none_shown, crate::proofs::Shown::some_shown))]
fn put_shown(part: &[u8], out: &mut Sink<'_>)
    ensures { out.new ≡ with_text (shown_after part.now) out.old }
{
    if part.is_empty() {
        out.put(b"\n");
    } else {
        out.put(b": ");
        put_visible(part, out);
        out.put(b"\n");
    }
}

// Of a text with this answer to this line, line 0 for none.
#[tactic(auto, using(write_lines::proofs::Sinks::text_then, plan_text::proofs::NthLine::nth_bytes))]
fn put_message(line: u32, answer: TextAnswer, text: &[u8], out: &mut Sink<'_>)
    ensures { out.new ≡ with_text (message_with line answer (nth_line text.now line)) out.old }
{
    let part = nth_line(text, line);
    put_line_head(line, out);
    put_words(text_number(answer), out);
    put_slip(plan_slip(answer, part), out);
    put_shown(part, out);
}

// As much as fits of it, and the length of all of it.
pub fn put_line_message(line: u32, answer: TextAnswer, text: &[u8], buffer: &mut [u8]) -> usize
    ensures { let told = message_with line answer (nth_line text.now line) in (result ≡ length told) × (buffer.new ≡ overlaid told buffer.old) }
{
    let mut out = Sink { buffer, at: 0 };
    put_message(line, answer, text, &mut out);
    out.at
}
