// Text, numbers and the lines of the output of `cellmoves`, put into a sink. What does not fit is left out, and the length is that of
// the whole: so a buffer of no bytes measures.
#![tactic(auto)]

ghost use Rattle.std.specs.Prelude.{◌≡◌, ◌∷◌, [], ◌++◌, ◌≤◌, length, min};
ghost use Rattle.moves_text.specs.Decimals.{decimal};
ghost use Rattle.moves_text.specs.OutputLines.{plan_line, check_line, event_line};
ghost use Rattle.moves_text.specs.Buffer.{overlaid, overlaid_at};
ghost use Rattle.write_lines.specs.Sink.{with_text};

use byte_slices::copy;
use io::decimal;

// A buffer with the text put into it so far: as much of it as fits, and the length of all of it.
#[derive(Drop)]
pub struct Sink<'a> {
    pub buffer: &'a mut [u8],
    pub at: usize,
}

impl<'a> Sink<'a> {
    // What does not fit is left out, and the length is that of the whole.
    #[tactic(auto, unfolding(crate::specs::Sink::with_text))]
    pub fn put(&mut self, text: &[u8])
        ensures { self.new ≡ with_text text.now self.old }
    {
        if self.at < self.buffer.len() {
            copy(text, &mut self.buffer[self.at..]);
        }
        self.at = self.at.saturating_add(text.len());
    }

    // One byte more.
    #[tactic(auto, unfolding(crate::specs::Sink::with_text))]
    pub fn put_byte(&mut self, byte: u8)
        ensures { self.new ≡ with_text (byte ∷ []) self.old }
    {
        if self.at < self.buffer.len() {
            self.buffer[self.at] = byte;
        }
        self.at = self.at.saturating_add(1);
    }

    // In digits, without leading zeros.
    #[tactic(auto, using(moves_text::proofs::Decimals::fewest_digits))]
    pub fn put_decimal(&mut self, n: u64)
        ensures { self.new ≡ with_text (decimal n) self.old }
    {
        let mut digits = [0u8; 20];
        let k = decimal(n, &mut digits);
        self.put(&digits[..k]);
    }

    // A number and the byte after it.
    #[tactic(auto, using(crate::proofs::Sinks::text_then))]
    fn put_field(&mut self, n: u64, after: u8)
        ensures { self.new ≡ with_text (decimal n ++ after ∷ []) self.old }
    {
        self.put_decimal(n);
        self.put_byte(after);
    }

    // `P`, the plan's answer, its line.
    #[tactic(auto, using(crate::proofs::Sinks::text_then, std::proofs::lemmas::List::append_assoc))]
    pub fn put_plan_line(&mut self, number: u32, line: u32)
        ensures { self.new ≡ with_text (plan_line number line) self.old }
    {
        self.put(b"P\t");
        self.put_field(u64::from(number), b'\t');
        self.put_field(u64::from(line), b'\n');
    }

    // `Q`, the check's answer and its two places.
    #[tactic(auto, using(crate::proofs::Sinks::text_then, std::proofs::lemmas::List::append_assoc))]
    pub fn put_check_line(&mut self, number: u32, first: u32, second: u32)
        ensures { self.new ≡ with_text (check_line number first second) self.old }
    {
        self.put(b"Q\t");
        self.put_field(u64::from(number), b'\t');
        self.put_field(u64::from(first), b'\t');
        self.put_field(u64::from(second), b'\n');
    }

    // An event's ordinal, its answer, its place, and the jobs active afterwards. In 64 bits, since a program may go on answering.
    #[tactic(auto, using(crate::proofs::Sinks::text_then, crate::proofs::Lengths::event_line_bounded, std::proofs::lemmas::List::append_assoc))]
    pub fn put_event_line(&mut self, ordinal: u64, number: u32, place: u32, active: u64)
        ensures value { self.new ≡ with_text (event_line ordinal number place active) self.old }
        ensures upper_bound { length (event_line ordinal number place active) ≤ 84 }
    {
        self.put_field(ordinal, b'\t');
        self.put_field(u64::from(number), b'\t');
        self.put_field(u64::from(place), b'\t');
        self.put_field(active, b'\n');
    }
}

// From the start of the buffer on.
fn lay(text: &[u8], buffer: &mut [u8]) -> usize
    ensures { (result ≡ length text.now) × (buffer.new ≡ overlaid text.now buffer.old) }
{
    let n = text.len().min(buffer.len());
    copy(&text[..n], buffer);
    text.len()
}

// An offset beyond the buffer is its end, so that the length of a text can be told at every offset.
fn offset_within(buffer: &[u8], at: usize) -> usize
    ensures { result ≡ min at (length buffer.now) }
{
    at.min(buffer.len())
}

// What stands below puts a text from an offset of a buffer on, for whoever has no sink.
pub fn put_text(text: &[u8], buffer: &mut [u8], at: usize) -> usize
    ensures { (result ≡ length text.now) × (buffer.new ≡ overlaid_at at text.now buffer.old) }
{
    let from = offset_within(buffer, at);
    lay(text, &mut buffer[from..])
}

pub fn put_decimal(n: u64, buffer: &mut [u8], at: usize) -> usize
    ensures { (result ≡ length (decimal n)) × (buffer.new ≡ overlaid_at at (decimal n) buffer.old) }
{
    let from = offset_within(buffer, at);
    let mut out = Sink { buffer, at: from };
    out.put_decimal(n);
    out.at - from
}

pub fn put_plan_line(number: u32, line: u32, buffer: &mut [u8], at: usize) -> usize
    ensures { (result ≡ length (plan_line number line)) × (buffer.new ≡ overlaid_at at (plan_line number line) buffer.old) }
{
    let from = offset_within(buffer, at);
    let mut out = Sink { buffer, at: from };
    out.put_plan_line(number, line);
    out.at - from
}

pub fn put_check_line(number: u32, first: u32, second: u32, buffer: &mut [u8], at: usize) -> usize
    ensures { (result ≡ length (check_line number first second)) × (buffer.new ≡ overlaid_at at (check_line number first second) buffer.old) }
{
    let from = offset_within(buffer, at);
    let mut out = Sink { buffer, at: from };
    out.put_check_line(number, first, second);
    out.at - from
}

pub fn put_event_line(
    ordinal: u64,
    number: u32,
    place: u32,
    active: u64,
    buffer: &mut [u8],
    at: usize,
) -> usize
    ensures value { (result ≡ length (event_line ordinal number place active)) × (buffer.new ≡ overlaid_at at (event_line ordinal number place active) buffer.old) }
    ensures upper_bound { result ≤ 84 }
{
    let from = offset_within(buffer, at);
    let mut out = Sink { buffer, at: from };
    out.put_event_line(ordinal, number, place, active);
    out.at - from
}
