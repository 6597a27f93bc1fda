// A record's line, put into a sink.
#![tactic(auto)]

ghost use Rattle.std.specs.Prelude.{◌≡◌, ◌++◌, ◌+◌, ◌≤◌, length, take};
ghost use Rattle.model.specs.Numbers.{entry};
ghost use Rattle.plan_text.specs.Records.{letters};
ghost use Rattle.moves_text.specs.Decimals.{decimal};
ghost use Rattle.canonical_text.specs.CanonicalText.{record_text};
ghost use Rattle.write_lines.specs.Sink.{with_text};

use plan_text::Record;
use read_ranges::field_count;
use write_lines::Sink;

// The letter of a section; 0 where there is none, as `record_text` says of such a record.
fn letter(section: u32) -> u8
    ensures { result ≡ entry letters section 0 }
{
    match section {
        1 => b'C',
        2 => b'R',
        3 => b'T',
        4 => b'S',
        5 => b'B',
        6 => b'A',
        7 => b'K',
        _ => 0,
    }
}

// The byte of a digit.
fn digit(d: u32) -> u8
    requires { d ≤ 9 }
    ensures { result ≡ 48 + d }
{
    (48 + d) as u8
}

// A number's digits behind the first bytes of a line; the offset after them.
fn put_decimal(n: u32, line: &mut [u8], at: usize) -> usize
    requires { at + 10 ≤ length line.old }
    ensures value { (result ≡ at + length (decimal n)) × (take result line.new ≡ take at line.old ++ decimal n) }
    ensures upper_bound { result ≤ at + 10 }
{
    let mut out = Sink { buffer: line, at };
    out.put_decimal(u64::from(n));
    out.at
}

// The same: one to three digits, which most numbers have, without a loop.
fn put_digits(n: u32, line: &mut [u8], at: usize) -> usize
    requires { at + 10 ≤ length line.old }
    ensures value { (result ≡ at + length (decimal n)) × (take result line.new ≡ take at line.old ++ decimal n) }
    ensures upper_bound { result ≤ at + 10 }
{
    if n < 10 {
        line[at] = digit(n);
        return at + 1;
    }
    if n < 100 {
        line[at] = digit(n / 10);
        line[at + 1] = digit(n % 10);
        return at + 2;
    }
    if n < 1000 {
        line[at] = digit(n / 10 / 10);
        line[at + 1] = digit(n / 10 % 10);
        line[at + 2] = digit(n % 10);
        return at + 3;
    }
    put_decimal(n, line, at)
}

// A line is made by itself, at an offset, and put at once: put byte by byte into the sink, the largest plan costs 1.48 times the instructions.
#[tactic(auto, using(crate::proofs::Fields::line_whole))]
pub fn put_record(rec: Record, out: &mut Sink<'_>)
    ensures value { out.new ≡ with_text (record_text rec) out.old }
    ensures upper_bound { length (record_text rec) ≤ 46 }
{
    let numbers = [rec.first, rec.second, rec.third, rec.fourth];
    let mut line = [0u8; 64];
    line[0] = letter(rec.section);
    let mut to = 1;
    for number in &numbers[..field_count(rec.section)] {
        line[to] = b'\t';
        to = put_digits(*number, &mut line, to + 1);
    }
    line[to] = b'\n';
    out.put(&line[..to + 1]);
}
