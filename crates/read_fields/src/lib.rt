// A line of text: is it skipped, its letter, its fields and their numbers.
#![tactic(auto)]

ghost use Rattle.std.specs.Prelude.{◌≡◌};
ghost use Rattle.plan_text.specs.Lines.{is_skipped, columns, letter_in, letter_byte, fields_in};
ghost use Rattle.plan_text.specs.RecordTests.{fields_read};
ghost use Rattle.plan_text.specs.ReaderInternals.{value_read, fields_given};

use byte_slices::find;
use plan_text::Fields;

// A line that is empty or begins with `#`.
pub fn is_skipped(line: &[u8]) -> bool
    ensures { result ≡ is_skipped line.now }
{
    match line {
        [] => true,
        [b, ..] => *b == b'#',
    }
}

// The letter is one byte where the line is, or where a tab is next; a line that begins with a tab has none.
pub fn letter_of(line: &[u8]) -> u8
    ensures { result ≡ letter_byte (letter_in (columns line.now)) }
{
    match line {
        [b'\t', ..] => 0,
        [b] | [b, b'\t', ..] => *b,
        _ => 0,
    }
}

// The number that 1 to 5 digits say.
pub fn value_read(digits: &[u8]) -> Option<u32>
    ensures { result ≡ value_read digits.now }
{
    if digits.is_empty() || 5 < digits.len() {
        return None;
    }
    let mut x: u32 = 0;
    for b in digits {
        let digit = match *b {
            b'0'..=b'9' => *b - b'0',
            _ => return None,
        };
        x = 10 * x + u32::from(digit);
    }
    Some(x)
}

// The fields go from tab to tab: `at` is the tab before the next one, and the length where no other is left. Where one is no number or
// there is a fifth, the error has a count of 5 and the numbers before it.
pub fn fields_of(line: &[u8]) -> Result<Fields, Fields>
    ensures { result ≡ fields_given (fields_read (fields_in (columns line.now))) }
{
    let mut numbers = [0u32; 4];
    let mut count = 0;
    let mut at = find(line, 0, line.len(), b'\t');
    // no index is counted: it goes from tab to tab
    while at < line.len() {
        let end = find(line, at + 1, line.len(), b'\t');
        let x = value_read(&line[at + 1..end]).ok_or(Fields { count: 5, numbers })?;
        if count == 4 {
            return Err(Fields { count: 5, numbers });
        }
        numbers[count] = x;
        count += 1;
        at = end;
    }
    Ok(Fields { count, numbers })
}
