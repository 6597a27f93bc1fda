// The form of a line of the plan text: its bytes, its letter and the count of its fields; questions 2 to 4.
#![tactic(auto)]

ghost use Rattle.std.specs.Prelude.{◌≡◌, ◌&&◌};
ghost use Rattle.model.specs.Numbers.{each};
ghost use Rattle.plan_text.specs.Lines.{is_plain, columns, letter_in};
ghost use Rattle.plan_text.specs.Records.{letters, position, section_of, record_with};
ghost use Rattle.plan_text.specs.Reading.{follows};
ghost use Rattle.plan_text.specs.ReaderInternals.{form_of};

use plan_text::{Record, TextAnswer};
use read_fields::{fields_of, is_skipped, letter_of};
use read_ranges::field_count;

fn is_plain_byte(b: u8) -> bool
    ensures { result ≡ is_plain b }
{
    b == b'\t' || (32 <= b && b <= 126)
}

pub fn is_plain(line: &[u8]) -> bool
    ensures { result ≡ each is_plain line.now }
{
    line.iter().all(|b| is_plain_byte(*b))
}

// Question 2: the line ends with LF, and its bytes are plain.
fn is_well_formed(line: &[u8], ended: bool) -> bool
    ensures { result ≡ (ended && each is_plain line.now) }
{
    ended && is_plain(line)
}

// The section of a letter; 0 for no letter of the list, as the definition has it, which the order of the sections and what is told of an unknown letter go by.
fn section_of_letter(letter: u8) -> u32
    ensures { result ≡ position letter 1 letters }
{
    match letter {
        b'C' => 1,
        b'R' => 2,
        b'T' => 3,
        b'S' => 4,
        b'B' => 5,
        b'A' => 6,
        b'K' => 7,
        _ => 0,
    }
}

#[tactic(auto, using(crate::proofs::Letter::section_by_byte))]
pub fn section_of(line: &[u8]) -> u32
    ensures { result ≡ section_of (letter_in (columns line.now)) }
{
    section_of_letter(letter_of(line))
}

// Question 3: the section of a record after one of the section `last`, 0 for none.
fn follows(last: u32, section: u32) -> bool
    ensures { result ≡ follows last section }
{
    1 <= section && section <= 7 && last <= section && (0 < last || section == 1)
}

fn record_with(section: u32, numbers: [u32; 4]) -> Record
    ensures { result ≡ record_with section numbers }
{
    Record {
        section,
        first: numbers[0],
        second: numbers[1],
        third: numbers[2],
        fourth: numbers[3],
    }
}

// Questions 2 to 4 of a line, after a record of the section `last`, and its record; a skipped line has none.
pub fn form_of(line: &[u8], ended: bool, last: u32) -> Result<Option<Record>, TextAnswer>
    ensures { result ≡ form_of last (record { bytes = line.now; ended = ended }) }
{
    if !is_well_formed(line, ended) {
        return Err(TextAnswer::BadLine);
    }
    if is_skipped(line) {
        return Ok(None);
    }
    let section = section_of(line);
    if !follows(last, section) {
        return Err(TextAnswer::BadLetter);
    }
    let Ok(fields) = fields_of(line) else {
        return Err(TextAnswer::BadFields);
    };
    if fields.count != field_count(section) {
        return Err(TextAnswer::BadFields);
    }
    Ok(Some(record_with(section, fields.numbers)))
}
