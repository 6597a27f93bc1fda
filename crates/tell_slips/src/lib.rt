// The common slips in a line that is refused for its form.
#![tactic(auto)]

ghost use Rattle.std.specs.Prelude.{◌≡◌, not, eqb, take_while};
ghost use Rattle.plan_text.specs.Lines.{tab};
ghost use Rattle.told_text.specs.Slips.{has_space, has_beyond, ends_in_return, tabs_in, count_slip, line_slip, letter_slip, fields_slip, plan_slip, event_fields, event_slip};

use plan_text::TextAnswer;
use read_fields::letter_of;
use read_form::{is_plain, section_of};
use read_ranges::field_count;
use told_text::Slip;

fn has_space(bytes: &[u8]) -> bool
    ensures { result ≡ has_space bytes.now }
{
    bytes.contains(&b' ')
}

fn has_beyond(bytes: &[u8]) -> bool
    ensures { result ≡ has_beyond bytes.now }
{
    bytes.iter().any(|b| (128..=255).contains(b))
}

// The last byte is a CR.
#[tactic(auto, using(crate::proofs::Bytes::return_last))]
fn ends_in_return(bytes: &[u8]) -> bool
    ensures { result ≡ ends_in_return bytes.now }
{
    bytes.ends_with(b"\r")
}

fn tab_count(bytes: &[u8]) -> usize
    ensures { result ≡ tabs_in bytes.now }
{
    bytes.iter().filter(|b| **b == b'\t').count()
}

// By the count of fields that the letter has.
fn count_slip(wanted: usize, bytes: &[u8]) -> Option<Slip>
    ensures { result ≡ count_slip wanted bytes.now }
{
    if wanted < tab_count(bytes) {
        Some(Slip::FieldTooMany)
    } else {
        None
    }
}

// Of a plan's line that fails question 2.
fn line_slip(bytes: &[u8]) -> Option<Slip>
    ensures { result ≡ line_slip bytes.now }
{
    if ends_in_return(bytes) {
        Some(Slip::CarriageReturn)
    } else if has_beyond(bytes) {
        Some(Slip::BeyondAscii)
    } else if is_plain(bytes) {
        Some(Slip::NoLineEnd)
    } else {
        None
    }
}

// The letter is what stands before the first tab.
fn spaced_letter(bytes: &[u8]) -> bool
    ensures { result ≡ has_space (take_while (λ b. not (eqb b tab)) bytes.now) }
{
    bytes
        .iter()
        .take_while(|b| **b != b'\t')
        .any(|b| *b == b' ')
}

// Of one that fails question 3.
#[tactic(auto, using(crate::proofs::Bytes::letter_taken))]
fn letter_slip(bytes: &[u8]) -> Option<Slip>
    ensures { result ≡ letter_slip bytes.now }
{
    if spaced_letter(bytes) {
        Some(Slip::Spaces)
    } else if section_of(bytes) == 0 {
        Some(Slip::UnknownLetter)
    } else {
        None
    }
}

// Of one that fails question 4.
fn fields_slip(bytes: &[u8]) -> Option<Slip>
    ensures { result ≡ fields_slip bytes.now }
{
    if has_space(bytes) {
        return Some(Slip::Spaces);
    }
    count_slip(field_count(section_of(bytes)), bytes)
}

// The slip in a plan's line by the question that it fails.
#[tactic(auto, unfolding(told_text::specs::Slips::plan_slip))]
pub fn plan_slip(answer: TextAnswer, part: &[u8]) -> Option<Slip>
    ensures { result ≡ plan_slip answer part.now }
{
    match answer {
        TextAnswer::BadLine => line_slip(part),
        TextAnswer::BadLetter => letter_slip(part),
        TextAnswer::BadFields => fields_slip(part),
        _ => None,
    }
}

// How many fields the event of a letter has.
fn event_fields(letter: u8) -> Option<usize>
    ensures { result ≡ event_fields letter }
{
    match letter {
        b'L' => Some(2),
        b'A' | b'U' | b'X' => Some(1),
        _ => None,
    }
}

// The slip in a malformed event line that has its LF.
#[tactic(auto, unfolding(told_text::specs::Slips::event_slip))]
pub fn event_slip(line: &[u8]) -> Option<Slip>
    ensures { result ≡ event_slip line.now }
{
    if ends_in_return(line) {
        return Some(Slip::CarriageReturn);
    }
    if has_beyond(line) {
        return Some(Slip::BeyondAscii);
    }
    if has_space(line) {
        return Some(Slip::Spaces);
    }
    match event_fields(letter_of(line)) {
        Some(wanted) => count_slip(wanted, line),
        None => Some(Slip::UnknownLetter),
    }
}
