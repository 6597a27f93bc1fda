// The published number and places of each answer of the upstream check, and the number of each answer to a plan text and to the writing of
// one, for whoever prints them.
#![tactic(auto)]

ghost use Rattle.std.specs.Prelude.{◌≡◌};
ghost use Rattle.model.specs.Upstream.{check_numbers};
ghost use Rattle.plan_text.specs.TextQuestions.{text_number};
ghost use Rattle.canonical_text.specs.Writing.{write_number};

use canonical_text::{NO_ROOM, WriteAnswer};
use model::{Check, NO_RANK, NOT_ONE_UNIT, ROW_COUNT, UNSOUND_PLAN, WRONG_BOUND, WRONG_WEIGHT};
use plan_text::{
    BAD_FIELDS, BAD_LETTER, BAD_LINE, INCOMPLETE, OUT_OF_RANGE, REPEATED, TOO_LONG, TextAnswer,
};

pub fn check_number(c: Check) -> u32
    ensures { result ≡ (check_numbers c).0 }
{
    match c {
        Check::Meets => 0,
        Check::UnsoundPlan => UNSOUND_PLAN,
        Check::NoRank => NO_RANK,
        Check::NotOneUnit { .. } => NOT_ONE_UNIT,
        Check::RowCount => ROW_COUNT,
        Check::WrongWeight(_) => WRONG_WEIGHT,
        Check::WrongBound(_) => WRONG_BOUND,
    }
}

// The type of a stage, or the row; 0 where the answer has no place.
pub fn check_first(c: Check) -> u32
    ensures { result ≡ (check_numbers c).1 }
{
    match c {
        Check::NotOneUnit { kind, .. } => kind,
        Check::WrongWeight(row) | Check::WrongBound(row) => row,
        Check::Meets | Check::UnsoundPlan | Check::NoRank | Check::RowCount => 0,
    }
}

// The number of a stage; 0 where the answer names none.
pub fn check_second(c: Check) -> u32
    ensures { result ≡ (check_numbers c).2 }
{
    match c {
        Check::NotOneUnit { stage, .. } => stage,
        Check::Meets | Check::UnsoundPlan | Check::NoRank | Check::RowCount => 0,
        Check::WrongWeight(_) | Check::WrongBound(_) => 0,
    }
}

// Of a plan text.
pub fn text_number(a: TextAnswer) -> u32
    ensures { result ≡ text_number a }
{
    match a {
        TextAnswer::Accepted => 0,
        TextAnswer::TooLong => TOO_LONG,
        TextAnswer::BadLine => BAD_LINE,
        TextAnswer::BadLetter => BAD_LETTER,
        TextAnswer::BadFields => BAD_FIELDS,
        TextAnswer::OutOfRange => OUT_OF_RANGE,
        TextAnswer::Repeated => REPEATED,
        TextAnswer::Incomplete => INCOMPLETE,
    }
}

// Of a plan that is written.
pub fn write_number(a: WriteAnswer) -> u32
    ensures { result ≡ write_number a }
{
    match a {
        WriteAnswer::Written => 0,
        WriteAnswer::NoRoom => NO_ROOM,
        WriteAnswer::UnsoundPlan => UNSOUND_PLAN,
    }
}
