// The published number and place of each answer to an event, and the number of each end of a drain, for whoever prints them.
#![tactic(auto)]

ghost use Rattle.std.specs.Prelude.{◌≡◌};
ghost use Rattle.events.specs.Events.{answer_numbers};
ghost use Rattle.events.specs.Drain.{end_number};

use events::{
    Answer, BAD_NUMBER, DISAGREEMENT, End, FULL, NO_MOVE, OUT_OF_BUDGET, OVER_CAPACITY, ROW_BROKEN,
    UNKNOWN_TYPE, WRONG_ACTIVITY, WRONG_STAGE,
};
use model::UNSOUND_PLAN;

pub fn answer_number(a: Answer) -> u32
    ensures { result ≡ (answer_numbers a).0 }
{
    match a {
        Answer::Admitted => 0,
        Answer::UnsoundPlan => UNSOUND_PLAN,
        Answer::Disagreement => DISAGREEMENT,
        Answer::BadNumber => BAD_NUMBER,
        Answer::WrongActivity => WRONG_ACTIVITY,
        Answer::UnknownType => UNKNOWN_TYPE,
        Answer::Full => FULL,
        Answer::WrongStage => WRONG_STAGE,
        Answer::OverCapacity(_) => OVER_CAPACITY,
        Answer::RowBroken(_) => ROW_BROKEN,
    }
}

pub fn answer_place(a: Answer) -> u32
    ensures { result ≡ (answer_numbers a).1 }
{
    match a {
        Answer::OverCapacity(resource) => resource,
        Answer::RowBroken(row) => row,
        Answer::Admitted
        | Answer::UnsoundPlan
        | Answer::Disagreement
        | Answer::BadNumber
        | Answer::WrongActivity
        | Answer::UnknownType
        | Answer::Full
        | Answer::WrongStage => 0,
    }
}

pub fn end_number(e: End) -> u32
    ensures { result ≡ end_number e }
{
    match e {
        End::Emptied => 0,
        End::UnsoundPlan => UNSOUND_PLAN,
        End::Disagreement => DISAGREEMENT,
        End::OutOfBudget => OUT_OF_BUDGET,
        End::NoMove => NO_MOVE,
    }
}
