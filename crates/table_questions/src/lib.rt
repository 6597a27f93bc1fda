// Questions 13 to 17, asked where those before are met, of what the search for the job number found.
#![tactic(auto)]

ghost use Rattle.std.specs.Prelude.{◌≡◌};
ghost use Rattle.internals.specs.Internals.{unless_refused, stage_meets, active_answer, load_answer};

use events::Answer;
use internals::{Found, StageAsked};
use plan_stages::length_of;

// Questions 13 to 16 of a load, in a plan with so many types, where so many jobs are active.
#[tactic(auto, unfolding(internals::specs::Internals::load_answer))]
pub fn load_answer(
    count: usize,
    found: Option<Found>,
    types: u32,
    job: u32,
    kind: u32,
) -> Result<(), Answer>
    ensures { result ≡ unless_refused (load_answer count found types job kind) tt }
{
    let known = (1..=types).contains(&kind);
    let room = count < 64;
    if !(1..=65535).contains(&job) {
        return Err(Answer::BadNumber);
    }
    if found.is_some() {
        return Err(Answer::WrongActivity);
    }
    if !known {
        return Err(Answer::UnknownType);
    }
    if !room {
        return Err(Answer::Full);
    }
    Ok(())
}

// Question 17 at this stage of a type with so many stages.
pub fn stage_met(stage: u32, length: u32, wanted: StageAsked) -> bool
    ensures { result ≡ stage_meets wanted stage length }
{
    match wanted {
        StageAsked::Next => stage < length,
        StageAsked::Last => stage == length,
        StageAsked::Any => true,
    }
}

// Questions 13, 14 and 17 of an event whose job must be active, in a plan with so many stages of each type.
#[tactic(auto, unfolding(internals::specs::Internals::active_answer))]
pub fn active_answer(
    lengths: &[u8; 16],
    found: Option<Found>,
    job: u32,
    wanted: StageAsked,
) -> Result<Found, Answer>
    ensures { result ≡ active_answer lengths.now found job wanted }
{
    if !(1..=65535).contains(&job) {
        return Err(Answer::BadNumber);
    }
    let found = found.ok_or(Answer::WrongActivity)?;
    let length = length_of(lengths, found.job.kind);
    if !stage_met(found.job.stage, length, wanted) {
        return Err(Answer::WrongStage);
    }
    Ok(found)
}
