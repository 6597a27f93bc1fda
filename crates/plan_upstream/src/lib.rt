// The upstream check of a plan whose stages are lent: its questions in order, each asked by a search that leaves at the lowest fault.
#![tactic(auto)]

ghost use Rattle.std.specs.Prelude.{◌≡◌, drop};
ghost use Rattle.model.specs.Plan.{all_stages};
ghost use Rattle.model.specs.Questions.{answer_of};
ghost use Rattle.model.specs.Soundness.{Sound};
ghost use Rattle.model.specs.Upstream.{check_questions, check};
ghost use Rattle.model.specs.declared.Check.TheVariants.{Meets};
ghost use Rattle.plan_bytes.specs.Over.{plan_of};
ghost use Rattle.plan_upstream.specs.CheckInternals.{LowestRanks};

use crate::position::position_of;
use crate::ranks::closed;
use crate::rows::{faulty_bound, faulty_row};
use crate::units::units_of;
use model::Check;
use plan_bytes::LentPlan;
use plan_soundness::is_sound;

mod position;
mod ranks;
mod rows;
mod units;

// Questions 24 and 25. The plan's stages end at the index `end`, and have these lowest ranks.
fn check_rows(plan: LentPlan<'_>, end: usize, lowest: [u16; 128]) -> Check
    requires { let p = plan_of plan in Sound p × (end ≡ all_stages p) × LowestRanks p end lowest }
    ensures { result ≡ answer_of Meets (drop 4 (check_questions (plan_of plan.entry))) }
{
    let ranks = closed(lowest, &plan.frame.lengths, usize::from(plan.frame.types));
    if let Some(row) = faulty_row(plan, end, &ranks) {
        return Check::WrongWeight(row);
    }
    match faulty_bound(
        &plan.frame.bound,
        &plan.frame.capacity,
        usize::from(plan.frame.rows),
    ) {
        Some(row) => Check::WrongBound(row),
        None => Check::Meets,
    }
}

// Questions 22 to 25.
fn check_stages(plan: LentPlan<'_>) -> Check
    requires { Sound (plan_of plan) }
    ensures { result ≡ answer_of Meets (drop 2 (check_questions (plan_of plan.entry))) }
{
    let units = units_of(plan);
    let types = usize::from(plan.frame.types);
    if let Some(at) = position_of(units.other, &plan.frame.lengths, types) {
        let kind = (at.kind + 1) as u32;
        let stage = (at.stage + 1) as u32;
        return Check::NotOneUnit { kind, stage };
    }
    if plan.frame.rows != plan.frame.resources {
        return Check::RowCount;
    }
    check_rows(plan, units.other, units.ranks)
}

// The upstream check: the answer with its two places. A sound plan ranks every resource or none, so the first tells.
pub fn upstream_check(plan: LentPlan<'_>) -> Check
    ensures { result ≡ check (plan_of plan.entry) }
{
    if !is_sound(plan) {
        return Check::UnsoundPlan;
    }
    if plan.frame.rank[0] < 1 {
        return Check::NoRank;
    }
    check_stages(plan)
}
