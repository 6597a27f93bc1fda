// What the jobs hold: the units of each resource and the sum of each row; and the two tests of them, 18 and 19, once one
// stage is exchanged for another in one act. All 32 entries are summed and tested: beyond a sound plan's counts they are 0.
#![tactic(auto)]

ghost use Rattle.std.specs.Prelude.{◌≡◌, ◌+◌, ◌-◌};
ghost use Rattle.events.specs.JobList.{jobs_of};
ghost use Rattle.plan_bytes.specs.Over.{plan_of, stage_at};
ghost use Rattle.internals.specs.Internals.{index_in, sums_of, lowest_after, worst_after, unless_refused, kept_after};
ghost use Rattle.internals.specs.Internals.{Few, Grown};
ghost use Rattle.internals.specs.JobNumbers.{list_lent};
ghost use Rattle.table_sums.specs.Places.{some_place};

use events::Answer;
use internals::{Ceilings, LentJobs, Sums, WorstRow};
use model::Job;
use plan_bytes::LentPlan;
use plan_stages::{NO_STAGE, demands_at, length_of, stage_index, weights_at};
use table_jobs::job_at;

// The amounts with a stage's more: 64 of 255 come to 16,320. A fresh array: amounts changed in place are not vectorised.
fn added<'a>(amounts: &'a [u16; 32], more: &'a [u8; 32]) -> [u16; 32]
    requires { Few 16065 amounts.now }
    ensures { Grown amounts.now more.now result }
{
    let mut sums = [0; 32];
    for i in 0..32 {
        sums[i] = amounts[i] + u16::from(more[i]);
    }
    sums
}

// The sums with the demands and weights of the stage at an index more.
fn with_stage(sums: Sums, stages: &[u8], at: usize) -> Sums
    requires { Few 16065 sums.units × Few 16065 sums.rows }
    ensures { Grown sums.units (stage_at stages.now at).demand result.units × Grown sums.rows (stage_at stages.now at).weight result.rows }
{
    let demands = demands_at(stages, at);
    let weights = weights_at(stages, at);
    Sums {
        units: added(&sums.units, &demands),
        rows: added(&sums.rows, &weights),
    }
}

// Where a job's stage stands among all stages, counted from 0. 128, where the plan has no such stage, is an index like any other: there is no stage
// at it, which demands and weighs nothing, so an Option would be unpacked by every caller to the same sums.
pub fn index_of(lengths: &[u8; 16], types: u32, j: Job) -> usize
    ensures { result ≡ index_in lengths.now types j.kind j.stage }
{
    if types < j.kind || j.stage < 1 || length_of(lengths, j.kind) < j.stage {
        return NO_STAGE;
    }
    stage_index(lengths, j.kind, j.stage)
}

// The sums over the jobs: one pass over them. A job at no stage of the plan demands and weighs nothing.
pub fn sums_of<'a>(plan: LentPlan<'a>, jobs: LentJobs<'a>) -> Sums
    ensures { result ≡ sums_of (plan_of plan.entry) (jobs_of (list_lent jobs.entry)) }
{
    let mut sums = Sums {
        units: [0; 32],
        rows: [0; 32],
    };
    if plan.stages.len() != 8192 {
        return sums;
    }
    let types = plan.frame.types as u32;
    for i in 0..jobs.count.min(64) {
        let j = job_at(jobs.numbers, i);
        let at = index_of(&plan.frame.lengths, types, j);
        sums = with_stage(sums, plan.stages, at);
    }
    sums
}

// By how much an amount is above its ceiling once the old is given back and the new taken; 0 where it is not. In 32 bits, which hold it for
// any input.
pub fn above_ceiling(amount: u16, old: u8, new: u8, ceiling: u16) -> u32
    ensures { result ≡ amount - old + new - ceiling }
{
    let left = u32::from(amount).saturating_sub(u32::from(old));
    (left + u32::from(new)).saturating_sub(u32::from(ceiling))
}

// The capacity test: the lowest amount above its ceiling once the old is given back and the new taken.
fn lowest_above<'a>(
    amounts: &'a [u16; 32],
    old: &'a [u8; 32],
    new: &'a [u8; 32],
    ceilings: &'a [u16; 32],
) -> Option<u32>
    ensures { result ≡ some_place (lowest_after 32 amounts.now old.now new.now ceilings.now) }
{
    for i in 0..32 {
        if 0 < above_ceiling(amounts[i], old[i], new[i], ceilings[i]) {
            return Some((i + 1) as u32);
        }
    }
    None
}

// The row test: by the sums, what a job's old stage and its new one weigh, and the bounds, the row exceeded by the most, of equals the lowest, and
// its excess; 0 and 0 where every row is kept, as `worst_after` promises whoever uses the row test.
pub fn worst_row<'a>(
    sums: &'a [u16; 32],
    old: &'a [u8; 32],
    new: &'a [u8; 32],
    bounds: &'a [u16; 32],
) -> WorstRow
    ensures { result ≡ worst_after sums.now old.now new.now bounds.now }
{
    let mut row = 0;
    let mut excess = 0;
    for i in 0..32 {
        let above = above_ceiling(sums[i], old[i], new[i], bounds[i]);
        if excess < above {
            row = (i + 1) as u32;
            excess = above;
        }
    }
    WorstRow { row, excess }
}

fn exceeded(sums: Sums, stages: &[u8], old: usize, new: usize, ceilings: Ceilings) -> Option<u32>
    ensures { result ≡ some_place (lowest_after 32 sums.units (stage_at stages.now old).demand (stage_at stages.now new).demand ceilings.capacity) }
{
    let given_back = demands_at(stages, old);
    let taken = demands_at(stages, new);
    lowest_above(&sums.units, &given_back, &taken, &ceilings.capacity)
}

fn broken(sums: Sums, stages: &[u8], old: usize, new: usize, ceilings: Ceilings) -> WorstRow
    ensures { result ≡ worst_after sums.rows (stage_at stages.now old).weight (stage_at stages.now new).weight ceilings.bound }
{
    let given_back = weights_at(stages, old);
    let taken = weights_at(stages, new);
    worst_row(&sums.rows, &given_back, &taken, &ceilings.bound)
}

// Questions 18 and 19 once the stage at one index is exchanged for that at another; there is none at an index beyond the last.
#[tactic(auto, unfolding(internals::specs::Internals::kept_after, events::specs::Events::kept_answer))]
pub fn kept_after(
    sums: Sums,
    stages: &[u8],
    old: usize,
    new: usize,
    ceilings: Ceilings,
) -> Result<(), Answer>
    ensures { result ≡ unless_refused (kept_after sums (stage_at stages.now old) (stage_at stages.now new) ceilings) tt }
{
    let resource = exceeded(sums, stages, old, new, ceilings);
    let worst = broken(sums, stages, old, new, ceilings);
    let row = worst.row;
    if let Some(resource) = resource {
        return Err(Answer::OverCapacity(resource));
    }
    if row != 0 {
        return Err(Answer::RowBroken(row));
    }
    Ok(())
}
