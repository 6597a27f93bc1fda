// Is each row weighted and bounded as the upstream rule says?
ghost use Rattle.std.specs.Prelude.{◌≡◌, ℕ, ◌+◌, ◌≤◌, ◌<◌};
ghost use Rattle.model.specs.Numbers.{at, in_range, lowest};
ghost use Rattle.model.specs.Plan.{all_stages};
ghost use Rattle.model.specs.Soundness.{Sound};
ghost use Rattle.model.specs.Upstream.{faulty_row};
ghost use Rattle.plan_bytes.specs.Over.{plan_of};
ghost use Rattle.plan_upstream.specs.CheckInternals.{StretchRanks, place};

use plan_bytes::LentPlan;
use plan_upstream_stage::due_weight;

// The lowest row that is not weighted 1 at every stage upstream of its resource and 0 elsewhere. The stages are gone through
// from the end, since a stage is upstream by what the stage after it is; the ranks let no stretch go on past a type's last.
pub(crate) fn faulty_row<'a>(plan: LentPlan<'a>, end: usize, ranks: &'a [u16; 128]) -> Option<u32>
    requires { let p = plan_of plan in Sound p × (end ≡ all_stages p) × StretchRanks p ranks.now }
    ensures { result ≡ place (faulty_row (plan_of plan.entry)) }
{
    let mut fault = None;
    'rows: for row in 0..usize::from(plan.frame.rows) {
        let limit = u16::from(plan.frame.rank[row]);
        let mut due = 0;
        'stages: for index in (0..end).rev() {
            let demand = index * 64 + row;
            let weight = demand + 32;
            due = due_weight(plan.stages[demand], ranks[index], limit, due);
            if plan.stages[weight] != due {
                fault = Some((row + 1) as u32);
                break 'rows;
            }
        }
    }
    fault
}

fn right_bound(bound: u16, capacity: u8) -> bool
    ensures { result ≡ in_range bound capacity }
{
    1 <= bound && bound <= u16::from(capacity)
}

// The lowest row whose bound is not between 1 and the capacity of its resource.
pub(crate) fn faulty_bound<'a>(
    bound: &'a [u16; 32],
    capacity: &'a [u8; 32],
    n: usize,
) -> Option<u32>
    requires { n ≤ 32 }
    ensures { result ≡ place (lowest n (λ (i : ℕ). in_range (at bound.now i) (at capacity.now i))) }
{
    for row in 0..n {
        if !right_bound(bound[row], capacity[row]) {
            return Some((row + 1) as u32);
        }
    }
    None
}
