// Does every stage demand exactly one unit of one resource, and of what rank?
ghost use Rattle.model.specs.Soundness.{Sound};
ghost use Rattle.plan_bytes.specs.Over.{plan_of};
ghost use Rattle.plan_upstream.specs.CheckInternals.{FirstOther, LowestRanks};

use plan_bytes::LentPlan;
use plan_upstream_stage::{lowest_rank, one_unit};

// The first entry of the stages, by its index, that does not demand one unit, and the lowest ranks that those before it demand.
#[derive(Clone, Copy)]
pub(crate) struct Units {
    pub other: usize,
    pub ranks: [u16; 128],
}

// One pass over the stages. It ends at the end of the stages at the latest, since nothing is demanded beyond.
pub(crate) fn units_of(plan: LentPlan<'_>) -> Units
    requires { Sound (plan_of plan) }
    ensures { let p = plan_of plan.entry in FirstOther p result.other × LowestRanks p result.other result.ranks }
{
    let mut ranks = [0; 128];
    for other in 0..128 {
        let from = other * 64;
        let middle = from + 32;
        if !one_unit(&plan.stages[from..middle], plan.frame.resources) {
            return Units { other, ranks };
        }
        ranks[other] = lowest_rank(
            &plan.stages[from..middle],
            &plan.frame.rank,
            plan.frame.resources,
        );
    }
    Units { other: 128, ranks }
}
