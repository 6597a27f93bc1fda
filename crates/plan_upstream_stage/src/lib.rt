// What the upstream check asks of one stage: does it demand one unit, what is the lowest rank that it demands, and what weight
// is due to it in a row? Its demands are lent, by any count of them: nothing is demanded beyond.
#![tactic(auto)]

ghost use Rattle.std.specs.Prelude.{◌≡◌, min, eqb};
ghost use Rattle.model.specs.Numbers.{at, sum_to};
ghost use Rattle.plan_upstream_stage.specs.Due.{rank_if, lowest_rank, due_by};

// Is one unit demanded in all? Sums of 16 bits go eight at a time.
#[tactic(auto, using(crate::proofs::Beyond::units_seen))]
pub fn one_unit(demand: &[u8], resources: u8) -> bool
    ensures { result ≡ eqb (sum_to resources (at demand.now)) 1 }
{
    let n = usize::from(resources).min(demand.len());
    let mut sum: u16 = 0;
    for i in 0..n {
        sum += u16::from(demand[i]);
    }
    sum == 1
}

// The rank of a resource that is demanded; above every rank where it is not.
fn rank_if(demand: u8, rank: u8) -> u16
    ensures { result ≡ rank_if demand rank }
{
    if 1 <= demand { u16::from(rank) } else { 256 }
}

// The lowest rank of the resources that are demanded, of those that can have a rank; above every rank where none is.
#[tactic(auto, using(crate::proofs::Beyond::ranks_seen))]
pub fn lowest_rank<'a>(demand: &'a [u8], rank: &'a [u8; 32], resources: u8) -> u16
    ensures { result ≡ lowest_rank (min resources 32) demand.now rank.now }
{
    let n = usize::from(resources).min(rank.len()).min(demand.len());
    let mut lowest: u16 = 256;
    for i in 0..n {
        lowest = lowest.min(rank_if(demand[i], rank[i]));
    }
    lowest
}

// The weight due to a stage in a resource's row, by its demand of the resource and the least rank whose stretch goes on past
// it; `limit` is the resource's rank, and `later` is due to the stage after it.
pub fn due_weight(demand: u8, rank: u16, limit: u16, later: u8) -> u8
    ensures { result ≡ due_by demand rank limit later }
{
    if 1 <= demand {
        return 1;
    }
    if rank <= limit { later } else { 0 }
}
