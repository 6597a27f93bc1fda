// What is written of a plan: `empty` where the checksum of its entries is 0, or its resources, types and rows, the checksum, 1 where
// it is sound, and the upstream check's answer with its two places.
use crate::checksum::{with, with_bytes};
use plan_bytes::LentPlan;
use plan_numbers::{check_first, check_number, check_second};
use plan_soundness::is_sound;
use plan_upstream::upstream_check;
use std::io::Stdout;

// Each resource's demand, and beside it the weight of the row with its number.
fn with_stage(h: u64, stage: &[u8]) -> u64 {
    let (demands, weights) = stage.split_at(stage.len() / 2);
    demands.iter().zip(weights).fold(h, |h, (demand, weight)| with_bytes(h, &[*demand, *weight]))
}

// Stage by stage; the lists by resource, row and type go round beside them.
fn with_entries(h: u64, plan: LentPlan<'_>) -> u64 {
    let mut h = h;
    for (i, stage) in plan.stages.chunks_exact(64).enumerate() {
        let j = i % 32;
        h = with_stage(h, stage);
        h = with_bytes(h, &[plan.frame.capacity[j], plan.frame.rank[j]]);
        h = with(h, plan.frame.bound[j]);
        h = with_bytes(h, &[plan.frame.lengths[i % 16]]);
    }
    h
}

pub(crate) fn show(to: Stdout, plan: LentPlan<'_>) {
    let counts = [plan.frame.resources, plan.frame.types, plan.frame.rows];
    let h = with_entries(with_bytes(0, &counts), plan);
    if h == 0 {
        let _ = print!(to; "\tempty");
        return;
    }
    let [resources, types, rows] = counts;
    let sound = u8::from(is_sound(plan));
    let _ = print!(to; "\t{resources}\t{types}\t{rows}\t{h}\t{sound}");
    let c = upstream_check(plan);
    let _ = print!(to;
        "\t{}\t{}\t{}",
        check_number(c),
        check_first(c),
        check_second(c)
    );
}
