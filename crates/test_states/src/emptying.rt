// What the moves alone, never a load, can do from each state.
use crate::space::{Space, moves_from};
use plan_bytes::LentPlan;

// The states that a move takes into the set; one that was not found has the empty table, and no move.
fn leading_into(s: &Space, plan: LentPlan<'_>, set: u64) -> u64 {
    let mut leading = 0;
    for (n, table) in s.tables.iter().enumerate() {
        if moves_from(plan, *table) & set != 0 {
            leading |= 1 << n;
        }
    }
    leading
}

// The states that some order of moves empties: those that lead to state 0, the empty cell. Four jobs have twelve moves at most.
pub(crate) fn emptied(s: &Space, plan: LentPlan<'_>) -> u64 {
    let mut set = 1;
    for _ in 0..12 {
        set |= leading_into(s, plan, set);
    }
    set
}

// The states found that have jobs, as all but state 0 have, and no move.
pub(crate) fn blocked(s: &Space, plan: LentPlan<'_>) -> u64 {
    (s.found ^ leading_into(s, plan, s.found)) & 0xfffffffffffffffe
}
