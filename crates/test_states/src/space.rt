// The search: from every state found, every event of five job numbers at the entrances. The cell holds four jobs at most, so a
// number is always free; and a refusal hands back the table that it met, so it leads to no new state.
ghost use Rattle.std.specs.Prelude.{◌≤◌};

use crate::table1::number_of;
use admission::{Outcome, Table};
use plan_bytes::LentPlan;

// The number of a state that Table 1 lacks.
const LACKED: usize = 47;

// The states found, bit n of `found` for the state with number n, with a table of each. A set of states is a
// u64 throughout: what is asked of it, as another set's rest, is one operation of bits, and of a set of std a loop.
#[derive(Clone, Copy)]
pub(crate) struct Space {
    pub found: u64,
    pub tables: [Table; 48],
}

// One job at a stage, as a marking; beyond the last job stand zeros.
fn unit(kind: u32, stage: u32) -> u64
    ensures { result ≤ 100000 }
{
    match (kind, stage) {
        (0, _) => 0,
        (1, 1) => 100000,
        (1, 2) => 10000,
        (1, _) => 1000,
        (_, 1) => 100,
        (_, 2) => 10,
        _ => 1,
    }
}

// The number of a table's state, that of Table 1 if it has the state.
fn state_of(t: Table) -> usize
    ensures { result ≤ 47 }
{
    let mut marking = 0;
    for j in t.list.jobs {
        marking += unit(j.kind, j.stage);
    }
    number_of(marking).unwrap_or(LACKED)
}

impl Space {
    // The empty cell alone is found.
    fn at_start() -> Space {
        Space {
            found: 1,
            tables: [Table::empty(); 48],
        }
    }

    // The state after an event is found, with its table, for any will do.
    fn reach(&mut self, o: Outcome) {
        let n = state_of(o.table);
        self.found |= 1 << n;
        self.tables[n] = o.table;
    }

    // The states are found that one event leads to from this table.
    fn follow(&mut self, plan: LentPlan<'_>, t: Table) {
        for job in 1..=5 {
            self.reach(t.load(plan, job, 1));
            self.reach(t.load(plan, job, 2));
            self.reach(t.advance(plan, job));
            self.reach(t.unload(plan, job));
        }
    }
}

// Each state is followed once, the lowest number first.
pub(crate) fn explored(plan: LentPlan<'_>) -> Space {
    let mut s = Space::at_start();
    let mut done = 0;
    for _ in 0..48 {
        let n = (s.found ^ done).trailing_zeros();
        if n < 48 {
            let table = s.tables[n as usize];
            s.follow(plan, table);
            done |= 1 << n;
        }
    }
    s
}

// One bit, for the number of a table's state.
fn bit_of(t: Table) -> u64 {
    1 << state_of(t)
}

// The set of the other states that an advance or an unload leads to from this table.
pub(crate) fn moves_from(plan: LentPlan<'_>, t: Table) -> u64 {
    let own = bit_of(t);
    let mut set = own;
    for job in 1..=5 {
        set |= bit_of(t.advance(plan, job).table);
        set |= bit_of(t.unload(plan, job).table);
    }
    set ^ own
}
