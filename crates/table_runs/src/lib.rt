// A whole list of events run through the entrances, by their contracts alone.
#![tactic(auto)]

ghost use Rattle.std.specs.Prelude.{◌≡◌, cond};
ghost use Rattle.events.specs.Events.{is_admitted};
ghost use Rattle.plan_bytes.specs.Over.{plan_of};
ghost use Rattle.table_runs.specs.Run.{event_of, events_of, ran};

use admission::{Outcome, Table};
use events::Answer;
use plan_bytes::LentPlan;

// The table after a list of events, and how many were admitted.
#[derive(Clone, Copy)]
pub struct Ran {
    pub table: Table,
    pub admitted: usize,
}

fn counted(o: Outcome) -> Ran
    ensures { (result.table ≡ o.table) × (result.admitted ≡ cond (is_admitted o.answer) 1 0) }
{
    let table = o.table;
    match o.answer {
        Answer::Admitted => Ran { table, admitted: 1 },
        _ => Ran { table, admitted: 0 },
    }
}

// One event: L loads, A advances, U unloads, X pulls, as in an event line; another letter is no event.
fn step(t: Table, plan: LentPlan<'_>, letter: u8, job: u32, kind: u32) -> Ran
    ensures { result ≡ ran (plan_of plan.entry) t (event_of letter job kind) }
{
    match letter {
        b'L' => counted(t.load(plan, job, kind)),
        b'A' => counted(t.advance(plan, job)),
        b'U' => counted(t.unload(plan, job)),
        b'X' => counted(t.pull(plan, job)),
        _ => Ran {
            table: t,
            admitted: 0,
        },
    }
}

// The events are as many as the shortest slice has.
pub fn run(t: Table, plan: LentPlan<'_>, letters: &[u8], jobs: &[u32], kinds: &[u32]) -> Ran
    ensures { result ≡ ran (plan_of plan.entry) t (events_of letters.now jobs.now kinds.now) }
{
    let mut t = t;
    let mut admitted = 0;
    for ((letter, job), kind) in letters.iter().zip(jobs).zip(kinds) {
        let next = step(t, plan, *letter, *job, *kind);
        t = next.table;
        admitted += next.admitted;
    }
    Ran { table: t, admitted }
}
