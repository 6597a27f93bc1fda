// A caller's own table, lent to `apply` for one event: callers hand over a table by value.
#![tactic(auto)]

ghost use Rattle.std.specs.Prelude.{◌≡◌};
ghost use Rattle.plan_bytes.specs.Over.{plan_of};
ghost use Rattle.admission.specs.Table.{outcome};

use admission::{Outcome, Table};
use events::Event;
use plan_bytes::LentPlan;
use table_lent::apply;

// The answer, and the table as `apply` left it.
pub fn handle_lent(table: Table, plan: LentPlan<'_>, event: Event) -> Outcome
    ensures { result ≡ outcome (plan_of plan.entry) table event }
{
    let mut own = table;
    let answer = apply(&mut own, plan, event);
    Outcome { answer, table: own }
}
