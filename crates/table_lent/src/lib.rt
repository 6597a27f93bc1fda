// The table lent: an event is answered, and its outcome written into the host's own table.
#![tactic(auto)]

ghost use Rattle.std.specs.Prelude.{◌≡◌};
ghost use Rattle.events.specs.Events.{is_admitted};
ghost use Rattle.plan_bytes.specs.Over.{plan_of};
ghost use Rattle.admission.specs.Table.{outcome};

use admission::Table;
use events::{Answer, Event};
use plan_bytes::LentPlan;

fn is_admitted(answer: Answer) -> bool
    ensures { result ≡ is_admitted answer }
{
    matches!(answer, Answer::Admitted)
}

// The table then holds what the outcome names. A refusal writes nothing.
pub fn apply(table: &mut Table, plan: LentPlan<'_>, event: Event) -> Answer
    ensures { record { answer = result; table = table.new } ≡ outcome (plan_of plan.entry) table.old event }
{
    let before = *table;
    let outcome = before.handle(plan, event);
    let answer = outcome.answer;
    if is_admitted(answer) {
        *table = outcome.table;
    }
    answer
}
