// The records of a plan's demands and of its weights, S and A, put into a sink. Any frame and any bytes may be handed in: nothing is
// demanded and nothing weighed where there is no stage.
#![tactic(auto)]

ghost use Rattle.std.specs.Prelude.{◌≡◌, ◌≤◌, length};
ghost use Rattle.plan_bytes.specs.Over.{plan_of};
ghost use Rattle.canonical_text.specs.CanonicalText.{demand_records, weight_records, text_of};
ghost use Rattle.write_lines.specs.Sink.{with_text};
ghost use Rattle.write_stages.specs.StageRecords.{stage_read, stage_records, records_from, plan_stages};

use plan_bytes::LentPlan;
use plan_entry::entry_of;
use plan_stages::length_of;
use plan_text::Record;
use write_entries::{put_entries, put_valued};
use write_lines::Sink;

// The A record of what the stage at an index, counted from 0, weighs in a row; where no row is named its S records.
fn put_stage(
    plan: LentPlan<'_>,
    row: Option<u32>,
    kind: u32,
    stage: u32,
    index: usize,
    out: &mut Sink<'_>,
)
    requires { length plan.stages.now ≡ 8192 }
    ensures value { out.new ≡ with_text (text_of (stage_records plan.entry.frame.now.resources row kind stage (stage_read plan.entry.stages.now index))) out.old }
    ensures upper_bound { length (text_of (stage_records plan.entry.frame.now.resources row kind stage (stage_read plan.entry.stages.now index))) ≤ 11730 }
{
    if 128 <= index {
        return;
    }
    let from = index * 64;
    let middle = from + 32;
    match row {
        None => {
            let like = Record {
                section: 4,
                first: kind,
                second: stage,
                third: 0,
                fourth: 0,
            };
            let demands = &plan.stages[from..middle];
            // a cast, since by `From` the check does not know that there are at most 255
            put_entries(like, demands, plan.frame.resources as u32, out);
        }
        Some(row) => {
            let like = Record {
                section: 6,
                first: row,
                second: kind,
                third: 0,
                fourth: 0,
            };
            let weights = &plan.stages[middle..middle + 32];
            put_valued(like, stage, entry_of(weights, row), out);
        }
    }
}

// The same of each stage of a type, by where its first stands. They have far fewer bytes than is said here and below: 46 a record, 255 records a stage
// and as many stages as 32 bits count.
#[tactic(auto, using(write_lines::proofs::Sinks::nothing_put))]
fn put_type(
    plan: LentPlan<'_>,
    row: Option<u32>,
    kind: u32,
    first: usize,
    count: u32,
    out: &mut Sink<'_>,
)
    requires { (length plan.stages.now ≡ 8192) × (first ≤ 1099511627776) }
    ensures value { out.new ≡ with_text (text_of (records_from plan.entry.stages.now plan.entry.frame.now.resources row kind first count)) out.old }
    ensures upper_bound { length (text_of (records_from plan.entry.stages.now plan.entry.frame.now.resources row kind first count)) ≤ 50379966370350 }
{
    for k in 0..count {
        let stage = k + 1;
        let index = first + k as usize;
        put_stage(plan, row, kind, stage, index, out);
    }
}

// The same of each stage of a plan.
#[tactic(auto, using(write_lines::proofs::Sinks::nothing_put))]
fn put_stages(plan: LentPlan<'_>, row: Option<u32>, out: &mut Sink<'_>)
    ensures value { out.new ≡ with_text (text_of (plan_stages (plan_of plan.entry) row)) out.old }
    ensures upper_bound { length (text_of (plan_stages (plan_of plan.entry) row)) ≤ 12846891424439250 }
{
    if plan.stages.len() != 8192 {
        return;
    }
    let mut first = 0;
    for t in 0..plan.frame.types {
        let kind = u32::from(t) + 1;
        let count = length_of(&plan.frame.lengths, kind);
        put_type(plan, row, kind, first, count, out);
        first += count as usize;
    }
}

// The S records of a plan.
#[tactic(auto, using(crate::proofs::StageRecords::demands_told))]
pub fn put_demands(plan: LentPlan<'_>, out: &mut Sink<'_>)
    ensures value { out.new ≡ with_text (text_of (demand_records (plan_of plan.entry))) out.old }
    ensures upper_bound { length (text_of (demand_records (plan_of plan.entry))) ≤ 12846891424439250 }
{
    put_stages(plan, None, out);
}

// The A records of a plan.
#[tactic(auto, using(write_lines::proofs::Sinks::nothing_put))]
pub fn put_weights(plan: LentPlan<'_>, out: &mut Sink<'_>)
    ensures value { out.new ≡ with_text (text_of (weight_records (plan_of plan.entry))) out.old }
    ensures upper_bound { length (text_of (weight_records (plan_of plan.entry))) ≤ 3275957313232008750 }
{
    for w in 0..plan.frame.rows {
        let row = u32::from(w) + 1;
        put_stages(plan, Some(row), out);
    }
}
