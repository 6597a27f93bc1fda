// The writer of plan texts: one pass measures the canonical text and another writes it, both by the same function.
#![tactic(auto)]

ghost use Rattle.std.specs.Prelude.{[], ◌≡◌, length, min};
ghost use Rattle.plan_text.specs.Meaning.{line};
ghost use Rattle.plan_bytes.specs.Over.{plan_read, plan_of};
ghost use Rattle.canonical_text.specs.CanonicalText.{list_to, section_records, text_of, canonical_text};
ghost use Rattle.canonical_text.specs.Writing.{writing, buffer_after};
ghost use Rattle.write_lines.specs.Sink.{with_text};

use canonical_text::{WriteAnswer, Writing};
use plan_bytes::{Frame, LentPlan};
use plan_soundness::is_sound;
use plan_text::Record;
use write_entries::{put_bounds, put_entries};
use write_lines::Sink;
use write_record::put_record;
use write_stages::{put_demands, put_weights};

// What the records of a section's entries are like: R, T or K.
fn records_of(section: u32) -> Record
    ensures { result ≡ line section 0 0 0 0 }
{
    Record {
        section,
        first: 0,
        second: 0,
        third: 0,
        fourth: 0,
    }
}

// The counts of a plan, C.
fn counts_of(resources: u32, types: u32, rows: u32) -> Record
    ensures { result ≡ line 1 resources types rows 0 }
{
    Record {
        section: 1,
        first: resources,
        second: types,
        third: rows,
        fourth: 0,
    }
}

// C, R and T, which go by the frame alone.
fn put_lists(frame: &Frame, out: &mut Sink<'_>)
    ensures { out.new ≡ with_text (text_of (list_to 3 (section_records (plan_read frame.now [])))) out.old }
{
    let resources = u32::from(frame.resources);
    let types = u32::from(frame.types);
    let rows = u32::from(frame.rows);
    put_record(counts_of(resources, types, rows), out);
    put_entries(records_of(2), &frame.capacity, resources, out);
    put_entries(records_of(3), &frame.lengths, types, out);
}

fn put_canonical(plan: LentPlan<'_>, out: &mut Sink<'_>)
    ensures { out.new ≡ with_text (canonical_text (plan_of plan.entry)) out.old }
{
    let resources = u32::from(plan.frame.resources);
    let rows = u32::from(plan.frame.rows);
    put_lists(plan.frame, out);
    put_demands(plan, out);
    put_bounds(&plan.frame.bound, rows, out);
    put_weights(plan, out);
    put_entries(records_of(7), &plan.frame.rank, resources, out);
}

// The length of the canonical text, as far as 64 bits count: put where there is no room, it is only measured.
fn canonical_length(plan: LentPlan<'_>) -> usize
    ensures { result ≡ min (length (canonical_text (plan_of plan.entry))) 18446744073709551615 }
{
    let mut out = Sink {
        buffer: &mut [],
        at: 0,
    };
    put_canonical(plan, &mut out);
    out.at
}

// Nothing was written. The answer stands beside the length, since `writing` promises both.
fn refused(answer: WriteAnswer) -> Writing
    ensures { result ≡ record { answer = answer; length = 0 } }
{
    Writing { answer, length: 0 }
}

// The buffer then begins with the canonical text of the plan. It is left as it is where the plan is not sound, and where the canonical text is longer
// than the buffer or than 65,536 bytes.
pub fn write_plan(plan: LentPlan<'_>, buffer: &mut [u8]) -> Writing
    ensures { (result ≡ writing (plan_of plan.entry) buffer.old) × (buffer.new ≡ buffer_after (plan_of plan.entry) buffer.old) }
{
    if !is_sound(plan) {
        return refused(WriteAnswer::UnsoundPlan);
    }
    let size = canonical_length(plan);
    if buffer.len() < size {
        return refused(WriteAnswer::NoRoom);
    }
    if 65536 < size {
        return refused(WriteAnswer::NoRoom);
    }
    let mut out = Sink { buffer, at: 0 };
    put_canonical(plan, &mut out);
    Writing {
        answer: WriteAnswer::Written,
        length: size,
    }
}
