// The plan that the records so far have written: what it has under the key of a record, questions 5, 6 and 7 by it, and what a record writes there. Any
// record may be handed in.
#![tactic(auto)]

ghost use Rattle.std.specs.Prelude.{◌≡◌, ℕ, leb, get_or, OnOk, OnErr};
ghost use Rattle.model.specs.Numbers.{at, all_to};
ghost use Rattle.model.specs.Plan.{no_stage};
ghost use Rattle.plan_bytes.specs.Over.{stage_in, plan_read};
ghost use Rattle.plan_text.specs.Draft.{empty_draft, index_named, of_section, held_in, draft_after};
ghost use Rattle.plan_text.specs.Reading.{within_total, is_complete};
ghost use Rattle.plan_text.specs.ReaderInternals.{unless_refused, record_answer, narrowed};
ghost use Rattle.read_draft.specs.Drafted.{drafted, staged};
ghost use Rattle.read_draft.specs.StageBytes.{bytes_after};

use plan_bytes::{Frame, LentPlan};
use plan_empty::empty_frame;
use plan_entry::{entry_of, put_bound, put_entry};
use plan_soundness::is_sound;
use plan_stages::stage_index;
use plan_text::{Record, TextAnswer};
use read_ranges::in_ranges;

// A plan so far, by its frame and the bytes of its stages; with it which rows have their bound, 1 for those that do, since a bound may be 0; and the section of the
// last record, 0 for none. Both as the definition `Draft` has them, which `held_in` reads as numbers beside the others.
#[derive(Clone, Copy)]
pub struct FramedDraft {
    pub frame: Frame,
    pub stages: [u8; 8192],
    pub bounded: [u8; 32],
    pub section: u32,
}

// What a stage says that the plan does not have.
const NO_STAGE: [u8; 64] = [0; 64];

// Where the stage of an S or an A stands among all stages; 0 for another record.
#[tactic(auto, unfolding(plan_text::specs::Draft::index_named, internals::specs::Internals::stage_index))]
fn index_named(rec: Record, lengths: &[u8; 16]) -> usize
    ensures { result ≡ index_named lengths.now rec }
{
    match rec.section {
        4 => stage_index(lengths, rec.first, rec.second),
        6 => stage_index(lengths, rec.second, rec.third),
        _ => 0,
    }
}

// What the bytes of a stage say that it demands of a resource, and that it weighs in a row; 0 where there is no such byte.
#[tactic(auto, using(crate::proofs::StageEntries::demand_here, crate::proofs::StageEntries::no_demand))]
fn demand_in(stage: &[u8], resource: u32) -> u32
    ensures { result ≡ at (stage_in stage.now).demand resource }
{
    if 32 < resource {
        return 0;
    }
    entry_of(stage, resource)
}

#[tactic(auto, using(crate::proofs::StageEntries::weight_here, crate::proofs::StageEntries::no_weight))]
fn weight_in(stage: &[u8], row: u32) -> u32
    ensures { result ≡ at (stage_in stage.now).weight row }
{
    if row < 1 || 32 < row {
        return 0;
    }
    entry_of(stage, row + 32)
}

// With the stages of a T, are there at most 128 of all types together?
#[tactic(auto, unfolding(internals::specs::Internals::stage_index))]
fn within_total(rec: Record, lengths: &[u8; 16]) -> bool
    ensures { result ≡ within_total lengths.now rec }
{
    if rec.section != 3 {
        return true;
    }
    let total = stage_index(lengths, 17, 1);
    if 128 < total {
        return false;
    }
    total + rec.second as usize <= 128
}

// The 64 bytes of a stage, with the demand of an S or the weight of an A.
fn write_stage(rec: Record, stage: &mut [u8])
    ensures { stage.new ≡ bytes_after stage.old (narrowed rec) }
{
    if stage.len() != 64 {
        return;
    }
    let x = (rec.fourth % 256) as u8;
    match rec.section {
        4 => put_entry(&mut stage[0..32], rec.third, x),
        6 => put_entry(&mut stage[32..64], rec.first, x),
        _ => {}
    }
}

// The section of the last record; what is no record leaves it.
fn section_after(last: u32, rec: Record) -> u32
    ensures { result ≡ of_section rec 0 last rec.section }
{
    if rec.section == 0 { last } else { rec.section }
}

impl FramedDraft {
    pub fn empty() -> FramedDraft
        ensures { drafted result ≡ empty_draft }
    {
        FramedDraft {
            frame: empty_frame(),
            stages: [0; 8192],
            bounded: [0; 32],
            section: 0,
        }
    }

    // The bytes of the stage at an index.
    fn stage_at(&self, index: usize) -> &[u8]
        ensures { stage_in result.now ≡ get_or (plan_read self.now.frame self.now.stages).stages index no_stage }
    {
        if index < 128 {
            &self.stages[index * 64..index * 64 + 64]
        } else {
            &NO_STAGE
        }
    }

    // What stands under the record's key: of a C the section of the last record, else an entry. `index` is that of the stage that the record names, here
    // and below, so that a record that is asked and written has it found once.
    fn held_at(&self, rec: Record, index: usize) -> u32
        requires { index ≡ index_named self.now.frame.lengths rec }
        ensures { result ≡ held_in (drafted self.now) rec }
    {
        let stage = self.stage_at(index);
        match rec.section {
            1 => self.section,
            2 => entry_of(&self.frame.capacity, rec.first),
            3 => entry_of(&self.frame.lengths, rec.first),
            4 => demand_in(stage, rec.third),
            5 => entry_of(&self.bounded, rec.first),
            6 => weight_in(stage, rec.first),
            7 => entry_of(&self.frame.rank, rec.first),
            _ => 0,
        }
    }

    fn answer_at(&self, rec: Record, index: usize) -> Result<(), TextAnswer>
        requires { index ≡ index_named self.now.frame.lengths rec }
        ensures { result ≡ unless_refused (record_answer (drafted self.now) rec) tt }
    {
        let ranged = in_ranges(rec, &self.frame);
        let first = self.held_at(rec, index) == 0;
        let within = within_total(rec, &self.frame.lengths);
        if !ranged {
            return Err(TextAnswer::OutOfRange);
        }
        if !first {
            return Err(TextAnswer::Repeated);
        }
        if !within {
            return Err(TextAnswer::OutOfRange);
        }
        Ok(())
    }

    // Questions 5 and 6 of a record, and then 5 of all types together.
    pub fn answer(&self, rec: Record) -> Result<(), TextAnswer>
        ensures { result ≡ unless_refused (record_answer (drafted self.now) rec) tt }
    {
        self.answer_at(rec, index_named(rec, &self.frame.lengths))
    }

    // Has every row its bound?
    fn all_bounded(&self) -> bool
        ensures { result ≡ all_to self.now.frame.rows (λ (w : ℕ). leb 1 (at self.now.bounded w)) }
    {
        for w in 0..u32::from(self.frame.rows) {
            if entry_of(&self.bounded, w + 1) < 1 {
                return false;
            }
        }
        true
    }

    // Question 7, asked after the last line.
    pub fn is_complete(&self) -> bool
        ensures { result ≡ is_complete (drafted self.now) }
    {
        let plan = LentPlan {
            frame: &self.frame,
            stages: &self.stages,
        };
        is_sound(plan) && self.all_bounded()
    }

    // The demand of an S or the weight of an A, in the stage that it names.
    fn write_named(&mut self, rec: Record, index: usize)
        requires { index ≡ index_named self.old.frame.lengths rec }
        ensures { drafted self.new ≡ staged (drafted self.old) rec }
    {
        if index < 128 {
            write_stage(rec, &mut self.stages[index * 64..index * 64 + 64]);
        }
    }

    fn write_at(&mut self, rec: Record, index: usize)
        requires { index ≡ index_named self.old.frame.lengths rec }
        ensures { drafted self.new ≡ draft_after (drafted self.old) (narrowed rec) }
    {
        let value = (rec.second % 256) as u8;
        self.section = section_after(self.section, rec);
        match rec.section {
            1 => {
                self.frame.resources = (rec.first % 256) as u8;
                self.frame.types = value;
                self.frame.rows = (rec.third % 256) as u8;
            }
            2 => put_entry(&mut self.frame.capacity, rec.first, value),
            3 => put_entry(&mut self.frame.lengths, rec.first, value),
            4 | 6 => self.write_named(rec, index),
            5 => {
                put_bound(
                    &mut self.frame.bound,
                    rec.first,
                    (rec.second % 65536) as u16,
                );
                put_entry(&mut self.bounded, rec.first, 1);
            }
            7 => put_entry(&mut self.frame.rank, rec.first, value),
            _ => {}
        }
    }

    // Writes the one entry of the record's key, or the counts.
    pub fn write(&mut self, rec: Record)
        ensures { drafted self.new ≡ draft_after (drafted self.old) (narrowed rec) }
    {
        let index = index_named(rec, &self.frame.lengths);
        self.write_at(rec, index);
    }

    // Asks as `answer` does and, where no question refuses the record, writes it as `write` does.
    pub fn try_write(&mut self, rec: Record) -> Result<(), TextAnswer>
        ensures answer { result ≡ unless_refused (record_answer (drafted self.old) rec) tt }
        ensures written { OnOk result (drafted self.new ≡ draft_after (drafted self.old) (narrowed rec)) }
        ensures kept { OnErr result (self.new ≡ self.old) }
    {
        let index = index_named(rec, &self.frame.lengths);
        self.answer_at(rec, index)?;
        self.write_at(rec, index);
        Ok(())
    }
}
