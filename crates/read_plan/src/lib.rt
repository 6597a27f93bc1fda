// The reader of plan texts, and the line that a refusal is about. One pass over the lines: a line's questions are answered from the counts, the
// capacities, the stages per type and the one entry that it names, and its record writes that entry.
#![tactic(auto)]

ghost use Rattle.std.specs.Prelude.{[], ◌≡◌, ◌<◌, ◌≤◌, length, IsOk, OnOk};
ghost use Rattle.plan_text.specs.Lines.{lines_of};
ghost use Rattle.plan_text.specs.TextParts.{IsShown};
ghost use Rattle.plan_text.specs.Records.{record_in};
ghost use Rattle.plan_text.specs.Draft.{empty_draft, draft_after};
ghost use Rattle.plan_text.specs.Reading.{refused, read_from, reading};
ghost use Rattle.plan_text.specs.Framed.{reading_from};
ghost use Rattle.plan_text.specs.ReaderInternals.{unless_refused, line_answer, narrowed};
ghost use Rattle.read_draft.specs.Drafted.{drafted};

use plan_empty::empty_frame;
use plan_text::{FramedReading, TextAnswer};
use read_draft::FramedDraft;
use read_form::form_of;
use read_lines::{LineReader, TextLine, part_of};

fn refusal(answer: TextAnswer, line: u32, from: usize, to: usize) -> FramedReading
    ensures { reading_from result ≡ refused answer line from to }
{
    FramedReading {
        answer,
        line,
        from,
        to,
        frame: empty_frame(),
        stages: [0; 8192],
    }
}

// Question 7, asked of the draft after the last line.
fn finished(draft: &FramedDraft, line: u32) -> FramedReading
    requires { line < 4294967295 }
    ensures { reading_from result ≡ read_from line 0 (drafted draft.now) [] }
{
    if !draft.is_complete() {
        return refusal(TextAnswer::Incomplete, line + 1, 0, 0);
    }
    FramedReading {
        answer: TextAnswer::Accepted,
        line: 0,
        from: 0,
        to: 0,
        frame: draft.frame,
        stages: draft.stages,
    }
}

// Questions 2 to 6 of a line; its record is written where they are met.
fn read_line(line: TextLine<'_>, draft: &mut FramedDraft) -> Result<(), TextAnswer>
    ensures answer { result ≡ unless_refused (line_answer (drafted draft.old) (record { bytes = line.entry.bytes.now; ended = line.entry.ended })) tt }
    ensures written { OnOk result (drafted draft.new ≡ draft_after (drafted draft.old) (narrowed (record_in line.entry.bytes.now))) }
{
    let Some(rec) = form_of(line.bytes, line.ended, draft.section)? else {
        return Ok(());
    };
    draft.try_write(rec)
}

fn read_lines(text: &[u8]) -> FramedReading
    requires { length text.now ≤ 65536 }
    ensures { reading_from result ≡ read_from 0 0 empty_draft (lines_of text.now) }
{
    let mut draft = FramedDraft::empty();
    let mut line = 0;
    let mut at = 0;
    let mut reader = LineReader::new(text);
    // no `for`: after each line the reader is asked where it stands
    while let Some(next) = reader.next() {
        line += 1;
        if let Err(answer) = read_line(next, &mut draft) {
            return refusal(answer, line, at, at + next.bytes.len());
        }
        at = reader.at;
    }
    finished(&draft, line)
}

// A plan text read: the answer with the line that decides it and where that line stands in the text, and the plan.
#[tactic(auto, unfolding(plan_text::specs::Reading::reading))]
pub fn read(text: &[u8]) -> FramedReading
    ensures { reading_from result ≡ reading text.now }
{
    if 65536 < text.len() {
        return refusal(TextAnswer::TooLong, 0, 0, 0);
    }
    read_lines(text)
}

// The line that a refusal is about, as a part of the text; empty where it is about none.
pub fn shown_line(text: &[u8]) -> &[u8]
    ensures { IsShown text.entry (reading text.now) result }
{
    let reading = read(text);
    let from = reading.from;
    let to = reading.to;
    part_of(text, from, to)
}
