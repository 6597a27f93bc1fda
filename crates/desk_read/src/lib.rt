// The step of `celldesk`: what is put of a read. The rest of the program reads and writes.
#![tactic(auto)]

ghost use Rattle.std.specs.Prelude.{◌≡◌, ◌*◌, ◌≤◌, length, take};
ghost use Rattle.plan_bytes.specs.Over.{plan_of};
ghost use Rattle.moves_text.specs.Buffer.{overlaid};
ghost use Rattle.write_lines.specs.Sink.{with_text};
ghost use Rattle.desk_text.specs.Desk.{most_read, desk_after_read, out_of_read, told_of_read};

use desk_held::hold;
use desk_line::reply;
use desk_text::{Desk, DeskStep};
use plan_bytes::LentPlan;
use read_lines::{LineReader, part_of};
use write_lines::Sink;

// The lines of a read, one after the other.
fn reply_to_lines(
    start: Desk,
    plan: LentPlan<'_>,
    read: &[u8],
    out: &mut Sink<'_>,
    words: &mut Sink<'_>,
) -> Desk
    ensures after { result ≡ desk_after_read (plan_of plan.entry) start read.now }
    ensures answered { out.new ≡ with_text (out_of_read (plan_of plan.entry) start read.now) out.old }
    ensures told { words.new ≡ with_text (told_of_read (plan_of plan.entry) start read.now) words.old }
    ensures out_short { length (out_of_read (plan_of plan.entry) start read.now) ≤ 84 * length read.now }
    ensures told_short { length (told_of_read (plan_of plan.entry) start read.now) ≤ 192 * length read.now }
{
    let mut desk = start;
    for line in LineReader::new(read) {
        let held = hold(desk.held, line.bytes);
        if line.ended {
            desk = reply(desk, held, plan, out, words);
        } else {
            desk.held = held;
        }
    }
    desk
}

// What was read: the first 1,024 bytes of it, which is as much as `celldesk` reads at once. So a buffer of 86,100 bytes has room for every answer,
// and one of 196,800 for every word.
pub fn answer_read(
    desk: Desk,
    plan: LentPlan<'_>,
    input: &[u8],
    out: &mut [u8],
    words: &mut [u8],
) -> DeskStep
    ensures after { result.desk ≡ desk_after_read (plan_of plan.entry) desk (take most_read input.now) }
    ensures answered { let text = out_of_read (plan_of plan.entry) desk (take most_read input.now) in (result.put ≡ length text) × (out.new ≡ overlaid text out.old) }
    ensures told { let text = told_of_read (plan_of plan.entry) desk (take most_read input.now) in (result.told ≡ length text) × (words.new ≡ overlaid text words.old) }
    ensures put_bound { (result.put ≤ 86100) × (result.told ≤ 196800) }
{
    let read = part_of(input, 0, 1024);
    let mut answers = Sink { buffer: out, at: 0 };
    let mut messages = Sink {
        buffer: words,
        at: 0,
    };
    let after = reply_to_lines(desk, plan, read, &mut answers, &mut messages);
    DeskStep {
        desk: after,
        put: answers.at,
        told: messages.at,
    }
}
