// A host that holds both forms: a line reader over its text, and a table of its own, which it lends for each event. Standard input is
// an input of `cellmoves`. Of each line after the `E` it writes the line, LF or cut, the answer, its place and the jobs then active.
// A line that says no event is asked as a load of number 0, which is refused.
#![tactic(auto)]

use admission::Table;
use events::{Answer, Event};
use moves_input::{event_of, plan_length};
use moves_text::EventLine;
use plan_bytes::LentPlan;
use read_lines::{LineReader, TextLine, part_of};
use read_plan::read;
use std::io::Stdout;
use streams::read_full;
use table_lent::apply;
use table_numbers::{answer_number, answer_place};

fn event_in(line: TextLine<'_>) -> Event {
    match event_of(line.bytes, line.ended) {
        EventLine::Given(event) => event,
        EventLine::Skipped | EventLine::Malformed => Event::Load { job: 0, kind: 0 },
    }
}

fn tell(to: Stdout, line: TextLine<'_>, answer: Answer, table: &Table) {
    let _ = to.write_all(line.bytes);
    let end = if line.ended { "LF" } else { "cut" };
    let number = answer_number(answer);
    let place = answer_place(answer);
    let _ = println!(to; "\t{end}\t{number}\t{place}\t{}", table.list.count);
}

// The host: it keeps the table from line to line.
fn answer_lines(to: Stdout, plan: LentPlan<'_>, text: &[u8]) {
    let mut table = Table::empty();
    for line in LineReader::new(text) {
        let answer = apply(&mut table, plan, event_in(line));
        tell(to, line, answer, &table);
    }
}

fn main(rt: HostRuntime) {
    let mut input = [0u8; 65536];
    let n = read_full(&mut rt.stdin(), &mut input).count;
    let text = &input[..n];
    let plan_end = plan_length(text);
    let reading = read(part_of(text, 0, plan_end));
    answer_lines(
        rt.stdout(),
        LentPlan {
            frame: &reading.frame,
            stages: &reading.stages,
        },
        part_of(text, plan_end + 2, n),
    );
}
