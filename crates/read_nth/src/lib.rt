// The n-th line of a text, found by the line reader.
#![tactic(auto)]

ghost use Rattle.plan_text.specs.NthLine.{IsNth};

use read_lines::{LineReader, part_of};

// The n-th line of a text, counted from 1, as a part of it: what the n-th `next` reads; empty where there is none.
pub fn nth_line(text: &[u8], n: u32) -> &[u8]
    ensures { IsNth text.entry n result }
{
    if n == 0 {
        return part_of(text, 0, 0);
    }
    let mut reader = LineReader::new(text);
    match reader.nth(n as usize - 1) {
        Some(line) => line.bytes,
        None => part_of(text, reader.at, reader.at),
    }
}
