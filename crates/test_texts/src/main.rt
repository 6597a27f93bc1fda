// Texts at the library's entrances: plan texts on both sides of each of the reader's questions, and inputs of `cellmoves`. Each
// line of standard input is a case: its name, a space, and its text as document 01 writes one, with two things more (text.rt).
//
//   a space is a tab, / a line end         <13> is the byte 13, and so for any byte
//   (n*..) is n times what stands between, in which % is the turn, from 01, in two digits
//
// A case is a plan text; where a + stands before its name, it is an input. A line whose name is > says what the texts of the cases
// below it begin with. Empty lines and lines that begin with # are skipped. Input beyond 65,536 bytes is not read. What is written
// of a plan text is in show.rt and plan.rt, what is written of an input in inputs.rt.
#![tactic(auto)]

mod checksum;
mod inputs;
mod lent;
mod plan;
mod show;
mod text;

use read_lines::{LineReader, part_of};
use std::io::Stdout;
use streams::read_full;
use text::{Buffer, put_text};

// The buffer that a case's text is put into, and how many bytes of it the next texts begin with; and the one that is lent to an entrance.
#[derive(Drop)]
struct Cases {
    to: Stdout,
    buffer: Buffer,
    kept: usize,
    out: [u8; moves_run::ENOUGH],
}

impl Cases {
    fn plan_text(&mut self, name: &[u8], notation: &[u8]) {
        let n = put_text(notation, &mut self.buffer, self.kept);
        show::case(self.to, name, part_of(&self.buffer, 0, n));
    }

    fn input(&mut self, name: &[u8], notation: &[u8]) {
        let n = put_text(notation, &mut self.buffer, self.kept);
        inputs::case(self.to, name, part_of(&self.buffer, 0, n), &mut self.out);
    }

    // Without a space the text is empty; but of a line of 65,536 bytes, the whole input, it is what stands behind the first byte, as it always was.
    fn line(&mut self, line: &[u8]) {
        let end = line.iter().position(|b| *b == b' ').unwrap_or(line.len());
        let name = part_of(line, 0, end);
        let notation = part_of(line, end % 65536 + 1, line.len());
        match name {
            [] | [b'#', ..] => {}
            [b'>', ..] => self.kept = put_text(notation, &mut self.buffer, 0),
            [b'+', name @ ..] => self.input(name, notation),
            _ => self.plan_text(name, notation),
        }
    }
}

fn run(to: Stdout, lines: &[u8]) {
    let mut cases = Cases {
        to,
        buffer: [0; 65600],
        kept: 0,
        out: [lent::UNTOUCHED; moves_run::ENOUGH],
    };
    for line in LineReader::new(lines) {
        cases.line(line.bytes);
    }
}

fn main(rt: HostRuntime) {
    let mut lines = [0u8; 65536];
    let n = read_full(&mut rt.stdin(), &mut lines).count;
    run(rt.stdout(), &lines[..n]);
}
