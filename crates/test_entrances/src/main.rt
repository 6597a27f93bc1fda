// The papers' runs at the entrances, and both sides of every limit of a plan and a table. The cases are the lines of
// standard input; the first byte of a line is its letter, and numbers follow, each after a tab.
//
//   C R T S B A K  set a plan, in plan.rt     X      the first stages alike    J N    set a table, in table.rt
//   E              empties both               >      keeps both
//   =              ends the line of output, takes back what was kept, and writes the rest of its line
//   +              the same, but goes on from what is set    :      only writes the rest of its line
//   l a u x d q e w p r  ask, in ask.rt       m      loads many jobs    f      the stage of the earliest loaded
//
// Nothing is asked of what is set: a number is taken modulo what its field holds, and an index modulo its array. A missing
// number is 0, and a line with another letter does nothing. Input beyond 65,536 bytes is not read.
#![tactic(auto)]

mod ask;
mod dotted;
mod line;
mod plan;
mod table;

use crate::plan::Plan;
use admission::Table;
use line::numbers_of;
use read_lines::LineReader;
use std::io::Stdout;
use streams::read_full;

// A plan and a table, which need not go together.
#[derive(Clone, Copy)]
struct Cell {
    plan: Plan,
    table: Table,
}

impl Cell {
    fn empty() -> Cell {
        Cell {
            plan: Plan::empty(),
            table: Table::empty(),
        }
    }

    // What a line sets, and what it asks.
    fn follow(&mut self, to: Stdout, letter: u8, line: &[u8]) {
        let numbers = numbers_of(line);
        self.plan.set(letter, numbers);
        table::set(&mut self.table, letter, numbers);
        self.ask(to, letter, line, numbers);
    }
}

fn run(to: Stdout, text: &[u8]) {
    let mut cell = Cell::empty();
    let mut kept = cell;
    for line in LineReader::new(text) {
        let Some(&letter) = line.bytes.first() else {
            continue;
        };
        if letter == b'=' {
            cell = kept;
        }
        cell.follow(to, letter, line.bytes);
        if letter == b'>' {
            kept = cell;
        }
    }
}

fn main(rt: HostRuntime) {
    let mut text = [0u8; 65536];
    let n = read_full(&mut rt.stdin(), &mut text).count;
    run(rt.stdout(), &text[..n]);
}
