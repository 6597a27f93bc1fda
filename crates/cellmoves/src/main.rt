// `cellmoves`: a plan and events on standard input, answers on standard output. What is printed is `moves_run`'s, and what a person
// is told of a refused plan, on standard error, is that of `tell_plan`.
#![tactic(auto)]

use moves_run::{ENOUGH, answer_input};
use read_lines::part_of;
use std::env::FillError;
use std::io::IsTerminal;
use std::rt::Env;
use streams::{put, read_full};
use tell_plan::input_message;

// In `cellplan` with other entrances: one for both would ask of its callers that the two can be called, and `streams` asks nothing.
fn answer(rt: &HostRuntime, input: &[u8], buffer: &mut [u8]) {
    let printed = answer_input(input, buffer);
    if put(&mut rt.stdout(), part_of(buffer, 0, printed)).is_err() {
        let _ = eprintln!(rt; "the output could not be written");
    }
    let said = input_message(input, buffer);
    // what standard error does not take is lost
    let _ = put(&mut rt.stderr(), part_of(buffer, 0, said));
}

// Any argument asks how to use the program: then nothing is read. A terminal is told what is awaited. That of `cellplan` differs in its texts
// alone, but of what reads the environment nothing can be promised, and what has no promise is a program's own.
fn is_asked(rt: &HostRuntime) -> bool {
    let mut start = [0u8; 1];
    if !matches!(rt.arg(1, &mut start), Err(FillError::NotPresent)) {
        let _ = eprintln!(rt;
            "usage: cellmoves < INPUT\nIt takes no argument: a plan, a line E and event lines come on standard input."
        );
        return false;
    }
    if rt.stdin().is_terminal() {
        let _ = eprintln!(rt;
            "A plan, a line E and event lines are awaited. Ctrl-D ends them, and then they are answered."
        );
    }
    true
}

fn main(rt: HostRuntime) {
    if !is_asked(&rt) {
        return;
    }
    // one byte more than is taken, so that a longer input is noticed
    let mut input = [0u8; 65537];
    let mut buffer = [0u8; ENOUGH];
    let n = read_full(&mut rt.stdin(), &mut input).count;
    answer(&rt, &input[..n], &mut buffer);
}
