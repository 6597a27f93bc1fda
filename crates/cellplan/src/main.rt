// `cellplan`: a plan text on standard input, its canonical form on standard output. What is printed is `write_canonical`'s, and what a person is
// told of a refused text, on standard error, is that of `tell_plan`.
#![tactic(auto)]

use read_lines::part_of;
use std::env::FillError;
use std::io::IsTerminal;
use std::rt::Env;
use streams::{put, read_full};
use tell_plan::text_message;
use write_canonical::canonical_form;

// In `cellmoves` with other entrances: one for both would ask of its callers that the two can be called, and `streams` asks nothing.
fn answer(rt: &HostRuntime, text: &[u8], buffer: &mut [u8]) {
    let printed = canonical_form(text, buffer);
    if put(&mut rt.stdout(), part_of(buffer, 0, printed)).is_err() {
        let _ = eprintln!(rt; "the output could not be written");
    }
    let said = text_message(text, buffer);
    // what standard error does not take is lost
    let _ = put(&mut rt.stderr(), part_of(buffer, 0, said));
}

// Any argument asks how to use the program: then nothing is read. A terminal is told what is awaited. That of `cellmoves` differs in its texts
// alone, but of what reads the environment nothing can be promised, and what has no promise is a program's own.
fn is_asked(rt: &HostRuntime) -> bool {
    let mut start = [0u8; 1];
    if !matches!(rt.arg(1, &mut start), Err(FillError::NotPresent)) {
        let _ = eprintln!(rt;
            "usage: cellplan < PLAN\nIt takes no argument: a plan text comes on standard input."
        );
        return false;
    }
    if rt.stdin().is_terminal() {
        let _ = eprintln!(rt; "A plan text is awaited. Ctrl-D ends it, and then it is printed.");
    }
    true
}

fn main(rt: HostRuntime) {
    if !is_asked(&rt) {
        return;
    }
    // one byte more than is taken, so that a longer text is noticed
    let mut text = [0u8; 65537];
    // enough for every output, and for a refused line with what is said of it
    let mut buffer = [0u8; 66000];
    let n = read_full(&mut rt.stdin(), &mut text).count;
    answer(&rt, &text[..n], &mut buffer);
}
