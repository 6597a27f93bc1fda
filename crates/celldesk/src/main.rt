// `celldesk PLAN`: the plan text in a file, event lines on standard input, and each answered as soon as its LF is there. What is put is `desk_read`'s and
// `desk_line`'s; here it is read and written.
#![tactic(auto)]

use desk_held::start_desk;
use desk_line::reply_at_end;
use desk_read::answer_read;
use desk_text::{Desk, DeskStep};
use moves_head::put_about;
use plan_bytes::LentPlan;
use plan_numbers::text_number;
use read_lines::part_of;
use read_plan::read;
use std::env::FillError;
use std::fs::File;
use std::io;
use std::io::{IsTerminal, Read};
use std::rt::Env;
use streams::{put, read_full};
use tell_plan::plan_message;
use write_lines::Sink;

// Number 0 is the program's own name.
fn has_argument(rt: &HostRuntime, number: usize) -> bool {
    let mut start = [0u8; 1];
    !matches!(rt.arg(number, &mut start), Err(FillError::NotPresent))
}

// To standard error. What that does not take is lost.
fn say(rt: &HostRuntime, words: &[u8]) {
    let _ = put(&mut rt.stderr(), words);
}

// Without the number that std writes behind the system's words.
fn reason(text: &str) -> &str {
    match text.split_once(" (os error ") {
        Some((words, _)) => words,
        None => text,
    }
}

// A name, and why the system refused it.
fn say_failure(rt: &HostRuntime, name: &str, error: io::Error) {
    let text = format!(in rt.alloc(); "{error}");
    let words = match &text {
        Ok(text) => reason(text.as_str()),
        Err(_) => "out of memory",
    };
    let _ = eprintln!(rt; "{name}: {words}");
}

fn usage(rt: &HostRuntime) {
    let _ = eprintln!(rt;
        "usage: celldesk PLAN\nIt reads the plan text in the file PLAN, then answers each event line of standard input as soon as it is there."
    );
}

// Says so where standard output takes nothing more.
fn print(rt: &HostRuntime, bytes: &[u8]) -> io::Result<()> {
    let written = put(&mut rt.stdout(), bytes);
    if written.is_err() {
        let _ = eprintln!(rt; "the output could not be written");
    }
    written
}

// The answers of a step before its words.
fn write_step(rt: &HostRuntime, out: &[u8], words: &[u8], step: DeskStep) -> io::Result<()> {
    let written = print(rt, part_of(out, 0, step.put));
    say(rt, part_of(words, 0, step.told));
    written
}

// One read, answered before the next. No desk is left at the end of the input, and where nothing more is read or written.
fn answer_next(
    rt: &HostRuntime,
    desk: Desk,
    plan: LentPlan<'_>,
    out: &mut [u8],
    words: &mut [u8],
) -> Option<Desk> {
    let mut input = [0u8; 1024];
    match rt.stdin().read(&mut input) {
        Ok(0) => {}
        Ok(n) => {
            let step = answer_read(desk, plan, &input[..n], out, words);
            let written = write_step(rt, out, words, step);
            return written.is_ok().then_some(step.desk);
        }
        Err(error) => say_failure(rt, "standard input", error),
    }
    let last = reply_at_end(desk, out, words);
    let _ = write_step(rt, out, words, last);
    None
}

// A proved loop has to end: no run uses up as many reads.
fn serve(rt: &HostRuntime, plan: LentPlan<'_>, out: &mut [u8], words: &mut [u8]) {
    let mut desk = start_desk();
    for _ in 0..u64::MAX {
        match answer_next(rt, desk, plan, out, words) {
            Some(next) => desk = next,
            None => return,
        }
    }
}

// The lines `P` and `Q`.
fn print_about(rt: &HostRuntime, number: u32, line: u32, plan: LentPlan<'_>) -> io::Result<()> {
    let mut lines = [0u8; 64];
    let mut out = Sink {
        buffer: &mut lines,
        at: 0,
    };
    put_about(number, line, plan, &mut out);
    let n = out.at;
    print(rt, part_of(&lines, 0, n))
}

// What a person is told of the plan and, at a terminal, of what is awaited.
fn tell(rt: &HostRuntime, text: &[u8]) {
    // enough for a refused line with what is said of it
    let mut message = [0u8; 66000];
    let told = plan_message(text, &mut message);
    say(rt, part_of(&message, 0, told));
    if rt.stdin().is_terminal() {
        let _ = eprintln!(rt;
            "Event lines are awaited: L job type, A job, U job or X job, with tabs. Ctrl-D ends."
        );
    }
}

fn answer(rt: &HostRuntime, text: &[u8]) {
    let reading = read(text);
    let answer = reading.answer;
    let plan = LentPlan {
        frame: &reading.frame,
        stages: &reading.stages,
    };
    if print_about(rt, text_number(answer), reading.line, plan).is_err() {
        return;
    }
    tell(rt, text);
    // enough for every read, as `answer_read` promises
    let mut out = [0u8; 86100];
    let mut words = [0u8; 196800];
    serve(rt, plan, &mut out, &mut words);
}

fn answer_file(rt: &HostRuntime, path: &str, mut file: File) {
    // one byte more than is taken, so that a longer text is noticed
    let mut text = [0u8; 65537];
    let n = read_full(&mut file, &mut text).count;
    // one more read tells a failure from the end, behind a text that filled the buffer too
    let mut more = [0u8; 1];
    match file.read(&mut more) {
        Ok(_) => {
            drop(file);
            answer(rt, &text[..n]);
        }
        Err(error) => say_failure(rt, path, error),
    }
}

// The library opens a file by a name that is UTF-8 text.
fn answer_named(rt: &HostRuntime, name: &[u8]) {
    let Ok(path) = std::str::from_utf8(name) else {
        say(rt, name);
        let _ = eprintln!(rt; ": the name is not UTF-8");
        return;
    };
    match File::open(rt, path) {
        Ok(file) => answer_file(rt, path, file),
        Err(error) => say_failure(rt, path, error),
    }
}

fn main(rt: HostRuntime) {
    if !has_argument(&rt, 1) || has_argument(&rt, 2) {
        usage(&rt);
        return;
    }
    let mut path = [0u8; 4096];
    match rt.arg(1, &mut path) {
        Ok(length) => answer_named(&rt, &path[..length]),
        Err(_) => {
            let _ = eprintln!(rt; "PLAN: File name too long");
        }
    }
}
