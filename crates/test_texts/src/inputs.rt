// What is written of an input: its name; the output, and a line about the buffer it was put into; the message, and such a line; and
// an empty line. A text of more than 400 bytes is written as `long`, its checksum, its first line and its last, at most 60 bytes of
// each. The line about the buffer has the length of the text, what is handed back where just so many bytes are lent, what is handed
// back where one byte less is lent, and `kept`, or `changed` where the text differs or a byte beside it was changed. In the buffer
// that is a byte too short nothing is put of an output, and all but the last byte of a message.
use crate::checksum::of_bytes;
use crate::lent::{restore, untouched};
use crate::show::write;
use moves_run::answer_input;
use read_lines::{LineReader, TextLine, part_of};
use std::io::Stdout;
use tell_plan::input_message;

fn line(to: Stdout, line: Option<TextLine<'_>>) {
    if let Some(line) = line {
        write(to, part_of(line.bytes, 0, 60));
    }
    write(to, b"\n");
}

fn text(to: Stdout, s: &[u8]) {
    if s.len() <= 400 {
        write(to, s);
        return;
    }
    let _ = println!(to; "long\t{}", of_bytes(s));
    line(to, LineReader::new(s).next());
    line(to, LineReader::new(s).last());
}

fn sum_of(out: &[u8], n: usize) -> u64 {
    of_bytes(part_of(out, 0, n))
}

// In a buffer of so many bytes: whether so many bytes of the text are there, with this checksum, and behind them nothing.
fn is_kept<P: Fn(&mut [u8]) -> usize>(
    to: Stdout,
    put: &P,
    out: &mut [u8],
    room: usize,
    there: usize,
    sum: u64,
) -> bool
    requires { P.IsAlwaysCallable put.now }
{
    let handed_back = match out.get_mut(..room) {
        Some(part) => put(part),
        None => 0,
    };
    let _ = print!(to; "\t{handed_back}");
    let kept = sum_of(out, there) == sum && untouched(out, there);
    restore(out, room);
    kept
}

// What `put` puts: first in a buffer that is long enough, then in one of just its length, and in one of a byte less, where `cut` says how
// many bytes of it are there.
fn shown<P: Fn(&mut [u8]) -> usize, C: Fn(usize) -> usize>(
    to: Stdout,
    label: &str,
    put: P,
    cut: C,
    out: &mut [u8],
)
    requires puts { P.IsAlwaysCallable put }
    requires cuts { C.IsAlwaysCallable cut }
{
    let n = put(out);
    text(to, part_of(out, 0, n));
    let _ = print!(to; "{label}\t{n}");
    let less = n.saturating_sub(1);
    let there = cut(less);
    let sum = sum_of(out, n);
    let sum_there = sum_of(out, there);
    let whole = untouched(out, n);
    restore(out, n);
    let exact = is_kept(to, &put, out, n, n, sum);
    let short = is_kept(to, &put, out, less, there, sum_there);
    let verdict = if whole && exact && short {
        "kept"
    } else {
        "changed"
    };
    let _ = println!(to; "\t{verdict}");
}

// Where a byte is lacking, nothing is put of an output, and of a message what there is room for.
pub(crate) fn case(to: Stdout, name: &[u8], input: &[u8], out: &mut [u8]) {
    write(to, name);
    write(to, b"\n");
    shown(to, "output", |out| answer_input(input, out), |_| 0, out);
    shown(
        to,
        "message",
        |out| input_message(input, out),
        |room| room,
        out,
    );
    write(to, b"\n");
}
