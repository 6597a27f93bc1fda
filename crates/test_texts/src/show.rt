// What is written of a plan text, each after a tab: its name, the answer's number, the line, where the line that decides begins and
// ends, the length of the part shown and its first 20 bytes, with a space for a tab and ? for a byte that is not 33 to 126, and
// the plan (plan.rt).
use plan_bytes::LentPlan;
use plan_numbers::text_number;
use read_plan::{read, shown_line};
use std::io::Stdout;

pub(crate) fn write(to: Stdout, s: &[u8]) {
    let _ = to.write_all(s);
}

fn printed(b: u8) -> u8 {
    match b {
        b'\t' => b' ',
        33..=126 => b,
        _ => b'?',
    }
}

fn part(to: Stdout, s: &[u8]) {
    for b in s.iter().take(20) {
        write(to, &[printed(*b)]);
    }
}

pub(crate) fn case(to: Stdout, name: &[u8], text: &[u8]) {
    write(to, name);
    let r = read(text);
    let _ = print!(to;
        "\t{}\t{}\t{}\t{}",
        text_number(r.answer),
        r.line,
        r.from,
        r.to
    );
    let shown = shown_line(text);
    let _ = print!(to; "\t{}\t", shown.len());
    part(to, shown);
    let plan = LentPlan {
        frame: &r.frame,
        stages: &r.stages,
    };
    crate::plan::show(to, plan);
    write(to, b"\n");
}
