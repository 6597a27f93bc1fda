// What is asked of the entrances, and of the row test beneath them, and written, each number after a tab.
use crate::Cell;
use crate::dotted::write_dotted;
use crate::line::Numbers;
use crate::table::{first_stage, jobs, load_many, same};
use admission::Outcome;
use internals::LentJobs;
use plan_numbers::{check_first, check_number, check_second, write_number};
use plan_soundness::is_sound;
use plan_upstream::upstream_check;
use std::io::Stdout;
use table_jobs::laid;
use table_numbers::{answer_number, answer_place, end_number};
use table_sums::{sums_of, worst_row};

// What follows the letter.
fn text(to: Stdout, line: &[u8]) {
    if let [_, rest @ ..] = line {
        let _ = to.write_all(rest);
    }
}

impl Cell {
    // The stage of the earliest loaded job.
    fn stage(&self, to: Stdout) {
        let _ = print!(to; "\t{}", first_stage(&self.table));
    }

    fn outcome(&self, letter: u8, job: u32, kind: u32) -> Outcome {
        match letter {
            b'l' => self.table.load(self.plan.lent(), job, kind),
            b'a' => self.table.advance(self.plan.lent(), job),
            b'u' => self.table.unload(self.plan.lent(), job),
            _ => self.table.pull(self.plan.lent(), job),
        }
    }

    // An event's answer and place, and the jobs then active.
    fn event(&mut self, to: Stdout, letter: u8, job: u32, kind: u32) {
        let o = self.outcome(letter, job, kind);
        self.table = o.table;
        let _ = print!(to;
            "\t{}\t{}\t{}",
            answer_number(o.answer),
            answer_place(o.answer),
            jobs(&o.table)
        );
    }

    // A drain's answer and its moves, and the jobs then active.
    fn drain(&mut self, to: Stdout, budget: u32) {
        let d = self.table.drain(self.plan.lent(), budget);
        self.table = d.table;
        let _ = print!(to; "\t{}\t{}\t{}", end_number(d.end), d.moves, jobs(&d.table));
    }

    // The upstream check's answer and its two places.
    fn check(&self, to: Stdout) {
        let c = upstream_check(self.plan.lent());
        let _ = print!(to;
            "\t{}\t{}\t{}",
            check_number(c),
            check_first(c),
            check_second(c)
        );
    }

    // The row test of the table as it stands.
    fn rows(&self, to: Stdout) {
        let none = [0; 32];
        let list = self.table.list;
        let numbers = laid(list);
        let jobs = LentJobs {
            count: list.count,
            numbers: &numbers,
        };
        let sums = sums_of(self.plan.lent(), jobs);
        let worst = worst_row(&sums.rows, &none, &none, &self.plan.frame.bound);
        let _ = print!(to; "\t{}\t{}", worst.row, worst.excess);
    }

    // The plan written into so many bytes: the answer, the length, and how many bytes of a larger buffer were changed.
    fn written(&self, to: Stdout, room: u32) {
        let s = write_dotted(&self.plan, room as usize);
        let _ = print!(to;
            "\t{}\t{}\t{}",
            write_number(s.writing.answer),
            s.writing.length,
            s.changed
        );
    }

    // Its answer; is its table the one that it was asked of?
    fn is_same_after(&self, to: Stdout, letter: u8, job: u32) -> bool {
        let o = self.outcome(letter, job, 1);
        let _ = print!(to; "\t{}", answer_number(o.answer));
        same(&self.table, &o.table)
    }

    fn is_same_drained(&self, to: Stdout) -> bool {
        let d = self.table.drain(self.plan.lent(), 1);
        let _ = print!(to; "\t{}\t{}", end_number(d.end), d.moves);
        same(&self.table, &d.table)
    }

    // Soundness; the answers of the check, the agreement, a load of job 8, an advance, an unload and a pull of job 7, and a drain,
    // with its moves; and 1 where each of these five handed the same table back.
    fn entrances(&self, to: Stdout) {
        let sound = u8::from(is_sound(self.plan.lent()));
        let check = check_number(upstream_check(self.plan.lent()));
        let agreement = answer_number(self.table.agreement(self.plan.lent()));
        let _ = print!(to; "\t{sound}\t{check}\t{agreement}");
        // each is asked, whatever the one before answered
        let same = self.is_same_after(to, b'l', 8)
            & self.is_same_after(to, b'a', 7)
            & self.is_same_after(to, b'u', 7)
            & self.is_same_after(to, b'x', 7)
            & self.is_same_drained(to);
        let _ = print!(to; "\t{}", u8::from(same));
    }

    // A list of eight events; the jobs left, and the events admitted. Their jobs are x and y in turn, and their types z and w.
    // The line's own letter stands before theirs, and is no event.
    fn list(&mut self, to: Stdout, letters: &[u8], numbers: Numbers) {
        let [x, y, z, w] = numbers;
        let numbers = [y, x, y, x, y, x, y, x, y];
        let kinds = [w, z, w, z, w, z, w, z, w];
        let ran = table_runs::run(self.table, self.plan.lent(), letters, &numbers, &kinds);
        self.table = ran.table;
        let _ = print!(to; "\t{}\t{}", jobs(&ran.table), ran.admitted);
    }

    // l job type; a job; u job; x job; d budget; p bytes; m jobs; r and the letters of events, then two jobs and two types.
    pub(crate) fn ask(&mut self, to: Stdout, letter: u8, line: &[u8], numbers: Numbers) {
        let [x, y, ..] = numbers;
        match letter {
            b'l' | b'a' | b'u' | b'x' => self.event(to, letter, x, y),
            b'd' => self.drain(to, x),
            b'm' => load_many(&mut self.table, &self.plan, x),
            b'q' => self.check(to),
            b'e' => self.entrances(to),
            b'r' => self.list(to, line, numbers),
            b'w' => self.rows(to),
            b'p' => self.written(to, x),
            b'f' => self.stage(to),
            b':' => text(to, line),
            b'=' | b'+' => {
                let _ = println!(to; "");
                text(to, line);
            }
            _ => {}
        }
    }
}
