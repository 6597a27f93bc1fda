// Tables set job by job, without asking an event.
use crate::line::Numbers;
use crate::plan::Plan;
use admission::Table;
use model::Job;

// Of the earliest loaded job.
pub(crate) fn first_stage(t: &Table) -> u32 {
    t.list.jobs[0].stage
}

pub(crate) fn jobs(t: &Table) -> usize {
    t.list.count
}

// The largest number of a line stands for the largest count.
fn count_of(n: u32) -> usize {
    if n < u32::MAX { n as usize } else { usize::MAX }
}

// J slot number type stage; N jobs. The slot counts from 1; the count of jobs stays.
pub(crate) fn set(t: &mut Table, letter: u8, numbers: Numbers) {
    let [x, y, z, w] = numbers;
    match letter {
        b'E' => *t = Table::empty(),
        b'N' => t.list.count = count_of(x),
        b'J' => {
            t.list.jobs[(x as usize + 63) % 64] = Job {
                number: y,
                kind: z,
                stage: w,
            };
        }
        _ => {}
    }
}

// The jobs 1 to n, at most 64, of type 1, loaded in turn.
pub(crate) fn load_many(t: &mut Table, p: &Plan, n: u32) {
    for job in 1..=n % 65 {
        *t = t.load(p.lent(), job, 1).table;
    }
}

// A job has no `==`: a derived one would be a function of `model`, and the crates of definitions have none, so that they are quick to check.
fn fields(j: &Job) -> [u32; 3] {
    [j.number, j.kind, j.stage]
}

// Are they the same in every slot, those beyond the count too?
pub(crate) fn same(a: &Table, b: &Table) -> bool {
    let mut slots = a.list.jobs.iter().zip(&b.list.jobs);
    a.list.count == b.list.count && slots.all(|(a, b)| fields(a) == fields(b))
}
