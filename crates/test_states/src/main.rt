// The states that the routes of Equation 40 in source document 003 reach from the empty cell without its rows. A line has a
// state's number in Table 1 there, its six counts of jobs, the sums of the three rows, and 1 or 0 for whether all rows are
// kept and whether some order of moves empties it. The last line has totals: the states reached, those that Table 1 lacks,
// those that are blocked, those that can be emptied, and those that can be emptied exactly if they keep the rows.
#![tactic(auto)]

mod emptying;
mod plan;
mod rows;
mod space;
mod table1;

use plan_bytes::LentPlan;
use std::io::Stdout;

fn print_state(to: Stdout, number: usize, marking: u64, kept: bool, emptied: bool) {
    let _ = print!(to; "{number}\t");
    for jobs in rows::counts(marking) {
        let _ = print!(to; "{jobs}\t");
    }
    for sum in rows::sums(marking) {
        let _ = print!(to; "{sum}\t");
    }
    let _ = println!(to; "{}\t{}", u8::from(kept), u8::from(emptied));
}

fn print_states(to: Stdout, found: u64, kept: u64, emptied: u64) {
    for (i, marking) in table1::TABLE_1.iter().enumerate() {
        let state = 1 << i;
        if found & state != 0 {
            print_state(to, i, *marking, kept & state != 0, emptied & state != 0);
        }
    }
}

// How many states each of the sets has.
fn print_totals(to: Stdout, sets: [u64; 5]) {
    let [reached, lacked, blocked, emptied, exact] = sets.map(u64::count_ones);
    let _ = println!(to; "{reached}\t{lacked}\t{blocked}\t{emptied}\t{exact}");
}

fn main(rt: HostRuntime) {
    let to = rt.stdout();
    let frame = plan::frame();
    let stages = plan::stages();
    let plan = LentPlan {
        frame: &frame,
        stages: &stages,
    };
    let s = space::explored(plan);
    let found = s.found;
    let emptied = emptying::emptied(&s, plan);
    let kept = rows::kept() & found;
    let blocked = emptying::blocked(&s, plan);
    print_states(to, found, kept, emptied);
    let _ = println!(to;
        "reached, not in Table 1, blocked, emptied, emptied exactly if the rows are kept"
    );
    print_totals(
        to,
        [found, found >> 47, blocked, emptied, found ^ emptied ^ kept],
    );
}
