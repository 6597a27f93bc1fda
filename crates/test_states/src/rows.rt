// The rows of Equation 40 of source document 003.
ghost use Rattle.std.specs.Prelude.{◌≤◌, ◌<◌};

use crate::table1::TABLE_1;

// The jobs at the stage that this power of ten stands for.
fn jobs_at(marking: u64, unit: u64) -> u64
    requires { 0 < unit }
    ensures { result ≤ 9 }
{
    marking / unit % 10
}

// The jobs at each of the six stages.
pub(crate) fn counts(marking: u64) -> [u64; 6] {
    [
        jobs_at(marking, 100000),
        jobs_at(marking, 10000),
        jobs_at(marking, 1000),
        jobs_at(marking, 100),
        jobs_at(marking, 10),
        jobs_at(marking, 1),
    ]
}

// The sums of the three rows, of weights 1 0 0 0 3 0, 0 1 0 2 0 0 and 2 2 0 2 3 0.
pub(crate) fn sums(marking: u64) -> [u64; 3] {
    let first = jobs_at(marking, 100000);
    let second = jobs_at(marking, 10000);
    let fourth = jobs_at(marking, 100);
    let fifth = jobs_at(marking, 10);
    [
        first + 3 * fifth,
        second + 2 * fourth,
        2 * (first + second + fourth) + 3 * fifth,
    ]
}

// The bounds are 6, 3 and 8.
fn keeps(marking: u64) -> bool {
    let [first, second, third] = sums(marking);
    first <= 6 && second <= 3 && third <= 8
}

// The states of Table 1 that keep the rows.
pub(crate) fn kept() -> u64 {
    let mut set = 0;
    for (i, marking) in TABLE_1.iter().enumerate() {
        if keeps(*marking) {
            set |= 1 << i;
        }
    }
    set
}
