// The numbers of a line, each after a tab.

// The first four; one that is missing is 0.
pub(crate) type Numbers = [u32; 4];

// One digit more; what does not fit is the largest number. A byte that is no digit counts as its last four bits.
fn with_digit(x: u32, digit: u8) -> u32 {
    if x < u32::MAX / 10 {
        x * 10 + u32::from(digit % 16)
    } else {
        u32::MAX
    }
}

pub(crate) fn numbers_of(line: &[u8]) -> Numbers {
    let mut numbers = [0; 4];
    for (number, field) in numbers.iter_mut().zip(line.split(|b| *b == b'\t').skip(1)) {
        *number = field.iter().fold(0, |x, digit| with_digit(x, *digit));
    }
    numbers
}
