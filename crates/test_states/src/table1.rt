// Table 1 of source document 003.
ghost use Rattle.std.specs.Prelude.{◌<◌, IfSome};

// The markings of the states 0 to 46, in the paper's order: a number whose decimal digits are the jobs per stage, type 1 then
// type 2.
pub(crate) const TABLE_1: [u64; 47] = [
    000000, 100000, 000100, 010000, 100100, 000010, 110000, 001000, 010100, 100010, 000110, 000001,
    020000, 101000, 110100, 010010, 100110, 000020, 000101, 120000, 011000, 020100, 110010, 001010,
    010110, 010001, 100020, 000120, 000011, 111000, 120100, 101010, 110110, 001001, 010101, 100120,
    000111, 021000, 011010, 010011, 000021, 121000, 111010, 011001, 001011, 010111, 000121,
];

// The number of the state with this marking, if the table has it.
pub(crate) fn number_of(marking: u64) -> Option<usize>
    ensures { IfSome result (λ n. n < 47) }
{
    TABLE_1.iter().position(|m| *m == marking)
}
