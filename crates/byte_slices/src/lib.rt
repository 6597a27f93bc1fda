// Bytes copied into a slice, and the first place of a byte in a part of one.
#![tactic(auto)]

ghost use Rattle.std.specs.Prelude.{◌≡◌, ◌+◌, ◌≤◌, ◌++◌, length, take, drop};
ghost use Rattle.byte_slices.specs.Bytes.{slice, index_of};

// Into the front of a slice, as many as it has room for; what lies behind stays.
pub fn copy(from: &[u8], to: &mut [u8])
    ensures front { to.new ≡ take (length to.old) from.now ++ drop (length from.now) to.old }
    ensures whole { length from.now ≤ length to.old → to.new ≡ from.now ++ drop (length from.now) to.old }
{
    let n = from.len().min(to.len());
    to[..n].copy_from_slice(&from[..n]);
}

// Where a byte stands first; the length where it stands nowhere.
fn index_of(bytes: &[u8], byte: u8) -> usize
    ensures first { result ≡ index_of byte bytes.now }
    ensures within { result ≤ length bytes.now }
{
    bytes.iter().position(|b| *b == byte).unwrap_or(bytes.len())
}

// Where a byte stands first from one offset on and below another, as far as there are bytes; where it stands nowhere there, the end of what was searched.
#[tactic(auto, using(crate::proofs::Search::index_past, crate::proofs::Search::index_within))]
pub fn find(bytes: &[u8], from: usize, to: usize, byte: u8) -> usize
    ensures first { result ≡ from + index_of byte (slice from to bytes.now) }
    ensures within { from ≤ to → result ≤ to }
{
    let end = to.min(bytes.len());
    if end <= from {
        return from;
    }
    from + index_of(&bytes[from..end], byte)
}
