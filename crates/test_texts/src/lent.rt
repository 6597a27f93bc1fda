// A buffer that is lent to an entrance, and what became of it.

// What each byte of the buffer is before it is lent. No output and no message has it.
pub(crate) const UNTOUCHED: u8 = 255;

// Each byte from an offset on is as it was lent.
pub(crate) fn untouched(out: &[u8], from: usize) -> bool {
    out.iter().skip(from).all(|b| *b == UNTOUCHED)
}

// The first n bytes made what they were.
pub(crate) fn restore(out: &mut [u8], n: usize) {
    let end = n.min(out.len());
    out[..end].fill(UNTOUCHED);
}
