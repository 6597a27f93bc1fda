// A checksum: h := (65599 h + x) modulo 999999937, entry by entry.

// The checksum with one entry more.
pub(crate) fn with(h: u64, x: u16) -> u64 {
    (h % 999999937 * 65599 + u64::from(x)) % 999999937
}

// The checksum with bytes more.
pub(crate) fn with_bytes(h: u64, bytes: &[u8]) -> u64 {
    bytes.iter().fold(h, |h, x| with(h, u16::from(*x)))
}

pub(crate) fn of_bytes(bytes: &[u8]) -> u64 {
    with_bytes(0, bytes)
}
