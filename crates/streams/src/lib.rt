// What the programs share: a buffer filled from a reader, and bytes written out whole. What a reader has left and what a writer holds are std's words, which
// speak of those that know it, as a slice and a vector do.
#![tactic(auto)]

ghost use Rattle.std.specs.Prelude.{◌≤◌, ◌<◌, length, take, IsNone, OnOk};
ghost use Rattle.std.specs.Io.KnownBytes.{Appends, Consumes, IsAtEnd};

use std::io;
use std::io::{Read, Write};

// How many bytes came, and the failure that kept more from coming, if a read failed.
#[derive(Clone, Copy)]
pub struct Filled {
    pub count: usize,
    pub failure: Option<io::Error>,
}

// Reads until the buffer is full, the input ends or a read fails.
pub fn read_full<R: Read>(from: &mut R, buffer: &mut [u8]) -> Filled
    ensures bound { result.count ≤ length buffer.new }
    ensures bytes { Consumes (R.remaining from.old) (R.remaining from.new) (take result.count buffer.new) }
    ensures whole { IsNone result.failure → result.count < length buffer.new → IsAtEnd (R.remaining from.new) }
{
    let mut count = 0;
    // a `while`, since how many reads it takes is the reader's to say
    while count < buffer.len() {
        match from.read(&mut buffer[count..]) {
            Ok(0) => break,
            Ok(n) => count += n,
            Err(error) => {
                return Filled {
                    count,
                    failure: Some(error),
                };
            }
        }
    }
    Filled {
        count,
        failure: None,
    }
}

// All of the bytes are written, or a write failed. It is std's `write_all`, and stands here for its promise, which docs/PROMISES.md names.
pub fn put<W: Write>(to: &mut W, bytes: &[u8]) -> io::Result<()>
    ensures { OnOk result (Appends (W.contents to.old) (W.contents to.new) bytes.now) }
{
    to.write_all(bytes)
}

#[cfg(test)]
mod tests {
    use super::*;
    use std::io::ErrorKind;

    // Gives `ab` and then fails.
    #[derive(Drop)]
    struct Torn {
        given: bool,
    }

    impl Read for Torn {
        fn read(&mut self, buf: &mut [u8]) -> io::Result<usize> {
            if self.given || buf.len() < 2 {
                return Err(io::Error::from(ErrorKind::Other));
            }
            self.given = true;
            buf[0] = b'a';
            buf[1] = b'b';
            Ok(2)
        }
    }

    #[test]
    fn fills_up_to_the_end(rt: HostRuntime) {
        let mut buffer = [0u8; 8];
        let mut text: &[u8] = b"abc";
        let filled = read_full(&mut text, &mut buffer);
        assert_eq!(rt; filled.count, 3);
        assert!(rt; filled.failure.is_none());
        assert!(rt; &buffer[..4] == b"abc\0".as_slice());
    }

    #[test]
    fn keeps_what_came_before_a_failure(rt: HostRuntime) {
        let mut buffer = [0u8; 8];
        let filled = read_full(&mut Torn { given: false }, &mut buffer);
        assert_eq!(rt; filled.count, 2);
        assert!(rt; filled.failure.is_some());
        assert!(rt; &buffer[..2] == b"ab".as_slice());
    }
}
