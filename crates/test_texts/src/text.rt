// A text put into a buffer, byte by byte, from its notation. What does not fit begins at the start again.

// More than the longest text that is not refused for its length.
pub(crate) type Buffer = [u8; 65600];

// The buffer, and how many bytes are there; where the notation is read; where the repetition goes on that was begun last, its turn and
// its last turn; and between < and > or between ( and * the number up to here.
#[derive(Drop)]
struct Writer<'a> {
    buffer: &'a mut Buffer,
    n: usize,
    at: usize,
    from: usize,
    turn: u32,
    last: u32,
    number: Option<u32>,
}

fn digit(x: u32) -> u8 {
    b'0' + (x % 10) as u8
}

impl Writer<'_> {
    fn put(&mut self, b: u8) {
        let i = self.n % 65600;
        self.buffer[i] = b;
        self.n = i + 1;
    }

    // The turn, in two digits.
    fn put_turn(&mut self) {
        self.put(digit(self.turn / 10));
        self.put(digit(self.turn));
    }

    fn begin_repetition(&mut self, last: u32) {
        self.from = self.at;
        self.turn = 1;
        self.last = last;
    }

    fn end_repetition(&mut self) {
        if self.turn < self.last {
            self.turn += 1;
            self.at = self.from;
        }
    }

    // A byte that is no digit counts as its last four bits.
    fn read_in_number(&mut self, b: u8, number: u32) {
        self.number = None;
        match b {
            b'>' => self.put((number % 256) as u8),
            b'*' => self.begin_repetition(number),
            _ => self.number = Some(number % 100000 * 10 + u32::from(b % 16)),
        }
    }

    fn read_in_text(&mut self, b: u8) {
        match b {
            b' ' => self.put(b'\t'),
            b'/' => self.put(b'\n'),
            b'%' => self.put_turn(),
            b'<' | b'(' => self.number = Some(0),
            b')' => self.end_repetition(),
            _ => self.put(b),
        }
    }

    fn read(&mut self, b: u8) {
        match self.number {
            Some(number) => self.read_in_number(b, number),
            None => self.read_in_text(b),
        }
    }
}

// What the notation says, behind the n bytes that are there; hands back how many are there then. No line that is in use takes a million
// steps.
pub(crate) fn put_text(notation: &[u8], buffer: &mut Buffer, n: usize) -> usize {
    let mut w = Writer {
        buffer,
        n,
        at: 0,
        from: 0,
        turn: 0,
        last: 0,
        number: None,
    };
    for _ in 0..1000000 {
        let Some(&b) = notation.get(w.at) else {
            break;
        };
        w.at += 1;
        w.read(b);
    }
    w.n
}
