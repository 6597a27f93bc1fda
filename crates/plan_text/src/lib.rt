// The plan text as values: a record of it, and what reading it answers. What a text means is defined in specs/, and nothing
// runs here.
#![tactic(auto)]

use model::Plan;
use plan_bytes::Frame;

// Where the line that begins at an offset of a text ends, where the next begins, whether it has its LF, and whether the text was at
// its end, so that there is none. A flag: `span_from` (specs/LineReading) says the rest of any offset.
#[derive(Clone, Copy)]
pub struct LineSpan {
    pub end: usize,
    pub next: usize,
    pub ended: bool,
    pub over: bool,
}

// A record: the section of its letter, 1 to 7 in the order C, R, T, S, B, A, K, and its numbers in the order of the fields, 0
// where it has no such field. Section 0 is no record: a skipped line. A number, since records are sorted by it, and the theorems of canonical texts speak of it so.
#[derive(Clone, Copy)]
pub struct Record {
    pub section: u32,
    pub first: u32,
    pub second: u32,
    pub third: u32,
    pub fourth: u32,
}

// The fields of a line, read as numbers: how many there are, 5 where one is no number or there is a fifth (`fields_read`), and their numbers. An array with a count, as nothing is
// allocated here.
#[derive(Clone, Copy)]
pub struct Fields {
    pub count: usize,
    pub numbers: [u32; 4],
}

// What a plan text is answered; its numbers are `text_number` of specs/TextQuestions, and its theorems and the published list speak of `Accepted` as of the others.
#[derive(Clone, Copy)]
pub enum TextAnswer {
    Accepted,
    TooLong,
    BadLine,
    BadLetter,
    BadFields,
    OutOfRange,
    Repeated,
    Incomplete,
}

// The answer with the line that decides it, counted from 1, where that line stands in the text, from its first byte up to but not
// including its LF, and the plan; the empty plan where the text is refused. It is the meaning, and no code makes one. No `Result`:
// a refused text yields the empty plan, which is demand 1.
#[derive(Clone, Copy)]
pub struct Reading {
    pub answer: TextAnswer,
    pub line: u32,
    pub from: usize,
    pub to: usize,
    pub plan: Plan,
}

// The same as it runs: the plan by its frame and the bytes of its stages, which are zeros where the text is refused.
#[derive(Clone, Copy)]
pub struct FramedReading {
    pub answer: TextAnswer,
    pub line: u32,
    pub from: usize,
    pub to: usize,
    pub frame: Frame,
    pub stages: [u8; 8192],
}

// The published numbers of refusals, as code says them.
pub const TOO_LONG: u32 = 1;

pub const BAD_LINE: u32 = 2;

pub const BAD_LETTER: u32 = 3;

pub const BAD_FIELDS: u32 = 4;

pub const OUT_OF_RANGE: u32 = 5;

pub const REPEATED: u32 = 6;

pub const INCOMPLETE: u32 = 7;
