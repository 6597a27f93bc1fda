// The lines of a text, found in this crate alone: where the line that begins at an offset ends, a part of a text, and the line reader.
#![tactic(auto)]

ghost use Rattle.std.specs.Prelude.{◌≡◌};
ghost use Rattle.plan_text.specs.LineReading.{span_from};
ghost use Rattle.plan_text.specs.TextParts.{IsPart};
ghost use Rattle.read_lines.specs.LineReads.{at_start, Reads, lines_at_most};

use byte_slices::find;
use plan_text::LineSpan;

// Where the line ends that begins at an offset: at its LF or, without one, at the end of the text; past the end at the offset itself.
pub fn line_end(text: &[u8], at: usize) -> usize
    ensures { result ≡ (span_from text.now at).end }
{
    find(text, at, text.len(), b'\n')
}

// All that is to be known of that line. It says `over` for an Option, as the definition `span_from` does, which says where the reading stands
// past the end too.
pub fn line_at(text: &[u8], at: usize) -> LineSpan
    ensures { result ≡ span_from text.now at }
{
    let end = line_end(text, at);
    let ended = end < text.len();
    let next = if ended { end + 1 } else { end };
    LineSpan {
        end,
        next,
        ended,
        over: text.len() <= at,
    }
}

// A part of the text, from one offset up to another; what lies beyond the text is left out.
pub fn part_of(text: &[u8], from: usize, to: usize) -> &[u8]
    ensures { IsPart text.entry from to result }
{
    let end = to.min(text.len());
    let start = from.min(end);
    &text[start..end]
}

// The line reader: it keeps a reference to a text and its position in it.
#[derive(Clone, Copy)]
pub struct LineReader<'a> {
    pub text: &'a [u8],
    pub at: usize,
}

// A line without its LF, as a part of the text, and whether it had one.
#[derive(Clone, Copy)]
pub struct TextLine<'a> {
    pub bytes: &'a [u8],
    pub ended: bool,
}

impl<'a> LineReader<'a> {
    pub fn new(text: &'a [u8]) -> LineReader<'a>
        ensures { result ≡ at_start text.entry }
    {
        LineReader { text, at: 0 }
    }
}

// The lines in turn. At the end of the text there is none, and the reader stays there.
impl<'a> Iterator for LineReader<'a> {
    type Item = TextLine<'a>;

    ghost next_gives = { Reads };

    ghost remaining = { lines_at_most };

    fn next(&mut self) -> Option<TextLine<'a>> {
        let text = self.text;
        let at = self.at;
        let span = line_at(text, at);
        if span.over {
            return None;
        }
        self.at = span.next;
        Some(TextLine {
            bytes: &text[at..span.end],
            ended: span.ended,
        })
    }
}
