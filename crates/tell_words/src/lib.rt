// What each published number means, in words, put into a sink. They go by the published number, as their definition does: it says that no two
// numbers have the same words.
#![tactic(auto)]

ghost use Rattle.std.specs.Prelude.{◌≡◌, drop};
ghost use Rattle.told_text.specs.Words.{worded, words_in, words_of};
ghost use Rattle.write_lines.specs.Sink.{with_text};

use tell_event_words::put_event_words;
use write_lines::Sink;

// Of what the records of a plan text say, and of a plan that is written.
fn put_record_words(number: u32, out: &mut Sink<'_>)
    ensures { out.new ≡ with_text (words_in (drop 5 worded) number) out.old }
{
    match number {
        5 => out.put(b"a number is out of range, or there are more than 128 stages"),
        6 => out.put(b"a record with this key was there before"),
        7 => out.put(b"a C, R, T, S or B is missing, or K is given for some resources only"),
        9 => out.put(b"fewer bytes are lent than are needed"),
        _ => put_event_words(number, out),
    }
}

// Of every number; none of one that is not published.
#[tactic(auto, unfolding(told_text::specs::Words::words_of))]
pub fn put_words(number: u32, out: &mut Sink<'_>)
    ensures { out.new ≡ with_text (words_of number) out.old }
{
    match number {
        0 => out.put(b"yes"),
        1 => out.put(b"the input has more than 65536 bytes"),
        2 => out.put(b"it does not end with LF, or holds a byte other than a tab and 32 to 126"),
        3 => out.put(
            b"its letter is not in the list, not C in the first record, or of an earlier section",
        ),
        4 => out.put(b"it has not the right count of fields, each 1 to 5 digits"),
        _ => put_record_words(number, out),
    }
}
