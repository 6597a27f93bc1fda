// What the numbers of an event, of the upstream check, of a drain and of a line mean, in words, put into a sink: a few numbers to a function,
// and another number by the next. They go by the published number, as their definition does.
#![tactic(auto)]

ghost use Rattle.std.specs.Prelude.{◌≡◌, drop};
ghost use Rattle.told_text.specs.Words.{event_words, words_in};
ghost use Rattle.write_lines.specs.Sink.{with_text};

use write_lines::Sink;

// Of a drain, and of a malformed line.
#[tactic(auto, using(write_lines::proofs::Sinks::nothing_put))]
fn put_end_words(number: u32, out: &mut Sink<'_>)
    ensures { out.new ≡ with_text (words_in (drop 14 event_words) number) out.old }
{
    match number {
        31 => out.put(b"the budget of moves is spent"),
        32 => out.put(b"no move is admitted"),
        41 => out.put(
            b"an event line is L job type, A job, U job or X job, with tabs, 1 to 5 digits and LF",
        ),
        _ => {}
    }
}

// Of the upstream check.
fn put_check_words(number: u32, out: &mut Sink<'_>)
    ensures { out.new ≡ with_text (words_in (drop 9 event_words) number) out.old }
{
    match number {
        21 => out.put(b"every resource must have a rank"),
        22 => out.put(b"every stage must demand exactly one unit of one resource"),
        23 => out.put(b"there must be as many rows as resources"),
        24 => out.put(
            b"a row must weigh 1 at every stage upstream of its resource, and 0 elsewhere",
        ),
        25 => out.put(b"the bound of a row must be 1 to the capacity of its resource"),
        _ => put_end_words(number, out),
    }
}

// Of what an event would do.
fn put_move_words(number: u32, out: &mut Sink<'_>)
    ensures { out.new ≡ with_text (words_in (drop 4 event_words) number) out.old }
{
    match number {
        15 => out.put(b"the type is not in the plan"),
        16 => out.put(b"64 jobs are active already"),
        17 => out.put(b"an advance needs a next stage, and an unload the last one"),
        18 => out.put(b"a capacity would be exceeded"),
        19 => out.put(b"a row would be broken"),
        _ => put_check_words(number, out),
    }
}

// Of a plan and a table, and of the job that an event names; none of a number that is not in this part of the list.
pub fn put_event_words(number: u32, out: &mut Sink<'_>)
    ensures { out.new ≡ with_text (words_in event_words number) out.old }
{
    match number {
        11 => out.put(b"the plan is not sound: its text was refused"),
        12 => out.put(b"the table does not agree with the plan"),
        13 => out.put(b"a job number is 1 to 65535"),
        14 => out.put(b"the job to load is active already, or the job to move is not active"),
        _ => put_move_words(number, out),
    }
}
