// The records of a list's entries, put into a sink: those of R, T and K, of S at one stage, of A in one row for one type, and of B.
#![tactic(auto)]

ghost use Rattle.std.specs.Prelude.{◌≡◌, ◌*◌, ◌≤◌, length};
ghost use Rattle.canonical_text.specs.CanonicalText.{valued, entry_records, bound_records, text_of};
ghost use Rattle.canonical_text.specs.WriterInternals.{entry_of};
ghost use Rattle.write_lines.specs.Sink.{with_text};

use plan_entry::{bound_of, entry_of};
use plan_text::Record;
use write_lines::Sink;
use write_record::put_record;

// The record of an entry, like another.
fn entry_record(like: Record, number: u32, value: u32) -> Record
    ensures { result ≡ entry_of like number value }
{
    match like.section {
        4 | 6 => Record {
            third: number,
            fourth: value,
            ..like
        },
        section => Record {
            section,
            first: number,
            second: value,
            third: 0,
            fourth: 0,
        },
    }
}

// No record where the value is 0.
#[tactic(auto, using(write_lines::proofs::Sinks::nothing_put, write_record::proofs::RecordsPut::one_record))]
pub fn put_valued(like: Record, number: u32, value: u32, out: &mut Sink<'_>)
    ensures value { out.new ≡ with_text (text_of (valued value (entry_of like number))) out.old }
    ensures upper_bound { length (text_of (valued value (entry_of like number))) ≤ 46 }
{
    if value != 0 {
        put_record(entry_record(like, number, value), out);
    }
}

// The records of the first entries, like another; beyond the last there are only zeros.
#[tactic(auto, using(write_lines::proofs::Sinks::nothing_put))]
pub fn put_entries(like: Record, xs: &[u8], count: u32, out: &mut Sink<'_>)
    ensures value { out.new ≡ with_text (text_of (entry_records (entry_of like) count xs.now)) out.old }
    ensures upper_bound { length (text_of (entry_records (entry_of like) count xs.now)) ≤ 46 * count }
{
    for i in 0..count {
        let number = i + 1;
        put_valued(like, number, entry_of(xs, number), out);
    }
}

// The B records of the first rows: each has its bound, of 0 too.
#[tactic(auto, using(write_lines::proofs::Sinks::nothing_put))]
pub fn put_bounds(bounds: &[u16], rows: u32, out: &mut Sink<'_>)
    ensures value { out.new ≡ with_text (text_of (bound_records rows bounds.now)) out.old }
    ensures upper_bound { length (text_of (bound_records rows bounds.now)) ≤ 46 * rows }
{
    for i in 0..rows {
        let row = i + 1;
        let rec = Record {
            section: 5,
            first: row,
            second: bound_of(bounds, row),
            third: 0,
            fourth: 0,
        };
        put_record(rec, out);
    }
}
