// The ranges of a record's numbers: one table of the seven sections, and the test that reads it.
#![tactic(auto)]

ghost use Rattle.std.specs.Prelude.{◌≡◌, length, map};
ghost use Rattle.plan_text.specs.Records.{layout_of};
ghost use Rattle.plan_text.specs.RecordTests.{lowest_in, highest_in, in_ranges};
ghost use Rattle.read_ranges.specs.Table.{field_said, known_in};

use plan_bytes::Frame;
use plan_entry::entry_of;
use plan_text::Record;

// What a field's number is: one of a fixed range; the number of a resource, a type or a row of the plan, or of a stage of the type in the
// field before; or units of the resource in the field before. All but the fixed range are counted from 1.
#[derive(Clone, Copy)]
pub enum Field {
    Between(u32, u32),
    Resource,
    Kind,
    Row,
    Stage,
    Units,
}

// The fields of each record: one table of the seven sections.
const LAYOUTS: [&[Field]; 7] = [
    &[
        Field::Between(1, 32),
        Field::Between(1, 16),
        Field::Between(0, 32),
    ], // C
    &[Field::Resource, Field::Between(1, 255)], // R
    &[Field::Kind, Field::Between(1, 32)], // T
    &[Field::Kind, Field::Stage, Field::Resource, Field::Units], // S
    &[Field::Row, Field::Between(0, 65535)], // B
    &[
        Field::Row,
        Field::Kind,
        Field::Stage,
        Field::Between(1, 255),
    ], // A
    &[Field::Resource, Field::Between(1, 255)], // K
];

// The fields of the records of a section; none where there is no such section. A row for each section by its own index: at an index that is not
// known the compiler lays a whole table down anew.
pub fn layout(section: u32) -> &'static [Field]
    ensures { map field_said result.now ≡ layout_of section }
{
    match section {
        1 => LAYOUTS[0],
        2 => LAYOUTS[1],
        3 => LAYOUTS[2],
        4 => LAYOUTS[3],
        5 => LAYOUTS[4],
        6 => LAYOUTS[5],
        7 => LAYOUTS[6],
        _ => &[],
    }
}

// How many fields the records of a section have.
pub fn field_count(section: u32) -> usize
    ensures { result ≡ length (layout_of section) }
{
    layout(section).len()
}

impl Field {
    fn lowest(self) -> u32
        ensures { result ≡ lowest_in (field_said self) }
    {
        match self {
            Field::Between(low, _) => low,
            _ => 1,
        }
    }

    // It goes by the plan so far, and by the number before it.
    fn highest(self, before: u32, frame: &Frame) -> u32
        ensures { result ≡ highest_in (known_in frame.now) before (field_said self) }
    {
        match self {
            Field::Between(_, high) => high,
            Field::Resource => u32::from(frame.resources),
            Field::Kind => u32::from(frame.types),
            Field::Row => u32::from(frame.rows),
            Field::Stage => entry_of(&frame.lengths, before),
            Field::Units => entry_of(&frame.capacity, before),
        }
    }
}

// Are the numbers of a record in the ranges of its fields, after what a plan so far has?
pub fn in_ranges(rec: Record, frame: &Frame) -> bool
    ensures { result ≡ in_ranges (known_in frame.now) rec }
{
    let numbers = [rec.first, rec.second, rec.third, rec.fourth];
    let fields = layout(rec.section);
    let mut before = 0;
    for (i, field) in fields.iter().enumerate() {
        let x = numbers[i];
        if x < field.lowest() || field.highest(before, frame) < x {
            return false;
        }
        before = x;
    }
    true
}
