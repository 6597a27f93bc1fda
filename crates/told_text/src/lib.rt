// What a person is told, as values: the slip that a refused line shows. What is said of it is defined in specs/, and nothing runs here.
#![tactic(auto)]

// A common slip in a line that is refused for its form.
#[derive(Clone, Copy)]
pub enum Slip {
    CarriageReturn,
    BeyondAscii,
    Spaces,
    UnknownLetter,
    FieldTooMany,
    LongLine,
    NoLineEnd,
}
