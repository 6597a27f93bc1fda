// What is said of a slip, put into a sink.
#![tactic(auto)]

ghost use Rattle.std.specs.Prelude.{◌≡◌};
ghost use Rattle.told_text.specs.Slips.{slip_words};
ghost use Rattle.write_lines.specs.Sink.{with_text};

use told_text::Slip;
use write_lines::Sink;

#[tactic(auto, using(write_lines::proofs::Sinks::nothing_put))]
pub fn put_slip(slip: Option<Slip>, out: &mut Sink<'_>)
    ensures { out.new ≡ with_text (slip_words slip) out.old }
{
    match slip {
        None => {}
        Some(Slip::CarriageReturn) => out.put(b" (here a CR before the LF)"),
        Some(Slip::BeyondAscii) => out.put(b" (here a byte beyond ASCII)"),
        Some(Slip::Spaces) => out.put(b" (here spaces where tabs should be)"),
        Some(Slip::UnknownLetter) => out.put(b" (here an unknown letter)"),
        Some(Slip::FieldTooMany) => out.put(b" (here a field too many)"),
        Some(Slip::LongLine) => out.put(b" (here more than 64 bytes)"),
        Some(Slip::NoLineEnd) => out.put(b" (here no LF)"),
    }
}
