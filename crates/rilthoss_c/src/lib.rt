// The library that a host links, as `host/rilthoss.h` has it: each export is the function of that name in the crate `rilthoss`, with the same
// contract.
#![tactic(auto)]

ghost use Rattle.std.specs.Prelude.{◌≡◌};
ghost use Rattle.moves_text.specs.Output.{output};
ghost use Rattle.moves_text.specs.Buffer.{filled, length_filled};
ghost use Rattle.cell_layout.specs.HostAnswers.{read_answer, read_cell, shown_answer, write_answer, written_buffer, check_answer, event_answer, event_cell, drain_answer, drain_cell};

use events::Event;

#[unsafe(no_mangle)]
pub extern "C" fn rilthoss_load(cell: &mut [u8], job: u32, kind: u32) -> u64
    ensures { (result ≡ event_answer cell.old (Event.Load job kind)) × (cell.new ≡ event_cell cell.old (Event.Load job kind)) }
{
    rilthoss::rilthoss_load(cell, job, kind)
}

#[unsafe(no_mangle)]
pub extern "C" fn rilthoss_advance(cell: &mut [u8], job: u32) -> u64
    ensures { (result ≡ event_answer cell.old (Event.Advance job)) × (cell.new ≡ event_cell cell.old (Event.Advance job)) }
{
    rilthoss::rilthoss_advance(cell, job)
}

#[unsafe(no_mangle)]
pub extern "C" fn rilthoss_unload(cell: &mut [u8], job: u32) -> u64
    ensures { (result ≡ event_answer cell.old (Event.Unload job)) × (cell.new ≡ event_cell cell.old (Event.Unload job)) }
{
    rilthoss::rilthoss_unload(cell, job)
}

#[unsafe(no_mangle)]
pub extern "C" fn rilthoss_pull(cell: &mut [u8], job: u32) -> u64
    ensures { (result ≡ event_answer cell.old (Event.Pull job)) × (cell.new ≡ event_cell cell.old (Event.Pull job)) }
{
    rilthoss::rilthoss_pull(cell, job)
}

#[unsafe(no_mangle)]
pub extern "C" fn rilthoss_drain(cell: &mut [u8], budget: u32) -> u64
    ensures { (result ≡ drain_answer cell.old budget) × (cell.new ≡ drain_cell cell.old budget) }
{
    rilthoss::rilthoss_drain(cell, budget)
}

// The plan of a text in place of the one that was there; a refused text gives the empty plan. The table stays.
#[unsafe(no_mangle)]
pub extern "C" fn rilthoss_read_plan(cell: &mut [u8], text: &[u8]) -> u64
    ensures { (result ≡ read_answer text.now cell.old) × (cell.new ≡ read_cell text.now cell.old) }
{
    rilthoss::rilthoss_read_plan(cell, text)
}

// Where in a text the line that its refusal is about begins and ends.
#[unsafe(no_mangle)]
pub extern "C" fn rilthoss_shown(text: &[u8]) -> u64
    ensures { result ≡ shown_answer text.now }
{
    rilthoss::rilthoss_shown(text)
}

// The canonical text of the plan, written into the buffer; beside the number stands its length.
#[unsafe(no_mangle)]
pub extern "C" fn rilthoss_write_plan<'a>(cell: &'a [u8], buffer: &'a mut [u8]) -> u64
    ensures { (result ≡ write_answer cell.now buffer.old) × (buffer.new ≡ written_buffer cell.now buffer.old) }
{
    rilthoss::rilthoss_write_plan(cell, buffer)
}

// The upstream check of the plan.
#[unsafe(no_mangle)]
pub extern "C" fn rilthoss_check(cell: &[u8]) -> u64
    ensures { result ≡ check_answer cell.now }
{
    rilthoss::rilthoss_check(cell)
}

// The whole run of `cellmoves`: the output then begins with what is printed, and the answer is its length; 0 where it does not fit.
#[unsafe(no_mangle)]
pub extern "C" fn rilthoss_run(input: &[u8], buffer: &mut [u8]) -> usize
    ensures { (result ≡ length_filled (output input.now) buffer.old) × (buffer.new ≡ filled (output input.now) buffer.old) }
{
    rilthoss::rilthoss_run(input, buffer)
}
