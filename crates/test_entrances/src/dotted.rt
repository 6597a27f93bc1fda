// A plan written into the last bytes of a buffer of dots.
use crate::plan::Plan;
use canonical_text::Writing;
use write_plan::write_plan;

#[derive(Clone, Copy)]
pub(crate) struct Dotted {
    pub writing: Writing,
    pub changed: usize,
}

// Into the last bytes of the buffer, as many as there is room for.
fn write_into(p: &Plan, buffer: &mut [u8], room: usize) -> Writing {
    let from = buffer.len() - room.min(buffer.len());
    write_plan(p.lent(), &mut buffer[from..])
}

// The bytes of the buffer that are no dots: as many as were written, since no text has one.
fn changed(buffer: &[u8]) -> usize {
    buffer.iter().filter(|b| **b != b'.').count()
}

pub(crate) fn write_dotted(p: &Plan, room: usize) -> Dotted {
    let mut buffer = [b'.'; 131072];
    let writing = write_into(p, &mut buffer, room);
    Dotted {
        writing,
        changed: changed(&buffer),
    }
}
