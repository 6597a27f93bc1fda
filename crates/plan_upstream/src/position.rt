// Where an entry of the array of stages belongs.
ghost use Rattle.std.specs.Prelude.{◌≤◌};
ghost use Rattle.plan_upstream.specs.CheckInternals.{Belongs};

// A stage by its type and its number, each counted from 0.
#[derive(Clone, Copy)]
pub(crate) struct Position {
    pub kind: usize,
    pub stage: usize,
}

// The stage at an index; none at or beyond the end of all stages.
pub(crate) fn position_of(index: usize, lengths: &[u8; 16], types: usize) -> Option<Position>
    requires { types ≤ 16 }
    ensures { Belongs lengths.now types index result }
{
    let mut stage = index;
    for kind in 0..types {
        let length = usize::from(lengths[kind]);
        if stage < length {
            return Some(Position { kind, stage });
        }
        stage -= length;
    }
    None
}
