// The least rank of a resource whose stretch goes on past each stage.
ghost use Rattle.plan_upstream.specs.CheckInternals.{Types, Closed};

// The lowest rank that each stage demands, but at a type's last stage a number above every rank: no stretch goes on from there.
pub(crate) fn closed(lowest: [u16; 128], lengths: &[u8; 16], types: usize) -> [u16; 128]
    requires { Types lengths.now types }
    ensures { Closed lengths.now types lowest result }
{
    let mut ranks = lowest;
    let mut index = 0;
    for kind in 0..types {
        index += usize::from(lengths[kind]);
        ranks[index - 1] = 256;
    }
    ranks
}
