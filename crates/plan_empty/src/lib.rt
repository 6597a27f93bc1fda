// The frame of the empty plan, from which a plan is filled in.
#![tactic(auto)]

ghost use Rattle.std.specs.Prelude.{◌≡◌};
ghost use Rattle.plan_bytes.specs.Over.{empty_frame};

use plan_bytes::Frame;

// The frame with nothing in it; no plan of it is sound.
#[tactic(auto, unfolding(plan_bytes::specs::Over::empty_frame))]
pub fn empty_frame() -> Frame
    ensures { result ≡ empty_frame }
{
    Frame {
        resources: 0,
        types: 0,
        rows: 0,
        capacity: [0; 32],
        rank: [0; 32],
        bound: [0; 32],
        lengths: [0; 16],
    }
}
