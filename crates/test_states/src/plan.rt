// The crossing routes with capacities 1, 2, 1 and no rows.
use plan_bytes::Frame;

fn capacity() -> [u8; 32] {
    let mut capacity = [0; 32];
    capacity[..3].copy_from_slice(&[1, 2, 1]);
    capacity
}

fn lengths() -> [u8; 16] {
    let mut lengths = [0; 16];
    lengths[..2].fill(3);
    lengths
}

// Type 1 goes over the resources 1, 2, 3 and type 2 over 3, 2, 1, counted from 0.
const ROUTES: [usize; 6] = [0, 1, 2, 2, 1, 0];

// Each stage demands one unit, at the byte of its resource among its 64.
pub(crate) fn stages() -> [u8; 8192] {
    let mut stages = [0; 8192];
    for (stage, resource) in ROUTES.iter().enumerate() {
        stages[stage * 64 + resource % 32] = 1;
    }
    stages
}

pub(crate) fn frame() -> Frame {
    Frame {
        resources: 3,
        types: 2,
        rows: 0,
        capacity: capacity(),
        rank: [0; 32],
        bound: [0; 32],
        lengths: lengths(),
    }
}
