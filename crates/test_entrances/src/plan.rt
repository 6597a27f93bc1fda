// Plans set value by value, without asking anything. Numbers count from 1, as in document 01, and stages all types together.
use crate::line::Numbers;
use plan_bytes::{Frame, LentPlan};
use plan_empty::empty_frame;

// A plan by its frame and the bytes of its stages.
#[derive(Clone, Copy)]
pub(crate) struct Plan {
    pub frame: Frame,
    pub stages: [u8; 8192],
}

fn set_in_frame(frame: &mut Frame, letter: u8, numbers: Numbers) {
    let [x, y, z, _] = numbers;
    let i = (x as usize + 31) % 32;
    let v = (y % 256) as u8;
    match letter {
        b'C' => {
            frame.resources = (x % 256) as u8;
            frame.types = v;
            frame.rows = (z % 256) as u8;
        }
        b'R' => frame.capacity[i] = v,
        b'K' => frame.rank[i] = v,
        b'T' => frame.lengths[i % 16] = v,
        b'B' => frame.bound[i] = (y % 65536) as u16,
        _ => {}
    }
}

impl Plan {
    pub(crate) fn empty() -> Plan {
        Plan {
            frame: empty_frame(),
            stages: [0; 8192],
        }
    }

    pub(crate) fn lent(&self) -> LentPlan<'_> {
        LentPlan {
            frame: &self.frame,
            stages: &self.stages,
        }
    }

    // An entry of a stage: the demands, then the weights.
    fn set_entry(&mut self, stage: u32, entry: usize, x: u32) {
        let offset = (stage as usize + 127) % 128 * 64 + entry % 64;
        self.stages[offset] = (x % 256) as u8;
    }

    fn set_demand(&mut self, stage: u32, resource: u32, x: u32) {
        self.set_entry(stage, (resource as usize + 31) % 32, x);
    }

    fn set_weight(&mut self, stage: u32, row: u32, x: u32) {
        self.set_entry(stage, (row as usize + 31) % 32 + 32, x);
    }

    // The first n stages, at most 128, like the first.
    fn repeat_first(&mut self, n: u32) {
        for stage in 1..(n % 129) as usize {
            self.stages.copy_within(..64, stage * 64);
        }
    }

    // C resources types rows; R resource capacity; T type stages; S stage resource units; B row bound; A row stage weight;
    // K resource rank; X stages.
    pub(crate) fn set(&mut self, letter: u8, numbers: Numbers) {
        let [x, y, z, _] = numbers;
        match letter {
            b'S' => self.set_demand(x, y, z),
            b'A' => self.set_weight(y, x, z),
            b'E' => *self = Plan::empty(),
            b'X' => self.repeat_first(x),
            _ => set_in_frame(&mut self.frame, letter, numbers),
        }
    }
}
