// Where the stages of a type stand in a plan, by the stages of each type, and what a stage demands and weighs, by its index. Any type,
// stage, index and bytes may be asked.
#![tactic(auto)]

ghost use Rattle.std.specs.Prelude.{◌≡◌, ◌+◌, ◌-◌, ◌*◌, ◌≤◌, ◌&&◌, cond, eqb, ltb, length, replicate};
ghost use Rattle.model.specs.Numbers.{at, sum_to};
ghost use Rattle.plan_bytes.specs.Over.{bytes_from, stage_at};
ghost use Rattle.internals.specs.Internals.{stage_index};

// The index of no stage, beyond the last. A number and no Option: a stage's successor has an index too, and may be beyond the last.
pub const NO_STAGE: usize = 128;

// The stages of a type; 0 where there is no such type, since `at` is what the questions read.
pub fn length_of(lengths: &[u8; 16], kind: u32) -> u32
    ensures { result ≡ at lengths.now kind }
{
    if !(1..=16).contains(&kind) {
        return 0;
    }
    u32::from(lengths[(kind - 1) as usize])
}

// The stages of the types before a type.
#[tactic(auto, using(internals::proofs::FixedWidth::sum_beyond))]
fn stages_before(lengths: &[u8; 16], kind: u32) -> usize
    ensures sum { result ≡ sum_to (kind - 1) (at lengths.now) }
    ensures small { result ≤ 16 * 255 }
{
    let n = (kind.saturating_sub(1) as usize).min(lengths.len());
    let mut sum = 0;
    for i in 0..n {
        sum += usize::from(lengths[i]);
    }
    sum
}

// Where a stage of a type stands among all stages, counted from 0.
#[tactic(auto, unfolding(internals::specs::Internals::stage_index))]
pub fn stage_index(lengths: &[u8; 16], kind: u32, stage: u32) -> usize
    ensures { result ≡ stage_index lengths.now kind stage }
{
    stages_before(lengths, kind) + stage.saturating_sub(1) as usize
}

// 32 bytes of the stage at an index, from an offset in it on; zeros where there is no stage. A copy: the loops over it are vectorised, those
// over lent bytes are not.
#[tactic(auto, using(plan_bytes::proofs::Laid::part_lent))]
fn part_at(stages: &[u8], index: usize, offset: usize) -> [u8; 32]
    requires { offset ≤ 32 }
    ensures { result ≡ cond (eqb (length stages.now) 8192 && ltb index 128) (bytes_from (index * 64 + offset) 32 stages.now) (replicate 32 0) }
{
    let mut part = [0; 32];
    if stages.len() == 8192 && index < NO_STAGE {
        let from = index * 64 + offset;
        let end = from + 32;
        part.copy_from_slice(&stages[from..end]);
    }
    part
}

// What the stage at an index demands of each resource; nothing where there is none.
#[tactic(auto, using(crate::proofs::Parts::demand_part))]
pub fn demands_at(stages: &[u8], index: usize) -> [u8; 32]
    ensures { result ≡ (stage_at stages.now index).demand }
{
    part_at(stages, index, 0)
}

// What it weighs in each row.
#[tactic(auto, using(crate::proofs::Parts::weight_part))]
pub fn weights_at(stages: &[u8], index: usize) -> [u8; 32]
    ensures { result ≡ (stage_at stages.now index).weight }
{
    part_at(stages, index, 32)
}
