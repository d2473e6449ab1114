// "Stages: 1 invoked, 2 queued, 3 bound (or suspended), 4 running, 5 answered, 6 reply in, 7 taken."
ghost use Rattle.std.specs.Prelude.{◌≡◌};
ghost use Rattle.layout.specs.Stages as Stages;

use crate::Label;

// Numbers and no enum: `in_stage`, `in_stages` and `to_stage` are public, promise something of every `u8`, and may not take a narrower type.
pub const INVOKED: u8 = 1;

pub const QUEUED: u8 = 2;

pub const BOUND: u8 = 3;

pub const RUNNING: u8 = 4;

pub const ANSWERED: u8 = 5;

pub const REPLIED: u8 = 6;

pub const TAKEN: u8 = 7;

// A call in a stage.
#[tactic(auto, using(whole::proofs::Ranges::handed), unfolding(crate::specs::Stages::in_stage, crate::specs::Stages::stage_of))]
pub fn in_stage(cells: &[i32], l: Label, stage: u8) -> bool
    ensures { result ≡ Stages.in_stage cells.now l.0 stage }
{
    whole::is_number(crate::of_call(cells, l, crate::STAGE), u32::from(stage))
}

// A call in one of several stages, from a first to a last.
#[tactic(auto, using(whole::proofs::Ranges::handed), unfolding(crate::specs::Stages::in_stages, crate::specs::Stages::stage_of))]
pub fn in_stages(cells: &[i32], l: Label, first: u8, last: u8) -> bool
    ensures { result ≡ Stages.in_stages cells.now l.0 first last }
{
    whole::between(
        i32::from(first),
        i32::from(last),
        crate::of_call(cells, l, crate::STAGE),
    )
}
