// One step: a chosen rule instance performed, or refused with its number.
#![tactic(auto)]

ghost use Rattle.std.specs.Prelude.{◌≡◌, ok_or, pos};
ghost use Rattle.rules.specs.Kinds.{kind_of, kind_number};
ghost use Rattle.whole.specs.declared.refusals.Refusal.TheVariants.{NotInUse};

use whole::refusals::Refusal;

// "each a kind with its number": exec 1, arrive 2, bind 3, start 4, deliver 5, of an object or of a label. Two numbers, as C lends them: `Kind`
// has the kind of one that is in use.
#[repr(C)]
#[derive(Clone, Copy)]
pub struct Choice {
    pub kind: i32,
    pub number: i32,
}

/// "exec O (kind 1)", "arrive L (2)", "bind L (3)", "start L (4)", "deliver L (5)"
#[derive(Clone, Copy, Debug, PartialEq, Eq)]
pub enum Kind {
    Exec,
    Arrive,
    Bind,
    Start,
    Deliver,
}

/// The kinds in document 01's order: "exec 1.., arrive 1.., bind 1.., start 1.., deliver 1..."
pub const KINDS: [Kind; 5] = [
    Kind::Exec,
    Kind::Arrive,
    Kind::Bind,
    Kind::Start,
    Kind::Deliver,
];

// A kind by its number; what is no kind's is refused with 12.
impl TryFrom<i32> for Kind {
    type Error = Refusal;

    ghost try_from_gives = { λ z r. r ≡ ok_or (kind_of z) NotInUse };

    #[tactic(auto, unfolding(crate::specs::Kinds::kind_of))]
    fn try_from(number: i32) -> Result<Kind, Refusal> {
        match number {
            1 => Ok(Kind::Exec),
            2 => Ok(Kind::Arrive),
            3 => Ok(Kind::Bind),
            4 => Ok(Kind::Start),
            5 => Ok(Kind::Deliver),
            _ => Err(Refusal::NotInUse),
        }
    }
}

// The number of a kind.
impl From<Kind> for i32 {
    ghost from_gives = { λ kind z. z ≡ pos (kind_number kind) };

    #[tactic(auto, unfolding(crate::specs::Kinds::kind_number))]
    fn from(kind: Kind) -> i32 {
        match kind {
            Kind::Exec => 1,
            Kind::Arrive => 2,
            Kind::Bind => 3,
            Kind::Start => 4,
            Kind::Deliver => 5,
        }
    }
}
