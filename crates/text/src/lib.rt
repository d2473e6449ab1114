// The lines of a text: where they end, their keys, their numbers.
#![tactic(auto)]

ghost use Rattle.std.specs.Prelude.{◌≡◌};
ghost use Rattle.whole.specs.Vocabulary.Refusing.{number_of};

pub mod ends;
pub mod key_lines;
pub mod numbers;
pub mod reader;

use whole::refusals;
use whole::refusals::Refusal;

// A number given back, with the line of the text that it names: 0 where it names none.
// Two numbers, and no `Refusal`: this is the answer that document 01 defines and that C packs, and an acceptance is one of them.
#[derive(Clone, Copy, Debug, PartialEq, Eq)]
pub struct Verdict {
    pub number: u32,
    pub line: u32,
}

/// "0 is acceptance", and it names no line.
pub const ACCEPTED: Verdict = Verdict {
    number: refusals::ACCEPTED,
    line: 0,
};

// Where reading stands: the place in the text where a line begins, and its number, "counted from 1".
#[derive(Clone, Copy, Debug, PartialEq, Eq)]
pub struct At {
    pub place: usize,
    pub line: u32,
}

// What refuses a line, unless it is broken, and where the line begins.
#[derive(Clone, Copy, Debug, PartialEq, Eq)]
pub struct Failed {
    pub refusal: Refusal,
    pub at: At,
}

// "an acceptance and every number from 10 on give line 0"
impl From<Refusal> for Verdict {
    ghost from_gives = { λ refusal v. v ≡ record { number = number_of refusal; line = 0 } };

    fn from(refusal: Refusal) -> Verdict {
        Verdict {
            number: refusal.number(),
            line: 0,
        }
    }
}
