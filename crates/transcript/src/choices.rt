// "choices from standard input (at most 4,096 bytes), a line each"
ghost use Rattle.std.specs.Prelude.{◌≡◌, ◌+◌, ◌≤◌, length, take, drop};
ghost use Rattle.rules.specs.Kinds as Kinds;
ghost use Rattle.session.specs.Choices as Choices;
ghost use Rattle.transcript.specs.Vocabulary.InputLines as InputLines;
ghost use Rattle.transcript.specs.Vocabulary.KindNames as KindNames;

use rules::{Choice, KINDS, Kind};
use terms::leaves;

// "(at most 4,096 bytes)"
const LONGEST_INPUT: usize = 4096;

// "a number not 1 to 9 digits"
const MOST_DIGITS: usize = 9;

// "A line of another form, or a number not 1 to 9 digits, is kind 0 with number 0."
const NO_CHOICE: Choice = Choice { kind: 0, number: 0 };

// One to nine digits and nothing else, as the number that they write; leading zeros may stand.
#[tactic(auto, using(crate::proofs::DigitsAlone::alone_empty, crate::proofs::DigitsAlone::alone_long, crate::proofs::DigitsAlone::alone_within, crate::proofs::DigitsAlone::digits_ended, crate::proofs::DigitsAlone::digits_other))]
fn digits_alone(s: &[u8]) -> Option<usize>
    ensures { result ≡ Choices.digits_alone s.now }
{
    if s.is_empty() || s.len() > MOST_DIGITS {
        return None;
    }
    let mut n = 0;
    for &b in s {
        n = n * 10 + leaves::digit(b)?;
    }
    Some(n)
}

// The choice of a kind, by what follows its name.
#[tactic(auto, using(crate::proofs::DigitsAlone::alone_below), unfolding(crate::specs::Vocabulary::KindNames::chosen, rules::specs::Kinds::choose, session::specs::Choices::no_choice))]
fn chosen(kind: Kind, digits: &[u8]) -> Choice
    ensures { result ≡ KindNames.chosen kind (Choices.digits_alone digits.now) }
{
    digits_alone(digits).map_or(
        NO_CHOICE,
        |n| Choice {
            kind: i32::from(kind),
            number: n as i32,
        },
    )
}

// A kind's name with its `=`.
#[tactic(auto, unfolding(session::specs::Choices::kind_name))]
fn kind_name(kind: Kind) -> &'static [u8]
    ensures { result.now ≡ Choices.kind_name kind }
{
    match kind {
        Kind::Exec => b"exec=",
        Kind::Arrive => b"arrive=",
        Kind::Bind => b"bind=",
        Kind::Start => b"start=",
        Kind::Deliver => b"deliver=",
    }
}

// The choice of a line: the first kind whose name it begins with.
#[tactic(auto, using(crate::proofs::KindsFound::found, crate::proofs::KindsFound::name_within, crate::proofs::KindsFound::none_left, crate::proofs::KindsFound::not_found, crate::proofs::Storing::take_rest, terms::proofs::Answers::word_bad, terms::proofs::Answers::word_got), unfolding(session::specs::Choices::no_choice))]
pub fn choice_of(line: &[u8]) -> Choice
    ensures { result ≡ Choices.choice_of Kinds.kinds line.now }
{
    for kind in KINDS {
        if let Ok(at) = leaves::word(kind_name(kind), line, 0) {
            return chosen(kind, &line[at..]);
        }
    }
    NO_CHOICE
}

// Where the line that begins at a place ends: at its LF, or with the input.
pub fn line_end(input: &[u8], at: usize) -> usize
    requires { at ≤ length input.now }
    ensures { result ≡ at + InputLines.line_length (drop at input.now) }
{
    let rest = &input[at..];
    at + rest.iter().position(|&b| b == b'\n').unwrap_or(rest.len())
}

// "Input past 4,096 bytes is not read": the part that is.
#[tactic(auto, using(std::proofs::lemmas::List::take_min))]
pub fn part_read(input: &[u8]) -> &[u8]
    ensures { result.now ≡ take Choices.longest_input input.now }
{
    &input[..LONGEST_INPUT.min(input.len())]
}
