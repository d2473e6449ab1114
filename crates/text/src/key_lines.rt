// "Every line is key=value": a line with the expected key, and one with a number. A line that does not stand as it should is told with what
// refuses it unless it is broken; only of the first such line is it then asked whether it is (`fault`, which takes any number: it is public).
ghost use Rattle.std.specs.Prelude.{true, ◌≡◌, ◌≤◌, length};
ghost use Rattle.text.specs.InOrder as InOrder;
ghost use Rattle.text.specs.Lines as Lines;
ghost use Rattle.text.specs.Vocabulary.KeyLines as KeyLines;
ghost use Rattle.text.specs.Vocabulary.Readings as Readings;

use crate::{At, Failed, Verdict, ends, reader};
use terms::leaves;
use whole::refusals::Refusal;

// The line at a place, by its key: where its value begins, and where the LF stands.
#[tactic(auto, using(std::proofs::lemmas::Result::err_from_is_err_and, terms::proofs::Answers::word_bad, terms::proofs::Answers::word_got), unfolding(crate::specs::Vocabulary::KeyLines::KeyTold, whole::specs::Vocabulary::Refusing::number_of))]
pub fn key_line(text: &[u8], place: usize, key: &[u8]) -> Result<(usize, usize), Refusal>
    requires { place ≤ length text.now }
    ensures { KeyLines.KeyTold key.now text.now place result }
{
    let value = leaves::word(key, text, place).map_err(|_| Refusal::WrongKey)?;
    let end = reader::line_at(text, place).ok_or(Refusal::BrokenLine)?;
    Ok((value, end))
}

// A line with a number from its lowest to its highest: the number, and where the next line begins. A text and a place in it stay two parameters
// with a clause (`Placed`), here and in `model`: of a struct of both each result would have to say that its text is the same.
#[tactic(auto, using(std::proofs::lemmas::Result::err_from_is_err_and, crate::proofs::KeyLines::key_missed, crate::proofs::NumberLines::no_number, crate::proofs::NumberLines::number_behind, crate::proofs::NumberLines::number_far, crate::proofs::NumberLines::number_read, terms::proofs::Answers::parsed_bad, terms::proofs::Answers::parsed_got, terms::proofs::Answers::word_bad, terms::proofs::Answers::word_got), unfolding(crate::specs::InOrder::number_line, crate::specs::Vocabulary::Readings::Tells, whole::specs::Vocabulary::Refusing::number_of))]
pub fn number_line(
    text: &[u8],
    at: At,
    key: &[u8],
    lowest: u32,
    highest: u32,
) -> Result<(u32, At), Failed>
    requires placed { Readings.Placed text.now at }
    requires plain_key { Lines.plain_bytes key.now ≡ true }
    ensures { Readings.Tells text.now (Readings.InRange lowest highest) result (Readings.read_at (InOrder.number_line key.now lowest highest) text.now at) }
{
    let At { place, line } = at;
    let refused = |refusal: Refusal| Failed { refusal, at };
    let value = leaves::word(key, text, place).map_err(|_| refused(Refusal::WrongKey))?;
    let number = reader::number_at(text, value, lowest, highest);
    let (end, n) = number.map_err(|_| refused(Refusal::WrongNumber))?;
    if end > place + ends::LONGEST_LINE {
        return Err(refused(Refusal::WrongNumber));
    }
    let next = At {
        place: end + 1,
        line: line + 1,
    };
    Ok((n, next))
}

// The verdict on a line that a number refuses unless it is broken: "the lowest number that applies there". "a text ended early names the line
// after its last"
#[tactic(auto, using(crate::proofs::KeyLines::fault_broken, crate::proofs::KeyLines::fault_ended, crate::proofs::SoundEnds::broken_found), unfolding(whole::specs::Vocabulary::Refusing::number_of))]
pub fn fault(text: &[u8], number: u32, at: At) -> Verdict
    ensures { result ≡ Readings.fault text.now number at }
{
    let At { place, line } = at;
    if place >= text.len() {
        return Verdict {
            number: Refusal::WrongKey.number(),
            line,
        };
    }
    match reader::line_at(text, place) {
        None => Verdict {
            number: Refusal::BrokenLine.number(),
            line,
        },
        Some(_) => Verdict { number, line },
    }
}
