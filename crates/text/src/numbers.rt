// "a number outside code: its form, its range"
ghost use Rattle.std.specs.Prelude.{◌≡◌};
ghost use Rattle.terms.specs.Vocabulary.Answers as Answers;
ghost use Rattle.text.specs.Vocabulary.KeyLines as KeyLines;

use terms::{Parsed, leaves};

// A decimal from its lowest to its highest, with an LF behind it.
#[tactic(auto, using(crate::proofs::NumberLines::fed_below, crate::proofs::NumberLines::fed_none, crate::proofs::NumberLines::fed_unfed, terms::proofs::Answers::parsed_bad, terms::proofs::Answers::parsed_got), unfolding(terms::specs::Vocabulary::Answers::as_result))]
pub fn fed_number(text: &[u8], at: usize, lowest: u32, highest: u32) -> Parsed<u32>
    ensures { result ≡ Answers.as_result (KeyLines.fed_number lowest highest text.now at) }
{
    let (end, n) = leaves::decimal(highest, text, at)?;
    if leaves::byte_at(text, end) != b'\n' || n < lowest {
        return Err(end);
    }
    Ok((end, n))
}
