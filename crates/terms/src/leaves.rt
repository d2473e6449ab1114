// Bytes, words, decimals and variables.
ghost use Rattle.std.specs.Prelude.{◌≡◌, ◌≤◌, ◌<◌, length};
ghost use Rattle.terms.specs.Vocabulary.Answers as Answers;
ghost use Rattle.terms.specs.Bytes as Bytes;
ghost use Rattle.terms.specs.Leaves as Leaves;
ghost use Rattle.terms.specs.Parsed as Parsed;

use crate::{Limits, Parsed, Variable};

// What stands at a place; past the end 0, which begins and continues nothing.
pub fn byte_at(s: &[u8], at: usize) -> u8
    ensures { result ≡ Bytes.byte_at s.now at }
{
    s.get(at).copied().unwrap_or(0)
}

/// A byte as a digit, if it is one.
#[tactic(auto, unfolding(crate::specs::Bytes::digit))]
pub fn digit(b: u8) -> Option<usize>
    ensures { result ≡ Bytes.digit b }
{
    match b {
        b'0'..=b'9' => Some(usize::from(b - b'0')),
        _ => None,
    }
}

// What stands at a place, as a digit.
fn digit_at(s: &[u8], at: usize) -> Option<usize>
    ensures { result ≡ Bytes.digit (Bytes.byte_at s.now at) }
{
    digit(byte_at(s, at))
}

// The very bytes of a word, from a place of the text or its end.
#[tactic(auto, using(crate::proofs::Moving::rest_no, crate::proofs::Moving::rest_none, crate::proofs::Moving::rest_yes), unfolding(crate::specs::Vocabulary::Answers::as_place))]
pub fn word(w: &[u8], s: &[u8], at: usize) -> Result<usize, usize>
    requires { at ≤ length s.now }
    ensures { result ≡ Answers.as_place (Parsed.word w.now s.now at) }
{
    for (i, &b) in w.iter().enumerate() {
        if byte_at(s, at + i) != b {
            return Err(at + i);
        }
    }
    Ok(at + w.len())
}

// The digits after a first, while the number is at most `most`. By its place, and no iterator: the place of what ends it is the answer.
#[tactic(auto, using(crate::proofs::Bytes::digit_is, crate::proofs::Digits::digit_within, crate::proofs::Digits::digits_more, crate::proofs::Digits::digits_none, crate::proofs::Digits::digits_past), unfolding(crate::specs::Vocabulary::Answers::as_result))]
fn digits(most: u32, s: &[u8], at: usize, n: u32) -> Parsed<u32>
    requires { n ≤ most }
    ensures { result ≡ Answers.as_result (Parsed.repeated (Leaves.counting most s.now) (length s.now) at n) }
{
    let mut end = at;
    let mut value = n;
    while let Some(d) = digit_at(s, end) {
        let longer = value as usize * 10 + d;
        if longer > most as usize {
            return Err(end);
        }
        value = longer as u32;
        end += 1;
    }
    Ok((end, value))
}

// A decimal from 0 to `most`: "no leading zero, except 0 itself".
#[tactic(auto, using(crate::proofs::Digits::decimal_more, crate::proofs::Digits::decimal_none, crate::proofs::Digits::decimal_past, crate::proofs::Digits::decimal_zero, crate::proofs::Digits::digit_within), unfolding(crate::specs::Leaves::decimal, crate::specs::Vocabulary::Answers::as_result))]
pub fn decimal(most: u32, s: &[u8], at: usize) -> Parsed<u32>
    ensures { result ≡ Answers.as_result (Leaves.decimal most s.now at) }
{
    let d = digit_at(s, at).ok_or(at)?;
    if d > most as usize {
        return Err(at);
    }
    if d == 0 {
        return Ok((at + 1, 0));
    }
    digits(most, s, at + 1, d as u32)
}

// The digit of a letter's variable, below its limit.
#[tactic(auto, using(crate::proofs::Bytes::digit_is, crate::proofs::Variables::numbered_never, crate::proofs::Variables::numbered_none, crate::proofs::Variables::numbered_past, crate::proofs::Variables::numbered_some), unfolding(crate::specs::Leaves::numbered, crate::specs::Vocabulary::Answers::as_result))]
fn numbered(limit: usize, s: &[u8], at: usize) -> Parsed<u8>
    requires { at < length s.now }
    ensures { result ≡ Answers.as_result (Leaves.numbered limit s.now at) }
{
    if limit == 0 {
        return Err(at);
    }
    let d = digit_at(s, at + 1).ok_or(at + 1)?;
    if d < limit {
        Ok((at + 2, d as u8))
    } else {
        Err(at)
    }
}

// "X and Y are variables: a0..a7 below attrs, v0..v7 below locals."
#[tactic(auto, using(crate::proofs::Answers::parsed_bad, crate::proofs::Answers::parsed_got, crate::proofs::Moving::within_text, crate::proofs::Variables::variable_a, crate::proofs::Variables::variable_none, crate::proofs::Variables::variable_v), unfolding(crate::specs::Parsed::mapped, crate::specs::Vocabulary::Answers::as_result))]
pub fn variable(limits: Limits, s: &[u8], at: usize) -> Parsed<Variable>
    ensures { result ≡ Answers.as_result (Leaves.variable limits s.now at) }
{
    match byte_at(s, at) {
        b'a' => {
            let (p, d) = numbered(limits.attrs, s, at)?;
            Ok((p, Variable::Attribute(d)))
        }
        b'v' => {
            let (p, d) = numbered(limits.locals, s, at)?;
            Ok((p, Variable::Local(d)))
        }
        _ => Err(at),
    }
}
