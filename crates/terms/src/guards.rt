// Guard, conjunction and atom readers, which call one another and the readers of expressions.
ghost use Rattle.std.specs.Prelude.{◌≡◌, ◌<◌, length};
ghost use Rattle.terms.specs.Vocabulary.Answers.{as_result};
ghost use Rattle.terms.specs.Bytes.{byte_at};
ghost use Rattle.terms.specs.Guards as Guards;
ghost use Rattle.terms.specs.Leaves as Leaves;
ghost use Rattle.terms.specs.Parsed.{mapped, closed};
ghost use Rattle.terms.specs.Vocabulary.Readers as Readers;

use crate::expressions::{Reader, named};
use crate::readings::GuardReading;
use crate::{Around, AtomStart, Junction, Parsed, leaves};

// "atoms joined by `&`"
#[tactic(auto, unfolding(crate::specs::Guards::ampersand))]
fn ampersand(b: u8) -> Option<Junction>
    ensures { result ≡ Guards.ampersand b }
{
    match b {
        b'&' => Some(Junction::Both),
        _ => None,
    }
}

// "conjunctions joined by `|`"
#[tactic(auto, unfolding(crate::specs::Guards::bar))]
fn bar(b: u8) -> Option<Junction>
    ensures { result ≡ Guards.bar b }
{
    match b {
        b'|' => Some(Junction::Either),
        _ => None,
    }
}

// What an atom begins with.
#[tactic(auto, unfolding(crate::specs::Bytes::told, crate::specs::Guards::atom_start_of))]
fn atom_start(b: u8) -> AtomStart
    ensures { result ≡ Guards.atom_start_of b }
{
    match b {
        b'w' => AtomStart::Wait,
        b'[' => AtomStart::Test,
        b'(' => AtomStart::Guard,
        b'a' | b'v' => AtomStart::Reply,
        _ => AtomStart::Nothing,
    }
}

impl<'t, R: GuardReading> Reader<'t, R> {
    // "a variable followed by `?`"
    #[tactic(auto, using(crate::proofs::Answers::answer_bad, crate::proofs::Answers::answer_got, crate::proofs::Answers::result_bad, crate::proofs::Answers::result_got, crate::proofs::Moving::within_text, crate::proofs::Nesting::closed_fail, crate::proofs::Nesting::closed_go, crate::proofs::Nesting::closed_none))]
    fn reply(&self, at: usize) -> Parsed<R::Guard>
        ensures { result ≡ as_result (mapped (R.guard_operations self.now.reading).reply (closed 63 self.now.text.now (Leaves.variable self.now.limits self.now.text.now at))) }
    {
        let (p, x) = leaves::variable(self.limits, self.text, at)?;
        if leaves::byte_at(self.text, p) == b'?' {
            Ok((p + 1, self.reading.reply(x)))
        } else {
            Err(p)
        }
    }

    // "an expression in square brackets", as a test.
    #[tactic(auto, unfolding(crate::specs::Parsed::mapped, crate::specs::Vocabulary::Answers::as_result))]
    fn test(&self, at: usize, left: usize) -> Parsed<R::Guard>
        requires { at < length self.now.text.now }
        ensures { result ≡ as_result (mapped (R.guard_operations self.now.reading).test (Readers.bracketed_at (R.operations self.now.reading) self.now.limits self.now.text.now 93 left at)) }
    {
        let (p, a) = self.bracketed(at, left, b']')?;
        Ok((p, self.reading.test(a)))
    }

    // "a guard in round brackets", from the opening one on. One reader for it and `bracketed` is no plainer, as with the joined items there.
    #[cycle(atom_conjunction_guard_nested)]
    fn nested(&self, at: usize, left: usize) -> Parsed<R::Guard>
        requires { at < length self.now.text.now }
        ensures { result ≡ as_result (Readers.nested_at (R.operations self.now.reading) (R.guard_operations self.now.reading) self.now.limits self.now.text.now left at) }
    {
        if left == 0 {
            return Err(at);
        }
        let (p, g) = self.guard(at + 1, left - 1)?;
        if leaves::byte_at(self.text, p) == b')' {
            Ok((p + 1, g))
        } else {
            Err(p)
        }
    }

    // "an atom is `wait`, a variable followed by `?`, an expression in square brackets, or a guard in round brackets"
    #[cycle(atom_conjunction_guard_nested)]
    fn atom(&self, at: usize, left: usize) -> Parsed<R::Guard>
        ensures { result ≡ as_result (Readers.atom_at (R.operations self.now.reading) (R.guard_operations self.now.reading) self.now.limits self.now.text.now left at) }
    {
        match atom_start(leaves::byte_at(self.text, at)) {
            AtomStart::Wait => named(b"wait", self.reading.wait(), self.text, at),
            AtomStart::Reply => self.reply(at),
            AtomStart::Test => self.test(at, left),
            AtomStart::Guard => self.nested(at, left),
            AtomStart::Nothing => Err(at),
        }
    }

    // "a conjunction is atoms joined by `&`"
    #[cycle(atom_conjunction_guard_nested)]
    fn conjunction(&self, at: usize, left: usize) -> Parsed<R::Guard>
        ensures { result ≡ as_result (Readers.conjunction_at (R.operations self.now.reading) (R.guard_operations self.now.reading) self.now.limits self.now.text.now left at) }
    {
        let (mut end, mut value) = self.atom(at, left)?;
        while let Some(j) = ampersand(leaves::byte_at(self.text, end)) {
            let (p, h) = self.atom(end + 1, left)?;
            value = self.reading.join(j, value, h);
            end = p;
        }
        Ok((end, value))
    }

    /// "Guard: conjunctions joined by `|`", with so many brackets still allowed.
    #[cycle(atom_conjunction_guard_nested)]
    pub fn guard(&self, at: usize, left: usize) -> Parsed<R::Guard>
        ensures { result ≡ as_result (Guards.guard (R.operations self.now.reading) (R.guard_operations self.now.reading) self.now.limits self.now.text.now left at) }
    {
        let (mut end, mut value) = self.conjunction(at, left)?;
        while let Some(j) = bar(leaves::byte_at(self.text, end)) {
            let (p, h) = self.conjunction(end + 1, left)?;
            value = self.reading.join(j, value, h);
            end = p;
        }
        Ok((end, value))
    }
}

/// A guard, with so many brackets still allowed: its value.
pub fn guard(s: &[u8], at: usize, cells: &[i32], around: Around, left: usize) -> Parsed<Option<i32>>
    ensures { result ≡ as_result (Readers.guard_read cells.now around s.now left at) }
{
    Reader::of_values(s, cells, around).guard(at, left)
}
