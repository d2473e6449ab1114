// Expression, sum, product and factor readers, which call one another: the count of brackets still allowed falls, then the length left.
ghost use Rattle.std.specs.Prelude.{◌≡◌, ◌<◌, length};
ghost use Rattle.terms.specs.Vocabulary.Answers.{as_result};
ghost use Rattle.terms.specs.Bytes.{byte_at};
ghost use Rattle.terms.specs.Expressions as Expressions;
ghost use Rattle.terms.specs.Leaves as Leaves;
ghost use Rattle.terms.specs.Parsed.{mapped, word};
ghost use Rattle.terms.specs.Vocabulary.Readers as Readers;

use crate::readings::{Reading, Values};
use crate::{Around, Limits, Parsed, Start, leaves};
use whole::Operator;

// "a decimal 0..2147483647"
const LARGEST: u32 = 2147483647;

// "At most 8 brackets are open at once."
pub const BRACKETS: usize = 8;

// "factors joined by `*`"
#[tactic(auto, unfolding(crate::specs::Expressions::star))]
fn star(b: u8) -> Option<Operator>
    ensures { result ≡ Expressions.star b }
{
    match b {
        b'*' => Some(Operator::Times),
        _ => None,
    }
}

// "products joined by `+` or `-`"
#[tactic(auto, unfolding(crate::specs::Expressions::among, crate::specs::Expressions::sign))]
fn sign(b: u8) -> Option<Operator>
    ensures { result ≡ Expressions.sign b }
{
    match b {
        b'+' => Some(Operator::Plus),
        b'-' => Some(Operator::Minus),
        _ => None,
    }
}

// "two sums joined by one `<` or `=`"
#[tactic(auto, unfolding(crate::specs::Expressions::among, crate::specs::Expressions::comparison))]
fn comparison(b: u8) -> Option<Operator>
    ensures { result ≡ Expressions.comparison b }
{
    match b {
        b'<' => Some(Operator::Less),
        b'=' => Some(Operator::Equal),
        _ => None,
    }
}

// What a factor begins with.
#[tactic(auto, unfolding(crate::specs::Bytes::digit, crate::specs::Bytes::told, crate::specs::Expressions::start_of))]
fn start(b: u8) -> Start
    ensures { result ≡ Expressions.start_of b }
{
    match b {
        b'0'..=b'9' => Start::Decimal,
        b's' => Start::Itself,
        b'c' => Start::Caller,
        b'(' => Start::Opening,
        b'a' | b'v' => Start::Variable,
        _ => Start::Nothing,
    }
}

/// A word, with what it stands for.
#[tactic(auto, using(crate::proofs::Answers::answer_bad, crate::proofs::Answers::answer_got, crate::proofs::Answers::word_bad, crate::proofs::Answers::word_got))]
pub fn named<T: Copy>(w: &[u8], value: T, s: &[u8], at: usize) -> Parsed<T>
    requires { at < length s.now }
    ensures { result ≡ as_result (mapped (λ _. value) (word w.now s.now at)) }
{
    let p = leaves::word(w, s, at)?;
    Ok((p, value))
}

/// What reads a text by a reading: what its variables are below, and what each part gives.
#[derive(Clone, Copy)]
pub struct Reader<'t, R> {
    pub text: &'t [u8],
    pub limits: Limits,
    pub reading: R,
}

impl<'t, R: Reading> Reader<'t, R> {
    // A decimal as a factor.
    #[tactic(auto, using(crate::proofs::Answers::answer_bad, crate::proofs::Answers::answer_got, crate::proofs::Answers::parsed_bad, crate::proofs::Answers::parsed_got, crate::proofs::Digits::decimal_below))]
    fn number(&self, at: usize) -> Parsed<R::Value>
        ensures { result ≡ as_result (mapped (R.operations self.now.reading).number (Leaves.decimal Expressions.largest self.now.text.now at)) }
    {
        let (p, n) = leaves::decimal(LARGEST, self.text, at)?;
        Ok((p, self.reading.number(n)))
    }

    // A variable as a factor.
    #[tactic(auto, using(crate::proofs::Answers::answer_bad, crate::proofs::Answers::answer_got, crate::proofs::Answers::result_bad, crate::proofs::Answers::result_got))]
    fn variable(&self, at: usize) -> Parsed<R::Value>
        ensures { result ≡ as_result (mapped (R.operations self.now.reading).variable (Leaves.variable self.now.limits self.now.text.now at)) }
    {
        let (p, x) = leaves::variable(self.limits, self.text, at)?;
        Ok((p, self.reading.variable(x)))
    }

    /// An expression in brackets, from the opening one on, by the byte that closes them.
    #[cycle(bracketed_expression_factor_product_sum)]
    pub fn bracketed(&self, at: usize, left: usize, close: u8) -> Parsed<R::Value>
        requires { (at < length self.now.text.now) × (0 < close) }
        ensures { result ≡ as_result (Readers.bracketed_at (R.operations self.now.reading) self.now.limits self.now.text.now close left at) }
    {
        if left == 0 {
            return Err(at);
        }
        let (p, a) = self.expression(at + 1, left - 1)?;
        if leaves::byte_at(self.text, p) == close {
            Ok((p + 1, a))
        } else {
            Err(p)
        }
    }

    // "A factor is a decimal 0..2147483647, a variable, `self`, `caller`, or an expression in round brackets." Inlined, as products and sums
    // are: without that reading takes 1.3 to 1.8 times the instructions.
    #[inline(always)]
    #[cycle(bracketed_expression_factor_product_sum)]
    fn factor(&self, at: usize, left: usize) -> Parsed<R::Value>
        ensures { result ≡ as_result (Readers.factor_at (R.operations self.now.reading) self.now.limits self.now.text.now left at) }
    {
        match start(leaves::byte_at(self.text, at)) {
            Start::Decimal => self.number(at),
            Start::Variable => self.variable(at),
            Start::Itself => named(b"self", self.reading.itself(), self.text, at),
            Start::Caller => named(b"caller", self.reading.caller(), self.text, at),
            Start::Opening => self.bracketed(at, left, b')'),
            Start::Nothing => Err(at),
        }
    }

    // "a product is factors joined by `*`". One reader for the joined items of a product, a sum, a conjunction and a guard is no plainer: it takes the
    // item's reader as a closure, and a closure in a cycle of calls needs clauses and a measure of its own, beside the six lines of the loop.
    #[inline(always)]
    #[cycle(bracketed_expression_factor_product_sum)]
    fn product(&self, at: usize, left: usize) -> Parsed<R::Value>
        ensures { result ≡ as_result (Readers.product_at (R.operations self.now.reading) self.now.limits self.now.text.now left at) }
    {
        let (mut end, mut value) = self.factor(at, left)?;
        while let Some(o) = star(leaves::byte_at(self.text, end)) {
            let (p, b) = self.factor(end + 1, left)?;
            value = self.reading.apply(o, value, b);
            end = p;
        }
        Ok((end, value))
    }

    // "A sum is products joined by `+` or `-`"
    #[inline(always)]
    #[cycle(bracketed_expression_factor_product_sum)]
    fn sum(&self, at: usize, left: usize) -> Parsed<R::Value>
        ensures { result ≡ as_result (Readers.sum_at (R.operations self.now.reading) self.now.limits self.now.text.now left at) }
    {
        let (mut end, mut value) = self.product(at, left)?;
        while let Some(o) = sign(leaves::byte_at(self.text, end)) {
            let (p, b) = self.product(end + 1, left)?;
            value = self.reading.apply(o, value, b);
            end = p;
        }
        Ok((end, value))
    }

    /// "Expression: a sum, or two sums joined by one `<` or `=`", with so many brackets still allowed.
    #[cycle(bracketed_expression_factor_product_sum)]
    pub fn expression(&self, at: usize, left: usize) -> Parsed<R::Value>
        ensures { result ≡ as_result (Expressions.expression (R.operations self.now.reading) self.now.limits self.now.text.now left at) }
    {
        let (p, a) = self.sum(at, left)?;
        match comparison(leaves::byte_at(self.text, p)) {
            None => Ok((p, a)),
            Some(o) => {
                let (q, b) = self.sum(p + 1, left)?;
                Ok((q, self.reading.apply(o, a, b)))
            }
        }
    }
}

impl<'t> Reader<'t, Values<'t>> {
    // What reads a text for what its terms are worth in some cells.
    pub(crate) fn of_values(text: &'t [u8], cells: &'t [i32], around: Around) -> Self
        ensures text { result.text.now ≡ text.now }
        ensures limits { result.limits ≡ around.limits }
        ensures cells { result.reading.cells.now ≡ cells.now }
        ensures here { result.reading.here ≡ around.here }
    {
        let here = around.here;
        Reader {
            text,
            limits: around.limits,
            reading: Values { cells, here },
        }
    }
}

/// An expression in brackets, from the opening one on, by the byte that closes them: its value. This and `expression` are public, and keep text, cells
/// and place as parameters.
pub fn bracketed(
    s: &[u8],
    at: usize,
    cells: &[i32],
    around: Around,
    left: usize,
    close: u8,
) -> Parsed<Option<i32>>
    requires { (at < length s.now) × (0 < close) }
    ensures { result ≡ as_result (Readers.inside_read cells.now around s.now close left at) }
{
    Reader::of_values(s, cells, around).bracketed(at, left, close)
}

/// An expression, with so many brackets still allowed: its value.
pub fn expression(
    s: &[u8],
    at: usize,
    cells: &[i32],
    around: Around,
    left: usize,
) -> Parsed<Option<i32>>
    ensures { result ≡ as_result (Readers.expression_read cells.now around s.now left at) }
{
    Reader::of_values(s, cells, around).expression(at, left)
}
