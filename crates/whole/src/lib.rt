// Whole numbers of 32 bits, worked out with the news that a result does not fit.
#![tactic(auto)]

ghost use Rattle.std.specs.Prelude.{◌≡◌, pos};
ghost use Rattle.whole.specs.Whole as Whole;
ghost use Rattle.whole.specs.Vocabulary.Summands as Summands;

pub mod refusals;

/// The five operators of an expression.
#[derive(Clone, Copy, Debug, PartialEq, Eq)]
pub enum Operator {
    Plus,
    Minus,
    Times,
    Less,
    Equal,
}

// A result of 64 bits as a value, if it is one.
#[tactic(auto, using(crate::proofs::Ranges::within_tried))]
fn within(z: i64) -> Option<i32>
    ensures { result ≡ Whole.within z }
{
    i32::try_from(z).ok()
}

/// 1 where a test holds, and 0 where it does not.
pub fn truth(holds: bool) -> i32
    ensures { result ≡ Whole.truth holds }
{
    i32::from(holds)
}

// A second summand: what a minus takes away is added with the other sign. So a sum and a difference are one way through the code, and the
// processor need not guess between them. Not `checked_add` and `checked_sub`, slower: with a way for each, pluses and minuses that come mixed took
// 6.8 ns each where these take 2.9.
#[tactic(auto, using(crate::proofs::Ranges::negative, crate::proofs::Ranges::negative_fits, crate::proofs::Ranges::read_back), unfolding(crate::specs::Vocabulary::Summands::summand))]
fn summand(o: Operator, y: i32) -> i64
    ensures { result ≡ Summands.summand o y }
{
    match o {
        Operator::Minus => -i64::from(y),
        _ => i64::from(y),
    }
}

/// What an operator gives of two numbers.
#[tactic(auto, using(crate::proofs::Ranges::apply_handed, crate::proofs::Ranges::product_fits, crate::proofs::Ranges::read_back, crate::proofs::Ranges::same_bits, crate::proofs::Ranges::summand_back, crate::proofs::Ranges::total_fits), unfolding(crate::specs::Vocabulary::Summands::summand, crate::specs::Whole::apply))]
pub fn apply(o: Operator, x: i32, y: i32) -> Option<i32>
    ensures { result ≡ Whole.apply o x y }
{
    match o {
        Operator::Plus | Operator::Minus => within(i64::from(x) + summand(o, y)),
        Operator::Times => within(i64::from(x) * i64::from(y)),
        Operator::Less => Some(truth(x < y)),
        Operator::Equal => Some(truth(x == y)),
    }
}

/// What an operator gives of what was worked out on its two sides.
#[tactic(auto, using(crate::proofs::Ranges::apply_handed), unfolding(crate::specs::Whole::applied))]
pub fn applied(o: Operator, left: Option<i32>, right: Option<i32>) -> Option<i32>
    ensures { result ≡ Whole.applied o left right }
{
    apply(o, left?, right?)
}

/// "An expression is true when not 0."
pub fn is_true(x: i32) -> bool
    ensures { result ≡ Whole.is_true x }
{
    x != 0
}

/// A cell that is a natural number, if it is one.
#[tactic(auto, unfolding(crate::specs::Whole::natural))]
pub fn as_natural(z: i32) -> Option<usize>
    ensures { result ≡ Whole.natural z }
{
    // Not `usize::try_from(z).ok()`: it is slower, six instructions for these three (the sign is split off and put back).
    if z < 0 { None } else { Some(z as usize) }
}

/// Whether a cell holds a number that is counted from 0.
#[tactic(auto, using(crate::proofs::Ranges::same_wide))]
pub fn is_number(z: i32, n: u32) -> bool
    ensures { result ≡ Whole.eq_z z (pos n) }
{
    i64::from(z) == i64::from(n)
}

/// Whether a number lies between two, both included.
#[tactic(auto, unfolding(crate::specs::Whole::between))]
pub fn between(low: i32, high: i32, z: i32) -> bool
    ensures { result ≡ Whole.between low high z }
{
    (low..=high).contains(&z)
}
