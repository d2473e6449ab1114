// Decimals, variables, expressions and guards, read straight from the text. A reader works out what its reading gives of each part while it reads.
#![tactic(auto)]

use layout::{Label, ObjectNumber};

pub mod expressions;
pub mod guards;
pub mod leaves;
pub mod readings;
pub mod values;

// A variable of a method: "a0..a7 below attrs, v0..v7 below locals".
#[derive(Clone, Copy)]
pub enum Variable {
    Attribute(u8),
    Local(u8),
}

// Where a term is worked out: the object, and the call that performs it.
#[derive(Clone, Copy)]
pub struct Here {
    pub object: ObjectNumber,
    pub label: Label,
}

// What a method's variables are below. Made in three places, of three types that hold both numbers in other widths: a `From` for each is as long.
#[derive(Clone, Copy)]
pub struct Limits {
    pub attrs: usize,
    pub locals: usize,
}

// What a term is read in: what its variables are below, and where it is worked out.
#[derive(Clone, Copy)]
pub struct Around {
    pub limits: Limits,
    pub here: Here,
}

// What a factor begins with, `Nothing` among it, as the definition has it: "A factor is a decimal 0..2147483647, a variable, `self`, `caller`, or an expression in round brackets": its first byte tells which.
#[derive(Clone, Copy)]
pub enum Start {
    Decimal,
    Variable,
    Itself,
    Caller,
    Opening,
    Nothing,
}

// The same of an atom: "an atom is `wait`, a variable followed by `?`, an expression in square brackets, or a guard in round brackets": its first byte tells.
#[derive(Clone, Copy)]
pub enum AtomStart {
    Wait,
    Reply,
    Test,
    Guard,
    Nothing,
}

// "conjunctions joined by `|`; a conjunction is atoms joined by `&`"
#[derive(Clone, Copy)]
pub enum Junction {
    Both,
    Either,
}

/// What reading at a place gives: where it ended and what was read, or the place of the refusal, which is the first byte from which no
/// continuation is valid.
pub type Parsed<T> = Result<(usize, T), usize>;
