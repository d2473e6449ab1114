// Code values: statements, and the partners of the lines that open and close blocks.
#![tactic(auto)]

ghost use Rattle.std.specs.Prelude.{◌≡◌, set};

use terms::Variable;

pub mod blocks;
pub mod creating;
pub mod partners;
mod shape_numbers;
pub mod statements;

// The twelve forms of a code value.
#[derive(Clone, Copy, Debug, PartialEq, Eq)]
pub enum Form {
    Skip,
    Set,
    New,
    Call,
    Get,
    Await,
    If,
    Else,
    Fi,
    While,
    Od,
    Return,
}

// The forms that are a word and an expression, as the definition `valued` takes them. No part of `Form`: of another form it says nothing.
#[derive(Clone, Copy, Debug, PartialEq, Eq)]
pub enum Valued {
    If,
    While,
    Return,
}

// A statement with its expressions and its guard worked out. The arguments of a `new` and of a `call` stand beside it: inside they would make each
// statement as wide as eight values.
#[derive(Clone, Copy)]
pub enum Statement {
    Skip,
    Set(Variable, Option<i32>),
    New(Variable, u32),
    Call(Variable, Option<i32>, u32),
    Get(Variable, Variable),
    Await(Option<i32>),
    If(Option<i32>),
    Else,
    Fi,
    While(Option<i32>),
    Od,
    Return(Option<i32>),
}

// Arguments worked out, and how many there are. The values are the first eight, with 0 for one that is no value and past the last: `Ok` where each
// of all is a value, and else `Err`.
#[derive(Clone, Copy, Debug, PartialEq, Eq)]
pub struct Arguments {
    pub values: Result<[i32; 8], [i32; 8]>,
    pub count: usize,
}

impl Arguments {
    ghost use Rattle.std.specs.Prelude.{◌≡◌, ◌+◌, ◌<◌, ◌^◌};
    ghost use Rattle.code.specs.Vocabulary.Answers as Answers;

    // No arguments.
    #[tactic(auto, unfolding(crate::specs::Vocabulary::Answers::no_arguments))]
    fn none() -> Arguments
        ensures { result ≡ Answers.no_arguments }
    {
        Arguments {
            values: Ok([0; 8]),
            count: 0,
        }
    }

    // One argument more; past the eighth only the count goes on.
    #[tactic(auto, unfolding(crate::specs::Vocabulary::Answers::eight, crate::specs::Vocabulary::Answers::with_one))]
    fn with_one(self, value: Option<i32>) -> Arguments
        requires { self.count + 1 < 2 ^ 64 }
        ensures { result ≡ Answers.with_one self value }
    {
        let values = match (self.values, value) {
            (Ok(values), Some(z)) => Ok(kept(values, self.count, z)),
            (Err(values), Some(z)) => Err(kept(values, self.count, z)),
            (Ok(values) | Err(values), None) => Err(values),
        };
        Arguments {
            values,
            count: self.count + 1,
        }
    }
}

// A value among the first eight; past them it is not kept. By index: with `get_mut` the proof did not close.
fn kept(mut values: [i32; 8], at: usize, z: i32) -> [i32; 8]
    ensures { result ≡ set values at z }
{
    if at < values.len() {
        values[at] = z;
    }
    values
}

/// A code value that was read, with the arguments of a `new` or a `call`, or the place of its refusal.
pub type ReadCode = Result<(Statement, Arguments), usize>;

// What a line is, as far as blocks, returns and awaits go.
#[derive(Clone, Copy, Debug, PartialEq, Eq)]
pub enum Shape {
    If,
    Else,
    Fi,
    While,
    Od,
    Return,
    Await,
    Plain,
}
