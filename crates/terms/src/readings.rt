// What a reader makes of the parts that it reads: the operations of a reading, as the definitions have them.
ghost use Rattle.std.specs.Prelude.{◌≡◌, ◌≤◌};
ghost use Rattle.terms.specs.Expressions as Expressions;
ghost use Rattle.terms.specs.Guards as Guards;
ghost use Rattle.terms.specs.Values.{values, guard_values};
ghost use Rattle.terms.specs.Vocabulary.Answers.{surroundings};
ghost use Rattle.terms.specs.Vocabulary.Nothing as Nothing;

use crate::{Here, Junction, Variable, values};
use whole::Operator;

/// What each part of an expression gives.
pub trait Reading {
    /// What an expression gives.
    type Value: Copy;

    ghost operations: { Self → Expressions.Reading Self.Value };

    /// A decimal.
    fn number(&self, n: u32) -> Self::Value
        requires { n ≤ Expressions.largest }
        ensures { result ≡ (operations self.now).number n };

    /// A variable.
    fn variable(&self, x: Variable) -> Self::Value
        ensures { result ≡ (operations self.now).variable x };

    /// `self`.
    fn itself(&self) -> Self::Value
        ensures { result ≡ (operations self.now).self };

    /// `caller`.
    fn caller(&self) -> Self::Value
        ensures { result ≡ (operations self.now).caller };

    /// An operator between what stands on its two sides.
    fn apply(&self, o: Operator, left: Self::Value, right: Self::Value) -> Self::Value
        ensures { result ≡ (operations self.now).apply o left right };
}

/// What each part of a guard gives.
pub trait GuardReading: Reading {
    /// What a guard gives.
    type Guard: Copy;

    ghost guard_operations: { Self → Guards.GuardReading Self.Value Self.Guard };

    /// `wait`.
    fn wait(&self) -> Self::Guard
        ensures { result ≡ (guard_operations self.now).wait };

    /// A variable followed by `?`.
    fn reply(&self, x: Variable) -> Self::Guard
        ensures { result ≡ (guard_operations self.now).reply x };

    /// An expression in square brackets.
    fn test(&self, value: Self::Value) -> Self::Guard
        ensures { result ≡ (guard_operations self.now).test value };

    /// Two guards joined by `&` or `|`.
    fn join(&self, j: Junction, left: Self::Guard, right: Self::Guard) -> Self::Guard
        ensures { result ≡ (guard_operations self.now).join j left right };
}

/// Acceptance alone: nothing is worked out. It reads in some half of the instructions that `Values` takes. The statement reader of `code` keeps the
/// values that it reads, so no entry reads by it.
#[derive(Clone, Copy)]
pub struct Accept;

impl Reading for Accept {
    type Value = ();

    ghost operations = { λ _. Nothing.nothing };

    fn number(&self, _n: u32) {}

    fn variable(&self, _x: Variable) {}

    fn itself(&self) {}

    fn caller(&self) {}

    fn apply(&self, _o: Operator, _left: (), _right: ()) {}
}

impl GuardReading for Accept {
    type Guard = ();

    ghost guard_operations = { λ _. Nothing.guard_nothing };

    fn wait(&self) {}

    fn reply(&self, _x: Variable) {}

    fn test(&self, _value: ()) {}

    fn join(&self, _j: Junction, _left: (), _right: ()) {}
}

/// What the parts of expressions and guards are worth in some cells, where a call performs them.
#[derive(Clone, Copy)]
pub struct Values<'c> {
    pub cells: &'c [i32],
    pub here: Here,
}

impl<'c> Reading for Values<'c> {
    type Value = Option<i32>;

    ghost operations = { λ v. values (surroundings v.cells.now v.here) };

    fn number(&self, n: u32) -> Option<i32> {
        Some(n as i32)
    }

    fn variable(&self, x: Variable) -> Option<i32> {
        Some(values::held(self.cells, self.here, x))
    }

    #[tactic(auto, unfolding(crate::specs::Vocabulary::Answers::surroundings))]
    fn itself(&self) -> Option<i32> {
        values::itself(self.here)
    }

    #[tactic(auto, unfolding(crate::specs::Vocabulary::Answers::surroundings))]
    fn caller(&self) -> Option<i32> {
        values::caller(self.cells, self.here)
    }

    fn apply(&self, o: Operator, left: Option<i32>, right: Option<i32>) -> Option<i32> {
        whole::applied(o, left, right)
    }
}

impl<'c> GuardReading for Values<'c> {
    type Guard = Option<i32>;

    ghost guard_operations = { λ v. guard_values (surroundings v.cells.now v.here) };

    fn wait(&self) -> Option<i32> {
        values::waited(self.cells, self.here)
    }

    fn reply(&self, x: Variable) -> Option<i32> {
        Some(whole::truth(values::is_replied(self.cells, self.here, x)))
    }

    fn test(&self, value: Option<i32>) -> Option<i32> {
        values::tested(value)
    }

    fn join(&self, j: Junction, left: Option<i32>, right: Option<i32>) -> Option<i32> {
        values::joined(j, left, right)
    }
}
