// "Numbers given back", each once and by its condition.
ghost use Rattle.std.specs.Prelude.{◌≡◌};
ghost use Rattle.whole.specs.Vocabulary.Refusing as Refusing;

use std::error::Error;
use std::fmt;

/// Why a text, a configuration, a list of answers, a budget or a choice is refused.
#[derive(Clone, Copy, Debug, PartialEq, Eq)]
pub enum Refusal {
    /// 1: "text too long (line 0)"
    TextTooLong,
    /// 2: "line too long, byte outside, or no LF"
    BrokenLine,
    /// 3: "wrong key, text ended early, lines left over"
    WrongKey,
    /// 4: "a number outside code: its form, its range, or the 512"
    WrongNumber,
    /// 5: "code value outside the grammar, its numbers and variables included"
    WrongCode,
    /// 6: "blocks unmatched or too deep, last line"
    WrongBlocks,
    /// 10: "cells not 2,370"
    CellsNotAll,
    /// 11: "not a configuration of this model"
    NoConfiguration,
    /// 12: "kind, or object or label not in use"
    NotInUse,
    /// 13: "answers length differs"
    AnswersDiffer,
    /// 14: "budget over 10,000"
    BudgetTooLarge,
    /// 20: "arrive: stage not 1"
    NotInvoked,
    /// 21: "bind: stage not 2"
    NotQueued,
    /// 22: "no such method"
    NoSuchMethod,
    /// 23: "start: stage not 3"
    NotBound,
    /// 24: "object busy"
    ObjectBusy,
    /// 25: "not ready"
    NotReady,
    /// 26: "deliver: stage not 5"
    NotAnswered,
    /// 27: "exec: object idle"
    ObjectIdle,
    /// 28: "line past the method's end"
    PastTheEnd,
    /// 29: "a value out of range"
    OutOfRange,
    /// 30: "callee is no object"
    CalleeNoObject,
    /// 31: "object rows full"
    ObjectRowsFull,
    /// 32: "call rows full"
    CallRowsFull,
    /// 33: "reply not in"
    ReplyNotIn,
}

/// The number of an acceptance: "0 is acceptance."
pub const ACCEPTED: u32 = 0;

impl Refusal {
    /// The number that document 01 gives it: 1 to 6 of a text, 10 to 14 of what is lent beside it, 12 and 20 to 33 of a choice.
    #[tactic(auto, unfolding(crate::specs::Vocabulary::Refusing::number_of))]
    pub fn number(self) -> u32
        ensures { result ≡ Refusing.number_of self }
    {
        match self {
            Refusal::TextTooLong => 1,
            Refusal::BrokenLine => 2,
            Refusal::WrongKey => 3,
            Refusal::WrongNumber => 4,
            Refusal::WrongCode => 5,
            Refusal::WrongBlocks => 6,
            Refusal::CellsNotAll => 10,
            Refusal::NoConfiguration => 11,
            Refusal::NotInUse => 12,
            Refusal::AnswersDiffer => 13,
            Refusal::BudgetTooLarge => 14,
            Refusal::NotInvoked => 20,
            Refusal::NotQueued => 21,
            Refusal::NoSuchMethod => 22,
            Refusal::NotBound => 23,
            Refusal::ObjectBusy => 24,
            Refusal::NotReady => 25,
            Refusal::NotAnswered => 26,
            Refusal::ObjectIdle => 27,
            Refusal::PastTheEnd => 28,
            Refusal::OutOfRange => 29,
            Refusal::CalleeNoObject => 30,
            Refusal::ObjectRowsFull => 31,
            Refusal::CallRowsFull => 32,
            Refusal::ReplyNotIn => 33,
        }
    }
}

impl fmt::Display for Refusal {
    ghost use Rattle.std.specs.Prelude.{Some};
    ghost use Rattle.whole.specs.Vocabulary.Refusing.{words_of};

    ghost output = { λ refusal. Some (words_of refusal) };

    fn fmt<W: fmt::Write>(&self, f: &mut fmt::Formatter<W>) -> fmt::Result {
        f.write_str(match self {
            Refusal::TextTooLong => "text too long (line 0)",
            Refusal::BrokenLine => "line too long, byte outside, or no LF",
            Refusal::WrongKey => "wrong key, text ended early, lines left over",
            Refusal::WrongNumber => "a number outside code: its form, its range, or the 512",
            Refusal::WrongCode =>
                "code value outside the grammar, its numbers and variables included",
            Refusal::WrongBlocks => "blocks unmatched or too deep, last line",
            Refusal::CellsNotAll => "cells not 2,370",
            Refusal::NoConfiguration => "not a configuration of this model",
            Refusal::NotInUse => "kind, or object or label not in use",
            Refusal::AnswersDiffer => "answers length differs",
            Refusal::BudgetTooLarge => "budget over 10,000",
            Refusal::NotInvoked => "arrive: stage not 1",
            Refusal::NotQueued => "bind: stage not 2",
            Refusal::NoSuchMethod => "no such method",
            Refusal::NotBound => "start: stage not 3",
            Refusal::ObjectBusy => "object busy",
            Refusal::NotReady => "not ready",
            Refusal::NotAnswered => "deliver: stage not 5",
            Refusal::ObjectIdle => "exec: object idle",
            Refusal::PastTheEnd => "line past the method's end",
            Refusal::OutOfRange => "a value out of range",
            Refusal::CalleeNoObject => "callee is no object",
            Refusal::ObjectRowsFull => "object rows full",
            Refusal::CallRowsFull => "call rows full",
            Refusal::ReplyNotIn => "reply not in",
        })
    }
}

impl Error for Refusal {}

/// The number of an answer: 0 where it accepts, and else the refusal's.
#[tactic(auto, unfolding(crate::specs::Vocabulary::Refusing::number_given))]
pub fn number_given(answer: Result<(), Refusal>) -> u32
    ensures { result ≡ Refusing.number_given answer }
{
    match answer {
        Ok(()) => ACCEPTED,
        Err(refusal) => refusal.number(),
    }
}
