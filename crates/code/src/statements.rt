// The statement reader: a code value to a statement whose values are worked out while it is read.
ghost use Rattle.std.specs.Prelude.{◌≡◌, ◌+◌, ◌-◌, ◌≤◌, ◌<◌, ◌^◌, [], ◌∷◌, Ok};
ghost use Rattle.terms.specs.Vocabulary.Answers.{as_result, as_place};
ghost use Rattle.terms.specs.Parsed.{word, mapped};
ghost use Rattle.code.specs.declared.Form.TheVariants as Form;
ghost use Rattle.code.specs.Reader as Grammar;
ghost use Rattle.code.specs.Vocabulary.Answers as Answers;
ghost use Rattle.code.specs.Vocabulary.Readers as Readers;

use crate::{Arguments, Form, ReadCode, Statement, Valued};
use terms::expressions::BRACKETS;
use terms::{Around, Parsed, Variable, expressions, guards, leaves};

// "J 0..7"
const LAST_METHOD: u32 = 7;

// "0 to 4 arguments": a first, and at most three after it.
const ARGUMENTS_AFTER: usize = 3;

// The first byte tells the forms apart, and after an `s` the second.
#[tactic(auto, using(crate::proofs::Forms::form_other, crate::proofs::Forms::form_set, crate::proofs::Forms::form_skip, crate::proofs::Forms::beginning_none), unfolding(crate::specs::Reader::beginning))]
fn form_of(s: &[u8]) -> Option<Form>
    ensures { result ≡ Grammar.form_of s.now }
{
    match leaves::byte_at(s, 0) {
        b's' if leaves::byte_at(s, 1) == b'k' => Some(Form::Skip),
        b's' => Some(Form::Set),
        b'n' => Some(Form::New),
        b'c' => Some(Form::Call),
        b'g' => Some(Form::Get),
        b'a' => Some(Form::Await),
        b'i' => Some(Form::If),
        b'e' => Some(Form::Else),
        b'f' => Some(Form::Fi),
        b'w' => Some(Form::While),
        b'o' => Some(Form::Od),
        b'r' => Some(Form::Return),
        _ => None,
    }
}

// The word that a form begins with, with the space that follows it where the form has more.
#[tactic(auto, unfolding(crate::specs::Reader::word_of))]
fn word_of(form: Form) -> &'static [u8]
    ensures { result.now ≡ Grammar.word_of form }
{
    match form {
        Form::Skip => b"skip",
        Form::Set => b"set ",
        Form::New => b"new ",
        Form::Call => b"call ",
        Form::Get => b"get ",
        Form::Await => b"await ",
        Form::If => b"if ",
        Form::Else => b"else",
        Form::Fi => b"fi",
        Form::While => b"while ",
        Form::Od => b"od",
        Form::Return => b"return ",
    }
}

// A statement that has no arguments, read up to a place.
fn alone(at: usize, statement: Statement) -> Parsed<(Statement, Arguments)>
    ensures { result ≡ Ok (at, (statement, Answers.no_arguments)) }
{
    Ok((at, (statement, Arguments::none())))
}

// What a code value is read in: its text, what its terms are worked out from, and how many classes there are.
#[derive(Clone, Copy)]
struct Reader<'t> {
    text: &'t [u8],
    classes: u32,
    cells: &'t [i32],
    around: Around,
    ghost some_class: { 0 < classes },
}

impl Reader<'_> {
    ghost use Rattle.code.specs.Vocabulary.Parts as Parts;

    // An expression that begins with no bracket open.
    fn expression(self, at: usize) -> Parsed<Option<i32>>
        ensures { result ≡ as_result (Parts.expression self.entry at) }
    {
        expressions::expression(self.text, at, self.cells, self.around, BRACKETS)
    }

    // A guard that begins with no bracket open.
    fn guard(self, at: usize) -> Parsed<Option<i32>>
        ensures { result ≡ as_result (Parts.guard self.entry at) }
    {
        guards::guard(self.text, at, self.cells, self.around, BRACKETS)
    }

    // A variable below its limit.
    fn variable(self, at: usize) -> Parsed<Variable>
        ensures { result ≡ as_result (Parts.variable self.entry at) }
    {
        leaves::variable(self.around.limits, self.text, at)
    }

    // A space alone.
    fn space(self, at: usize) -> Result<usize, usize>
        ensures { result ≡ as_place (word (32 ∷ []) self.entry.text.now at) }
    {
        if leaves::byte_at(self.text, at) == b' ' {
            Ok(at + 1)
        } else {
            Err(at)
        }
    }

    // A variable and a space.
    fn target(self, at: usize) -> Parsed<Variable>
        ensures { result ≡ as_result (Parts.target self.entry at) }
    {
        let (at, x) = self.variable(at)?;
        let at = self.space(at)?;
        Ok((at, x))
    }

    // The arguments after some, at most so many.
    fn more_arguments(self, at: usize, most: usize, first: Arguments) -> Parsed<Arguments>
        requires { first.count + most + 1 < 2 ^ 64 }
        ensures { result ≡ as_result (Parts.more_arguments self.entry most at first) }
    {
        let mut end = at;
        let mut list = first;
        for _ in 0..most {
            if leaves::byte_at(self.text, end) != b',' {
                break;
            }
            let (next, value) = self.expression(end + 1)?;
            end = next;
            list = list.with_one(value);
        }
        Ok((end, list))
    }

    // A space and a list of arguments, with at most so many after the first; or neither.
    fn arguments(self, at: usize, most: usize) -> Parsed<Arguments>
        requires { most + 3 < 2 ^ 64 }
        ensures { result ≡ as_result (Parts.arguments self.entry most at) }
    {
        if leaves::byte_at(self.text, at) != b' ' {
            return Ok((at, Arguments::none()));
        }
        let (at, value) = self.expression(at + 1)?;
        self.more_arguments(at, most, Arguments::none().with_one(value))
    }

    // "set X E"
    fn set_form(self, at: usize) -> Parsed<(Statement, Arguments)>
        ensures { result ≡ as_result (Parts.rest self.entry Form.Set at) }
    {
        let (at, x) = self.target(at)?;
        let (at, value) = self.expression(at)?;
        alone(at, Statement::Set(x, value))
    }

    // "new X K" or "new X K E,..": a class below `classes`, and any number of arguments.
    fn new_form(self, at: usize) -> Parsed<(Statement, Arguments)>
        ensures { result ≡ as_result (Parts.rest self.entry Form.New at) }
    {
        let (at, x) = self.target(at)?;
        let (at, class) = leaves::decimal(self.classes - 1, self.text, at)?;
        let (at, list) = self.arguments(at, self.text.len())?;
        Ok((at, (Statement::New(x, class), list)))
    }

    // "call X E J" or "call X E J E,..": 0 to 4 arguments.
    fn call_form(self, at: usize) -> Parsed<(Statement, Arguments)>
        ensures { result ≡ as_result (Parts.rest self.entry Form.Call at) }
    {
        let (at, x) = self.target(at)?;
        let (at, callee) = self.expression(at)?;
        let at = self.space(at)?;
        let (at, method) = leaves::decimal(LAST_METHOD, self.text, at)?;
        let (at, list) = self.arguments(at, ARGUMENTS_AFTER)?;
        Ok((at, (Statement::Call(x, callee, method), list)))
    }

    // "get X Y"
    fn get_form(self, at: usize) -> Parsed<(Statement, Arguments)>
        ensures { result ≡ as_result (Parts.rest self.entry Form.Get at) }
    {
        let (at, x) = self.target(at)?;
        let (at, y) = self.variable(at)?;
        alone(at, Statement::Get(x, y))
    }

    // "await G"
    fn await_form(self, at: usize) -> Parsed<(Statement, Arguments)>
        ensures { result ≡ as_result (Parts.rest self.entry Form.Await at) }
    {
        let (at, open) = self.guard(at)?;
        alone(at, Statement::Await(open))
    }

    // "if E", "while E", "return E"
    fn valued(self, form: Valued, at: usize) -> Parsed<(Statement, Arguments)>
        ensures { result ≡ as_result (mapped Answers.said (mapped (Grammar.valued form) (Parts.expression self.entry at))) }
    {
        let (at, value) = self.expression(at)?;
        match form {
            Valued::If => alone(at, Statement::If(value)),
            Valued::While => alone(at, Statement::While(value)),
            Valued::Return => alone(at, Statement::Return(value)),
        }
    }

    // What follows the word of a form.
    fn rest(self, form: Form, at: usize) -> Parsed<(Statement, Arguments)>
        ensures { result ≡ as_result (Parts.rest self.entry form at) }
    {
        match form {
            Form::Skip => alone(at, Statement::Skip),
            Form::Set => self.set_form(at),
            Form::New => self.new_form(at),
            Form::Call => self.call_form(at),
            Form::Get => self.get_form(at),
            Form::Await => self.await_form(at),
            Form::If => self.valued(Valued::If, at),
            Form::Else => alone(at, Statement::Else),
            Form::Fi => alone(at, Statement::Fi),
            Form::While => self.valued(Valued::While, at),
            Form::Od => alone(at, Statement::Od),
            Form::Return => self.valued(Valued::Return, at),
        }
    }
}

// A code value: the statement that it is, with its values worked out, or the place of its refusal.
pub fn statement(s: &[u8], classes: u32, cells: &[i32], around: Around) -> ReadCode
    requires { 0 < classes }
    ensures { result ≡ Readers.statement_read cells.now around classes s.now }
{
    let form = form_of(s).ok_or(0usize)?;
    let at = leaves::word(word_of(form), s, 0)?;
    let reader = Reader {
        text: s,
        classes,
        cells,
        around,
    };
    let (end, read) = reader.rest(form, at)?;
    if end == s.len() { Ok(read) } else { Err(end) }
}
