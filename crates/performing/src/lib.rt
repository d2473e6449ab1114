// The rules in code: what a chosen rule instance writes, or why it is refused.
#![tactic(auto)]

ghost use Rattle.std.specs.Prelude.{true, ◌≡◌};
ghost use Rattle.model.specs.Vocabulary.Known as Known;
ghost use Rattle.cells.specs.Configuration.{is_configuration};
ghost use Rattle.rules.specs.Step as Step;
ghost use Rattle.forms.specs.Vocabulary.Done.{Done};

use lookup::program::Program;
use rules::{Choice, Kind};
use whole::refusals::Refusal;

pub mod messages;
pub mod statements;

// "then the choice: 12, then the row's order". That the cells are a configuration stays a clause, here, in `exec` and in the entries: between two
// writes of one step it does not hold, so no type that lends the cells can carry it.
#[tactic(auto, using(crate::proofs::Choosing::few_objects, crate::proofs::Choosing::callee_in_use, crate::proofs::Choosing::label_used))]
pub fn next(program: &Program<'_>, cells: &mut [i32], choice: Choice) -> Result<(), Refusal>
    requires configuration { is_configuration (Known.model_of program.now.text) cells.old ≡ true }
    ensures { Done cells.old (Step.next (Known.model_of program.now.text) cells.old choice) result cells.new }
{
    if choice.kind == i32::from(Kind::Exec) {
        let object = layout::object_of(cells, choice.number).ok_or(Refusal::NotInUse)?;
        return statements::exec(program, cells, object);
    }
    // The label is looked up before the kinds are told apart: with a way for each kind before it a run of mixed choices, most of them not in use, took
    // twice the time.
    let label = layout::label_of(cells, choice.number).ok_or(Refusal::NotInUse)?;
    match Kind::try_from(choice.kind)? {
        Kind::Arrive => messages::arrive(cells, label),
        Kind::Bind => messages::bind(&program.table(), cells, label),
        Kind::Start => messages::start(program, cells, label),
        // exec has gone above
        Kind::Exec | Kind::Deliver => messages::deliver(cells, label),
    }
}
