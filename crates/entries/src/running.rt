// "Run. A lent list of choices, each a kind with its number, and an answers slice of the same length; each choice is one step, a refused one
// writes its answer and the run goes on."
ghost use Rattle.std.specs.Prelude.{true, ◌≡◌, ◌<◌, pos, length, set};
ghost use Rattle.model.specs.Vocabulary.Known as Known;
ghost use Rattle.cells.specs.Configuration.{is_configuration};
ghost use Rattle.rules.specs.Next as Next;
ghost use Rattle.rules.specs.Step as Step;
ghost use Rattle.engine.specs.Entries as Entries;
ghost use Rattle.engine.specs.Run as Run;
ghost use Rattle.entries.specs.Vocabulary.Checked as Checked;

use lookup::program::Program;
use model::Rows;
use rules::Choice;
use text::Verdict;
use whole::refusals::{Refusal, number_given};

// One choice of a run: one step, with its answer in its own place among those that are lent.
#[tactic(auto, using(crate::proofs::Refusing::answer_small))]
pub fn perform(
    program: &Program<'_>,
    cells: &mut [i32],
    answers: &mut [i32],
    i: usize,
    choice: Choice,
)
    requires configuration { is_configuration (Known.model_of program.now.text) cells.old ≡ true }
    requires i_in_bounds { i < length answers.old }
    ensures cells_after { cells.new ≡ Next.cells_after cells.old (Step.next (Known.model_of program.now.text) cells.old choice) }
    ensures answers_after { answers.new ≡ set answers.old i (pos (Next.answer_of (Step.next (Known.model_of program.now.text) cells.old choice))) }
    ensures configuration { is_configuration (Known.model_of program.now.text) cells.new ≡ true }
{
    answers[i] = number_given(crate::next(program, cells, choice)) as i32;
}

// Each choice is one step.
#[tactic(auto, using(crate::proofs::Turns::at_first, crate::proofs::Turns::finished))]
fn run_choices(program: &Program<'_>, cells: &mut [i32], choices: &[Choice], answers: &mut [i32])
    requires configuration { is_configuration (Known.model_of program.now.text) cells.old ≡ true }
    requires answers_len { length answers.old ≡ length choices.now }
    ensures cells_after { cells.new ≡ Run.run_cells (Known.model_of program.now.text) cells.old choices.now }
    ensures answers_after { answers.new ≡ Run.run_answers (Known.model_of program.now.text) cells.old choices.now }
{
    for (i, &choice) in choices.iter().enumerate() {
        perform(program, cells, answers, i, choice);
    }
}

// A run that is refused, or is performed.
#[tactic(auto, using(crate::proofs::RunOutcomes::lengths_differ), unfolding(engine::specs::Entries::at_no_line, whole::specs::Vocabulary::Refusing::number_of))]
fn ran(
    text: &[u8],
    cells: &mut [i32],
    choices: &[Choice],
    answers: &mut [i32],
) -> Result<(), Verdict>
    ensures value { Checked.verdict_of result ≡ (Entries.run text.now cells.old choices.now answers.old).verdict }
    ensures cells_after { cells.new ≡ (Entries.run text.now cells.old choices.now answers.old).cells }
    ensures answers_after { answers.new ≡ (Entries.run text.now cells.old choices.now answers.old).answers }
{
    let mut rows = Rows::new();
    let program = crate::on_configuration(text, &mut rows.table, &mut rows.shapes, cells)?;
    if answers.len() != choices.len() {
        return Err(Verdict::from(Refusal::AnswersDiffer));
    }
    run_choices(&program, cells, choices, answers);
    Ok(())
}

// Run: 13 before anything is written.
pub fn run(text: &[u8], cells: &mut [i32], choices: &[Choice], answers: &mut [i32]) -> Verdict
    ensures value { result ≡ (Entries.run text.now cells.old choices.now answers.old).verdict }
    ensures cells_after { cells.new ≡ (Entries.run text.now cells.old choices.now answers.old).cells }
    ensures answers_after { answers.new ≡ (Entries.run text.now cells.old choices.now answers.old).answers }
{
    crate::verdict_of(ran(text, cells, choices, answers))
}
