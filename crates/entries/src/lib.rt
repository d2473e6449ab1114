// The entries start, step, run and drive: the text judged first, then 10, then (start excepted) 11, then 13 or 14, then the choice.
#![tactic(auto)]

ghost use Rattle.std.specs.Prelude.{◌≡◌, ◌≢◌, true, length, IfOk, OnOk, IfErr};
ghost use Rattle.whole.specs.Refusals as Refusals;
ghost use Rattle.layout.specs.Layout as Layout;
ghost use Rattle.model.specs.Judge as Judge;
ghost use Rattle.model.specs.Vocabulary.Known as Known;
ghost use Rattle.cells.specs.Configuration.{is_configuration};
ghost use Rattle.cells.specs.Fresh.{fresh};
ghost use Rattle.rules.specs.Step as Step;
ghost use Rattle.forms.specs.Vocabulary.Done.{Done};
ghost use Rattle.engine.specs.Entries as Entries;
ghost use Rattle.entries.specs.Vocabulary.Checked as Checked;

use layout::writers::NewCall;
use layout::{ObjectNumber, stages, writers};
use lookup::program::Program;
use model::{Rows, judging, table};
use rules::Choice;
use text::Verdict;
use whole::refusals::Refusal;

pub mod driving;
pub mod running;

// The verdict of an entry that was refused, or was not.
#[tactic(auto, unfolding(engine::specs::Entries::at_no_line))]
fn verdict_of<T: Drop>(outcome: Result<T, Verdict>) -> Verdict
    ensures { result ≡ Checked.verdict_of outcome }
{
    outcome.err().unwrap_or(text::ACCEPTED)
}

// "Start writes: one object of class 0, attributes 0, running label 1; call 1 with caller 0, callee 1, method 0, stage 4, the rest 0."
fn write_fresh(cells: &mut [i32])
    requires { length cells.old ≡ Layout.all_cells }
    ensures { cells.new ≡ fresh }
{
    cells.fill(0);
    writers::to_objects(cells, 1);
    writers::to_calls(cells, 1);
    let none = [0; 8];
    writers::new_object(cells, ObjectNumber(1), 0, 1, &none);
    let call = NewCall {
        stage: stages::RUNNING,
        caller: 0,
        callee: 1,
        method: 0,
        args: 0,
    };
    writers::new_call(cells, 1, call, &none)
}

// One choice of a configuration, which stays one.
fn next(program: &Program<'_>, cells: &mut [i32], choice: Choice) -> Result<(), Refusal>
    requires configuration { is_configuration (Known.model_of program.now.text) cells.old ≡ true }
    ensures done { Done cells.old (Step.next (Known.model_of program.now.text) cells.old choice) result cells.new }
    ensures configuration { is_configuration (Known.model_of program.now.text) cells.new ≡ true }
{
    // a field is named, so that the proof knows of the program that its text is accepted
    let _text = program.text;
    performing::next(program, cells, choice)
}

// The text, then 10: the table and the shapes that belong to it, or the verdict that every entry then gives.
#[tactic(auto, using(crate::proofs::Outcomes::not_all), unfolding(engine::specs::Entries::at_no_line, whole::specs::Vocabulary::Refusing::number_of))]
fn on_model(
    text: &[u8],
    table: &mut [u16; table::SIZE],
    shapes: &mut [u8; table::LINES],
    cells: &[i32],
) -> Result<(), Verdict>
    ensures refused { IfErr result (Checked.Refuses (Entries.on_model text.now cells.now) cells.now) }
    ensures goes_on { OnOk result (Checked.GoesOn (Entries.on_model text.now cells.now) (Known.model_of text.now)) }
    ensures all { OnOk result (length cells.now ≡ Layout.all_cells) }
    ensures known { OnOk result (Known.Known text.now table.new shapes.new) }
{
    judging::read(text, table, shapes)?;
    if cells.len() != layout::ALL_CELLS {
        return Err(Verdict::from(Refusal::CellsNotAll));
    }
    Ok(())
}

// Then 11.
#[tactic(auto, using(crate::proofs::Outcomes::configured, crate::proofs::Outcomes::not_configured), unfolding(engine::specs::Entries::at_no_line, whole::specs::Vocabulary::Refusing::number_of))]
fn on_configuration<'t>(
    text: &'t [u8],
    table: &'t mut [u16; table::SIZE],
    shapes: &'t mut [u8; table::LINES],
    cells: &[i32],
) -> Result<Program<'t>, Verdict>
    ensures refused { IfErr result (Checked.Refuses (Entries.on_configuration text.now cells.now) cells.now) }
    ensures goes_on { IfOk result (λ program. Checked.GoesOn (Entries.on_configuration text.now cells.now) (Known.model_of program.text)) }
    ensures configuration { IfOk result (λ program. is_configuration (Known.model_of program.text) cells.now ≡ true) }
{
    on_model(text, table, shapes, cells)?;
    let program = Program {
        text,
        table,
        shapes,
    };
    if !checking::is_configuration(&program, cells) {
        return Err(Verdict::from(Refusal::NoConfiguration));
    }
    Ok(program)
}

/// Start, with the table and the shapes in memory that is lent: of an accepted text they serve the steps after it.
pub fn start_in(
    text: &[u8],
    table: &mut [u16; table::SIZE],
    shapes: &mut [u8; table::LINES],
    cells: &mut [i32],
) -> Result<(), Verdict>
    ensures value { Checked.verdict_of result ≡ (Entries.start text.now cells.old).verdict }
    ensures refused { IfErr result (λ v. v.number ≢ Refusals.accepted) }
    ensures accepted { OnOk result (Judge.judged text.now ≡ Judge.model (Known.model_of text.now)) }
    ensures known { OnOk result (Known.Known text.now table.new shapes.new) }
    ensures configuration { OnOk result (is_configuration (Known.model_of text.now) cells.new ≡ true) }
    ensures cells_after { cells.new ≡ (Entries.start text.now cells.old).cells }
{
    on_model(text, table, shapes, cells)?;
    write_fresh(cells);
    Ok(())
}

/// The same, and the program of an accepted text, which holds what was lent.
pub fn start_program<'t>(
    text: &'t [u8],
    table: &'t mut [u16; table::SIZE],
    shapes: &'t mut [u8; table::LINES],
    cells: &mut [i32],
) -> Result<Program<'t>, Verdict>
    ensures value { Checked.verdict_of result ≡ (Entries.start text.now cells.old).verdict }
    ensures refused { IfErr result (λ v. v.number ≢ Refusals.accepted) }
    ensures accepted { OnOk result (Judge.judged text.now ≡ Judge.model (Known.model_of text.now)) }
    ensures of_text { IfOk result (λ program. program.text ≡ text.now) }
    ensures configuration { OnOk result (is_configuration (Known.model_of text.now) cells.new ≡ true) }
    ensures cells_after { cells.new ≡ (Entries.start text.now cells.old).cells }
{
    start_in(text, table, shapes, cells)?;
    Ok(Program {
        text,
        table,
        shapes,
    })
}

// Start: every cell is written, whatever it held.
pub fn start(text: &[u8], cells: &mut [i32]) -> Verdict
    ensures value { result ≡ (Entries.start text.now cells.old).verdict }
    ensures cells_after { cells.new ≡ (Entries.start text.now cells.old).cells }
{
    let mut rows = Rows::new();
    verdict_of(start_in(text, &mut rows.table, &mut rows.shapes, cells))
}

// A step that is refused, or is taken.
fn stepped(text: &[u8], cells: &mut [i32], choice: Choice) -> Result<(), Verdict>
    ensures value { Checked.verdict_of result ≡ (Entries.step text.now cells.old choice).verdict }
    ensures cells_after { cells.new ≡ (Entries.step text.now cells.old choice).cells }
{
    let mut rows = Rows::new();
    let program = on_configuration(text, &mut rows.table, &mut rows.shapes, cells)?;
    next(&program, cells, choice)?;
    Ok(())
}

// Step: one choice, whose answer is the entry's own.
pub fn step(text: &[u8], cells: &mut [i32], choice: Choice) -> Verdict
    ensures value { result ≡ (Entries.step text.now cells.old choice).verdict }
    ensures cells_after { cells.new ≡ (Entries.step text.now cells.old choice).cells }
{
    verdict_of(stepped(text, cells, choice))
}
