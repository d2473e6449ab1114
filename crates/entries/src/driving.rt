// "Drive. With a budget 0..10,000 of accepted steps: each time the first accepted choice" in an order of the kinds.
ghost use Rattle.std.specs.Prelude.{true, ◌≡◌, ◌≤◌};
ghost use Rattle.layout.specs.Layout as Layout;
ghost use Rattle.layout.specs.Stages as Stages;
ghost use Rattle.model.specs.Vocabulary.Known as Known;
ghost use Rattle.cells.specs.Configuration.{is_configuration};
ghost use Rattle.rules.specs.Kinds as Kinds;
ghost use Rattle.engine.specs.Entries as Entries;
ghost use Rattle.engine.specs.Drive as Drive;
ghost use Rattle.entries.specs.Vocabulary.Searched as Searched;

use lookup::program::Program;
use model::Rows;
use rules::{Choice, KINDS, Kind};
use text::Verdict;
use whole::refusals::Refusal;

// "With a budget 0..10,000"
const MOST_STEPS: u32 = 10000;

// What a drive gives.
#[derive(Clone, Copy)]
pub struct Drove {
    pub verdict: Verdict,
    pub steps: u32,
    pub quiet: bool,
}

// How many a kind has to choose from: exec the objects in use, the others the labels.
#[tactic(auto, unfolding(rules::specs::Kinds::in_use))]
fn in_use(cells: &[i32], kind: Kind) -> usize
    requires objects_bound { Stages.objects_in_use cells.now ≤ Layout.object_rows }
    requires calls_bound { Stages.rows_in_use cells.now ≤ Layout.call_rows }
    ensures value { result ≡ Kinds.in_use cells.now kind }
    ensures upper_bound { result ≤ Layout.call_rows }
{
    match kind {
        Kind::Exec => layout::objects_in_use(cells),
        Kind::Arrive | Kind::Bind | Kind::Start | Kind::Deliver => layout::rows_in_use(cells),
    }
}

// The first accepted choice of a kind, from 1 to a number, is performed; none, and nothing is written.
#[tactic(auto, using(crate::proofs::Searching::of_none))]
fn first_of(program: &Program<'_>, cells: &mut [i32], kind: Kind, count: usize) -> bool
    requires configuration { is_configuration (Known.model_of program.now.text) cells.old ≡ true }
    requires count_bound { count ≤ Layout.call_rows }
    ensures first { Searched.First (Known.model_of program.now.text) cells.old (Drive.choices_of kind count 1) result cells.new }
    ensures configuration { is_configuration (Known.model_of program.now.text) cells.new ≡ true }
{
    for n in 1..=count {
        let choice = Choice {
            kind: i32::from(kind),
            number: n as i32,
        };
        if crate::next(program, cells, choice).is_ok() {
            return true;
        }
    }
    false
}

// The first accepted choice in an order of the kinds is performed.
#[tactic(auto, using(crate::proofs::Searching::few_calls, crate::proofs::Searching::few_objects, crate::proofs::Searching::in_found, crate::proofs::Searching::in_none))]
fn first_in(program: &Program<'_>, cells: &mut [i32], order: &[Kind]) -> bool
    requires configuration { is_configuration (Known.model_of program.now.text) cells.old ≡ true }
    ensures first { Searched.First (Known.model_of program.now.text) cells.old (Drive.choices_in order.now cells.old) result cells.new }
    ensures configuration { is_configuration (Known.model_of program.now.text) cells.new ≡ true }
{
    for &kind in order {
        let count = in_use(cells, kind);
        if first_of(program, cells, kind, count) {
            return true;
        }
    }
    false
}

// Accepted steps up to a budget: how many were taken. "It ends at the budget or when none is accepted."
#[tactic(auto, using(crate::proofs::Searching::steps_done, crate::proofs::Searching::steps_end, crate::proofs::Searching::steps_onward))]
fn steps(program: &Program<'_>, cells: &mut [i32], order: &[Kind], budget: u32) -> u32
    requires configuration { is_configuration (Known.model_of program.now.text) cells.old ≡ true }
    ensures value { result ≡ (Drive.driven (Known.model_of program.now.text) order.now budget 0 cells.old).steps }
    ensures cells_after { cells.new ≡ (Drive.driven (Known.model_of program.now.text) order.now budget 0 cells.old).cells }
    ensures configuration { is_configuration (Known.model_of program.now.text) cells.new ≡ true }
{
    for taken in 0..budget {
        if !first_in(program, cells, order) {
            return taken;
        }
    }
    budget
}

// "quiet: yes exactly when no choice is accepted": asked of a copy of the cells.
#[tactic(auto, using(crate::proofs::Searching::all_there, crate::proofs::Searching::quiet_led))]
fn is_quiet(program: &Program<'_>, cells: &[i32]) -> bool
    requires configuration { is_configuration (Known.model_of program.now.text) cells.now ≡ true }
    ensures { result ≡ Drive.is_quiet (Known.model_of program.now.text) cells.now }
{
    let mut copy = [0; layout::ALL_CELLS];
    copy.copy_from_slice(cells);
    !first_in(program, &mut copy, &KINDS)
}

// A drive, or the verdict that refuses it: 14 before anything is written, and quiet told of the cells at the end. Any order of the kinds, as the
// definition takes one.
#[tactic(auto, using(crate::proofs::Drives::drive_done, crate::proofs::Drives::drive_over), unfolding(engine::specs::Entries::at_no_line, whole::specs::Vocabulary::Refusing::number_of))]
fn drive_in(text: &[u8], cells: &mut [i32], order: &[Kind], budget: u32) -> Result<Drove, Verdict>
    ensures verdict_value { (Searched.drove_of result).verdict ≡ (Entries.drive_in order.now text.now cells.old budget).verdict }
    ensures steps_value { (Searched.drove_of result).steps ≡ (Entries.drive_in order.now text.now cells.old budget).steps }
    ensures quiet_value { (Searched.drove_of result).quiet ≡ (Entries.drive_in order.now text.now cells.old budget).quiet }
    ensures cells_after { cells.new ≡ (Entries.drive_in order.now text.now cells.old budget).cells }
{
    let mut rows = Rows::new();
    let program = crate::on_configuration(text, &mut rows.table, &mut rows.shapes, cells)?;
    if budget > MOST_STEPS {
        return Err(Verdict::from(Refusal::BudgetTooLarge));
    }
    let steps = steps(&program, cells, order, budget);
    Ok(Drove {
        verdict: text::ACCEPTED,
        steps,
        quiet: is_quiet(&program, cells),
    })
}

// Drive in the document's order. "A refused drive gives 0 steps, not quiet."
#[tactic(auto, unfolding(engine::specs::Entries::drive))]
pub fn drive(text: &[u8], cells: &mut [i32], budget: u32) -> Drove
    ensures verdict_value { result.verdict ≡ (Entries.drive text.now cells.old budget).verdict }
    ensures steps_value { result.steps ≡ (Entries.drive text.now cells.old budget).steps }
    ensures quiet_value { result.quiet ≡ (Entries.drive text.now cells.old budget).quiet }
    ensures cells_after { cells.new ≡ (Entries.drive text.now cells.old budget).cells }
{
    drive_in(text, cells, &KINDS, budget).unwrap_or_else(|verdict| Drove {
        verdict,
        steps: 0,
        quiet: false,
    })
}
