// 11 in code: whether cells are a configuration of the model whose table this is. One pass, and no cell is trusted before its test.
#![tactic(auto)]

ghost use Rattle.std.specs.Prelude.{ℕ, true, false, ◌&&◌, ◌≡◌, ◌≤◌, ◌<◌, pos, length};
ghost use Rattle.whole.specs.Plain.{all_to};
ghost use Rattle.whole.specs.Whole as Whole;
ghost use Rattle.layout.specs.Layout as Layout;
ghost use Rattle.layout.specs.Stages as Stages;
ghost use Rattle.terms.specs.Bytes.{Text};
ghost use Rattle.model.specs.Model.{Model};
ghost use Rattle.model.specs.Vocabulary.Belonging.{Belongs};
ghost use Rattle.model.specs.Vocabulary.Known as Known;
ghost use Rattle.cells.specs.Configuration as Configuration;

use layout::{Label, ObjectNumber};
use lookup::program::{Program, Table};

pub mod calls;
pub mod objects;

// Whether a test holds of each number from one on and before another.
// Not written out where it is asked: its contract says of each number what `all` says of the iterator's calls.
fn all_between<F: Fn(u32) -> bool>(from: u32, end: u32, test: F) -> bool
    requires { (i : ℕ) → from ≤ i → i < end → F.pre test i }
    ensures each { result ≡ true → (i : ℕ) → from ≤ i → i < end → F.post test i true }
    ensures some { result ≡ false → (i : ℕ) × (from ≤ i) × (i < end) × F.post test i false }
{
    (from..end).all(test)
}

// What holds of each object in use.
fn all_objects(table: &Table<'_>, cells: &[i32], objects: usize) -> bool
    requires objects_bound { objects ≤ Layout.object_rows }
    ensures { (s : Text) (m : Model) → Belongs s table.now m → result ≡ all_to objects (Configuration.object_holds m cells.now) }
{
    all_between(1, objects as u32 + 1, |n| {
        objects::object_holds(table, cells, ObjectNumber(n as u8))
    })
}

// What holds of each call in use.
fn all_calls(program: &Program<'_>, cells: &[i32], calls: usize) -> bool
    requires calls_bound { calls ≤ Layout.call_rows }
    requires objects_within { Stages.objects_in_use cells.now ≤ Layout.object_rows }
    ensures { result ≡ all_to calls (Configuration.call_holds (Known.model_of program.now.text) cells.now) }
{
    all_between(
        1,
        calls as u32 + 1,
        |n| calls::call_holds(program, cells, Label(n)),
    )
}

// "objects 1..32, calls 1..128"
#[tactic(auto, using(whole::proofs::Ranges::handed))]
fn counts_hold(cells: &[i32]) -> bool
    ensures { result ≡ (Whole.between (pos 1) (pos Layout.object_rows) (Layout.read cells.now Layout.objects) && Whole.between (pos 1) (pos Layout.call_rows) (Layout.read cells.now Layout.calls)) }
{
    whole::between(1, layout::OBJECT_ROWS as i32, layout::objects(cells))
        && whole::between(1, layout::CALL_ROWS as i32, layout::calls(cells))
}

// Whether cells, as many as a configuration has, are one of the model.
#[tactic(auto, using(crate::proofs::Whole::counts_right, crate::proofs::Whole::counts_wrong, crate::proofs::Whole::few_calls, crate::proofs::Whole::few_objects), unfolding(cells::specs::Configuration::is_configuration))]
pub fn is_configuration(program: &Program<'_>, cells: &[i32]) -> bool
    requires all_cells { length cells.now ≡ Layout.all_cells }
    ensures { result ≡ Configuration.is_configuration (Known.model_of program.now.text) cells.now }
{
    if !counts_hold(cells) {
        return false;
    }
    layout::unused::unused_zero(cells)
        && all_objects(&program.table(), cells, layout::objects_in_use(cells))
        && all_calls(program, cells, layout::rows_in_use(cells))
}
