// What must hold of a call in use.
ghost use Rattle.std.specs.Prelude.{true, false, None, Some, ◌&&◌, ◌||◌, ◌≡◌, ◌≤◌, pos};
ghost use Rattle.whole.specs.Whole as Whole;
ghost use Rattle.layout.specs.Layout as Layout;
ghost use Rattle.layout.specs.Stages as Stages;
ghost use Rattle.terms.specs.Bytes.{Text};
ghost use Rattle.code.specs.Statements.{Code};
ghost use Rattle.code.specs.Blocks as Blocks;
ghost use Rattle.model.specs.Model.{Model, runs};
ghost use Rattle.model.specs.Vocabulary.Belonging.{Belongs};
ghost use Rattle.model.specs.Vocabulary.Known as Known;
ghost use Rattle.cells.specs.Configuration as Configuration;
ghost use Rattle.cells.specs.Standing as Standing;

use code::Shape;
use layout::{Label, ObjectNumber, stages};
use lookup::lines;
use lookup::program::{Program, Table};
use model::bounds;

// "method 0..7"
const LAST_METHOD: i32 = bounds::MOST_METHODS as i32 - 1;

// "args is 0..4"
const MOST_PARAMS: i32 = bounds::MOST_PARAMS as i32;

// "Stage is 1..7, caller 0..objects, callee 1..objects, method 0..7."
#[tactic(auto, using(whole::proofs::Ranges::handed), unfolding(cells::specs::Configuration::numbers_hold))]
fn numbers_hold(cells: &[i32], l: Label) -> bool
    ensures { (m : Model) → result ≡ Configuration.numbers_hold m cells.now l.0 }
{
    let objects = layout::objects(cells);
    stages::in_stages(cells, l, stages::INVOKED, stages::TAKEN)
        && whole::between(0, objects, layout::of_call(cells, l, layout::CALLER))
        && whole::between(1, objects, layout::of_call(cells, l, layout::CALLEE))
        && whole::between(0, LAST_METHOD, layout::of_call(cells, l, layout::METHOD))
}

// "each stage 4 call is its callee's running label"
#[tactic(auto, using(whole::proofs::Ranges::handed, whole::proofs::Tested::nat_of), unfolding(cells::specs::Configuration::named_by_callee))]
fn named_by_callee(cells: &[i32], o: ObjectNumber, l: Label) -> bool
    requires { Layout.of_call cells.now l.0 Layout.callee ≡ pos o.0 }
    ensures { (m : Model) → result ≡ Configuration.named_by_callee m cells.now l.0 }
{
    !stages::in_stage(cells, l, stages::RUNNING)
        || whole::is_number(layout::of_object(cells, o, layout::RUNNING_LABEL), l.0)
}

// "v cells from .. on are 0"
fn locals_zero(cells: &[i32], l: Label, from: u32) -> bool
    ensures { result ≡ Configuration.zero_from Layout.most_locals from (λ i. Layout.of_call cells.now l.0 (Layout.local i)) }
{
    crate::all_between(from, bounds::MOST_LOCALS, |i| {
        whole::is_number(layout::of_call(cells, l, layout::LOCAL + i as u16), 0)
    })
}

// "In stages 1 and 2 args is 0..4, v cells from args on and line are 0."
#[tactic(auto, using(whole::proofs::Both::both_right, whole::proofs::Ranges::handed), unfolding(cells::specs::Configuration::unbound_holds, whole::specs::Whole::between, whole::specs::Whole::nat))]
fn unbound_holds(cells: &[i32], l: Label) -> bool
    ensures { (m : Model) → result ≡ Configuration.unbound_holds m cells.now l.0 }
{
    let args = layout::of_call(cells, l, layout::ARGS);
    whole::between(0, MOST_PARAMS, args)
        && locals_zero(cells, l, args as u32)
        && whole::is_number(layout::of_call(cells, l, layout::LINE), 0)
        && whole::is_number(layout::of_call(cells, l, layout::CLEARED), 0)
}

// At a line of a shape: "Cleared .. is 1 only in stages 3 and 4 at an await line; in stage 3 with cleared 0 the line is 0. .. in 5 to 7 the
// line is a return."
#[tactic(auto, using(crate::proofs::AtLine::at_await, crate::proofs::AtLine::elsewhere, crate::proofs::AtLine::not_await, crate::proofs::AtLine::suspended, whole::proofs::Ranges::handed), unfolding(code::specs::Blocks::is_shape, code::specs::Blocks::shape_number))]
fn line_holds(cells: &[i32], l: Label, shape: Shape) -> bool
    ensures { (m : Model) (s : Code) → shape ≡ Blocks.shape_of s → result ≡ Configuration.line_holds m cells.now l.0 s }
{
    let cleared = layout::of_call(cells, l, layout::CLEARED);
    if whole::is_number(cleared, 1) {
        return shape == Shape::Await && stages::in_stages(cells, l, stages::BOUND, stages::RUNNING);
    }
    if whole::is_number(cleared, 0) && stages::in_stage(cells, l, stages::BOUND) {
        return whole::is_number(layout::of_call(cells, l, layout::LINE), 0);
    }
    !stages::in_stages(cells, l, stages::ANSWERED, stages::TAKEN) || shape == Shape::Return
}

// "From stage 3 the callee's class has the method, args is its params, line is inside it, v cells from locals on are 0."
#[tactic(auto, using(crate::proofs::Said::not_standing, crate::proofs::Said::standing, lookup::proofs::Reading::line_stands), unfolding(cells::specs::Configuration::bound_holds, lookup::specs::Vocabulary::Found::StandingSaid))]
fn bound_holds(program: &Program<'_>, cells: &[i32], l: Label) -> bool
    requires objects_within { Stages.objects_in_use cells.now ≤ Layout.object_rows }
    requires callee_in_use { Whole.between (pos 1) (Layout.read cells.now Layout.objects) (Layout.of_call cells.now l.0 Layout.callee) ≡ true }
    ensures { result ≡ Configuration.bound_holds (Known.model_of program.now.text) cells.now l.0 }
{
    let Some(at) = lookup::standing_of(&program.table(), cells, l) else {
        return false;
    };
    let shapes = program.shapes;
    let shape = Shape::from(lines::shape(shapes, at));
    locals_zero(cells, l, at.body.locals) && line_holds(cells, l, shape)
}

// "Caller 0 stands only in stages 3, 4 and 7, with method 0 of a class with run 1."
#[tactic(auto, using(whole::proofs::Ranges::handed, whole::proofs::Tested::nat_of), unfolding(cells::specs::Configuration::callerless_holds))]
fn callerless_holds(table: &Table<'_>, cells: &[i32], o: ObjectNumber, l: Label) -> bool
    requires callee { Layout.of_call cells.now l.0 Layout.callee ≡ pos o.0 }
    ensures { (s : Text) (m : Model) → Belongs s table.now m → result ≡ Configuration.callerless_holds m cells.now l.0 }
{
    if !whole::is_number(layout::of_call(cells, l, layout::CALLER), 0) {
        return true;
    }
    in_callerless_stage(cells, l)
        && whole::is_number(layout::of_call(cells, l, layout::METHOD), 0)
        && class_runs(table, cells, o)
}

// "a class with run 1": an object's class.
#[tactic(auto, using(crate::proofs::Said::classless, crate::proofs::Said::of_class, crate::proofs::Said::runs_classed, crate::proofs::Said::runs_classless), unfolding(lookup::specs::Vocabulary::Found::ClassSaid))]
fn class_runs(table: &Table<'_>, cells: &[i32], o: ObjectNumber) -> bool
    ensures { (s : Text) (m : Model) → Belongs s table.now m → result ≡ elim (Standing.class_of m cells.now o.0) [ None ↦ false | Some k ↦ runs k ] }
{
    // A match: the proof with `is_some_and` did not close.
    match lookup::class_of(table, cells, o) {
        None => false,
        Some(class) => lookup::class_runs(table, class),
    }
}

// "stages 3, 4 and 7"
fn in_callerless_stage(cells: &[i32], l: Label) -> bool
    ensures { result ≡ (Stages.in_stages cells.now l.0 Stages.bound Stages.running || Stages.in_stage cells.now l.0 Stages.taken) }
{
    stages::in_stages(cells, l, stages::BOUND, stages::RUNNING)
        || stages::in_stage(cells, l, stages::TAKEN)
}

// "Cleared is 0 or 1", "Value is 0 below stage 5"
#[tactic(auto, using(whole::proofs::Ranges::handed))]
fn marks_hold(cells: &[i32], l: Label) -> bool
    ensures { result ≡ (Whole.between (pos 0) (pos 1) (Layout.of_call cells.now l.0 Layout.cleared) && (Stages.in_stages cells.now l.0 Stages.answered Stages.taken || Configuration.is (Layout.of_call cells.now l.0 Layout.value) 0)) }
{
    whole::between(0, 1, layout::of_call(cells, l, layout::CLEARED))
        && (stages::in_stages(cells, l, stages::ANSWERED, stages::TAKEN)
            || whole::is_number(layout::of_call(cells, l, layout::VALUE), 0))
}

// From stage 3 on, and before it.
// The two clauses stay clauses: a struct that holds them would be made in `call_holds` and taken apart again in `bound_holds`.
#[tactic(auto, using(crate::proofs::InTurn::from_bound))]
fn stage_holds(program: &Program<'_>, cells: &[i32], l: Label) -> bool
    requires objects_within { Stages.objects_in_use cells.now ≤ Layout.object_rows }
    requires callee_in_use { Whole.between (pos 1) (Layout.read cells.now Layout.objects) (Layout.of_call cells.now l.0 Layout.callee) ≡ true }
    ensures { result ≡ elim (Stages.in_stages cells.now l.0 Stages.bound Stages.taken) [ true ↦ Configuration.bound_holds (Known.model_of program.now.text) cells.now l.0 | false ↦ Configuration.unbound_holds (Known.model_of program.now.text) cells.now l.0 ] }
{
    if stages::in_stages(cells, l, stages::BOUND, stages::TAKEN) {
        bound_holds(program, cells, l)
    } else {
        unbound_holds(cells, l)
    }
}

// All that must hold of a call in use.
#[tactic(auto, using(crate::proofs::InTurn::callee_found, crate::proofs::InTurn::callee_held, crate::proofs::InTurn::callee_in_use, crate::proofs::InTurn::in_turn, lookup::proofs::Saying::object_missed, whole::proofs::Ranges::handed), unfolding(cells::specs::Configuration::call_holds))]
pub fn call_holds(program: &Program<'_>, cells: &[i32], l: Label) -> bool
    requires objects_within { Stages.objects_in_use cells.now ≤ Layout.object_rows }
    ensures { result ≡ Configuration.call_holds (Known.model_of program.now.text) cells.now l.0 }
{
    if !numbers_hold(cells, l) {
        return false;
    }
    let Some(callee) = layout::object_of(cells, layout::of_call(cells, l, layout::CALLEE)) else {
        return false;
    };
    named_by_callee(cells, callee, l)
        && marks_hold(cells, l)
        && stage_holds(program, cells, l)
        && callerless_holds(&program.table(), cells, callee, l)
}
