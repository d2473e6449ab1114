// Where an object and a call stand in the model, found in the table of its text in constant time.
#![tactic(auto)]

ghost use Rattle.std.specs.Prelude.{true, ◌≡◌, ◌≤◌, ◌<◌, pos, Some, IfSome, slice_get};
ghost use Rattle.whole.specs.Whole as Whole;
ghost use Rattle.layout.specs.Layout as Layout;
ghost use Rattle.layout.specs.Stages as Stages;
ghost use Rattle.terms.specs.Bytes.{Text};
ghost use Rattle.model.specs.Model as Model;
ghost use Rattle.model.specs.Vocabulary.Belonging.{Belongs};
ghost use Rattle.model.specs.Vocabulary.Table as Rows;
ghost use Rattle.cells.specs.Standing.{body_of};
ghost use Rattle.rules.specs.Exec.{class_runs};
ghost use Rattle.lookup.specs.Vocabulary.Found as Found;

use crate::program::Table;
use layout::{Label, ObjectNumber};
use model::{Row, table};

pub mod lines;
pub mod program;

// The body that binding finds: what its variables are below, how many code lines it has, and the number of the first of them among those of
// all methods.
#[derive(Clone, Copy)]
pub struct Body {
    pub attrs: u32,
    pub locals: u32,
    pub count: u32,
    pub first: u32,
}

// Where a call stands: its body, and the number of its line.
#[derive(Clone, Copy)]
pub struct Standing {
    pub body: Body,
    pub line: u32,
}

// The number in a cell, if it is one of the first so many, from 0.
#[tactic(auto, using(crate::proofs::Saying::index_is, crate::proofs::Saying::index_not))]
fn index_below(z: i32, count: u32) -> Option<u32>
    ensures { Found.IndexSaid z count result }
{
    let i = whole::as_natural(z)?;
    // An `if`: with `then(|| ..)` the proof did not close.
    if i < count as usize {
        Some(i as u32)
    } else {
        None
    }
}

// The class that a cell names.
#[tactic(auto, using(crate::proofs::Saying::class_said, crate::proofs::Saying::index_within, whole::proofs::Ranges::handed))]
fn class_at(table: &Table<'_>, z: i32) -> Option<u32>
    ensures said { (s : Text) (m : Model.Model) → Belongs s table.now m → Found.ClassSaid m z result }
    ensures within { IfSome result (λ k. k < Rows.classes_in table.now) }
{
    index_below(z, table::classes(table.rows))
}

// An object's class.
#[tactic(auto, using(whole::proofs::Ranges::handed))]
pub fn class_of(table: &Table<'_>, cells: &[i32], o: ObjectNumber) -> Option<u32>
    ensures said { (s : Text) (m : Model.Model) → Belongs s table.now m → Found.ClassSaid m (Layout.of_object cells.now o.0 Layout.class) result }
    ensures within { IfSome result (λ k. k < Rows.classes_in table.now) }
{
    class_at(table, layout::of_object(cells, o, layout::CLASS))
}

// A method of a class, if it takes so many arguments.
#[tactic(auto, using(crate::proofs::Saying::taken_said, whole::proofs::Ranges::handed))]
fn takes(table: &Table<'_>, class: u32, attrs: u32, method: u32, args: i32) -> Option<Body>
    requires class_bound { class < 16 }
    requires method_bound { method < 8 }
    ensures { (s : Text) (m : Model.Model) (k : Model.Class) (b : Model.Method) → Belongs s table.now m → slice_get m class ≡ Some k → slice_get k.methods method ≡ Some b → attrs ≡ k.attrs → Found.BodySaid table.now m (Found.taken b args) result }
{
    let Row(params, locals, count, first) = table::method_row(table.rows, class, method);
    whole::is_number(args, params).then_some(Body {
        attrs,
        locals,
        count,
        first,
    })
}

// "if the callee's class has the method with as many params as args": the method of a class.
#[tactic(auto, using(crate::proofs::Saying::class_few), unfolding(crate::specs::Vocabulary::Found::BodySaid))]
fn binds_to(table: &Table<'_>, class: u32, method: i32, args: i32) -> Option<Body>
    requires class_bound { class < Rows.classes_in table.now }
    ensures { (s : Text) (m : Model.Model) (k : Model.Class) → Belongs s table.now m → slice_get m class ≡ Some k → Found.BodySaid table.now m (Found.bound_to m class method args) result }
{
    let Row(attrs, _, _, methods) = table::row(table.rows, class as usize);
    let j = index_below(method, methods)?;
    takes(table, class, attrs, j, args)
}

// A call's body: the method that binding finds in its callee's class. That the callee is in use stays a clause, here and in `standing_of`: a struct
// for it would be made at each call of the two.
#[tactic(auto, using(crate::proofs::Saying::body_nowhere, crate::proofs::Saying::object_is, crate::proofs::Saying::object_missed, whole::proofs::Ranges::handed), unfolding(crate::specs::Vocabulary::Found::BodySaid))]
pub fn body_of(table: &Table<'_>, cells: &[i32], l: Label) -> Option<Body>
    requires objects_within { Stages.objects_in_use cells.now ≤ Layout.object_rows }
    requires callee_in_use { Whole.between (pos 1) (Layout.read cells.now Layout.objects) (Layout.of_call cells.now l.0 Layout.callee) ≡ true }
    ensures { (s : Text) (m : Model.Model) → Belongs s table.now m → Found.BodySaid table.now m (body_of m cells.now l.0) result }
{
    let callee = layout::object_of(cells, layout::of_call(cells, l, layout::CALLEE))?;
    let class = class_of(table, cells, callee)?;
    binds_to(
        table,
        class,
        layout::of_call(cells, l, layout::METHOD),
        layout::of_call(cells, l, layout::ARGS),
    )
}

// Where a call stands: its body, and the line inside it.
#[tactic(auto, using(crate::proofs::Saying::stands_nowhere, whole::proofs::Ranges::handed), unfolding(crate::specs::Vocabulary::Found::BodySaid, crate::specs::Vocabulary::Found::StandingSaid))]
pub fn standing_of(table: &Table<'_>, cells: &[i32], l: Label) -> Option<Standing>
    requires objects_within { Stages.objects_in_use cells.now ≤ Layout.object_rows }
    requires callee_in_use { Whole.between (pos 1) (Layout.read cells.now Layout.objects) (Layout.of_call cells.now l.0 Layout.callee) ≡ true }
    ensures { (s : Text) (m : Model.Model) → Belongs s table.now m → Found.StandingSaid table.now m cells.now l.0 result }
{
    let body = body_of(table, cells, l)?;
    let line = index_below(layout::of_call(cells, l, layout::LINE), body.count)?;
    Some(Standing { body, line })
}

// A class of the model has run 1; one that is not there has not.
#[tactic(auto, using(crate::proofs::Saying::runs_past, crate::proofs::Saying::runs_told))]
pub fn class_runs(table: &Table<'_>, class: u32) -> bool
    ensures { (s : Text) (m : Model.Model) → Belongs s table.now m → result ≡ class_runs m class }
{
    class < table::classes(table.rows) && table::row(table.rows, class as usize).2 == 1
}
