// What variables, replies and guards are worth in the cells that are lent.
ghost use Rattle.std.specs.Prelude.{◌≡◌, pos, Some};
ghost use Rattle.whole.specs.Whole.{truth};
ghost use Rattle.layout.specs.Layout as Layout;
ghost use Rattle.terms.specs.Vocabulary.Answers.{surroundings};
ghost use Rattle.terms.specs.Values as Values;

use crate::{Here, Junction, Variable};

// A variable's cell: an attribute of the object, or a local of the call.
#[tactic(auto, unfolding(crate::specs::Values::held, crate::specs::Vocabulary::Answers::surroundings))]
pub fn held(cells: &[i32], here: Here, x: Variable) -> i32
    ensures { result ≡ Values.held (surroundings cells.now here) x }
{
    match x {
        Variable::Attribute(i) => layout::of_object(
            cells,
            here.object,
            layout::ATTRIBUTE + u16::from(i),
        ),
        Variable::Local(i) => layout::of_call(cells, here.label, layout::LOCAL + u16::from(i)),
    }
}

// `self` and `caller`.
pub fn itself(here: Here) -> Option<i32>
    ensures { result ≡ Some (pos here.object.0) }
{
    Some(i32::from(here.object.0))
}

pub fn caller(cells: &[i32], here: Here) -> Option<i32>
    ensures { result ≡ Some (Layout.of_call cells.now here.label.0 Layout.caller) }
{
    Some(layout::of_call(cells, here.label, layout::CALLER))
}

// "`wait` is true exactly when cleared is 1"
#[tactic(auto, unfolding(crate::specs::Values::is_cleared, crate::specs::Vocabulary::Answers::surroundings))]
pub fn is_cleared(cells: &[i32], here: Here) -> bool
    ensures { result ≡ Values.is_cleared (surroundings cells.now here) }
{
    whole::is_number(layout::of_call(cells, here.label, layout::CLEARED), 1)
}

// `wait` as an atom of a guard.
pub fn waited(cells: &[i32], here: Here) -> Option<i32>
    ensures { result ≡ Some (truth (Values.is_cleared (surroundings cells.now here))) }
{
    Some(whole::truth(is_cleared(cells, here)))
}

// "`X?` is true as for `get`, but takes nothing"
#[tactic(auto, unfolding(crate::specs::Values::is_replied, crate::specs::Vocabulary::Answers::surroundings))]
pub fn is_replied(cells: &[i32], here: Here, x: Variable) -> bool
    ensures { result ≡ Values.is_replied (surroundings cells.now here) x }
{
    layout::reply_for(cells, here.object, held(cells, here, x)).is_some()
}

// An expression as an atom of a guard: 1 where it is true.
#[tactic(auto, unfolding(crate::specs::Values::tested))]
pub fn tested(w: Option<i32>) -> Option<i32>
    ensures { result ≡ Values.tested w }
{
    Some(whole::truth(whole::is_true(w?)))
}

// Two tests joined.
#[tactic(auto, unfolding(crate::specs::Values::junction))]
fn junction(j: Junction, left: bool, right: bool) -> bool
    ensures { result ≡ Values.junction j left right }
{
    match j {
        Junction::Both => left && right,
        Junction::Either => left || right,
    }
}

// Two guards joined. "All atoms are worked out."
#[tactic(auto, unfolding(crate::specs::Values::joined))]
pub fn joined(j: Junction, left: Option<i32>, right: Option<i32>) -> Option<i32>
    ensures { result ≡ Values.joined j left right }
{
    let (x, y) = (left?, right?);
    Some(whole::truth(junction(j, whole::is_true(x), whole::is_true(y))))
}
