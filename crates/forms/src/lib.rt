// The forms of a statement performed by an object's running call, all their values worked out. Each tests all before it writes.
#![tactic(auto)]

ghost use Rattle.std.specs.Prelude.{◌≡◌, ◌≤◌, ◌<◌};
ghost use Rattle.code.specs.Partners.{goes_to};
ghost use Rattle.cells.specs.Standing.{Standing, shapes_of};
ghost use Rattle.model.specs.Model.{Model};
ghost use Rattle.rules.specs.Exec as Exec;
ghost use Rattle.rules.specs.Next as Next;
ghost use Rattle.forms.specs.Vocabulary.Done.{Done};

use layout::{stages, writers};
use terms::{Here, Variable, values};
use whole::refusals::Refusal;

pub mod making;
pub mod writing;

/// The line that is performed: the object and its running call, and the number of the line in its method.
// Its forms are no methods, since each has the name of its definition (`forms::awaited` and `awaited`), and `jumped` and `returned` need no line.
#[derive(Clone, Copy)]
pub struct Running {
    pub here: Here,
    pub line: u32,
    ghost inside: { line < 64 },
}

// "An accepted line goes on to the next one unless said otherwise"
pub fn onward(cells: &mut [i32], running: Running) -> Result<(), Refusal>
    ensures { (m : Model) (st : Standing) → st.at ≡ running.line → Done cells.old (Next.moved (Exec.onward m cells.old running.here.object.0 running.here.label.0 st)) result cells.new }
{
    writing::to_line(cells, running.here.label, running.line + 1);
    Ok(())
}

// The line that a line of a block goes to.
pub fn jumped(cells: &mut [i32], here: Here, to: u32) -> Result<(), Refusal>
    requires { to ≤ 64 }
    ensures { (m : Model) (st : Standing) → goes_to (shapes_of st.body) st.at ≡ to → Done cells.old (Next.moved (Exec.jumped m cells.old here.object.0 here.label.0 st)) result cells.new }
{
    writing::to_line(cells, here.label, to);
    Ok(())
}

// "`set` stores."
pub fn assigned(cells: &mut [i32], running: Running, x: Variable, z: i32) -> Result<(), Refusal>
    ensures { (m : Model) (st : Standing) → st.at ≡ running.line → Done cells.old (Exec.assigned m cells.old running.here.object.0 running.here.label.0 st x z) result cells.new }
{
    writing::stored(cells, running.here, x, z);
    onward(cells, running)
}

// "`set` stores", once its value is worked out.
#[tactic(auto, using(crate::proofs::Written::done_with, crate::proofs::Written::worked_out_lem, whole::proofs::Ranges::handed), unfolding(rules::specs::Next::working))]
pub fn set_to(
    cells: &mut [i32],
    running: Running,
    x: Variable,
    w: Option<i32>,
) -> Result<(), Refusal>
    ensures { (m : Model) (st : Standing) → st.at ≡ running.line → Done cells.old (Next.working w (Exec.assigned m cells.old running.here.object.0 running.here.label.0 st x)) result cells.new }
{
    let z = w.ok_or(Refusal::OutOfRange)?;
    assigned(cells, running, x, z)
}

// "`get`: if X's value is a label of stage 6 whose caller is this object, Y gets its value and it goes to stage 7."
pub fn took_reply(
    cells: &mut [i32],
    running: Running,
    x: Variable,
    y: Variable,
) -> Result<(), Refusal>
    ensures { (m : Model) (st : Standing) → st.at ≡ running.line → Done cells.old (Exec.took_reply m cells.old running.here.object.0 running.here.label.0 st x y) result cells.new }
{
    let held = values::held(cells, running.here, x);
    let from = layout::reply_for(cells, running.here.object, held).ok_or(Refusal::ReplyNotIn)?;
    let z = layout::of_call(cells, from, layout::VALUE);
    writers::to_stage(cells, from, stages::TAKEN);
    assigned(cells, running, y, z)
}

// "guard enabled, go on and set cleared 0"
fn crossed(cells: &mut [i32], running: Running) -> Result<(), Refusal>
    ensures { (m : Model) (st : Standing) → st.at ≡ running.line → Done cells.old (Next.moved (Exec.crossed m cells.old running.here.object.0 running.here.label.0 st)) result cells.new }
{
    writers::to_call(cells, running.here.label, layout::CLEARED, 0);
    onward(cells, running)
}

// "Otherwise stage 3, cleared 1, object idle, line kept."
fn suspended(cells: &mut [i32], here: Here) -> Result<(), Refusal>
    ensures { (m : Model) (st : Standing) → Done cells.old (Next.moved (Exec.suspended m cells.old here.object.0 here.label.0 st)) result cells.new }
{
    writers::to_stage(cells, here.label, stages::BOUND);
    writers::to_call(cells, here.label, layout::CLEARED, 1);
    writing::freed(cells, here.object);
    Ok(())
}

// "`await`"
#[tactic(auto, using(crate::proofs::Written::tested_true), unfolding(rules::specs::Exec::awaited, rules::specs::Next::working))]
pub fn awaited(cells: &mut [i32], running: Running, g: Option<i32>) -> Result<(), Refusal>
    ensures { (m : Model) (st : Standing) → st.at ≡ running.line → Done cells.old (Next.working g (Exec.awaited m cells.old running.here.object.0 running.here.label.0 st)) result cells.new }
{
    let z = g.ok_or(Refusal::OutOfRange)?;
    if whole::is_true(z) {
        crossed(cells, running)
    } else {
        suspended(cells, running.here)
    }
}

// "`if` false goes to the line after its `else`", "`while` false to the line after its `od`"
#[tactic(auto, using(crate::proofs::Written::tested_true), unfolding(rules::specs::Exec::branched, rules::specs::Next::working))]
pub fn branched(cells: &mut [i32], running: Running, to: u32, w: Option<i32>) -> Result<(), Refusal>
    requires to_bound { to ≤ 64 }
    ensures { (m : Model) (st : Standing) → st.at ≡ running.line → goes_to (shapes_of st.body) st.at ≡ to → Done cells.old (Next.working w (Exec.branched m cells.old running.here.object.0 running.here.label.0 st)) result cells.new }
{
    let z = w.ok_or(Refusal::OutOfRange)?;
    if whole::is_true(z) {
        onward(cells, running)
    } else {
        jumped(cells, running.here, to)
    }
}

// "goes to stage 5, or to 7 where caller is 0"
#[tactic(auto, using(crate::proofs::Written::is_zero, crate::proofs::Written::is_other), unfolding(rules::specs::Exec::stage_returned))]
fn stage_returned(cells: &[i32], here: Here) -> u8
    ensures { (m : Model) (st : Standing) → result ≡ Exec.stage_returned m cells.now here.object.0 here.label.0 st }
{
    if layout::of_call(cells, here.label, layout::CALLER) == 0 {
        stages::TAKEN
    } else {
        stages::ANSWERED
    }
}

// "`return` stores the value, frees the object"
pub fn returned(cells: &mut [i32], here: Here, w: Option<i32>) -> Result<(), Refusal>
    ensures { (m : Model) (st : Standing) → Done cells.old (Next.working w (Exec.returned m cells.old here.object.0 here.label.0 st)) result cells.new }
{
    let z = w.ok_or(Refusal::OutOfRange)?;
    let stage = stage_returned(cells, here);
    writers::to_call(cells, here.label, layout::VALUE, z);
    writers::to_stage(cells, here.label, stage);
    writing::freed(cells, here.object);
    Ok(())
}
