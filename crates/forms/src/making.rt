// New objects and new calls: `new` and `call`. What they ask of the cells stays in clauses: a struct that lent the cells would owe it anew after
// each write.
ghost use Rattle.std.specs.Prelude.{true, List, ◌≡◌, ℕ, ◌<◌, ◌≤◌, ℤ, length};
ghost use Rattle.layout.specs.Layout as Layout;
ghost use Rattle.layout.specs.Stages as Stages;
ghost use Rattle.cells.specs.Standing.{Standing};
ghost use Rattle.whole.specs.Whole.{Worked};
ghost use Rattle.code.specs.Vocabulary.Answers as Answers;
ghost use Rattle.model.specs.Model.{Model};
ghost use Rattle.rules.specs.Exec as Exec;
ghost use Rattle.rules.specs.Next as Next;
ghost use Rattle.forms.specs.Vocabulary.Done.{Done};

use crate::Running;
use code::Arguments;
use layout::writers::NewCall;
use layout::{ObjectNumber, stages, writers};
use terms::Variable;
use whole::refusals::Refusal;

// The next object, of a class, with a running label and its attributes.
#[tactic(auto, using(crate::proofs::MakingLaws::object_added))]
fn with_object(cells: &mut [i32], class: u8, label: u8, attributes: &[i32; 8])
    requires { Stages.objects_in_use cells.old < Layout.object_rows }
    ensures { (zs : List ℤ) → attributes.now ≡ Layout.padded Layout.most_attributes zs → cells.new ≡ Layout.written cells.old (Exec.with_object cells.old class label zs) }
{
    let next = layout::objects_in_use(cells) as u8 + 1;
    writers::to_objects(cells, next);
    writers::new_object(cells, ObjectNumber(next), class, label, attributes)
}

// The next label: its stage, caller, callee and method, the number of its arguments, and its locals.
#[tactic(auto, using(crate::proofs::MakingLaws::call_added))]
fn with_call(cells: &mut [i32], call: NewCall, locals: &[i32; 8])
    requires { Stages.rows_in_use cells.old < Layout.call_rows }
    ensures { (zs : List ℤ) → locals.now ≡ Layout.padded Layout.most_locals zs → call.args ≡ length zs → cells.new ≡ Layout.written cells.old (Exec.with_call cells.old call.stage call.caller call.callee call.method zs) }
{
    let next = layout::rows_in_use(cells) as u8 + 1;
    writers::to_calls(cells, next);
    writers::new_call(cells, u32::from(next), call, locals)
}

// "Where the class has run 1 it also issues the next label: caller 0, method 0, stage 4, running there."
fn with_running(cells: &mut [i32], class: u8, attributes: &[i32; 8])
    requires objects_within { Stages.objects_in_use cells.old < Layout.object_rows }
    requires calls_within { Stages.rows_in_use cells.old < Layout.call_rows }
    requires all_cells { length cells.old ≡ Layout.all_cells }
    ensures { (m : Model) (o l : ℕ) (st : Standing) (zs : List ℤ) → Exec.class_runs m class ≡ true → attributes.now ≡ Layout.padded Layout.most_attributes zs → cells.new ≡ Layout.written cells.old (Exec.made m cells.old o l st class zs) }
{
    let object = layout::objects_in_use(cells) as u8 + 1;
    let label = layout::rows_in_use(cells) as u8 + 1;
    with_object(cells, class, label, attributes);
    let call = NewCall {
        stage: stages::RUNNING,
        caller: 0,
        callee: object,
        method: 0,
        args: 0,
    };
    with_call(cells, call, &[0; 8])
}

// "`new` makes the next object, arguments in its first attributes, and stores its number in X."
#[tactic(auto, using(crate::proofs::MakingLaws::number_fits))]
fn created(
    cells: &mut [i32],
    running: Running,
    x: Variable,
    class: u8,
    runs: bool,
    attributes: [i32; 8],
) -> Result<(), Refusal>
    requires all_cells { length cells.old ≡ Layout.all_cells }
    ensures { (m : Model) (st : Standing) (zs : List ℤ) → st.at ≡ running.line → Exec.class_runs m class ≡ runs → attributes ≡ Layout.padded Layout.most_attributes zs → Done cells.old (Exec.created m cells.old running.here.object.0 running.here.label.0 st x class zs) result cells.new }
{
    let objects = layout::objects_in_use(cells);
    if objects >= layout::OBJECT_ROWS as usize {
        return Err(Refusal::ObjectRowsFull);
    }
    if runs {
        if layout::rows_in_use(cells) >= layout::CALL_ROWS as usize {
            return Err(Refusal::CallRowsFull);
        }
        with_running(cells, class, &attributes);
    } else {
        with_object(cells, class, 0, &attributes);
    }
    crate::assigned(cells, running, x, objects as i32 + 1)
}

// "`call` issues the next label: caller this object, callee the value of E, method J, arguments in v0 on, stage 1. X gets the label."
#[tactic(auto, using(crate::proofs::MakingLaws::number_fits))]
fn issued(
    cells: &mut [i32],
    running: Running,
    x: Variable,
    z: i32,
    method: u8,
    args: u8,
    locals: [i32; 8],
) -> Result<(), Refusal>
    requires objects_within { Stages.objects_in_use cells.old ≤ Layout.object_rows }
    ensures { (m : Model) (st : Standing) (zs : List ℤ) → st.at ≡ running.line → locals ≡ Layout.padded Layout.most_locals zs → args ≡ length zs → Done cells.old (Exec.issued m cells.old running.here.object.0 running.here.label.0 st x z method zs) result cells.new }
{
    let to = layout::object_of(cells, z).ok_or(Refusal::CalleeNoObject)?;
    let rows = layout::rows_in_use(cells);
    if rows >= layout::CALL_ROWS as usize {
        return Err(Refusal::CallRowsFull);
    }
    let call = NewCall {
        stage: stages::INVOKED,
        caller: running.here.object.0,
        callee: to.0,
        method,
        args,
    };
    with_call(cells, call, &locals);
    crate::assigned(cells, running, x, rows as i32 + 1)
}

// A `new`, once its arguments are worked out; the class runs or not.
pub fn creating(
    cells: &mut [i32],
    running: Running,
    x: Variable,
    class: u8,
    runs: bool,
    arguments: Arguments,
) -> Result<(), Refusal>
    requires all_cells { length cells.old ≡ Layout.all_cells }
    ensures { (m : Model) (st : Standing) (ws : List Worked) → st.at ≡ running.line → Exec.class_runs m class ≡ runs → arguments ≡ Answers.gathered Answers.no_arguments ws → Done cells.old (Next.working_all ws (Exec.created m cells.old running.here.object.0 running.here.label.0 st x class)) result cells.new }
{
    let attributes = arguments.values.ok().ok_or(Refusal::OutOfRange)?;
    created(cells, running, x, class, runs, attributes)
}

// A `call`, once its callee and its arguments are worked out.
pub fn calling(
    cells: &mut [i32],
    running: Running,
    x: Variable,
    callee: Option<i32>,
    method: u8,
    arguments: Arguments,
) -> Result<(), Refusal>
    requires count_bound { arguments.count < 5 }
    requires objects_within { Stages.objects_in_use cells.old ≤ Layout.object_rows }
    ensures { (m : Model) (st : Standing) (ws : List Worked) → st.at ≡ running.line → arguments ≡ Answers.gathered Answers.no_arguments ws → Done cells.old (Next.working callee (λ z. Next.working_all ws (Exec.issued m cells.old running.here.object.0 running.here.label.0 st x z method))) result cells.new }
{
    let z = callee.ok_or(Refusal::OutOfRange)?;
    let locals = arguments.values.ok().ok_or(Refusal::OutOfRange)?;
    issued(cells, running, x, z, method, arguments.count as u8, locals)
}
