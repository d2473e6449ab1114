// What happens to a call by its label: arrive, bind, start and deliver.
ghost use Rattle.std.specs.Prelude.{true, ◌≡◌, ◌≤◌, ◌<◌, ◌^◌, pos};
ghost use Rattle.whole.specs.Whole as Whole;
ghost use Rattle.whole.specs.Vocabulary.Refusing.{number_of};
ghost use Rattle.layout.specs.Layout as Layout;
ghost use Rattle.layout.specs.Stages as Stages;
ghost use Rattle.terms.specs.Bytes.{Text};
ghost use Rattle.model.specs.Model.{Model};
ghost use Rattle.model.specs.Vocabulary.Belonging.{Belongs};
ghost use Rattle.model.specs.Vocabulary.Known as Known;
ghost use Rattle.rules.specs.Messages as Messages;
ghost use Rattle.rules.specs.Next as Next;
ghost use Rattle.forms.specs.Vocabulary.Done.{Done};
ghost use Rattle.performing.specs.Vocabulary.Parts as Parts;

use code::Statement;
use layout::{Label, stages, writers};
use lookup::lines;
use lookup::program::{Program, Table};
use terms::Here;
use whole::refusals::Refusal;

// A call that goes from one stage to another, or the refusal of one that is not in the first. `arrive` and `deliver` are one line each
// over it: they keep the names of their rules.
fn moved_on(cells: &mut [i32], l: Label, from: u8, to: u8, refusal: Refusal) -> Result<(), Refusal>
    ensures { Done cells.old (Next.must (Stages.in_stage cells.old l.0 from) (number_of refusal) (Next.moved (Stages.staged cells.old l.0 to))) result cells.new }
{
    if !stages::in_stage(cells, l, from) {
        return Err(refusal);
    }
    writers::to_stage(cells, l, to);
    Ok(())
}

// "arrive L (2): stage 1 to 2."
#[tactic(auto, unfolding(rules::specs::Messages::arrive, whole::specs::Vocabulary::Refusing::number_of))]
pub fn arrive(cells: &mut [i32], l: Label) -> Result<(), Refusal>
    ensures { Done cells.old (Messages.arrive cells.old l.0) result cells.new }
{
    moved_on(
        cells,
        l,
        stages::INVOKED,
        stages::QUEUED,
        Refusal::NotInvoked,
    )
}

// "bind L (3): 2 to 3, if the callee's class has the method with as many params as args."
// What `bind`, `ready` and `start` ask of the cells stays in their clauses: a struct that lent the cells would owe it anew after each write.
pub fn bind(table: &Table<'_>, cells: &mut [i32], l: Label) -> Result<(), Refusal>
    requires objects_within { Stages.objects_in_use cells.old ≤ Layout.object_rows }
    requires callee_in_use { Whole.between (pos 1) (Layout.read cells.old Layout.objects) (Layout.of_call cells.old l.0 Layout.callee) ≡ true }
    ensures { (s : Text) (m : Model) → Belongs s table.now m → Done cells.old (Messages.bind m cells.old l.0) result cells.new }
{
    if !stages::in_stage(cells, l, stages::QUEUED) {
        return Err(Refusal::NotQueued);
    }
    lookup::body_of(table, cells, l).ok_or(Refusal::NoSuchMethod)?;
    writers::to_stage(cells, l, stages::BOUND);
    Ok(())
}

// Whether a call is ready at its statement: 1 where it is, 0 where it is not, or out of range. A value and no truth, as the definition has it: what
// is tested is the guard's.
#[tactic(auto, unfolding(crate::specs::Vocabulary::Parts::ready_said))]
fn ready_at(statement: Statement) -> Option<i32>
    ensures { result ≡ Parts.ready_said statement }
{
    match statement {
        Statement::Await(g) => g,
        _ => Some(1),
    }
}

// "A call is ready unless its line is an `await` whose guard is not enabled."
#[tactic(auto, using(crate::proofs::Choosing::ready_nowhere, lookup::proofs::Reading::line_below, lookup::proofs::Reading::line_inside, lookup::proofs::Reading::some_classes, lookup::proofs::Reading::told), unfolding(lookup::specs::Vocabulary::Found::StandingSaid))]
fn ready(program: &Program<'_>, cells: &[i32], here: Here) -> Option<i32>
    requires objects_within { Stages.objects_in_use cells.now ≤ Layout.object_rows }
    requires callee_in_use { Whole.between (pos 1) (Layout.read cells.now Layout.objects) (Layout.of_call cells.now here.label.0 Layout.callee) ≡ true }
    ensures { result ≡ Messages.ready (Known.model_of program.now.text) cells.now here.object.0 here.label.0 }
{
    let Some(at) = lookup::standing_of(&program.table(), cells, here.label) else {
        return Some(1);
    };
    match lines::statement(program.text, program.table, cells, here, at) {
        Err(_) => Some(1),
        Ok((statement, _)) => ready_at(statement),
    }
}

// The callee runs the call.
fn started(cells: &mut [i32], here: Here) -> Result<(), Refusal>
    requires { here.label.0 < 2 ^ 31 }
    ensures { Done cells.old (Next.moved (Messages.started cells.old here.object.0 here.label.0)) result cells.new }
{
    writers::to_stage(cells, here.label, stages::RUNNING);
    writers::to_object(
        cells,
        here.object,
        layout::RUNNING_LABEL,
        here.label.0 as i32,
    );
    Ok(())
}

// "start L (4): 3 to 4 in an idle callee."; "start tests 29 before 25".
#[tactic(auto, using(lookup::proofs::Saying::object_missed, whole::proofs::Ranges::handed))]
pub fn start(program: &Program<'_>, cells: &mut [i32], l: Label) -> Result<(), Refusal>
    requires objects_within { Stages.objects_in_use cells.old ≤ Layout.object_rows }
    requires callee_in_use { Whole.between (pos 1) (Layout.read cells.old Layout.objects) (Layout.of_call cells.old l.0 Layout.callee) ≡ true }
    requires label_bound { l.0 < 2 ^ 31 }
    ensures { Done cells.old (Messages.start (Known.model_of program.now.text) cells.old l.0) result cells.new }
{
    if !stages::in_stage(cells, l, stages::BOUND) {
        return Err(Refusal::NotBound);
    }
    let callee = layout::of_call(cells, l, layout::CALLEE);
    let object = layout::object_of(cells, callee).ok_or(Refusal::NotBound)?;
    if layout::of_object(cells, object, layout::RUNNING_LABEL) != 0 {
        return Err(Refusal::ObjectBusy);
    }
    let here = Here { object, label: l };
    let guard = ready(program, cells, here).ok_or(Refusal::OutOfRange)?;
    if !whole::is_true(guard) {
        return Err(Refusal::NotReady);
    }
    started(cells, here)
}

// "deliver L (5): 5 to 6."
#[tactic(auto, unfolding(rules::specs::Messages::deliver, whole::specs::Vocabulary::Refusing::number_of))]
pub fn deliver(cells: &mut [i32], l: Label) -> Result<(), Refusal>
    ensures { Done cells.old (Messages.deliver cells.old l.0) result cells.new }
{
    moved_on(
        cells,
        l,
        stages::ANSWERED,
        stages::REPLIED,
        Refusal::NotAnswered,
    )
}
