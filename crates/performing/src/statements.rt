// "exec O (kind 1): O's running call performs its line."
ghost use Rattle.std.specs.Prelude.{true, ◌≡◌, ◌≤◌, length};
ghost use Rattle.whole.specs.Whole.{Worked};
ghost use Rattle.layout.specs.Layout as Layout;
ghost use Rattle.layout.specs.Stages as Stages;
ghost use Rattle.terms.specs.Bytes.{Text};
ghost use Rattle.code.specs.Statements as Statements;
ghost use Rattle.code.specs.Vocabulary.Answers as Answers;
ghost use Rattle.model.specs.Model.{Model};
ghost use Rattle.model.specs.Vocabulary.Belonging.{Belongs};
ghost use Rattle.model.specs.Vocabulary.Known as Known;
ghost use Rattle.cells.specs.Configuration.{is_configuration};
ghost use Rattle.cells.specs.Standing as Stands;
ghost use Rattle.rules.specs.Exec as Exec;
ghost use Rattle.lookup.specs.Vocabulary.Found as Found;
ghost use Rattle.forms.specs.Vocabulary.Done.{Done};
ghost use Rattle.performing.specs.Vocabulary.Parts as Parts;

use code::{Arguments, Statement};
use forms::{Running, making};
use layout::ObjectNumber;
use lookup::program::{Program, Table};
use lookup::{Standing, lines};
use terms::Here;
use whole::refusals::Refusal;

// A line performed, its values worked out. The shapes are a slice, and no `Program`: what is asked of them is said of this line alone.
#[tactic(auto, using(lookup::proofs::Reading::goes_few), unfolding(crate::specs::Vocabulary::Parts::Small))]
fn performed(
    table: &Table<'_>,
    shapes: &[u8],
    cells: &mut [i32],
    here: Here,
    at: Standing,
    statement: Statement,
    arguments: Arguments,
) -> Result<(), Refusal>
    requires lined { Found.Lined shapes.now at }
    requires small { Parts.Small statement arguments }
    requires all_cells { length cells.old ≡ Layout.all_cells }
    requires objects_within { Stages.objects_in_use cells.old ≤ Layout.object_rows }
    ensures { (s : Text) (m : Model) (st : Stands.Standing) (w : Statements.Statement Worked Worked) → Belongs s table.now m → Parts.SameLine shapes.now at st → statement ≡ Answers.as_statement w → arguments ≡ Answers.arguments_of w → Done cells.old (Exec.performed m cells.old here.object.0 here.label.0 st w) result cells.new }
{
    let running = Running {
        here,
        line: at.line,
    };
    match statement {
        Statement::Skip | Statement::Fi => forms::onward(cells, running),
        Statement::Set(x, w) => forms::set_to(cells, running, x, w),
        Statement::New(x, class) => {
            let runs = lookup::class_runs(table, class);
            making::creating(cells, running, x, class as u8, runs, arguments)
        }
        Statement::Call(x, w, method) => making::calling(
            cells,
            running,
            x,
            w,
            method as u8,
            arguments,
        ),
        Statement::Get(x, y) => forms::took_reply(cells, running, x, y),
        Statement::Await(g) => forms::awaited(cells, running, g),
        Statement::If(w) | Statement::While(w) => forms::branched(
            cells,
            running,
            lines::goes_to(shapes, at),
            w,
        ),
        Statement::Else | Statement::Od => forms::jumped(cells, here, lines::goes_to(shapes, at)),
        Statement::Return(w) => forms::returned(cells, here, w),
    }
}

// The statement at the line of the object's running call.
#[tactic(auto, using(cells::proofs::Configured::configured, crate::proofs::Choosing::callee_in_use, crate::proofs::Choosing::few_objects, crate::proofs::Choosing::label_within, layout::proofs::Numbers::label_some, lookup::proofs::Reading::line_below, lookup::proofs::Reading::line_inside, lookup::proofs::Reading::some_classes, lookup::proofs::Reading::told, whole::proofs::Ranges::handed), unfolding(lookup::specs::Vocabulary::Found::StandingSaid))]
pub fn exec(program: &Program<'_>, cells: &mut [i32], o: ObjectNumber) -> Result<(), Refusal>
    requires configuration { is_configuration (Known.model_of program.now.text) cells.old ≡ true }
    ensures { Done cells.old (Exec.exec (Known.model_of program.now.text) cells.old o.0) result cells.new }
{
    let running = layout::of_object(cells, o, layout::RUNNING_LABEL);
    let label = layout::label_of(cells, running).ok_or(Refusal::ObjectIdle)?;
    let table = program.table();
    let shapes = program.shapes;
    let at = lookup::standing_of(&table, cells, label).ok_or(Refusal::PastTheEnd)?;
    let here = Here { object: o, label };
    let (statement, arguments) = lines::statement(
        program.text,
        program.table,
        cells,
        here,
        at,
    ).map_err(|_| Refusal::PastTheEnd)?;
    performed(&table, shapes, cells, here, at, statement, arguments)
}
