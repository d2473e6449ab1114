// What every rule writes: a variable of a call, its line, an idle object.
ghost use Rattle.std.specs.Prelude.{◌≡◌, ◌<◌, ◌^◌, pos};
ghost use Rattle.layout.specs.Layout as Layout;
ghost use Rattle.rules.specs.Exec as Exec;

use layout::{Label, ObjectNumber, writers};
use terms::{Here, Variable};

// A value stored in a variable of a call.
#[tactic(auto, unfolding(rules::specs::Exec::stored))]
pub fn stored(cells: &mut [i32], here: Here, x: Variable, z: i32)
    ensures { cells.new ≡ Layout.written cells.old (Exec.stored cells.old here.object.0 here.label.0 x z) }
{
    match x {
        Variable::Attribute(i) => writers::to_object(
            cells,
            here.object,
            layout::ATTRIBUTE + u16::from(i),
            z,
        ),
        Variable::Local(i) => writers::to_call(cells, here.label, layout::LOCAL + u16::from(i), z),
    }
}

// The line that a call goes to.
pub fn to_line(cells: &mut [i32], l: Label, line: u32)
    requires { line < 2 ^ 31 }
    ensures { cells.new ≡ Layout.written cells.old (Layout.to_call cells.old l.0 Layout.line (pos line)) }
{
    writers::to_call(cells, l, layout::LINE, line as i32)
}

// The object is idle.
pub fn freed(cells: &mut [i32], o: ObjectNumber)
    ensures { cells.new ≡ Layout.written cells.old (Layout.to_object o.0 Layout.running_label (pos 0)) }
{
    writers::to_object(cells, o, layout::RUNNING_LABEL, 0)
}
