// What must hold of an object in use.
ghost use Rattle.std.specs.Prelude.{◌≡◌};
ghost use Rattle.layout.specs.Layout as Layout;
ghost use Rattle.terms.specs.Bytes.{Text};
ghost use Rattle.model.specs.Model.{Model};
ghost use Rattle.model.specs.Vocabulary.Belonging.{Belongs};
ghost use Rattle.cells.specs.Configuration as Configuration;

use layout::{ObjectNumber, stages};
use lookup::program::Table;
use model::{Row, bounds, table};

// "attributes from attrs on are 0"
fn attributes_zero(cells: &[i32], o: ObjectNumber, from: u32) -> bool
    ensures { result ≡ Configuration.zero_from Layout.most_attributes from (λ i. Layout.of_object cells.now o.0 (Layout.attribute i)) }
{
    crate::all_between(from, bounds::MOST_ATTRIBUTES, |i| {
        whole::is_number(layout::of_object(cells, o, layout::ATTRIBUTE + i as u16), 0)
    })
}

// "an object's running label is 0 or a stage 4 call with that callee"
#[tactic(auto, using(layout::proofs::Numbers::label_none, layout::proofs::Numbers::label_some, whole::proofs::Ranges::handed), unfolding(cells::specs::Configuration::running_named))]
fn running_named(cells: &[i32], o: ObjectNumber) -> bool
    ensures { (m : Model) → result ≡ Configuration.running_named m cells.now o.0 }
{
    let label = layout::of_object(cells, o, layout::RUNNING_LABEL);
    if whole::is_number(label, 0) {
        return true;
    }
    let Some(l) = layout::label_of(cells, label) else {
        return false;
    };
    stages::in_stage(cells, l, stages::RUNNING)
        && whole::is_number(layout::of_call(cells, l, layout::CALLEE), u32::from(o.0))
}

// "each class exists; attributes from attrs on are 0"
#[tactic(auto, using(crate::proofs::Said::classless, crate::proofs::Said::object_classless))]
pub fn object_holds(table: &Table<'_>, cells: &[i32], o: ObjectNumber) -> bool
    ensures { (s : Text) (m : Model) → Belongs s table.now m → result ≡ Configuration.object_holds m cells.now o.0 }
{
    let Some(class) = lookup::class_of(table, cells, o) else {
        return false;
    };
    let Row(attrs, ..) = table::row(table.rows, class as usize);
    attributes_zero(cells, o, attrs) && running_named(cells, o)
}
