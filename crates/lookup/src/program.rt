// A text that the judge has accepted, as the steps after it know it.
ghost use Rattle.std.specs.Prelude.{◌≡◌};
ghost use Rattle.model.specs.Vocabulary.Belonging.{Belongs};
ghost use Rattle.model.specs.Vocabulary.Known.{Known, model_of};
ghost use Rattle.model.specs.Vocabulary.Table as Rows;
ghost use Rattle.lookup.specs.Vocabulary.Programs as Programs;

use model::table;
use std::marker::Model;

/// The table of some text with an accepted model. In a clause it is the list of its numbers.
#[derive(Drop)]
pub struct Table<'t> {
    pub rows: &'t [u16; table::SIZE],
}

impl<'t> Model for Table<'t> {
    ghost Value = { Rows.Table };

    ghost view = { λ t. t.rows.now };

    ghost invariant = { λ t. Programs.Told t.rows.now };
}

/// An accepted text, with the table and the shapes that lead to its lines. In a clause it is the three of them.
#[derive(Drop)]
pub struct Program<'t> {
    pub text: &'t [u8],
    pub table: &'t [u16; table::SIZE],
    pub shapes: &'t [u8; table::LINES],
}

impl<'t> Model for Program<'t> {
    ghost Value = { Programs.Kept };

    ghost view = { λ p. record { text = p.text.now; table = p.table.now; shapes = p.shapes.now } };

    ghost invariant = { λ p. Known p.text.now p.table.now p.shapes.now };
}

impl<'t> Program<'t> {
    /// Its table, which belongs to the model of the text.
    #[tactic(auto, using(crate::proofs::Reading::told))]
    pub fn table(&self) -> Table<'t>
        ensures value { result ≡ self.now.table }
        ensures belongs { Belongs self.now.text result (model_of self.now.text) }
    {
        Table { rows: self.table }
    }
}
