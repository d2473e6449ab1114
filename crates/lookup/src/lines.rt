// The line that a call stands at: its shape, where it goes to, and its statement with the values worked out.
ghost use Rattle.std.specs.Prelude.{◌≡◌, ◌+◌, ◌<◌, length, get_or};
ghost use Rattle.code.specs.Partners as Partners;
ghost use Rattle.code.specs.Vocabulary.Readers as Readers;
ghost use Rattle.model.specs.Vocabulary.Belonging.{value_in};
ghost use Rattle.model.specs.Vocabulary.Table as Table;
ghost use Rattle.lookup.specs.Vocabulary.Found as Found;

use crate::{Body, Standing};
use code::{ReadCode, partners, statements};
use model::{Row, table};
use terms::{Around, Here, Limits};

// The number of its shape. The shapes, here and below, are a slice with no length beside it.
pub fn shape(shapes: &[u8], at: Standing) -> u8
    requires { at.body.first + at.line < length shapes.now }
    ensures { result ≡ get_or shapes.now (at.body.first + at.line) 0 }
{
    shapes[at.body.first as usize + at.line as usize]
}

// The line that it goes to, by the shapes of all lines of its body.
#[tactic(auto, using(crate::proofs::Reading::goes_few), unfolding(crate::specs::Vocabulary::Found::shapes_at))]
pub fn goes_to(shapes: &[u8], at: Standing) -> u32
    requires { Found.Lined shapes.now at }
    ensures { result ≡ Partners.goes_to (Found.shapes_at shapes.now at.body) at.line }
{
    let Body { first, count, .. } = at.body;
    let first = first as usize;
    let lines = &shapes[first..first + count as usize];
    partners::goes_to(lines, at.line as usize) as u32
}

// Its statement: the bytes that its row leads to, read with the values worked out. It asks for the facts that it needs, and for no `Program`: of the
// text and the table nothing else has to be known.
#[tactic(auto, unfolding(crate::specs::Vocabulary::Found::around, model::specs::Vocabulary::Belonging::value_in))]
pub fn statement(
    text: &[u8],
    table: &[u16; table::SIZE],
    cells: &[i32],
    here: Here,
    at: Standing,
) -> ReadCode
    requires table_nonzero { 0 < Table.classes_in table.now }
    requires line_bound { at.body.first + at.line < 512 }
    requires inside { Found.Inside text.now (Table.row_at table.now (Table.code_row (at.body.first + at.line))) }
    ensures { result ≡ Readers.statement_read cells.now (Found.around here at.body) (Table.classes_in table.now) (value_in text.now (Table.row_at table.now (Table.code_row (at.body.first + at.line)))) }
{
    let limits = Limits {
        attrs: at.body.attrs as usize,
        locals: at.body.locals as usize,
    };
    let Row(from, len, ..) = table::code_row(table, at.body.first + at.line);
    let from = from as usize;
    statements::statement(
        &text[from..from + len as usize],
        table::classes(table),
        cells,
        Around { limits, here },
    )
}
