// The table of a text: rows of four numbers, by which later parts find its lines; and the shape of each code line. Every number of a text fits
// in 16 bits, and a table of such numbers is cleared in half the time.
// Flat, and no arrays of named rows: `row`, `put` and the others are public over a table of numbers and rows of any four, and the laws of `lookup`
// and `checking` speak of places in it (`row_at`).
ghost use Rattle.std.specs.Prelude.{◌≡◌, ◌<◌};
ghost use Rattle.model.specs.Vocabulary.Table as Table;

use crate::{Row, bounds};

// How many numbers the rows have together.
pub const SIZE: usize = 2628;

// How many code lines there may be, each with a shape.
pub const LINES: usize = 512;

// Where the rows of methods and of code lines begin: a row for each class stands before them, and one for each method of each class.
const FIRST_METHOD: usize = bounds::MOST_CLASSES as usize;

const METHODS: usize = bounds::MOST_METHODS as usize;

pub const FIRST_CODE: usize = FIRST_METHOD + METHODS * FIRST_METHOD;

// The last row, which is the model's own.
pub const MODEL: usize = FIRST_CODE + LINES;

// The four numbers of a row.
#[tactic(auto, unfolding(crate::specs::Vocabulary::Table::row_at))]
pub fn row(table: &[u16; SIZE], r: usize) -> Row
    requires row_bound { r < Table.rows }
    ensures { result ≡ Table.row_at table.now r }
{
    let at = r * 4;
    Row(
        u32::from(table[at]),
        u32::from(table[at + 1]),
        u32::from(table[at + 2]),
        u32::from(table[at + 3]),
    )
}

// How many classes the model has.
#[tactic(auto, unfolding(crate::specs::Vocabulary::Table::classes_in))]
pub fn classes(table: &[u16; SIZE]) -> u32
    ensures { result ≡ Table.classes_in table.now }
{
    row(table, MODEL).0
}

// Four numbers in the place of a row's.
#[tactic(auto, unfolding(crate::specs::Vocabulary::Table::put))]
pub fn put(table: &mut [u16; SIZE], r: usize, row: Row)
    requires row_bound { r < Table.rows }
    requires small { Table.Small row }
    ensures { table.new ≡ Table.put table.old r row }
{
    let at = r * 4;
    table[at] = row.0 as u16;
    table[at + 1] = row.1 as u16;
    table[at + 2] = row.2 as u16;
    table[at + 3] = row.3 as u16;
}

// The number of a method's row. The bounds of both numbers stay clauses: of a class and a method in one type each caller would say as much when
// it makes one.
pub fn method_place(class: u32, method: u32) -> usize
    requires class_bound { class < 16 }
    requires method_bound { method < 8 }
    ensures { result ≡ Table.method_row class method }
{
    FIRST_METHOD + METHODS * class as usize + method as usize
}

// A method's row.
pub fn method_row(table: &[u16; SIZE], class: u32, method: u32) -> Row
    requires class_bound { class < 16 }
    requires method_bound { method < 8 }
    ensures { result ≡ Table.row_at table.now (Table.method_row class method) }
{
    row(table, method_place(class, method))
}

// A code line's row, by the number of the line among all code lines.
pub fn code_row(table: &[u16; SIZE], line: u32) -> Row
    requires line_bound { line < 512 }
    ensures { result ≡ Table.row_at table.now (Table.code_row line) }
{
    row(table, FIRST_CODE + line as usize)
}
