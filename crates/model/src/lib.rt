// The verdict on a model text, and the table that later parts find its lines by.
#![tactic(auto)]

ghost use Rattle.std.specs.Prelude.{◌≡◌, ◌≤◌, ◌<◌};
ghost use Rattle.model.specs.Vocabulary.Table as Table;

pub mod bounds;
pub mod classes;
pub mod code_lines;
pub mod creations;
pub mod judging;
pub mod methods;
pub mod table;

// The class being read: how many classes there are, its index, its attributes, and whether it runs.
#[derive(Clone, Copy, Debug, PartialEq, Eq)]
pub struct ClassHead {
    pub classes: u32,
    pub index: u32,
    pub attrs: u32,
    pub run: u32,
    ghost within: { (index < classes) × (classes ≤ 16) },
}

// The method being read: how many classes there are, what its variables are below, how many code lines it has, and the number of the first
// of them among those of all methods.
#[derive(Clone, Copy, Debug, PartialEq, Eq)]
pub struct MethodHead {
    pub classes: u32,
    pub attrs: u32,
    pub locals: u32,
    pub count: u32,
    pub first: u32,
    ghost within: { (0 < classes) × (classes ≤ 16) },
}

// What a code value is: its shape, the open blocks after it, and its `new` as one number. The blocks are one number, as `code` promises them,
// and a `new` is one too, since a row has one place left for it.
#[derive(Clone, Copy, Debug, PartialEq, Eq)]
pub struct Stated {
    pub shape: u8,
    pub blocks: u32,
    pub new: u16,
}

// A row of the table: four numbers.
#[derive(Clone, Copy, Debug, PartialEq, Eq)]
pub struct Row(pub u32, pub u32, pub u32, pub u32);

/// What is kept of a text while it is judged, in memory of the entry's own: the rows of its table, and the shape of each code line.
#[derive(Drop)]
pub struct Rows {
    pub table: [u16; table::SIZE],
    pub shapes: [u8; table::LINES],
}

impl Rows {
    /// No row written yet. By value: a call of its own would copy the rows.
    #[inline(always)]
    #[tactic(auto, unfolding(crate::specs::Vocabulary::Table::no_rows, crate::specs::Vocabulary::Table::no_shapes))]
    pub fn new() -> Rows
        ensures table { result.table ≡ Table.no_rows }
        ensures shapes { result.shapes ≡ Table.no_shapes }
    {
        Rows {
            table: [0; table::SIZE],
            shapes: [0; table::LINES],
        }
    }
}
