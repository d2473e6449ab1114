// The cells of a configuration by named places: object numbers and labels, their fields, and whose reply is in.
#![tactic(auto)]

ghost use Rattle.std.specs.Prelude.{◌≡◌, ◌≤◌, pos, get_or};
ghost use Rattle.whole.specs.Whole as Whole;
ghost use Rattle.layout.specs.Layout as Layout;
ghost use Rattle.layout.specs.Stages as Stages;
ghost use Rattle.layout.specs.Vocabulary.Found as Found;

pub mod stages;
pub mod unused;
pub mod writers;

// "Object numbers and labels are counted apart, and neither stands in for the other." Each is made from a cell only after its test.
#[derive(Clone, Copy, Debug, PartialEq, Eq)]
pub struct ObjectNumber(pub u8);

#[derive(Clone, Copy, Debug, PartialEq, Eq)]
pub struct Label(pub u32);

/// "2,370 cells"
pub const ALL_CELLS: usize = 2370;

// "Cell 0: objects; cell 1: calls issued."
const OBJECTS: usize = 0;

const CALLS: usize = 1;

/// "Then 32 object rows of 10", "Then 128 call rows of 16".
pub const OBJECT_ROWS: u32 = 32;

pub const CALL_ROWS: u32 = 128;

// So many rows of so many cells, from a first cell on.
#[derive(Clone, Copy)]
struct Block {
    first: usize,
    rows: u32,
    width: u16,
    ghost near: { first ≤ 322 },
}

const OBJECT_BLOCK: Block = Block {
    first: 2,
    rows: OBJECT_ROWS,
    width: 10,
};

const CALL_BLOCK: Block = Block {
    first: 322,
    rows: CALL_ROWS,
    width: 16,
};

impl Block {
    // A row, from 1.
    #[tactic(auto, unfolding(crate::specs::Layout::is_row))]
    fn has_row(self, row: u32) -> bool
        ensures { result ≡ Layout.is_row self.rows row }
    {
        (1..=self.rows).contains(&row)
    }

    // The cell of a field in a row.
    #[tactic(auto, using(crate::proofs::Fields::field_past, crate::proofs::Fields::field_there, crate::proofs::Fields::row_past, crate::proofs::Laws::row_within), unfolding(crate::specs::Vocabulary::Found::field_cell))]
    fn cell(self, row: u32, field: u16) -> Option<usize>
        ensures { result ≡ Found.field_cell self.first self.rows self.width row field }
    {
        if self.has_row(row) && field < self.width {
            Some(self.first + (row - 1) as usize * usize::from(self.width) + usize::from(field))
        } else {
            None
        }
    }
}

// Fields of an object row: "class, running label, a0..a7". Numbers and no enum: `of_object`, `of_call` and their writers are public, promise
// something of every `u16`, and may not take a narrower type.
pub const CLASS: u16 = 0;

pub const RUNNING_LABEL: u16 = 1;

pub const ATTRIBUTE: u16 = 2;

// Fields of a call row: "stage, caller, callee, method, args, line (from 0), cleared, value, v0..v7".
pub const STAGE: u16 = 0;

pub const CALLER: u16 = 1;

pub const CALLEE: u16 = 2;

pub const METHOD: u16 = 3;

pub const ARGS: u16 = 4;

pub const LINE: u16 = 5;

pub const CLEARED: u16 = 6;

pub const VALUE: u16 = 7;

pub const LOCAL: u16 = 8;

// What stands in a cell that was found; one that is not there reads as 0.
#[tactic(auto, unfolding(crate::specs::Vocabulary::Found::held_at))]
fn cell(cells: &[i32], found: Option<usize>) -> i32
    ensures { result ≡ Found.held_at cells.now found }
{
    found.and_then(|at| cells.get(at)).copied().unwrap_or(0)
}

// The cell of a field of an object.
#[tactic(auto, unfolding(crate::specs::Layout::cell_of, crate::specs::Layout::stands, crate::specs::Vocabulary::Found::field_cell, crate::specs::Vocabulary::Found::placed))]
fn object_cell(o: ObjectNumber, field: u16) -> Option<usize>
    ensures { result ≡ Found.placed (Layout.object o.0 field) }
{
    OBJECT_BLOCK.cell(u32::from(o.0), field)
}

// A field of an object.
#[tactic(auto, using(crate::proofs::Fields::held_placed), unfolding(crate::specs::Layout::of_object))]
pub fn of_object(cells: &[i32], o: ObjectNumber, field: u16) -> i32
    ensures { result ≡ Layout.of_object cells.now o.0 field }
{
    cell(cells, object_cell(o, field))
}

// The row of a label. The cells say nothing of it; the definition takes them, as rows may be used again one day.
#[tactic(auto, unfolding(crate::specs::Layout::row_of, whole::specs::Plain::only_if))]
fn row_of(cells: &[i32], l: Label) -> Option<u32>
    ensures { result ≡ Layout.row_of cells.now l.0 }
{
    CALL_BLOCK.has_row(l.0).then_some(l.0)
}

// The cell of a field of a call.
#[tactic(auto, using(crate::proofs::Fields::call_at, crate::proofs::Fields::call_none), unfolding(crate::specs::Layout::cell_of, crate::specs::Layout::stands, crate::specs::Vocabulary::Found::call_placed, crate::specs::Vocabulary::Found::field_cell, crate::specs::Vocabulary::Found::placed))]
fn call_cell(cells: &[i32], l: Label, field: u16) -> Option<usize>
    ensures { result ≡ Found.call_placed cells.now l.0 field }
{
    CALL_BLOCK.cell(row_of(cells, l)?, field)
}

// A field of a call.
#[tactic(auto, using(crate::proofs::Fields::held_call), unfolding(crate::specs::Layout::of_call))]
pub fn of_call(cells: &[i32], l: Label, field: u16) -> i32
    ensures { result ≡ Layout.of_call cells.now l.0 field }
{
    cell(cells, call_cell(cells, l, field))
}

// "Cell 0: objects; cell 1: calls issued." Each count, field and writer has a public function of its own name, one line over what they share.
#[tactic(auto, using(whole::proofs::Ranges::handed), unfolding(crate::specs::Layout::cell_of, crate::specs::Layout::read, crate::specs::Layout::stands, crate::specs::Vocabulary::Found::held_at))]
pub fn objects(cells: &[i32]) -> i32
    ensures { result ≡ Layout.read cells.now Layout.objects }
{
    cell(cells, Some(OBJECTS))
}

#[tactic(auto, using(whole::proofs::Ranges::handed), unfolding(crate::specs::Layout::cell_of, crate::specs::Layout::read, crate::specs::Layout::stands, crate::specs::Vocabulary::Found::held_at))]
pub fn calls(cells: &[i32]) -> i32
    ensures { result ≡ Layout.read cells.now Layout.calls }
{
    cell(cells, Some(CALLS))
}

// The count in a cell.
#[tactic(auto, using(whole::proofs::Ranges::handed, whole::proofs::Ranges::nat_not, whole::proofs::Ranges::natural_is), unfolding(crate::specs::Vocabulary::Found::held_at, whole::specs::Whole::nat))]
fn count(cells: &[i32], at: usize) -> usize
    ensures { result ≡ Whole.nat (get_or cells.now at (pos 0)) }
{
    whole::as_natural(cell(cells, Some(at))).unwrap_or(0)
}

// How many objects, and how many call rows, are in use.
#[tactic(auto, unfolding(crate::specs::Layout::cell_of, crate::specs::Layout::read, crate::specs::Layout::stands, crate::specs::Stages::objects_in_use))]
pub fn objects_in_use(cells: &[i32]) -> usize
    ensures { result ≡ Stages.objects_in_use cells.now }
{
    count(cells, OBJECTS)
}

#[tactic(auto, unfolding(crate::specs::Layout::cell_of, crate::specs::Layout::read, crate::specs::Layout::stands, crate::specs::Stages::rows_in_use))]
pub fn rows_in_use(cells: &[i32]) -> usize
    ensures { result ≡ Stages.rows_in_use cells.now }
{
    count(cells, CALLS)
}

// A number from 1 to the count in a cell.
#[tactic(auto, using(whole::proofs::Ranges::handed), unfolding(crate::specs::Vocabulary::Found::held_at, whole::specs::Whole::between))]
fn is_counted(cells: &[i32], at: usize, z: i32) -> bool
    ensures { result ≡ Whole.between (pos 1) (get_or cells.now at (pos 0)) z }
{
    whole::between(1, cell(cells, Some(at)), z)
}

// A number as an object's in use, among so few that a byte holds them.
#[tactic(auto, using(crate::proofs::Numbers::counted_within, crate::proofs::Numbers::object_in_use, crate::proofs::Numbers::object_not_in_use), unfolding(crate::specs::Layout::cell_of, crate::specs::Layout::read, crate::specs::Layout::stands, crate::specs::Stages::object_of, crate::specs::Stages::objects_in_use, crate::specs::Vocabulary::Found::as_object))]
pub fn object_of(cells: &[i32], z: i32) -> Option<ObjectNumber>
    requires { Stages.objects_in_use cells.now ≤ 255 }
    ensures { result ≡ Found.as_object (Stages.object_of cells.now z) }
{
    // An `if`: with `then(|| ..)` the proof that the number fits a byte did not close.
    if is_counted(cells, OBJECTS, z) {
        Some(ObjectNumber(z as u8))
    } else {
        None
    }
}

// A number as a label in use.
#[tactic(auto, using(crate::proofs::Numbers::counted, crate::proofs::Numbers::label_in_use, crate::proofs::Numbers::label_not_in_use), unfolding(crate::specs::Layout::cell_of, crate::specs::Layout::read, crate::specs::Layout::stands, crate::specs::Stages::label_of, crate::specs::Vocabulary::Found::as_label))]
pub fn label_of(cells: &[i32], z: i32) -> Option<Label>
    ensures { result ≡ Found.as_label (Stages.label_of cells.now z) }
{
    is_counted(cells, CALLS, z).then(|| Label(z as u32))
}

// "of stage 6 whose caller is this object"
#[tactic(auto, using(whole::proofs::Ranges::handed), unfolding(crate::specs::Stages::is_reply))]
fn is_reply(cells: &[i32], o: ObjectNumber, l: Label) -> bool
    ensures { result ≡ Stages.is_reply cells.now o.0 l.0 }
{
    stages::in_stage(cells, l, stages::REPLIED)
        && whole::is_number(of_call(cells, l, CALLER), u32::from(o.0))
}

// "a label of stage 6 whose caller is this object"
#[tactic(auto, using(crate::proofs::Numbers::a_label, crate::proofs::Numbers::no_label), unfolding(crate::specs::Stages::reply_for, crate::specs::Vocabulary::Found::as_label, whole::specs::Plain::only_if))]
pub fn reply_for(cells: &[i32], o: ObjectNumber, z: i32) -> Option<Label>
    ensures { result ≡ Found.as_label (Stages.reply_for cells.now o.0 z) }
{
    label_of(cells, z).filter(|&l| is_reply(cells, o, l))
}
