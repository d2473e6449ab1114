// Writers of cells by named places: each changes its own place alone, and nothing where there is no such place.
ghost use Rattle.std.specs.Prelude.{[], ◌∷◌, ◌++◌, ◌≡◌, ◌+◌, ◌≤◌, pos, length, set};
ghost use Rattle.layout.specs.Layout as Layout;
ghost use Rattle.layout.specs.Stages as Stages;
ghost use Rattle.layout.specs.Vocabulary.Found as Found;

use crate::{Block, CALL_BLOCK, Label, OBJECT_BLOCK, ObjectNumber};

// What the row of a new call holds beside its locals: the numbers that go to its cells, of any that fit a byte.
#[derive(Clone, Copy, Debug, PartialEq, Eq)]
pub struct NewCall {
    pub stage: u8,
    pub caller: u8,
    pub callee: u8,
    pub method: u8,
    pub args: u8,
}

// A value put in a cell that was found, if it is there. Not `get_mut`: the proof did not close, as after it nothing is known of the cells.
#[tactic(auto, using(crate::proofs::Fields::set_past), unfolding(crate::specs::Vocabulary::Found::put_at))]
fn put(cells: &mut [i32], found: Option<usize>, z: i32)
    ensures { cells.new ≡ Found.put_at cells.old found z }
{
    match found {
        Some(at) if at < cells.len() => cells[at] = z,
        _ => {}
    }
}

// A value for a field of an object.
#[tactic(auto, using(crate::proofs::Fields::put_placed), unfolding(crate::specs::Layout::to_object, crate::specs::Layout::written))]
pub fn to_object(cells: &mut [i32], o: ObjectNumber, field: u16, z: i32)
    ensures { cells.new ≡ Layout.written cells.old (Layout.to_object o.0 field z) }
{
    put(cells, crate::object_cell(o, field), z)
}

// A value for a field of a call.
#[tactic(auto, using(crate::proofs::Fields::put_call), unfolding(crate::specs::Layout::to_call, crate::specs::Layout::written))]
pub fn to_call(cells: &mut [i32], l: Label, field: u16, z: i32)
    ensures { cells.new ≡ Layout.written cells.old (Layout.to_call cells.old l.0 field z) }
{
    let found = crate::call_cell(cells, l, field);
    put(cells, found, z)
}

// Every change of a call's stage.
#[tactic(auto, unfolding(crate::specs::Layout::written, crate::specs::Stages::staged))]
pub fn to_stage(cells: &mut [i32], l: Label, stage: u8)
    ensures { cells.new ≡ Layout.written cells.old (Stages.staged cells.old l.0 stage) }
{
    to_call(cells, l, crate::STAGE, i32::from(stage))
}

// A count put in its cell.
#[tactic(auto, unfolding(crate::specs::Vocabulary::Found::put_at))]
fn to_count(cells: &mut [i32], at: usize, count: u8)
    ensures { cells.new ≡ set cells.old at (pos count) }
{
    put(cells, Some(at), i32::from(count))
}

// How many objects, and how many calls, there are from now on.
#[tactic(auto, unfolding(crate::specs::Layout::cell_of, crate::specs::Layout::stands, crate::specs::Layout::write, crate::specs::Layout::written))]
pub fn to_objects(cells: &mut [i32], count: u8)
    ensures { cells.new ≡ Layout.written cells.old ((Layout.objects, pos count) ∷ []) }
{
    to_count(cells, crate::OBJECTS, count)
}

#[tactic(auto, unfolding(crate::specs::Layout::cell_of, crate::specs::Layout::stands, crate::specs::Layout::write, crate::specs::Layout::written))]
pub fn to_calls(cells: &mut [i32], count: u8)
    ensures { cells.new ≡ Layout.written cells.old ((Layout.calls, pos count) ∷ []) }
{
    to_count(cells, crate::CALLS, count)
}

// The fields of a row put anew from one on.
#[tactic(auto, using(crate::proofs::Fields::length_put, crate::proofs::Fields::row_done, crate::proofs::Fields::row_more), unfolding(crate::specs::Vocabulary::Found::row_to))]
fn to_row(block: Block, cells: &mut [i32], row: u32, from: u16, values: &[i32])
    requires { from + length values.now ≤ 65535 }
    ensures { cells.new ≡ Found.row_to block.first block.rows block.width cells.old row from values.now }
{
    for (i, &z) in values.iter().enumerate() {
        put(cells, block.cell(row, from + i as u16), z);
    }
}

// A whole row put anew, by two parts of it.
#[tactic(auto, using(crate::proofs::Fields::row_append))]
fn new_row(block: Block, cells: &mut [i32], row: u32, head: &[i32], rest: &[i32])
    requires { length head.now + length rest.now ≤ 65535 }
    ensures { cells.new ≡ Found.row_to block.first block.rows block.width cells.old row 0 (head.now ++ rest.now) }
{
    to_row(block, cells, row, 0, head);
    to_row(block, cells, row, head.len() as u16, rest)
}

// The row of a new object: its class, its running label, and its attributes.
#[tactic(auto, using(crate::proofs::Fields::row_written), unfolding(crate::specs::Layout::cell_of, crate::specs::Layout::row_from, crate::specs::Layout::stands, crate::specs::Layout::written, crate::specs::Vocabulary::Found::field_cell, crate::specs::Vocabulary::Found::placed))]
pub fn new_object(cells: &mut [i32], o: ObjectNumber, class: u8, label: u8, attributes: &[i32])
    requires { length attributes.now ≤ 8 }
    ensures { cells.new ≡ Layout.written cells.old (Layout.row_from (Layout.object o.0) Layout.class (pos class ∷ pos label ∷ attributes.now)) }
{
    let head = [i32::from(class), i32::from(label)];
    new_row(OBJECT_BLOCK, cells, u32::from(o.0), &head, attributes)
}

// The row of a new call: its stage, caller, callee and method, the number of its arguments, and its locals; line, cleared and value 0.
#[tactic(auto, using(crate::proofs::Fields::row_written), unfolding(crate::specs::Layout::cell_of, crate::specs::Layout::row_from, crate::specs::Layout::stands, crate::specs::Layout::written, crate::specs::Vocabulary::Found::field_cell, crate::specs::Vocabulary::Found::placed))]
pub fn new_call(cells: &mut [i32], row: u32, call: NewCall, locals: &[i32])
    requires { length locals.now ≤ 8 }
    ensures { cells.new ≡ Layout.written cells.old (Layout.row_from (Layout.call row) Layout.stage (pos call.stage ∷ pos call.caller ∷ pos call.callee ∷ pos call.method ∷ pos call.args ∷ pos 0 ∷ pos 0 ∷ pos 0 ∷ locals.now)) }
{
    let head = [
        i32::from(call.stage),
        i32::from(call.caller),
        i32::from(call.callee),
        i32::from(call.method),
        i32::from(call.args),
        0,
        0,
        0,
    ];
    new_row(CALL_BLOCK, cells, row, &head, locals)
}
