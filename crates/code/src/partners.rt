// The line that a line goes to. The partner of a line is found by one count of the blocks that are open between the two.
ghost use Rattle.std.specs.Prelude.{true, [], ◌≡◌, ◌+◌, ◌<◌, ◌^◌, length, get_or, Some};
ghost use Rattle.code.specs.Blocks as Blocks;
ghost use Rattle.code.specs.Vocabulary.Shapes as Shapes;
ghost use Rattle.code.specs.Vocabulary.Counting as Counting;
ghost use Rattle.code.specs.Partners as Partners;

use crate::Shape;

// Whether a line closes a block.
#[tactic(auto, unfolding(crate::specs::Blocks::closing, crate::specs::Vocabulary::Counting::present))]
fn closes(shape: Shape) -> bool
    ensures { result ≡ Counting.present (Blocks.closing shape) }
{
    matches!(shape, Shape::Else | Shape::Fi | Shape::Od)
}

// Whether a line opens a block.
#[tactic(auto, unfolding(crate::specs::Blocks::opening, crate::specs::Vocabulary::Counting::present))]
fn opens(shape: Shape) -> bool
    ensures { result ≡ Counting.present (Blocks.opening shape) }
{
    matches!(shape, Shape::If | Shape::Else | Shape::While)
}

// The count after a line that leaves a block or not and enters one or not; none where it leaves the block that was counted from.
#[tactic(auto, unfolding(crate::specs::Vocabulary::Counting::counted_on))]
fn counted(leaves: bool, enters: bool, count: usize) -> Option<usize>
    requires { count < 2 ^ 63 }
    ensures { result ≡ Counting.counted_on leaves enters count }
{
    let outer = count.checked_sub(usize::from(leaves))?;
    Some(outer + usize::from(enters))
}

// The line after the partner of a line that opens a block. That the line is there stays a clause of the three functions here, as of any index.
#[tactic(auto, using(crate::proofs::Going::begins_onward))]
fn past_partner(lines: &[u8], i: usize) -> usize
    requires i_in_bounds { i < length lines.now }
    requires blocks_close { Blocks.through_all (Shapes.shapes_in lines.now) [] ≡ Some [] }
    requires opens { Counting.present (Blocks.opening (Shapes.shape_at (get_or lines.now i 0))) ≡ true }
    ensures { result ≡ Partners.ahead (Shapes.shapes_in lines.now) i + 1 }
{
    let mut opened = 0;
    for j in i + 1..lines.len() {
        let shape = Shape::from(lines[j]);
        match counted(closes(shape), opens(shape), opened) {
            Some(n) => opened = n,
            None => return j + 1,
        }
    }
    lines.len()
}

// The partner of a line that closes a block.
// A loop of its own beside `past_partner`: one over both would take the lines' order and the two tests, and is no plainer.
#[tactic(auto, using(crate::proofs::Going::begins_backward))]
fn partner_before(lines: &[u8], i: usize) -> usize
    requires i_in_bounds { i < length lines.now }
    requires blocks_close { Blocks.through_all (Shapes.shapes_in lines.now) [] ≡ Some [] }
    requires closes { Counting.present (Blocks.closing (Shapes.shape_at (get_or lines.now i 0))) ≡ true }
    ensures { result ≡ Partners.behind (Shapes.shapes_in lines.now) i }
{
    let mut closed = 0;
    for j in (0..i).rev() {
        let shape = Shape::from(lines[j]);
        match counted(opens(shape), closes(shape), closed) {
            Some(n) => closed = n,
            None => return j,
        }
    }
    0
}

// The line that a line of a whole method goes to, by the numbers of its lines' shapes. That all blocks close stays a clause: a type for it would
// be made here alone, for the two functions above.
#[tactic(auto, using(crate::proofs::Going::goes_by), unfolding(crate::specs::Blocks::closing, crate::specs::Blocks::opening, crate::specs::Partners::goes_from, crate::specs::Partners::goes_to, crate::specs::Vocabulary::Counting::present, crate::specs::Vocabulary::Shapes::shape_at, crate::specs::Vocabulary::Shapes::shapes_in))]
pub fn goes_to(lines: &[u8], i: usize) -> usize
    requires i_in_bounds { i < length lines.now }
    requires blocks_close { Blocks.through_all (Shapes.shapes_in lines.now) [] ≡ Some [] }
    ensures { result ≡ Partners.goes_to (Shapes.shapes_in lines.now) i }
{
    match Shape::from(lines[i]) {
        Shape::If | Shape::Else | Shape::While => past_partner(lines, i),
        Shape::Od => partner_before(lines, i),
        Shape::Return => i,
        _ => i + 1,
    }
}
