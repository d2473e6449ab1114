// The open blocks of a method as one number: a digit for each block, the innermost lowest, base 4. No digit is 0. A number and no list: the engine
// allocates nothing, and `through` is public over numbers below 65,536.
ghost use Rattle.std.specs.Prelude.{List, ◌∷◌, ◌≡◌, ◌<◌, ◌≤◌, Some, IfSome};
ghost use Rattle.code.specs.Blocks as Blocks;
ghost use Rattle.code.specs.Vocabulary.OpenBlocks as OpenBlocks;

use crate::{Shape, Statement};

// Digits and no enum: what is kept of the open blocks is one number, made of them and taken apart by `%`.
//
// The digit of an `if` that waits for its `else`.
const UNTIL_ELSE: u32 = 1;

// The digit of an `if` that waits for its `fi`.
const UNTIL_FI: u32 = 2;

// The digit of a `while` that waits for its `od`.
const UNTIL_OD: u32 = 3;

// One more than the largest digit.
const BASE: u32 = 4;

// What a line is, as far as blocks, returns and awaits go.
#[tactic(auto, unfolding(crate::specs::Vocabulary::OpenBlocks::shape_said))]
pub fn shape_of(statement: Statement) -> Shape
    ensures { result ≡ OpenBlocks.shape_said statement }
{
    match statement {
        Statement::Await(_) => Shape::Await,
        Statement::If(_) => Shape::If,
        Statement::Else => Shape::Else,
        Statement::Fi => Shape::Fi,
        Statement::While(_) => Shape::While,
        Statement::Od => Shape::Od,
        Statement::Return(_) => Shape::Return,
        _ => Shape::Plain,
    }
}

// The open blocks with one more, the innermost.
#[tactic(auto, using(crate::proofs::OpenBlocks::blocks_opened))]
fn opened(digit: u32, blocks: u32) -> u32
    requires digit_bound { digit < 4 }
    requires blocks_bound { blocks < 65536 }
    ensures { (b : Blocks.Block) (bs : List Blocks.Block) → digit ≡ OpenBlocks.block_digit b → blocks ≡ OpenBlocks.packed_blocks bs → result ≡ OpenBlocks.packed_blocks (b ∷ bs) }
{
    digit + BASE * blocks
}

// The open blocks without the innermost, which must have the digit.
#[tactic(auto, using(crate::proofs::OpenBlocks::blocks_closed, crate::proofs::OpenBlocks::blocks_unmatched))]
fn without(digit: u32, blocks: u32) -> Option<u32>
    ensures closed { (b : Blocks.Block) (bs : List Blocks.Block) → digit ≡ OpenBlocks.block_digit b → blocks ≡ OpenBlocks.packed_blocks bs → result ≡ OpenBlocks.as_blocks (Blocks.without (Some b) bs) }
    ensures fewer { IfSome result (λ outer. outer ≤ blocks) }
{
    (blocks % BASE == digit).then_some(blocks / BASE)
}

// The open blocks after a line. A number with a clause and no type with a range: after a line one block more may be open than before it. An
// `else` exchanges the innermost: it must wait for its `else`, and waits for its `fi` from here on.
#[tactic(auto, unfolding(crate::specs::Blocks::closing, crate::specs::Blocks::opening, crate::specs::Blocks::rank, crate::specs::Blocks::through, crate::specs::Blocks::with, crate::specs::Blocks::without, crate::specs::Vocabulary::OpenBlocks::as_blocks, crate::specs::Vocabulary::OpenBlocks::block_digit))]
pub fn through(shape: Shape, blocks: u32) -> Option<u32>
    requires { blocks < 65536 }
    ensures { (bs : List Blocks.Block) → blocks ≡ OpenBlocks.packed_blocks bs → result ≡ OpenBlocks.as_blocks (Blocks.through shape bs) }
{
    match shape {
        Shape::If => Some(opened(UNTIL_ELSE, blocks)),
        Shape::Else => Some(opened(UNTIL_FI, without(UNTIL_ELSE, blocks)?)),
        Shape::Fi => without(UNTIL_FI, blocks),
        Shape::While => Some(opened(UNTIL_OD, blocks)),
        Shape::Od => without(UNTIL_OD, blocks),
        Shape::Return | Shape::Await | Shape::Plain => Some(blocks),
    }
}
