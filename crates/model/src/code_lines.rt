// "`code=`": a statement that may stand where it stands, with its row and its shape.
ghost use Rattle.std.specs.Prelude.{List, ◌≡◌, ℕ, ◌+◌, ◌*◌, ◌≤◌, ◌<◌, length, Option, Some};
ghost use Rattle.text.specs.Vocabulary.Readings as Readings;
ghost use Rattle.code.specs.Blocks.{Block, shape_of, through};
ghost use Rattle.code.specs.Statements.{Code};
ghost use Rattle.code.specs.Vocabulary.OpenBlocks.{packed_blocks, as_blocks};
ghost use Rattle.model.specs.ModelText as ModelText;
ghost use Rattle.model.specs.Vocabulary.Creations as Creations;
ghost use Rattle.model.specs.Vocabulary.Leaving as Leaving;
ghost use Rattle.model.specs.Vocabulary.Standing as Standing;

use crate::{MethodHead, Row, Stated, bounds, table};
use code::{Shape, blocks, creating, statements};
use layout::{Label, ObjectNumber};
use terms::{Around, Here, Limits};
use text::{At, Failed, key_lines};
use whole::refusals::Refusal;

// "Blocks nest at most 8 deep.": the least number of nine open blocks, which has nine digits to the base 4.
const TOO_DEEP: u32 = 65536;

// "A method's last line is a `return` outside all blocks." Any other leaves at most eight blocks open.
#[tactic(auto, using(crate::proofs::CodeValues::last_other, crate::proofs::CodeValues::last_return, crate::proofs::CodeValues::not_last))]
fn may_stand(last: bool, shape: Shape, blocks: u32) -> bool
    ensures { (c : Code) (bs : List Block) → shape ≡ shape_of c → blocks ≡ packed_blocks bs → result ≡ ModelText.may_stand last c bs }
{
    if last {
        shape == Shape::Return && blocks == 0
    } else {
        blocks < TOO_DEEP
    }
}

// The blocks that are open after a line, if it may stand there: "blocks unmatched or too deep, last line".
#[tactic(auto, using(code::proofs::OpenBlocks::open_told, code::proofs::OpenBlocks::unmatched_told, crate::proofs::CodeValues::stood_none, crate::proofs::CodeValues::stood_not, crate::proofs::CodeValues::stood_some), unfolding(code::specs::Vocabulary::OpenBlocks::as_blocks, crate::specs::Vocabulary::Standing::stood))]
fn standing(last: bool, shape: Shape, blocks: u32) -> Option<u32>
    requires { blocks < 65536 }
    ensures { (c : Code) (bs : List Block) → shape ≡ shape_of c → blocks ≡ packed_blocks bs → result ≡ as_blocks (Standing.stood last c (through (shape_of c) bs)) }
{
    let after = blocks::through(shape, blocks)?;
    may_stand(last, shape, after).then_some(after)
}

// A `new` as one number, of its class and of how many arguments there are; 0 for a line that is none.
#[tactic(auto, unfolding(crate::specs::Vocabulary::Creations::new_number))]
fn new_number(new: Option<(u32, usize)>) -> u16
    requires { (k n : ℕ) → new ≡ Some (k, n) → (k < 16) × (n ≤ 121) }
    ensures { result ≡ Creations.new_number new }
{
    match new {
        None => 0,
        Some((class, count)) => (1 + class + bounds::MOST_CLASSES * count as u32) as u16,
    }
}

// What a code value is read in while the text is judged: its variables' limits. No cell is lent, so where it stands does not matter.
fn around(method: MethodHead) -> Around
    ensures { result.limits ≡ Standing.limits_of method }
{
    Around {
        limits: Limits {
            attrs: method.attrs as usize,
            locals: method.locals as usize,
        },
        here: Here {
            object: ObjectNumber(0),
            label: Label(0),
        },
    }
}

// "code value outside the grammar, its numbers and variables included"; then by the blocks that are open.
#[tactic(auto, using(crate::proofs::CodeValues::code_bad, crate::proofs::CodeValues::new_fits_lem))]
fn code_value(value: &[u8], method: MethodHead, last: bool, blocks: u32) -> Result<Stated, Refusal>
    requires value_len_bound { length value.now ≤ 120 }
    requires blocks_bound { blocks < 65536 }
    ensures { (bs : List Block) → blocks ≡ packed_blocks bs → Standing.CodeSaid value.now method last bs result }
{
    let (statement, arguments) = statements::statement(
        value,
        method.classes,
        &[],
        around(method),
    ).map_err(|_| Refusal::WrongCode)?;
    let shape = blocks::shape_of(statement);
    let after = standing(last, shape, blocks).ok_or(Refusal::WrongBlocks)?;
    Ok(Stated {
        shape: u8::from(shape),
        blocks: after,
        new: new_number(creating::new_of(statement, arguments.count)),
    })
}

// A code line by its index in its method, with so many blocks open.
#[tactic(auto, using(text::proofs::KeyLines::value_failed), unfolding(crate::specs::ModelText::code_line, text::specs::Lines::plain_byte, text::specs::Lines::plain_bytes, text::specs::Vocabulary::Readings::Tells))]
pub fn code_line(
    text: &[u8],
    table: &mut [u16; table::SIZE],
    shapes: &mut [u8; table::LINES],
    at: At,
    method: MethodHead,
    i: u32,
    blocks: u32,
) -> Result<(u32, At), Failed>
    requires placed { Readings.Placed text.now at }
    requires line_bound { method.first + i < 512 }
    requires blocks_bound { blocks < 65536 }
    ensures { (total : ℕ) (bs : List Block) → blocks ≡ packed_blocks bs → Readings.Tells text.now (Leaving.LineLeft text.now table.old shapes.old table.new shapes.new method i total) result (Readings.read_at (ModelText.code_line (Standing.limits_of method) method.classes method.count i (Leaving.so_far table.old (method.first + i) total bs)) text.now at) }
{
    let failed = |refusal| Failed { refusal, at };
    let (place, end) = key_lines::key_line(text, at.place, b"code=").map_err(failed)?;
    let last = i + 1 == method.count;
    let stated = code_value(&text[place..end], method, last, blocks).map_err(failed)?;
    let line = (method.first + i) as usize;
    let row = Row(
        place as u32,
        (end - place) as u32,
        at.line,
        u32::from(stated.new),
    );
    table::put(table, table::FIRST_CODE + line, row);
    shapes[line] = stated.shape;
    let next = At {
        place: end + 1,
        line: at.line + 1,
    };
    Ok((stated.blocks, next))
}
