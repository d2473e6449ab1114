// "then per method `method=` (index from 0), `params=`, `locals=`, `lines=`, and that many `code=` lines."
ghost use Rattle.std.specs.Prelude.{[], ◌+◌, ◌≤◌, ◌<◌};
ghost use Rattle.text.specs.InOrder as InOrder;
ghost use Rattle.text.specs.Vocabulary.Readings as Readings;
ghost use Rattle.model.specs.ModelText as ModelText;
ghost use Rattle.model.specs.Vocabulary.Leaving as Leaving;
ghost use Rattle.model.specs.Vocabulary.Standing as Standing;

use crate::{ClassHead, MethodHead, Row, bounds, code_lines, table};
use text::{At, Failed, key_lines};

// So many code lines, from no open block on.
#[tactic(auto, using(crate::proofs::Loops::lines_begun_lem))]
fn all_lines(
    text: &[u8],
    table: &mut [u16; table::SIZE],
    shapes: &mut [u8; table::LINES],
    at: At,
    method: MethodHead,
) -> Result<(u32, At), Failed>
    requires placed { Readings.Placed text.now at }
    requires lines_bound { (0 < method.count) × (method.first + method.count ≤ 512) }
    ensures { Readings.Tells text.now (Leaving.CodeLeft text.now table.old shapes.old table.new shapes.new method) result (Readings.read_at (InOrder.each method.count 0 (Leaving.so_far table.old method.first (method.first + method.count) []) (ModelText.code_line (Standing.limits_of method) method.classes method.count)) text.now at) }
{
    let mut here = at;
    let mut blocks = 0;
    for i in 0..method.count {
        (blocks, here) = code_lines::code_line(text, table, shapes, here, method, i, blocks)?;
    }
    Ok((method.first + method.count, here))
}

// A method by its index in its class, after so many code lines.
#[tactic(auto, using(crate::proofs::Passing::least, crate::proofs::Passing::most, crate::proofs::Passing::next_placed), unfolding(text::specs::Lines::plain_byte, text::specs::Lines::plain_bytes))]
pub fn method(
    text: &[u8],
    table: &mut [u16; table::SIZE],
    shapes: &mut [u8; table::LINES],
    at: At,
    class: ClassHead,
    j: u32,
    total: u32,
) -> Result<(u32, At), Failed>
    requires placed { Readings.Placed text.now at }
    requires method_bound { (j < 8) × (total ≤ 512) }
    ensures { Readings.Tells text.now (Leaving.MethodLeft text.now table.old shapes.old table.new shapes.new class j total) result (Readings.read_at (ModelText.read_method class.classes class.attrs class.run j (Leaving.between table.old total)) text.now at) }
{
    let (_, at) = key_lines::number_line(text, at, b"method=", j, j)?;
    let highest = bounds::most_params(class.run, j);
    let (params, at) = key_lines::number_line(text, at, b"params=", 0, highest)?;
    let (locals, at) = key_lines::number_line(text, at, b"locals=", params, bounds::MOST_LOCALS)?;
    let (count, at) = key_lines::number_line(text, at, b"lines=", 1, bounds::most_lines(total))?;
    let head = MethodHead {
        classes: class.classes,
        attrs: class.attrs,
        locals,
        count,
        first: total,
    };
    let read = all_lines(text, table, shapes, at, head)?;
    let place = table::method_place(class.index, j);
    table::put(table, place, Row(params, locals, count, total));
    Ok(read)
}
