// "then per class `class=` (its index from 0), `attrs=`, `given=`, `run=`, `methods=`", and that many methods.
ghost use Rattle.std.specs.Prelude.{◌≤◌, ◌<◌};
ghost use Rattle.text.specs.InOrder as InOrder;
ghost use Rattle.text.specs.Vocabulary.Readings as Readings;
ghost use Rattle.model.specs.ModelText as ModelText;
ghost use Rattle.model.specs.Vocabulary.Leaving as Leaving;

use crate::{ClassHead, Row, bounds, methods, table};
use text::{At, Failed, key_lines};

// So many methods, after so many code lines. This loop, that of the classes and that of the code lines stay three: what each leaves is said of
// the rows that it writes, and of what a closure writes nothing would be known after it.
fn all_methods(
    text: &[u8],
    table: &mut [u16; table::SIZE],
    shapes: &mut [u8; table::LINES],
    at: At,
    class: ClassHead,
    count: u32,
    total: u32,
) -> Result<(u32, At), Failed>
    requires placed { Readings.Placed text.now at }
    requires count_bound { (count ≤ 8) × (total ≤ 512) }
    ensures { Readings.Tells text.now (Leaving.MethodsLeft text.now table.old shapes.old table.new shapes.new class count total) result (Readings.read_at (InOrder.each count 0 (Leaving.between table.old total) (ModelText.read_method class.classes class.attrs class.run)) text.now at) }
{
    let mut here = at;
    let mut all = total;
    for j in 0..count {
        (all, here) = methods::method(text, table, shapes, here, class, j, all)?;
    }
    Ok((all, here))
}

// A class by its index, after so many code lines.
#[tactic(auto, using(crate::proofs::Passing::most, crate::proofs::Passing::next_placed), unfolding(text::specs::Lines::plain_byte, text::specs::Lines::plain_bytes))]
pub fn class(
    text: &[u8],
    table: &mut [u16; table::SIZE],
    shapes: &mut [u8; table::LINES],
    at: At,
    classes: u32,
    k: u32,
    total: u32,
) -> Result<(u32, At), Failed>
    requires placed { Readings.Placed text.now at }
    requires class_bound { (k < classes) × (classes ≤ 16) × (total ≤ 512) }
    ensures { Readings.Tells text.now (Leaving.ClassLeft text.now table.old shapes.old table.new shapes.new classes k total) result (Readings.read_at (ModelText.read_class classes k (Leaving.between table.old total)) text.now at) }
{
    let (_, at) = key_lines::number_line(text, at, b"class=", k, k)?;
    let (attrs, at) = key_lines::number_line(text, at, b"attrs=", 0, bounds::MOST_ATTRIBUTES)?;
    let (given, at) = key_lines::number_line(text, at, b"given=", 0, bounds::most_given(k, attrs))?;
    let (run, at) = key_lines::number_line(text, at, b"run=", bounds::least_run(k), 1)?;
    let (count, at) = key_lines::number_line(text, at, b"methods=", run, bounds::MOST_METHODS)?;
    let head = ClassHead {
        classes,
        index: k,
        attrs,
        run,
    };
    let read = all_methods(text, table, shapes, at, head, count, total)?;
    table::put(table, k as usize, Row(attrs, given, run, count));
    Ok(read)
}

// So many classes.
pub fn all_classes(
    text: &[u8],
    table: &mut [u16; table::SIZE],
    shapes: &mut [u8; table::LINES],
    at: At,
    count: u32,
) -> Result<(u32, At), Failed>
    requires placed { Readings.Placed text.now at }
    requires count_bound { count ≤ 16 }
    ensures { Readings.Tells text.now (Leaving.ClassesLeft text.now table.old shapes.old table.new shapes.new count count) result (Readings.read_at (InOrder.each count 0 (Leaving.between table.old 0) (ModelText.read_class count)) text.now at) }
{
    let mut here = at;
    let mut all = 0;
    for k in 0..count {
        (all, here) = class(text, table, shapes, here, count, k, all)?;
    }
    Ok((all, here))
}
