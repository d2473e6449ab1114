// The verdict on every list of bytes, and the table of a text that is accepted.
ghost use Rattle.std.specs.Prelude.{◌≡◌, ◌≤◌, length, drop, OnOk};
ghost use Rattle.text.specs.InOrder as InOrder;
ghost use Rattle.text.specs.Lines as Lines;
ghost use Rattle.text.specs.Vocabulary.Readings as Readings;
ghost use Rattle.model.specs.Judge as Judge;
ghost use Rattle.model.specs.Model.{Model};
ghost use Rattle.model.specs.ModelText as ModelText;
ghost use Rattle.model.specs.Vocabulary.Belonging as Belonging;
ghost use Rattle.model.specs.Vocabulary.Creations as Creations;
ghost use Rattle.model.specs.Vocabulary.Judging as Judging;
ghost use Rattle.model.specs.Vocabulary.Leaving as Leaving;
ghost use Rattle.model.specs.Vocabulary.Table as Table;

use crate::{Row, Rows, bounds, classes, creations, table};
use text::{At, Failed, Verdict, key_lines};
use whole::refusals::Refusal;

// "At most 32,768 bytes"
const LONGEST_TEXT: usize = 32768;

// The first two lines, "`creol=1`, `classes=` 1..16", and then the classes.
#[tactic(auto, using(crate::proofs::Passing::most, crate::proofs::Passing::next_placed), unfolding(text::specs::Lines::plain_byte, text::specs::Lines::plain_bytes))]
fn model(
    text: &[u8],
    table: &mut [u16; table::SIZE],
    shapes: &mut [u8; table::LINES],
) -> Result<(u32, At), Failed>
    requires text_len_bound { length text.now ≤ Lines.longest_text }
    ensures told { Readings.Tells text.now (Leaving.ModelLeft text.now table.old shapes.old table.new shapes.new) result (Readings.read_at ModelText.read_model text.now Readings.begin) }
    ensures sized { OnOk result (Table.Sized table.new shapes.new) }
{
    let at = At { place: 0, line: 1 };
    let (_, at) = key_lines::number_line(text, at, b"creol=", bounds::EDITION, bounds::EDITION)?;
    let (count, at) = key_lines::number_line(text, at, b"classes=", 1, bounds::MOST_CLASSES)?;
    let read = classes::all_classes(text, table, shapes, at, count)?;
    table::put(table, table::MODEL, Row(count, 0, 0, 0));
    Ok(read)
}

// The end of a text whose classes are all read: "lines left over" are 3, or 2 where the first of them is broken; and only where none is left
// the `new`s are judged.
#[tactic(auto, using(crate::proofs::Verdicts::left_none, crate::proofs::Verdicts::left_some, crate::proofs::Verdicts::refused_as), unfolding(whole::specs::Vocabulary::Refusing::number_of))]
fn ended(text: &[u8], table: &[u16; table::SIZE], at: At, total: u32) -> Result<(), Verdict>
    requires classes_bound { Table.classes_in table.now ≤ 16 }
    requires total_bound { total ≤ 512 }
    ensures { (m : Model) → Creations.GivenTold table.now m → length m ≡ Table.classes_in table.now → result ≡ Judging.accepted_or (Judge.end_judged (InOrder.after (m, Leaving.between table.now total) at.line (Lines.lines (drop at.place text.now)))) }
{
    if at.place < text.len() {
        return Err(key_lines::fault(text, Refusal::WrongKey.number(), at));
    }
    creations::counts_judged(table, table::classes(table), total)
}

// The verdict on a text, with the table and the shapes that belong to it where it is accepted.
#[tactic(auto, using(crate::proofs::Verdicts::end_failed, crate::proofs::Verdicts::judged_long, crate::proofs::Verdicts::judged_short, crate::proofs::Verdicts::told_refusal, text::proofs::Onward::told_failed), unfolding(whole::specs::Vocabulary::Refusing::number_of))]
pub fn read(
    text: &[u8],
    table: &mut [u16; table::SIZE],
    shapes: &mut [u8; table::LINES],
) -> Result<(), Verdict>
    ensures value { result ≡ Judging.accepted_or (Judge.judged text.now) }
    ensures belongs { (m : Model) → Judge.judged text.now ≡ Judge.model m → Belonging.Belongs text.now table.new m × Belonging.Shaped table.new shapes.new m }
    ensures sized { OnOk result (Table.Sized table.new shapes.new) }
{
    if text.len() > LONGEST_TEXT {
        return Err(Verdict::from(Refusal::TextTooLong));
    }
    let refused = |failed: Failed| key_lines::fault(text, failed.refusal.number(), failed.at);
    let (total, at) = model(text, table, shapes).map_err(refused)?;
    ended(text, table, at, total)
}

// The verdict on a text: number and line.
#[tactic(auto, using(crate::proofs::Verdicts::verdict_accepted, crate::proofs::Verdicts::verdict_refused))]
pub fn judge(text: &[u8]) -> Verdict
    ensures { result ≡ Judge.judge text.now }
{
    let mut rows = Rows::new();
    match read(text, &mut rows.table, &mut rows.shapes) {
        Ok(()) => text::ACCEPTED,
        Err(verdict) => verdict,
    }
}
