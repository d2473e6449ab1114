// "a wrong count of its arguments is 5 at its line, judged only in a text that passes otherwise"
ghost use Rattle.std.specs.Prelude.{◌≡◌, ◌≤◌, length};
ghost use Rattle.model.specs.Vocabulary.Creations as Creations;
ghost use Rattle.model.specs.Judge as Judge;
ghost use Rattle.model.specs.Vocabulary.Judging as Judging;
ghost use Rattle.model.specs.Model.{Model};

use crate::{bounds, table};
use text::Verdict;
use whole::refusals::Refusal;

// The arguments that a class is to be given; a class that is not there is given none.
#[tactic(auto, using(crate::proofs::CountsOfNew::given_none, crate::proofs::CountsOfNew::given_told))]
fn given_to(table: &[u16; table::SIZE], classes: u32, class: u32) -> u32
    requires classes_bound { classes ≤ 16 }
    ensures { (m : Model) → Creations.GivenTold table.now m → length m ≡ classes → result ≡ Judge.given_to m class }
{
    if class < classes {
        table::row(table, class as usize).1
    } else {
        0
    }
}

// A `new` as one number has as many arguments as its class is to be given; a line that is none fits.
#[tactic(auto, using(crate::proofs::CountsOfNew::fits_none, crate::proofs::CountsOfNew::fits_some))]
fn fits(table: &[u16; table::SIZE], classes: u32, new: u32) -> bool
    requires classes_bound { classes ≤ 16 }
    ensures { (m : Model) → Creations.GivenTold table.now m → length m ≡ classes → result ≡ Creations.new_fits m new }
{
    let Some(told) = new.checked_sub(1) else {
        return true;
    };
    told / bounds::MOST_CLASSES == given_to(table, classes, told % bounds::MOST_CLASSES)
}

// Every `new` of a text that passes otherwise, in the order of its lines: the first that does not fit is refused. That the classes are few stays a
// clause of the three functions here: their number comes from the table, whose type says nothing of the numbers in it.
#[tactic(auto, using(crate::proofs::CountsOfNew::counts_end, crate::proofs::CountsOfNew::counts_here, crate::proofs::CountsOfNew::counts_onward), unfolding(crate::specs::Vocabulary::Judging::accepted_or, whole::specs::Vocabulary::Refusing::number_of))]
pub fn counts_judged(table: &[u16; table::SIZE], classes: u32, total: u32) -> Result<(), Verdict>
    requires classes_bound { classes ≤ 16 }
    requires total_bound { total ≤ 512 }
    ensures { (m : Model) → Creations.GivenTold table.now m → length m ≡ classes → result ≡ Judging.accepted_or (Judge.counts_judged m (Creations.creations_in table.now total)) }
{
    for i in 0..total {
        let line = table::code_row(table, i);
        if !fits(table, classes, line.3) {
            return Err(Verdict {
                number: Refusal::WrongCode.number(),
                line: line.2,
            });
        }
    }
    Ok(())
}
