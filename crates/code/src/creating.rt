// What a statement makes an object of.
ghost use Rattle.std.specs.Prelude.{◌≡◌};
ghost use Rattle.code.specs.Vocabulary.Creating as Creating;

use crate::Statement;

// The class that a `new` names and how many arguments it has, of a statement beside which so many arguments stand.
#[tactic(auto, unfolding(crate::specs::Vocabulary::Creating::new_said))]
pub fn new_of(statement: Statement, count: usize) -> Option<(u32, usize)>
    ensures { result ≡ Creating.new_said statement count }
{
    match statement {
        Statement::New(_, class) => Some((class, count)),
        _ => None,
    }
}
