// The entries for programs in C and Rust. Each answer is one number:
// number + 2^8 * column + 2^16 * line + 2^32 * steps + 2^48 * quiet
#![tactic(auto)]

ghost use Rattle.std.specs.Prelude.{◌≡◌, ◌≤◌};
ghost use Rattle.model.specs.Judge as Judge;
ghost use Rattle.engine.specs.Drive.{most_steps};
ghost use Rattle.engine.specs.Entries as Entries;
ghost use Rattle.creol.specs.Vocabulary.Packed as Packed;

use entries::driving::Drove;
use entries::{driving, running};
use model::judging;
use rules::Choice;
use text::Verdict;

// A verdict has a number and a line, and nothing above them. A function and no `From`: both types are other crates'.
#[tactic(auto, unfolding(crate::specs::Vocabulary::Packed::packed))]
fn packed(verdict: Verdict) -> u64
    ensures { result ≡ Packed.packed verdict }
{
    u64::from(verdict.number) + u64::from(verdict.line) * 0x1_0000
}

// The verdict on a text.
#[unsafe(no_mangle)]
pub extern "C" fn creol_judge(text: &[u8]) -> u64
    ensures { result ≡ Packed.packed (Judge.judge text.now) }
{
    packed(judging::judge(text))
}

// Start: the first configuration of a text, written over whatever the cells held.
#[unsafe(no_mangle)]
pub extern "C" fn creol_start(text: &[u8], cells: &mut [i32]) -> u64
    ensures value { result ≡ Packed.packed (Entries.start text.now cells.old).verdict }
    ensures cells_after { cells.new ≡ (Entries.start text.now cells.old).cells }
{
    packed(entries::start(text, cells))
}

// Step: one choice, a kind with its number.
#[unsafe(no_mangle)]
pub extern "C" fn creol_step(text: &[u8], cells: &mut [i32], kind: i32, number: i32) -> u64
    ensures value { result ≡ Packed.packed (Entries.step text.now cells.old (record { kind = kind; number = number })).verdict }
    ensures cells_after { cells.new ≡ (Entries.step text.now cells.old (record { kind = kind; number = number })).cells }
{
    packed(entries::step(text, cells, Choice { kind, number }))
}

// Run: a list of choices, each a kind with its number, and an answer to each in its own place.
#[unsafe(no_mangle)]
pub extern "C" fn creol_run(
    text: &[u8],
    cells: &mut [i32],
    choices: &[Choice],
    answers: &mut [i32],
) -> u64
    ensures value { result ≡ Packed.packed (Entries.run text.now cells.old choices.now answers.old).verdict }
    ensures cells_after { cells.new ≡ (Entries.run text.now cells.old choices.now answers.old).cells }
    ensures answers_after { answers.new ≡ (Entries.run text.now cells.old choices.now answers.old).answers }
{
    packed(running::run(text, cells, choices, answers))
}

// A drive's answer has its steps and whether it is quiet above the verdict.
#[tactic(auto, unfolding(crate::specs::Vocabulary::Packed::packed, crate::specs::Vocabulary::Packed::packed_drive, crate::specs::Vocabulary::Packed::quietly))]
fn packed_drive(drove: Drove) -> u64
    requires { drove.steps ≤ most_steps }
    ensures { result ≡ Packed.packed_drive drove.verdict drove.steps drove.quiet }
{
    packed(drove.verdict)
        + u64::from(drove.steps) * 0x1_0000_0000
        + u64::from(drove.quiet) * 0x1_0000_0000_0000
}

// Drive: first accepted choices up to a budget, in the document's order.
#[unsafe(no_mangle)]
#[tactic(auto, using(entries::proofs::AnswerBounds::drive_small))]
pub extern "C" fn creol_drive(text: &[u8], cells: &mut [i32], budget: u32) -> u64
    ensures value { result ≡ Packed.packed_outcome (Entries.drive text.now cells.old budget) }
    ensures cells_after { cells.new ≡ (Entries.drive text.now cells.old budget).cells }
{
    packed_drive(driving::drive(text, cells, budget))
}
