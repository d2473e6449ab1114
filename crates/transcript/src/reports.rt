// "It writes an `answer=` line for each choice", then how many were accepted and refused, and the objects and calls; or of a refused model
// "only `refused=` and `line=`".
ghost use Rattle.std.specs.Prelude.{◌≡◌, ◌+◌, ◌*◌, ◌≤◌, length};
ghost use Rattle.whole.specs.Whole as Whole;
ghost use Rattle.session.specs.Runner as Runner;
ghost use Rattle.transcript.specs.Vocabulary.Front.{Adds, at_front};
ghost use Rattle.transcript.specs.Vocabulary.Reported as Reported;

use crate::shown::Front;
use text::Verdict;
use whole::refusals;

// Twenty bytes for each of 4,096 answers and of the four lines behind them.
pub const ROOM: usize = 82000;

// A number that is counted from 0; one below is taken for 0.
#[tactic(auto, using(whole::proofs::Ranges::nat_not, whole::proofs::Ranges::natural_is), unfolding(whole::specs::Whole::nat))]
fn natural(z: i32) -> u32
    ensures { result ≡ Whole.nat z }
{
    whole::as_natural(z).map_or(0, |n| n as u32)
}

// The lines of all answers.
fn answer_lines(answers: &[i32], front: &mut Front<'_>)
    requires { front.old.at + length answers.now * 20 ≤ length front.old.out.now }
    ensures adds { Adds (Runner.answer_lines answers.now) front.old front.new }
    ensures upper_bound { front.new.at ≤ front.old.at + length answers.now * 20 }
{
    for &answer in answers {
        front.line(b"answer=", natural(answer));
    }
}

// How many choices were accepted.
fn accepted_in(answers: &[i32]) -> u32
    requires { length answers.now ≤ 4096 }
    ensures value { result ≡ Runner.accepted_in answers.now }
    ensures upper_bound { result ≤ length answers.now }
{
    answers
        .iter()
        .filter(|&&answer| whole::is_number(answer, refusals::ACCEPTED))
        .count() as u32
}

// How many were refused: all others. That the answers are few stays a clause, here and beside it: the runner lends a slice, of any number of them.
#[tactic(auto, using(crate::proofs::Reporting::all_counted))]
fn refused_in(answers: &[i32]) -> u32
    requires { length answers.now ≤ 4096 }
    ensures { result ≡ Runner.refused_in answers.now }
{
    answers.len() as u32 - accepted_in(answers)
}

// The answers to all choices of a run, how many were accepted and refused, and the objects and calls of the cells that it left: the bytes
// at the front of the memory lent, and how many they are. Memory of the caller's and a count: nothing is allocated.
pub fn report(answers: &[i32], cells: &[i32], out: &mut [u8]) -> usize
    requires answers_len_bound { length answers.now ≤ 4096 }
    requires in_bounds { 82000 ≤ length out.old }
    ensures value { result ≡ length (Runner.report answers.now cells.now) }
    ensures out_after { out.new ≡ at_front (Runner.report answers.now cells.now) out.old }
    ensures upper_bound { result ≤ 82000 }
{
    let mut front = Front::new(out);
    answer_lines(answers, &mut front);
    front.line(b"accepted=", accepted_in(answers));
    front.line(b"refused=", refused_in(answers));
    front.line(b"objects=", natural(layout::objects(cells)));
    front.line(b"calls=", natural(layout::calls(cells)));
    front.written()
}

// "A refused model gives only `refused=` and `line=`."
#[tactic(auto, using(crate::proofs::Storing::adds_after, crate::proofs::Storing::front_is, crate::proofs::Storing::front_length), unfolding(crate::specs::Vocabulary::Reported::refusal_lines))]
pub fn refusal(verdict: Verdict, out: &mut [u8]) -> usize
    requires { 40 ≤ length out.old }
    ensures value { result ≡ length (Reported.refusal_lines verdict) }
    ensures out_after { out.new ≡ at_front (Reported.refusal_lines verdict) out.old }
    ensures upper_bound { result ≤ 40 }
{
    let mut front = Front::new(out);
    front.line(b"refused=", verdict.number);
    front.line(b"line=", verdict.line);
    front.written()
}
