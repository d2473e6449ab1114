// The runner: "reads this from the file `model` and choices from standard input", and writes what the definition `runner` says of their bytes.
#![tactic(auto)]

ghost use Rattle.std.specs.Prelude.{true, ◌≡◌, ◌≤◌, ℕ, List, length, take, OnOk};
ghost use Rattle.std.specs.Io.KnownBytes.{Consumes, Appends};
ghost use Rattle.model.specs.Vocabulary.Known as Known;
ghost use Rattle.cells.specs.Configuration.{is_configuration};
ghost use Rattle.engine.specs.Run as Run;
ghost use Rattle.session.specs.Choices as Choices;
ghost use Rattle.session.specs.Runner as Runner;
ghost use Rattle.transcript.specs.Vocabulary.Front as Front;

use entries::running;
use lookup::program::Program;
use model::Rows;
use std::fs::File;
use std::io;
use std::io::{Read, Write};
use transcript::{choices, reports};

// "At most 32,768 bytes", and one more: a model that is longer is refused with 1, and has to be seen to be longer.
const TEXT_ROOM: usize = 32769;

// "Input past 4,096 bytes is not read."
const INPUT_ROOM: usize = 4096;

// An input of 4,096 bytes has no more choices.
const MOST_CHOICES: usize = 4096;

// The choices of an input, each played as its line is read: the answers at the front of the memory lent, and how many they are. Memory of
// the caller's and a count: nothing is allocated.
#[tactic(auto, using(crate::proofs::Playing::ends_within))]
fn play(program: &Program<'_>, cells: &mut [i32], input: &[u8], answers: &mut [i32]) -> usize
    requires configuration { is_configuration (Known.model_of program.now.text) cells.old ≡ true }
    requires in_bounds { Choices.longest_input ≤ length answers.old }
    ensures value { result ≡ length (Run.run_answers (Known.model_of program.now.text) cells.old (Choices.choices_from input.now)) }
    ensures cells_after { cells.new ≡ Run.run_cells (Known.model_of program.now.text) cells.old (Choices.choices_from input.now) }
    ensures answers_after { answers.new ≡ Front.at_front (Run.run_answers (Known.model_of program.now.text) cells.old (Choices.choices_from input.now)) answers.old }
    ensures upper_bound { result ≤ Choices.longest_input }
{
    // no plainer over `split_inclusive`: each piece would have to be stripped of its LF again, and counted all the same
    let read = choices::part_read(input);
    let mut count = 0;
    let mut at = 0;
    while at < read.len() {
        let end = choices::line_end(read, at);
        let choice = choices::choice_of(&read[at..end]);
        running::perform(program, cells, answers, count, choice);
        count += 1;
        at = end + 1;
    }
    count
}

// The bytes of the session with a model's text and an input, at the front of the memory lent, and how many they are.
fn session(text: &[u8], input: &[u8], out: &mut [u8]) -> usize
    requires { 82000 ≤ length out.old }
    ensures value { result ≡ length (Runner.runner text.now input.now) }
    ensures out_after { out.new ≡ Front.at_front (Runner.runner text.now input.now) out.old }
    ensures in_bounds { result ≤ length out.new }
    ensures prefix { result ≡ length (take result out.new) }
{
    let mut rows = Rows::new();
    let mut cells = [0; layout::ALL_CELLS];
    match entries::start_program(text, &mut rows.table, &mut rows.shapes, &mut cells) {
        Err(verdict) => reports::refusal(verdict, out),
        Ok(program) => {
            let mut answers = [0; MOST_CHOICES];
            let count = play(&program, &mut cells, input, &mut answers);
            reports::report(&answers[..count], &cells, out)
        }
    }
}

// What a reader gives, at the front of the memory lent, and how many bytes: it is read until the memory is full, it ends, or a read fails.
// By hand, and not `read_to_end`: nothing is allocated, and what was read before an error counts.
fn read_full<R: Read>(reader: &mut R, room: &mut [u8]) -> usize
    ensures in_bounds { result ≤ length room.new }
    ensures prefix { result ≡ length (take result room.new) }
    ensures taken { Consumes (R.remaining reader.old) (R.remaining reader.new) (take result room.new) }
{
    let mut done = 0;
    while done < room.len() {
        match reader.read(&mut room[done..]) {
            Ok(0) | Err(_) => return done,
            Ok(n) => done += n,
        }
    }
    done
}

// The bytes of the file `model`: "a missing model file reads as empty".
fn read_model(rt: &HostRuntime, text: &mut [u8]) -> usize
    ensures in_bounds { result ≤ length text.new }
    ensures prefix { result ≡ length (take result text.new) }
{
    match File::open(rt, "model") {
        Ok(mut file) => read_full(&mut file, text),
        Err(_) => 0,
    }
}

// The input is read as far as there is room, and what the session with the model's text makes of it is written, and nothing else. A read that fails
// ends the input, so the clause speaks of the bytes that were taken, and not of all that there are.
fn answer<R: Read, W: Write>(text: &[u8], input: &mut R, out: &mut W) -> io::Result<()>
    ensures { (given : List ℕ) × Consumes (R.remaining input.old) (R.remaining input.new) given × OnOk result (Appends (W.contents out.old) (W.contents out.new) (Runner.runner text.now given)) }
{
    let mut room = [0u8; INPUT_ROOM];
    let given = read_full(input, &mut room);
    let mut bytes = [0u8; reports::ROOM];
    let written = session(text, &room[..given], &mut bytes);
    out.write_all(&bytes[..written])
}

// No contract can say what the file and the terminal hold; `answer` says what is made of the one for the other.
fn main(rt: HostRuntime) -> io::Result<()> {
    let mut text = [0u8; TEXT_ROOM];
    let long = read_model(&rt, &mut text);
    answer(&text[..long], &mut rt.stdin(), &mut rt.stdout())
}
