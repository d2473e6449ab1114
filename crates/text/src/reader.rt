// "a reader that carries text and place together": the number of every line of a model text is read, and the end of every code line found, through
// it. It is thin: the work is left to `sound_line` and `fed_number`, and `line_at` and `number_at`, whose parameters are plain, serve every caller.
ghost use Rattle.std.specs.Prelude.{◌≡◌, ◌≤◌, length};
ghost use Rattle.terms.specs.Vocabulary.Answers as Answers;
ghost use Rattle.text.specs.Vocabulary.KeyLines as KeyLines;
ghost use Rattle.text.specs.Vocabulary.LineEnds as LineEnds;

use crate::{ends, numbers};
use terms::Parsed;

// A text with the place where reading stands.
#[derive(Clone, Copy, Debug)]
pub struct Reader<'a> {
    pub text: &'a [u8],
    pub at: usize,
}

impl<'a> Reader<'a> {
    // A reader that stands at a place of a text.
    fn new(text: &'a [u8], at: usize) -> Reader<'a>
        ensures { (result.text ≡ text.entry) × (result.at ≡ at) }
    {
        Reader { text, at }
    }

    // The end of the line that begins where the reader stands.
    fn line(self) -> Option<usize>
        requires { self.at ≤ length self.text.now }
        ensures { result ≡ LineEnds.sound_end self.entry.text.now self.entry.at }
    {
        ends::sound_line(self.text, self.at)
    }

    // The number that stands where the reader does, from its lowest to its highest, if an LF is behind it.
    fn number(self, lowest: u32, highest: u32) -> Parsed<u32>
        ensures { result ≡ Answers.as_result (KeyLines.fed_number lowest highest self.entry.text.now self.entry.at) }
    {
        numbers::fed_number(self.text, self.at, lowest, highest)
    }
}

// The end of the line that begins at a place of a text.
pub fn line_at(text: &[u8], at: usize) -> Option<usize>
    requires { at ≤ length text.now }
    ensures { result ≡ LineEnds.sound_end text.now at }
{
    Reader::new(text, at).line()
}

// The number that stands at a place of a text, from its lowest to its highest, if an LF is behind it.
pub fn number_at(text: &[u8], at: usize, lowest: u32, highest: u32) -> Parsed<u32>
    ensures { result ≡ Answers.as_result (KeyLines.fed_number lowest highest text.now at) }
{
    Reader::new(text, at).number(lowest, highest)
}
