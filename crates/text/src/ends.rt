// "lines of at most 120 bytes from 32 to 126, each ended by LF"
ghost use Rattle.std.specs.Prelude.{true, ◌≡◌, ◌-◌, ◌≤◌, length, take, drop};
ghost use Rattle.text.specs.Lines as Lines;
ghost use Rattle.text.specs.Vocabulary.LineEnds as LineEnds;

pub const LONGEST_LINE: usize = 120;

// So many bytes are tested without a branch between them, which the compiler does at once.
const GROUP: usize = 8;

// "bytes from 32 to 126"
#[tactic(auto, unfolding(crate::specs::Lines::plain_byte))]
fn is_plain(b: u8) -> bool
    ensures { result ≡ Lines.plain_byte b }
{
    (32..=126).contains(&b)
}

// Whether a group of bytes is plain.
fn are_plain(group: &[u8]) -> bool
    ensures { result ≡ Lines.plain_bytes group.now }
{
    group.iter().fold(true, |plain, &b| plain & is_plain(b))
}

// A place behind plain bytes: past each whole group of them, up to the first that is not.
#[tactic(auto, using(crate::proofs::Plain::plain_begun, crate::proofs::Plain::plain_past))]
fn past_groups(text: &[u8], at: usize, stop: usize) -> usize
    requires { (at ≤ stop) × (stop ≤ length text.now) }
    ensures within { (at ≤ result) × (result ≤ stop) }
    ensures plain { Lines.plain_bytes (take (result - at) (drop at text.now)) ≡ true }
{
    // A loop: by `chunks_exact` and `take_while` the lines of a text take 2 to 7 in 100 instructions more.
    let mut i = at;
    while stop - i >= GROUP && are_plain(&text[i..i + GROUP]) {
        i += GROUP;
    }
    i
}

// The end of the line that begins at a place, found and tested in one pass.
#[tactic(auto, using(crate::proofs::SoundEnds::end_from_plain, crate::proofs::SoundEnds::end_onward, crate::proofs::SoundEnds::end_stopped, crate::proofs::SoundEnds::end_tested))]
pub fn sound_line(text: &[u8], at: usize) -> Option<usize>
    requires { at ≤ length text.now }
    ensures { result ≡ LineEnds.sound_end text.now at }
{
    // Behind the latest place of the line's LF, or at the end of the text.
    let stop = at + (text.len() - at).min(LONGEST_LINE + 1);
    // By index: with `position` in place of this loop the lines of a text take 2 to 5 in 100 instructions more.
    for i in past_groups(text, at, stop)..stop {
        let b = text[i];
        if !is_plain(b) {
            return (b == b'\n').then_some(i);
        }
    }
    None // no LF: the line is too long, or the text has ended
}
