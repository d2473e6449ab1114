// Bytes written one after another at the front of memory that a caller lent: words, numbers as decimals, and lines of both.
ghost use Rattle.std.specs.Prelude.{◌≡◌, ◌+◌, ◌≤◌, length};
ghost use Rattle.session.specs.Shown as Shown;
ghost use Rattle.transcript.specs.Vocabulary.Front.{Adds};

// The memory, and how many bytes stand at its front.
#[derive(Drop)]
pub(crate) struct Front<'o> {
    out: &'o mut [u8],
    at: usize,
}

impl<'o> Front<'o> {
    // Nothing is written yet.
    pub(crate) fn new(out: &'o mut [u8]) -> Front<'o>
        ensures same_reference { result.out.ghost_name ≡ out.entry.ghost_name }
        ensures out { result.out.now ≡ out.old }
        ensures at { result.at ≡ 0 }
    {
        Front { out, at: 0 }
    }

    // How many bytes were written.
    pub(crate) fn written(&self) -> usize
        ensures { result ≡ self.now.at }
    {
        self.at
    }

    // Some bytes more.
    fn put(&mut self, bytes: &[u8])
        requires { self.old.at + length bytes.now ≤ length self.old.out.now }
        ensures { Adds bytes.now self.old self.new }
    {
        let end = self.at + bytes.len();
        self.out[self.at..end].copy_from_slice(bytes);
        self.at = end;
    }

    // A number as a decimal.
    #[tactic(auto, using(crate::proofs::NumbersShown::shown_decimal, crate::proofs::Storing::adds_as))]
    fn number(&mut self, n: u32)
        requires { self.old.at + 10 ≤ length self.old.out.now }
        ensures adds { Adds (Shown.shown n) self.old self.new }
        ensures upper_bound { self.new.at ≤ self.old.at + 10 }
    {
        self.put(itoa::Buffer::new().format(n).as_bytes());
    }

    // A name with its `=`, a number, and an LF: at most 20 bytes.
    pub(crate) fn line(&mut self, name: &[u8], n: u32)
        requires name_len_bound { length name.now ≤ 9 }
        requires at_in_bounds { self.old.at + 20 ≤ length self.old.out.now }
        ensures adds { Adds (Shown.shown_line name.now n) self.old self.new }
        ensures upper_bound { self.new.at ≤ self.old.at + 20 }
    {
        self.put(name);
        self.number(n);
        self.put(b"\n");
    }
}
