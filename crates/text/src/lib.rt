// Text in lent bytes: a page has come so far in them, and each method goes on from there.
#![tactic(auto)]

ghost use Rattle.std.specs.Prelude.{◌∷◌, [], ◌+◌, ◌≤◌, length};
ghost use Rattle.text.specs.Text.{decimal, spaced};
ghost use Rattle.text.specs.Parts.{Wrote, HasRoom};

// Lent bytes that are written from the front on, and how many are. No `fmt::Write`: its `write_str`
// may fail and takes a `str`, where these methods cannot, by their contracts, and take bytes. Each
// method asks for another room by `HasRoom`, which an invariant could not say.
#[derive(Drop)]
pub struct Page<'a> {
    pub out: &'a mut [u8],
    pub at: usize,
}

impl Page<'_> {
    // One byte.
    pub fn byte(&mut self, b: u8)
        requires { HasRoom self.old 1 }
        ensures { Wrote self.old (b ∷ []) self.new }
    {
        self.out[self.at] = b;
        self.at += 1;
    }

    // The bytes of a word.
    pub fn word(&mut self, word: &[u8])
        requires { HasRoom self.old (length word.now) }
        ensures { Wrote self.old word.now self.new }
    {
        let end = self.at + word.len();
        self.out[self.at..end].copy_from_slice(word);
        self.at = end;
    }

    // The decimal digits of n. A branch for one digit: most numbers of a listing have one.
    pub fn decimal(&mut self, n: u64)
        requires { HasRoom self.old (length (decimal n)) }
        ensures { Wrote self.old (decimal n) self.new }
    {
        if n < 10 {
            return self.byte(b'0' + n as u8);
        }
        let end = self.at + n.ilog10() as usize + 1;
        itoa::write_digits(n, self.out, end);
        self.at = end;
    }

    // A space and the digits of n.
    pub fn spaced(&mut self, n: u64)
        requires { HasRoom self.old (length (spaced n)) }
        ensures { Wrote self.old (spaced n) self.new }
    {
        self.byte(b' ');
        self.decimal(n);
    }
}
