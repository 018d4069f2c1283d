// Words, each a text or a number in decimal digits, laid into a lent buffer of bytes.
#![tactic(auto)]

ghost use Rattle.std.specs.Prelude.{◌≡◌};
ghost use Rattle.text.specs.Text.{decimal_of, signed_of, word_text, Puts};

// A number has no leading zero, and a minus sign where it is below 0.
#[derive(Clone, Copy)]
pub enum Word<'a> {
    Text(&'a [u8]),
    Number(u64),
    Signed(i64),
}

// Lent bytes, and the place where the next one goes.
#[derive(Drop)]
pub struct Page<'a> {
    pub bytes: &'a mut [u8],
    pub at: usize,
}

impl<'a> Page<'a> {
    // From place 0 on.
    pub fn new(bytes: &'a mut [u8]) -> Page<'a>
        ensures bytes { result.bytes.now ≡ bytes.old }
        ensures same { result.bytes.ghost_name ≡ bytes.entry.ghost_name }
        ensures place { result.at ≡ 0 }
    {
        Page {
            bytes: bytes,
            at: 0,
        }
    }

    // The text goes in, and the place is the one after it; where there is no room for all of it, nothing is done.
    #[inline(always)]
    pub fn put_bytes(&mut self, text: &[u8])
        ensures { Puts self.old text.now self.new }
    {
        let end = self.at.saturating_add(text.len());
        if end <= self.bytes.len() {
            self.bytes[self.at..end].copy_from_slice(text);
            self.at = end;
        }
    }

    // The same for a number.
    #[inline(always)]
    fn put_number(&mut self, n: u64)
        ensures { Puts self.old (decimal_of n) self.new }
    {
        // Most have one digit, and that goes in with no copy.
        if n < 10 {
            return self.put_bytes(&[b'0' + n as u8]);
        }
        self.put_bytes(itoa::Buffer::new().format(n).as_bytes())
    }

    // With a minus sign where it is below 0.
    #[inline(always)]
    fn put_signed(&mut self, x: i64)
        ensures { Puts self.old (signed_of x) self.new }
    {
        if 0 <= x {
            return self.put_number(x.unsigned_abs());
        }
        self.put_bytes(itoa::Buffer::new().format(x).as_bytes())
    }

    // The same for a word. Not by `write!`: no clause of std says that it is Ok where there is room.
    #[inline(always)]
    pub fn put(&mut self, word: Word)
        ensures { Puts self.old (word_text word.entry) self.new }
    {
        match word {
            Word::Text(text) => self.put_bytes(text),
            Word::Number(n) => self.put_number(n),
            Word::Signed(x) => self.put_signed(x),
        }
    }
}
