// Text into a lent output: words, values in decimal, and lines of them, each after the last byte that was written, so that what is
// written one after the other is one text.
#![tactic(auto)]

ghost use Rattle.std.specs.Prelude.{◌≡◌, [], ◌∷◌, ◌++◌, length};
ghost use Rattle.text.specs.Text.{decimal, fields, line};
ghost use Rattle.text.specs.Output.{HasRoom, wrote};

#[derive(Drop)]
pub struct Output<'a> {
    pub bytes: &'a mut [u8],
    // how many bytes of text stand at the front
    pub end: usize,
}

// How many digits a value has in decimal.
#[tactic(auto, using(crate::proofs::Decimal::decimal_size, crate::proofs::Decimal::decimal_none))]
pub fn decimal_length(x: u64) -> usize
    ensures { result ≡ length (decimal x) }
{
    1 + x.checked_ilog10().unwrap_or(0) as usize
}

impl Output<'_> {
    #[tactic(auto, unfolding(crate::specs::Output::wrote))]
    fn put_byte(&mut self, byte: u8)
        requires { HasRoom (byte ∷ []) self.old }
        ensures { self.new ≡ wrote (byte ∷ []) self.old }
    {
        self.bytes[self.end] = byte;
        self.end += 1;
    }

    #[tactic(auto, using(numbers::proofs::Parts::copied_from), unfolding(crate::specs::Output::wrote))]
    pub fn put_word(&mut self, word: &[u8])
        requires { HasRoom word.now self.old }
        ensures { self.new ≡ wrote word.now self.old }
    {
        self.end += front::put(word, &mut self.bytes[self.end..]);
    }

    #[tactic(auto, using(crate::proofs::Writing::writing))]
    fn put_pair(&mut self, first: u8, second: u8)
        requires { HasRoom (first ∷ second ∷ []) self.old }
        ensures { self.new ≡ wrote (first ∷ second ∷ []) self.old }
    {
        self.put_byte(first);
        self.put_byte(second);
    }

    // A value in decimal: the digits before the last two are those of a hundredth of it.
    #[tactic(auto, using(crate::proofs::Writing::writing, crate::proofs::Decimal::in_decimal))]
    pub fn put_decimal(&mut self, x: u64)
        requires { HasRoom (decimal x) self.old }
        ensures { self.new ≡ wrote (decimal x) self.old }
    {
        let last = (48 + x % 10) as u8;
        if x < 10 {
            return self.put_byte(last);
        }
        let tens = (48 + x / 10 % 10) as u8;
        if x < 100 {
            return self.put_pair(tens, last);
        }
        self.put_decimal(x / 100);
        self.put_pair(tens, last);
    }

    // A blank and a value.
    #[tactic(auto, using(crate::proofs::Writing::writing, crate::proofs::Decimal::field))]
    fn put_field(&mut self, x: u64)
        requires { HasRoom (fields (x ∷ [])) self.old }
        ensures { self.new ≡ wrote (fields (x ∷ [])) self.old }
    {
        self.put_byte(b' ');
        self.put_decimal(x);
    }

    // A word and values, a blank before each value.
    #[tactic(auto, using(crate::proofs::Writing::writing, crate::proofs::Decimal::one_by_one))]
    pub fn put_fields(&mut self, word: &[u8], values: &[u64])
        requires { HasRoom (word.now ++ fields values.now) self.old }
        ensures { self.new ≡ wrote (word.now ++ fields values.now) self.old }
    {
        self.put_word(word);
        for x in values {
            self.put_field(*x);
        }
    }

    // The same and a line feed.
    #[tactic(auto, using(crate::proofs::Writing::writing))]
    pub fn put_line(&mut self, word: &[u8], values: &[u64])
        requires { HasRoom (line word.now values.now) self.old }
        ensures { self.new ≡ wrote (line word.now values.now) self.old }
    {
        self.put_fields(word, values);
        self.put_byte(b'\n');
    }
}
