// Bytes written one after the other into a lent buffer.
#![tactic(auto)]

ghost use Rattle.std.specs.Prelude.{◌%◌, ◌≡◌, [], ◌∷◌};
ghost use Rattle.pen.specs.Pen.{inked, spot, pushed_all, hex_digit, hex_text};
ghost use Rattle.wire.specs.Numbers.{le2, le4};
ghost use Rattle.text.specs.Text.{number_text, two_text};

// A lent buffer, and the place of the next byte. What does not fit is left out.
#[derive(Drop)]
pub struct Pen<'a> {
    pub out: &'a mut [u8],
    pub at: usize,
}

impl Pen<'_> {
    // One byte.
    #[tactic(auto, unfolding(crate::specs::Pen::pushed))]
    pub fn put(&mut self, b: u8)
        ensures { self.new ≡ inked self.old (b ∷ []) }
    {
        if self.at < self.out.len() {
            self.out[self.at] = b;
            self.at += 1;
        }
    }

    // Some words.
    pub fn put_words(&mut self, words: &[u8])
        ensures { self.new ≡ inked self.old words.now }
    {
        for &b in words {
            self.put(b);
        }
    }

    // A number in decimal digits, the most significant first. Not by a text: `zero_as_space` and `digit_skipped` are wrong programs of this body.
    #[cycle(number)]
    #[inline(always)]
    pub fn put_number(&mut self, n: u32)
        ensures { self.new ≡ inked self.old (number_text n) }
    {
        if n < 10 {
            return self.put(48 + n as u8);
        }
        let at = self.at;
        self.at = put_number_at(&mut self.out[..], at, n / 10);
        self.put(48 + (n % 10) as u8);
    }

    // The last two decimal digits of a number.
    pub fn put_two(&mut self, n: u32)
        ensures { self.new ≡ inked self.old (two_text n) }
    {
        self.put(48 + (n / 10 % 10) as u8);
        self.put(48 + (n % 10) as u8);
    }

    // The last two hexadecimal digits of a number.
    pub fn put_hex(&mut self, n: u32)
        ensures { self.new ≡ inked self.old (hex_text n) }
    {
        self.put(hex_digit((n / 16 % 16) as u8));
        self.put(hex_digit((n % 16) as u8));
    }

    // The lowest two bytes of a number, the lowest first.
    pub fn put_le2(&mut self, n: u32)
        ensures { self.new ≡ inked self.old (le2 n) }
    {
        self.put((n % 256) as u8);
        self.put((n / 256 % 256) as u8);
    }

    // The four bytes of a number, the lowest first.
    pub fn put_le4(&mut self, n: u32)
        ensures { self.new ≡ inked self.old (le4 n) }
    {
        self.put_le2(n);
        self.put_le2(n / 65536);
    }
}

// Writes a number into a buffer from a place on, and answers the place after it. A pen that is lent to a function which calls itself is read from memory for
// each byte, and a place is not.
#[cycle(number)]
#[inline(never)]
fn put_number_at(out: &mut [u8], at: usize, n: u32) -> usize
    ensures { spot out.new result ≡ pushed_all (spot out.old at) (number_text n) }
{
    let mut pen = Pen { out, at };
    pen.put_number(n);
    pen.at
}

// The hexadecimal digit of a number below 16.
fn hex_digit(d: u8) -> u8
    ensures { result ≡ hex_digit (d % 16) }
{
    let low = d % 16;
    if low < 10 { 48 + low } else { 87 + low }
}
