// Text put together byte by byte in an array by value.
#![tactic(auto)]

ghost use Rattle.std.specs.Prelude.{◌≡◌, []};
ghost use Rattle.text.specs.Text.{text_of, pushed, pushed_all, number_text, two_text};

// The text, and how long it is; the bytes past it are 0, as `text_of` has them. An array beside a length, since library crates have no heap.
#[derive(Clone, Copy)]
pub struct Text {
    pub bytes: [u8; 1024],
    pub len: usize,
}

impl Text {
    // No text.
    pub fn empty() -> Text
        ensures { result ≡ text_of [] }
    {
        Text {
            bytes: [0; 1024],
            len: 0,
        }
    }

    // The text with one byte more; a full one stays as it is.
    #[tactic(auto, unfolding(crate::specs::Text::pushed))]
    pub fn with_byte(self, b: u8) -> Text
        ensures { result ≡ pushed self b }
    {
        let mut text = self;
        if text.len < 1024 {
            text.bytes[text.len] = b;
            text.len += 1;
        }
        text
    }

    // The text with some words more.
    pub fn with_words(self, words: &[u8]) -> Text
        ensures { result ≡ pushed_all self words.now }
    {
        let mut text = self;
        for &b in words {
            text = text.with_byte(b);
        }
        text
    }

    // The text with a number in decimal digits, the most significant first. Not by a pen: `zero_as_space` and `number_turned` are wrong programs of this body.
    pub fn with_number(self, n: u64) -> Text
        ensures { result ≡ pushed_all self (number_text n) }
    {
        if n < 10 {
            return self.with_byte(48 + n as u8);
        }
        self.with_number(n / 10).with_byte(48 + (n % 10) as u8)
    }

    // The text with the last two digits of a number.
    pub fn with_two(self, n: u64) -> Text
        ensures { result ≡ pushed_all self (two_text n) }
    {
        self.with_byte(48 + (n / 10 % 10) as u8)
            .with_byte(48 + (n % 10) as u8)
    }
}
