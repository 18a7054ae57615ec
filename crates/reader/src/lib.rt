// The book reader: it remembers the book it was given and where the next record starts. All rules stand in wire.
#![tactic(auto)]

ghost use Rattle.std.specs.Prelude.{◌≡◌};
ghost use Rattle.wire.specs.Book.{which_at, record_at, after_at};
ghost use Rattle.reader.specs.Reader.{which_in, bytes_in};

use wire::Place;

// A book, and the offset where its next record starts; the offset may lie past the book's end.
#[derive(Clone, Copy)]
pub struct Reader<'a> {
    pub book: &'a [u8],
    pub at: usize,
}

// A broken length where the next record should start: under 4 or past the book's end, or only 1 to 3 bytes are left.
#[derive(Clone, Copy, Debug, PartialEq, Eq)]
pub struct Broken;

impl<'a> Reader<'a> {
    // A reader at a book's start.
    pub fn new(book: &'a [u8]) -> Reader<'a>
        ensures { (result.book ≡ book.entry) × (result.at ≡ 0) }
    {
        Reader { book, at: 0 }
    }

    // A reader at any offset.
    pub fn from(book: &'a [u8], at: usize) -> Reader<'a>
        ensures { (result.book ≡ book.entry) × (result.at ≡ at) }
    {
        Reader { book, at }
    }

    // The next record's bytes, from which the reader moves past them; `None` at the end, and `Broken` at a broken length, after which it stays.
    pub fn next(&mut self) -> Result<Option<&'a [u8]>, Broken>
        ensures { (which_in result ≡ which_at self.old.book.now self.old.at) × (bytes_in result ≡ record_at self.old.book.now self.old.at) × (self.new.book ≡ self.old.book) × (self.new.at ≡ after_at self.old.book.now self.old.at) }
    {
        match wire::place_at(self.book, self.at) {
            Place::Record { start, end } => {
                self.at = end;
                Ok(Some(wire::part(self.book, start, end)))
            }
            Place::End => Ok(None),
            Place::Broken => Err(Broken),
        }
    }
}
