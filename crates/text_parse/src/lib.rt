// A line of text read as an entry: its word, then its items, each parted from the next.
#![tactic(auto)]

ghost use Rattle.std.specs.Prelude.{◌≡◌, ◌≢◌, drop, IfSome};
ghost use Rattle.text_items.specs.Sorts.{sort_number, item_number, entry_in};
ghost use Rattle.text_parse.specs.Entry.{word_text, word_of, next_field, item_due, gap_before, next_cell, gathered, parsed_of, items_read, item_refused, ended_by};
ghost use Rattle.text_parse.specs.Outcomes.{word_in, next_in, placed, parsed_in};
ghost use Rattle.text_scan.specs.Outcomes.{gap_in};

use text_items::{Entry, Item, Sort};
use text_scan::{Expected, Found, Wrong};

// What a line says, and where it ends: at its comment, or past its last byte.
#[derive(Clone, Copy)]
pub struct Parsed {
    pub entry: Entry,
    pub at: usize,
}

// A sort of line, and how long the word is that names it.
#[derive(Clone, Copy)]
struct Word {
    kind: Sort,
    used: usize,
}

// What comes next in a line: an item, or its end, so many bytes on.
#[derive(Clone, Copy)]
enum Next {
    Item(Found),
    End(usize),
}

// How the items of a line are read: by its sort, by the year of the sheet before it, 0 where there is none, and by its separator, 0 where it is no line of cells
// (both as `parse` and `text_scan::separator_of` tell them).
#[derive(Clone, Copy)]
struct Items {
    kind: Sort,
    year: u16,
    sep: u8,
}

// Whether a word stands in front, parted from what follows.
fn is_word(s: &[u8], word: &[u8]) -> bool
    ensures { result ≡ Rattle.text_parse.specs.Entry.is_word s.now word.now }
{
    s.starts_with(word) && text_scan::parted_here(wire::part(s, word.len(), s.len()))
}

// The word in front.
fn word_of(s: &[u8]) -> Option<Word>
    ensures word { word_in result ≡ word_of s.now }
    ensures named { IfSome result (λ w. sort_number w.kind ≢ 0) }
{
    if is_word(s, b"sheet") {
        return Some(Word {
            kind: Sort::Sheet,
            used: 5,
        });
    }
    if is_word(s, b"simple") {
        return Some(Word {
            kind: Sort::Simple,
            used: 6,
        });
    }
    if is_word(s, b"stepped") {
        return Some(Word {
            kind: Sort::Stepped,
            used: 7,
        });
    }
    if is_word(s, b"hex") {
        return Some(Word {
            kind: Sort::Hex,
            used: 3,
        });
    }
    None
}

impl Items {
    // The k-th item, past the gaps in front.
    fn next_field(self, s: &[u8], k: usize) -> Result<Next, Wrong>
        ensures { next_in result ≡ next_field s.now (sort_number self.kind) k self.year }
    {
        let skipped = text_scan::gaps_in(s);
        let body = &s[skipped..];
        if text_scan::ends_here(body) {
            return Ok(Next::End(skipped));
        }
        if text_items::most_of(self.kind) <= k {
            return Err(Expected::NoMore.at(skipped));
        }
        let found = match text_scan::item_found(
            body,
            text_items::item_of(self.kind, k),
            self.year,
        ) {
            Ok(found) => found,
            Err(wrong) => return Err(wrong.expected.at(skipped)),
        };
        let past = skipped + found.used;
        if !text_scan::parted_here(&s[past..]) {
            return Err(Expected::Gap.at(past));
        }
        Ok(Next::Item(Found {
            value: found.value,
            used: past,
        }))
    }

    // Whether the line goes on with an item that a line of its sort has room for.
    fn item_due(self, s: &[u8], k: usize) -> bool
        ensures { result ≡ item_due s.now (sort_number self.kind) k }
    {
        !text_scan::ends_here(s) && k < text_items::most_of(self.kind)
    }

    // What is said of the gap in front of the k-th item: in a line of cells it is as such a line asks, and in any other every gap is right.
    fn gap_before(self, s: &[u8], k: usize) -> Result<(), Wrong>
        ensures { gap_in result ≡ gap_before s.now (sort_number self.kind) k self.sep }
    {
        if self.sep == 0 {
            return Ok(());
        }
        let skipped = text_scan::gaps_in(s);
        let due = self.item_due(wire::part(s, skipped, s.len()), k);
        text_scan::gap_said(wire::part(s, 0, skipped), self.sep, due)
    }

    // The k-th item, where the gap in front of it is right.
    fn next_cell(self, s: &[u8], k: usize) -> Result<Next, Wrong>
        ensures { next_in result ≡ next_cell s.now (sort_number self.kind) k self.year self.sep }
    {
        self.gap_before(s, k)?;
        self.next_field(s, k)
    }

    // The k-th item of a line from a place on, with places of the line.
    fn next_at(self, line: &[u8], at: usize, k: usize) -> Result<Next, Wrong>
        ensures { next_in result ≡ placed at (next_cell (drop at line.now) (sort_number self.kind) k self.year self.sep) }
    {
        match self.next_cell(wire::part(line, at, line.len()), k) {
            Ok(Next::Item(found)) => Ok(Next::Item(Found {
                value: found.value,
                used: at + found.used,
            })),
            Ok(Next::End(used)) => Ok(Next::End(at + used)),
            Err(wrong) => Err(wrong.expected.at(at + wrong.at)),
        }
    }

    // The entry of a line whose items are read from a place on. The longest line has 261, and one turn more meets its end.
    fn gather(self, line: &[u8], start: usize) -> Result<Parsed, Wrong>
        ensures { parsed_in result ≡ gathered line.now start (sort_number self.kind) self.year self.sep }
    {
        let mut values = [0u32; 261];
        let mut at = start;
        for k in 0..262 {
            match self.next_at(line, at, k)? {
                Next::Item(found) if k < 261 => {
                    values[k] = found.value;
                    at = found.used;
                }
                Next::Item(found) => return Err(Expected::NoMore.at(found.used)),
                Next::End(end) => return ended(end, self.kind, k, values),
            }
        }
        Err(Expected::NoMore.at(at))
    }

    // How many items of a line are read, from a place on.
    fn items_read(self, line: &[u8], start: usize) -> usize
        ensures { result ≡ items_read line.now start (sort_number self.kind) self.year self.sep }
    {
        let mut at = start;
        for read in 0..261 {
            let next = match self.next_at(line, at, read) {
                Ok(next) => next,
                Err(_) => return read,
            };
            let Next::Item(found) = next else {
                return read;
            };
            at = found.used;
        }
        261
    }
}

// The entry of a line that ends at a place behind so many items, where it is whole with them.
fn ended(end: usize, kind: Sort, count: usize, values: [u32; 261]) -> Result<Parsed, Wrong>
    ensures { parsed_in result ≡ ended_by 255 end (sort_number kind) count values }
{
    if !text_items::is_whole(kind, count) {
        return Err(Expected::More.at(end));
    }
    Ok(Parsed {
        entry: Entry {
            kind,
            count,
            values,
        },
        at: end,
    })
}

// A line, without its newline: its entry, which is blank where the line has nothing but gaps and a comment, and where it ends; or what was expected, and at which byte of the line,
// from 0. The year is that of the sheet before it, 0 where there is none.
pub fn parse(line: &[u8], year: u16) -> Result<Parsed, Wrong>
    ensures { parsed_in result ≡ parsed_of line.now year }
{
    let skipped = text_scan::gaps_in(line);
    let rest = &line[skipped..];
    if text_scan::ends_here(rest) {
        return Ok(Parsed {
            entry: Entry {
                kind: Sort::Blank,
                count: 0,
                values: [0; 261],
            },
            at: skipped,
        });
    }
    let sep = text_scan::separator_of(line);
    if let Some(other) = text_scan::other_at(wire::part(line, 0, skipped), sep) {
        return Err(Expected::OtherSeparator.at(other));
    }
    let Some(word) = word_of(rest) else {
        return Err(Expected::Word.at(skipped));
    };
    let items = Items {
        kind: word.kind,
        year,
        sep,
    };
    items.gather(line, skipped + word.used)
}

// The sort of the item past those of a line that are read: where the line is refused at an item, the sort of that item.
pub fn item_refused(line: &[u8], year: u16) -> Item
    ensures { item_number result ≡ item_refused line.now year }
{
    let skipped = text_scan::gaps_in(line);
    let word = word_of(wire::part(line, skipped, line.len())).unwrap_or(Word {
        kind: Sort::Blank,
        used: 0,
    });
    let items = Items {
        kind: word.kind,
        year,
        sep: text_scan::separator_of(line),
    };
    let read = items.items_read(line, skipped + word.used);
    text_items::item_of(word.kind, read)
}
