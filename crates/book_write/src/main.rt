// A book from text: the name of a text as argument, the book that its lines stand for on standard output. The text is read twice, and nothing is written
// unless all of it is right.
#![tactic(auto)]

use likeness::Likeness;
use std::fs::File;
use std::io::Read;
use std::rt::{Env, Files};
use text_items::{Entry, Sort};
use text_scan::{Expected, Wrong};

// More pieces than any file has: 2^40. Past them the reading has failed.
const MOST_PIECES: u64 = 1099511627776;

// The bytes of a book that wait before they are written out. A line stands for at most 1,038, so that the buffer has room for one more.
const MOST_WAITING: usize = 61440;

// ---- what goes wrong: one line on standard error

// The text is wrong or cannot be read, or the book cannot be written: that has been told.
#[derive(Drop)]
struct Told;

fn tell(err: &impl Print, words: &[u8]) {
    let _ = err.write_all(words);
}

fn complain(err: &impl Print, what: &[u8], why: &[u8]) {
    tell(err, b"book_write: ");
    tell(err, what);
    tell(err, why);
}

// What stands in the place of another thing, and what to write.
fn likeness_sentence(likeness: Likeness) -> &'static str {
    match likeness {
        Likeness::ByteOrderMark =>
            "a byte-order mark: save the text without one, in a spreadsheet as CSV and not as CSV UTF-8",
        Likeness::Quoted => "a quotation mark: write words and numbers without any",
        Likeness::Capitals =>
            "a word in capital letters: write sheet, simple, stepped or hex in small ones",
        Likeness::Header => "a header row: write # before it, and it is a comment",
        Likeness::OtherTime =>
            "a time of another form: write MM-DD hh:mm, as 03-14 01:24, or minutes from 1 January 00:00",
    }
}

// What was expected.
fn expected_sentence(expected: Expected) -> &'static str {
    match expected {
        Expected::Word => "expected sheet, simple, stepped or hex at the line's beginning",
        Expected::Number => "expected a whole number in decimal digits",
        Expected::AtMost255 => "expected a number of at most 255",
        Expected::AtMost65535 => "expected a number of at most 65535",
        Expected::AtMost4294967295 => "expected a number of at most 4294967295",
        Expected::Time => "expected a time: minutes from 1 January 00:00, or MM-DD hh:mm",
        Expected::SheetBefore =>
            "expected a sheet that is in range on a line before a time as MM-DD hh:mm; minutes can be written without one",
        Expected::DayOfYear => "expected a day of the sheet's year, and a time from 00:00 to 23:59",
        Expected::TwoDigits => "expected two hexadecimal digits",
        Expected::Gap => "expected a space, a tab, a comma, a semicolon or a bar",
        Expected::NoMore =>
            "expected the line's end: a sheet has 4 numbers, a simple event 15, a stepped event at most 64 steps, hex at most 32 bytes",
        Expected::More =>
            "expected more numbers: a sheet has 4, a simple event 15, a stepped event 5 and then 4 for each step, hex at least one byte",
        Expected::OtherSeparator =>
            "expected the line's separator: one of comma, semicolon and tab parts all its cells",
        Expected::Separator =>
            "expected the line's separator: in a line of cells a space or a bar alone parts nothing; write 1000, not 1 000",
        Expected::EmptyCell => "an empty cell; write 0",
    }
}

// A number more by one, in the small range that lines and columns have.
fn next(n: u64) -> u64 {
    if MOST_PIECES < n { n } else { n + 1 }
}

// ---- a text

// A text being read: where its book goes and what is wrong with it, its name, and whether the book is to be written yet; the lines read and the year that
// times are told in; and the book's bytes that wait, and where the next one goes.
#[derive(Drop)]
struct Text<'a, P: Print, E: Print> {
    rt: &'a P,
    err: &'a E,
    name: &'a [u8],
    writing: bool,
    line: u64,
    year: u16,
    out: [u8; 65536],
    at: usize,
}

impl<'a, P: Print, E: Print> Text<'a, P, E> {
    fn new(rt: &'a P, err: &'a E, name: &'a [u8], writing: bool) -> Text<'a, P, E> {
        Text {
            rt,
            err,
            name,
            writing,
            line: 0,
            year: 0,
            out: [0; 65536],
            at: 0,
        }
    }

    // The place in the text: its name, the line and the column, each from 1.
    fn tell_where(&self, column: u64) {
        tell(self.err, self.name);
        let _ = print!(self.err; ":{}:{column}: ", next(self.line));
    }

    // What is wrong at a place of a line: what stands there where it has a name, and else what was expected.
    fn tell_wrong(&self, line: &[u8], wrong: Wrong) {
        self.tell_where(next(wrong.at as u64));
        let expected = Some(wrong.expected);
        let sentence = match likeness::likeness_of(line, wrong.at, expected, self.year) {
            Some(likeness) => likeness_sentence(likeness),
            None => expected_sentence(wrong.expected),
        };
        tell(self.err, sentence.as_bytes());
        tell(self.err, b"\n");
    }

    // Writes out the bytes that wait.
    fn write_out(&mut self) -> Result<(), Told> {
        let waiting = wire::part(&self.out, 0, self.at);
        if self.rt.write_all(waiting).is_err() {
            complain(self.err, b"the book", b" cannot be written\n");
            return Err(Told);
        }
        self.at = 0;
        Ok(())
    }

    // The bytes that an entry stands for, behind those that wait where the book is to be written. A sheet tells the year.
    fn put(&mut self, entry: Entry) {
        let end = pack::pack(&mut self.out, self.at, entry);
        if entry.kind == Sort::Sheet {
            self.year = unpack::year_after(self.year, wire::part(&self.out, self.at, end));
        }
        if self.writing {
            self.at = end;
        }
    }

    // One line. A blank one stands for no bytes.
    fn take_line(&mut self, line: &[u8]) -> Result<(), Told> {
        match text_parse::parse(line, self.year) {
            Ok(parsed) if parsed.entry.kind == Sort::Blank => {}
            Ok(parsed) => self.put(parsed.entry),
            Err(wrong) => {
                self.tell_wrong(line, wrong);
                return Err(Told);
            }
        }
        self.line = next(self.line);
        if MOST_WAITING <= self.at {
            return self.write_out();
        }
        Ok(())
    }

    // The whole lines of what has arrived: where they end.
    fn take_lines(&mut self, arrived: &[u8]) -> Result<usize, Told> {
        let Some(last) = arrived.iter().rposition(|b| *b == b'\n') else {
            return Ok(0);
        };
        for line in arrived[..last].split(|b| *b == b'\n') {
            self.take_line(line)?;
        }
        Ok(last + 1)
    }

    // The last line, where it has no newline, and the bytes that still wait.
    fn take_last(&mut self, line: &[u8]) -> Result<(), Told> {
        if !line.is_empty() {
            self.take_line(line)?;
        }
        self.write_out()
    }

    // Reads a text to its end: how many bytes it has.
    fn read(&mut self, reader: &mut impl Read, buffer: &mut [u8]) -> Result<u64, Told> {
        let mut held = 0;
        let mut size: u64 = 0;
        for _ in 0..MOST_PIECES {
            if buffer.len() <= held {
                self.tell_where(65536);
                tell(self.err, b"expected a line of at most 65535 bytes\n");
                return Err(Told);
            }
            let count = match refill::read_behind(reader, buffer, held) {
                Ok(Some(count)) => count,
                Ok(None) => {
                    self.take_last(wire::part(&buffer[..], 0, held))?;
                    return Ok(size.saturating_add(held as u64));
                }
                Err(_) => {
                    complain(self.err, self.name, b" cannot be read\n");
                    return Err(Told);
                }
            };
            let stop = self.take_lines(wire::part(&buffer[..], 0, count))?;
            records::move_to_front(buffer, stop, count);
            held = count.saturating_sub(stop);
            size = size.saturating_add(stop as u64);
        }
        Err(Told)
    }
}

// Reads a text that was opened. The room for its bytes and for the book's is made here alone, and not for a name that opens nothing.
fn read_opened(
    rt: &impl Print,
    err: &impl Print,
    reader: &mut impl Read,
    name: &[u8],
    writing: bool,
) -> Result<u64, Told> {
    let mut buffer = [0u8; 65536];
    Text::new(rt, err, name, writing).read(reader, &mut buffer)
}

// Opens a text and reads it. A name that is no UTF-8 names no text.
fn read_named(
    rt: &(impl Print + Files),
    err: &impl Print,
    name: &[u8],
    writing: bool,
) -> Result<u64, Told> {
    if let Ok(path) = str::from_utf8(name)
        && let Ok(mut file) = File::open(rt, path)
    {
        return read_opened(rt, err, &mut file, name, writing);
    }
    complain(err, name, b" cannot be opened\n");
    Err(Told)
}

// The text twice: at first nothing is written.
fn write_book(rt: &(impl Print + Files), err: &impl Print, name: &[u8]) -> Result<(), Told> {
    let first = read_named(rt, err, name, false)?;
    let second = read_named(rt, err, name, true)?;
    if first != second {
        complain(
            err,
            name,
            b" was not the same when it was read again: it must be a file that nobody changes\n",
        );
    }
    Ok(())
}

fn main(rt: HostRuntime) {
    let mut name = [0u8; 4096];
    let err = rt.stderr();
    match rt.arg(1, &mut name) {
        Ok(n) => {
            let _ = write_book(&rt, &err, &name[..n]);
        }
        Err(_) => complain(
            &err,
            b"the name of one text",
            b" is needed: book_write TEXT >BOOK\n",
        ),
    }
}
