// Cases of the book entry, of whole books and of the book reader, from a text on standard input. Its lines:
//   -- WORDS                   a heading, printed as it is
//   ledger THERE | YEAR | NN VN VVN | EVENTS SHORT
//                              lends a ledger whose cells are all 0. THERE is 1 for a sheet; it is 0 for none, and the numbers are what stands in its place
//   row TYPE | CUSTOMERS HALVES | CUSTOMERS HALVES | CUSTOMERS HALVES
//                              sets the cells of a type in the lent ledger: NN, VN, VVN
//   map SIZE                   lends an all-zero map of so many bytes, at most 8,193
//   bytes                      no bytes are ready
//   RECORD                     a line of docs/TEXT.md, times in minutes: its bytes are ready, after those that were; at most 2,048 in all
//   NAME: CASE                 prints name and outcome; ledger, map and ready bytes stay as they were
//   NAME:= CASE                the same, and ledger and map are those after it
// A case's BYTES are a RECORD, or `first SIZE | AT BYTE | AT BYTE | AT BYTE`: so many of the ready bytes, with up to three of them changed. A CASE:
//   BYTES                      taken as one record: the answer
//   adds BYTES                 the same, then events, short events, and customers and half minutes of type 11 on NN
//   marks BYTES                the same, then offset and value of each byte of the map that is not 0
//   book BYTES                 read as a whole book: the answer, events, short events, refused records, whether a length was broken (1), and customers
//                              and half minutes of type 11 on NN
//   next OFFSET BYTES          a reader of them at an offset: its answer, the size of its record, the offset of the reader in it, and what that one answers
//   count BYTES                a reader of them, asked on: how many records it gave, the offset where it was left, and its last answer
//   events                     the ledger's events
//   levels FIRST LAST          the level of each voltage code from the first to the last
//   row TYPE                   customers and half minutes of a type on NN, VN, VVN
// All but a RECORD are told by their first letter, and numbers are found whatever stands between them. What begins as no line or case does is printed
// as such.
#![tactic(auto)]

ghost use Rattle.std.specs.Prelude.{◌≡◌, length};
ghost use Rattle.wire.specs.Book.{which_at, record_at, after_at};
ghost use Rattle.wire.specs.Cut.{records_of, stop_from, ends_by};
ghost use Rattle.reader.specs.Reader.{which_in, bytes_in};

use ledger::{Cell, Ledger};
use reader::{Broken, Reader};

// ---- what is printed

fn print_cell(out: &impl Print, cell: Cell) {
    cases::write_numbers(out, &[cell.customers.0, cell.halves.0]);
}

// Events, short events, and the figures of type 11 on NN.
fn print_counts(out: &impl Print, ledger: Ledger) {
    cases::write_number(out, ledger.events);
    cases::write_number(out, ledger.short);
}

fn print_first_cell(out: &impl Print, ledger: Ledger) {
    print_cell(out, ledger.rows[0].levels[0]);
}

fn print_row(out: &impl Print, ledger: Ledger, typ: u64) {
    if let Some(row) = ledger.rows.get(cases::place_of(typ)) {
        for cell in row.levels {
            print_cell(out, cell);
        }
    }
}

// Offset and value of each byte that is not 0.
fn print_marks(out: &impl Print, map: &[u8]) {
    for (at, byte) in map.iter().enumerate() {
        if *byte != 0 {
            cases::write_number(out, at);
            cases::write_number(out, *byte);
        }
    }
}

fn print_levels(out: &impl Print, first: u64, last: u64) {
    for code in 0..=u8::MAX {
        if (first..=last).contains(&u64::from(code)) {
            cases::write_number(out, codes::level_of(code));
        }
    }
}

// Something that is no line, or no case.
fn wrong(out: &impl Print, what: &[u8]) {
    cases::write(out, b" NOT KNOWN: ");
    cases::write_line(out, what);
}

// ---- what a reader answers

// An answer of a reader as a number: 0 a record, 1 the end, 2 a broken length.
fn which_of(answer: Result<Option<&[u8]>, Broken>) -> u8
    ensures { result ≡ which_in answer.entry }
{
    match answer {
        Ok(Some(_)) => 0,
        Ok(None) => 1,
        Err(Broken) => 2,
    }
}

// The size of the record that it is; 0 where there is none.
fn size_of(answer: Result<Option<&[u8]>, Broken>) -> usize
    ensures { result ≡ length (bytes_in answer.entry) }
{
    match answer {
        Ok(Some(record)) => record.len(),
        Ok(None) | Err(Broken) => 0,
    }
}

// What a reader at an offset answers, the size of its record, the offset where the reader then stands, and what it answers there.
#[derive(Drop)]
struct Asked {
    which: u8,
    size: usize,
    at: usize,
    again: u8,
}

// Asks a reader at an offset, and then once more.
fn first_from(book: &[u8], at: usize) -> Asked
    ensures { (result.which ≡ which_at book.now at) × (result.size ≡ length (record_at book.now at)) × (result.at ≡ after_at book.now at) × (result.again ≡ which_at book.now (after_at book.now at)) }
{
    let mut reader = Reader::from(book, at);
    let answer = reader.next();
    let stop = reader.at;
    Asked {
        which: which_of(answer),
        size: size_of(answer),
        at: stop,
        again: which_of(reader.next()),
    }
}

fn print_asked(out: &impl Print, asked: Asked) {
    cases::write_number(out, asked.which);
    cases::write_number(out, asked.size);
    cases::write_number(out, asked.at);
    cases::write_number(out, asked.again);
}

// What a book's reader comes to: how many records it gave, where it was left, and how it ended (1 the end, 2 a broken length).
#[derive(Drop)]
struct Counted {
    count: usize,
    at: usize,
    which: u8,
}

// Asks a book's reader until it answers no record.
fn count_records(book: &[u8]) -> Counted
    ensures { (result.count ≡ length (records_of book.now)) × (result.at ≡ stop_from book.now 0) × (result.which ≡ ends_by book.now) }
{
    let mut reader = Reader::new(book);
    let mut count: usize = 0;
    'records: loop {
        match reader.next() {
            Ok(Some(_)) => count += 1,
            Ok(None) => {
                return Counted {
                    count,
                    at: reader.at,
                    which: 1,
                };
            }
            Err(Broken) => {
                return Counted {
                    count,
                    at: reader.at,
                    which: 2,
                };
            }
        }
    }
}

fn print_counted(out: &impl Print, counted: Counted) {
    cases::write_number(out, counted.count);
    cases::write_number(out, counted.at);
    cases::write_number(out, counted.which);
}

// ---- what is lent

// A ledger, a map of so many bytes, and the bytes that are ready.
#[derive(Clone, Copy)]
struct Bench {
    ledger: Ledger,
    map: [u8; 8193],
    size: usize,
    bytes: [u8; 2048],
    held: usize,
}

// The bytes of a case, at the front of those that were ready, and how many they are.
#[derive(Clone, Copy)]
struct Told {
    bytes: [u8; 2048],
    held: usize,
}

impl Told {
    // Changes the byte at a place, where a line has so many numbers.
    fn change(&mut self, there: bool, at: u64, byte: u64) {
        if there && let Some(old) = self.bytes.get_mut(at as usize) {
            *old = cases::byte(byte);
        }
    }

    fn part(&self) -> &[u8] {
        wire::part(&self.bytes, 0, self.held)
    }
}

impl Bench {
    fn new() -> Bench {
        Bench {
            ledger: Ledger::empty(),
            map: [0; 8193],
            size: 8192,
            bytes: [0; 2048],
            held: 0,
        }
    }

    // ---- the bytes of a case

    // So many of the ready bytes, some of them changed.
    fn first_ready(&self, what: &[u8]) -> Told {
        let told = cases::first_numbers(what);
        let v = told.values;
        let mut first = Told {
            bytes: self.bytes,
            held: v[0] as usize,
        };
        first.change(3 <= told.count, v[1], v[2]);
        first.change(5 <= told.count, v[3], v[4]);
        first.change(7 <= told.count, v[5], v[6]);
        first
    }

    // The bytes that a case names.
    fn told(&self, out: &impl Print, what: &[u8]) -> Told {
        if what.starts_with(b"f") {
            return self.first_ready(what);
        }
        let mut bytes = self.bytes;
        if cases::entry_told(what).is_none() {
            wrong(out, what);
        }
        let held = cases::put_told(&mut bytes, what);
        Told { bytes, held }
    }

    // ---- cases

    // The bytes taken as one record: the answer, and what the case's first letter asks beside it.
    fn take(&mut self, out: &impl Print, letter: u8, what: &[u8]) {
        let told = self.told(out, what);
        let size = self.size.min(self.map.len());
        let taken = self.ledger.take(&mut self.map[..size], told.part());
        cases::write_number(out, cases::answer_of(&taken));
        self.ledger = taken.unwrap_or(self.ledger);
        match letter {
            b'a' => {
                print_counts(out, self.ledger);
                print_first_cell(out, self.ledger);
            }
            b'm' => print_marks(out, &self.map),
            _ => {}
        }
    }

    // The bytes read as a book.
    fn read(&mut self, out: &impl Print, what: &[u8]) {
        let told = self.told(out, what);
        let size = self.size.min(self.map.len());
        let outcome = book::take_book(self.ledger, &mut self.map[..size], told.part());
        let (refused, broken) = match &outcome {
            Ok(read) => {
                self.ledger = read.ledger;
                (read.refused, read.broken)
            }
            Err(_) => (0, false),
        };
        cases::write_number(out, cases::answer_of(&outcome));
        print_counts(out, self.ledger);
        cases::write_numbers(out, &[refused, u64::from(broken)]);
        print_first_cell(out, self.ledger);
    }

    // A case `next`: what a reader of its bytes answers at its offset.
    fn ask(&self, out: &impl Print, what: &[u8]) {
        let at = cases::first_numbers(what).values[0];
        let told = self.told(out, cases::past_word(cases::past_word(what)));
        print_asked(out, first_from(told.part(), at as usize));
    }

    // A case `count`: what a reader of its bytes comes to.
    fn count(&self, out: &impl Print, what: &[u8]) {
        let told = self.told(out, cases::past_word(what));
        print_counted(out, count_records(told.part()));
    }

    // Prints what a case comes to.
    fn run(&mut self, out: &impl Print, what: &[u8]) {
        let v = cases::first_numbers(what).values;
        let letter = wire::byte_at(what, 0);
        match letter {
            b'a' | b'm' => self.take(out, letter, cases::past_word(what)),
            b'b' => self.read(out, cases::past_word(what)),
            b'c' => self.count(out, what),
            b'e' => cases::write_number(out, self.ledger.events),
            b'l' => print_levels(out, v[0], v[1]),
            b'n' => self.ask(out, what),
            b'r' => print_row(out, self.ledger, v[0]),
            _ => self.take(out, letter, what),
        }
    }

    // ---- lines

    // A line with a colon: a case, after which all is as it was unless = stands behind the colon.
    fn take_case(&mut self, out: &impl Print, name: &[u8], rest: &[u8]) {
        cases::write(out, name);
        let mut after = *self;
        after.run(out, cases::past_word(rest));
        cases::write(out, b"\n");
        if rest.starts_with(b":=") {
            *self = after;
        }
    }

    // A line that is no record and no case: what it lends.
    fn lend(&mut self, out: &impl Print, line: &[u8]) {
        let v = cases::first_numbers(line).values;
        match line.first() {
            Some(b'l') => self.ledger = cases::ledger_of(v),
            Some(b'r') => cases::set_row(&mut self.ledger, v),
            Some(b'm') => {
                self.map = [0; 8193];
                self.size = v[0] as usize;
            }
            Some(b'b') => self.held = 0,
            _ => wrong(out, line),
        }
    }

    fn take_line(&mut self, out: &impl Print, line: &[u8]) {
        if line.starts_with(b"-") {
            cases::write_line(out, line);
        } else if let Some(entry) = cases::entry_told(line) {
            self.held = pack::pack(&mut self.bytes, self.held, entry);
        } else if let Some(colon) = line.iter().position(|b| *b == b':') {
            self.take_case(out, &line[..colon], &line[colon..]);
        } else {
            self.lend(out, line);
        }
    }
}

fn main(rt: HostRuntime) {
    let mut text = [0u8; 65536];
    let n = refill::read_full(&mut rt.stdin(), &mut text);
    let mut bench = Bench::new();
    for line in text[..n].split(|b| *b == b'\n') {
        bench.take_line(&rt, line);
    }
}
