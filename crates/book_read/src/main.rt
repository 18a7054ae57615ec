// A book as text: one book on standard input, its lines on standard output, each under the answer that its record gets.
#![tactic(auto)]

use ledger::Ledger;
use pen::Pen;
use refill::Failed;
use refusals::Refusal;
use std::io::Read;
use text_items::{Entry, Sort};
use wire::Place;

// More pieces than any file has: 2^40. Past them the reading has failed.
const MOST_PIECES: u64 = 1099511627776;

// More records than the buffer has room for.
const MOST_RECORDS: usize = 65536;

// The bytes that wait before they are written out. A comment has at most 121 bytes and a line less than 4,096, so that the buffer has room for one more.
const MOST_WAITING: usize = 61440;

// ---- what is said of a record, in a comment above it

// At the text's beginning: what each sort of line has.
const HEADING: &str = "# sheet: year | customers on NN VN VVN\n\
    # simple: number type voltage cause | T0 T1 T2 T3 T4 | n1 on NN VN VVN | n2 on NN VN VVN\n\
    # stepped: number type voltage cause | T0 | for each step its time, and who was off until then on NN VN VVN\n";

fn accepted(short: bool) -> &'static str {
    if short {
        "# accepted as short: 3 minutes or less, added to no total\n"
    } else {
        "# accepted\n"
    }
}

// The comment on a refused record. On some there is none: in a book that is read from its beginning map and ledger are sound (1), 8, 9 and 16 are the
// desk's, and a ledger that is full (15) has every number marked (14).
fn refused(refusal: Refusal) -> &'static str {
    match refusal {
        Refusal::Frame =>
            "# refused, 2: the length in front of these bytes is wrong or they break off, and nothing after it can be read\n",
        Refusal::Kind =>
            "# refused, 3: a book takes year sheets, simple events and stepped events, and this is none of them\n",
        Refusal::Length =>
            "# refused, 4: the length is wrong for this kind of record, or it does not have 1 to 64 steps\n",
        Refusal::Sheet =>
            "# refused, 5: an event needs a year sheet before it, and a book takes one sheet only\n",
        Refusal::Range =>
            "# refused, 6: the year is not 2000 to 2099, or a level has more than 10,000,000 customers\n",
        Refusal::Code =>
            "# refused, 7: the number is 0, or the type, the voltage or the cause is not one of the annex's\n",
        Refusal::Time =>
            "# refused, 10: the times are out of order, or past the year's end or minute 600,000, or a planned outage has T1 after T0\n",
        Refusal::Count =>
            "# refused, 11: more customers are off on a level than the year sheet has there\n",
        Refusal::Level =>
            "# refused, 12: customers are off on a level above the one of the event's voltage\n",
        Refusal::NoneThenSome => "# refused, 13: on some level n1 is 0 and n2 is not\n",
        Refusal::Used => "# refused, 14: an event with this number is in the book already\n",
        _ => "",
    }
}

// ---- the page

// What is said waits in a buffer before it is written out, and some of it may be lost. The buffer is the page's own, so that each place that puts a byte
// knows how long it is.
#[derive(Drop)]
struct Page<'r, P: Print> {
    rt: &'r P,
    out: [u8; 65536],
    at: usize,
    lost: bool,
}

impl<P: Print> Page<'_, P> {
    // Writes out the bytes that wait.
    fn write_out(&mut self) {
        let rt = self.rt;
        let at = self.at;
        if rt.write_all(wire::part(&self.out[..], 0, at)).is_err() {
            self.lost = true;
        }
        self.at = 0;
    }

    // Sees that there is room for a comment or a line.
    fn make_room(&mut self) {
        if MOST_WAITING <= self.at {
            self.write_out();
        }
    }

    fn say(&mut self, words: &str) {
        self.make_room();
        let at = self.at;
        let mut pen = Pen {
            out: &mut self.out[..],
            at,
        };
        pen.put_words(words.as_bytes());
        self.at = pen.at;
    }

    // A line, with times in a year.
    fn say_line(&mut self, entry: &Entry, year: u16) {
        self.make_room();
        let at = self.at;
        let end = text_write::write_line(&mut self.out[..], at, *entry, year);
        let mut pen = Pen {
            out: &mut self.out[..],
            at: end,
        };
        pen.put(b'\n');
        self.at = pen.at;
    }

    // Bytes, up to 32 in a line.
    fn say_bytes(&mut self, bytes: &[u8]) {
        for few in bytes.chunks(32) {
            self.say_line(&unpack::bytes_entry(few), 0);
        }
    }

    fn say_record(&mut self, record: &[u8], year: u16) {
        let entry = unpack::unpack(record);
        if entry.kind == Sort::Blank {
            self.say_bytes(record);
        } else {
            self.say_line(&entry, year);
        }
    }

    // Says so many bytes at the buffer's front, and all behind them to the input's end: whole lines as they arrive, and then what is left.
    fn say_rest(
        &mut self,
        reader: &mut impl Read,
        buffer: &mut [u8],
        count: usize,
    ) -> Result<(), Failed> {
        let mut held = count;
        for _ in 0..MOST_PIECES {
            let over = held % 32;
            let whole = held - over;
            self.say_bytes(wire::part(&buffer[..], 0, whole));
            records::move_to_front(buffer, whole, held);
            match refill::read_behind(reader, buffer, over) {
                Ok(Some(count)) => held = count,
                ended => {
                    self.say_bytes(wire::part(&buffer[..], 0, over));
                    return ended.map(|_| ());
                }
            }
        }
        Err(Failed)
    }
}

// ---- the book

// A book being read: its ledger and its map of used numbers, the year that times are told in, and the page.
#[derive(Drop)]
struct Book<'r, P: Print> {
    ledger: Ledger,
    map: [u8; ledger::MAP],
    year: u16,
    page: Page<'r, P>,
}

impl<P: Print> Book<'_, P> {
    // One record: its answer, and its line.
    fn take_record(&mut self, record: &[u8]) {
        match self.ledger.take(&mut self.map, record) {
            Ok(next) => {
                self.page.say(accepted(self.ledger.short < next.short));
                self.ledger = next;
            }
            Err(refusal) => self.page.say(refused(refusal)),
        }
        self.page.say_record(record, self.year);
        self.year = unpack::year_after(self.year, record);
    }

    // The whole records of what has arrived: where they end.
    fn take_records(&mut self, bytes: &[u8]) -> usize {
        let mut stop = 0;
        for _ in 0..MOST_RECORDS {
            let Place::Record { start, end } = wire::place_at(bytes, stop) else {
                break;
            };
            self.take_record(wire::part(bytes, start, end));
            stop = end;
        }
        stop
    }

    // Takes the records of a book, to its end or to a broken length: how many bytes are held at the buffer's front that are no record.
    fn take_book(&mut self, reader: &mut impl Read, buffer: &mut [u8]) -> Result<usize, Failed> {
        let mut held = 0;
        for _ in 0..MOST_PIECES {
            let Some(count) = refill::read_behind(reader, buffer, held)? else {
                return Ok(held);
            };
            let stop = self.take_records(wire::part(&buffer[..], 0, count));
            held = count.checked_sub(stop).ok_or(Failed)?;
            records::move_to_front(buffer, stop, count);
            if records::is_dead(&buffer[..], held) {
                return Ok(held);
            }
        }
        Err(Failed)
    }

    // Says a book, and all bytes from a broken length on where it does not end at a record's end.
    fn say(&mut self, reader: &mut impl Read, buffer: &mut [u8]) -> Result<(), Failed> {
        let held = self.take_book(reader, buffer)?;
        if held == 0 {
            return Ok(());
        }
        self.page.say(refused(Refusal::Frame));
        self.page.say_rest(reader, buffer, held)
    }
}

fn main(rt: HostRuntime) {
    let mut buffer = [0u8; 65536];
    let mut book = Book {
        ledger: Ledger::empty(),
        map: [0; ledger::MAP],
        year: 0,
        page: Page {
            rt: &rt,
            out: [0; 65536],
            at: 0,
            lost: false,
        },
    };
    book.page.say(HEADING);
    let read = book.say(&mut rt.stdin(), &mut buffer);
    book.page.write_out();
    if book.page.lost {
        let _ = eprintln!(rt; "book_read: the text cannot be written");
    }
    if read.is_err() {
        let _ = eprintln!(rt; "book_read: standard input cannot be read");
    }
}
