// Cases of the indices, their decimals, the year report, a book taken in pieces and the loop over a reading, from a text on standard input. Its lines:
//   -- WORDS                   a heading, printed as it is
//   # WORDS                    a comment, passed over, as is a line of nothing
//   ledger THERE | YEAR | NN VN VVN | EVENTS SHORT
//                              lends a ledger whose cells are all 0. THERE is 1 for a sheet; it is 0 for none, and the numbers are what stands in its place
//   row TYPE | CUSTOMERS HALVES | CUSTOMERS HALVES | CUSTOMERS HALVES
//                              sets the cells of a type in the lent ledger: NN, VN, VVN
//   all 7 rows | CUSTOMERS HALVES | CUSTOMERS HALVES | CUSTOMERS HALVES
//                              sets those of every type
//   buffer BYTE ..             lends a buffer of these 10 bytes
//   NAME: CASE                 prints name and outcome. A CASE:
//     INDEX LEVEL SET          the exact figure: 0, top and bottom; or the number of the refusal alone. INDEX is SAIFI, SAIDI or CAIDI; LEVEL is NN, VN, VVN or
//                              SYS; SET is all, std or none for one that is not named
//     INDEX LEVEL SET DIGITS   the same as a decimal: 0, whole part and digits; or the number of the refusal alone
//     fraction TOP BOTTOM DIGITS
//                              the decimal of a fraction, the same way
//     report REFUSED           the answer, and the text of the report with so many refused records
//     piece FILLED | REFUSED HELD DEAD | MAP
//                              the first bytes of the buffer taken as a piece, by a feed that has the lent ledger, so many refused records, so many bytes held and
//                              a dead rest (1) or not (0), with an all-zero map of so many bytes: the answer, accepted events, refused records, bytes
//                              held, and whether the rest is dead. The buffer stays as the call leaves it
//     end REFUSED HELD DEAD    the end of such a feed: the answer, refused records, and whether a length was broken
//     turns LEFT HELD          a turn, and then all turns, of a reading that holds so many bytes of the buffer, is over at four and takes an even count alone,
//                              where so many bytes are left to come, two at a time: of the turn whether the reading goes on (1), does not (0) or failed (2),
//                              and the bytes held; of all turns whether they end (0) or failed (2), the bytes held, and those left. The buffer stays as the
//                              calls leave it
// Words are told by their first letters, and numbers are found whatever stands between them. What begins as no line or case does is printed as such.
#![tactic(auto)]

ghost use Rattle.std.specs.Prelude.{◌≡◌, length};
ghost use Rattle.std.proofs.Common.{◌∙◌};

use book_pieces::Feed;
use codes::Set;
use decimal::Decimal;
use index::{Index, Level};
use ledger::Ledger;
use ratio::Fraction;
use refill::Failed;
use refusals::Refusal;
use std::io;

// ---- what is printed

fn print_exact(out: &impl Print, figure: Result<Fraction, Refusal>) {
    cases::write_number(out, cases::answer_of(&figure));
    if let Ok(exact) = figure {
        cases::write_numbers(out, &[exact.top, exact.bottom]);
    }
    cases::write(out, b"\n");
}

fn print_shown(out: &impl Print, figure: Result<Decimal, Refusal>) {
    cases::write_number(out, cases::answer_of(&figure));
    if let Ok(shown) = figure {
        cases::write_numbers(out, &[shown.whole, shown.digits]);
    }
    cases::write(out, b"\n");
}

fn print_report(out: &impl Print, ledger: Ledger, refused: u64) {
    let report = report::report_of(ledger, refused);
    cases::write_number(out, cases::answer_of(&report));
    cases::write(out, b"\n");
    if let Ok(text) = report {
        cases::write(out, wire::part(&text.bytes, 0, text.len));
    }
}

// The end of a feed.
fn print_end(out: &impl Print, feed: Feed) {
    let outcome = book_pieces::finish(feed);
    let (refused, broken) = match &outcome {
        Ok(read) => (read.refused, read.broken),
        Err(_) => (feed.refused, false),
    };
    cases::write_number(out, cases::answer_of(&outcome));
    cases::write_numbers(out, &[refused, u64::from(broken)]);
    cases::write(out, b"\n");
}

// Something that is no line, or no case.
fn wrong(out: &impl Print, what: &[u8]) {
    cases::write(out, b" NOT KNOWN: ");
    cases::write_line(out, what);
}

// ---- the index, the level and the set that words name

fn index_told(word: &[u8]) -> Index {
    match word {
        [b'C', ..] => Index::Caidi,
        [_, _, _, b'D', ..] => Index::Saidi,
        _ => Index::Saifi,
    }
}

fn level_told(word: &[u8]) -> Level {
    match word {
        [b'N', ..] => Level::NN,
        [b'S', ..] => Level::Network,
        [_, b'N', ..] => Level::VN,
        _ => Level::VVN,
    }
}

fn set_told(word: &[u8]) -> Set {
    match word {
        [b'a', ..] => Set::All,
        [b's', ..] => Set::Std,
        _ => Set::Unnamed,
    }
}

// ---- what is lent

// A feed that has a ledger, so many refused records, so many bytes held, and a dead rest where a number is 1.
fn feed_of(ledger: Ledger, refused: u64, held: u64, dead: u64) -> Feed {
    Feed {
        ledger,
        refused,
        held: held as usize,
        dead: dead == 1,
    }
}

// ---- a reading in pieces that says no more than `refill`'s loop asks

// So many bytes, two at a time.
#[derive(Drop)]
struct Twos {
    left: usize,
}

impl io::Read for Twos {
    fn read(&mut self, buffer: &mut [u8]) -> io::Result<usize> {
        let n = buffer.len().min(self.left).min(2);
        buffer[..n].fill(7);
        self.left -= n;
        Ok(n)
    }
}

// A reading that is over at four bytes, and takes an even count alone.
#[derive(Drop)]
struct Evens {
    held: usize,
}

impl refill::Pieces for Evens {
    ghost holds = { λ x. x.held };

    ghost came = { λ begun x b turns. length b ≡ 10 };

    fn held(&self) -> usize {
        self.held
    }

    fn is_over(&self) -> bool {
        4 <= self.held
    }

    fn take_piece(&mut self, _buffer: &mut [u8], filled: usize) -> Result<(), Failed> {
        if filled % 2 == 1 {
            return Err(Failed);
        }
        self.held = filled;
        Ok(())
    }

    ghost nothing = { λ begun x b b₁ turns r on a. on.long ∙ a };

    ghost within = { λ begun x b turns most l a. a };
}

// A ledger and a buffer.
#[derive(Drop)]
struct Bench {
    ledger: Ledger,
    buffer: [u8; 10],
}

impl Bench {
    // ---- cases

    // An index, exactly or with so many digits.
    fn figure(&self, out: &impl Print, what: &[u8]) {
        let at_level = cases::past_word(what);
        let index = index_told(what);
        let level = level_told(at_level);
        let set = set_told(cases::past_word(at_level));
        let told = cases::first_numbers(what);
        if told.count == 0 {
            print_exact(out, index::index_of(self.ledger, index, level, set));
        } else {
            let digits = cases::byte(told.values[0]);
            print_shown(
                out,
                index::decimal_of(self.ledger, index, level, set, digits),
            );
        }
    }

    // A piece: the buffer stays as the call leaves it.
    fn take_piece(&mut self, out: &impl Print, v: [u64; 12]) {
        let mut map = [0u8; 8192];
        let size = (v[4] as usize).min(map.len());
        let begun = feed_of(self.ledger, v[1], v[2], v[3]);
        let fed = book_pieces::take_piece(begun, &mut map[..size], &mut self.buffer, v[0] as usize);
        cases::write_number(out, cases::answer_of(&fed));
        let feed = fed.unwrap_or(begun);
        cases::write_number(out, feed.ledger.events);
        cases::write_number(out, feed.refused);
        cases::write_number(out, feed.held);
        cases::write_number(out, u64::from(feed.dead));
        cases::write(out, b"\n");
    }

    // A turn of the loop and then all turns, over a reading that is neither a book nor a file.
    fn go_on(&mut self, out: &impl Print, left: usize, held: usize) {
        let mut twos = Twos { left };
        let mut evens = Evens { held };
        let turn = refill::take_next(&mut twos, &mut evens, &mut self.buffer);
        cases::write_number(out, turn.map_or(2, u64::from));
        cases::write_number(out, evens.held);
        let turns = refill::take_all(&mut twos, &mut evens, &mut self.buffer);
        cases::write_number(out, turns.map_or(2, |()| 0));
        cases::write_number(out, evens.held);
        cases::write_number(out, twos.left);
        cases::write(out, b"\n");
    }

    // Prints what a case comes to.
    fn run(&mut self, out: &impl Print, what: &[u8]) {
        let v = cases::first_numbers(what).values;
        match what.first() {
            Some(b'C' | b'S') => self.figure(out, what),
            Some(b'f') => print_shown(
                out,
                decimal::decimal_of(ratio::lowest(v[0], v[1]), cases::byte(v[2])),
            ),
            Some(b'r') => print_report(out, self.ledger, v[0]),
            Some(b'p') => self.take_piece(out, v),
            Some(b'e') => print_end(out, feed_of(self.ledger, v[0], v[1], v[2])),
            Some(b't') => self.go_on(out, v[0] as usize, v[1] as usize),
            _ => wrong(out, what),
        }
    }

    // ---- lines

    // A line that is no case: what it lends.
    fn lend(&mut self, out: &impl Print, line: &[u8]) {
        let v = cases::first_numbers(line).values;
        match line.first() {
            Some(b'l') => self.ledger = cases::ledger_of(v),
            Some(b'r') => cases::set_row(&mut self.ledger, v),
            Some(b'a') => self.ledger.rows = [cases::row_of(v); codes::ROWS],
            Some(b'b') => {
                for (byte, n) in self.buffer.iter_mut().zip(v) {
                    *byte = cases::byte(n);
                }
            }
            None | Some(0) => {}
            _ => wrong(out, line),
        }
    }

    fn take_line(&mut self, out: &impl Print, line: &[u8]) {
        if line.starts_with(b"#") {
            return;
        }
        if line.starts_with(b"-") {
            cases::write_line(out, line);
        } else if let Some(colon) = line.iter().position(|b| *b == b':') {
            cases::write(out, &line[..colon]);
            self.run(out, cases::past_word(&line[colon..]));
        } else {
            self.lend(out, line);
        }
    }
}

fn main(rt: HostRuntime) {
    let mut text = [0u8; 65536];
    let n = refill::read_full(&mut rt.stdin(), &mut text);
    let mut bench = Bench {
        ledger: Ledger::empty(),
        buffer: [0; 10],
    };
    for line in text[..n].split(|b| *b == b'\n') {
        bench.take_line(&rt, line);
    }
}
