// Run cases of the element table and its figures from a text, a line a case. What is expected stands in the file stdout, worked out by hand from
// document 02, K1.
//
// What is lent:
//   table YEARS                 a table of this period in a file whose sheet was seen, with nothing in its 62 rows
//   unseen YEARS                the same before the sheet
//   row AT | OUTAGES MINUTES | MARK AMOUNT      this row of the table, from 0 on; transformers (code 15) have row 14
// What is called:
//   begin YEARS                 the beginning of a table
//   file                        the beginning of a file
//   sheet YEAR | NN VN VVN      a record, as in docs/TEXT.md
//   outage CODE | START END     an outage record
//   stock CODE UNIT AMOUNT      a stock record, of pieces (0) or tenths of a kilometre of line (1)
//   hex BYTES                   these bytes, as in docs/TEXT.md
//   nothing                     no bytes
//   book hex BYTES              the same at the book entry, with an empty ledger
// What is looked at:
//   known AT                    outages, minutes, mark and amount of a row
//   rate CODE, mean CODE        0, top and bottom of the figure, or a refusal
//   often CODE DIGITS, hours CODE DIGITS        rate and mean as decimals: 0, whole part and digits, or a refusal
//   piece REFUSED FILLED        a file in pieces, after so many refused records: the answer to a piece that fills so many bytes of a buffer of 10, which
//                               has two records of kind 9 and the bytes 3 and 0, and the refused records after it; the answer of the file's end, and its
//                               refused records
//
// Before a line may stand a name: then the name and the answer are printed, or what is looked at. A lent table and a lent row have four answers: to the
// beginning of a file, to an outage of code 1 from 0 to 1, and for rate and mean of code 15 (0 for a figure). The beginning of a table has two: its own, and
// that to the beginning of a file after it.
//   NAME: LINE                  a trial: afterwards the table is as it was
//   NAME:= LINE                 what the line does stays done, as without a name
//   -- WORDS                    a heading, printed as it is
// A line that begins with # and a line of no bytes are passed over. A line that is none of these is printed.
#![tactic(auto)]

use cases::Line;
use decimal::Decimal;
use element_pieces::Inflow;
use element_row::Row;
use element_table::Table;
use ledger::Ledger;
use pen::Pen;
use ratio::Fraction;
use refusals::Refusal;

// ---- what a line does or looks at

#[derive(Clone, Copy, PartialEq, Eq)]
enum Word {
    Table,
    Unseen,
    Row,
    Begin,
    File,
    Sheet,
    Outage,
    Stock,
    Hex,
    Nothing,
    Book,
    Known,
    Rate,
    Mean,
    Often,
    Hours,
    Piece,
    Other,
}

// The word of a line, by its first two letters.
fn word_of(line: &[u8]) -> Word {
    match &[wire::byte_at(line, 0), wire::byte_at(line, 1)] {
        b"ta" => Word::Table,
        b"un" => Word::Unseen,
        b"ro" => Word::Row,
        b"be" => Word::Begin,
        b"fi" => Word::File,
        b"sh" => Word::Sheet,
        b"ou" => Word::Outage,
        b"st" => Word::Stock,
        b"he" => Word::Hex,
        b"no" => Word::Nothing,
        b"bo" => Word::Book,
        b"kn" => Word::Known,
        b"ra" => Word::Rate,
        b"me" => Word::Mean,
        b"of" => Word::Often,
        b"ho" => Word::Hours,
        b"pi" => Word::Piece,
        _ => Word::Other,
    }
}

// The line behind the word `book`.
fn past_book(line: &[u8]) -> &[u8] {
    wire::part(line, 5, line.len())
}

// Whether a line is one of the text's, with as many numbers as it has to have.
fn is_right(line: &[u8], word: Word, count: usize) -> bool {
    match word {
        Word::Sheet | Word::Hex => cases::entry_told(line).is_some(),
        Word::Book => cases::entry_told(past_book(line)).is_some(),
        Word::File | Word::Nothing => count == 0,
        Word::Table | Word::Unseen | Word::Begin | Word::Known | Word::Rate | Word::Mean => {
            count == 1
        }
        Word::Often | Word::Hours | Word::Piece => count == 2,
        Word::Outage | Word::Stock => count == 3,
        Word::Row => count == 5,
        Word::Other => false,
    }
}

// The numbers of a line. A line that is none of the text's is printed.
fn values_of(out: &impl Print, line: &[u8]) -> [u64; 16] {
    let told = cases::numbers_by_turns(line);
    if !is_right(line, word_of(line), told.count) {
        cases::write(out, b" no such line: ");
        cases::write_line(out, line);
    }
    told.values
}

// ---- records

fn put_outage(pen: &mut Pen, v: [u64; 16]) {
    cases::put_frame(pen, 14, 4, v[1]);
    pen.put_le4(cases::four(v[2]));
    pen.put_le4(cases::four(v[3]));
}

fn put_stock(pen: &mut Pen, v: [u64; 16]) {
    cases::put_frame(pen, 11, 5, v[1]);
    pen.put(cases::byte(v[2]));
    pen.put_le4(cases::four(v[3]));
}

// The bytes that a line stands for; none where it is no record.
fn put_line(out: &mut [u8], line: &[u8], word: Word, v: [u64; 16]) -> usize {
    match word {
        Word::Sheet | Word::Hex => return cases::put_told(out, line),
        Word::Book => return cases::put_told(out, past_book(line)),
        _ => {}
    }
    let mut pen = Pen { out, at: 0 };
    match word {
        Word::Outage => put_outage(&mut pen, v),
        Word::Stock => put_stock(&mut pen, v),
        _ => {}
    }
    pen.at
}

// ---- what is looked at

fn print_exactly(out: &impl Print, figure: Result<Fraction, Refusal>) {
    cases::write_number(out, cases::answer_of(&figure));
    if let Ok(exact) = figure {
        cases::write_numbers(out, &[exact.top, exact.bottom]);
    }
}

fn print_shown(out: &impl Print, figure: Result<Decimal, Refusal>) {
    cases::write_number(out, cases::answer_of(&figure));
    if let Ok(shown) = figure {
        cases::write_numbers(out, &[shown.whole, shown.digits]);
    }
}

// The answers to the beginning of a file, to an outage of code 1 from 0 to 1, and for rate and mean of code 15.
fn print_answers(out: &impl Print, table: Table) {
    let filed = table.begin_file();
    let taken = table.take(b"\x0e\0\x04\0\x01\0\0\0\0\0\x01\0\0\0");
    cases::write_number(out, cases::answer_of(&filed));
    cases::write_number(out, cases::answer_of(&taken));
    cases::write_number(out, cases::answer_of(&element_rates::rate_of(table, 15)));
    cases::write_number(out, cases::answer_of(&element_rates::mean_of(table, 15)));
}

fn print_known(out: &impl Print, table: Table, at: u64) {
    let row = table.rows[at as usize % element_codes::COUNT];
    cases::write_number(out, row.outages);
    cases::write_number(out, row.minutes);
    cases::write_number(out, row.stock);
    cases::write_number(out, row.amount);
}

fn print_piece(out: &impl Print, table: Table, refused: u64, filled: u64) {
    let mut buffer = [4, 0, 9, 0, 4, 0, 9, 0, 3, 0];
    let flow = Inflow {
        table,
        refused,
        held: 0,
        dead: false,
    };
    let flowed = element_pieces::take_piece(flow, &mut buffer, filled as usize);
    cases::write_number(out, cases::answer_of(&flowed));
    let next = flowed.unwrap_or(flow);
    let outcome = element_pieces::finish(next);
    cases::write_number(out, next.refused);
    cases::write_number(out, cases::answer_of(&outcome));
    cases::write_number(out, outcome.map_or(next.refused, |read| read.refused));
}

// ---- what is lent

// A table, and the last answer.
#[derive(Clone, Copy)]
struct Bench {
    table: Table,
    answer: u8,
}

impl Bench {
    // A table in a file, with nothing in its rows.
    fn lent(period: u64, seen: bool) -> Bench {
        Bench {
            table: Table {
                period: cases::four(period),
                seen,
                rows: [Row::none(); element_codes::COUNT],
            },
            answer: 0,
        }
    }

    fn set_row(&mut self, v: [u64; 16]) {
        self.table.rows[v[1] as usize % element_codes::COUNT] = Row {
            outages: cases::four(v[2]),
            minutes: v[3],
            stock: cases::byte(v[4]),
            amount: cases::four(v[5]),
        };
        self.answer = 0;
    }

    // The beginning of a table; one whose period is refused has none.
    fn begun(period: u64) -> Bench {
        let mut begun = Bench::lent(0, false);
        begun.keep(Table::begin(cases::four(period)));
        begun
    }

    // The table of an outcome, or the same one where it is refused; and its answer.
    fn keep(&mut self, outcome: Result<Table, Refusal>) {
        self.answer = cases::answer_of(&outcome);
        self.table = outcome.unwrap_or(self.table);
    }

    // One record at the book entry, whose answer stands beside the table as it was.
    fn take_at_book(&mut self, record: &[u8]) {
        let mut map = [0u8; 8192];
        self.answer = cases::answer_of(&Ledger::empty().take(&mut map, record));
    }

    // What a line does.
    fn send(&mut self, line: &[u8], word: Word, v: [u64; 16]) {
        let mut out = [0u8; 4096];
        let size = put_line(&mut out, line, word, v);
        let bytes = wire::part(&out, 0, size);
        match word {
            Word::Table => *self = Bench::lent(v[1], true),
            Word::Unseen => *self = Bench::lent(v[1], false),
            Word::Row => self.set_row(v),
            Word::Begin => *self = Bench::begun(v[1]),
            Word::File => self.keep(self.table.begin_file()),
            Word::Book => self.take_at_book(bytes),
            Word::Sheet | Word::Outage | Word::Stock | Word::Hex | Word::Nothing => {
                self.keep(self.table.take(bytes));
            }
            _ => {}
        }
    }

    // The answer, or what is looked at.
    fn print(&self, out: &impl Print, word: Word, v: [u64; 16]) {
        let table = self.table;
        let code = cases::pair(v[1]);
        let digits = cases::byte(v[2]);
        match word {
            Word::Table | Word::Unseen | Word::Row => print_answers(out, table),
            Word::Begin => {
                cases::write_number(out, self.answer);
                cases::write_number(out, cases::answer_of(&table.begin_file()));
            }
            Word::Known => print_known(out, table, v[1]),
            Word::Piece => print_piece(out, table, v[1], v[2]),
            Word::Rate => print_exactly(out, element_rates::rate_of(table, code)),
            Word::Mean => print_exactly(out, element_rates::mean_of(table, code)),
            Word::Often => print_shown(out, element_rates::shown_rate(table, code, digits)),
            Word::Hours => print_shown(out, element_rates::shown_mean(table, code, digits)),
            _ => cases::write_number(out, self.answer),
        }
    }

    // A line with a name.
    fn take_named(&mut self, out: &impl Print, name: &[u8], body: &[u8]) {
        cases::write(out, name);
        let word = word_of(body);
        let v = values_of(out, body);
        self.send(body, word, v);
        self.print(out, word, v);
        cases::write(out, b"\n");
    }

    fn take_line(&mut self, out: &impl Print, line: &[u8]) {
        let colon = line.iter().rposition(|b| *b == b':');
        match Line::told(line, colon.unwrap_or(line.len())) {
            Line::Passed => {}
            Line::Heading => cases::write_line(out, line),
            Line::Trial { name, body } => {
                let mut after = *self;
                after.take_named(out, name, body);
            }
            Line::Kept { name, body } => self.take_named(out, name, body),
            Line::Joined { .. } | Line::Plain => {
                self.send(line, word_of(line), values_of(out, line));
            }
        }
    }
}

// Each line ends with a newline.
fn main(rt: HostRuntime) {
    let mut text = [0u8; 65536];
    let n = refill::read_full(&mut rt.stdin(), &mut text);
    let mut bench = Bench::begun(5);
    let mut start = 0;
    while start < n {
        let past = cases::past_line(&text[..n], start);
        bench.take_line(&rt, &text[start..past - 1]);
        start = past;
    }
}
