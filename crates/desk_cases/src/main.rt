// Run cases of the desk from a text, a line a case. What is expected stands in the file stdout, worked out by hand from document 01.
//
// What is lent to the desk:
//   sheet YEAR | NN VN VVN      a ledger that has taken this sheet, an all-zero map, and a desk of 32 free slots
//   empty                       the same without a sheet
//   lent EVENTS SHORT | BYTES SLOTS     the ledger has so many events and short events, the map so many bytes (at most 8193), the desk so many slots (at most 33)
//   used AT VALUE               this byte of the map has this value
//   slot AT | NUMBER TYPE VOLTAGE CAUSE | T0 LAST STEPS | largest counts NN VN VVN | half minutes NN VN VVN
//                               this slot of the desk; and then a step of number 9, ordinal 1, at time 0, nobody off, whose answer tells whether the desk is
//                               sound: it is 8 where 9 is not open, and 1 where the desk is not sound
// A message to the desk:
//   open NUMBER TYPE VOLTAGE CAUSE | T0
//   step NUMBER ORDINAL | TIME | NN VN VVN
//   close NUMBER STEPS
//   hex BYTES                   these bytes, as in docs/TEXT.md
//   nothing                     no bytes
// A record to the book entry, with the same ledger and map:
//   stepped ..                  as in docs/TEXT.md
// What is looked at:
//   look AT                     a slot: number, T0, last time, steps, largest counts and half minutes of NN, VN and VVN
//   row TYPE                    events, short events, and customers and half minutes of the type's row on NN, VN and VVN
//   customers TYPE, halves TYPE     those of NN alone
//   byte AT                     a byte of the map
//
// Before a line may stand a name: then the name and the answer are printed, or what is looked at.
//   NAME: LINE                  a trial: afterwards all is as it was
//   NAME:= LINE                 what the line does stays done, as without a name
//   NAME:+ LINE                 the same, and the printed line goes on with the next one's
//   -- WORDS                    a heading, printed as it is
// A line that begins with # and a line of no bytes are passed over. A line that is none of these is printed.
#![tactic(auto)]

ghost use Rattle.std.specs.Prelude.{◌≡◌, min};

use annex::{Customers, Figures, HalfMinutes};
use cases::Line;
use codes::LEVELS;
use fields::Head;
use ledger::{Cell, Ledger};
use pen::Pen;
use refusals::Refusal;
use slot::Slot;

// ---- what a line does or looks at

#[derive(Clone, Copy, PartialEq, Eq)]
enum Word {
    Sheet,
    Empty,
    Lent,
    Used,
    Slot,
    Open,
    Step,
    Close,
    Stepped,
    Hex,
    Nothing,
    Look,
    Row,
    Customers,
    Halves,
    Byte,
    Other,
}

// The word of a line, by its first two letters. `stepped` begins with those of `step`, and is also told by its third and fourth.
fn word_of(line: &[u8]) -> Word {
    match &[wire::byte_at(line, 0), wire::byte_at(line, 1)] {
        b"sh" => Word::Sheet,
        b"em" => Word::Empty,
        b"le" => Word::Lent,
        b"us" => Word::Used,
        b"sl" => Word::Slot,
        b"op" => Word::Open,
        b"st" if wire::byte_at(line, 4) == b'p' => Word::Stepped,
        b"st" => Word::Step,
        b"ep" => Word::Stepped,
        b"cl" => Word::Close,
        b"he" => Word::Hex,
        b"no" => Word::Nothing,
        b"lo" => Word::Look,
        b"ro" => Word::Row,
        b"cu" => Word::Customers,
        b"ha" => Word::Halves,
        b"by" => Word::Byte,
        _ => Word::Other,
    }
}

// Whether a line is one of the text's, with as many numbers as it has to have.
fn is_right(line: &[u8], word: Word, count: usize) -> bool {
    match word {
        Word::Sheet | Word::Stepped | Word::Hex => cases::entry_told(line).is_some(),
        Word::Empty | Word::Nothing => count == 0,
        Word::Look | Word::Row | Word::Customers | Word::Halves | Word::Byte => count == 1,
        Word::Used | Word::Close => count == 2,
        Word::Lent => count == 4,
        Word::Open => count == 5,
        Word::Step => count == 6,
        Word::Slot => count == 14,
        Word::Other => false,
    }
}

// The numbers of a line. A line that is none of the text's is printed.
fn values_of(out: &impl Print, line: &[u8]) -> [u64; 16] {
    let told = cases::numbers_by_turns(line);
    if !is_right(line, word_of(line), told.count) {
        cases::write(out, b" no such line: ");
        cases::write_line(out, line);
    }
    told.values
}

// ---- messages and records

fn put_open(pen: &mut Pen, v: [u64; 16]) {
    cases::put_frame(pen, 13, 16, v[1]);
    pen.put(cases::byte(v[2]));
    pen.put(cases::byte(v[3]));
    pen.put(cases::byte(v[4]));
    pen.put_le4(cases::four(v[5]));
}

fn put_step(pen: &mut Pen, v: [u64; 16]) {
    cases::put_frame(pen, 23, 17, v[1]);
    pen.put(cases::byte(v[2]));
    for n in [v[3], v[4], v[5], v[6]] {
        pen.put_le4(cases::four(n));
    }
}

fn put_close(pen: &mut Pen, v: [u64; 16]) {
    cases::put_frame(pen, 7, 18, v[1]);
    pen.put(cases::byte(v[2]));
}

// The numbers of a step of number 9, ordinal 1.
const NINTH: [u64; 16] = [0, 9, 1, 0, 0, 0, 0, 0, 0, 0, 0, 0, 0, 0, 0, 0];

// The bytes that a line stands for; none where it is no message and no record.
fn put_line(out: &mut [u8], line: &[u8], word: Word, v: [u64; 16]) -> usize {
    if let Word::Sheet | Word::Stepped | Word::Hex = word {
        return cases::put_told(out, line);
    }
    let mut pen = Pen { out, at: 0 };
    match word {
        Word::Open => put_open(&mut pen, v),
        Word::Step => put_step(&mut pen, v),
        Word::Close => put_close(&mut pen, v),
        Word::Slot => put_step(&mut pen, NINTH),
        _ => {}
    }
    pen.at
}

// ---- what is looked at

fn print_customers(out: &impl Print, all: [Customers; LEVELS]) {
    cases::write_numbers(out, &[all[0].0, all[1].0, all[2].0]);
}

fn print_halves(out: &impl Print, all: [HalfMinutes; LEVELS]) {
    cases::write_numbers(out, &[all[0].0, all[1].0, all[2].0]);
}

fn print_slot(out: &impl Print, slot: Slot) {
    cases::write_number(out, slot.head.number);
    cases::write_number(out, slot.head.t0);
    cases::write_number(out, slot.last);
    cases::write_number(out, slot.steps);
    print_customers(out, slot.figures.customers);
    print_halves(out, slot.figures.halves);
}

// The cells of a type's row; those of the first where the type is not listed.
fn cells_of(ledger: Ledger, typ: u64) -> [Cell; LEVELS] {
    ledger.rows[cases::place_of(typ) % codes::ROWS].levels
}

fn print_row(out: &impl Print, ledger: Ledger, typ: u64) {
    let cells = cells_of(ledger, typ);
    cases::write_number(out, ledger.events);
    cases::write_number(out, ledger.short);
    print_customers(out, cells.map(|cell| cell.customers));
    print_halves(out, cells.map(|cell| cell.halves));
}

// ---- what is lent

// The slots of a desk and one more, so that a desk too long can be lent too.
const HELD: usize = 33;

// The number, at most the slots that are held.
fn at_most_held(n: usize) -> usize
    ensures { result ≡ min n 33 }
{
    n.min(HELD)
}

// The slots and how many of them are the desk, the ledger, the map and how many bytes of it are lent; and the last answer.
#[derive(Clone, Copy)]
struct Bench {
    slots: [Slot; HELD],
    desk: u64,
    ledger: Ledger,
    map: [u8; 8193],
    bytes: u64,
    answer: u8,
}

fn head_of(v: [u64; 16]) -> Head {
    Head {
        number: cases::pair(v[2]),
        typ: cases::byte(v[3]),
        voltage: cases::byte(v[4]),
        cause: cases::byte(v[5]),
        t0: cases::four(v[6]),
    }
}

fn figures_of(v: [u64; 16]) -> Figures {
    Figures {
        customers: [Customers(v[9]), Customers(v[10]), Customers(v[11])],
        halves: [HalfMinutes(v[12]), HalfMinutes(v[13]), HalfMinutes(v[14])],
    }
}

impl Bench {
    // Nothing taken, nothing marked, nothing open.
    fn empty() -> Bench {
        Bench {
            slots: [Slot::free(); HELD],
            desk: 32,
            ledger: Ledger::empty(),
            map: [0; 8193],
            bytes: 8192,
            answer: 0,
        }
    }

    // The ledger of an outcome, or the same one where it is refused; and its answer.
    fn keep(&mut self, outcome: Result<Ledger, Refusal>) {
        self.answer = cases::answer_of(&outcome);
        self.ledger = outcome.unwrap_or(self.ledger);
    }

    // One message to the desk that the first of the slots make. They are copied out and back, as one call is not lent two fields behind a reference.
    fn serve(&mut self, message: &[u8]) {
        let size = (self.bytes as usize).min(self.map.len());
        let desk = at_most_held(self.desk as usize);
        let mut slots = self.slots;
        let served = desk::serve(
            self.ledger,
            &mut self.map[..size],
            &mut slots[..desk],
            message,
        );
        self.slots = slots;
        self.keep(served);
    }

    // One record to the book entry.
    fn take(&mut self, record: &[u8]) {
        let size = (self.bytes as usize).min(self.map.len());
        let taken = self.ledger.take(&mut self.map[..size], record);
        self.keep(taken);
    }

    // Events and short events of the ledger, bytes of the map and slots of the desk.
    fn resize(&mut self, v: [u64; 16]) {
        self.ledger.events = cases::pair(v[1]);
        self.ledger.short = cases::pair(v[2]);
        self.bytes = v[3];
        self.desk = v[4];
    }

    fn set_used(&mut self, v: [u64; 16]) {
        self.map[(v[1] % 8193) as usize] = cases::byte(v[2]);
    }

    fn set_slot(&mut self, v: [u64; 16]) {
        self.slots[(v[1] % 33) as usize] = Slot {
            head: head_of(v),
            last: cases::four(v[7]),
            steps: cases::byte(v[8]),
            figures: figures_of(v),
        };
    }

    // What a line does.
    fn send(&mut self, line: &[u8], word: Word, v: [u64; 16]) {
        let mut out = [0u8; 4096];
        let size = put_line(&mut out, line, word, v);
        let bytes = wire::part(&out, 0, size);
        match word {
            Word::Sheet | Word::Empty => {
                *self = Bench::empty();
                self.take(bytes);
            }
            Word::Stepped => self.take(bytes),
            Word::Open | Word::Step | Word::Close | Word::Hex | Word::Nothing => self.serve(bytes),
            Word::Slot => {
                self.set_slot(v);
                self.serve(bytes);
            }
            Word::Lent => self.resize(v),
            Word::Used => self.set_used(v),
            _ => {}
        }
    }

    // The answer, or what is looked at.
    fn print(&self, out: &impl Print, word: Word, at: u64) {
        match word {
            Word::Look => print_slot(out, self.slots[(at % 33) as usize]),
            Word::Byte => cases::write_number(out, self.map[(at % 8193) as usize]),
            Word::Row => print_row(out, self.ledger, at),
            Word::Customers => {
                cases::write_number(out, cells_of(self.ledger, at)[0].customers.0);
            }
            Word::Halves => cases::write_number(out, cells_of(self.ledger, at)[0].halves.0),
            _ => cases::write_number(out, self.answer),
        }
    }

    // A line with a name.
    fn take_named(&mut self, out: &impl Print, name: &[u8], body: &[u8]) {
        cases::write(out, name);
        let word = word_of(body);
        let v = values_of(out, body);
        self.send(body, word, v);
        self.print(out, word, v[1]);
    }

    fn take_line(&mut self, out: &impl Print, line: &[u8]) {
        let colon = line.iter().position(|b| *b == b':');
        match Line::told(line, colon.unwrap_or(line.len())) {
            Line::Passed => {}
            Line::Heading => cases::write_line(out, line),
            Line::Trial { name, body } => {
                let mut after = *self;
                after.take_named(out, name, body);
                cases::write(out, b"\n");
            }
            Line::Kept { name, body } => {
                self.take_named(out, name, body);
                cases::write(out, b"\n");
            }
            Line::Joined { name, body } => self.take_named(out, name, body),
            Line::Plain => self.send(line, word_of(line), values_of(out, line)),
        }
    }
}

// Each line ends with a newline.
fn main(rt: HostRuntime) {
    let mut text = [0u8; 65536];
    let n = refill::read_full(&mut rt.stdin(), &mut text);
    let mut bench = Bench::empty();
    let mut start = 0;
    while start < n {
        let past = cases::past_line(&text[..n], start);
        bench.take_line(&rt, &text[start..past - 1]);
        start = past;
    }
}
