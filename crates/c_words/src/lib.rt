// A ledger lent by C as words of 64 bits under the header's word (include/temelyak.h): the ledger that the words hold, handed on to the call behind, and what
// that call answers written back where the answer is 0.
#![tactic(auto)]

ghost use Rattle.std.specs.Prelude.{◌≡◌, ◌++◌, ◌+◌, ◌<◌, length, take, drop};
ghost use Rattle.refusals.specs.Refusals.{answer_in};
ghost use Rattle.c_words.specs.Words.{words_first, ledger_words, words_fit, Fit, ledger_in, cells_of, cell_words, rows_of, cells_in};
ghost use Rattle.c_words.specs.Header.{headed, if_accepted};
ghost use Rattle.c_words.specs.Inside.{no_ledger, lent_ledger, written, settled, handed, words_in, put_cell, put_row, cell_at, row_at};

use annex::{Customers, HalfMinutes};
use codes::{LEVELS, ROWS};
use fields::Sheet;
use ledger::{Cell, Ledger, TypeRow};
use refusals::Refusal;

// How many words stand before the rows, how many a row has, and how many a ledger has.
const FIRST: usize = 7;

const ROW: usize = LEVELS * 2;

pub const WORDS: usize = FIRST + ROWS * ROW;

// The version of the header, and the header word: it, so many words a ledger, 72 bytes a slot.
pub const VERSION: u64 = 2;

const HEADER: u64 = VERSION * 4294967296 + WORDS as u64 * 65536 + 72;

// What is answered where an output has another size.
pub const OTHER_SIZE: u8 = 251;

// ---- a ledger's words

// Whether words hold a ledger.
fn words_fit(words: &[u64]) -> bool
    ensures { result ≡ words_fit words.now }
{
    if words.len() != WORDS {
        return false;
    }
    (words[0] <= 1)
        & (words[1] <= 65535)
        & (words[2] <= 4294967295)
        & (words[3] <= 4294967295)
        & (words[4] <= 4294967295)
        & (words[5] <= 65535)
        & (words[6] <= 65535)
}

// The cell of two words.
fn cell_at(words: &[u64], at: usize) -> Cell
    requires { at + 1 < length words.now }
    ensures { result ≡ cell_at words.now at }
{
    Cell {
        customers: Customers(words[at]),
        halves: HalfMinutes(words[at + 1]),
    }
}

// The row of six words.
fn row_at(words: &[u64], at: usize) -> TypeRow
    requires { at + 5 < length words.now }
    ensures { result ≡ row_at words.now at }
{
    TypeRow {
        levels: [
            cell_at(words, at),
            cell_at(words, at + 2),
            cell_at(words, at + 4),
        ],
    }
}

// The rows that words hold.
fn rows_in(words: &[u64]) -> [TypeRow; ROWS]
    requires { length words.now ≡ ledger_words }
    ensures { result ≡ rows_of (cells_of (drop words_first words.now)) }
{
    let mut rows = [TypeRow::none(); ROWS];
    for k in 0..ROWS {
        rows[k] = row_at(words, FIRST + ROW * k);
    }
    rows
}

// A ledger that every call refuses.
fn no_ledger() -> Ledger
    ensures { result ≡ no_ledger }
{
    let mut none = Ledger::empty();
    none.short = 1;
    none
}

// The ledger that words hold.
fn ledger_in(words: &[u64]) -> Ledger
    requires { Fit words.now }
    ensures { result ≡ ledger_in words.now }
{
    Ledger {
        sheet: Sheet {
            there: words[0] == 1,
            year: words[1] as u16,
            totals: [words[2] as u32, words[3] as u32, words[4] as u32],
        },
        events: words[5] as u16,
        short: words[6] as u16,
        rows: rows_in(words),
    }
}

// Writes a cell over two words.
fn put_cell(words: &mut [u64], at: usize, cell: Cell)
    requires { at + 1 < length words.old }
    ensures { words.new ≡ put_cell words.old at cell }
{
    words[at] = cell.customers.0;
    words[at + 1] = cell.halves.0;
}

// Writes the cells of a row over six words.
fn put_row(words: &mut [u64], at: usize, cells: [Cell; LEVELS])
    requires { at + 5 < length words.old }
    ensures { words.new ≡ put_row words.old at cells }
{
    put_cell(words, at, cells[0]);
    put_cell(words, at + 2, cells[1]);
    put_cell(words, at + 4, cells[2]);
}

// Writes the rows over the words after the first FIRST.
fn write_rows(words: &mut [u64], rows: [TypeRow; ROWS])
    requires { length words.old ≡ ledger_words }
    ensures { words.new ≡ take words_first words.old ++ cell_words (cells_in rows) }
{
    for k in 0..ROWS {
        put_row(words, FIRST + ROW * k, rows[k].levels);
    }
}

// Writes a ledger over as many words as it has.
fn write(words: &mut [u64], ledger: Ledger)
    ensures { words.new ≡ written words.old ledger }
{
    if words.len() != WORDS {
        return;
    }
    let totals = ledger.sheet.totals;
    words[0] = u64::from(ledger.sheet.there);
    words[1] = u64::from(ledger.sheet.year);
    words[2] = u64::from(totals[0]);
    words[3] = u64::from(totals[1]);
    words[4] = u64::from(totals[2]);
    words[5] = u64::from(ledger.events);
    words[6] = u64::from(ledger.short);
    write_rows(words, ledger.rows);
}

// ---- under a header

// The answer, or 254 where the caller was built with another header.
pub fn answer_by(header: u64, answer: u8) -> u32
    ensures { result ≡ headed header answer }
{
    if header == HEADER {
        return answer as u32;
    }
    254
}

// The ledger that words hold; a ledger that every call refuses where words hold none, or where the caller was built with another header.
pub fn lent_ledger(header: u64, words: &[u64]) -> Ledger
    ensures { result ≡ lent_ledger header words.now }
{
    if header != HEADER {
        return no_ledger();
    }
    if !words_fit(words) {
        return no_ledger();
    }
    ledger_in(words)
}

// What a call behind answers by its number, and its ledger, which is written where that is 0.
#[tactic(auto, unfolding(crate::specs::Inside::settled))]
#[inline(always)]
pub fn settle_number(header: u64, words: &mut [u64], answer: u8, ledger: Ledger) -> u32
    ensures { (result ≡ headed header answer) × (words.new ≡ settled header words.old (record { answer = answer; ledger = ledger })) }
{
    let number = answer_by(header, answer);
    if number == 0 {
        write(words, ledger);
    }
    number
}

// The answer of the call behind, whose ledger is written where there is one.
#[tactic(auto, using(refusals::proofs::NumberLaws::number_above_0), unfolding(crate::specs::Inside::settled))]
#[inline(always)]
pub fn settle(header: u64, words: &mut [u64], taken: Result<Ledger, Refusal>) -> u32
    ensures { (result ≡ headed header (answer_in taken)) × (words.new ≡ settled header words.old (handed taken)) }
{
    match taken {
        Ok(ledger) => settle_number(header, words, 0, ledger),
        Err(refusal) => answer_by(header, u8::from(refusal)),
    }
}

// The same of two words and an output that has room for them: by a number, and by what there is.
pub fn put_number(header: u64, out: &mut [u64], answer: u8, words: [u64; 2]) -> u32
    requires { length out.old ≡ 2 }
    ensures { (result ≡ headed header answer) × (out.new ≡ if_accepted (headed header answer) words out.old) }
{
    let told = answer_by(header, answer);
    if told == 0 {
        out[0] = words[0];
        out[1] = words[1];
    }
    told
}

pub fn put(header: u64, out: &mut [u64], words: Result<[u64; 2], Refusal>) -> u32
    requires { length out.old ≡ 2 }
    ensures { (result ≡ headed header (answer_in words)) × (out.new ≡ if_accepted (headed header (answer_in words)) (words_in words) out.old) }
{
    match words {
        Ok(pair) => put_number(header, out, 0, pair),
        Err(refusal) => answer_by(header, u8::from(refusal)),
    }
}
