// What the drivers of run cases share: printing, the numbers and the sort of a line, and what a line stands for.
#![tactic(auto)]

ghost use Rattle.std.specs.Prelude.{◌≡◌, ◌↔◌, ◌-◌, ◌%◌, ◌<◌, ◌≤◌, ◌^◌, ◌==◌, length, get_or, fold, min, position, IsSome, IfSome};
ghost use Rattle.std.specs.List.{after_first};
ghost use Rattle.refusals.specs.Refusals.{answer_in};
ghost use Rattle.wire.specs.Numbers.{byte_at, le2};
ghost use Rattle.codes.specs.Codes.{row_of};
ghost use Rattle.pen.specs.Pen.{inked, spot, pushed_all};
ghost use Rattle.text_items.specs.Sorts.{entry_in};
ghost use Rattle.text_parse.specs.Entry.{parsed_of};
ghost use Rattle.cases.specs.Runs.{runs_of, wrapped, fitted, numbers_in, twelve_of, turns_in};
ghost use Rattle.cases.specs.Lines.{line_past, parts_in, parts_of};
ghost use Rattle.cases.specs.Lent.{cell_with, row_lent, rows_lent, sheet_lent, ledger_lent, ledger_with, bytes_told};

use annex::{Customers, HalfMinutes};
use fields::Sheet;
use ledger::{Cell, Ledger, TypeRow};
use pen::Pen;
use refusals::Refusal;
use std::fmt::Display;
use text_items::Entry;

// ---- what is printed; what cannot be written is left out

pub fn write(out: &impl Print, text: &[u8])
    ensures { result ≡ tt }
{
    let _ = out.write_all(text);
}

// A text, and a newline behind it.
pub fn write_line(out: &impl Print, text: &[u8])
    ensures { result ≡ tt }
{
    write(out, text);
    write(out, b"\n");
}

// A number, and a space in front of it.
pub fn write_number<N: Display + Drop>(out: &impl Print, n: N)
    ensures { result ≡ tt }
{
    let _ = print!(out; " {n}");
}

pub fn write_numbers(out: &impl Print, all: &[u64])
    ensures { result ≡ tt }
{
    for n in all {
        write_number(out, *n);
    }
}

// 0, or the number of a refusal.
pub fn answer_of<T>(outcome: &Result<T, Refusal>) -> u8
    ensures { result ≡ answer_in outcome.now }
{
    match outcome {
        Ok(_) => 0,
        Err(refusal) => u8::from(*refusal),
    }
}

// ---- the lowest bytes of a number

pub fn byte(n: u64) -> u8
    ensures { result ≡ n % 2 ^ 8 }
{
    (n % (1 << 8)) as u8
}

pub fn pair(n: u64) -> u16
    ensures { result ≡ n % 2 ^ 16 }
{
    (n % (1 << 16)) as u16
}

pub fn four(n: u64) -> u32
    ensures { result ≡ n % 2 ^ 32 }
{
    (n % (1 << 32)) as u32
}

// ---- the numbers of a line: its runs of decimal digits, whatever stands between them

// The numbers, and how many there are; what stands past them is 0.
#[derive(Clone, Copy)]
pub struct Numbers<const N: usize> {
    pub values: [u64; N],
    pub count: usize,
}

// A number with one digit more. What a u64 has no room for wraps, and past that no digit is added.
fn wrapping(value: u64, digit: u8) -> u64
    ensures { result ≡ wrapped value digit }
{
    let digit = u64::from(digit % 16);
    value
        .checked_mul(10)
        .map_or(value, |tens| tens.wrapping_add(digit))
}

// The number of a run of digits.
fn number_of(digits: &[u8]) -> u64
    ensures { result ≡ fold wrapped 0 digits.now }
{
    digits
        .iter()
        .fold(0, |value, digit| wrapping(value, *digit))
}

// The first twelve numbers of a line, the first at place 0.
pub fn first_numbers(line: &[u8]) -> Numbers<12>
    ensures values { result.values ≡ twelve_of (numbers_in (runs_of line.now)) }
    ensures count { result.count ≡ min 12 (length (runs_of line.now)) }
    ensures within { result.count ≤ 12 }
{
    let mut values = [0; 12];
    let mut count = 0;
    for digits in line.split(|b| !b.is_ascii_digit()) {
        if !digits.is_empty() && count < values.len() {
            values[count] = number_of(digits);
            count += 1;
        }
    }
    Numbers { values, count }
}

// A number with one digit more, as long as a u64 has room for it.
fn fitting(value: u64, digit: u8) -> u64
    ensures { result ≡ fitted value digit }
{
    let digit = u64::from(digit % 16);
    value.checked_mul(10).map_or(value, |tens| {
        tens.checked_add(digit).unwrap_or(tens + digit % 6)
    })
}

// A number with a run of digits more.
fn number_from(value: u64, digits: &[u8]) -> u64
    ensures { result ≡ fold fitted value digits.now }
{
    digits
        .iter()
        .fold(value, |value, digit| fitting(value, *digit))
}

// The numbers of a line, the first at place 1: place 0 is the word's. Behind the fifteenth place comes the first again.
pub fn numbers_by_turns(line: &[u8]) -> Numbers<16>
    ensures values { result.values ≡ (turns_in (runs_of line.now)).values }
    ensures count { result.count ≡ (turns_in (runs_of line.now)).count }
    ensures below { result.count < 16 }
{
    let mut values = [0; 16];
    let mut count = 0;
    for digits in line.split(|b| !b.is_ascii_digit()) {
        if !digits.is_empty() {
            count = count % 15 + 1;
            values[count] = number_from(values[count], digits);
        }
    }
    Numbers { values, count }
}

// ---- lines

// Where a byte first stands.
fn first_of(text: &[u8], byte: u8) -> Option<usize>
    ensures { result ≡ position (λ b. b == byte) text.now }
{
    text.iter().position(|b| *b == byte)
}

// A word past, and the space behind it.
pub fn past_word(line: &[u8]) -> &[u8]
    ensures rest { result.now ≡ after_first (λ b. b == 32) line.now }
    ensures shorter { length result.now ≤ length line.now - 1 }
{
    match first_of(line, b' ') {
        Some(space) => &line[space + 1..],
        None => &[],
    }
}

// The place after a line that begins at a place of the text.
pub fn past_line(text: &[u8], start: usize) -> usize
    requires { start < length text.now }
    ensures place { result ≡ line_past text.now start }
    ensures on { start < result }
    ensures within { result ≤ length text.now }
{
    match first_of(&text[start..], b'\n') {
        Some(newline) => start + newline + 1,
        None => text.len(),
    }
}

// What a line is, where a name and a colon may stand in front of it.
#[derive(Clone, Copy)]
pub enum Line<'a> {
    // a comment, or nothing
    Passed,
    // printed as it is
    Heading,
    // `NAME: BODY`, after which all is as it was
    Trial { name: &'a [u8], body: &'a [u8] },
    // `NAME:= BODY`, which stays done
    Kept { name: &'a [u8], body: &'a [u8] },
    // `NAME:+ BODY`, the same; the next one's output goes on behind its own
    Joined { name: &'a [u8], body: &'a [u8] },
    // a line without a name
    Plain,
}

impl<'a> Line<'a> {
    // A line whose colon stands at a place: at its end where it has none.
    pub fn told(line: &'a [u8], colon: usize) -> Line<'a>
        ensures parts { parts_in result ≡ parts_of line.now colon }
        ensures passed { byte_at line.now 0 ≡ 35 → result ≡ Line.Passed }
        ensures heading { byte_at line.now 0 ≡ 45 → result ≡ Line.Heading }
    {
        let name = wire::part(line, 0, colon);
        let rest = wire::part(line, colon, line.len());
        let sort = match line {
            [] => b'#',
            [first @ (b'#' | b'-'), ..] => *first,
            _ => wire::byte_at(rest, 1),
        };
        let body = wire::part(rest, if sort == b' ' { 2 } else { 3 }, rest.len());
        match sort {
            b'#' => Line::Passed,
            b'-' => Line::Heading,
            b' ' => Line::Trial { name, body },
            b'=' => Line::Kept { name, body },
            b'+' => Line::Joined { name, body },
            _ => Line::Plain,
        }
    }
}

// ---- records

// What a line of docs/TEXT.md says, its times in minutes.
pub fn entry_told(line: &[u8]) -> Option<Entry>
    ensures told { IsSome result ↔ ((parsed_of line.now 0).answer ≡ 0) }
    ensures entry { IfSome result (λ entry. entry_in entry ≡ (parsed_of line.now 0).entry) }
{
    match text_parse::parse(line, 0) {
        Ok(parsed) => Some(parsed.entry),
        Err(_) => None,
    }
}

// The bytes that such a line stands for, put at the front of a buffer: how many. None for any other line.
pub fn put_told(out: &mut [u8], line: &[u8]) -> usize
    ensures { spot out.new result ≡ pushed_all (spot out.old 0) (bytes_told line.now) }
{
    match entry_told(line) {
        Some(entry) => pack::pack(out, 0, entry),
        None => 0,
    }
}

// The size, the kind and a number that a record begins with.
pub fn put_frame(pen: &mut Pen, size: u32, kind: u32, n: u64)
    ensures { pen.new ≡ inked (inked (inked pen.old (le2 size)) (le2 kind)) (le2 (n % 2 ^ 32)) }
{
    pen.put_le2(size);
    pen.put_le2(kind);
    pen.put_le2(four(n));
}

// ---- a ledger that is lent

fn sheet_of(v: [u64; 12]) -> Sheet
    ensures { result ≡ sheet_lent v }
{
    Sheet {
        there: v[0] == 1,
        year: pair(v[1]),
        totals: [four(v[2]), four(v[3]), four(v[4])],
    }
}

// THERE | YEAR | NN VN VVN | EVENTS SHORT: a ledger whose cells are all 0.
pub fn ledger_of(v: [u64; 12]) -> Ledger
    ensures all { result ≡ ledger_lent v }
    ensures year { result.sheet.year ≡ get_or v 1 0 % 2 ^ 16 }
    ensures events { result.events ≡ get_or v 5 0 % 2 ^ 16 }
    ensures short { result.short ≡ get_or v 6 0 % 2 ^ 16 }
{
    Ledger {
        sheet: sheet_of(v),
        events: pair(v[5]),
        short: pair(v[6]),
        ..Ledger::empty()
    }
}

fn cell_of(customers: u64, halves: u64) -> Cell
    ensures { result ≡ cell_with customers halves }
{
    Cell {
        customers: Customers(customers),
        halves: HalfMinutes(halves),
    }
}

// TYPE | CUSTOMERS HALVES | CUSTOMERS HALVES | CUSTOMERS HALVES: the cells of a type, NN, VN and VVN.
pub fn row_of(v: [u64; 12]) -> TypeRow
    ensures { result ≡ row_lent v }
{
    TypeRow {
        levels: [
            cell_of(v[1], v[2]),
            cell_of(v[3], v[4]),
            cell_of(v[5], v[6]),
        ],
    }
}

// The place of a type's row; the number of rows for a type that is not listed.
pub fn place_of(typ: u64) -> usize
    ensures { result ≡ row_of (typ % 2 ^ 8) }
{
    usize::from(codes::row_of(byte(typ)))
}

// Sets the cells of the type that the numbers begin with. A type that is not listed has none.
pub fn set_row(ledger: &mut Ledger, v: [u64; 12])
    ensures all { ledger.new ≡ ledger_with ledger.old v }
    ensures rows { ledger.new.rows ≡ rows_lent ledger.old.rows (row_of (get_or v 0 0 % 2 ^ 8)) (row_lent v) }
    ensures events { ledger.new.events ≡ ledger.old.events }
{
    let place = place_of(v[0]);
    if place < codes::ROWS {
        ledger.rows[place] = row_of(v);
    }
}
