// The items of a line of text: gaps between them, numbers, times and hexadecimal digits. Each function reads the front of what is left of the line.
#![tactic(auto, unfolding(crate::specs::Scan::is_gap, crate::specs::Scan::separates, crate::specs::Scan::is_other, crate::specs::Scan::is_digit, crate::specs::Scan::grown, crate::specs::Scan::digits_of, crate::specs::Scan::two_stand, crate::specs::Scan::date_stands, crate::specs::Scan::number_found, crate::specs::Scan::date_found, crate::specs::Scan::time_found, crate::specs::Scan::hex_value, crate::specs::Scan::hex_found, crate::specs::Scan::item_found))]

ghost use Rattle.std.specs.Prelude.{◌≡◌, ◌-◌};
ghost use Rattle.text_items.specs.Sorts.{item_number};
ghost use Rattle.text_scan.specs.Outcomes.{expected_number, asked_number, number_named, wrong_at, found_in, gap_in, place_within, below_16};
ghost use Rattle.text_scan.specs.Scan.{is_gap, gaps_in, ends_here, parted_here, separates, separator_of, is_other, other_at, separator_place, gap_said, digits_of, number_found, date_found, time_found, hex_found, item_found};

use calendar::Date;
use text_items::Item;

// What a line was expected to have where it does not go on.
#[derive(Clone, Copy, Debug, PartialEq, Eq)]
pub enum Expected {
    Word,
    Number,
    AtMost255,
    AtMost65535,
    AtMost4294967295,
    Time,
    SheetBefore,
    DayOfYear,
    TwoDigits,
    Gap,
    NoMore,
    More,
    OtherSeparator,
    Separator,
    EmptyCell,
}

// What was expected instead, and how many bytes on.
#[derive(Clone, Copy, Debug, PartialEq, Eq)]
pub struct Wrong {
    pub expected: Expected,
    pub at: usize,
}

impl Expected {
    // What a number names: 1 to 15, as they stand; any other names nothing.
    pub fn named(number: u8) -> Option<Expected>
        ensures { asked_number result ≡ number_named number }
    {
        match number {
            1 => Some(Expected::Word),
            2 => Some(Expected::Number),
            3 => Some(Expected::AtMost255),
            4 => Some(Expected::AtMost65535),
            5 => Some(Expected::AtMost4294967295),
            6 => Some(Expected::Time),
            7 => Some(Expected::SheetBefore),
            8 => Some(Expected::DayOfYear),
            9 => Some(Expected::TwoDigits),
            10 => Some(Expected::Gap),
            11 => Some(Expected::NoMore),
            12 => Some(Expected::More),
            13 => Some(Expected::OtherSeparator),
            14 => Some(Expected::Separator),
            15 => Some(Expected::EmptyCell),
            0 | 16..=255 => None,
        }
    }

    // What was expected, so many bytes on.
    pub fn at(self, at: usize) -> Wrong
        ensures { result ≡ wrong_at self at }
    {
        Wrong { expected: self, at }
    }
}

// An item that was read: its number, and how many bytes it has.
#[derive(Clone, Copy, Debug, PartialEq, Eq)]
pub struct Found {
    pub value: u32,
    pub used: usize,
}

// Decimal digits: the number that they write, as far as it is told from larger ones, and how many there are.
#[derive(Clone, Copy)]
pub struct Digits {
    pub value: u64,
    pub used: usize,
}

// Whether a byte parts items: a space, a tab, a comma, a semicolon, a bar or a carriage return.
pub fn is_gap(b: u8) -> bool
    ensures { result ≡ is_gap b }
{
    matches!(b, b' ' | b'\t' | b',' | b';' | b'|' | b'\r')
}

// How many bytes in front part items.
pub fn gaps_in(s: &[u8]) -> usize
    ensures { result ≡ gaps_in s.now }
{
    s.iter().position(|b| !is_gap(*b)).unwrap_or(s.len())
}

// Whether the line has nothing more: its end, or a comment.
pub fn ends_here(s: &[u8]) -> bool
    ensures { result ≡ ends_here s.now }
{
    matches!(s, [] | [b'#', ..])
}

// Whether an item that stood before this is parted from what follows.
pub fn parted_here(s: &[u8]) -> bool
    ensures { result ≡ parted_here s.now }
{
    ends_here(s) || is_gap(wire::byte_at(s, 0))
}

// ---- lines of cells

// Whether a byte makes a line one of cells: a tab, a comma or a semicolon.
fn separates(b: u8) -> bool
    ensures { result ≡ Rattle.text_scan.specs.Scan.separates b }
{
    matches!(b, b'\t' | b',' | b';')
}

// The separator of a line of cells: the first before its comment. 0 where there is none, and not an Option: 0 differs from every separator, as `other_at` asks.
pub fn separator_of(line: &[u8]) -> u8
    ensures { result ≡ separator_of line.now }
{
    for &b in line {
        if b == b'#' {
            return 0;
        }
        if separates(b) {
            return b;
        }
    }
    0
}

// Whether a byte is a separator, and not the line's.
fn is_other(b: u8, sep: u8) -> bool
    ensures { result ≡ is_other b sep }
{
    separates(b) && b != sep
}

// Where in a gap a separator stands that is not the line's.
pub fn other_at(gap: &[u8], sep: u8) -> Option<usize>
    ensures { result ≡ place_within (other_at gap.now sep) gap.now }
{
    gap.iter().position(|b| is_other(*b, sep))
}

// Where in a gap a byte first stands.
fn place_of(gap: &[u8], sep: u8) -> Option<usize>
    ensures { result ≡ place_within (separator_place gap.now sep) gap.now }
{
    gap.iter().position(|b| *b == sep)
}

// Whether a gap of a line of cells is right, or what is wrong with it. `due` says whether an item follows it: then it has exactly one separator.
pub fn gap_said(gap: &[u8], sep: u8, due: bool) -> Result<(), Wrong>
    ensures { gap_in result ≡ gap_said gap.now sep due }
{
    if let Some(other) = other_at(gap, sep) {
        return Err(Expected::OtherSeparator.at(other));
    }
    if !due {
        return Ok(());
    }
    let Some(first) = place_of(gap, sep) else {
        return Err(Expected::Separator.at(gap.len()));
    };
    let past = first + 1;
    if let Some(more) = place_of(wire::part(gap, past, gap.len()), sep) {
        return Err(Expected::EmptyCell.at(past + more));
    }
    Ok(())
}

// ---- numbers

// Whether a byte is a decimal digit.
pub fn is_digit(b: u8) -> bool
    ensures { result ≡ Rattle.text_scan.specs.Scan.is_digit b }
{
    b.is_ascii_digit()
}

// A number with one digit more; past 4,294,967,295 it stays.
fn grown(value: u64, b: u8) -> u64
    ensures { result ≡ Rattle.text_scan.specs.Scan.grown value b }
{
    if u64::from(u32::MAX) < value {
        return value;
    }
    value * 10 + u64::from(b.saturating_sub(b'0'))
}

// The decimal digits in front.
fn digits_of(s: &[u8]) -> Digits
    ensures { result ≡ digits_of s.now }
{
    let mut run = Digits { value: 0, used: 0 };
    for &b in s {
        if !is_digit(b) {
            return run;
        }
        run.value = grown(run.value, b);
        run.used += 1;
    }
    run
}

// A number of at most so much; `none` is expected where no digit stands, and `large` where it is larger.
fn number_found(s: &[u8], most: u32, none: Expected, large: Expected) -> Result<Found, Wrong>
    ensures { found_in result ≡ number_found s.now most (expected_number none) (expected_number large) }
{
    let run = digits_of(s);
    if run.used == 0 {
        return Err(none.at(0));
    }
    if (most as u64) < run.value {
        return Err(large.at(0));
    }
    Ok(Found {
        value: run.value as u32,
        used: run.used,
    })
}

// Whether two decimal digits stand at a place.
fn two_stand(s: &[u8], at: usize) -> bool
    ensures { result ≡ Rattle.text_scan.specs.Scan.two_stand s.now at }
{
    at < 16 && is_digit(wire::byte_at(s, at)) && is_digit(wire::byte_at(s, at + 1))
}

// The number of a decimal digit.
fn digit_of(b: u8) -> u32
    ensures { result ≡ b - 48 }
{
    u32::from(b.saturating_sub(b'0'))
}

// The number of two decimal digits at a place; 0 where they do not stand there.
fn two_at(s: &[u8], at: usize) -> u32
    ensures { result ≡ Rattle.text_scan.specs.Scan.two_at s.now at }
{
    if !two_stand(s, at) {
        return 0;
    }
    digit_of(wire::byte_at(s, at)) * 10 + digit_of(wire::byte_at(s, at + 1))
}

// Whether a date stands in front, as MM-DD hh:mm.
fn date_stands(s: &[u8]) -> bool
    ensures { result ≡ Rattle.text_scan.specs.Scan.date_stands s.now }
{
    two_stand(s, 0)
        && wire::byte_at(s, 2) == b'-'
        && two_stand(s, 3)
        && wire::byte_at(s, 5) == b' '
        && two_stand(s, 6)
        && wire::byte_at(s, 8) == b':'
        && two_stand(s, 9)
}

// A time as MM-DD hh:mm within a year; the year is 0 where none is known.
fn date_found(s: &[u8], year: u16) -> Result<Found, Wrong>
    ensures { found_in result ≡ date_found s.now year }
{
    if !date_stands(s) {
        return Err(Expected::Time.at(0));
    }
    if year == 0 {
        return Err(Expected::SheetBefore.at(0));
    }
    let date = Date {
        month: two_at(s, 0),
        day: two_at(s, 3),
        hour: two_at(s, 6),
        minute: two_at(s, 9),
    };
    let Some(value) = calendar::minute_of(year, date) else {
        return Err(Expected::DayOfYear.at(0));
    };
    Ok(Found { value, used: 11 })
}

// A time: minutes, or a date where a dash stands after two bytes.
fn time_found(s: &[u8], year: u16) -> Result<Found, Wrong>
    ensures { found_in result ≡ time_found s.now year }
{
    if wire::byte_at(s, 2) == b'-' {
        return date_found(s, year);
    }
    number_found(s, u32::MAX, Expected::Time, Expected::AtMost4294967295)
}

// The number of a hexadecimal digit, of either case.
fn hex_value(b: u8) -> Option<u8>
    ensures { result ≡ below_16 (Rattle.text_scan.specs.Scan.hex_value b) }
{
    match b {
        b'0'..=b'9' => Some(b - b'0'),
        b'A'..=b'F' => Some(b - b'A' + 10),
        b'a'..=b'f' => Some(b - b'a' + 10),
        _ => None,
    }
}

// A byte in two hexadecimal digits.
fn hex_found(s: &[u8]) -> Result<Found, Wrong>
    ensures { found_in result ≡ hex_found s.now }
{
    let (Some(high), Some(low)) = (
        hex_value(wire::byte_at(s, 0)),
        hex_value(wire::byte_at(s, 1)),
    ) else {
        return Err(Expected::TwoDigits.at(0));
    };
    Ok(Found {
        value: high as u32 * 16 + low as u32,
        used: 2,
    })
}

// An item of a sort.
pub fn item_found(s: &[u8], item: Item, year: u16) -> Result<Found, Wrong>
    ensures { found_in result ≡ item_found s.now (item_number item) year }
{
    match item {
        Item::Byte => number_found(s, 255, Expected::Number, Expected::AtMost255),
        Item::Pair => number_found(s, 65535, Expected::Number, Expected::AtMost65535),
        Item::Count => number_found(s, u32::MAX, Expected::Number, Expected::AtMost4294967295),
        Item::Time => time_found(s, year),
        Item::Digits => hex_found(s),
    }
}
