// The calls of the library for C (include/temelyak.h), which the crate temelyak_c exports: a ledger is lent as words of 64 bits, and every call answers a
// number. Each function reads the ledger, hands it to the call behind it, and writes it back where the answer is 0.
#![tactic(auto)]

ghost use Rattle.std.specs.Prelude.{◌≡◌};
ghost use Rattle.temelyak.specs.Calls.{empty_answer, empty_words, take_answer, take_words, take_map, book_answer, book_words, book_map, book_out, serve_answer, serve_words, serve_map, serve_desk, index_answer, index_out, decimal_answer, decimal_out, built_of};

use ledger::Ledger;
use slot::Slot;

// Writes an empty ledger.
pub fn temelyak_empty(header: u64, ledger: &mut [u64]) -> u32
    ensures { (result ≡ empty_answer header ledger.old) × (ledger.new ≡ empty_words header ledger.old) }
{
    if ledger.len() != c_words::WORDS {
        return c_words::answer_by(header, c_words::OTHER_SIZE);
    }
    c_words::settle(header, ledger, Ok(Ledger::empty()))
}

// Takes one record of a book.
pub fn temelyak_take(header: u64, ledger: &mut [u64], map: &mut [u8], bytes: &[u8]) -> u32
    ensures { (result ≡ take_answer header ledger.old map.old bytes.now) × (ledger.new ≡ take_words header ledger.old map.old bytes.now) × (map.new ≡ take_map header ledger.old map.old bytes.now) }
{
    let taken = c_words::lent_ledger(header, &ledger[..]).take(map, bytes);
    c_words::settle(header, ledger, taken)
}

// Takes a whole book.
pub fn temelyak_take_book(
    header: u64,
    ledger: &mut [u64],
    map: &mut [u8],
    bytes: &[u8],
    out: &mut [u64],
) -> u32
    ensures { (result ≡ book_answer header ledger.old map.old bytes.now out.old) × (ledger.new ≡ book_words header ledger.old map.old bytes.now out.old) × (map.new ≡ book_map header ledger.old map.old bytes.now out.old) × (out.new ≡ book_out header ledger.old map.old bytes.now out.old) }
{
    if out.len() != 2 {
        return c_words::answer_by(header, c_words::OTHER_SIZE);
    }
    match book::take_book(c_words::lent_ledger(header, &ledger[..]), map, bytes) {
        Ok(read) => {
            c_words::settle(header, ledger, Ok(read.ledger));
            c_words::put(header, out, Ok([read.refused, u64::from(read.broken)]))
        }
        Err(refusal) => c_words::answer_by(header, u8::from(refusal)),
    }
}

// Serves one message at a desk.
pub fn temelyak_serve(
    header: u64,
    ledger: &mut [u64],
    map: &mut [u8],
    desk: &mut [Slot],
    bytes: &[u8],
) -> u32
    ensures { (result ≡ serve_answer header ledger.old map.old desk.old bytes.now) × (ledger.new ≡ serve_words header ledger.old map.old desk.old bytes.now) × (map.new ≡ serve_map header ledger.old map.old desk.old bytes.now) × (desk.new ≡ serve_desk header ledger.old map.old desk.old bytes.now) }
{
    let lent = c_words::lent_ledger(header, ledger);
    let served = desk::serve(lent, map, desk, bytes);
    c_words::settle(header, ledger, served)
}

// An index as an exact fraction.
pub fn temelyak_index(
    header: u64,
    ledger: &[u64],
    index: u32,
    level: u32,
    set: u32,
    out: &mut [u64],
) -> u32
    ensures { (result ≡ index_answer header ledger.now index level set out.old) × (out.new ≡ index_out header ledger.now index level set out.old) }
{
    if !c_codes::all_named(index, level, set) {
        return 255;
    }
    if out.len() != 2 {
        return c_words::answer_by(header, c_words::OTHER_SIZE);
    }
    let lent = c_words::lent_ledger(header, ledger);
    let answer = index::index_of(
        lent,
        c_codes::index_named(index),
        c_codes::level_named(level),
        c_codes::set_named(set),
    );
    c_words::put(header, out, c_codes::fraction_pair(answer))
}

// An index with so many digits after the point.
pub fn temelyak_decimal(
    header: u64,
    ledger: &[u64],
    index: u32,
    level: u32,
    set: u32,
    digits: u32,
    out: &mut [u64],
) -> u32
    ensures { (result ≡ decimal_answer header ledger.now index level set digits out.old) × (out.new ≡ decimal_out header ledger.now index level set digits out.old) }
{
    if !c_codes::all_named(index, level, set) {
        return 255;
    }
    if out.len() != 2 {
        return c_words::answer_by(header, c_words::OTHER_SIZE);
    }
    let lent = c_words::lent_ledger(header, ledger);
    let shown = index::decimal_of(
        lent,
        c_codes::index_named(index),
        c_codes::level_named(level),
        c_codes::set_named(set),
        c_codes::digits_or_7(digits),
    );
    c_words::put(header, out, c_codes::decimal_pair(shown))
}

// What this library was built with: version, ledger words, slot bytes, map bytes and slots; 0 for any other.
pub fn temelyak_built(which: u32) -> u64
    ensures { result ≡ built_of which }
{
    match which {
        0 => c_words::VERSION,
        1 => c_words::WORDS as u64,
        2 => 72,
        3 => 8192,
        4 => 32,
        _ => 0,
    }
}
