// The library for C (include/temelyak.h): each export calls the function of its name in the crate temelyak, and promises what that promises.
#![tactic(auto)]

ghost use Rattle.std.specs.Prelude.{◌≡◌};
ghost use Rattle.temelyak.specs.Calls.{empty_answer, empty_words, take_answer, take_words, take_map, book_answer, book_words, book_map, book_out, serve_answer, serve_words, serve_map, serve_desk, index_answer, index_out, decimal_answer, decimal_out, built_of};

use slot::Slot;

// Writes an empty ledger.
#[unsafe(no_mangle)]
pub extern "C" fn temelyak_empty(header: u64, ledger: &mut [u64]) -> u32
    ensures { (result ≡ empty_answer header ledger.old) × (ledger.new ≡ empty_words header ledger.old) }
{
    temelyak::temelyak_empty(header, ledger)
}

// Takes one record of a book.
#[unsafe(no_mangle)]
pub extern "C" fn temelyak_take(
    header: u64,
    ledger: &mut [u64],
    map: &mut [u8],
    bytes: &[u8],
) -> u32
    ensures { (result ≡ take_answer header ledger.old map.old bytes.now) × (ledger.new ≡ take_words header ledger.old map.old bytes.now) × (map.new ≡ take_map header ledger.old map.old bytes.now) }
{
    temelyak::temelyak_take(header, ledger, map, bytes)
}

// Takes a whole book.
#[unsafe(no_mangle)]
pub extern "C" fn temelyak_take_book(
    header: u64,
    ledger: &mut [u64],
    map: &mut [u8],
    bytes: &[u8],
    out: &mut [u64],
) -> u32
    ensures { (result ≡ book_answer header ledger.old map.old bytes.now out.old) × (ledger.new ≡ book_words header ledger.old map.old bytes.now out.old) × (map.new ≡ book_map header ledger.old map.old bytes.now out.old) × (out.new ≡ book_out header ledger.old map.old bytes.now out.old) }
{
    temelyak::temelyak_take_book(header, ledger, map, bytes, out)
}

// Serves one message at a desk.
#[unsafe(no_mangle)]
pub extern "C" fn temelyak_serve(
    header: u64,
    ledger: &mut [u64],
    map: &mut [u8],
    desk: &mut [Slot],
    bytes: &[u8],
) -> u32
    ensures { (result ≡ serve_answer header ledger.old map.old desk.old bytes.now) × (ledger.new ≡ serve_words header ledger.old map.old desk.old bytes.now) × (map.new ≡ serve_map header ledger.old map.old desk.old bytes.now) × (desk.new ≡ serve_desk header ledger.old map.old desk.old bytes.now) }
{
    temelyak::temelyak_serve(header, ledger, map, desk, bytes)
}

// An index as an exact fraction.
#[unsafe(no_mangle)]
pub extern "C" fn temelyak_index(
    header: u64,
    ledger: &[u64],
    index: u32,
    level: u32,
    set: u32,
    out: &mut [u64],
) -> u32
    ensures { (result ≡ index_answer header ledger.now index level set out.old) × (out.new ≡ index_out header ledger.now index level set out.old) }
{
    temelyak::temelyak_index(header, ledger, index, level, set, out)
}

// An index with so many digits after the point.
#[unsafe(no_mangle)]
pub extern "C" fn temelyak_decimal(
    header: u64,
    ledger: &[u64],
    index: u32,
    level: u32,
    set: u32,
    digits: u32,
    out: &mut [u64],
) -> u32
    ensures { (result ≡ decimal_answer header ledger.now index level set digits out.old) × (out.new ≡ decimal_out header ledger.now index level set digits out.old) }
{
    temelyak::temelyak_decimal(header, ledger, index, level, set, digits, out)
}

// What this library was built with: version, ledger words, slot bytes, map bytes and slots; 0 for any other.
#[unsafe(no_mangle)]
pub extern "C" fn temelyak_built(which: u32) -> u64
    ensures { result ≡ built_of which }
{
    temelyak::temelyak_built(which)
}
