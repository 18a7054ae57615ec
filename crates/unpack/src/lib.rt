// A record taken apart into the numbers of the line that stands for it.
#![tactic(auto)]

ghost use Rattle.std.specs.Prelude.{◌≡◌};
ghost use Rattle.text_items.specs.Sorts.{sort_number, entry_in};
ghost use Rattle.unpack.specs.Unpack.{kind_in, count_in, value_in, unpacked_of, bytes_entry, year_after};

use text_items::{Entry, Sort};

// The sort of line that stands for some bytes: a record whose length is its own and right for its kind. Blank for any other bytes.
#[tactic(auto, unfolding(crate::specs::Unpack::kind_in))]
fn kind_in(s: &[u8]) -> Sort
    ensures { sort_number result ≡ kind_in s.now }
{
    if !wire::is_framed(s) {
        return Sort::Blank;
    }
    let steps = wire::byte_at(s, 13);
    match wire::kind_of(s) {
        1 if s.len() == 18 => Sort::Sheet,
        2 if s.len() == 53 => Sort::Simple,
        3 if 1 <= steps && steps <= 64 && s.len() == 14 + 16 * steps as usize => Sort::Stepped,
        _ => Sort::Blank,
    }
}

// How many numbers a line of a sort has for a record.
#[tactic(auto, unfolding(crate::specs::Unpack::count_in))]
fn count_in(s: &[u8], kind: Sort) -> usize
    ensures { result ≡ count_in s.now (sort_number kind) }
{
    match kind {
        Sort::Stepped => 5 + 4 * wire::byte_at(s, 13) as usize,
        Sort::Blank | Sort::Sheet | Sort::Simple | Sort::Hex => text_items::most_of(kind),
    }
}

// The k-th number of a record that a line of a sort stands for.
#[tactic(auto, unfolding(crate::specs::Unpack::value_in))]
fn value_in(s: &[u8], kind: Sort, k: usize) -> u32
    ensures { result ≡ value_in s.now (sort_number kind) k }
{
    if 261 <= k {
        return 0;
    }
    match (kind, k) {
        (_, 0) => wire::u16_at(s, 4) as u32,
        (Sort::Sheet, _) => wire::u32_at(s, 4 * k + 2),
        (_, 1..=3) => wire::byte_at(s, k + 5) as u32,
        (_, 4) => wire::u32_at(s, 9),
        (Sort::Simple, _) => wire::u32_at(s, 4 * k - 7),
        _ => wire::u32_at(s, 4 * k - 6),
    }
}

// The entry of a record of a sort. Inlined where the sort is known: so is then where each number stands.
#[inline(always)]
#[tactic(auto, using(crate::proofs::UnpackLaws::filled_next, crate::proofs::UnpackLaws::count_few, crate::proofs::UnpackLaws::entry_of_lem))]
fn entry_as(s: &[u8], kind: Sort) -> Entry
    requires { sort_number kind ≡ kind_in s.now }
    ensures { entry_in result ≡ unpacked_of s.now }
{
    let count = count_in(s, kind);
    let mut values = [0u32; 261];
    for k in 0..count {
        values[k] = value_in(s, kind, k);
    }
    Entry {
        kind,
        count,
        values,
    }
}

// The entry of a record; a blank one where no line but bytes stands for it.
pub fn unpack(s: &[u8]) -> Entry
    ensures { entry_in result ≡ unpacked_of s.now }
{
    match kind_in(s) {
        Sort::Simple => entry_as(s, Sort::Simple),
        Sort::Stepped => entry_as(s, Sort::Stepped),
        kind => entry_as(s, kind),
    }
}

// A line of the first 32 bytes of some, or of all where they are fewer.
#[tactic(auto, using(crate::proofs::BytesLaws::one_taken, crate::proofs::BytesLaws::line_taken))]
pub fn bytes_entry(s: &[u8]) -> Entry
    ensures { entry_in result ≡ bytes_entry s.now }
{
    let count = s.len().min(32);
    let mut values = [0u32; 261];
    for (k, &b) in s[..count].iter().enumerate() {
        values[k] = b as u32;
    }
    Entry {
        kind: Sort::Hex,
        count,
        values,
    }
}

// The year that times are told in after a record: that of the first sheet that is in range, 0 before it.
#[tactic(auto, unfolding(crate::specs::Unpack::year_after))]
pub fn year_after(year: u16, s: &[u8]) -> u16
    ensures { result ≡ year_after year s.now }
{
    if year != 0 {
        return year;
    }
    if kind_in(s) != Sort::Sheet {
        return 0;
    }
    let sheet = fields::sheet_of(s);
    if sheet.in_range() { sheet.year } else { 0 }
}
