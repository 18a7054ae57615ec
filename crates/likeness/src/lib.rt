// What stands in a refused line in the place of what was expected: what spreadsheets and people write often, so that it can be named.
#![tactic(auto, unfolding(crate::specs::Likeness::is_letter, crate::specs::Likeness::is_header, crate::specs::Likeness::is_mark, crate::specs::Likeness::any_alike, crate::specs::Likeness::word_like, crate::specs::Likeness::item_like, crate::specs::Likeness::marks_time, crate::specs::Likeness::time_goes_on, crate::specs::Likeness::gap_like, crate::specs::Likeness::likeness_of))]

ghost use Rattle.std.specs.Prelude.{◌≡◌, ◌||◌, false, eqb};
ghost use Rattle.text_items.specs.Sorts.{item_number};
ghost use Rattle.text_scan.specs.Outcomes.{expected_number, asked_number};
ghost use Rattle.likeness.specs.Likeness.{is_letter, begins_alike, any_alike, letters_in, word_like, item_like, marks_time, time_goes_on, gap_like, likeness_of};
ghost use Rattle.likeness.specs.Numbers.{like_number};

use text_items::Item;
use text_scan::Expected;

#[derive(Clone, Copy, Debug, PartialEq, Eq)]
pub enum Likeness {
    ByteOrderMark,
    Quoted,
    Capitals,
    Header,
    OtherTime,
}

// Whether a byte is a letter of ASCII, or past it: those of other alphabets.
fn is_letter(b: u8) -> bool
    ensures { result ≡ Rattle.likeness.specs.Likeness.is_letter b }
{
    b.is_ascii_alphabetic() || 128 <= b
}

// Whether a line begins with a word, in whichever letters.
fn begins_alike(s: &[u8], word: &[u8]) -> bool
    ensures { result ≡ begins_alike s.now word.now }
{
    word.len() <= s.len()
        && s.iter()
            .zip(word)
            .all(|(b, w)| b.to_ascii_lowercase() == *w)
}

// Whether a word stands in front, in whichever letters, parted from what follows.
fn is_alike(s: &[u8], word: &[u8]) -> bool
    ensures { result ≡ Rattle.likeness.specs.Likeness.is_alike s.now word.now }
{
    begins_alike(s, word) && text_scan::parted_here(wire::part(s, word.len(), s.len()))
}

// Whether one of the four words stands in front, in whichever letters.
fn any_alike(s: &[u8]) -> bool
    ensures { result ≡ any_alike s.now }
{
    is_alike(s, b"sheet")
        || is_alike(s, b"simple")
        || is_alike(s, b"stepped")
        || is_alike(s, b"hex")
}

// Whether an item behind the first begins with a letter, before the comment.
fn letters_in(s: &[u8]) -> bool
    ensures { result ≡ letters_in false s.now }
{
    let mut behind = false;
    for &b in s {
        if b == b'#' {
            return false;
        }
        if behind && is_letter(b) {
            return true;
        }
        behind = text_scan::is_gap(b);
    }
    false
}

// Whether a line is a header row: its first item begins with a letter, and another one too.
fn is_header(s: &[u8]) -> bool
    ensures { result ≡ Rattle.likeness.specs.Likeness.is_header s.now }
{
    is_letter(wire::byte_at(s, 0)) && letters_in(s)
}

// Whether a byte-order mark stands in front.
fn is_mark(s: &[u8]) -> bool
    ensures { result ≡ Rattle.likeness.specs.Likeness.is_mark s.now }
{
    matches!(s, [239, 187, 191, ..])
}

// What stands in a word's place.
fn word_like(s: &[u8]) -> Option<Likeness>
    ensures { like_number result ≡ word_like s.now }
{
    if is_mark(s) {
        return Some(Likeness::ByteOrderMark);
    }
    if wire::byte_at(s, 0) == b'"' {
        return Some(Likeness::Quoted);
    }
    if any_alike(s) {
        return Some(Likeness::Capitals);
    }
    if is_header(s) {
        return Some(Likeness::Header);
    }
    None
}

// What stands in an item's place.
fn item_like(s: &[u8], expected: Expected) -> Option<Likeness>
    ensures { like_number result ≡ item_like s.now (expected_number expected) }
{
    let first = wire::byte_at(s, 0);
    if first == b'"' {
        return Some(Likeness::Quoted);
    }
    if expected == Expected::Time && text_scan::is_digit(first) {
        return Some(Likeness::OtherTime);
    }
    None
}

// Whether a byte stands between the numbers of a day or of an hour: a dash, a point, a stroke or a colon.
fn marks_time(b: u8) -> bool
    ensures { result ≡ marks_time b }
{
    matches!(b, b'-' | b'.' | b'/' | b':')
}

// Whether a day or an hour goes on: such a byte, and a digit.
fn time_goes_on(s: &[u8]) -> bool
    ensures { result ≡ time_goes_on s.now }
{
    marks_time(wire::byte_at(s, 0)) && text_scan::is_digit(wire::byte_at(s, 1))
}

// What stands behind an item of a sort.
fn gap_like(s: &[u8], item: Item) -> Option<Likeness>
    ensures { like_number result ≡ gap_like s.now (item_number item) }
{
    if item == Item::Time && time_goes_on(s) {
        return Some(Likeness::OtherTime);
    }
    None
}

// Whether an item was expected where it does not stand: a number, a time or two hexadecimal digits.
fn asks_item(expected: Expected) -> bool
    ensures { result ≡ (eqb (expected_number expected) 2 || (eqb (expected_number expected) 6 || eqb (expected_number expected) 9)) }
{
    matches!(
        expected,
        Expected::Number | Expected::Time | Expected::TwoDigits
    )
}

// What stands at a place of a line that was refused there, by what was expected, if that has a name; the year is that of the sheet before it.
pub fn likeness_of(
    line: &[u8],
    at: usize,
    expected: Option<Expected>,
    year: u16,
) -> Option<Likeness>
    ensures { like_number result ≡ likeness_of line.now at (asked_number expected) year }
{
    let expected = expected?;
    let s = wire::part(line, at, line.len());
    match expected {
        Expected::Word => word_like(s),
        Expected::Gap => gap_like(s, text_parse::item_refused(line, year)),
        _ if asks_item(expected) => item_like(s, expected),
        _ => None,
    }
}
