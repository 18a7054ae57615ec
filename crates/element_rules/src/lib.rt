// The first refusal that applies to a record of a yearly file, by its kind, once the table is sound and the record framed.
#![tactic(auto)]

ghost use Rattle.std.specs.Prelude.{◌≡◌};
ghost use Rattle.refusals.specs.Refusals.{answer_in};
ghost use Rattle.element_rules.specs.Answers.{sheet_answer, outage_answer, stock_answer};

use element_row::Row;
use refusals::Refusal;

// A year sheet; the mark says whether the file has one already.
pub fn sheet_answer(seen: bool, bytes: &[u8]) -> Result<(), Refusal>
    ensures { answer_in result ≡ sheet_answer seen bytes.now }
{
    if bytes.len() != 18 {
        return Err(Refusal::Length);
    }
    if seen {
        return Err(Refusal::Sheet);
    }
    if !fields::sheet_of(bytes).in_range() {
        return Err(Refusal::Range);
    }
    Ok(())
}

// An outage of the element that has the row.
pub fn outage_answer(seen: bool, row: Row, bytes: &[u8]) -> Result<(), Refusal>
    ensures { answer_in result ≡ outage_answer seen row bytes.now }
{
    if bytes.len() != 14 {
        return Err(Refusal::Length);
    }
    if !seen {
        return Err(Refusal::Sheet);
    }
    if !element_codes::is_element(wire::u16_at(bytes, 4)) {
        return Err(Refusal::Code);
    }
    let start = wire::u32_at(bytes, 6);
    let end = wire::u32_at(bytes, 10);
    if end < start || codes::LATEST < start || codes::LATEST < end {
        return Err(Refusal::Time);
    }
    if element_row::MOST_OUTAGES <= row.outages {
        return Err(Refusal::Full);
    }
    Ok(())
}

// A stock of the element that has the row.
pub fn stock_answer(seen: bool, row: Row, bytes: &[u8]) -> Result<(), Refusal>
    ensures { answer_in result ≡ stock_answer seen row bytes.now }
{
    if bytes.len() != 11 {
        return Err(Refusal::Length);
    }
    if !seen || 0 < row.stock {
        return Err(Refusal::Sheet);
    }
    if !element_codes::is_element(wire::u16_at(bytes, 4)) || 1 < wire::byte_at(bytes, 6) {
        return Err(Refusal::Code);
    }
    Ok(())
}
