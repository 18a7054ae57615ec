// The figures of section 5 of the annex for each element: how often it is out, and how long on average, as exact fractions in lowest terms.
#![tactic(auto)]

ghost use Rattle.std.specs.Prelude.{◌≡◌, ◌≤◌};
ghost use Rattle.element_rates.specs.Rates.{weight_of, rate_of, mean_of, shown_rate, shown_mean};

use decimal::Decimal;
use element_table::Table;
use ratio::Fraction;
use refusals::Refusal;

// A line's outages are counted for 100 km, and its length is in tenths of a kilometre.
fn weight(stock: u8) -> u64
    ensures { (result ≡ weight_of stock) × (result ≤ 1000) }
{
    if stock == 2 { 1000 } else { 1 }
}

// How often an element is out in a year, a line for each 100 km: 1 for an unsound table, 7 for an unknown code, 17 where no stock is told or it is 0.
pub fn rate_of(table: Table, code: u16) -> Result<Fraction, Refusal>
    ensures { result ≡ rate_of table code }
{
    if !table.sound() {
        return Err(Refusal::Unsound);
    }
    if !element_codes::is_element(code) {
        return Err(Refusal::Code);
    }
    let row = table.rows[element_codes::row_of(code)];
    if (row.stock == 0) | (row.amount == 0) {
        return Err(Refusal::Nobody);
    }
    Ok(ratio::lowest(
        weight(row.stock) * row.outages as u64,
        row.amount as u64 * table.period as u64,
    ))
}

// How many hours an outage of an element takes on average: 1 and 7 as above, 17 without an outage.
pub fn mean_of(table: Table, code: u16) -> Result<Fraction, Refusal>
    ensures { result ≡ mean_of table code }
{
    if !table.sound() {
        return Err(Refusal::Unsound);
    }
    if !element_codes::is_element(code) {
        return Err(Refusal::Code);
    }
    let row = table.rows[element_codes::row_of(code)];
    if row.outages == 0 {
        return Err(Refusal::Nobody);
    }
    Ok(ratio::lowest(row.minutes, 60 * row.outages as u64))
}

// The rate, and the mean, with so many digits after the point: its own refusal first, then 18 for more than 6 digits.
pub fn shown_rate(table: Table, code: u16, digits: u8) -> Result<Decimal, Refusal>
    ensures { result ≡ shown_rate table code digits }
{
    decimal::decimal_of(rate_of(table, code)?, digits)
}

pub fn shown_mean(table: Table, code: u16, digits: u8) -> Result<Decimal, Refusal>
    ensures { result ≡ shown_mean table code digits }
{
    decimal::decimal_of(mean_of(table, code)?, digits)
}
