// SAIFI, SAIDI and CAIDI of a level or the network and a set of event types, as exact fractions in lowest terms and as decimals.
#![tactic(auto)]

ghost use Rattle.std.specs.Prelude.{◌≡◌, ◌≤◌, ◌<◌};
ghost use Rattle.decimal.specs.Decimal.{decimally};
ghost use Rattle.codes.specs.Codes.{levels};
ghost use Rattle.index.specs.Sums.{plus_cell, held_or, level_sum, total_of, customers_of};
ghost use Rattle.index.specs.Inside.{Fit, Low};
ghost use Rattle.index.specs.Index.{top_of, divisor_of, weight_of, exactly, index_numbers, decimal_numbers};

use annex::{Customers, HalfMinutes};
use codes::{LEVELS, NO_ROW, ROWS, Set};
use decimal::Decimal;
use ledger::{Cell, Ledger, TypeRow};
use ratio::Fraction;
use refusals::Refusal;

// A voltage level, or the whole network.
#[derive(Clone, Copy)]
pub enum Level {
    NN,
    VN,
    VVN,
    Network,
}

#[derive(Clone, Copy)]
pub enum Index {
    Saifi,
    Saidi,
    Caidi,
}

// Two sums, customers to customers and half minutes to half minutes.
fn plus(a: Cell, b: Cell) -> Cell
    requires { Fit a b }
    ensures { result ≡ plus_cell a b }
{
    Cell {
        customers: Customers(a.customers.0 + b.customers.0),
        halves: HalfMinutes(a.halves.0 + b.halves.0),
    }
}

// A cell, or nothing where its row is not in the set.
fn held_or(held: bool, cell: Cell) -> Cell
    ensures { result ≡ held_or held cell }
{
    if held {
        return cell;
    }
    Cell {
        customers: Customers(0),
        halves: HalfMinutes(0),
    }
}

// The cells of a level, over the types of a set.
fn level_sum(rows: [TypeRow; ROWS], level: usize, set: Set) -> Cell
    requires { (level < levels) × Low rows }
    ensures { result ≡ level_sum rows level set }
{
    let mut sum = Cell {
        customers: Customers(0),
        halves: HalfMinutes(0),
    };
    for row in 0..NO_ROW {
        let held = codes::holds_row(set, row);
        sum = plus(sum, held_or(held, rows[row as usize].levels[level]));
    }
    sum
}

// The sums of a level or, level by level, of the network.
fn total_of(rows: [TypeRow; ROWS], level: Level, set: Set) -> Cell
    requires { Low rows }
    ensures { result ≡ total_of rows level set }
{
    match level {
        Level::NN => level_sum(rows, 0, set),
        Level::VN => level_sum(rows, 1, set),
        Level::VVN => level_sum(rows, 2, set),
        Level::Network => plus(
            plus(level_sum(rows, 0, set), level_sum(rows, 1, set)),
            level_sum(rows, 2, set),
        ),
    }
}

// The customers served on a level or in the network: N.
fn served(totals: [u32; LEVELS], level: Level) -> u64
    ensures { (result ≡ customers_of totals level) × (result ≤ 12884901885) }
{
    match level {
        Level::NN => u64::from(totals[0]),
        Level::VN => u64::from(totals[1]),
        Level::VVN => u64::from(totals[2]),
        Level::Network => u64::from(totals[0]) + u64::from(totals[1]) + u64::from(totals[2]),
    }
}

// The number above the line: customers, or half minutes.
fn top(index: Index, sum: Cell) -> u64
    ensures { result ≡ top_of index sum }
{
    match index {
        Index::Saifi => sum.customers.0,
        Index::Saidi => sum.halves.0,
        Index::Caidi => sum.halves.0,
    }
}

// The customers below the line: those served, or those interrupted.
fn divisor(index: Index, sum: Cell, n: u64) -> u64
    ensures { result ≡ divisor_of index sum n }
{
    match index {
        Index::Saifi => n,
        Index::Saidi => n,
        Index::Caidi => sum.customers.0,
    }
}

// Half minutes are divided by twice the customers.
fn weight(index: Index) -> u64
    ensures { (result ≡ weight_of index) × (result ≤ 2) }
{
    match index {
        Index::Saifi => 1,
        Index::Saidi => 2,
        Index::Caidi => 2,
    }
}

// An index as an exact fraction in lowest terms: 1 for an unsound ledger, 5 without a sheet, 17 where it divides by nobody.
pub fn index_of(ledger: Ledger, index: Index, level: Level, set: Set) -> Result<Fraction, Refusal>
    ensures { exactly result ≡ index_numbers ledger index level set }
{
    if !ledger.sound() {
        return Err(Refusal::Unsound);
    }
    if !ledger.sheet.there {
        return Err(Refusal::Sheet);
    }
    let sum = total_of(ledger.rows, level, set);
    let d = divisor(index, sum, served(ledger.sheet.totals, level));
    if d == 0 {
        return Err(Refusal::Nobody);
    }
    Ok(ratio::lowest(top(index, sum), weight(index) * d))
}

// The same with so many digits after the point: 18 for more than 6, after 1, 5 and 17.
pub fn decimal_of(
    ledger: Ledger,
    index: Index,
    level: Level,
    set: Set,
    digits: u8,
) -> Result<Decimal, Refusal>
    ensures { decimally result ≡ decimal_numbers ledger index level set digits }
{
    decimal::decimal_of(index_of(ledger, index, level, set)?, digits)
}
