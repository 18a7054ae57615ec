// What the codes of a call of the library for C name (include/temelyak.h), and what an index comes to as numbers for its output.
#![tactic(auto)]

ghost use Rattle.std.specs.Prelude.{◌≡◌, min};
ghost use Rattle.index.specs.Index.{exactly};
ghost use Rattle.decimal.specs.Decimal.{decimally};
ghost use Rattle.c_codes.specs.Named.{index_named, level_named, set_named, all_named, numbers_in, fraction_words, decimal_words};

use codes::Set;
use decimal::Decimal;
use index::{Index, Level};
use ratio::Fraction;
use refusals::Refusal;

// The index that a code names.
pub fn index_named(code: u32) -> Index
    ensures { result ≡ index_named code }
{
    match code {
        1 => Index::Saifi,
        2 => Index::Saidi,
        _ => Index::Caidi,
    }
}

// The level that a code names.
pub fn level_named(code: u32) -> Level
    ensures { result ≡ level_named code }
{
    match code {
        1 => Level::NN,
        2 => Level::VN,
        3 => Level::VVN,
        _ => Level::Network,
    }
}

// The set that a code names.
pub fn set_named(code: u32) -> Set
    ensures { result ≡ set_named code }
{
    match code {
        0 => Set::Unnamed,
        1 => Set::All,
        _ => Set::Std,
    }
}

// Whether each code names one.
pub fn all_named(index: u32, level: u32, set: u32) -> bool
    ensures { result ≡ all_named index level set }
{
    (1..=3).contains(&index) && (1..=4).contains(&level) && set <= 2
}

// An index's answer as two numbers: top and bottom, or the whole part and the digits.
pub fn fraction_pair(answer: Result<Fraction, Refusal>) -> Result<[u64; 2], Refusal>
    ensures { numbers_in result ≡ exactly answer }
{
    let f = answer?;
    Ok([f.top, f.bottom])
}

pub fn decimal_pair(shown: Result<Decimal, Refusal>) -> Result<[u64; 2], Refusal>
    ensures { numbers_in result ≡ decimally shown }
{
    let d = shown?;
    Ok([d.whole, d.digits])
}

// The same where what was refused is told by any number, which is handed on.
pub fn fraction_numbers(answer: Result<Fraction, u8>) -> Result<[u64; 2], u8>
    ensures { result ≡ fraction_words answer }
{
    let exact = answer?;
    Ok([exact.top, exact.bottom])
}

pub fn decimal_numbers(shown: Result<Decimal, u8>) -> Result<[u64; 2], u8>
    ensures { result ≡ decimal_words shown }
{
    let rounded = shown?;
    Ok([rounded.whole, rounded.digits])
}

// The number of digits, or 7 where there are more: no more are taken.
pub fn digits_or_7(digits: u32) -> u8
    ensures { result ≡ min digits 7 }
{
    digits.min(7) as u8
}
