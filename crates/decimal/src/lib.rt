// Decimals of exact fractions, to nearest, a tie upward, by long division: no figure that a sound ledger holds is too large for it.
#![tactic(auto)]

ghost use Rattle.std.specs.Prelude.{◌≡◌, ◌+◌, ◌*◌, ◌<◌, ◌≤◌, ◌^◌};
ghost use Rattle.decimal.specs.Decimal.{decimally, shown_numbers, split_at, Tenfold, Divided};

use ratio::Fraction;
use refusals::Refusal;

// The whole part, and the digits after the point as one number.
#[derive(Clone, Copy)]
pub struct Decimal {
    pub whole: u64,
    pub digits: u64,
}

// One digit of a long division: ten times the rest before, split into digit and rest.
#[derive(Clone, Copy)]
struct Digit {
    digit: u64,
    rest: u64,
}

// The digits of a long division so far: ten to their number, the digits as one number, and the rest.
#[derive(Clone, Copy)]
struct Division {
    power: u64,
    digits: u64,
    rest: u64,
}

// Ten times a rest below d, split by d: added up ten times, so that no product can be too large.
fn tenfold(rest: u64, d: u64) -> Digit
    requires { rest < d }
    ensures { Tenfold rest d result }
{
    let mut digit: u64 = 0;
    let mut sum: u64 = 0;
    for _k in 0..10u8 {
        if d - rest <= sum {
            sum -= d - rest;
            digit += 1;
        } else {
            sum += rest;
        }
    }
    Digit { digit, rest: sum }
}

// So many digits of m / d, for m below d.
fn divide(m: u64, d: u64, digits: u8) -> Division
    requires { (m < d) × (digits ≤ 6) }
    ensures { Divided m d digits result }
{
    let mut x = Division {
        power: 1,
        digits: 0,
        rest: m,
    };
    for _k in 0..digits {
        let t = tenfold(x.rest, d);
        x = Division {
            power: x.power * 10,
            digits: x.digits * 10 + t.digit,
            rest: t.rest,
        };
    }
    x
}

// A whole part with digits that may have come to a whole one: then it is carried.
fn carried(whole: u64, power: u64, digits: u64) -> Decimal
    requires { (digits ≤ power) × (0 < power) × (whole < 18446744073709551615) }
    ensures { result ≡ split_at (whole * power + digits) power }
{
    if digits == power {
        return Decimal {
            whole: whole + 1,
            digits: 0,
        };
    }
    Decimal { whole, digits }
}

// A fraction with so many digits after the point: 17 where its bottom is 0, then 18 for more than 6 digits.
pub fn decimal_of(f: Fraction, digits: u8) -> Result<Decimal, Refusal>
    ensures { decimally result ≡ shown_numbers f digits }
{
    let d = f.bottom;
    if d == 0 {
        return Err(Refusal::Nobody);
    }
    if 6 < digits {
        return Err(Refusal::Digits);
    }
    let whole = f.top / d;
    let x = divide(f.top % d, d, digits);
    if d - x.rest <= x.rest {
        return Ok(carried(whole, x.power, x.digits + 1));
    }
    Ok(Decimal {
        whole,
        digits: x.digits,
    })
}
