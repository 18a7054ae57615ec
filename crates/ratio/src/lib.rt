// Exact fractions in lowest terms.
#![tactic(auto)]

ghost use Rattle.std.specs.Prelude.{◌≡◌};
ghost use Rattle.ratio.specs.Lowest.{gcd_of, lowest_of};

#[derive(Clone, Copy)]
pub struct Fraction {
    pub top: u64,
    pub bottom: u64,
}

// The greatest common divisor, by Euclid's rule.
pub fn gcd(a: u64, b: u64) -> u64
    ensures { result ≡ gcd_of a b }
{
    let mut x = a;
    let mut y = b;
    while y != 0 {
        let rest = x % y;
        x = y;
        y = rest;
    }
    x
}

// The fraction n / d in lowest terms; zero is 0/1. Where d is 0 there is none, and so is the bottom.
pub fn lowest(n: u64, d: u64) -> Fraction
    ensures { result ≡ lowest_of n d }
{
    let g = gcd(n, d);
    if g == 0 {
        return Fraction { top: 0, bottom: 0 };
    }
    Fraction {
        top: n / g,
        bottom: d / g,
    }
}
