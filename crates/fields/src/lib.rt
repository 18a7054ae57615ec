// The fields of a book's records, read off their bytes, and what 01 asks of a sheet's numbers and of a head's codes.
#![tactic(auto)]

ghost use Rattle.std.specs.Prelude.{◌≡◌, ◌+◌, ◌*◌, ◌≤◌, length};
ghost use Rattle.fields.specs.Fields.{no_sheet, sheet_in, head_in, simple_in, step_at};
ghost use Rattle.fields.specs.Tests.{in_range, head_listed};

use annex::{Simple, Step};
use codes::LEVELS;

// The year sheet, or none: then all is zero. It is no Option, since a sheet that C callers lend may have numbers and not be there, which is answered 1.
#[derive(Clone, Copy)]
pub struct Sheet {
    pub there: bool,
    pub year: u16,
    pub totals: [u32; LEVELS],
}

// What a simple event, a stepped event and an opened outage begin with.
#[repr(C)]
#[derive(Clone, Copy)]
pub struct Head {
    pub number: u16,
    // Type, voltage and cause as a record has them, listed or not.
    pub typ: u8,
    pub voltage: u8,
    pub cause: u8,
    pub t0: u32,
}

// The sheet of a record of kind 1.
pub fn sheet_of(s: &[u8]) -> Sheet
    ensures { result ≡ sheet_in s.now }
{
    Sheet {
        there: true,
        year: wire::u16_at(s, 4),
        totals: wire::counts_at(s, 6),
    }
}

// The head of a record of kind 2, 3 or 16.
pub fn head_of(s: &[u8]) -> Head
    ensures { result ≡ head_in s.now }
{
    Head {
        number: wire::u16_at(s, 4),
        typ: wire::byte_at(s, 6),
        voltage: wire::byte_at(s, 7),
        cause: wire::byte_at(s, 8),
        t0: wire::u32_at(s, 9),
    }
}

// The times and counts of a record of kind 2, which has its 53 bytes.
pub fn simple_of(s: &[u8]) -> Simple
    requires { 53 ≤ length s.now }
    ensures { result ≡ simple_in s.now }
{
    Simple {
        t0: wire::u32_in(s, 9),
        t1: wire::u32_in(s, 13),
        t2: wire::u32_in(s, 17),
        t3: wire::u32_in(s, 21),
        t4: wire::u32_in(s, 25),
        n1: wire::counts_in(s, 29),
        n2: wire::counts_in(s, 41),
    }
}

// The step at an offset: a time and three counts, 16 bytes.
pub fn step_at(s: &[u8], at: usize) -> Step
    requires { at + 16 ≤ length s.now }
    ensures { result ≡ step_at s.now at }
{
    Step {
        time: wire::u32_in(s, at),
        counts: wire::counts_in(s, at + 4),
    }
}

impl Sheet {
    // No sheet, which `Sheet::default()` would not say.
    pub fn none() -> Sheet
        ensures { result ≡ no_sheet }
    {
        Sheet {
            there: false,
            year: 0,
            totals: [0; LEVELS],
        }
    }

    // Whether year and totals are in range.
    pub fn in_range(self) -> bool
        ensures { result ≡ in_range self }
    {
        (2000..=2099).contains(&self.year)
            & (self.totals[0] <= codes::MOST_CUSTOMERS)
            & (self.totals[1] <= codes::MOST_CUSTOMERS)
            & (self.totals[2] <= codes::MOST_CUSTOMERS)
    }
}

impl Head {
    // Whether the number is not 0, and type, voltage and cause are listed.
    pub fn listed(self) -> bool
        ensures { result ≡ head_listed self }
    {
        (self.number != 0)
            & (codes::row_of(self.typ) < codes::NO_ROW)
            & (codes::level_of(self.voltage) < codes::NO_LEVEL)
            & codes::is_cause(self.cause)
    }
}
