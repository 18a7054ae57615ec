// What one event adds by the annex's formulas: customers and half customer-minutes for each level, the short events, and the year's length.
#![tactic(auto)]

ghost use Rattle.std.specs.Prelude.{◌≡◌, ◌+◌, ◌*◌, ◌≤◌, max};
ghost use Rattle.codes.specs.Ranges.{latest};
ghost use Rattle.annex.specs.Figures.{nothing, larger_of, longer_of, with_step};
ghost use Rattle.annex.specs.Inside.{Room, Ready};
ghost use Rattle.annex.specs.Simple.{halves_of, simple_figures, InOrder};
ghost use Rattle.annex.specs.Stepped.{begun, coursed};
ghost use Rattle.annex.specs.Times.{minutes_in, is_short};

use codes::LEVELS;

// The most that one event gives a level: customers, and half customer-minutes.
pub const MOST_OFF: u64 = 10000000;

pub const MOST_HALVES: u64 = 12000000000000;

// Customers interrupted.
#[repr(C)]
#[derive(Clone, Copy)]
pub struct Customers(pub u64);

// Half customer-minutes: twice the minutes, so that the annex's half is kept.
#[repr(C)]
#[derive(Clone, Copy)]
pub struct HalfMinutes(pub u64);

// What the step fold carries and what an event adds, for NN, VN and VVN: the largest counts and the half customer-minutes.
#[repr(C)]
#[derive(Clone, Copy)]
pub struct Figures {
    pub customers: [Customers; LEVELS],
    pub halves: [HalfMinutes; LEVELS],
}

// One step of a stepped event: its counts hold up to its time.
#[derive(Clone, Copy)]
pub struct Step {
    pub time: u32,
    pub counts: [u32; LEVELS],
}

// A stepped event so far: the last step's time (T0 before the first), and the figures that its steps fold to.
#[derive(Clone, Copy)]
pub struct Course {
    pub last: u32,
    pub figures: Figures,
}

// A simple event: its times, and the customers of each level interrupted at T0 and at T2.
#[derive(Clone, Copy)]
pub struct Simple {
    pub t0: u32,
    pub t1: u32,
    pub t2: u32,
    pub t3: u32,
    pub t4: u32,
    pub n1: [u32; LEVELS],
    pub n2: [u32; LEVELS],
}

// The minutes of a year from 2000 to 2099.
pub fn minutes_in(year: u16) -> u32
    ensures { result ≡ minutes_in year }
{
    if year % 4 == 0 { 527040 } else { 525600 }
}

// Whether an event from one minute to another is short: 3 minutes or less.
pub fn is_short(start: u32, end: u32) -> bool
    ensures { result ≡ is_short start end }
{
    end.saturating_sub(start) <= 3
}

// The larger of two numbers of customers.
fn larger(c: Customers, n: u32) -> Customers
    ensures { result ≡ larger_of c n }
{
    let m = n as u64;
    if c.0 < m { Customers(m) } else { c }
}

// So many customers off for so many minutes, in halves. The bound on minutes is asked here, of `longer` and of `with_step`: a type for them would be made and taken
// apart again at each of the four calls.
fn weigh(n: u64, minutes: u32) -> u64
    requires { (n ≤ 8589934590) × (minutes ≤ latest) }
    ensures { (result ≡ n * minutes) × (result ≤ 8589934590 * minutes) }
{
    n * minutes as u64
}

// The half customer-minutes with those of one step more.
fn longer(h: HalfMinutes, n: u32, minutes: u32) -> HalfMinutes
    requires { (h.0 ≤ 1000000000000000000) × (minutes ≤ latest) }
    ensures { result ≡ longer_of h n minutes }
{
    HalfMinutes(h.0 + weigh(2 * (n as u64), minutes))
}

impl Figures {
    // What an event that is short adds. Named for that: `Figures::default()` would not say it.
    pub fn none() -> Figures
        ensures { result ≡ nothing }
    {
        Figures {
            customers: [Customers(0); LEVELS],
            halves: [HalfMinutes(0); LEVELS],
        }
    }

    // The figures with a step whose counts held for so many minutes. Level by level: `from_fn` would need a closure with clauses of its own for each array.
    fn with_step(self, counts: [u32; LEVELS], minutes: u32) -> Figures
        requires { Room self × (minutes ≤ latest) }
        ensures { result ≡ with_step self counts minutes }
    {
        Figures {
            customers: [
                larger(self.customers[0], counts[0]),
                larger(self.customers[1], counts[1]),
                larger(self.customers[2], counts[2]),
            ],
            halves: [
                longer(self.halves[0], counts[0], minutes),
                longer(self.halves[1], counts[1], minutes),
                longer(self.halves[2], counts[2], minutes),
            ],
        }
    }
}

impl Course {
    // Before the first step.
    pub fn begin(t0: u32) -> Course
        ensures { result ≡ begun t0 }
    {
        Course {
            last: t0,
            figures: Figures::none(),
        }
    }

    // The step fold: one step more, whose counts held since the last time.
    pub fn with(self, step: Step) -> Course
        requires { Ready self step }
        ensures { result ≡ coursed self step }
    {
        Course {
            last: step.time,
            figures: self.figures.with_step(step.counts, step.time - self.last),
        }
    }
}

impl Simple {
    // The half customer-minutes of one level: 2 n1 (T1-T0) + (n1+n2)(T2-T1) + 2 n2 (T3-T2).
    fn halves(self, n1: u32, n2: u32) -> HalfMinutes
        requires { InOrder self }
        ensures { result ≡ halves_of self n1 n2 }
    {
        let a = n1 as u64;
        let b = n2 as u64;
        HalfMinutes(
            weigh(2 * a, self.t1 - self.t0)
                + weigh(a + b, self.t2 - self.t1)
                + weigh(2 * b, self.t3 - self.t2),
        )
    }

    // What a simple event adds. Level by level: `map` and `from_fn` would need a closure with clauses of its own for each array.
    pub fn figures(self) -> Figures
        requires { InOrder self }
        ensures { result ≡ simple_figures self }
    {
        Figures {
            customers: [
                Customers(self.n1[0] as u64),
                Customers(self.n1[1] as u64),
                Customers(self.n1[2] as u64),
            ],
            halves: [
                self.halves(self.n1[0], self.n2[0]),
                self.halves(self.n1[1], self.n2[1]),
                self.halves(self.n1[2], self.n2[2]),
            ],
        }
    }
}
