// What 01 asks of an event's times and counts: its limits, each as one test.
#![tactic(auto)]

ghost use Rattle.std.specs.Prelude.{◌≡◌};
ghost use Rattle.annex.specs.declared.Figures.{Figures};
ghost use Rattle.limits.specs.Limits.{exceeding, above_level, exceeding_figures, figures_above, late_step, simple_late, none_then_some};

use annex::{Figures, Simple};
use codes::LEVELS;

// Whether a count exceeds its level's customers.
pub fn exceeds(counts: [u32; LEVELS], totals: [u32; LEVELS]) -> bool
    ensures { result ≡ exceeding totals counts }
{
    (totals[0] < counts[0]) | (totals[1] < counts[1]) | (totals[2] < counts[2])
}

// Whether a count above 0 stands on a level higher than the event's.
pub fn is_above(counts: [u32; LEVELS], level: u8) -> bool
    ensures { result ≡ above_level level counts }
{
    ((level < 1) & (0 < counts[1])) | ((level < 2) & (0 < counts[2]))
}

// The same two tests of the largest counts of all steps: some step's count exceeds, or stands above, just where the largest does. One function for both kinds of
// counts would take them as an array of one type, which is as long to make as each test is.
pub fn figures_exceed(figures: Figures, totals: [u32; LEVELS]) -> bool
    ensures { result ≡ exceeding_figures totals figures }
{
    ((totals[0] as u64) < figures.customers[0].0)
        | ((totals[1] as u64) < figures.customers[1].0)
        | ((totals[2] as u64) < figures.customers[2].0)
}

pub fn figures_above(figures: Figures, level: u8) -> bool
    ensures { result ≡ figures_above level figures }
{
    ((level < 1) & (0 < figures.customers[1].0)) | ((level < 2) & (0 < figures.customers[2].0))
}

// Whether a step's time is before the one before it, or over 600,000.
pub fn is_late(time: u32, before: u32) -> bool
    ensures { result ≡ late_step before time }
{
    (time < before) | (codes::LATEST < time)
}

// Whether a time of a simple event breaks a rule, apart from T0's place in the year.
pub fn is_simple_late(e: Simple, typ: u8) -> bool
    ensures { result ≡ simple_late typ e }
{
    (e.t1 < e.t0)
        | (e.t2 < e.t1)
        | (e.t3 < e.t2)
        | (codes::LATEST < e.t3)
        | (e.t4 < e.t0)
        | (codes::LATEST < e.t4)
        | ((typ == 2) & (e.t1 != e.t0))
}

// Whether n1 is 0 and n2 is not, on some level.
pub fn is_none_then_some(e: Simple) -> bool
    ensures { result ≡ none_then_some e }
{
    ((e.n1[0] == 0) & (0 < e.n2[0]))
        | ((e.n1[1] == 0) & (0 < e.n2[1]))
        | ((e.n1[2] == 0) & (0 < e.n2[2]))
}
