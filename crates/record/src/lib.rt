// Judging one record: from its bytes, the sheet, the map and the number of events to what it adds to a ledger, or to the refusal.
#![tactic(auto)]

ghost use Rattle.std.specs.Prelude.{◌≡◌, []};
ghost use Rattle.base.specs.First.{first};
ghost use Rattle.refusals.specs.Refusals.{answer_in};
ghost use Rattle.verdict.specs.Judged.{judged};
ghost use Rattle.record.specs.Inside.{simple_tests, stepped_tests, verdict_at};
ghost use Rattle.record.specs.Verdict.{verdict_of};

use annex::{Figures, Simple};
use fields::{Head, Sheet};
use refusals::Refusal;
use verdict::Accepted;
use walk::Walk;

// What a record is judged under: the ledger's sheet and number of events, and the map of used numbers.
#[derive(Clone, Copy)]
struct Held<'a> {
    sheet: Sheet,
    map: &'a [u8],
    events: u16,
}

// A record of kind 1.
fn judge_sheet(bytes: &[u8], sheet: Sheet) -> Result<Accepted, Refusal>
    ensures { judged sheet result ≡ verdict_at 1 bytes.now sheet [] 0 }
{
    if bytes.len() != 18 {
        return Err(Refusal::Length);
    }
    if sheet.there {
        return Err(Refusal::Sheet);
    }
    let next = fields::sheet_of(bytes);
    if !next.in_range() {
        return Err(Refusal::Range);
    }
    Ok(Accepted {
        sheet: next,
        number: 0,
        events: 0,
        short: 0,
        row: 0,
        figures: Figures::none(),
    })
}

// Whether the rules let a simple event in: the smallest number that applies refuses it. Each test is made only where none before it applies.
fn admit_simple(head: Head, event: Simple, held: Held) -> Result<(), Refusal>
    ensures { answer_in result ≡ first (simple_tests head event held.entry.sheet held.entry.map.now held.entry.events) }
{
    let level = codes::level_of(head.voltage);
    if !held.sheet.there {
        return Err(Refusal::Sheet);
    }
    if !head.listed() {
        return Err(Refusal::Code);
    }
    if (annex::minutes_in(held.sheet.year) <= head.t0) | limits::is_simple_late(event, head.typ) {
        return Err(Refusal::Time);
    }
    if limits::exceeds(event.n1, held.sheet.totals) | limits::exceeds(event.n2, held.sheet.totals) {
        return Err(Refusal::Count);
    }
    if limits::is_above(event.n1, level) | limits::is_above(event.n2, level) {
        return Err(Refusal::Level);
    }
    if limits::is_none_then_some(event) {
        return Err(Refusal::NoneThenSome);
    }
    if used_numbers::is_marked(held.map, head.number) {
        return Err(Refusal::Used);
    }
    if codes::MOST_EVENTS <= held.events {
        return Err(Refusal::Full);
    }
    Ok(())
}

// A record of kind 2.
fn judge_simple(bytes: &[u8], held: Held) -> Result<Accepted, Refusal>
    ensures { judged held.entry.sheet result ≡ verdict_at 2 bytes.now held.entry.sheet held.entry.map.now held.entry.events }
{
    if bytes.len() != 53 {
        return Err(Refusal::Length);
    }
    let head = fields::head_of(bytes);
    let event = fields::simple_of(bytes);
    admit_simple(head, event, held)?;
    Ok(verdict::accept(held.sheet, head, event.t3, event.figures()))
}

// Whether the rules let a stepped event in, by the walk over its steps.
fn admit_stepped(head: Head, walk: Walk, held: Held) -> Result<(), Refusal>
    ensures { answer_in result ≡ first (stepped_tests head walk held.entry.sheet held.entry.map.now held.entry.events) }
{
    let figures = walk.course.figures;
    if !held.sheet.there {
        return Err(Refusal::Sheet);
    }
    if !head.listed() {
        return Err(Refusal::Code);
    }
    if (annex::minutes_in(held.sheet.year) <= head.t0) | walk.late {
        return Err(Refusal::Time);
    }
    if limits::figures_exceed(figures, held.sheet.totals) {
        return Err(Refusal::Count);
    }
    if limits::figures_above(figures, codes::level_of(head.voltage)) {
        return Err(Refusal::Level);
    }
    if used_numbers::is_marked(held.map, head.number) {
        return Err(Refusal::Used);
    }
    if codes::MOST_EVENTS <= held.events {
        return Err(Refusal::Full);
    }
    Ok(())
}

// A record of kind 3.
fn judge_stepped(bytes: &[u8], held: Held) -> Result<Accepted, Refusal>
    ensures { judged held.entry.sheet result ≡ verdict_at 3 bytes.now held.entry.sheet held.entry.map.now held.entry.events }
{
    let steps = wire::byte_at(bytes, 13);
    let size = 14 + 16 * steps as usize;
    if (bytes.len() < 14) | (steps == 0) | (64 < steps) | (bytes.len() != size) {
        return Err(Refusal::Length);
    }
    let head = fields::head_of(bytes);
    let walk = walk::walk_of(bytes, steps, head.t0);
    admit_stepped(head, walk, held)?;
    Ok(verdict::accept(held.sheet, head, walk.course.last, walk.course.figures))
}

// The verdict on a record at the book entry, for a sheet, a map and a number of events in the ledger.
pub fn judge(bytes: &[u8], sheet: Sheet, map: &[u8], events: u16) -> Result<Accepted, Refusal>
    ensures { judged sheet result ≡ verdict_of bytes.now sheet map.now events }
{
    if !wire::is_framed(bytes) {
        return Err(Refusal::Frame);
    }
    let held = Held { sheet, map, events };
    match wire::kind_of(bytes) {
        1 => judge_sheet(bytes, sheet),
        2 => judge_simple(bytes, held),
        3 => judge_stepped(bytes, held),
        _ => Err(Refusal::Kind),
    }
}
