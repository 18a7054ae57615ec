// What a desk message does: from what was seen of the desk, the ledger, the map and the message's bytes to a plan or a refusal. All rules of the
// desk stand here, on values; carrying a plan out is the desk's own part.
#![tactic(auto)]

ghost use Rattle.std.specs.Prelude.{◌≡◌, ℕ, List, true, IfOk};
ghost use Rattle.base.specs.First.{first};
ghost use Rattle.base.specs.Lists.{place};
ghost use Rattle.refusals.specs.Refusals.{answer_in};
ghost use Rattle.ledger.specs.Sound.{sound_ledger};
ghost use Rattle.slot.specs.Sound.{slot_sound};
ghost use Rattle.desk_scan.specs.Inside.{place_named};
ghost use Rattle.desk_rules.specs.Inside.{plan_seen_at, plan_seen, planned_in, open_tests, named_tests, step_tests};

use annex::Step;
use desk_scan::Roll;
use fields::{Head, Sheet};
use ledger::Ledger;
use refusals::Refusal;
use slot::Slot;

// What an accepted message does: the ledger afterwards; the slot to put, and where; the number to mark, or 0.
#[derive(Clone, Copy)]
pub struct Plan {
    pub ledger: Ledger,
    pub at: usize,
    pub slot: Slot,
    pub number: u16,
}

// What a message sees of a desk: how many slots there are, their roll, and the slot that holds its number (zeros only where none does).
#[derive(Clone, Copy)]
pub struct Seen {
    pub slots: usize,
    pub roll: Roll,
    pub slot: Slot,
}

impl Seen {
    // Whether the rules let an open in: the slot that it takes, or the smallest number that applies. Each test is made only where none before it
    // applies.
    fn admit_open(&self, head: Head, sheet: Sheet, map: &[u8]) -> Result<usize, Refusal>
        ensures answer { answer_in result ≡ first (open_tests head sheet map.now self.now.roll.numbers) }
        ensures found { IfOk result (λ at. at ≡ place 0 self.now.roll.numbers) }
    {
        if !sheet.there {
            return Err(Refusal::Sheet);
        }
        if !head.listed() {
            return Err(Refusal::Code);
        }
        if annex::minutes_in(sheet.year) <= head.t0 {
            return Err(Refusal::Time);
        }
        if used_numbers::is_marked(map, head.number) | self.roll.place_of(head.number).is_some() {
            return Err(Refusal::Used);
        }
        self.roll.place_of(0).ok_or(Refusal::DeskFull)
    }

    // A message of kind 16.
    fn open(&self, ledger: Ledger, map: &[u8], bytes: &[u8]) -> Result<Plan, Refusal>
        ensures { planned_in ledger self.now.slots result ≡ plan_seen_at 16 self.now ledger map.now bytes.now }
    {
        if bytes.len() != 13 {
            return Err(Refusal::Length);
        }
        let head = fields::head_of(bytes);
        let gap = self.admit_open(head, ledger.sheet, map)?;
        Ok(Plan {
            ledger,
            at: gap,
            slot: Slot::opened(head),
            number: head.number,
        })
    }

    // Whether the rules that a step and a close share let one in: the slot that holds its number, or the smallest number that applies.
    fn admit_named(&self, sheet: Sheet, bytes: &[u8], miscounted: bool) -> Result<usize, Refusal>
        ensures answer { answer_in result ≡ first (named_tests sheet bytes.now (place_named self.now.roll bytes.now) miscounted) }
        ensures found { IfOk result (λ at. at ≡ place_named self.now.roll bytes.now) }
    {
        if !sheet.there {
            return Err(Refusal::Sheet);
        }
        if wire::u16_at(bytes, 4) == 0 {
            return Err(Refusal::Code);
        }
        let at = self.roll.named(bytes).ok_or(Refusal::NotOpen)?;
        if miscounted {
            return Err(Refusal::Ordinal);
        }
        Ok(at)
    }

    // Whether the other rules of a step let it in.
    fn admit_step(&self, step: Step, sheet: Sheet) -> Result<(), Refusal>
        ensures { answer_in result ≡ first (step_tests step sheet self.now.slot) }
    {
        if limits::is_late(step.time, self.slot.last) {
            return Err(Refusal::Time);
        }
        if limits::exceeds(step.counts, sheet.totals) {
            return Err(Refusal::Count);
        }
        if limits::is_above(step.counts, codes::level_of(self.slot.head.voltage)) {
            return Err(Refusal::Level);
        }
        Ok(())
    }

    // A message of kind 17.
    fn step(&self, ledger: Ledger, bytes: &[u8]) -> Result<Plan, Refusal>
        requires { slot_sound self.now.slot ≡ true }
        ensures { (m : List ℕ) → planned_in ledger self.now.slots result ≡ plan_seen_at 17 self.now ledger m bytes.now }
    {
        if bytes.len() != 23 {
            return Err(Refusal::Length);
        }
        let ordinal = wire::byte_at(bytes, 6);
        let step = fields::step_at(bytes, 7);
        let at = self.admit_named(
            ledger.sheet,
            bytes,
            (ordinal as u16 != self.slot.steps as u16 + 1) | (64 < ordinal),
        )?;
        self.admit_step(step, ledger.sheet)?;
        Ok(Plan {
            ledger,
            at,
            slot: self.slot.stepped(step),
            number: 0,
        })
    }

    // A message of kind 18.
    fn close(&self, ledger: Ledger, bytes: &[u8]) -> Result<Plan, Refusal>
        requires slot { slot_sound self.now.slot ≡ true }
        requires ledger { sound_ledger ledger ≡ true }
        ensures { (m : List ℕ) → planned_in ledger self.now.slots result ≡ plan_seen_at 18 self.now ledger m bytes.now }
    {
        if bytes.len() != 7 {
            return Err(Refusal::Length);
        }
        let count = wire::byte_at(bytes, 6);
        let at = self.admit_named(
            ledger.sheet,
            bytes,
            (count == 0) | (count != self.slot.steps),
        )?;
        let full = codes::MOST_EVENTS <= ledger.events;
        if full {
            return Err(Refusal::Full);
        }
        let event = verdict::accept(
            ledger.sheet,
            self.slot.head,
            self.slot.last,
            self.slot.figures,
        );
        Ok(Plan {
            ledger: ledger.add(event),
            at,
            slot: Slot::free(),
            number: 0,
        })
    }

    // The plan of a message, under a ledger and a map.
    pub fn decide(&self, ledger: Ledger, map: &[u8], bytes: &[u8]) -> Result<Plan, Refusal>
        ensures { planned_in ledger self.now.slots result ≡ plan_seen self.now ledger map.now bytes.now }
    {
        let desk_sound = self.roll.holds(self.slots) & self.slot.sound();
        if (map.len() != ledger::MAP) | !ledger.sound() | !desk_sound {
            return Err(Refusal::Unsound);
        }
        if !wire::is_framed(bytes) {
            return Err(Refusal::Frame);
        }
        match wire::kind_of(bytes) {
            16 => self.open(ledger, map, bytes),
            17 => self.step(ledger, bytes),
            18 => self.close(ledger, bytes),
            _ => Err(Refusal::Kind),
        }
    }
}
