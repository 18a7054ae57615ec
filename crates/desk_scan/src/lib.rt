// The roll of a desk: what one pass over its slots gathers, and the searches in it.
#![tactic(auto)]

ghost use Rattle.std.specs.Prelude.{◌≡◌, drop};
ghost use Rattle.base.specs.Lists.{listed};
ghost use Rattle.desk_scan.specs.Desk.{differ, number_in};
ghost use Rattle.desk_scan.specs.Inside.{no_roll, roll_by, rolled_slot, roll_sound, found};

use slot::Slot;

// How many slots a desk has.
pub const SLOTS: usize = 32;

// Whether each slot is sound, and the numbers that the slots hold, 0 for a free one.
#[derive(Clone, Copy)]
pub struct Roll {
    pub sound: bool,
    pub numbers: [u16; SLOTS],
}

// Whether a number stands in a table of 32, from an index on. It looks at every entry, so that the loop's length is known.
fn listed_from(table: &[u16; SLOTS], start: u16, number: u16) -> bool
    ensures { result ≡ listed number (drop start table.now) }
{
    let mut hit = false;
    for i in 0..SLOTS as u16 {
        hit = hit | ((start <= i) & (number == table[i as usize]));
    }
    hit
}

// Whether the open numbers of a table differ.
fn numbers_differ(table: &[u16; SLOTS]) -> bool
    ensures { result ≡ differ table.now }
{
    let mut ok = true;
    for i in 0..SLOTS as u16 {
        let number = table[i as usize];
        ok = ok & ((number == 0) | !listed_from(table, i + 1, number));
    }
    ok
}

// Enters the slot at an index among numbers of any length: its number is written where they reach, and the answer is whether all slots so far are sound.
#[tactic(auto, unfolding(crate::specs::Inside::rolled_slot))]
pub fn enter(numbers: &mut [u16], sound: bool, at: usize, slot: Slot) -> bool
    ensures { (result ≡ (rolled_slot (roll_by sound numbers.old) at slot).sound) × (numbers.new ≡ (rolled_slot (roll_by sound numbers.old) at slot).numbers) }
{
    if at < numbers.len() {
        numbers[at] = slot.head.number;
    }
    sound & slot.sound()
}

impl Roll {
    // Before the first slot: sound so far, which a default is not.
    pub fn none() -> Roll
        ensures { result ≡ no_roll }
    {
        Roll {
            sound: true,
            numbers: [0; SLOTS],
        }
    }

    // Enters the slot at an index: its number, as far as the numbers reach, and whether all slots so far are sound.
    #[tactic(auto, unfolding(crate::specs::Inside::rolled_slot))]
    pub fn enter(&mut self, at: usize, slot: &Slot)
        ensures { self.new ≡ rolled_slot self.old at slot.now }
    {
        if at < SLOTS {
            self.numbers[at] = slot.head.number;
        }
        self.sound = self.sound & slot.sound();
    }

    // Whether the roll is that of a sound desk of so many slots.
    pub fn holds(&self, slots: usize) -> bool
        ensures { result ≡ roll_sound slots self.now }
    {
        (slots == SLOTS) & self.sound & numbers_differ(&self.numbers)
    }

    // The search for a number: the lowest slot that holds it. The first free slot is where 0 is found.
    pub fn place_of(&self, number: u16) -> Option<usize>
        ensures { result ≡ found number self.now.numbers }
    {
        self.numbers.iter().position(|held| number == *held)
    }

    // The search for the outage that a message names.
    pub fn named(&self, bytes: &[u8]) -> Option<usize>
        ensures { result ≡ found (number_in bytes.now) self.now.numbers }
    {
        self.place_of(wire::u16_at(bytes, 4))
    }
}
