// The desk: a lent table of 32 slots, and the one entry for open, step and close. The rules stand in `desk_rules`; here a slot is taken out by value
// and written back, and no function knows a rule but how many slots a desk has.
#![tactic(auto)]

ghost use Rattle.std.specs.Prelude.{◌≡◌, length, set};
ghost use Rattle.desk_scan.specs.Inside.{roll_of};
ghost use Rattle.desk_rules.specs.Rules.{look_at};
ghost use Rattle.desk_rules.specs.Plan.{plan_of};
ghost use Rattle.desk_rules.specs.Serve.{served_of, served_in, map_served, desk_served};
ghost use Rattle.desk_rules.specs.Inside.{planned_in, seen_of};

use desk_rules::{Plan, Seen};
use desk_scan::Roll;
use ledger::Ledger;
use refusals::Refusal;
use slot::Slot;

// The roll of a desk: all slots are entered, from the first.
fn roll_of(desk: &[Slot]) -> Roll
    ensures { result ≡ roll_of desk.now }
{
    let mut roll = Roll::none();
    for (i, slot) in desk.iter().enumerate() {
        roll.enter(i, slot);
    }
    roll
}

// What a message sees of a desk.
fn seen(desk: &[Slot], bytes: &[u8]) -> Seen
    ensures { result ≡ seen_of desk.now bytes.now }
{
    let roll = roll_of(desk);
    let slot = match roll.named(bytes) {
        Some(at) if at < desk.len() => desk[at],
        _ => Slot::free(),
    };
    Seen {
        slots: desk.len(),
        roll,
        slot,
    }
}

// What a message is to do to a desk, which is only read.
fn planned(desk: &[Slot], ledger: Ledger, map: &[u8], bytes: &[u8]) -> Result<Plan, Refusal>
    ensures { planned_in ledger (length desk.now) result ≡ plan_of (look_at desk.now bytes.now) (length desk.now) ledger map.now bytes.now }
{
    seen(desk, bytes).decide(ledger, map, bytes)
}

// A slot is put at an index; past the end nothing is done.
fn slot_put(desk: &mut [Slot], i: usize, slot: Slot)
    ensures { desk.new ≡ set desk.old i slot }
{
    if i < desk.len() {
        desk[i] = slot;
    }
}

// One message: the next ledger, or a refusal, which leaves ledger, map and desk as they were. An accepted open marks its number and takes the free
// slot of lowest index; an accepted step changes the slot that holds its number; an accepted close adds its event to the ledger and frees its slot. A
// desk that is not 32 slots is refused before a slot is looked at: what it is told to be may be more than there is.
#[tactic(auto, using(desk_rules::proofs::ServeLaws::other_served, desk_rules::proofs::ServeLaws::other_map, desk_rules::proofs::ServeLaws::other_desk))]
pub fn serve(
    ledger: Ledger,
    map: &mut [u8],
    desk: &mut [Slot],
    bytes: &[u8],
) -> Result<Ledger, Refusal>
    ensures { (served_in ledger result ≡ served_of ledger map.old desk.old bytes.now) × (map.new ≡ map_served ledger map.old desk.old bytes.now) × (desk.new ≡ desk_served ledger map.old desk.old bytes.now) }
{
    if desk.len() != desk_scan::SLOTS {
        return Err(Refusal::Unsound);
    }
    let plan = planned(desk, ledger, map, bytes)?;
    slot_put(desk, plan.at, plan.slot);
    used_numbers::mark(map, plan.number);
    Ok(plan.ledger)
}
