// Taking a whole book: a refused record is counted and passed over, and a broken length counts as one refusal and ends the reading.
#![tactic(auto)]

ghost use Rattle.std.specs.Prelude.{◌≡◌, true, length};
ghost use Rattle.used_numbers.specs.Marks.{map_size};
ghost use Rattle.ledger.specs.Sound.{sound_ledger};
ghost use Rattle.book.specs.Book.{passed_in, pass_of, after_book, read_in, read_of, map_read};

use ledger::Ledger;
use refusals::Refusal;
use wire::Place;

// What taking the records of a book comes to: the ledger after them, the refused ones, where the reading stopped, and whether a broken length stopped it.
#[derive(Clone, Copy)]
pub struct Pass {
    pub ledger: Ledger,
    pub refused: u64,
    pub stop: usize,
    pub broken: bool,
}

// What reading a book comes to: the ledger at the end, the refused records, and whether a broken length ended the reading.
#[derive(Clone, Copy)]
pub struct Read {
    pub ledger: Ledger,
    pub refused: u64,
    pub broken: bool,
}

// The records of a book, one after the other. An accepted record keeps a sound ledger sound, so soundness is not looked at again; the cells are
// written where they stand.
pub fn take_records(mut ledger: Ledger, map: &mut [u8], book: &[u8]) -> Pass
    requires { (sound_ledger ledger ≡ true) × (length map.old ≡ map_size) }
    ensures { (passed_in result ≡ pass_of ledger map.old book.now) × (map.new ≡ (after_book ledger map.old book.now).map) }
{
    let mut refused: u64 = 0;
    let mut at = 0;
    while let Place::Record { start, end } = wire::place_at(book, at) {
        match record::judge(
            wire::part(book, start, end),
            ledger.sheet,
            map,
            ledger.events,
        ) {
            Ok(accepted) => {
                used_numbers::mark(map, accepted.number);
                let row = accepted.row as usize;
                ledger.rows[row] = ledger.rows[row].grown(accepted.figures);
                ledger.sheet = accepted.sheet;
                ledger.events += accepted.events;
                ledger.short += accepted.short;
            }
            Err(_) => refused += 1,
        }
        at = end;
    }
    Pass {
        ledger,
        refused,
        stop: at,
        broken: at < book.len(),
    }
}

// A whole book. Soundness is looked at once: an unsound ledger, or a map of another size, is refused.
pub fn take_book(ledger: Ledger, map: &mut [u8], book: &[u8]) -> Result<Read, Refusal>
    ensures { (read_in ledger result ≡ read_of ledger map.old book.now) × (map.new ≡ map_read ledger map.old book.now) }
{
    if (map.len() != ledger::MAP) | !ledger.sound() {
        return Err(Refusal::Unsound);
    }
    let run = take_records(ledger, map, book);
    Ok(Read {
        ledger: run.ledger,
        refused: run.refused + u64::from(run.broken),
        broken: run.broken,
    })
}
