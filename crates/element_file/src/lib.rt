// A yearly file taken into an element table: a refused record is counted and passed over, and a broken length counts as one refusal and ends the
// reading of that file.
#![tactic(auto)]

ghost use Rattle.std.specs.Prelude.{◌≡◌};
ghost use Rattle.element_file.specs.Yearly.{passed_in, pass_of, reading_in, file_of};

use element_table::Table;
use refusals::Refusal;
use wire::Place;

// What taking the records of some bytes comes to: the table after them, the refused ones, where the reading stopped, and whether a broken length stopped it.
#[derive(Clone, Copy)]
pub struct Pass {
    pub table: Table,
    pub refused: u64,
    pub stop: usize,
    pub broken: bool,
}

// What reading a file comes to: the table at the end, the refused records, and whether a broken length ended the reading.
#[derive(Clone, Copy)]
pub struct Reading {
    pub table: Table,
    pub refused: u64,
    pub broken: bool,
}

// The records of some bytes, one after the other.
pub fn take_records(mut table: Table, bytes: &[u8]) -> Pass
    ensures { passed_in result ≡ pass_of table bytes.now }
{
    let mut refused: u64 = 0;
    let mut at = 0;
    while let Place::Record { start, end } = wire::place_at(bytes, at) {
        match table.take(wire::part(bytes, start, end)) {
            Ok(next) => table = next,
            Err(_) => refused += 1,
        }
        at = end;
    }
    Pass {
        table,
        refused,
        stop: at,
        broken: at < bytes.len(),
    }
}

// A whole file. A table that is not sound reads none.
pub fn take_file(table: Table, file: &[u8]) -> Result<Reading, Refusal>
    ensures { reading_in table result ≡ file_of table file.now }
{
    let begun = table.begin_file()?;
    let run = take_records(begun, file);
    Ok(Reading {
        table: run.table,
        refused: run.refused + u64::from(run.broken),
        broken: run.broken,
    })
}
