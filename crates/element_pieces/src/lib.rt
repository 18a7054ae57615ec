// Taking a yearly file in pieces as they arrive: the whole records of what has arrived are taken, and the bytes of a record
// that is not whole yet are kept at the front of a lent buffer.
#![tactic(auto)]

ghost use Rattle.std.specs.Prelude.{◌≡◌};
ghost use Rattle.element_pieces.specs.Inflow.{fresh, begun_of, flowed_in, flowed_of, buffer_after, finished_in, finished_of};

use element_file::Reading;
use element_table::Table;
use refusals::Refusal;

// So far: the table, the refused records of this file, how many bytes at the front of the buffer are still to be read, and whether they begin with a
// length below 4, after which no record can follow.
#[derive(Clone, Copy)]
pub struct Inflow {
    pub table: Table,
    pub refused: u64,
    pub held: usize,
    pub dead: bool,
}

// Begins a file: its year sheet is yet to be seen, and nothing is held. A table that is not sound begins none.
pub fn begin(table: Table) -> Result<Inflow, Refusal>
    ensures { flowed_in (fresh table) result ≡ begun_of table }
{
    let begun = table.begin_file()?;
    Ok(Inflow {
        table: begun,
        refused: 0,
        held: 0,
        dead: false,
    })
}

// Takes the whole records among the first `filled` bytes of the buffer: the next inflow. A refusal leaves the buffer: `Unsound` for an unsound table,
// `ManyRefused` for a count of refused records above `records::MOST_REFUSED`, `MoreTold` for a buffer that is shorter than `filled`.
pub fn take_piece(flow: Inflow, buffer: &mut [u8], filled: usize) -> Result<Inflow, Refusal>
    ensures { (flowed_in flow result ≡ flowed_of flow buffer.old filled) × (buffer.new ≡ buffer_after flow buffer.old filled) }
{
    let sound = flow.table.sound();
    records::piece_answer(sound, flow.refused, buffer.len(), filled)?;
    if flow.dead {
        return Ok(flow);
    }
    let run = element_file::take_records(flow.table, &buffer[..filled]);
    let held = filled - run.stop;
    records::move_to_front(buffer, run.stop, filled);
    Ok(Inflow {
        table: run.table,
        refused: flow.refused + run.refused,
        held,
        dead: records::is_dead(buffer, held),
    })
}

// The outcome once the input has ended: what is left over is a broken length, and counts as one refusal. `Unsound` for an unsound table, `ManyRefused` for a
// count of refused records above `records::MOST_REFUSED`.
pub fn finish(flow: Inflow) -> Result<Reading, Refusal>
    ensures { finished_in flow result ≡ finished_of flow }
{
    records::end_answer(flow.table.sound(), flow.refused)?;
    let broken = flow.held != 0;
    Ok(Reading {
        table: flow.table,
        refused: flow.refused + u64::from(broken),
        broken,
    })
}
