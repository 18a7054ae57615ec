// A yearly element file read to its end from a reader, in pieces, into a table.
#![tactic(auto)]

ghost use Rattle.std.specs.Prelude.{ℕ, ◌≡◌, List};
ghost use Rattle.element_file.specs.Yearly.{take_record, file_of};
ghost use Rattle.refill.specs.Arrive.{Arrived};
ghost use Rattle.refill.proofs.ArriveLaws.{arrives_nothing, arrives_within};
ghost use Rattle.element_pieces.specs.Inflow.{reading_of};
ghost use Rattle.element_input.specs.Input.{input_in};

use element_file::Reading;
use element_pieces::Inflow;
use element_table::Table;
use refill::{EndingPieces, Failed};
use refusals::Refusal;
use std::io;

// An inflow as a loop over pieces goes on with it.
#[derive(Drop)]
struct File {
    flow: Inflow,
}

impl File {
    // A file that is begun: what has come is what the inflow holds.
    fn begun(flow: Inflow) -> File
        ensures { result.flow ≡ flow }
    {
        File { flow }
    }
}

impl EndingPieces for File {
    ghost holds = { λ x. x.flow.held };

    ghost over = { λ x. x.flow.dead };

    ghost came = { λ begun x b turns. Arrived take_record (reading_of begun.flow).state (reading_of x.flow) b turns };

    fn held(&self) -> usize {
        self.flow.held
    }

    fn is_over(&self) -> bool {
        self.flow.dead
    }

    fn take_piece(&mut self, buffer: &mut [u8], filled: usize) -> Result<(), Failed> {
        match element_pieces::take_piece(self.flow, buffer, filled) {
            Ok(next) => {
                self.flow = next;
                Ok(())
            }
            Err(_) => Err(Failed),
        }
    }

    ghost nothing = { λ begun x b b₁ turns r on a. arrives_nothing take_record (reading_of begun.flow).state (reading_of x.flow) b b₁ turns r on a };

    ghost within = { λ begun x b turns most l a. arrives_within take_record (reading_of begun.flow).state (reading_of x.flow) b turns most l a };
}

// Why a file is not read to its end: its table is not sound, or it was cut off, by a read that failed or by more pieces than any file has. Of a cut file,
// what the bytes before that come to.
#[derive(Clone, Copy)]
pub enum Unread {
    Refused(Refusal),
    Cut(Reading),
}

// Reads a file to its end into a table. Some bytes came, which the reader decides, and what is answered is what `element_file` answers to them in one call, also
// where the file was cut off.
pub fn read_file<R: io::Read>(reader: &mut R, table: Table) -> Result<Reading, Unread>
    ensures { (bytes : List ℕ) × (input_in table result ≡ file_of table bytes) }
{
    let begun = match element_pieces::begin(table) {
        Ok(begun) => begun,
        Err(refusal) => return Err(Unread::Refused(refusal)),
    };
    let mut file = File::begun(begun);
    let mut buffer = [0u8; 65536];
    let all = refill::take_all(reader, &mut file, &mut buffer);
    let reading = element_pieces::finish(file.flow).unwrap();
    match all {
        Ok(()) => Ok(reading),
        Err(Failed) => Err(Unread::Cut(reading)),
    }
}
