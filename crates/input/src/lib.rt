// A book read to its end from a reader, in pieces, from an empty ledger and an all-zero map.
#![tactic(auto)]

ghost use Rattle.std.specs.Prelude.{ℕ, ◌≡◌, List, replicate, Ok};
ghost use Rattle.used_numbers.specs.Marks.{map_size};
ghost use Rattle.ledger.specs.Ledger.{empty_ledger};
ghost use Rattle.book.specs.Book.{take_record, read_in, read_of};
ghost use Rattle.refill.specs.Arrive.{Arrived};
ghost use Rattle.refill.proofs.ArriveLaws.{arrives_nothing, arrives_within};
ghost use Rattle.book_pieces.specs.Feed.{begun_of, reading_of};
ghost use Rattle.input.specs.Input.{read_either};

use book::Read;
use book_pieces::Feed;
use ledger::Ledger;
use refill::{EndingPieces, Failed};
use std::io;

// A feed with its map: a reading in pieces.
#[derive(Drop)]
struct Lent {
    feed: Feed,
    map: [u8; 8192],
}

impl Lent {
    // A book that is begun: nothing has come yet, nothing is refused, and no number is used.
    fn begun() -> Lent
        ensures { (result.feed ≡ begun_of empty_ledger) × (result.map ≡ replicate map_size 0) }
    {
        let feed = book_pieces::begin(Ledger::empty());
        Lent {
            feed,
            map: [0u8; 8192],
        }
    }
}

impl EndingPieces for Lent {
    ghost holds = { λ x. x.feed.held };

    ghost over = { λ x. x.feed.dead };

    ghost came = { λ begun x b turns. Arrived take_record (reading_of begun.feed begun.map).state (reading_of x.feed x.map) b turns };

    fn held(&self) -> usize {
        self.feed.held
    }

    fn is_over(&self) -> bool {
        self.feed.dead
    }

    fn take_piece(&mut self, buffer: &mut [u8], filled: usize) -> Result<(), Failed> {
        match book_pieces::take_piece(self.feed, &mut self.map, buffer, filled) {
            Ok(next) => {
                self.feed = next;
                Ok(())
            }
            Err(_) => Err(Failed),
        }
    }

    ghost nothing = { λ begun x b b₁ turns r on a. arrives_nothing take_record (reading_of begun.feed begun.map).state (reading_of x.feed x.map) b b₁ turns r on a };

    ghost within = { λ begun x b turns most l a. arrives_within take_record (reading_of begun.feed begun.map).state (reading_of x.feed x.map) b turns most l a };
}

// A reading that was cut off, by a read that failed or by more pieces than any file has: what the bytes before it come to.
#[derive(Clone, Copy)]
pub struct Cut {
    pub read: Read,
}

// Reads a book to its end. Some bytes came, which the reader decides, and what is answered is what `book` answers to them in one call, also where the reading
// was cut off.
pub fn read_book<R: io::Read>(reader: &mut R) -> Result<Read, Cut>
    ensures { (bytes : List ℕ) × (read_in empty_ledger (Ok (read_either result)) ≡ read_of empty_ledger (replicate map_size 0) bytes) }
{
    let mut buffer = [0u8; 65536];
    let mut lent = Lent::begun();
    let all = refill::take_all(reader, &mut lent, &mut buffer);
    let read = book_pieces::finish(lent.feed).unwrap();
    match all {
        Ok(()) => Ok(read),
        Err(Failed) => Err(Cut { read }),
    }
}
