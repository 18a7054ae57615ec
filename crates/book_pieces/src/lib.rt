// Taking a book in pieces as they arrive: the whole records of what has arrived are taken, and the bytes of a record that is not whole yet are kept at
// the front of a lent buffer.
#![tactic(auto)]

ghost use Rattle.std.specs.Prelude.{◌≡◌};
ghost use Rattle.book_pieces.specs.Feed.{begun_of, fed_in, fed_of, map_fed, buffer_fed, finished_in, finished_of};

use book::Read;
use ledger::Ledger;
use refusals::Refusal;

// So far: the ledger, the refused records, how many bytes at the front of the buffer are still to be read, and whether they begin with a length below 4,
// after which no record can follow.
#[derive(Clone, Copy)]
pub struct Feed {
    pub ledger: Ledger,
    pub refused: u64,
    pub held: usize,
    pub dead: bool,
}

// Begins a book: nothing is refused, and nothing held. A ledger that is not sound is refused with the first piece, and at the end.
pub fn begin(ledger: Ledger) -> Feed
    ensures { result ≡ begun_of ledger }
{
    Feed {
        ledger,
        refused: 0,
        held: 0,
        dead: false,
    }
}

// Takes the whole records among the first `filled` bytes of the buffer: the next feed. A refusal leaves the map and the buffer: `Unsound` for an unsound ledger
// or a map of another size, `ManyRefused` for a count of refused records above `records::MOST_REFUSED`, `MoreTold` for a buffer that is shorter than `filled`.
pub fn take_piece(
    feed: Feed,
    map: &mut [u8],
    buffer: &mut [u8],
    filled: usize,
) -> Result<Feed, Refusal>
    ensures { (fed_in feed result ≡ fed_of feed map.old buffer.old filled) × (map.new ≡ map_fed feed map.old buffer.old filled) × (buffer.new ≡ buffer_fed feed map.old buffer.old filled) }
{
    let fit = (map.len() == ledger::MAP) & feed.ledger.sound();
    records::piece_answer(fit, feed.refused, buffer.len(), filled)?;
    if feed.dead {
        return Ok(feed);
    }
    let run = book::take_records(feed.ledger, map, &buffer[..filled]);
    let held = filled - run.stop;
    records::move_to_front(buffer, run.stop, filled);
    Ok(Feed {
        ledger: run.ledger,
        refused: feed.refused + run.refused,
        held,
        dead: records::is_dead(buffer, held),
    })
}

// The outcome once the input has ended: what is left over is a broken length, and counts as one refusal. `Unsound` for an unsound ledger, `ManyRefused` for a
// count of refused records above `records::MOST_REFUSED`.
pub fn finish(feed: Feed) -> Result<Read, Refusal>
    ensures { finished_in feed result ≡ finished_of feed }
{
    records::end_answer(feed.ledger.sound(), feed.refused)?;
    let broken = feed.held != 0;
    Ok(Read {
        ledger: feed.ledger,
        refused: feed.refused + u64::from(broken),
        broken,
    })
}
