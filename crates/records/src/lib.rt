// Records of a framed file taken one after the other, whatever takes them: what is counted, when a reading in pieces is over, and how the bytes of a record
// that is not whole yet are kept at the front of a lent buffer.
#![tactic(auto)]

ghost use Rattle.std.specs.Prelude.{◌≡◌};
ghost use Rattle.refusals.specs.Refusals.{answer_in};
ghost use Rattle.records.specs.Pieces.{dead_rest, moved, end_answer, piece_answer};

use refusals::Refusal;

// The most refused records that a reading in pieces goes on from: 2^62, so that their count cannot wrap. A file of at most so many bytes does not reach it.
pub const MOST_REFUSED: u64 = 4611686018427387904;

// Whether the first bytes of a buffer state a length below 4.
pub fn is_dead(buffer: &[u8], held: usize) -> bool
    ensures { result ≡ dead_rest buffer.now held }
{
    (2 <= held) & (wire::u16_at(buffer, 0) < 4)
}

// Moves the bytes between two places of a buffer to its front; those past them stay as lent. What begins at the front is there, and is not copied onto itself:
// a long record that comes in many pieces is held at each of them.
pub fn move_to_front(buffer: &mut [u8], start: usize, end: usize)
    ensures { buffer.new ≡ moved buffer.old start end }
{
    if 0 < start && start <= end && end <= buffer.len() {
        buffer.copy_within(start..end, 0);
    }
}

// Why a reading in pieces does not end in an outcome, as the refusal with the smallest number that applies: `Unsound` where what it fills is not fit for it,
// `ManyRefused` for a count of refused records above `MOST_REFUSED`.
pub fn end_answer(fit: bool, refused: u64) -> Result<(), Refusal>
    ensures { answer_in result ≡ end_answer fit refused }
{
    if !fit {
        return Err(Refusal::Unsound);
    }
    if MOST_REFUSED < refused {
        return Err(Refusal::ManyRefused);
    }
    Ok(())
}

// Why a piece is not taken: the same, and `MoreTold` for a buffer of `room` bytes that is shorter than `filled`.
pub fn piece_answer(fit: bool, refused: u64, room: usize, filled: usize) -> Result<(), Refusal>
    ensures { answer_in result ≡ piece_answer fit refused room filled }
{
    end_answer(fit, refused)?;
    if room < filled {
        return Err(Refusal::MoreTold);
    }
    Ok(())
}
