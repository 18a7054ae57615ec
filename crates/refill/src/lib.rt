// Reading from a reader behind the bytes that are held at the front of a lent buffer.
#![tactic(auto)]

ghost use Rattle.std.specs.Prelude.{ℕ, ◌+◌, ◌≤◌, ◌≡◌, Bool, List, length, Ok, Some};
ghost use Rattle.refill.specs.Refill.{Filled, Refilled, filled_in};
ghost use Rattle.refill.specs.Arrive.{room, most_turns};

use std::io::Read;

// A read that fails, or that has no room to read into.
#[derive(Clone, Copy, Debug, PartialEq, Eq)]
pub struct Failed;

// Reads once behind the bytes held: how many bytes of the buffer are filled then, or `None` where none came, as at the end of the input. A buffer that has no
// room behind them is a read that fails.
pub fn read_behind<R: Read>(
    reader: &mut R,
    buffer: &mut [u8],
    held: usize,
) -> Result<Option<usize>, Failed>
    ensures { Refilled buffer.old held (filled_in held result) buffer.new }
{
    if buffer.len() <= held {
        return Err(Failed);
    }
    match reader.read(&mut buffer[held..]) {
        Ok(0) => Ok(None),
        Ok(came) => Ok(Some(held + came)),
        Err(_) => Err(Failed),
    }
}

// Reads until the buffer is full, the input ends or a read fails: how many bytes came.
pub fn read_full<R: Read>(reader: &mut R, buffer: &mut [u8]) -> usize
    ensures { result ≤ length buffer.new }
{
    let mut held = 0;
    while let Ok(Some(filled)) = read_behind(reader, buffer, held) {
        held = filled;
    }
    held
}

// More turns than any file has pieces: 2^40. Past them the reading has failed.
const MOST_TURNS: u64 = 1099511627776;

// A reading in pieces that a loop goes on with.
pub trait Pieces {
    // how many bytes at the buffer's front it holds
    ghost holds: { Self → ℕ };

    // begun so, what has come within so many turns is held, with a buffer
    ghost came: { Self → Self → List ℕ → ℕ → Type 0 };

    fn held(&self) -> usize
        ensures { result ≡ holds self.now };

    // Whether no record can follow.
    fn is_over(&self) -> bool;

    // Takes the first `filled` bytes of the buffer; a piece that is refused leaves all as it was.
    fn take_piece(&mut self, buffer: &mut [u8], filled: usize) -> Result<(), Failed>
        ensures { (begun : Self) (b : List ℕ) (turns : ℕ) → length b ≤ room → Refilled b (holds self.old) (filled_in (holds self.old) (Ok (Some filled))) buffer.old → came begun self.old b turns → came begun self.new buffer.new (turns + 1) };

    ghost nothing: { (begun now : Self) (b b₁ : List ℕ) (turns : ℕ) (r : Filled) → Refilled b (holds now) r b₁ → came begun now b turns → came begun now b₁ (turns + 1) };

    ghost within: { (begun now : Self) (b : List ℕ) (turns most : ℕ) → turns ≤ most → came begun now b turns → came begun now b most };
}

// The same of a reading that says by what it holds whether a record can follow.
pub trait EndingPieces {
    // how many bytes at the buffer's front it holds
    ghost holds: { Self → ℕ };

    // whether no record can follow what it holds
    ghost over: { Self → Bool };

    // begun so, what has come within so many turns is held, with a buffer
    ghost came: { Self → Self → List ℕ → ℕ → Type 0 };

    fn held(&self) -> usize
        ensures { result ≡ holds self.now };

    // Whether no record can follow.
    fn is_over(&self) -> bool
        ensures { result ≡ over self.now };

    // Takes the first `filled` bytes of the buffer; a piece that is refused leaves all as it was.
    fn take_piece(&mut self, buffer: &mut [u8], filled: usize) -> Result<(), Failed>
        ensures { (begun : Self) (b : List ℕ) (turns : ℕ) → length b ≤ room → Refilled b (holds self.old) (filled_in (holds self.old) (Ok (Some filled))) buffer.old → came begun self.old b turns → came begun self.new buffer.new (turns + 1) };

    ghost nothing: { (begun now : Self) (b b₁ : List ℕ) (turns : ℕ) (r : Filled) → Refilled b (holds now) r b₁ → came begun now b turns → came begun now b₁ (turns + 1) };

    ghost within: { (begun now : Self) (b : List ℕ) (turns most : ℕ) → turns ≤ most → came begun now b turns → came begun now b most };
}

// Such a reading is one that the loop goes on with, as it stands.
impl<P: EndingPieces> Pieces for P {
    ghost holds = { P.EndingPieces.holds };

    ghost came = { P.EndingPieces.came };

    fn held(&self) -> usize {
        EndingPieces::held(self)
    }

    fn is_over(&self) -> bool
        ensures { result ≡ P.over self.now }
    {
        EndingPieces::is_over(self)
    }

    fn take_piece(&mut self, buffer: &mut [u8], filled: usize) -> Result<(), Failed> {
        EndingPieces::take_piece(self, buffer, filled)
    }

    ghost nothing = { P.EndingPieces.nothing };

    ghost within = { P.EndingPieces.within };
}

// One piece more, where a record can still follow: whether the reading goes on.
pub fn take_next<R: Read, P: Pieces>(
    reader: &mut R,
    pieces: &mut P,
    buffer: &mut [u8],
) -> Result<bool, Failed>
    requires { length buffer.old ≤ room }
    ensures { (begun : P) (turns : ℕ) → P.came begun pieces.old buffer.old turns → P.came begun pieces.new buffer.new (turns + 1) }
{
    if pieces.is_over() {
        return Ok(false);
    }
    let held = pieces.held();
    let Some(filled) = read_behind(reader, buffer, held)? else {
        return Ok(false);
    };
    pieces.take_piece(buffer, filled)?;
    Ok(true)
}

// Turn after turn, to the end of the input or to a length below 4, after which nothing can follow.
pub fn take_all<R: Read, P: Pieces>(
    reader: &mut R,
    pieces: &mut P,
    buffer: &mut [u8],
) -> Result<(), Failed>
    requires { length buffer.old ≤ room }
    ensures { (begun : P) → P.came begun pieces.old buffer.old 0 → P.came begun pieces.new buffer.new most_turns }
{
    for _turn in 0..MOST_TURNS {
        if !take_next(reader, pieces, buffer)? {
            return Ok(());
        }
    }
    Err(Failed)
}
