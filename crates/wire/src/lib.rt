// What bytes say: little-endian numbers in a slice, a record's frame, and what stands at an offset of a book.
#![tactic(auto)]

ghost use Rattle.std.specs.Prelude.{◌≡◌, ◌+◌, ◌*◌, ◌<◌, ◌≤◌, length};
ghost use Rattle.wire.specs.Numbers.{byte_at, le16, le32, counts_at};
ghost use Rattle.wire.specs.Frame.{framed, kind_of};
ghost use Rattle.wire.specs.Book.{place_at, part_of};

// What stands at an offset of a book: a record's place, the end, or a broken length.
#[derive(Clone, Copy)]
pub enum Place {
    Record { start: usize, end: usize },
    End,
    Broken,
}

// The byte at an offset; past the end it is 0, so that every read of a field is total.
pub fn byte_at(s: &[u8], at: usize) -> u8
    ensures { result ≡ byte_at s.now at }
{
    s.get(at).copied().unwrap_or(0)
}

// The number of 2 bytes at an offset.
pub fn u16_at(s: &[u8], at: usize) -> u16
    ensures { result ≡ le16 s.now at }
{
    if s.len() <= at {
        return 0;
    }
    u16::from_le_bytes([s[at], byte_at(s, at + 1)])
}

// The number of 4 bytes at an offset.
pub fn u32_at(s: &[u8], at: usize) -> u32
    ensures { result ≡ le32 s.now at }
{
    if s.len() <= at {
        return 0;
    }
    u32::from_le_bytes([
        s[at],
        byte_at(s, at + 1),
        byte_at(s, at + 2),
        byte_at(s, at + 3),
    ])
}

// The three counts at an offset: NN, VN, VVN.
pub fn counts_at(s: &[u8], at: usize) -> [u32; 3]
    ensures { result ≡ counts_at s.now at }
{
    if s.len() <= at {
        return [0, 0, 0];
    }
    [u32_at(s, at), u32_at(s, at + 4), u32_at(s, at + 8)]
}

// The same of a number and of counts that lie within the slice, with no test: for callers who know the record's length.
pub fn u32_in(s: &[u8], at: usize) -> u32
    requires { at + 4 ≤ length s.now }
    ensures { result ≡ le32 s.now at }
{
    u32::from_le_bytes([s[at], s[at + 1], s[at + 2], s[at + 3]])
}

pub fn counts_in(s: &[u8], at: usize) -> [u32; 3]
    requires { at + 12 ≤ length s.now }
    ensures { result ≡ counts_at s.now at }
{
    [u32_in(s, at), u32_in(s, at + 4), u32_in(s, at + 8)]
}

// Whether a slice is framed as one record: 4 bytes or more, and the stated length is its own.
pub fn is_framed(s: &[u8]) -> bool
    ensures { result ≡ framed s.now }
{
    let stated = u16_at(s, 0);
    (4 <= s.len()) & (stated as usize == s.len())
}

// A record's kind.
pub fn kind_of(s: &[u8]) -> u16
    ensures { result ≡ kind_of s.now }
{
    u16_at(s, 2)
}

// What stands at an offset of a book.
pub fn place_at(book: &[u8], at: usize) -> Place
    ensures { result ≡ place_at book.now at }
{
    let n = book.len();
    if n <= at {
        return Place::End;
    }
    let left = n - at;
    if left < 4 {
        return Place::Broken;
    }
    let stated = u16_at(book, at);
    let size = stated as usize;
    if size < 4 {
        return Place::Broken;
    }
    if left < size {
        return Place::Broken;
    }
    Place::Record {
        start: at,
        end: at + size,
    }
}

// The bytes of a book between two offsets, as far as there are any.
pub fn part(book: &[u8], start: usize, end: usize) -> &[u8]
    ensures { result.now ≡ part_of book.now start end }
{
    book.get(start..end.min(book.len())).unwrap_or(&[])
}
