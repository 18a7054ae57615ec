// The lines of a book's text: which items stand in a line of each sort, one after the other.
#![tactic(auto, unfolding(crate::specs::Shape::event_item, crate::specs::Shape::item_of, crate::specs::Shape::most_of, crate::specs::Shape::whole_of, crate::specs::Shape::bar_before))]

ghost use Rattle.std.specs.Prelude.{◌≡◌, take};
ghost use Rattle.text_items.specs.Shape.{item_of, most_of, whole_of, bar_before};
ghost use Rattle.text_items.specs.Sorts.{sort_number, item_number, sort_of, item_named};

// The sorts of line. A sheet, a simple and a stepped event are the records that they stand for; a line of bytes stands for what no other line expresses.
#[derive(Clone, Copy, Debug, PartialEq, Eq)]
pub enum Sort {
    Blank,
    Sheet,
    Simple,
    Stepped,
    Hex,
}

// The sorts of item: a number of 1, of 2 and of 4 bytes, a time, and two hexadecimal digits.
#[derive(Clone, Copy, Debug, PartialEq, Eq)]
pub enum Item {
    Byte,
    Pair,
    Count,
    Time,
    Digits,
}

// A number of a sort of line, and of item. One that is none's is taken for a line that says nothing, and for a number of 4 bytes: what is asked of it below is
// then what the definitions answer to it (`SortLaws`).
impl From<u8> for Sort {
    ghost from_gives = { λ number sort. sort ≡ sort_of number };

    fn from(number: u8) -> Sort {
        match number {
            1 => Sort::Sheet,
            2 => Sort::Simple,
            3 => Sort::Stepped,
            4 => Sort::Hex,
            _ => Sort::Blank,
        }
    }
}

impl From<u8> for Item {
    ghost from_gives = { λ number item. item ≡ item_named number };

    fn from(number: u8) -> Item {
        match number {
            1 => Item::Byte,
            2 => Item::Pair,
            4 => Item::Time,
            5 => Item::Digits,
            _ => Item::Count,
        }
    }
}

// What a line says: its sort, and the numbers of its items, as many as a stepped event of 64 steps has; those past them are 0, as `entry_of`
// has them. An array beside a count, since library crates have no heap.
#[derive(Clone, Copy)]
pub struct Entry {
    pub kind: Sort,
    pub count: usize,
    pub values: [u32; 261],
}

impl Entry {
    // The numbers of its items.
    pub fn items(&self) -> &[u32]
        ensures { result.now ≡ take self.now.count self.now.values }
    {
        &self.values[..self.count.min(261)]
    }
}

// The sort of an item of an event's line.
fn event_item(kind: Sort, k: usize) -> Item
    ensures { item_number result ≡ Rattle.text_items.specs.Shape.event_item (sort_number kind) k }
{
    match k {
        0 => Item::Pair,
        1..=3 => Item::Byte,
        4 => Item::Time,
        5..=8 if kind == Sort::Simple => Item::Time,
        _ if kind == Sort::Simple => Item::Count,
        _ if (k - 5) % 4 == 0 => Item::Time,
        _ => Item::Count,
    }
}

// The sort of an item, by its place in the line.
pub fn item_of(kind: Sort, k: usize) -> Item
    ensures { item_number result ≡ item_of (sort_number kind) k }
{
    match kind {
        Sort::Hex => Item::Digits,
        Sort::Sheet if k == 0 => Item::Pair,
        Sort::Sheet => Item::Count,
        Sort::Blank | Sort::Simple | Sort::Stepped => event_item(kind, k),
    }
}

// How many items a line has at most.
pub fn most_of(kind: Sort) -> usize
    ensures { result ≡ most_of (sort_number kind) }
{
    match kind {
        Sort::Blank => 0,
        Sort::Sheet => 4,
        Sort::Simple => 15,
        Sort::Stepped => 261,
        Sort::Hex => 32,
    }
}

// Whether a line of so many items is whole.
pub fn is_whole(kind: Sort, count: usize) -> bool
    ensures { result ≡ whole_of (sort_number kind) count }
{
    match kind {
        Sort::Stepped => 9 <= count && count <= 261 && (count - 5) % 4 == 0,
        Sort::Hex => 1 <= count && count <= 32,
        Sort::Blank | Sort::Sheet | Sort::Simple => count != 0 && count == most_of(kind),
    }
}

// Whether a bar parts an item from those before it.
pub fn bar_before(kind: Sort, k: usize) -> bool
    ensures { result ≡ bar_before (sort_number kind) k }
{
    match kind {
        Sort::Sheet => k == 1,
        Sort::Hex => false,
        Sort::Simple => k == 4 || 9 <= k && k % 3 == 0,
        Sort::Blank | Sort::Stepped => k == 4 || 4 < k && (k - 5) % 4 == 0,
    }
}
