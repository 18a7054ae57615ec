// An entry written as a line of text, without its newline.
#![tactic(auto)]

ghost use Rattle.std.specs.Prelude.{◌≡◌};
ghost use Rattle.pen.specs.Pen.{inked, spot, pushed_all};
ghost use Rattle.text_items.specs.Sorts.{sort_number, item_number, entry_in};
ghost use Rattle.text_parse.specs.Entry.{word_text};
ghost use Rattle.text_write.specs.Line.{date_text, time_text, item_text, gap_text, items_text, entry_items, line_of};

use pen::Pen;
use text_items::{Entry, Item, Sort};

// A minute of a year as MM-DD hh:mm.
#[tactic(auto, using(pen::proofs::PenLaws::inked_append), unfolding(crate::specs::Line::date_text))]
fn put_date(pen: &mut Pen, year: u16, time: u32)
    ensures { pen.new ≡ inked pen.old (date_text year time) }
{
    let date = calendar::date_of(year, time);
    pen.put_two(date.month);
    pen.put(b'-');
    pen.put_two(date.day);
    pen.put(b' ');
    pen.put_two(date.hour);
    pen.put(b':');
    pen.put_two(date.minute);
}

// A time: a date where it lies within a known year, and minutes elsewhere.
#[tactic(auto, unfolding(crate::specs::Line::time_text))]
fn put_time(pen: &mut Pen, year: u16, time: u32)
    ensures { pen.new ≡ inked pen.old (time_text year time) }
{
    if year == 0 || annex::minutes_in(year) <= time {
        pen.put_number(time);
    } else {
        put_date(pen, year, time);
    }
}

// An item of a sort.
#[tactic(auto, unfolding(crate::specs::Line::item_text))]
fn put_item(pen: &mut Pen, item: Item, year: u16, value: u32)
    ensures { pen.new ≡ inked pen.old (item_text (item_number item) year value) }
{
    match item {
        Item::Time => put_time(pen, year, value),
        Item::Digits => pen.put_hex(value),
        Item::Byte | Item::Pair | Item::Count => pen.put_number(value),
    }
}

// What parts an item from those before it: a space, or a bar between two.
#[tactic(auto, unfolding(crate::specs::Line::gap_text))]
fn put_gap(pen: &mut Pen, kind: Sort, k: usize)
    ensures { pen.new ≡ inked pen.old (gap_text (sort_number kind) k) }
{
    if text_items::bar_before(kind, k) {
        pen.put_words(b" | ");
    } else {
        pen.put(b' ');
    }
}

// The word of a sort of line.
fn put_word(pen: &mut Pen, kind: Sort)
    ensures { pen.new ≡ inked pen.old (word_text (sort_number kind)) }
{
    match kind {
        Sort::Blank => {}
        Sort::Sheet => pen.put_words(b"sheet"),
        Sort::Simple => pen.put_words(b"simple"),
        Sort::Stepped => pen.put_words(b"stepped"),
        Sort::Hex => pen.put_words(b"hex"),
    }
}

// The items of a sort of line, each with what parts it from those before it. Inlined where the sort is known: so is then what stands in each place.
#[inline(always)]
#[tactic(auto, using(crate::proofs::LineLaws::item_on, crate::proofs::LineLaws::items_end))]
fn put_values(pen: &mut Pen, kind: Sort, values: &[u32], year: u16)
    ensures { pen.new ≡ inked pen.old (items_text (sort_number kind) year 0 values.now) }
{
    for (k, &value) in values.iter().enumerate() {
        put_gap(pen, kind, k);
        put_item(pen, text_items::item_of(kind, k), year, value);
    }
}

// The items of an entry.
fn put_items(pen: &mut Pen, entry: &Entry, year: u16)
    ensures { pen.new ≡ inked pen.old (entry_items (entry_in entry.now) year) }
{
    match entry.kind {
        Sort::Hex => put_values(pen, Sort::Hex, entry.items(), year),
        kind => put_values(pen, kind, entry.items(), year),
    }
}

// Writes an entry's line into a buffer from a place on, and answers the place after it; 4,096 bytes are room for every line. The year is that of the sheet
// before it, 0 where there is none.
#[tactic(auto, using(pen::proofs::PenLaws::inked_append))]
pub fn write_line(out: &mut [u8], at: usize, entry: Entry, year: u16) -> usize
    ensures { spot out.new result ≡ pushed_all (spot out.old at) (line_of (entry_in entry) year) }
{
    let mut pen = Pen { out, at };
    put_word(&mut pen, entry.kind);
    put_items(&mut pen, &entry, year);
    pen.at
}
