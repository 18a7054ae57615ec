// An entry written as the bytes that its line stands for.
#![tactic(auto)]

ghost use Rattle.std.specs.Prelude.{◌≡◌, ◌≤◌, length, true};
ghost use Rattle.pen.specs.Pen.{inked, spot, pushed_all};
ghost use Rattle.text_items.specs.Shape.{whole_of};
ghost use Rattle.text_items.specs.Sorts.{sort_number, entry_in};
ghost use Rattle.pack.specs.Pack.{one_each, head_of, sheet_bytes, simple_bytes, stepped_bytes, packed_as, packed_of};
ghost use Rattle.codec.specs.Codec.{four_each, head_bytes, frame};

use pen::Pen;
use text_items::{Entry, Sort};

// Some numbers, a byte for each.
fn put_bytes(pen: &mut Pen, values: &[u32])
    ensures { pen.new ≡ inked pen.old (one_each values.now) }
{
    for &value in values {
        pen.put((value % 256) as u8);
    }
}

// Some numbers, four bytes for each.
fn put_fours(pen: &mut Pen, values: &[u32])
    ensures { pen.new ≡ inked pen.old (four_each values.now) }
{
    for &value in values {
        pen.put_le4(value);
    }
}

// A record's length and kind.
fn put_frame(pen: &mut Pen, length: u32, kind: u32)
    ensures { pen.new ≡ inked pen.old (frame length kind) }
{
    pen.put_le2(length);
    pen.put_le2(kind);
}

// An event's number, type, voltage, cause and T0.
fn put_head(pen: &mut Pen, values: &[u32])
    requires { 5 ≤ length values.now }
    ensures { pen.new ≡ inked pen.old (head_bytes (head_of values.now)) }
{
    pen.put_le2(values[0]);
    pen.put((values[1] % 256) as u8);
    pen.put((values[2] % 256) as u8);
    pen.put((values[3] % 256) as u8);
    pen.put_le4(values[4]);
}

// A year sheet.
#[tactic(auto, using(pen::proofs::PenLaws::inked_append), unfolding(crate::specs::Pack::sheet_bytes))]
fn put_sheet(pen: &mut Pen, values: &[u32])
    requires { 1 ≤ length values.now }
    ensures { pen.new ≡ inked pen.old (sheet_bytes values.now) }
{
    put_frame(pen, 18, 1);
    pen.put_le2(values[0]);
    put_fours(pen, &values[1..]);
}

// A simple event.
#[tactic(auto, using(pen::proofs::PenLaws::inked_append), unfolding(crate::specs::Pack::simple_bytes))]
fn put_simple(pen: &mut Pen, values: &[u32])
    requires { 5 ≤ length values.now }
    ensures { pen.new ≡ inked pen.old (simple_bytes values.now) }
{
    put_frame(pen, 53, 2);
    put_head(pen, values);
    put_fours(pen, &values[5..]);
}

// A stepped event.
#[tactic(auto, using(pen::proofs::PenLaws::inked_append), unfolding(crate::specs::Pack::stepped_bytes))]
fn put_stepped(pen: &mut Pen, values: &[u32])
    requires five { 5 ≤ length values.now }
    requires most { length values.now ≤ 261 }
    ensures { pen.new ≡ inked pen.old (stepped_bytes values.now) }
{
    let steps = (values.len() - 5) / 4;
    put_frame(pen, 14 + 16 * steps as u32, 3);
    put_head(pen, values);
    pen.put(steps as u8);
    put_fours(pen, &values[5..]);
}

// What a whole line of a sort stands for.
#[tactic(auto, using(text_items::proofs::ShapeLaws::whole_sheet, text_items::proofs::ShapeLaws::whole_simple, text_items::proofs::ShapeLaws::stepped_least, text_items::proofs::ShapeLaws::whole_few), unfolding(crate::specs::Pack::packed_as))]
fn put_whole(pen: &mut Pen, kind: Sort, values: &[u32])
    requires { whole_of (sort_number kind) (length values.now) ≡ true }
    ensures { pen.new ≡ inked pen.old (packed_as (sort_number kind) values.now) }
{
    match kind {
        Sort::Sheet => put_sheet(pen, values),
        Sort::Simple => put_simple(pen, values),
        Sort::Stepped => put_stepped(pen, values),
        Sort::Blank | Sort::Hex => put_bytes(pen, values),
    }
}

// Writes what an entry stands for into a buffer from a place on, and answers the place after it; nothing for an entry that is not whole. 1,038 bytes are
// room for every entry. Of a number that is too large for its place the lowest bytes are written.
#[tactic(auto, using(text_items::proofs::ShapeLaws::whole_items), unfolding(crate::specs::Pack::packed_of))]
pub fn pack(out: &mut [u8], at: usize, entry: Entry) -> usize
    ensures { spot out.new result ≡ pushed_all (spot out.old at) (packed_of (entry_in entry)) }
{
    if !text_items::is_whole(entry.kind, entry.count) {
        return at;
    }
    let mut pen = Pen { out, at };
    put_whole(&mut pen, entry.kind, entry.items());
    pen.at
}
