// The map of used event numbers: 8,192 lent bytes, of which number v is bit v mod 8 of byte v / 8.
#![tactic(auto)]

ghost use Rattle.std.specs.Prelude.{◌≡◌};
ghost use Rattle.used_numbers.specs.Marks.{marked, marked_with};

// Whether a number is marked. Past the map's end none is.
pub fn is_marked(map: &[u8], number: u16) -> bool
    ensures { result ≡ marked map.now number }
{
    let byte = wire::byte_at(map, (number / 8) as usize);
    let k = number % 8;
    (byte >> k) % 2 == 1
}

// Marks a number. Number 0 is no event's, and past the map's end there is nothing to mark: then the map stays as lent.
pub fn mark(map: &mut [u8], number: u16)
    ensures { map.new ≡ marked_with map.old number }
{
    let at = (number / 8) as usize;
    if number == 0 {
        return;
    }
    if map.len() <= at {
        return;
    }
    if is_marked(&map[..], number) {
        return;
    }
    map[at] += 1 << (number % 8);
}
