// The elements of section 9.8 of the annex: their codes, as printed, and each one's row in a table of elements.
#![tactic(auto)]

ghost use Rattle.std.specs.Prelude.{◌≡◌, ◌==◌, position};
ghost use Rattle.element_codes.specs.Elements.{element_listed, row_of, code_at};

// How many there are: an element table has a row for each.
pub const COUNT: usize = 62;

// Section 9.8, as printed.
const CODES: [u16; COUNT] = [
    1, 2, 3, 4, 5, 6, 7, 8, 9, 10, 11, 12, 13, 14, 15, 16, 17, 18, 19, 20, 21, 22, 23, 24, 25, 26,
    27, 28, 29, 30, 101, 102, 103, 109, 181, 182, 183, 184, 191, 192, 193, 194, 199, 211, 212, 213,
    214, 241, 242, 243, 244, 245, 246, 247, 249, 251, 252, 253, 254, 255, 256, 259,
];

// The first place of a code in a list of codes.
fn place_in(codes: &[u16], code: u16) -> Option<usize>
    ensures { result ≡ position (λ listed. code == listed) codes.now }
{
    codes.iter().position(|listed| code == *listed)
}

// Whether a code is listed.
pub fn is_element(code: u16) -> bool
    ensures { result ≡ element_listed code }
{
    CODES.contains(&code)
}

// The row of a code: its place in the printed list; past the last where it is not listed.
pub fn row_of(code: u16) -> usize
    ensures { result ≡ row_of code }
{
    place_in(&CODES, code).unwrap_or(COUNT)
}

// The code of a row; 0 past the last.
pub fn code_at(row: usize) -> u16
    ensures { result ≡ code_at row }
{
    CODES.get(row).copied().unwrap_or(0)
}
