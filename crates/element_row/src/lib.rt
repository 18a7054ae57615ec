// What is known of one element of 9.8 over an observation period: a row of the element table.
#![tactic(auto)]

ghost use Rattle.std.specs.Prelude.{◌≡◌, ◌*◌, ◌≤◌};
ghost use Rattle.element_row.specs.Row.{most_outages, longest, no_row, row_within, with_outage, with_stock};

// The most outages that are kept of an element, and the longest of them in minutes.
pub const MOST_OUTAGES: u32 = 65535;

pub const LONGEST: u64 = 600000;

// What is known of one element: its outages with their minutes, and its stock: 0 none told, 1 pieces, 2 line in tenths of a kilometre.
// The mark is a number and no enum, since a table may be lent with another mark, which is answered as unsound (element_cases, "mark 3").
#[derive(Clone, Copy, Default)]
pub struct Row {
    pub outages: u32,
    pub minutes: u64,
    pub stock: u8,
    pub amount: u32,
}

impl Row {
    // No outage, and no stock told.
    pub fn none() -> Row
        ensures { result ≡ no_row }
    {
        Row::default()
    }

    // With one outage more, of so many minutes.
    pub fn with_outage(self, minutes: u32) -> Row
        requires { (self.outages ≤ most_outages) × (self.minutes ≤ most_outages * longest) }
        ensures { result ≡ with_outage self minutes }
    {
        Row {
            outages: self.outages + 1,
            minutes: self.minutes + minutes as u64,
            ..self
        }
    }

    // With its stock told, in pieces (0) or as a line (1): the record's byte, which is the mark less one, and a number as the mark is.
    pub fn with_stock(self, unit: u8, amount: u32) -> Row
        requires { unit ≤ 1 }
        ensures { result ≡ with_stock self unit amount }
    {
        Row {
            stock: unit + 1,
            amount,
            ..self
        }
    }

    // Whether the row is within its bounds.
    pub fn within(self) -> bool
        ensures { result ≡ row_within self }
    {
        self.outages <= MOST_OUTAGES
            && self.minutes <= self.outages as u64 * LONGEST
            && self.stock <= 2
            && (0 < self.stock || self.amount == 0)
    }
}
