// The ledger: the year sheet or none, the events and short events taken, and the cells by type and level. Every operation takes a ledger and
// hands back the next one.
#![tactic(auto)]

ghost use Rattle.std.specs.Prelude.{◌≡◌, ◌&&◌, ◌≤◌, ◌*◌};
ghost use Rattle.base.specs.Lists.{every};
ghost use Rattle.annex.specs.Figure.{Off, Halves, most_of};
ghost use Rattle.verdict.specs.Judged.{accepted_verdict};
ghost use Rattle.ledger.specs.Ledger.{empty_row, empty_ledger, grown_by, grown_row, added};
ghost use Rattle.ledger.specs.Sound.{cell_within, row_within, sheet_sound, sound_ledger};
ghost use Rattle.ledger.specs.Inside.{Spare, SpareRow, Small, Fits};
ghost use Rattle.ledger.specs.Take.{taken_in, taken_of, map_after};

use annex::{Customers, Figures, HalfMinutes};
use codes::{LEVELS, ROWS};
use fields::Sheet;
use refusals::Refusal;
use verdict::Accepted;

// How many bytes a map of used numbers has.
pub const MAP: usize = 8192;

// The figures of one event type on one level.
#[derive(Clone, Copy)]
pub struct Cell {
    pub customers: Customers,
    pub halves: HalfMinutes,
}

// The figures of one event type: NN, VN, VVN.
#[derive(Clone, Copy)]
pub struct TypeRow {
    pub levels: [Cell; LEVELS],
}

// The rows stand in the order of the types' list.
#[derive(Clone, Copy)]
pub struct Ledger {
    pub sheet: Sheet,
    pub events: u16,
    pub short: u16,
    pub rows: [TypeRow; ROWS],
}

impl Cell {
    // The cell with the figures of one event more.
    fn grown(self, customers: Customers, halves: HalfMinutes) -> Cell
        requires { Spare self × (customers.0 ≤ most_of Off) × (halves.0 ≤ most_of Halves) }
        ensures { result ≡ grown_by self customers halves }
    {
        Cell {
            customers: Customers(self.customers.0 + customers.0),
            halves: HalfMinutes(self.halves.0 + halves.0),
        }
    }

    // Whether the cell is within the bounds that so many events set.
    fn within(self, events: u16) -> bool
        ensures { result ≡ cell_within events self }
    {
        (self.customers.0 <= events as u64 * annex::MOST_OFF)
            & (self.halves.0 <= events as u64 * annex::MOST_HALVES)
    }
}

// Whether each of a row's cells is within the bounds that so many events set. All are tested, so that none waits for the test of another.
fn levels_within(levels: [Cell; LEVELS], events: u16) -> bool
    ensures { result ≡ every (cell_within events) levels }
{
    let mut ok = true;
    for cell in &levels {
        ok &= cell.within(events);
    }
    ok
}

impl TypeRow {
    // Nothing on any level. Named as `Ledger::empty` and `Figures::none` are.
    pub fn none() -> TypeRow
        ensures { result ≡ empty_row }
    {
        TypeRow {
            levels: [Cell {
                customers: Customers(0),
                halves: HalfMinutes(0),
            }; LEVELS],
        }
    }

    // The row with the figures of one event more: each level's cell with its own.
    pub fn grown(mut self, figures: Figures) -> TypeRow
        requires { SpareRow self.levels × Small figures }
        ensures { result ≡ grown_row self figures }
    {
        for level in 0..LEVELS {
            self.levels[level] = self.levels[level].grown(
                figures.customers[level],
                figures.halves[level],
            );
        }
        self
    }

    fn within(self, events: u16) -> bool
        ensures { result ≡ row_within events self }
    {
        levels_within(self.levels, events)
    }
}

// Whether every row is.
fn rows_within(rows: [TypeRow; ROWS], events: u16) -> bool
    ensures { result ≡ every (row_within events) rows }
{
    let mut ok = true;
    for row in &rows {
        ok &= row.within(events);
    }
    ok
}

// Whether a sheet is in range, or there is none and all is zero.
fn sheet_sound(sheet: Sheet, events: u16) -> bool
    ensures { result ≡ sheet_sound sheet events }
{
    let zero = (sheet.year == 0)
        & (sheet.totals[0] == 0)
        & (sheet.totals[1] == 0)
        & (sheet.totals[2] == 0)
        & (events == 0);
    (sheet.there & sheet.in_range()) | (!sheet.there & zero)
}

impl Ledger {
    // No sheet, and all is zero.
    pub fn empty() -> Ledger
        ensures { result ≡ empty_ledger }
    {
        Ledger {
            sheet: Sheet::none(),
            events: 0,
            short: 0,
            rows: [TypeRow::none(); ROWS],
        }
    }

    // Whether the ledger is sound.
    pub fn sound(self) -> bool
        ensures { result ≡ sound_ledger self }
    {
        sheet_sound(self.sheet, self.events)
            & (self.events <= codes::MOST_EVENTS)
            & (self.short <= self.events)
            & rows_within(self.rows, self.events)
    }

    // The ledger with what an accepted record adds.
    pub fn add(mut self, accepted: Accepted) -> Ledger
        requires { Fits self (accepted_verdict accepted) }
        ensures { result ≡ added self (accepted_verdict accepted) }
    {
        let row = accepted.row as usize;
        self.rows[row] = self.rows[row].grown(accepted.figures);
        self.sheet = accepted.sheet;
        self.events += accepted.events;
        self.short += accepted.short;
        self
    }

    // One record of a book: the next ledger, and the map is marked where an event is accepted. A refusal leaves ledger and map.
    pub fn take(self, map: &mut [u8], bytes: &[u8]) -> Result<Ledger, Refusal>
        ensures { (taken_in self result ≡ taken_of self map.old bytes.now) × (map.new ≡ map_after self map.old bytes.now) }
    {
        if (map.len() != MAP) | !self.sound() {
            return Err(Refusal::Unsound);
        }
        let accepted = record::judge(bytes, self.sheet, &map[..], self.events)?;
        used_numbers::mark(map, accepted.number);
        Ok(self.add(accepted))
    }
}
