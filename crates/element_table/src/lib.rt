// The element table: outages, minutes and stock of each element of 9.8 over an observation period, taken from yearly files record by record.
#![tactic(auto)]

ghost use Rattle.std.specs.Prelude.{◌≡◌, IfOk};
ghost use Rattle.std.specs.List.{list_all};
ghost use Rattle.refusals.specs.Refusals.{answer_in};
ghost use Rattle.wire.specs.Frame.{kind_of};
ghost use Rattle.element_row.specs.Row.{row_within};
ghost use Rattle.element_table.specs.Table.{filed_in, row_or, begun, begin_of, file_begun, sound_table};
ghost use Rattle.element_table.specs.Rules.{answer_of};
ghost use Rattle.element_table.specs.Kind.{number_of_kind, IsKind, answer_at};
ghost use Rattle.element_table.specs.Take.{with_row, taken_of};

use element_row::Row;
use refusals::Refusal;

// The observation period in years, whether the file's year sheet was seen, and a row for each element in the order of 9.8.
#[derive(Clone, Copy)]
pub struct Table {
    pub period: u32,
    pub seen: bool,
    pub rows: [Row; element_codes::COUNT],
}

// The kinds of record that a yearly file has.
#[derive(Clone, Copy)]
enum Kind {
    Sheet,
    Outage,
    Stock,
}

impl TryFrom<u16> for Kind {
    type Error = Refusal;

    ghost try_from_gives = { IsKind };

    fn try_from(kind: u16) -> Result<Kind, Refusal> {
        match kind {
            1 => Ok(Kind::Sheet),
            4 => Ok(Kind::Outage),
            5 => Ok(Kind::Stock),
            _ => Err(Refusal::Kind),
        }
    }
}

// Whether every row is within its bounds.
fn rows_within(rows: &[Row]) -> bool
    ensures { result ≡ list_all row_within rows.now }
{
    rows.iter().all(|row| row.within())
}

// The row at an index; past the last there is none.
fn row_at(rows: &[Row], at: usize) -> Row
    ensures { result ≡ row_or rows.now at }
{
    rows.get(at).copied().unwrap_or_default()
}

impl Table {
    // A table for an observation period, which is 1 to 50 years.
    #[tactic(auto, unfolding(crate::specs::Table::begin_of))]
    pub fn begin(period: u32) -> Result<Table, Refusal>
        ensures { filed_in (begun 0) result ≡ begin_of period }
    {
        if period < 1 || 50 < period {
            return Err(Refusal::Period);
        }
        Ok(Table {
            period,
            seen: false,
            rows: [Row::none(); element_codes::COUNT],
        })
    }

    // Whether the table is sound.
    #[tactic(auto, using(crate::proofs::BoundLaws::all_rows), unfolding(crate::specs::Table::sound_table))]
    pub fn sound(self) -> bool
        ensures { result ≡ sound_table self }
    {
        1 <= self.period && self.period <= 50 && rows_within(&self.rows)
    }

    // Begins a file: its year sheet is yet to be seen. A table that is not sound begins none.
    #[tactic(auto, unfolding(crate::specs::Table::file_begun))]
    pub fn begin_file(self) -> Result<Table, Refusal>
        ensures { filed_in self result ≡ file_begun self }
    {
        if self.sound() {
            Ok(Table {
                seen: false,
                ..self
            })
        } else {
            Err(Refusal::Unsound)
        }
    }

    // The first refusal that applies to a record of a kind, once the table is sound and the record framed.
    fn answer_to(self, kind: Kind, bytes: &[u8]) -> Result<(), Refusal>
        ensures { answer_in result ≡ answer_at kind self bytes.now }
    {
        let row = row_at(&self.rows, element_codes::row_of(wire::u16_at(bytes, 4)));
        match kind {
            Kind::Sheet => element_rules::sheet_answer(self.seen, bytes),
            Kind::Outage => element_rules::outage_answer(self.seen, row, bytes),
            Kind::Stock => element_rules::stock_answer(self.seen, row, bytes),
        }
    }

    // The kind of a record that is not refused.
    #[tactic(auto, unfolding(crate::specs::Rules::answer_of))]
    fn accepted_kind(self, bytes: &[u8]) -> Result<Kind, Refusal>
        ensures answer { answer_in result ≡ answer_of self bytes.now }
        ensures kind { IfOk result (λ kind. kind_of bytes.now ≡ number_of_kind kind) }
    {
        if !self.sound() {
            return Err(Refusal::Unsound);
        }
        if !wire::is_framed(bytes) {
            return Err(Refusal::Frame);
        }
        let kind = Kind::try_from(wire::kind_of(bytes))?;
        self.answer_to(kind, bytes)?;
        Ok(kind)
    }

    // The table with another row for an element.
    fn with_row(mut self, at: usize, row: Row) -> Table
        ensures { result ≡ with_row self at row }
    {
        if at < element_codes::COUNT {
            self.rows[at] = row;
        }
        self
    }

    // One record of a yearly file: the next table. A refused record leaves the table as it was.
    pub fn take(self, bytes: &[u8]) -> Result<Table, Refusal>
        ensures { filed_in self result ≡ taken_of self bytes.now }
    {
        let kind = self.accepted_kind(bytes)?;
        let at = element_codes::row_of(wire::u16_at(bytes, 4));
        let row = row_at(&self.rows, at);
        Ok(match kind {
            Kind::Sheet => Table { seen: true, ..self },
            Kind::Outage => {
                let minutes = wire::u32_at(bytes, 10) - wire::u32_at(bytes, 6);
                self.with_row(at, row.with_outage(minutes))
            }
            Kind::Stock => self.with_row(
                at,
                row.with_stock(wire::byte_at(bytes, 6), wire::u32_at(bytes, 7)),
            ),
        })
    }
}
