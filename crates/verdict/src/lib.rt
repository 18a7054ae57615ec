// What judging a record comes to: what an accepted one adds to a ledger.
#![tactic(auto)]

ghost use Rattle.std.specs.Prelude.{◌≡◌};
ghost use Rattle.verdict.specs.Verdict.{event_verdict};
ghost use Rattle.verdict.specs.Judged.{accepted_verdict};

use annex::Figures;
use fields::{Head, Sheet};

// What an accepted record does to a ledger: the sheet after it, the number that it marks (0 for none), the events and short events that it adds,
// and its figures with their row.
#[derive(Clone, Copy)]
pub struct Accepted {
    pub sheet: Sheet,
    pub number: u16,
    pub events: u16,
    pub short: u16,
    pub row: u8,
    pub figures: Figures,
}

// What an accepted event adds that ends at a minute, with these figures: a short one adds to no total.
pub fn accept(sheet: Sheet, head: Head, end: u32, figures: Figures) -> Accepted
    ensures { accepted_verdict result ≡ event_verdict sheet head end figures }
{
    let counted = Accepted {
        sheet,
        number: head.number,
        events: 1,
        short: 0,
        row: codes::row_of(head.typ),
        figures,
    };
    if annex::is_short(head.t0, end) {
        return Accepted {
            short: 1,
            figures: Figures::none(),
            ..counted
        };
    }
    counted
}
