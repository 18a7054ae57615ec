// The exact figures: one book on standard input, and on standard output each index as the fraction that the formula gives, in lowest terms.
#![tactic(auto)]

use codes::Set;
use index::{Index, Level};
use ledger::Ledger;
use text::Text;

// A space, and a fraction or - where it is refused.
fn with_index(t: Text, ledger: Ledger, index: Index, level: Level, set: Set) -> Text {
    let begun = t.with_byte(b' ');
    match index::index_of(ledger, index, level, set) {
        Ok(f) => begun
            .with_number(f.top)
            .with_byte(b'/')
            .with_number(f.bottom),
        Err(_) => begun.with_byte(b'-'),
    }
}

// One line: level and set, then SAIFI, SAIDI and CAIDI.
fn line(ledger: Ledger, level: Level, set: Set) -> Text {
    let mut line = report::with_name(Text::empty(), level, set);
    for index in [Index::Saifi, Index::Saidi, Index::Caidi] {
        line = with_index(line, ledger, index, level, set);
    }
    line.with_byte(b'\n')
}

// ---- writing: each function answers whether all could be written

fn say(out: &impl Print, t: Text) -> bool {
    out.write_all(wire::part(&t.bytes, 0, t.len)).is_ok()
}

// The eight lines of figures, as in the year report, where there is a sheet.
fn say_figures(out: &impl Print, ledger: Ledger) -> bool {
    let mut written = true;
    if ledger.sheet.there {
        for set in [Set::All, Set::Std] {
            for level in [Level::NN, Level::VN, Level::VVN, Level::Network] {
                written &= say(out, line(ledger, level, set));
            }
        }
    }
    written
}

fn complain(rt: &impl Eprint, why: &str) {
    let _ = eprintln!(rt; "exact_report: {why}");
}

fn main(rt: HostRuntime) {
    let Ok(read) = input::read_book(&mut rt.stdin()) else {
        complain(&rt, "standard input cannot be read");
        return;
    };
    let head = report::with_head(Text::empty(), read.ledger, read.refused);
    if !(say(&rt, head) & say_figures(&rt, read.ledger)) {
        complain(&rt, "the figures cannot be written");
    }
}
