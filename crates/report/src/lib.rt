// The year report's text.
#![tactic(auto)]

ghost use Rattle.std.specs.Prelude.{◌≡◌};
ghost use Rattle.text.specs.Text.{pushed_all};
ghost use Rattle.report.specs.Report.{figure_text, level_word, set_word, name_text, line_text, year_text, head_text, lines_text, told, report_of};

use codes::Set;
use decimal::Decimal;
use index::{Index, Level};
use ledger::Ledger;
use refusals::Refusal;
use text::Text;

// A figure with two decimals, or - where it is refused.
fn with_figure(t: Text, s: Result<Decimal, Refusal>) -> Text
    ensures { result ≡ pushed_all t (figure_text s) }
{
    match s {
        Ok(d) => t.with_number(d.whole).with_byte(b'.').with_two(d.digits),
        Err(_) => t.with_byte(b'-'),
    }
}

fn with_level(t: Text, level: Level) -> Text
    ensures { result ≡ pushed_all t (level_word level) }
{
    match level {
        Level::NN => t.with_words(b"NN"),
        Level::VN => t.with_words(b"VN"),
        Level::VVN => t.with_words(b"VVN"),
        Level::Network => t.with_words(b"SYS"),
    }
}

fn with_set(t: Text, set: Set) -> Text
    ensures { result ≡ pushed_all t (set_word set) }
{
    match set {
        Set::All => t.with_words(b"all"),
        Set::Std => t.with_words(b"std"),
        Set::Unnamed => t.with_words(b"std"),
    }
}

// A space, and an index with two decimals.
fn with_index(t: Text, ledger: Ledger, index: Index, level: Level, set: Set) -> Text
    ensures { result ≡ Rattle.report.specs.Report.with_index t ledger index level set }
{
    with_figure(
        t.with_byte(b' '),
        index::decimal_of(ledger, index, level, set, 2),
    )
}

// What a line begins with: level and set.
pub fn with_name(t: Text, level: Level, set: Set) -> Text
    ensures { result ≡ pushed_all t (name_text level set) }
{
    with_set(with_level(t, level).with_byte(b' '), set)
}

// One line: level, set, SAIFI, SAIDI, CAIDI.
fn with_line(t: Text, ledger: Ledger, level: Level, set: Set) -> Text
    ensures { result ≡ pushed_all t (line_text ledger level set) }
{
    let a = with_name(t, level, set);
    let b = with_index(a, ledger, Index::Saifi, level, set);
    let c = with_index(b, ledger, Index::Saidi, level, set);
    with_index(c, ledger, Index::Caidi, level, set).with_byte(b'\n')
}

// The first line: year, accepted events, short events, refused records.
pub fn with_head(t: Text, ledger: Ledger, refused: u64) -> Text
    ensures { result ≡ pushed_all t (head_text ledger refused) }
{
    let sheet = ledger.sheet;
    let a = with_year(t.with_words(b"year "), sheet.there, sheet.year);
    let b = a.with_words(b" events ").with_number(ledger.events as u64);
    let c = b.with_words(b" short ").with_number(ledger.short as u64);
    c.with_words(b" refused ")
        .with_number(refused)
        .with_byte(b'\n')
}

// The year, or - without a sheet.
fn with_year(t: Text, there: bool, year: u16) -> Text
    ensures { result ≡ pushed_all t (year_text there year) }
{
    if there {
        return t.with_number(year as u64);
    }
    t.with_byte(b'-')
}

// The eight lines of figures: of each set the levels, then the network.
fn with_lines(t: Text, ledger: Ledger) -> Text
    ensures { result ≡ pushed_all t (lines_text ledger) }
{
    let mut lines = t;
    for set in [Set::All, Set::Std] {
        for level in [Level::NN, Level::VN, Level::VVN, Level::Network] {
            lines = with_line(lines, ledger, level, set);
        }
    }
    lines
}

// The report of a ledger with so many refused records: 1 for an unsound ledger.
pub fn report_of(ledger: Ledger, refused: u64) -> Result<Text, Refusal>
    ensures { told result ≡ report_of ledger refused }
{
    if !ledger.sound() {
        return Err(Refusal::Unsound);
    }
    let head = with_head(Text::empty(), ledger, refused);
    if ledger.sheet.there {
        return Ok(with_lines(head, ledger));
    }
    Ok(head)
}
