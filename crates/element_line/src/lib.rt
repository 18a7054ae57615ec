// A line of the element sheet: code, name, outages, what the rate is per, the rate and the mean outage, each as an exact fraction and with six digits, parted
// by tabs; and the heading over the lines.
#![tactic(auto)]

ghost use Rattle.std.specs.Prelude.{◌≡◌};
ghost use Rattle.text.specs.Text.{text_of, pushed_all};
ghost use Rattle.element_line.specs.Listing.{fraction_text, six_text, figure_text, per_text, told, line_of, heading_text};

use decimal::Decimal;
use element_table::Table;
use ratio::Fraction;
use refusals::Refusal;
use text::Text;

// A fraction as n/d, or - where it is refused.
fn with_fraction(t: Text, f: Result<Fraction, Refusal>) -> Text
    ensures { result ≡ pushed_all t (fraction_text f) }
{
    match f {
        Ok(x) => t.with_number(x.top).with_byte(b'/').with_number(x.bottom),
        Err(_refusal) => t.with_byte(b'-'),
    }
}

// A figure with six digits after the point, or - where it is refused.
fn with_six(t: Text, s: Result<Decimal, Refusal>) -> Text
    ensures { result ≡ pushed_all t (six_text s) }
{
    match s {
        Ok(d) => t
            .with_number(d.whole)
            .with_byte(b'.')
            .with_two(d.digits / 10000)
            .with_two(d.digits / 100)
            .with_two(d.digits),
        Err(_) => t.with_byte(b'-'),
    }
}

// A figure: a tab, the fraction, a tab, and the digits.
fn with_figure(t: Text, f: Result<Fraction, Refusal>, s: Result<Decimal, Refusal>) -> Text
    ensures { result ≡ pushed_all t (figure_text f s) }
{
    with_six(with_fraction(t.with_byte(b'\t'), f).with_byte(b'\t'), s)
}

// What a rate is per, by the stock's mark: a piece, 100 km of a line, or - where no stock was told.
fn with_per(t: Text, stock: u8) -> Text
    ensures { result ≡ pushed_all t (per_text stock) }
{
    if stock == 0 {
        return t.with_byte(b'-');
    }
    if stock == 2 {
        return t.with_words(b"100 km");
    }
    t.with_words(b"piece")
}

// The line of a code under a name: 1 for an unsound table, 7 for an unknown code.
pub fn line_of(table: Table, code: u16, name: &[u8]) -> Result<Text, Refusal>
    ensures { told result ≡ line_of table code name.now }
{
    if !table.sound() {
        return Err(Refusal::Unsound);
    }
    if !element_codes::is_element(code) {
        return Err(Refusal::Code);
    }
    let row = table.rows[element_codes::row_of(code)];
    let a = Text::empty().with_number(code as u64).with_byte(b'\t');
    let b = a
        .with_words(name)
        .with_byte(b'\t')
        .with_number(row.outages as u64)
        .with_byte(b'\t');
    let c = with_figure(
        with_per(b, row.stock),
        element_rates::rate_of(table, code),
        element_rates::shown_rate(table, code, 6),
    );
    let d = with_figure(
        c,
        element_rates::mean_of(table, code),
        element_rates::shown_mean(table, code, 6),
    );
    Ok(d.with_byte(b'\n'))
}

// The heading of the sheet: what each column is. Means are in hours.
pub fn heading() -> Text
    ensures { result ≡ text_of heading_text }
{
    Text::empty().with_words(
        b"code\telement\toutages\tper\trate\trate, decimal\tmean, h\tmean, decimal\n",
    )
}
