// The year report: one book on standard input, the report on standard output.
#![tactic(auto)]

use text::Text;

fn main(rt: HostRuntime) {
    let Ok(read) = input::read_book(&mut rt.stdin()) else {
        let _ = eprintln!(rt; "year_report: standard input cannot be read");
        return;
    };
    let text = report::report_of(read.ledger, read.refused).unwrap_or(Text::empty());
    if rt.write_all(wire::part(&text.bytes, 0, text.len)).is_err() {
        let _ = eprintln!(rt; "year_report: the report cannot be written");
    }
}
