// The element sheet: an observation period in years and the names of yearly element files as arguments; the sheet on standard output. The name - means
// standard input, and so does no name at all. Where a file cannot be opened or read to its end there is no sheet: half of the data must not look like all of it.
#![tactic(auto)]

use arrayvec::ArrayVec;
use element_file::Reading;
use element_table::Table;
use std::env::FillError;
use std::fs::File;
use std::io;
use std::io::{Input, Read};
use std::rt::{Env, Files};
use text::Text;

// As many files as one sheet is made of: their refused records are held until the sheet is printed.
const MOST_FILES: usize = 1024;

// The names of 9.8 in the document's words and in its order.
const NAMES: [&str; element_codes::COUNT] = [
    "stožár",
    "vodič",
    "zemnící lano",
    "výstroj",
    "izolátor",
    "kabel",
    "kabelový soubor",
    "pojistka",
    "přípojnice",
    "úsečník",
    "vypínač výkonový",
    "odpínač",
    "odpojovač",
    "jiný spínací přístroj",
    "transformátor VN/NN",
    "transformátor VN/VN",
    "transformátor 110 kV/VN",
    "měřící transformátor",
    "svodič přepětí",
    "kompenzační tlumivka",
    "zařízení pro kompenzaci jalového proudu",
    "reaktor",
    "řídící systémy",
    "ochrany pro vedení a kably",
    "ochrany pro transformátory",
    "vysokofrekvenční vazební prvky",
    "vedení pro pomocná zařízení",
    "stejnosměrný zdroj a rozvod",
    "vlastní spotřeba",
    "výroba a rozvod stlačeného vzduchu",
    "ruční pohon (klasický odpojovač)",
    "ruční pohon se zhášecí komorou (odpínač)",
    "dálkově ovládaný se zhášecí komorou",
    "ostatní",
    "transformátor napětí – induktivní",
    "transformátor napětí – kapacitní",
    "transformátor proudu",
    "transformátor proudu a napětí (kombinovaný)",
    "ventilová bleskojistka",
    "vyfukovací bleskojistka (Torokova trubice)",
    "ochranné jiskřítě",
    "omezovače přepětí",
    "ostatní",
    "paralelní kondenzátor",
    "sériový kondenzátor",
    "kompenzační tlumivka",
    "rotační kompenzátor",
    "nadproudová",
    "distanční",
    "směrová nadproudová",
    "srovnávací s galvanickou vazbou",
    "zemní",
    "relé primární",
    "automatika",
    "ostatní",
    "plynová (Buchholz)",
    "nadproudová",
    "zkratová nadproudová",
    "rozdílová",
    "zemní (kostrová, nádobová)",
    "termokopie (tepelný obraz)",
    "ostatní",
];

// ---- what goes wrong: one line on standard error

// There is no sheet, and why has been told.
#[derive(Drop)]
struct Told;

fn complain(err: &impl Print, what: &[u8], why: &[u8]) {
    let _ = err.write_all(b"element_sheet: ");
    let _ = err.write_all(what);
    let _ = err.write_all(why);
}

// ---- the arguments

// Whether there is such an argument, of any length.
fn has_argument(rt: &impl Env, i: usize) -> bool {
    let mut first = [0u8; 1];
    !matches!(rt.arg(i, &mut first), Err(FillError::NotPresent))
}

// A number in decimal digits. One past 50 is told as some number past 50.
fn number_of(digits: &[u8]) -> Option<u32> {
    if digits.is_empty() || !digits.iter().all(|b| b.is_ascii_digit()) {
        return None;
    }
    let number = digits.iter().fold(0, |number: u32, digit| {
        number
            .saturating_mul(10)
            .saturating_add(u32::from(*digit % 16))
    });
    Some(number)
}

// The table that the first argument begins, which is an observation period. One that is missing or too long is none.
fn table_begun(rt: &impl Env) -> Option<Table> {
    let mut digits = [0u8; 4096];
    let n = rt.arg(1, &mut digits).ok()?;
    Table::begin(number_of(&digits[..n])?).ok()
}

// ---- the sheet

// The table that a sheet tells, and the refused records of each of its files.
#[derive(Drop)]
struct Sheet {
    table: Table,
    refused: ArrayVec<u64, MOST_FILES>,
}

// Where arguments, files and lines come from and go, and where what goes wrong is told.
#[derive(Drop)]
struct Program<'a, R: Env + Files + Input + Print, E: Print> {
    rt: &'a R,
    err: &'a E,
}

impl<'a, R: Env + Files + Input + Print, E: Print> Program<'a, R, E> {
    // ---- its files

    // A file that was opened, and its name.
    fn read_opened(
        &self,
        reader: &mut impl Read,
        name: &[u8],
        table: Table,
    ) -> Result<Reading, Told> {
        match element_input::read_file(reader, table) {
            Ok(read) => Ok(read),
            Err(_) => {
                complain(self.err, name, b" cannot be read\n");
                Err(Told)
            }
        }
    }

    fn read_standard_input(&self, table: Table) -> Result<Reading, Told> {
        self.read_opened(&mut self.rt.reader(), b"standard input", table)
    }

    // A name that is no UTF-8 names no file.
    fn read_named(&self, name: &[u8], table: Table) -> Result<Reading, Told> {
        if let Ok(path) = str::from_utf8(name)
            && let Ok(mut file) = File::open(self.rt, path)
        {
            return self.read_opened(&mut file, name, table);
        }
        complain(self.err, name, b" cannot be opened\n");
        Err(Told)
    }

    // The file that an argument names, or standard input where it is -.
    fn read_argument(&self, i: usize, table: Table) -> Result<Reading, Told> {
        let mut name = [0u8; 4096];
        let Ok(n) = self.rt.arg(i, &mut name) else {
            complain(self.err, b"a file's name", b" is too long\n");
            return Err(Told);
        };
        match &name[..n] {
            b"-" => self.read_standard_input(table),
            name => self.read_named(name, table),
        }
    }

    // The files that the arguments after the period name, or standard input where there are none.
    fn take_files(&self, begun: Table) -> Result<Sheet, Told> {
        let mut table = begun;
        let mut refused = ArrayVec::new();
        if !has_argument(self.rt, 2) {
            let read = self.read_standard_input(table)?;
            refused.push(read.refused);
            return Ok(Sheet {
                table: read.table,
                refused,
            });
        }
        for i in 2..MOST_FILES + 3 {
            if !has_argument(self.rt, i) {
                break;
            }
            if refused.is_full() {
                complain(self.err, b"more than 1,024 files", b" are named\n");
                return Err(Told);
            }
            let read = self.read_argument(i, table)?;
            refused.push(read.refused);
            table = read.table;
        }
        Ok(Sheet { table, refused })
    }

    // ---- its lines

    fn print_text(&self, text: Text) -> io::Result<()> {
        self.rt.write_all(wire::part(&text.bytes, 0, text.len))
    }

    // The whole sheet, up to what cannot be written: a line for each element, and one for the refused records of each file.
    fn print(&self, sheet: &Sheet) -> io::Result<()> {
        self.print_text(element_line::heading())?;
        for (row, name) in NAMES.iter().enumerate() {
            let code = element_codes::code_at(row);
            if let Ok(line) = element_line::line_of(sheet.table, code, name.as_bytes()) {
                self.print_text(line)?;
            }
        }
        self.rt.write_all(b"refused")?;
        for refused in sheet.refused.as_slice() {
            print!(self.rt; " {refused}")?;
        }
        self.rt.write_all(b"\n")
    }
}

fn main(rt: HostRuntime) {
    let err = rt.stderr();
    let Some(table) = table_begun(&rt) else {
        complain(
            &err,
            b"the first word",
            b" is not an observation period: a whole number of years, 1 to 50\n",
        );
        return;
    };
    let program = Program { rt: &rt, err: &err };
    let Ok(sheet) = program.take_files(table) else {
        return;
    };
    if program.print(&sheet).is_err() {
        complain(&err, b"the sheet", b" cannot be written\n");
    }
}
