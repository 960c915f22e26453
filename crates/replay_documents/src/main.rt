// Replays the vectors of documents, which come on standard input: each table is printed and compared with the text that stands
// beside it. It writes what was counted, and the first line that fails.
#![tactic(auto)]

use meaning::{Offset, Refusal};
use settings::Settings;
use std::{fmt, io};
use table::Table;
use vector_lines::Faults;

// Stands in no UTF-8 text, so that a byte that is written shows.
const GUARD: u8 = 0xff;

// A table, how it is printed, and the text that it must give.
#[derive(Clone, Copy)]
struct Document<'a> {
    settings: Settings<'a>,
    table: Table<'a>,
    text: &'a [u8],
}

// What went well. A text of no bytes has no shorter room, so that it is never refused.
#[derive(Clone, Copy)]
struct Tried {
    empty: bool,
    printed: bool,
    short: bool,
    roomless: bool,
    kept: bool,
}

#[derive(Clone, Copy, Default)]
struct Tally {
    documents: u64,
    empty: u64,
    printed: u64,
    short: u64,
    roomless: u64,
    kept: u64,
    faults: Faults,
}

impl Document<'_> {
    // Prints into the first `room` bytes of `out`, once all hold the guard.
    fn print(&self, out: &mut [u8], room: usize) -> Result<Offset, Refusal> {
        vector_lines::fill(out, GUARD);
        let n = room.min(out.len());
        document::print_document(&self.settings, &self.table, &mut out[..n])
    }

    // With room enough it is printed, and the bytes past it stay.
    fn prints(&self, out: &mut [u8], room: usize) -> bool {
        self.print(out, room) == Ok(Offset(self.text.len()))
            && vector_lines::is_filled_past(out, self.text, GUARD)
    }

    // With less room it is refused with the length that it takes, and no byte changes.
    fn refuses(&self, out: &mut [u8], room: usize) -> bool {
        self.print(out, room) == Err(Refusal::Room(Offset(self.text.len())))
            && vector_lines::is_filled(out, GUARD)
    }

    fn try_all(&self) -> Tried {
        let mut out = [0u8; 16384];
        let n = self.text.len();
        Tried {
            empty: n == 0,
            printed: self.prints(&mut out, n),
            short: self.refuses(&mut out, n.saturating_sub(1)),
            roomless: self.refuses(&mut out, 0),
            kept: self.prints(&mut out, 16384),
        }
    }
}

impl Tried {
    fn is_whole(&self) -> bool {
        self.printed && self.kept && (self.empty || self.short && self.roomless)
    }
}

// A document's line has six fields: breaks, level, prefix, words, pool and text. Fixed memory, no heap: each goes into
// bytes or words lent for it.
fn try_line(line: &[u8]) -> Option<Tried> {
    if vector_lines::count(line, b' ') != 5 {
        return None;
    }
    let breaks = vector_lines::chosen(vector_lines::field(line, 0), b'0', b'1')?;
    let level = vector_lines::decimal(vector_lines::field(line, 1))?;
    let mut prefix = [0u8; 64];
    let p = vector_lines::bytes(vector_lines::field(line, 2), &mut prefix)?;
    let mut words = [0u32; 2048];
    let w = vector_lines::words(vector_lines::field(line, 3), &mut words)?;
    let mut pool = [0u8; 8192];
    let l = vector_lines::bytes(vector_lines::field(line, 4), &mut pool)?;
    let mut text = [0u8; 8192];
    let t = vector_lines::bytes(vector_lines::field(line, 5), &mut text)?;
    let settings = Settings {
        breaks,
        prefix: vector_lines::front(&prefix, p),
        level,
    };
    let table = Table {
        words: vector_lines::front(&words, w),
        pool: vector_lines::front(&pool, l),
    };
    let document = Document {
        settings,
        table,
        text: vector_lines::front(&text, t),
    };
    Some(document.try_all())
}

impl Tally {
    fn document(&mut self, tried: Tried) {
        self.documents = self.documents.wrapping_add(1);
        self.empty = self.empty.wrapping_add(u64::from(tried.empty));
        self.printed = self.printed.wrapping_add(u64::from(tried.printed));
        self.short = self.short.wrapping_add(u64::from(tried.short));
        self.roomless = self.roomless.wrapping_add(u64::from(tried.roomless));
        self.kept = self.kept.wrapping_add(u64::from(tried.kept));
        if !tried.is_whole() {
            self.faults.fail();
        }
    }

    fn line(&mut self, line: &[u8]) {
        self.faults.begin_line();
        if line.starts_with(b"#") {
            return;
        }
        match try_line(line) {
            Some(tried) => self.document(tried),
            None => self.faults.damage(),
        }
    }
}

impl fmt::Display for Tally {
    fn fmt<W: fmt::Write>(&self, f: &mut fmt::Formatter<W>) -> fmt::Result {
        let Tally {
            documents,
            empty,
            printed,
            short,
            roomless,
            kept,
            faults,
        } = self;
        write!(
            f,
            "{documents} documents, {empty} of them empty: {printed} printed, "
        )?;
        write!(
            f,
            "{short} refused one byte short, {roomless} refused with no room, "
        )?;
        write!(f, "{kept} kept the bytes past them\n{faults}")
    }
}

// As in the other replay but for the tally: shared, it would take a closure that changes the tally, and be no shorter.
fn replay(input: &[u8]) -> Tally {
    let mut tally = Tally::default();
    for line in input.split_inclusive(|b| *b == b'\n') {
        tally.line(line.strip_suffix(b"\n").unwrap_or(line));
    }
    tally
}

fn main(rt: HostRuntime) -> io::Result<()> {
    let mut input = [0u8; 524288];
    let n = input::read_full(&mut rt.reader(), &mut input)?;
    if n == 524288 {
        return rt.write_all(b"the vectors do not fit\n");
    }
    let tally = replay(&input[..n]);
    print!(rt; "{tally}")
}
