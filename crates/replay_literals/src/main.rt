// Replays the vectors of string literals, which come on standard input: each value is printed and compared with the text that
// stands beside it, and each text is read back. It writes what was counted, and the first line that fails.
#![tactic(auto)]

use meaning::{Form, Offset, Refusal};
use settings::Settings;
use std::{fmt, io};
use vector_lines::Faults;

// Stands in no UTF-8 text, so that a byte that is written shows.
const GUARD: u8 = 0xff;

// A value, how it is printed, and the text that it must give.
#[derive(Clone, Copy)]
struct Literal<'a> {
    is_description: bool,
    settings: Settings<'a>,
    value: &'a [u8],
    text: &'a [u8],
}

// What went well.
#[derive(Clone, Copy)]
struct Tried {
    printed: bool,
    refused: bool,
    kept: bool,
    read: bool,
}

#[derive(Clone, Copy, Default)]
struct Tally {
    literals: u64,
    printed: u64,
    refused: u64,
    kept: u64,
    read: u64,
    faults: Faults,
}

impl Literal<'_> {
    // Prints into the first `room` bytes of `out`, once all hold the guard.
    fn print(&self, out: &mut [u8], room: usize) -> Result<Offset, Refusal> {
        vector_lines::fill(out, GUARD);
        let n = room.min(out.len());
        literal::print_literal(
            self.value,
            self.is_description,
            &self.settings,
            &mut out[..n],
        )
    }

    // With this room it is printed, and the bytes past it stay.
    fn prints(&self, out: &mut [u8], room: usize) -> bool {
        self.print(out, room) == Ok(Offset(self.text.len()))
            && vector_lines::is_filled_past(out, self.text, GUARD)
    }

    // With a byte less than the text takes it is refused with the length that it takes, and no byte changes.
    fn refuses(&self, out: &mut [u8]) -> bool {
        let n = self.text.len();
        n != 0
            && self.print(out, n - 1) == Err(Refusal::Room(Offset(n)))
            && vector_lines::is_filled(out, GUARD)
    }

    // With more room it is printed too.
    fn keeps(&self, out: &mut [u8]) -> bool {
        let room = out.len();
        self.text.len() < room && self.prints(out, room)
    }

    // A block string has six quotes at least.
    fn form(&self) -> Form {
        if self.text.len() >= 6 && self.text.starts_with(b"\"\"\"") {
            Form::Block
        } else {
            Form::Quoted
        }
    }

    // The text reads back as the value, in its form, and the bytes past it stay.
    fn reads(&self, out: &mut [u8]) -> bool {
        vector_lines::fill(out, GUARD);
        let read = reader::read_literal(self.text, out);
        read == Ok((self.form(), Offset(self.value.len())))
            && vector_lines::is_filled_past(out, self.value, GUARD)
    }

    fn try_all(&self) -> Tried {
        let mut out = [0u8; 65536];
        Tried {
            printed: self.prints(&mut out, self.text.len()),
            refused: self.refuses(&mut out),
            kept: self.keeps(&mut out),
            read: self.reads(&mut out),
        }
    }
}

// A literal's line has six fields: description or string, breaks, level, prefix, value and text. Fixed memory, no heap: each goes into
// bytes or words lent for it.
fn try_line(line: &[u8]) -> Option<Tried> {
    if vector_lines::count(line, b' ') != 5 {
        return None;
    }
    let is_description = vector_lines::chosen(vector_lines::field(line, 0), b's', b'd')?;
    let breaks = vector_lines::chosen(vector_lines::field(line, 1), b'0', b'1')?;
    let level = vector_lines::decimal(vector_lines::field(line, 2))?;
    let mut prefix = [0u8; 64];
    let p = vector_lines::bytes(vector_lines::field(line, 3), &mut prefix)?;
    let mut value = [0u8; 4096];
    let v = vector_lines::bytes(vector_lines::field(line, 4), &mut value)?;
    let mut text = [0u8; 65536];
    let t = vector_lines::bytes(vector_lines::field(line, 5), &mut text)?;
    let settings = Settings {
        breaks,
        prefix: vector_lines::front(&prefix, p),
        level,
    };
    let literal = Literal {
        is_description,
        settings,
        value: vector_lines::front(&value, v),
        text: vector_lines::front(&text, t),
    };
    Some(literal.try_all())
}

impl Tally {
    fn literal(&mut self, tried: Tried) {
        self.literals = self.literals.wrapping_add(1);
        self.printed = self.printed.wrapping_add(u64::from(tried.printed));
        self.refused = self.refused.wrapping_add(u64::from(tried.refused));
        self.kept = self.kept.wrapping_add(u64::from(tried.kept));
        self.read = self.read.wrapping_add(u64::from(tried.read));
        if !(tried.printed && tried.refused && tried.kept && tried.read) {
            self.faults.fail();
        }
    }

    fn line(&mut self, line: &[u8]) {
        self.faults.begin_line();
        if line.starts_with(b"#") {
            return;
        }
        match try_line(line) {
            Some(tried) => self.literal(tried),
            None => self.faults.damage(),
        }
    }
}

impl fmt::Display for Tally {
    fn fmt<W: fmt::Write>(&self, f: &mut fmt::Formatter<W>) -> fmt::Result {
        let Tally {
            literals,
            printed,
            refused,
            kept,
            read,
            faults,
        } = self;
        write!(
            f,
            "{literals} literals: {printed} printed, {refused} refused one byte short, "
        )?;
        write!(
            f,
            "{kept} kept the bytes past them, {read} read back\n{faults}"
        )
    }
}

// As in the other replay but for the tally: shared, it would take a closure that changes the tally, and be no shorter.
fn replay(input: &[u8]) -> Tally {
    let mut tally = Tally::default();
    for line in input.split_inclusive(|b| *b == b'\n') {
        tally.line(line.strip_suffix(b"\n").unwrap_or(line));
    }
    tally
}

fn main(rt: HostRuntime) -> io::Result<()> {
    let mut input = [0u8; 262144];
    let n = input::read_full(&mut rt.reader(), &mut input)?;
    if n == 262144 {
        return rt.write_all(b"the vectors do not fit\n");
    }
    let tally = replay(&input[..n]);
    print!(rt; "{tally}")
}
