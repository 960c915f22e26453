// The quoted form of a string value: what need not be escaped is copied a run at a time, as in `serialize_string_value`.
#![tactic(auto)]

ghost use Rattle.std.specs.Prelude.{◌≡◌, ◌+◌, ◌<◌, drop};
ghost use Rattle.meaning.specs.Quoted.{class, hex_digit, escaped, body, quoted};
ghost use Rattle.pen.specs.Wrote.{Wrote};
ghost use Rattle.quoted.specs.Classes.{classes};
ghost use Rattle.quoted.specs.CleanRun.{clean_run};

use pen::Pen;

// The class of each byte value: 0 stands for itself, any other is the letter after its backslash. A byte each, for speed.
const LETTERS: [u8; 256] = [
    b'u', b'u', b'u', b'u', b'u', b'u', b'u', b'u', b'b', // 08
    0, // 09, tab
    b'n', // 0A, line feed
    b'u', b'f', // 0C
    b'r', // 0D, carriage return
    b'u', b'u', b'u', b'u', b'u', b'u', b'u', b'u', b'u', b'u', b'u', b'u', b'u', b'u', b'u', b'u',
    b'u', b'u', 0, 0, b'"', // 22, quote
    0, 0, 0, 0, 0, 0, 0, 0, 0, 0, 0, 0, 0, 0, 0, 0, 0, 0, 0, 0, 0, 0, 0, 0, 0, 0, 0, 0, 0, 0, 0, 0,
    0, 0, 0, 0, 0, 0, 0, 0, 0, 0, 0, 0, 0, 0, 0, 0, 0, 0, 0, 0, 0, 0, 0, 0, 0, b'\\', // 5C, backslash
    0, 0, 0, 0, 0, 0, 0, 0, 0, 0, 0, 0, 0, 0, 0, 0, 0, 0, 0, 0, 0, 0, 0, 0, 0, 0, 0, 0, 0, 0, 0, 0,
    0, 0, 0, 0, 0, 0, 0, 0, 0, 0, 0, 0, 0, 0, 0, 0, 0, 0, 0, 0, 0, 0, 0, 0, 0, 0, 0, 0, 0, 0, 0, 0,
    0, 0, 0, 0, 0, 0, 0, 0, 0, 0, 0, 0, 0, 0, 0, 0, 0, 0, 0, 0, 0, 0, 0, 0, 0, 0, 0, 0, 0, 0, 0, 0,
    0, 0, 0, 0, 0, 0, 0, 0, 0, 0, 0, 0, 0, 0, 0, 0, 0, 0, 0, 0, 0, 0, 0, 0, 0, 0, 0, 0, 0, 0, 0, 0,
    0, 0, 0, 0, 0, 0, 0, 0, 0, 0, 0, 0, 0, 0, 0, 0, 0, 0, 0, 0, 0, 0, 0, 0, 0, 0, 0, 0, 0, 0, 0, 0,
    0, 0, 0,
];

// The table of classes. A constant is built anew wherever it is used: an entry makes the table once and lends it.
#[derive(Drop)]
pub struct Classes {
    letters: [u8; 256],
    ghost all: { letters ≡ classes },
}

impl Classes {
    pub fn new() -> Classes
        ensures { result.letters ≡ classes }
    {
        Classes { letters: LETTERS }
    }

    #[inline(always)]
    pub fn class_of(&self, b: u8) -> u8
        ensures { result ≡ class b }
    {
        self.letters[usize::from(b)]
    }

    // How many bytes at the front stand for themselves.
    #[inline(always)]
    fn clean_run(&self, value: &[u8]) -> usize
        ensures { result ≡ clean_run value.now }
    {
        value
            .iter()
            .position(|b| self.class_of(*b) != 0)
            .unwrap_or(value.len())
    }

    // The place of the next byte to be escaped, at or after `from`, or the end.
    #[inline(always)]
    pub fn next_escape(&self, value: &[u8], from: usize) -> usize
        ensures { result ≡ from + clean_run (drop from value.now) }
    {
        match value.get(from..) {
            Some(rest) => from + self.clean_run(rest),
            None => from,
        }
    }

    // `\n`, or `\u001F`, written at once.
    #[inline(always)]
    fn write_escape(&self, b: u8, pen: &mut Pen)
        requires { class b ≡ 0 → ⊥ }
        ensures { Wrote pen.old (escaped b) pen.new }
    {
        match self.class_of(b) {
            b'u' => pen.write(&[
                b'\\',
                b'u',
                b'0',
                b'0',
                hex_digit(b / 16),
                hex_digit(b % 16),
            ]),
            letter => pen.write(&[b'\\', letter]),
        }
    }

    // What stands between the quotes.
    #[inline(always)]
    fn write_body(&self, value: &[u8], pen: &mut Pen)
        ensures { Wrote pen.old (body value.now) pen.new }
    {
        let mut own = Pen {
            out: &mut *pen.out,
            at: pen.at,
        };
        let mut from = 0;
        // A `loop`: it goes from one byte to be escaped to the next, and counts nothing.
        loop {
            let escape = self.next_escape(value, from);
            own.write(&value[from..escape]);
            if escape == value.len() {
                break;
            }
            self.write_escape(value[escape], &mut own);
            from = escape + 1;
        }
        pen.at = own.at;
    }

    pub fn write_quoted(&self, value: &[u8], pen: &mut Pen)
        ensures { Wrote pen.old (quoted value.now) pen.new }
    {
        pen.write_byte(b'"');
        self.write_body(value, pen);
        pen.write_byte(b'"');
    }
}

#[inline(always)]
fn hex_digit(n: u8) -> u8
    requires { n < 16 }
    ensures { result ≡ hex_digit n }
{
    if n < 10 { b'0' + n } else { b'A' + (n - 10) }
}
