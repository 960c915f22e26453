// Reading one quoted string literal: bytes that stand for themselves are copied a run at a time, and each escape is taken apart.
#![tactic(auto)]

ghost use Rattle.std.specs.Prelude.{◌≡◌, ◌<◌, ◌≤◌, IfSome, unwrap_or, length, drop, [], ◌∷◌};
ghost use Rattle.meaning.specs.Utf8.{encoded};
ghost use Rattle.meaning.specs.Reading.{hex_value, unicode_escape, letter_byte, escape as escape_of, quoted_front, characters, as_quoted};
ghost use Rattle.meaning.specs.Answers.{reading_answer};
ghost use Rattle.meaning.specs.Entries.{read_of};
ghost use Rattle.pen.specs.Wrote.{Wrote};
ghost use Rattle.read_quoted.specs.Escapes.{EscapedIs, front_of};
ghost use Rattle.read_quoted.specs.Runs.{plain, plain_run};
ghost use Rattle.read_quoted.specs.Walks.{WalkedIs};
ghost use Rattle.read_quoted.specs.Outcomes.{StoredIs};

use meaning::{Form, Offset, Refusal};
use pen::Pen;
use quoted::Classes;

// The value of a hex digit of either case.
#[tactic(auto, unfolding(meaning::specs::Reading::hex_value))]
fn hex_value(b: u8) -> Option<u32>
    ensures value { unwrap_or result 16 ≡ hex_value b }
    ensures digit { IfSome result (λ n. n < 16) }
{
    char::from(b).to_digit(16)
}

// The character that four hex digits behind `\u` stand for; a surrogate is none.
fn unicode_escape(a: u8, b: u8, c: u8, d: u8) -> Option<char>
    ensures value { front_of result 5 ≡ unicode_escape (a ∷ b ∷ c ∷ d ∷ []) }
    ensures scalar { IfSome result (λ c. c ≤ 0x10FFFF) }
{
    let number = ((hex_value(a)? * 16 + hex_value(b)?) * 16 + hex_value(c)?) * 16 + hex_value(d)?;
    char::from_u32(number)
}

// The character that the letter after a backslash stands for.
#[tactic(auto, unfolding(meaning::specs::Reading::letter_byte))]
fn letter(b: u8) -> Option<char>
    ensures value { unwrap_or result 0 ≡ letter_byte b }
    ensures some { IfSome result (λ c. 0 < c) }
{
    match b {
        b'"' | b'\\' | b'/' => Some(char::from(b)),
        b'b' => Some('\u{8}'),
        b'f' => Some('\u{C}'),
        b'n' => Some('\n'),
        b'r' => Some('\r'),
        b't' => Some('\t'),
        _ => None,
    }
}

// The character that an escape stands for, from the byte after its backslash, and what stands behind it.
fn escape(text: &[u8]) -> Option<(char, &[u8])>
    ensures { EscapedIs text.now (escape_of text.now) result }
{
    match text {
        [b'u', behind @ ..] => {
            let ([a, b, c, d], others) = behind.split_first_chunk::<4>()?;
            Some((unicode_escape(*a, *b, *c, *d)?, others))
        }
        [b, others @ ..] => Some((letter(*b)?, others)),
        [] => None,
    }
}

// An ASCII character goes as a byte, for speed.
fn write_char(c: char, pen: &mut Pen)
    ensures { Wrote pen.old (encoded c) pen.new }
{
    if c.is_ascii() {
        pen.write_byte(c as u8);
    } else {
        pen.write(c.encode_utf8(&mut [0; 4]).as_bytes());
    }
}

// A byte that stands for itself in quoted text, though it may be one that is escaped when written.
#[tactic(auto, unfolding(crate::specs::Runs::plain))]
fn is_plain(b: u8) -> bool
    ensures { result ≡ plain b }
{
    !matches!(b, b'"' | b'\\' | b'\n' | b'\r')
}

// How many bytes at the front stand for themselves.
fn run_length(classes: &Classes, text: &[u8]) -> usize
    ensures value { result ≡ plain_run text.now }
    ensures within { result ≤ length text.now }
{
    let mut end = classes.next_escape(text, 0);
    // A `while`: it goes from one byte that is escaped when written to the next, and counts nothing.
    while let Some(b) = text.get(end) {
        if !is_plain(*b) {
            return end;
        }
        end = classes.next_escape(text, end + 1);
    }
    end
}

// Writes the value of the text behind an opening quote, up to a closing quote that has to end the text.
fn write_value(classes: &Classes, text: &[u8], pen: &mut Pen) -> Option<()>
    ensures { WalkedIs (characters quoted_front 0 text.now) pen.old pen.new result }
{
    let mut rest = text;
    loop {
        let (run, others) = rest.split_at(run_length(classes, rest));
        pen.write(run);
        let (end, behind) = others.split_first()?;
        match end {
            b'"' if behind.is_empty() => return Some(()),
            b'\\' => {
                let (c, others) = escape(behind)?;
                write_char(c, pen);
                rest = others;
            }
            _ => return None,
        }
    }
}

// Stores what `write_value` writes as far as there is room, and answers its length.
fn store(classes: &Classes, text: &[u8], out: &mut [u8]) -> Option<usize>
    ensures { StoredIs (characters quoted_front 0 text.now) out.old out.new result }
{
    let mut pen = Pen::over(out);
    write_value(classes, text, &mut pen)?;
    Some(pen.at.0)
}

// Reads a text that begins with a quote as one quoted string into `out`. It is stored nowhere first, which decides and measures, so
// that a refusal changes no byte.
pub fn read_quoted(
    classes: &Classes,
    text: &[u8],
    out: &mut [u8],
) -> Result<(Form, Offset), Refusal>
    ensures { ((reading_answer result).0, (reading_answer result).1, out.new)
        ≡ read_of (as_quoted (characters quoted_front 0 (drop 1 text.now))) out.old }
{
    let body = text.get(1..).ok_or(Refusal::Literal)?;
    let length = store(classes, body, &mut []).ok_or(Refusal::Literal)?;
    if out.len() < length {
        return Err(Refusal::Room(Offset(length)));
    }
    store(classes, body, out);
    Ok((Form::Quoted, Offset(length)))
}
