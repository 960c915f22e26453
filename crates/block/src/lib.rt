// Block strings: whether a value can be written as one, and its text.
#![tactic(auto)]

ghost use Rattle.std.specs.Prelude.{◌≡◌, ◌==◌, ◌||◌, ◌≤◌, length};
ghost use Rattle.meaning.specs.Ascii.{line_feed, quote, backslash};
ghost use Rattle.meaning.specs.Settings.{times};
ghost use Rattle.meaning.specs.Block.{has, can_be_block_string, last_byte, multi_line, three_quotes, escaped_line, lines, block_line, block_lines, block_string};
ghost use Rattle.pen.specs.Wrote.{Wrote};
ghost use Rattle.block.specs.Places.{First, Clear, byte_that, is, is_either, is_text};
ghost use Rattle.block.specs.Text.{between};

use pen::Pen;
use settings::Settings;

// Whether `byte` is among the bytes. There is no early exit, so that many bytes are compared at once.
fn contains(bytes: &[u8], byte: u8) -> bool
    ensures { result ≡ has byte bytes.now }
{
    bytes.iter().fold(false, |seen, b| seen | (*b == byte))
}

// Some place up to which there is no `a` and no `b` from `from` on: sixteen bytes further at a time, while neither is among them.
fn skip_without(value: &[u8], from: usize, a: u8, b: u8) -> usize
    requires { from ≤ length value.now }
    ensures { Clear (byte_that (is_either a b)) value.now from result }
{
    let mut clear = from;
    for part in value[from..].chunks_exact(16) {
        if contains(part, a) || contains(part, b) {
            break;
        }
        clear += part.len();
    }
    clear
}

// The first `a` or `b` from `from` on, or the end.
#[inline(always)]
fn find_either(value: &[u8], from: usize, a: u8, b: u8) -> usize
    requires { from ≤ length value.now }
    ensures { First (byte_that (is_either a b)) value.now from result }
{
    let start = skip_without(value, from, a, b);
    let rest = &value[start..];
    let run = rest.iter().position(|byte| (*byte == a) | (*byte == b));
    start + run.unwrap_or(rest.len())
}

// The first `byte` from `from` on, or the end.
#[inline(always)]
fn find(value: &[u8], from: usize, byte: u8) -> usize
    requires { from ≤ length value.now }
    ensures { First (byte_that (is byte)) value.now from result }
{
    find_either(value, from, byte, byte)
}

// The first byte from `from` on that is neither space nor tab, or the end.
fn skip_whitespace(value: &[u8], from: usize) -> usize
    requires { from ≤ length value.now }
    ensures { First (byte_that is_text) value.now from result }
{
    let rest = &value[from..];
    let run = rest.iter().position(|byte| !marks::is_blank(*byte));
    from + run.unwrap_or(rest.len())
}

// Whether a block string can have this value: no CR, first and last line not blank, and some line begins with text, since an indent
// that all lines share would not be read back. One pass.
pub fn can_be_block_string(value: &[u8]) -> bool
    ensures { result ≡ can_be_block_string value.now }
{
    let mut unindented = false;
    let mut from = 0;
    // A `loop`: it goes from one line's end to the next, sixteen bytes at a time, and counts nothing. `split` looks at each byte.
    loop {
        let text = skip_whitespace(value, from);
        let end = find_either(value, text, b'\n', b'\r');
        let blank = text == end;
        unindented |= !blank & (text == from);
        if end == value.len() {
            return !blank & unindented;
        }
        if value[end] == b'\r' {
            return false;
        }
        if blank & (from == 0) {
            return false;
        }
        from = end + 1;
    }
}

pub fn contains_newline(value: &[u8]) -> bool
    ensures { result ≡ has line_feed value.now }
{
    contains(value, b'\n')
}

// A quote or a backslash at the end, which would run into the quotes.
fn runs_into_quotes(value: &[u8]) -> bool
    ensures { result ≡ (last_byte value.now == quote || last_byte value.now == backslash) }
{
    match value.last() {
        Some(last) => (*last == b'"') | (*last == b'\\'),
        None => false,
    }
}

// Whether the text takes several lines.
fn multi_line(value: &[u8]) -> bool
    ensures { result ≡ multi_line value.now }
{
    value.len() > 70 || contains_newline(value) || runs_into_quotes(value)
}

// The first three quotes from `from` on, or the end.
fn find_triple_quote(line: &[u8], from: usize) -> usize
    requires { from ≤ length line.now }
    ensures { First three_quotes line.now from result }
{
    let mut quote = find(line, from, b'"');
    // A `while`: it goes from quote to quote, sixteen bytes at a time, and counts nothing.
    while quote < line.len() && !marks::three_quotes(line, quote) {
        quote = find(line, quote + 1, b'"');
    }
    quote
}

// The bytes of a line, with a backslash before each three quotes.
#[inline(always)]
fn serialize_line(line: &[u8], pen: &mut Pen)
    ensures { Wrote pen.old (escaped_line line.now) pen.new }
{
    let mut from = 0;
    // A `loop`: it goes from one three quotes to the next, and counts nothing.
    loop {
        let quotes = find_triple_quote(line, from);
        pen.write(&line[from..quotes]);
        if quotes == line.len() {
            return;
        }
        pen.write(b"\\\"\"\"");
        from = quotes + 3;
    }
}

// A line break and the line. An empty line gets no indent, which would be trailing whitespace.
#[inline(always)]
fn write_line(line: &[u8], settings: &Settings, pen: &mut Pen)
    ensures { Wrote pen.old (block_line (times settings.now.level settings.now.prefix.now) line.now) pen.new }
{
    if line.is_empty() {
        pen.write_byte(b'\n');
    } else {
        settings.line_break(pen);
        serialize_line(line, pen);
    }
}

// Each line on a line of its own. `split`, which looks at each byte, was tried: prose as a block then takes a quarter longer.
fn write_lines(value: &[u8], settings: &Settings, pen: &mut Pen)
    ensures { Wrote pen.old (block_lines (times settings.now.level settings.now.prefix.now) (lines value.now)) pen.new }
{
    let mut from = 0;
    loop {
        let end = find(value, from, b'\n');
        write_line(&value[from..end], settings, pen);
        if end == value.len() {
            return;
        }
        from = end + 1;
    }
}

// What stands between the quotes.
fn write_between(value: &[u8], settings: &Settings, pen: &mut Pen)
    ensures { Wrote pen.old (between (times settings.now.level settings.now.prefix.now) value.now) pen.new }
{
    if multi_line(value) {
        write_lines(value, settings, pen);
        settings.line_break(pen);
    } else {
        serialize_line(value, pen);
    }
}

// `"""example"""`, or each line on a line of its own between the quotes.
pub fn write_block_string(value: &[u8], settings: &Settings, pen: &mut Pen)
    ensures { Wrote pen.old (block_string (times settings.now.level settings.now.prefix.now) value.now) pen.new }
{
    pen.write(b"\"\"\"");
    write_between(value, settings, pen);
    pen.write(b"\"\"\"");
}
