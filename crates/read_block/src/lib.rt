// Reads one block string straight from its source: no line is copied before it is written.
#![tactic(auto)]

ghost use Rattle.std.specs.Prelude.{◌≡◌, ◌++◌, ◌+◌, ◌≤◌, ◌<◌, false, slice_index, IsTrue, MatchOption, min, length, take, drop};
ghost use Rattle.meaning.specs.Block.{indent, common_indent, block_string_value};
ghost use Rattle.meaning.specs.Reading.{block_form, value, block_front, characters, as_block};
ghost use Rattle.meaning.specs.Answers.{reading_answer};
ghost use Rattle.meaning.specs.Entries.{read_of};
ghost use Rattle.pen.specs.Wrote.{Wrote};
ghost use Rattle.read_block_laws.specs.Unescaped.{escapes, unescaped};
ghost use Rattle.read_block_laws.specs.Closing.{closed};
ghost use Rattle.read_block_laws.specs.FirstLine.{is_line_end, line_length, lines_of};
ghost use Rattle.read_block_laws.specs.Outdented.{number_of};
ghost use Rattle.read_block_laws.specs.TrimmedFront.{StartsAt};
ghost use Rattle.read_block_laws.specs.TrimmedEnd.{is_white, EndsAt};
ghost use Rattle.read_block_laws.specs.LeastIndent.{with_line};
ghost use Rattle.read_block_laws.specs.Text.{stops, run_length, end_length, text_of};
ghost use Rattle.read_block_laws.specs.Plain.{is_mark, marked, Plain};
ghost use Rattle.read_block.specs.Before.{CountsBefore};
ghost use Rattle.read_block.specs.Indent.{indent_seen};
ghost use Rattle.read_block.specs.White.{WhitePast};

use meaning::{Form, Offset, Refusal};
use pen::Pen;

#[tactic(auto, unfolding(read_block_laws::specs::FirstLine::is_line_end))]
fn is_line_end(b: u8) -> bool
    ensures { result ≡ is_line_end b }
{
    matches!(b, b'\n' | b'\r')
}

#[tactic(auto, unfolding(read_block_laws::specs::TrimmedEnd::is_white))]
fn is_white(b: u8) -> bool
    ensures { result ≡ is_white b }
{
    is_line_end(b) || marks::is_blank(b)
}

// `\"""` stands at the front.
#[tactic(auto, unfolding(read_block_laws::specs::Unescaped::escapes, meaning::specs::Block::three_quotes))]
fn is_escape(s: &[u8]) -> bool
    ensures value { result ≡ escapes s.now }
    ensures long { IsTrue result → 4 ≤ length s.now }
{
    matches!(s, [b'\\', b'"', b'"', b'"', ..])
}

// LF, CR, a quote or a backslash. Nothing branches, so that sixteen bytes are tested at once.
#[tactic(auto, unfolding(read_block_laws::specs::Plain::is_mark))]
fn is_mark(b: u8) -> bool
    ensures { result ≡ is_mark b }
{
    (b == b'\n') | (b == b'\r') | (b == b'"') | (b == b'\\')
}

// A mark is among the sixteen bytes.
fn has_mark(stride: &[u8; 16]) -> bool
    ensures { result ≡ marked stride.now }
{
    stride.iter().fold(false, |found, b| found | is_mark(*b))
}

// How many bytes at the front are passed over sixteen at a time: there is no mark among them.
fn plain_length(s: &[u8]) -> usize
    ensures { Plain s.now 0 result }
{
    let (strides, _) = s.as_chunks::<16>();
    16 * strides
        .iter()
        .take_while(|stride| !has_mark(stride))
        .count()
}

// How many bytes stand before the first that the test names, which may name marks alone.
fn length_before<F: Fn(u8) -> bool>(s: &[u8], ends: F) -> usize
    requires { F.IsAlwaysCallable ends }
    ensures { CountsBefore s.now (F.post ends) result }
{
    let plain = plain_length(s);
    plain + s[plain..].iter().take_while(|b| !ends(**b)).count()
}

// How many bytes stand before the first mark.
fn marks_behind(s: &[u8]) -> usize
    ensures { Plain s.now 0 result }
{
    length_before(s, is_mark)
}

// The first three quotes that are not escaped are the last three bytes.
fn is_closed(s: &[u8]) -> bool
    ensures { result ≡ closed s.now }
{
    let mut rest = s;
    loop {
        rest = &rest[marks_behind(rest)..];
        match rest {
            [] => return false,
            _ if marks::three_quotes(rest, 0) => return rest.len() == 3,
            _ if is_escape(rest) => rest = &rest[4..],
            _ => rest = &rest[1..],
        }
    }
}

// How many spaces and tabs stand at the front.
fn indent(s: &[u8]) -> usize
    ensures value { result ≡ indent s.now }
    ensures within { result ≤ length s.now }
{
    s.iter().take_while(|b| marks::is_blank(**b)).count()
}

// How many bytes stand before the first line end.
fn line_length(s: &[u8]) -> usize
    ensures value { result ≡ line_length s.now }
    ensures within { result ≤ length s.now }
{
    length_before(s, is_line_end)
}

// Where the first line that is not blank starts; the end where there is none.
fn text_start(s: &[u8]) -> usize
    ensures { StartsAt s.now result }
{
    let mut start = 0;
    // A `loop` over places: where the text starts is what is asked for. It goes from line to line.
    loop {
        let text = start + indent(&s[start..]);
        match s.get(text) {
            Some(b) if is_line_end(*b) => start = text + 1,
            Some(_) => return start,
            None => return text,
        }
    }
}

// The last byte that is neither a blank nor a line end.
fn last_of_text(s: &[u8]) -> Option<usize>
    ensures { MatchOption result (WhitePast s.now 0)
        (λ last. last < length s.now × is_white (slice_index s.now last) ≡ false × WhitePast s.now (last + 1)) }
{
    s.iter().rposition(|b| !is_white(*b))
}

// Where the last line that is not blank ends; the start where there is none.
fn text_end(s: &[u8]) -> usize
    ensures { EndsAt s.now result }
{
    match last_of_text(s) {
        Some(last) => last + 1 + line_length(&s[last + 1..]),
        None => 0,
    }
}

// The least indent seen, with a line of so many blanks and so many bytes behind them. A line of blanks alone does not count.
#[tactic(auto, unfolding(read_block_laws::specs::LeastIndent::with_line, meaning::specs::Block::lesser))]
fn with_line(seen: Option<usize>, blanks: usize, others: usize) -> Option<usize>
    ensures { indent_seen result ≡ with_line blanks (blanks + others) (indent_seen seen) }
{
    if others == 0 {
        return seen;
    }
    Some(seen.map_or(blanks, |n| n.min(blanks)))
}

// The least indent of the lines that are not blank; 0 where all are.
fn common_indent(s: &[u8]) -> usize
    ensures { result ≡ number_of (common_indent (lines_of s.now)) }
{
    let mut least = None;
    let mut rest = s;
    loop {
        let (blanks, text) = rest.split_at(indent(rest));
        let (line, behind) = text.split_at(line_length(text));
        least = with_line(least, blanks.len(), line.len());
        match behind {
            [] => return least.unwrap_or(0),
            [_, others @ ..] => rest = others,
        }
    }
}

// At most `n` blanks are passed over.
fn past_indent(s: &[u8], n: usize) -> &[u8]
    ensures { result.now ≡ drop (min n (indent s.now)) s.now }
{
    &s[n.min(indent(s))..]
}

// A line end or an escape stands at the front.
#[tactic(auto, unfolding(read_block_laws::specs::Text::stops))]
fn stops(s: &[u8]) -> bool
    ensures { result ≡ stops s.now }
{
    match s {
        [b, ..] => is_line_end(*b) || is_escape(s),
        [] => false,
    }
}

// How many bytes at the front stand for themselves.
fn run_length(s: &[u8]) -> usize
    ensures value { result ≡ run_length s.now }
    ensures within { result ≤ length s.now }
{
    // By place, since `stops` looks at the four bytes from each; with `find` over the same places the proof did not close.
    for i in plain_length(s)..s.len() {
        if stops(&s[i..]) {
            return i;
        }
    }
    s.len()
}

// Behind the line end at the front; CR LF is one.
#[tactic(auto, unfolding(read_block_laws::specs::Text::end_length))]
fn past_line_end(s: &[u8]) -> &[u8]
    ensures { result.now ≡ drop (end_length s.now) s.now }
{
    match s {
        [b'\r', b'\n', rest @ ..] => rest,
        [_, rest @ ..] => rest,
        [] => s,
    }
}

// The source, unescaped, each line end a line feed, and each later line less at most `n` blanks.
fn write_text(pen: &mut Pen, text: &[u8], n: usize)
    ensures { Wrote pen.old (text_of n text.now) pen.new }
{
    let mut rest = text;
    loop {
        let (run, others) = rest.split_at(run_length(rest));
        pen.write(run);
        match others {
            [] => return,
            _ if is_escape(others) => {
                pen.write(b"\"\"\"");
                rest = &others[4..];
            }
            _ => {
                pen.write_byte(b'\n');
                rest = past_indent(past_line_end(others), n);
            }
        }
    }
}

// Stores what `write_text` writes as far as there is room, and answers its length.
fn store(text: &[u8], n: usize, out: &mut [u8]) -> usize
    ensures length { result ≡ length (text_of n text.now) }
    ensures stored { let t = text_of n text.now in length t ≤ length out.old → out.new ≡ t ++ drop (length t) out.old }
{
    let mut pen = Pen::over(out);
    write_text(&mut pen, text, n);
    pen.at.0
}

// Writes the text where there is room. It is measured first, unless its length shows that it fits.
fn write_value(text: &[u8], n: usize, out: &mut [u8]) -> Result<(Form, Offset), Refusal>
    ensures { ((reading_answer result).0, (reading_answer result).1, out.new)
        ≡ read_of (value block_form (text_of n text.now)) out.old }
{
    if out.len() < text.len() {
        let needed = store(text, n, &mut []);
        if out.len() < needed {
            return Err(Refusal::Room(Offset(needed)));
        }
    }
    Ok((Form::Block, Offset(store(text, n, out))))
}

// The source between the quotes.
fn read_source(s: &[u8], out: &mut [u8]) -> Result<(Form, Offset), Refusal>
    ensures { ((reading_answer result).0, (reading_answer result).1, out.new)
        ≡ read_of (value block_form (block_string_value (unescaped s.now))) out.old }
{
    let start = text_start(s);
    let rest = &s[start..];
    let text = &rest[..text_end(rest)];
    if start == 0 {
        let n = common_indent(&text[line_length(text)..]);
        return write_value(text, n, out);
    }
    let n = common_indent(text);
    write_value(past_indent(text, n), n, out)
}

// Reads a text that begins with three quotes as one block string into `out`.
pub fn read_block(text: &[u8], out: &mut [u8]) -> Result<(Form, Offset), Refusal>
    ensures { ((reading_answer result).0, (reading_answer result).1, out.new)
        ≡ read_of (as_block (characters block_front 0 (drop 3 text.now))) out.old }
{
    let Some(s) = text.get(3..) else {
        return Err(Refusal::Literal);
    };
    if !is_closed(s) {
        return Err(Refusal::Literal);
    }
    read_source(&s[..s.len() - 3], out)
}
