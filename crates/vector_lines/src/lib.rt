// Lines of stored vectors: fields apart by one space, numbers in decimal, words by commas, bytes in hex. No public function requires
// anything; what is not of this shape is refused.
#![tactic(auto)]

ghost use Rattle.std.specs.Prelude.{◌≡◌, true, Some, None, cond, ◌++◌, ◌+◌, ◌≤◌, ◌<◌, ◌==◌, length, get_or, take, drop, replicate};
ghost use Rattle.std.specs.List.{position_or_len};
ghost use Rattle.vector_lines.specs.Parts.{before, field_of, count_of, Past};
ghost use Rattle.vector_lines.specs.Hex.{digit_of, is_hex, all_hex, paired, pairs, is_none, decoded};
ghost use Rattle.vector_lines.specs.Numbers.{number_of};
ghost use Rattle.vector_lines.specs.Words.{is_word, word_of, are_words, words_of, listed};
ghost use Rattle.vector_lines.specs.Throughout.{all_are, begins_then};
ghost use Rattle.vector_lines.specs.Letters.{chosen};

mod faults;

pub use faults::Faults;

// What stands from a place on; nothing, past the end.
fn behind(s: &[u8], from: usize) -> &[u8]
    ensures { result.now ≡ drop from s.now }
{
    &s[from.min(s.len())..]
}

// The place of the first `stop`, or the length.
fn place(s: &[u8], stop: u8) -> usize
    ensures first { result ≡ position_or_len (λ b. b == stop) s.now }
    ensures within { result ≤ length s.now }
{
    s.iter().position(|b| *b == stop).unwrap_or(s.len())
}

// What stands from `from` on, up to the next `stop`: a line up to its LF, a field up to its space.
pub fn part(s: &[u8], from: usize, stop: u8) -> &[u8]
    ensures { result.now ≡ before stop (drop from s.now) }
{
    let rest = behind(s, from);
    &rest[..place(rest, stop)]
}

// The place past the next `stop`, or the length.
pub fn past(s: &[u8], from: usize, stop: u8) -> usize
    ensures { Past s.now from stop result }
{
    let rest = behind(s, from);
    let end = s.len() - rest.len() + place(rest, stop);
    if end < s.len() { end + 1 } else { s.len() }
}

// The field of this number, from 0 on; nothing where the line has no such field. By place, here and below, since what `part` and `past` say is
// what a field is.
pub fn field(line: &[u8], number: usize) -> &[u8]
    ensures { result.now ≡ field_of number line.now }
{
    let mut at = 0;
    for _ in 0..number {
        at = past(line, at, b' ');
    }
    part(line, at, b' ')
}

// How often `byte` stands in `s`.
pub fn count(s: &[u8], byte: u8) -> usize
    ensures { result ≡ count_of byte s.now }
{
    s.iter().filter(|b| **b == byte).count()
}

// What a hex digit stands for. Not `to_digit`, which takes capitals too.
#[tactic(auto, unfolding(crate::specs::Hex::digit_of))]
fn digit(b: u8) -> Option<u8>
    ensures { result ≡ cond (is_hex b) (Some (digit_of b)) None }
{
    match b {
        b'0'..=b'9' => Some(b - b'0'),
        b'a'..=b'f' => Some(b - b'a' + 10),
        _ => None,
    }
}

// The number that a text is, below 10^18, so that every digit fits.
pub fn decimal(s: &[u8]) -> Option<usize>
    ensures { result ≡ number_of s.now }
{
    if s.is_empty() {
        return None;
    }
    let mut n = 0;
    for b in s {
        let d = usize::from(digit(*b)?);
        if 10 <= d || 100_000_000_000_000_000 <= n {
            return None;
        }
        n = 10 * n + d;
    }
    Some(n)
}

fn are_hex(s: &[u8]) -> bool
    ensures { result ≡ all_hex s.now }
{
    s.iter().all(|b| digit(*b).is_some())
}

#[tactic(auto, unfolding(crate::specs::Hex::paired))]
fn is_paired(s: &[u8]) -> bool
    ensures { result ≡ paired s.now }
{
    !s.is_empty() && s.len() % 2 == 0 && are_hex(s)
}

// The byte that the pair of digits of this number stands for.
fn pair(s: &[u8], number: usize) -> u8
    requires { (paired s.now ≡ true) × (number < length (pairs s.now)) }
    ensures { result ≡ get_or (pairs s.now) number 0 }
{
    let high = digit(s[2 * number]).unwrap();
    let low = digit(s[2 * number + 1]).unwrap();
    16 * high + low
}

fn store_pairs(s: &[u8], out: &mut [u8])
    requires { (paired s.now ≡ true) × (length (pairs s.now) ≤ length out.old) }
    ensures { out.new ≡ pairs s.now ++ drop (length (pairs s.now)) out.old }
{
    for (i, byte) in out[..s.len() / 2].iter_mut().enumerate() {
        *byte = pair(s, i);
    }
}

// `-` alone stands for no bytes.
#[tactic(auto, unfolding(crate::specs::Hex::is_none))]
fn is_none(s: &[u8]) -> bool
    ensures { result ≡ is_none s.now }
{
    matches!(s, [b'-'])
}

// The bytes that hex digits stand for, into `out`, and how many they are; where they are none, or have no room, nothing is stored.
#[tactic(auto, using(crate::proofs::Hex::pairs_length), unfolding(crate::specs::Hex::decoded, crate::specs::Hex::stored))]
pub fn bytes(s: &[u8], out: &mut [u8]) -> Option<usize>
    ensures { (result, out.new) ≡ decoded s.now out.old }
{
    if is_none(s) {
        return Some(0);
    }
    let n = s.len() / 2;
    if !is_paired(s) || out.len() < n {
        return None;
    }
    store_pairs(s, out);
    Some(n)
}

fn word(s: &[u8]) -> Option<u32>
    ensures { result ≡ cond (is_word s.now) (Some (word_of s.now)) None }
{
    u32::try_from(decimal(s)?).ok()
}

fn is_word(s: &[u8]) -> bool
    ensures { result ≡ is_word s.now }
{
    word(s).is_some()
}

// Whether the first `n` parts between commas are words.
fn are_words(s: &[u8], n: usize) -> bool
    ensures { result ≡ are_words n s.now }
{
    let mut at = 0;
    for _ in 0..n {
        if !is_word(part(s, at, b',')) {
            return false;
        }
        at = past(s, at, b',');
    }
    true
}

fn store_words(s: &[u8], n: usize, out: &mut [u32])
    requires { (are_words n s.now ≡ true) × (n ≤ length out.old) }
    ensures { out.new ≡ words_of n s.now ++ drop n out.old }
{
    let mut at = 0;
    for stored in out[..n].iter_mut() {
        *stored = word(part(s, at, b',')).unwrap();
        at = past(s, at, b',');
    }
}

// The words that stand in decimal, apart by commas, into `out`, and how many they are; where they are none, or have no room, nothing is
// stored.
#[tactic(auto, unfolding(crate::specs::Words::listed))]
pub fn words(s: &[u8], out: &mut [u32]) -> Option<usize>
    ensures { (result, out.new) ≡ listed s.now out.old }
{
    if is_none(s) {
        return Some(0);
    }
    let commas = count(s, b',');
    if out.len() <= commas || !are_words(s, commas + 1) {
        return None;
    }
    store_words(s, commas + 1, out);
    Some(commas + 1)
}

// The first `n` elements, or all where there are fewer.
pub fn front<T>(s: &[T], n: usize) -> &[T]
    ensures { result.now ≡ take n s.now }
{
    &s[..n.min(s.len())]
}

// Stores `byte` throughout.
pub fn fill(out: &mut [u8], byte: u8)
    ensures { out.new ≡ replicate (length out.old) byte }
{
    out.fill(byte);
}

// Whether `s` holds `byte` throughout. There is no early exit, so that many bytes are compared at once.
pub fn is_filled(s: &[u8], byte: u8) -> bool
    ensures { result ≡ all_are byte s.now }
{
    s.iter().fold(true, |same, b| same & (*b == byte))
}

// Whether `s` begins with these bytes and holds `byte` past them.
pub fn is_filled_past(s: &[u8], bytes: &[u8], byte: u8) -> bool
    ensures { result ≡ begins_then bytes.now byte s.now }
{
    s.starts_with(bytes) && is_filled(&s[bytes.len()..], byte)
}

// Which of two letters a field is: whether it is the second.
pub fn chosen(field: &[u8], first: u8, second: u8) -> Option<bool>
    ensures { result ≡ chosen first second field.now }
{
    match field {
        [b] if *b == first => Some(false),
        [b] if *b == second => Some(true),
        _ => None,
    }
}
