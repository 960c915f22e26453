// Names and numbers. Each part of a number is a function on a text, and answers what is left behind the part. A part takes all that it
// can: there is nothing to come back to.
#![tactic(auto)]

ghost use Rattle.std.specs.Prelude.{◌≡◌, ◌||◌};
ghost use Rattle.meaning.specs.Text.{is_digit, starts_name, is_name, past_digits, digits, unsigned, integer_part, fractional_part, signed_digits, exponent_part, is_int, is_float};
ghost use Rattle.names.specs.Left.{left};

#[tactic(auto, unfolding(meaning::specs::Text::is_digit))]
fn is_digit(b: u8) -> bool
    ensures { result ≡ is_digit b }
{
    b.is_ascii_digit()
}

#[tactic(auto, unfolding(meaning::specs::Text::starts_name))]
fn starts_name(b: u8) -> bool
    ensures { result ≡ starts_name b }
{
    b == b'_' || b.is_ascii_alphabetic()
}

pub fn goes_on_name(b: u8) -> bool
    ensures { result ≡ (starts_name b || is_digit b) }
{
    starts_name(b) || is_digit(b)
}

#[tactic(auto, unfolding(meaning::specs::Text::is_name))]
pub fn is_name(s: &[u8]) -> bool
    ensures { result ≡ is_name s.now }
{
    match s {
        [first, others @ ..] => starts_name(*first) && others.iter().all(|b| goes_on_name(*b)),
        [] => false,
    }
}

// What stands behind the digits that a text begins with, of which there may be none.
fn past_digits(s: &[u8]) -> &[u8]
    ensures { result.now ≡ past_digits s.now }
{
    let n = s.iter().take_while(|b| is_digit(**b)).count();
    &s[n..]
}

#[tactic(auto, unfolding(meaning::specs::Text::digits))]
fn digits(s: &[u8]) -> Option<&[u8]>
    ensures { left result ≡ digits s.now }
{
    match s {
        [b, rest @ ..] if is_digit(*b) => Some(past_digits(rest)),
        _ => None,
    }
}

// `0`, or digits that do not begin with it
#[tactic(auto, unfolding(meaning::specs::Text::unsigned))]
fn unsigned(s: &[u8]) -> Option<&[u8]>
    ensures { left result ≡ unsigned s.now }
{
    match s {
        [b'0', rest @ ..] => Some(rest),
        _ => digits(s),
    }
}

#[tactic(auto, unfolding(meaning::specs::Text::integer_part))]
fn integer_part(s: &[u8]) -> Option<&[u8]>
    ensures { left result ≡ integer_part s.now }
{
    match s {
        [b'-', rest @ ..] => unsigned(rest),
        _ => unsigned(s),
    }
}

#[tactic(auto, unfolding(meaning::specs::Text::fractional_part))]
fn fractional_part(s: &[u8]) -> Option<&[u8]>
    ensures { left result ≡ fractional_part s.now }
{
    match s {
        [b'.', rest @ ..] => digits(rest),
        _ => None,
    }
}

#[tactic(auto, unfolding(meaning::specs::Text::signed_digits))]
fn signed_digits(s: &[u8]) -> Option<&[u8]>
    ensures { left result ≡ signed_digits s.now }
{
    match s {
        [b'+' | b'-', rest @ ..] => digits(rest),
        _ => digits(s),
    }
}

#[tactic(auto, unfolding(meaning::specs::Text::exponent_part))]
fn exponent_part(s: &[u8]) -> Option<&[u8]>
    ensures { left result ≡ exponent_part s.now }
{
    match s {
        [b'e' | b'E', rest @ ..] => signed_digits(rest),
        _ => None,
    }
}

#[tactic(auto, unfolding(meaning::specs::Text::is_int))]
pub fn is_int(s: &[u8]) -> bool
    ensures { result ≡ is_int s.now }
{
    matches!(integer_part(s), Some([]))
}

// Behind a fractional part an exponent part may stand; where there is none, one must.
#[tactic(auto, unfolding(meaning::specs::Text::is_float, meaning::specs::Text::fractional_part, meaning::specs::Text::exponent_part))]
pub fn is_float(s: &[u8]) -> bool
    ensures { result ≡ is_float s.now }
{
    let Some(whole) = integer_part(s) else {
        return false;
    };
    let Some(fraction) = fractional_part(whole) else {
        return matches!(exponent_part(whole), Some([]));
    };
    fraction.is_empty() || matches!(exponent_part(fraction), Some([]))
}
