// A look at a short text and at the bytes behind it, always as many, so that the same few wide steps tell of each text.
ghost use Rattle.std.specs.Prelude.{◌≡◌, true, ◌||◌, if◌then◌else◌, ℕ, ◌≤◌, ◌<◌, length as size, take, drop, slice_index, IfSome};
ghost use Rattle.meaning.specs.Utf8.{utf8};
ghost use Rattle.meaning.specs.Text.{starts_name, is_digit, is_name, text_fits};
ghost use Rattle.texts.specs.Rule.{meant};

use crate::rule::Rule;

const WINDOW: usize = 64;

const NAME_WINDOW: usize = 16;

// Seen from WINDOW - n on, the mask of a text of n bytes: full where the text is, so that the bytes behind it do not count.
static MASK: [[u8; WINDOW]; 2] = [[0xFF; WINDOW], [0; WINDOW]];

// 0 for a byte of a name: a number, since `bits` joins numbers.
fn strange(b: u8) -> u8
    ensures { result ≡ (if starts_name b || is_digit b then 0 else 1) }
{
    u8::from(!names::goes_on_name(b))
}

// A text of at most as many bytes as the window has, and what follows it in the pool.
#[derive(Clone, Copy)]
pub(crate) struct Window<'a> {
    bytes: &'a [u8; WINDOW],
    length: usize,
    ghost whole: { size bytes.now ≡ 64 },
    ghost short: { length ≤ 64 },
}

impl<'a> Window<'a> {
    // The window on a text, if the text is short enough and the pool does not end before the window does.
    pub(crate) fn on(pool: &'a [u8], start: usize, length: usize) -> Option<Window<'a>>
        requires { start ≤ size pool.now }
        ensures { IfSome result (λ w. take w.length w.bytes.now ≡ take length (drop start pool.now)) }
    {
        if WINDOW < length {
            return None;
        }
        let bytes = pool[start..].first_chunk()?;
        Some(Window { bytes, length })
    }

    // What the text's bytes among the first N give together: none of them gives more. With a fixed N the loop becomes a few wide steps; it goes by
    // place, since it looks at two arrays.
    fn bits<const N: usize, F: Fn(u8) -> u8>(&self, of: F) -> u8
        requires within { N ≤ 64 }
        requires callable { F.IsAlwaysCallable of }
        ensures { (k : ℕ) → k < N → k < self.now.length → (x : ℕ) × F.post of (slice_index self.now.bytes.now k) x × (x ≤ result) }
    {
        let mask = &MASK.as_flattened()[WINDOW - self.length..];
        let mut bits = 0;
        for k in 0..N {
            bits |= of(self.bytes[k]).min(mask[k]);
        }
        bits
    }

    // Whether the text is short and has only bytes of a name, the first past the digits: then it is a name. The bits come first, since a
    // look at one byte alone before would split the wide steps.
    fn is_name(&self) -> bool
        ensures name { result ≡ true → is_name (take self.now.length self.now.bytes.now) ≡ true }
        ensures first { result ≡ true → 1 ≤ self.now.length }
    {
        self.bits::<NAME_WINDOW, _>(strange) == 0
            && matches!(self.length, 1..=NAME_WINDOW)
            && b'9' < self.bytes[0]
    }

    // Whether the text is ASCII: then it is UTF-8.
    fn is_ascii(&self) -> bool
        ensures { result ≡ true → utf8 (take self.now.length self.now.bytes.now) ≡ true }
    {
        self.bits::<WINDOW, _>(|b| b) < 0x80
    }

    // Whether the window shows that the text fits. Where it does not, the text may fit all the same.
    pub(crate) fn shows_fit(&self, rule: Rule) -> bool
        ensures { result ≡ true → text_fits (meant rule) (take self.now.length self.now.bytes.now) ≡ true }
    {
        match rule {
            Rule::NoText => self.length == 0,
            Rule::Float | Rule::Int => false,
            Rule::AnyText => self.is_ascii(),
            Rule::Name | Rule::NameOrEmpty | Rule::FragmentName | Rule::EnumName => {
                self.is_name() && self.bytes[0] <= rule.highest()
            }
        }
    }
}
