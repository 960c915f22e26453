// Document 01's settings, `State` of serialize.rs without its output: whether they are refused, and the new lines that they make.
#![tactic(auto)]

ghost use Rattle.std.specs.Prelude.{◌≡◌, ◌∷◌, ◌<◌};
ghost use Rattle.std.specs.List.{list_all};
ghost use Rattle.meaning.specs.Ascii.{line_feed};
ghost use Rattle.meaning.specs.Settings.{is_blank, times, new_line, new_line_or_space, deeper, on_single_line, settings_fault};
ghost use Rattle.pen.specs.Wrote.{Wrote};
ghost use Rattle.settings.specs.Said.{said};

use pen::Pen;

const LONGEST_PREFIX: usize = 16;

// Whether there are only spaces and tabs.
fn is_blank(prefix: &[u8]) -> bool
    ensures { result ≡ list_all is_blank prefix.now }
{
    prefix.iter().all(|b| marks::is_blank(*b))
}

// Beside the pen and not with it: a level further in has other settings and the same pen.
#[derive(Clone, Copy)]
pub struct Settings<'a> {
    pub breaks: bool,
    pub prefix: &'a [u8],
    pub level: usize,
}

impl<'a> Settings<'a> {
    // Document 01's refusal 1: a prefix that is too long or not blank, or a level over `levels`.
    pub fn are_refused(&self, levels: usize) -> bool
        ensures { result ≡ settings_fault levels (said self.now) }
    {
        if LONGEST_PREFIX < self.prefix.len() {
            return true;
        }
        !is_blank(self.prefix) | (levels < self.level)
    }

    // A level further in, as `indent` does.
    pub fn deeper(&self) -> Settings<'a>
        requires { self.now.level < 256 }
        ensures { said result ≡ deeper (said self.now) }
    {
        Settings {
            level: self.level + 1,
            ..*self
        }
    }

    pub fn on_single_line(&self) -> Settings<'a>
        ensures { said result ≡ on_single_line (said self.now) }
    {
        Settings {
            breaks: false,
            ..*self
        }
    }

    // LF, then the prefix once per level, whether line breaks are on or off.
    #[inline(always)]
    pub fn line_break(&self, pen: &mut Pen)
        ensures { Wrote pen.old (line_feed ∷ times self.now.level self.now.prefix.now) pen.new }
    {
        pen.write_byte(b'\n');
        pen.write_times(self.prefix, self.level);
    }

    #[inline(always)]
    pub fn new_line(&self, pen: &mut Pen)
        ensures { Wrote pen.old (new_line (said self.now)) pen.new }
    {
        if self.breaks {
            self.line_break(pen);
        }
    }

    #[inline(always)]
    pub fn new_line_or_space(&self, pen: &mut Pen)
        ensures { Wrote pen.old (new_line_or_space (said self.now)) pen.new }
    {
        if self.breaks {
            self.line_break(pen);
        } else {
            pen.write_byte(b' ');
        }
    }
}
