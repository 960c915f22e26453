// Writing into lent memory. Nothing is required of a caller: past the end nothing is stored and the place still goes on, so the same walk
// over `&mut []` measures. At 2^64 - 1 the place stays.
#![tactic(auto)]

ghost use Rattle.std.specs.Prelude.{◌∷◌, [], ◌-◌, ◌≡◌, min, length};
ghost use Rattle.meaning.specs.Settings.{times};
ghost use Rattle.pen.specs.Put.{put};
ghost use Rattle.pen.specs.Wrote.{Over, Wrote};

use meaning::Offset;

// The lent memory, and where the next byte goes: no Vec, since there is no heap and the place goes on past the end. Callers use the laws
// of `Wrote`, and of the fields the place alone.
#[derive(Drop)]
pub struct Pen<'a> {
    pub out: &'a mut [u8],
    pub at: Offset,
}

impl<'a> Pen<'a> {
    #[inline(always)]
    pub fn over(out: &'a mut [u8]) -> Pen<'a>
        ensures { Over out.entry result }
    {
        Pen { out, at: Offset(0) }
    }

    #[inline(always)]
    pub fn write_byte(&mut self, b: u8)
        ensures { Wrote self.old (b ∷ []) self.new }
    {
        if self.at.0 < self.out.len() {
            self.out[self.at.0] = b;
        }
        self.at.0 = self.at.0.saturating_add(1);
    }

    // Between two escapes there is mostly nothing to write, and measuring stores nothing. Where all fits, what is stored has the length of
    // `bytes`, which a caller mostly knows: a few moves.
    #[inline(always)]
    pub fn write(&mut self, bytes: &[u8])
        ensures { Wrote self.old bytes.now self.new }
    {
        if bytes.is_empty() {
            return;
        }
        if self.at.0 < self.out.len() {
            let room = self.out.len() - self.at.0;
            if bytes.len() <= room {
                store(self.out, self.at.0, bytes, bytes.len());
            } else {
                store(self.out, self.at.0, bytes, room);
            }
        }
        self.at.0 = self.at.0.saturating_add(bytes.len());
    }

    // `bytes`, so many times. The place is kept beside the memory meanwhile, where no byte that is written can change it.
    pub fn write_times(&mut self, bytes: &[u8], count: usize)
        ensures { Wrote self.old (times count bytes.now) self.new }
    {
        let mut own = Pen {
            out: &mut *self.out,
            at: self.at,
        };
        for _ in 0..count {
            own.write(bytes);
        }
        self.at = own.at;
    }
}

// The `n` bytes that there is room for, one by one: the loop becomes a few wide moves where it stands. The library's copy is a call, and asks the
// C archive for `memmove`.
#[inline(always)]
fn store(out: &mut [u8], at: usize, bytes: &[u8], n: usize)
    requires { n ≡ min (length bytes.now) (length out.old - at) }
    ensures { out.new ≡ put out.old at bytes.now }
{
    for i in 0..n {
        out[at + i] = bytes[i];
    }
}
