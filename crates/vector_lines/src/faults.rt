// The first lines that go wrong, of those that were read.
ghost use Rattle.std.specs.Prelude.{◌≡◌, Some, ◌+◌, ◌%◌, ◌^◌};
ghost use Rattle.std.specs.Option.{unwrap_or};

use std::fmt;

#[derive(Clone, Copy, Debug, Default, PartialEq, Eq)]
pub struct Faults {
    pub line: u64,
    pub failed: Option<u64>,
    pub damaged: Option<u64>,
}

impl Faults {
    pub fn begin_line(&mut self)
        ensures line { self.new.line ≡ (self.old.line + 1) % 2 ^ 64 }
        ensures failed { self.new.failed ≡ self.old.failed }
        ensures damaged { self.new.damaged ≡ self.old.damaged }
    {
        self.line = self.line.wrapping_add(1);
    }

    // The line fails: it is kept where none failed before.
    pub fn fail(&mut self)
        ensures line { self.new.line ≡ self.old.line }
        ensures failed { self.new.failed ≡ Some (unwrap_or self.old.failed self.old.line) }
        ensures damaged { self.new.damaged ≡ self.old.damaged }
    {
        self.failed = self.failed.or(Some(self.line));
    }

    // The same of a line that is no vector.
    pub fn damage(&mut self)
        ensures line { self.new.line ≡ self.old.line }
        ensures failed { self.new.failed ≡ self.old.failed }
        ensures damaged { self.new.damaged ≡ Some (unwrap_or self.old.damaged self.old.line) }
    {
        self.damaged = self.damaged.or(Some(self.line));
    }
}

impl fmt::Display for Faults {
    fn fmt<W: fmt::Write>(&self, f: &mut fmt::Formatter<W>) -> fmt::Result {
        if let Some(line) = self.failed {
            write!(f, "first failure: line {line}\n")?;
        }
        if let Some(line) = self.damaged {
            write!(f, "first damage: line {line}\n")?;
        }
        Ok(())
    }
}
