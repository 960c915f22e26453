// What the archive exporter and the digest job print: a table file's document, with the default settings.
#![tactic(auto)]

ghost use Rattle.std.specs.Prelude.{◌≡◌, take};
ghost use Rattle.archive.specs.declared.Refused.TheVariants.{Document};
ghost use Rattle.meaning.specs.Answers.{answer};
ghost use Rattle.table_file.specs.File.{head_of};
ghost use Rattle.archive.specs.Archive.{of_file, refused_answer, too_long_number, archived_answer, archived};

use meaning::Refusal;
use std::fmt;
use table::Table;
use table_file::FileRefusal;

// 8,192 nodes of five words, a pool of 65,536 bytes, and the 16 bytes before them.
const LONGEST_FILE: usize = 229_392;

// The file's refusals, and document 01's.
#[derive(Clone, Copy, Debug, PartialEq, Eq)]
pub enum Refused {
    NotATable,
    WrongLength,
    Document(Refusal),
}

impl Refused {
    // Document 01's number, or the file's.
    pub fn number(&self) -> u32
        ensures { result ≡ (refused_answer self.now).number }
    {
        match self {
            Refused::NotATable => 20,
            Refused::WrongLength => 21,
            Refused::Document(refusal) => numbers::number(*refusal),
        }
    }

    pub fn place(&self) -> u64
        ensures { result ≡ (refused_answer self.now).place }
    {
        match self {
            Refused::Document(refusal) => numbers::place(*refusal),
            _ => 0,
        }
    }
}

impl fmt::Display for Refused {
    fn fmt<W: fmt::Write>(&self, f: &mut fmt::Formatter<W>) -> fmt::Result {
        let number = self.number();
        let place = self.place();
        write!(f, "refused with {number} at {place}")
    }
}

// Words that find no room are a table too large.
impl From<FileRefusal> for Refused {
    ghost from_gives = { λ refusal refused. refused ≡ of_file refusal };

    fn from(refusal: FileRefusal) -> Self {
        match refusal {
            FileRefusal::NotATable => Refused::NotATable,
            FileRefusal::WrongLength => Refused::WrongLength,
            FileRefusal::Room(_) => Refused::Document(Refusal::Size),
        }
    }
}

impl From<Refusal> for Refused {
    ghost from_gives = { λ refusal refused. refused ≡ Document refusal };

    fn from(refusal: Refusal) -> Self {
        Refused::Document(refusal)
    }
}

// Of a file that is too long only the head is looked at.
fn too_long(file: &[u8]) -> Refused
    ensures { refused_answer result ≡ answer (too_long_number (head_of file.now)) 0 0 }
{
    match table_file::read_head(file) {
        Err(refusal) => refusal.into(),
        Ok(head) if LONGEST_FILE < head.length => Refused::Document(Refusal::Size),
        Ok(_) => Refused::WrongLength,
    }
}

// Reads the table into `words` and prints it into `out`: how long the text is. A refusal changes no byte of `out`.
#[tactic(auto, unfolding(crate::specs::Archive::archived, crate::specs::Archive::archived_table))]
pub fn print_archive(file: &[u8], words: &mut [u32], out: &mut [u8]) -> Result<usize, Refused>
    ensures { ((archived_answer result, out.new), words.new) ≡ archived file.now words.old out.old }
{
    if LONGEST_FILE < file.len() {
        return Err(too_long(file));
    }
    let read = table_file::read_table(file, words)?;
    let table = Table {
        words: &words[..read.words],
        pool: &file[read.pool.0..],
    };
    let length = default_settings::print_document(&table, out)?;
    Ok(length.0)
}

// The text that was printed: so many bytes of the output, or all where there are fewer.
pub fn text(out: &[u8], length: usize) -> &[u8]
    ensures { result.now ≡ take length out.now }
{
    &out[..length.min(out.len())]
}
