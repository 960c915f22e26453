// The node table file, read: docs/TABLE-FILE.md. Any bytes get an answer.
#![tactic(auto)]

ghost use Rattle.std.specs.Prelude.{◌≡◌, IfOk, ◌++◌, ◌+◌, ◌*◌, ◌≤◌, ◌<◌, length, drop};
ghost use Rattle.table_file.specs.File.{number_at, numbers_at, is_table_file, head_of, table_of};

use meaning::Offset;

// Why a file is no table. `Room`: how many words want storing.
#[derive(Clone, Copy, Debug, PartialEq, Eq)]
pub enum FileRefusal {
    NotATable,
    WrongLength,
    Room(usize),
}

// What the first 16 bytes tell: how many words there are, and how long the file is.
#[derive(Clone, Copy, Debug, PartialEq, Eq)]
pub struct Head {
    pub words: usize,
    pub length: usize,
}

// How many words were stored, and where in the file the pool begins, which goes to its end.
#[derive(Clone, Copy, Debug, PartialEq, Eq)]
pub struct TableFile {
    pub words: usize,
    pub pool: Offset,
}

// The number of the four bytes at a place, the lowest first.
#[tactic(auto, unfolding(crate::specs::File::number_at))]
fn number(file: &[u8], at: usize) -> u32
    requires { at + 4 ≤ length file.now }
    ensures { result ≡ number_at file.now at }
{
    u32::from_le_bytes([file[at], file[at + 1], file[at + 2], file[at + 3]])
}

fn is_table_file(file: &[u8]) -> bool
    ensures { result ≡ is_table_file file.now }
{
    file.starts_with(b"DVTABLE1")
}

#[tactic(auto, unfolding(crate::specs::File::head_of, crate::specs::File::words_told, crate::specs::File::length_told))]
pub fn read_head(file: &[u8]) -> Result<Head, FileRefusal>
    ensures { result ≡ head_of file.now }
{
    if !is_table_file(file) {
        return Err(FileRefusal::NotATable);
    }
    if file.len() < 16 {
        return Err(FileRefusal::WrongLength);
    }
    let words = number(file, 8) as usize;
    let pool = number(file, 12) as usize;
    Ok(Head {
        words,
        length: 16 + 4 * words + pool,
    })
}

fn store_words(file: &[u8], n: usize, out: &mut [u32])
    requires { (16 + 4 * n ≤ length file.now) × (n ≤ length out.old) }
    ensures { out.new ≡ numbers_at n file.now 16 ++ drop n out.old }
{
    for (i, word) in out[..n].iter_mut().enumerate() {
        *word = number(file, 16 + 4 * i);
    }
}

// The words of a table file, into `words`; where it is refused, nothing is stored.
#[tactic(auto, using(crate::specs::Within::words_within), unfolding(crate::specs::File::table_of, crate::specs::File::table_under))]
pub fn read_table(file: &[u8], words: &mut [u32]) -> Result<TableFile, FileRefusal>
    ensures table { (result, words.new) ≡ table_of file.now words.old }
    ensures within { IfOk result (λ t. (t.words ≤ length words.new) × (t.pool.0 ≤ length file.now)) }
{
    let head = read_head(file)?;
    if file.len() != head.length {
        return Err(FileRefusal::WrongLength);
    }
    if words.len() < head.words {
        return Err(FileRefusal::Room(head.words));
    }
    store_words(file, head.words, words);
    Ok(TableFile {
        words: head.words,
        pool: Offset(16 + 4 * head.words),
    })
}
