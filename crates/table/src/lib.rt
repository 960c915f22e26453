// A lent table of nodes, and the words of each.
#![tactic(auto)]

mod kinds;

ghost use Rattle.std.specs.Prelude.{◌≡◌, ◌<◌};
ghost use Rattle.meaning.specs.Kind.{count};
ghost use Rattle.meaning.specs.KindNumbers.{kind_number};
ghost use Rattle.meaning.specs.Table.{word, kind_at, variant_at, start_at, length_at, end_at, text_at};
ghost use Rattle.table.specs.Words.{InTable, TextInPool, Small};

pub use kinds::{KINDS, by_kind};
use meaning::{Kind, NodeNumber};

pub const WORDS_PER_NODE: usize = 5;

// The words of the nodes, and the pool that their texts lie in. Nothing is known of either.
#[derive(Clone, Copy)]
pub struct Table<'a> {
    pub words: &'a [u32],
    pub pool: &'a [u8],
}

impl<'a> Table<'a> {
    fn word(&self, i: NodeNumber, field: usize) -> u32
        requires { InTable self.now.words.now i.0 × (field < 5) }
        ensures { result ≡ word field self.now.words.now i.0 }
    {
        self.words[i.0 * WORDS_PER_NODE + field]
    }

    // The number of a node's kind, whatever it is.
    pub fn kind_number(&self, i: NodeNumber) -> u32
        requires { InTable self.now.words.now i.0 }
        ensures { result ≡ kind_at self.now.words.now i.0 }
    {
        self.word(i, 0)
    }

    pub fn kind(&self, i: NodeNumber) -> Kind
        requires { InTable self.now.words.now i.0 × (kind_at self.now.words.now i.0 < count) }
        ensures { kind_number result ≡ kind_at self.now.words.now i.0 }
    {
        match Kind::try_from(self.kind_number(i)) {
            Ok(kind) => kind,
            Err(_) => unreachable!(),
        }
    }

    pub fn variant(&self, i: NodeNumber) -> usize
        requires { InTable self.now.words.now i.0 }
        ensures { Small result (variant_at self.now.words.now i.0) }
    {
        self.word(i, 1) as usize
    }

    pub fn start(&self, i: NodeNumber) -> usize
        requires { InTable self.now.words.now i.0 }
        ensures { Small result (start_at self.now.words.now i.0) }
    {
        self.word(i, 2) as usize
    }

    pub fn length(&self, i: NodeNumber) -> usize
        requires { InTable self.now.words.now i.0 }
        ensures { Small result (length_at self.now.words.now i.0) }
    {
        self.word(i, 3) as usize
    }

    pub fn end(&self, i: NodeNumber) -> usize
        requires { InTable self.now.words.now i.0 }
        ensures { Small result (end_at self.now.words.now i.0) }
    {
        self.word(i, 4) as usize
    }

    // The bytes of the pool that a node names.
    pub fn text(&self, i: NodeNumber) -> &'a [u8]
        requires { TextInPool self.now.words.now self.now.pool.now i.0 }
        ensures { result.now ≡ text_at self.now.words.now self.now.pool.now i.0 }
    {
        let from = self.start(i);
        &self.pool[from..from + self.length(i)]
    }
}
