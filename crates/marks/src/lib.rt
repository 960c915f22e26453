// What printing and reading both look for in a text: spaces and tabs, three quotes.
#![tactic(auto)]

ghost use Rattle.std.specs.Prelude.{◌≡◌, drop};
ghost use Rattle.meaning.specs.Settings.{is_blank};
ghost use Rattle.meaning.specs.Block.{three_quotes};

#[tactic(auto, unfolding(meaning::specs::Settings::is_blank))]
pub fn is_blank(b: u8) -> bool
    ensures { result ≡ is_blank b }
{
    matches!(b, b' ' | b'\t')
}

// Three quotes stand at `i`.
#[tactic(auto, unfolding(meaning::specs::Block::three_quotes))]
pub fn three_quotes(s: &[u8], i: usize) -> bool
    ensures { result ≡ three_quotes (drop i s.now) }
{
    matches!(s.get(i..), Some([b'"', b'"', b'"', ..]))
}
