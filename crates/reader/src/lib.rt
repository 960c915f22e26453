// One string literal, read into lent memory.
#![tactic(auto)]

ghost use Rattle.std.specs.Prelude.{◌≡◌};
ghost use Rattle.meaning.specs.Answers.{reading_answer};
ghost use Rattle.meaning.specs.Entries.{read_literal};

use meaning::{Form, Offset, Refusal};
use quoted::Classes;

// The value of the one literal that `text` is, into `out`: its form and length, or why nothing was written.
pub fn read_literal(text: &[u8], out: &mut [u8]) -> Result<(Form, Offset), Refusal>
    ensures { ((reading_answer result).0, (reading_answer result).1, out.new) ≡ read_literal text.now out.old }
{
    if !text::is_utf8(text) {
        return Err(Refusal::Literal);
    }
    if marks::three_quotes(text, 0) {
        return read_block::read_block(text, out);
    }
    match text {
        [b'"', ..] => read_quoted::read_quoted(&Classes::new(), text, out),
        _ => Err(Refusal::Literal),
    }
}
