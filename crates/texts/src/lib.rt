// Refusal 7: the text of a node is not what its kind asks for. Most texts are short names or short ASCII: these are looked at through a
// window of the pool, in the same few steps whatever their length, and only the others byte by byte.
#![tactic(auto)]

mod rule;
mod window;

ghost use Rattle.std.specs.Prelude.{◌≡◌, true, false, ◌+◌, ◌≤◌, ◌<◌, length, IfSome};
ghost use Rattle.meaning.specs.First.{first};
ghost use Rattle.meaning.specs.Refusals.{text_fault};
ghost use Rattle.table.specs.First.{found_or};
ghost use Rattle.table.specs.Words.{InTable};
ghost use Rattle.texts.specs.Known.{KnownText, KnownTexts};

use meaning::NodeNumber;
use rule::Rule;
use table::Table;
use window::Window;

#[tactic(auto, unfolding(meaning::specs::Refusals::text_fault))]
fn text_fault(table: &Table, i: NodeNumber) -> bool
    requires { InTable table.now.words.now i.0 × KnownText table.now.words.now table.now.pool.now i.0 }
    ensures { result ≡ text_fault table.now.words.now table.now.pool.now i.0 }
{
    let rule = Rule::of(table.kind(i));
    if let Some(window) = Window::on(table.pool, table.start(i), table.length(i))
        && window.shows_fit(rule)
    {
        return false;
    }
    !rule.fits(table.text(i))
}

// The smallest node with the fault.
pub fn first_text_fault(table: &Table, n: usize) -> Option<NodeNumber>
    requires { KnownTexts table.now.words.now table.now.pool.now n }
    ensures place { found_or n result ≡ first (text_fault table.now.words.now table.now.pool.now) n }
    ensures within { IfSome result (λ i. i.0 < n) }
{
    (0..n).map(NodeNumber).find(|i| text_fault(table, *i))
}
