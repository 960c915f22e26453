// Refusal 5: the smallest node that is too deep. A node's depth is how many nodes before it are still open.
#![tactic(auto)]

ghost use Rattle.std.specs.Prelude.{◌≡◌, ◌<◌, IfSome};
ghost use Rattle.meaning.specs.First.{first};
ghost use Rattle.meaning.specs.Refusals.{depth_fault};
ghost use Rattle.table.specs.First.{found_or};
ghost use Rattle.depth.specs.Ends.{ProperEnds};

use meaning::NodeNumber;
use table::Table;

const DEEPEST: usize = 64;

// The smallest node with the fault; in time linear in n.
pub fn first_depth_fault(table: &Table, n: usize) -> Option<NodeNumber>
    requires { ProperEnds table.now.words.now n }
    ensures place { found_or n result ≡ first (depth_fault table.now.words.now) n }
    ensures within { IfSome result (λ i. i.0 < n) }
{
    // closes[m] counts the nodes passed that end at m. Fixed memory, no heap: a place for each node that a table may have, and one past.
    let mut closes = [0usize; 8193];
    let mut depth = 0;
    for i in 0..n {
        let here = depth - closes[i];
        if DEEPEST < here {
            return Some(NodeNumber(i));
        }
        closes[table.end(NodeNumber(i))] += 1;
        depth = here + 1;
    }
    None
}
