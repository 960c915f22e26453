// Refusal 4: a later node inside a node's subtree ends after it. The next node that ends later decides this, and links lead there.
#![tactic(auto)]

ghost use Rattle.std.specs.Prelude.{◌≡◌, true, false, ℕ, ◌+◌, ◌≤◌, ◌<◌, length, IfSome};
ghost use Rattle.meaning.specs.First.{first};
ghost use Rattle.meaning.specs.Refusals.{nesting_fault};
ghost use Rattle.table.specs.First.{found_or};
ghost use Rattle.nesting.specs.Links.{EndsWithin, EndsLater, Linked, NoCaps};

use meaning::NodeNumber;
use table::Table;

// The next node that ends later than i, or n: a place like any other here, since it is kept as a link and compared with ends.
// What is passed over here is not met again, since the link of i leaps it.
fn next_that_ends_later(table: &Table, links: &[usize], n: usize, i: usize) -> usize
    requires { EndsWithin table.now.words.now n × (i < n) × Linked table.now.words.now n (i + 1) links.now }
    ensures { EndsLater table.now.words.now n i result }
{
    let end = table.end(NodeNumber(i));
    // A `while`: j follows links, and counts nothing.
    let mut j = i + 1;
    while j < n {
        if end < table.end(NodeNumber(j)) {
            return j;
        }
        j = links[j];
    }
    j
}

// Links each node, from the last to the first: the fault that is met last is the smallest.
fn scan(table: &Table, links: &mut [usize], n: usize) -> Option<NodeNumber>
    requires { EndsWithin table.now.words.now n × (n ≤ length links.old) }
    ensures place { found_or n result ≡ first (nesting_fault table.now.words.now) n }
    ensures within { IfSome result (λ i. i.0 < n) }
{
    let mut smallest = None;
    for i in (0..n).rev() {
        let next = next_that_ends_later(table, links, n, i);
        links[i] = next;
        if next < table.end(NodeNumber(i)) {
            smallest = Some(NodeNumber(i));
        }
    }
    smallest
}

// Whether each node ends within all that are open where it stands. `cap` is the least end of these, and `caps[m]` that of what stands at m,
// as far as the nodes passed that end there tell. This takes the same steps at each node, and most tables are as they should be.
fn is_nested(table: &Table, caps: &mut [usize], n: usize) -> bool
    requires { EndsWithin table.now.words.now n × NoCaps n caps.old }
    ensures { result ≡ true → (k : ℕ) → k < n → nesting_fault table.now.words.now k ≡ false }
{
    let mut cap = n;
    for i in 0..n {
        let end = table.end(NodeNumber(i));
        if cap < end {
            return false;
        }
        caps[end] = caps[end].max(cap);
        cap = caps[i + 1].max(end);
    }
    true
}

// The smallest node with the fault; in time linear in n.
pub fn first_nesting_fault(table: &Table, n: usize) -> Option<NodeNumber>
    requires { EndsWithin table.now.words.now n }
    ensures place { found_or n result ≡ first (nesting_fault table.now.words.now) n }
    ensures within { IfSome result (λ i. i.0 < n) }
{
    // Fixed memory, no heap: a place for each node that a table may have, and one past the last. First it holds caps, then links.
    let mut links = [0usize; 8193];
    if is_nested(table, &mut links, n) {
        return None;
    }
    scan(table, &mut links, n)
}
