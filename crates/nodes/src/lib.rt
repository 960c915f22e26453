// Refusal 3: the smallest node whose kind, variant, text or end is wrong.
#![tactic(auto)]

mod kinds;

ghost use Rattle.std.specs.Prelude.{◌≡◌, true, false, ◌<◌, IfSome};
ghost use Rattle.meaning.specs.First.{first};
ghost use Rattle.meaning.specs.KindNumbers.{kind_number};
ghost use Rattle.meaning.specs.Table.{nodes, kind_at};
ghost use Rattle.meaning.specs.Refusals.{place_fault, end_fault, node_fault};
ghost use Rattle.table.specs.First.{found_or};
ghost use Rattle.table.specs.Words.{InTable};
ghost use Rattle.nodes.specs.Counted.{Counted};

use kinds::{KindTables, takes_no_text, variants_of};
use meaning::{Kind, NodeNumber};
use table::Table;

// More than any start.
const BEYOND: usize = 4294967296;

// Start and length are 32 bits each, so that their sum does not wrap.
#[tactic(auto, unfolding(meaning::specs::Refusals::place_fault))]
fn place_fault(table: &Table, i: NodeNumber, kind: Kind) -> bool
    requires { InTable table.now.words.now i.0 × (kind_number kind ≡ kind_at table.now.words.now i.0) }
    ensures { result ≡ place_fault table.now.words.now table.now.pool.now i.0 }
{
    let start = table.start(i);
    let length = table.length(i);
    if table.pool.len() < start + length {
        return true;
    }
    if length == 0 {
        start != 0
    } else {
        takes_no_text(kind)
    }
}

// `n` is the number of the table's nodes.
#[tactic(auto, unfolding(meaning::specs::Refusals::end_fault))]
fn end_fault(table: &Table, i: NodeNumber, kind: Kind, n: usize) -> bool
    requires { InTable table.now.words.now i.0 × (kind_number kind ≡ kind_at table.now.words.now i.0) × (n ≡ nodes table.now.words.now) }
    ensures { result ≡ end_fault table.now.words.now i.0 }
{
    let end = table.end(i);
    if end <= i.0 || n < end {
        return true;
    }
    if i.0 == 0 {
        kind != Kind::Document || end != n
    } else {
        kind == Kind::Document
    }
}

#[tactic(auto, unfolding(meaning::specs::Refusals::node_fault, meaning::specs::Refusals::kind_fault))]
fn node_fault(table: &Table, i: NodeNumber, n: usize) -> bool
    requires { InTable table.now.words.now i.0 × (n ≡ nodes table.now.words.now) }
    ensures { result ≡ node_fault table.now.words.now table.now.pool.now i.0 }
{
    let Ok(kind) = Kind::try_from(table.kind_number(i)) else {
        return true;
    };
    usize::from(variants_of(kind)) <= table.variant(i)
        || place_fault(table, i, kind)
        || end_fault(table, i, kind, n)
}

// Whether the node is not the first and has no fault, by tests that are the same for all kinds. The kind stays a number: these are the few
// steps that each node takes.
fn is_fine(table: &Table, kinds: &KindTables, i: NodeNumber, n: usize) -> bool
    requires { InTable table.now.words.now i.0 × (n ≡ nodes table.now.words.now) }
    ensures { result ≡ true → node_fault table.now.words.now table.now.pool.now i.0 ≡ false }
{
    if i.0 == 0 {
        return false;
    }
    let kind = table.kind_number(i) as usize;
    if kind >= kinds.variants.len() {
        return false;
    }
    if usize::from(kinds.variants[kind]) <= table.variant(i) {
        return false;
    }
    let start = table.start(i);
    let length = table.length(i);
    if start + length > table.pool.len() {
        return false;
    }
    if length * BEYOND < start {
        return false;
    }
    if usize::from(kinds.textless[kind]) * length != 0 {
        return false;
    }
    let end = table.end(i);
    if end <= i.0 || n < end {
        return false;
    }
    kind != Kind::Document.number()
}

// The smallest node with the fault.
pub fn first_node_fault(table: &Table, n: usize) -> Option<NodeNumber>
    requires { Counted table.now.words.now n }
    ensures place { found_or n result ≡ first (node_fault table.now.words.now table.now.pool.now) n }
    ensures within { IfSome result (λ i. i.0 < n) }
{
    let kinds = KindTables::new();
    (0..n)
        .find(|&i| !is_fine(table, &kinds, NodeNumber(i), n) && node_fault(table, NodeNumber(i), n))
        .map(NodeNumber)
}
