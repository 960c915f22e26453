// Refusal 6: the children of each node are as its kind lists them, and no Variable stands in a constant place.
#![tactic(auto)]

mod states;

ghost use Rattle.std.specs.Prelude.{◌≡◌, ◌<◌, ltb, IfSome};
ghost use Rattle.meaning.specs.First.{first};
ghost use Rattle.meaning.specs.KindNumbers.{kind_number};
ghost use Rattle.meaning.specs.Refusals.{is_extension, is_constant, node_in, not_as_listed, children_fault};
ghost use Rattle.table.specs.First.{found_or};
ghost use Rattle.children.specs.Shaped.{Nodes, Shaped, Parent, from};
ghost use Rattle.children.specs.Walk.{fills};
ghost use Rattle.children.specs.States.{state_of};
ghost use Rattle.children.specs.Reach.{in_constant};

use meaning::{Kind, NodeNumber};
use states::{State, States};
use table::Table;

// The children from `child` on, of a node that ends at `end`, fill what the state leaves.
fn fits(table: &Table, states: &States, mut state: State, mut child: usize, end: usize) -> bool
    requires { Nodes table.now.words.now end }
    ensures { result ≡ fills (node_in table.now.words.now) (state_of state.number) (from table.now.words.now child end) }
{
    // A `while`: it goes from child to child by their ends, and counts nothing.
    while child < end {
        let i = NodeNumber(child);
        state = states.next(state, table.kind(i), table.variant(i));
        child = table.end(i);
    }
    states.may_end(state)
}

fn is_extension(kind: Kind) -> bool
    ensures { result ≡ is_extension (kind_number kind) }
{
    matches!(
        kind,
        Kind::ExtendSchema
            | Kind::ExtendScalar
            | Kind::ExtendObject
            | Kind::ExtendInterface
            | Kind::ExtendUnion
            | Kind::ExtendEnum
            | Kind::ExtendInputObject
    )
}

// The children of a node of this kind, which ends at `end`, are not as its kind lists them; or it is an extension with no child.
fn not_as_listed(table: &Table, states: &States, i: NodeNumber, kind: Kind, end: usize) -> bool
    requires { Parent table.now.words.now i.0 (kind_number kind) end }
    ensures { result ≡ not_as_listed table.now.words.now i.0 }
{
    !fits(table, states, State::at_first(kind), i.0 + 1, end)
        || is_extension(kind) && end <= i.0 + 1
}

// The kinds below which no Variable may stand.
fn is_constant(kind: Kind) -> bool
    ensures { result ≡ is_constant (kind_number kind) }
{
    matches!(
        kind,
        Kind::DirectiveDefinition
            | Kind::Schema
            | Kind::Scalar
            | Kind::Object
            | Kind::Interface
            | Kind::Union
            | Kind::Enum
            | Kind::InputObject
            | Kind::ExtendSchema
            | Kind::ExtendScalar
            | Kind::ExtendObject
            | Kind::ExtendInterface
            | Kind::ExtendUnion
            | Kind::ExtendEnum
            | Kind::ExtendInputObject
            | Kind::VariableDefinition
    )
}

// Refusal 6 of a node of this kind, which ends at `end`. `reach` is the furthest end of the constant nodes before it.
#[tactic(auto, using(crate::proofs::Reach::listed_fault), unfolding(meaning::specs::Refusals::children_fault))]
fn children_fault(
    table: &Table,
    states: &States,
    reach: usize,
    i: NodeNumber,
    kind: Kind,
    end: usize,
) -> bool
    requires node { Parent table.now.words.now i.0 (kind_number kind) end }
    requires reach { in_constant table.now.words.now i.0 ≡ ltb i.0 reach }
    ensures { result ≡ children_fault table.now.words.now i.0 }
{
    not_as_listed(table, states, i, kind, end) || kind == Kind::Variable && i.0 < reach
}

// The smallest node with the fault.
pub fn first_children_fault(table: &Table, n: usize) -> Option<NodeNumber>
    requires { Shaped table.now.words.now n }
    ensures place { found_or n result ≡ first (children_fault table.now.words.now) n }
    ensures within { IfSome result (λ i. i.0 < n) }
{
    let states = States::new();
    // The furthest end of a constant node passed.
    let mut reach = 0;
    for i in 0..n {
        let kind = table.kind(NodeNumber(i));
        let end = table.end(NodeNumber(i));
        if children_fault(table, &states, reach, NodeNumber(i), kind, end) {
            return Some(NodeNumber(i));
        }
        if is_constant(kind) {
            reach = reach.max(end);
        }
    }
    None
}
