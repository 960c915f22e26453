// The numbers, kinds and answers that every crate shares. What they mean is in specs/.
#![tactic(auto)]

mod kind;

pub use kind::{Kind, NoKind};

// The number of a node of the table.
#[derive(Clone, Copy, Debug, PartialEq, Eq)]
pub struct NodeNumber(pub usize);

// A place in a pool or an output, or a number of bytes there.
#[derive(Clone, Copy, Debug, PartialEq, Eq)]
pub struct Offset(pub usize);

// Document 01's refusals, in the order of their numbers: with the place, or the needed length. A check answers `Result<(), Refusal>`,
// printing `Result<Offset, Refusal>`, with how many bytes it wrote, and reading `Result<(Form, Offset), Refusal>`.
#[derive(Clone, Copy, Debug, PartialEq, Eq)]
pub enum Refusal {
    Settings,
    Size,
    Node(NodeNumber),
    Nesting(NodeNumber),
    Depth(NodeNumber),
    Children(NodeNumber),
    Text(NodeNumber),
    Room(Offset),
    Literal,
}

// The form of a literal that was read.
#[derive(Clone, Copy, Debug, PartialEq, Eq)]
pub enum Form {
    Quoted,
    Block,
}
