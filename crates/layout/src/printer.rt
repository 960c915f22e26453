ghost use Rattle.tree_laws.specs.Forest.{Shaped};
ghost use Rattle.tree_laws.specs.Lists.{ListsHoldTypes};

use quoted::Classes;
use table::Table;

// What is printed: a table whose nodes make trees and whose list types hold types; with the classes of bytes.
#[derive(Clone, Copy)]
pub struct Printer<'a> {
    pub table: Table<'a>,
    pub classes: &'a Classes,
    ghost shaped: { Shaped table.words.now table.pool.now },
    ghost lists: { ListsHoldTypes table.words.now },
}
