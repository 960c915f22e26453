// Types: `Int`, `[Int!]!`.
#![tactic(auto)]

ghost use Rattle.meaning.specs.Settings.{Settings as SettingsSaid};
ghost use Rattle.meaning.specs.Table.{tree_at};
ghost use Rattle.meaning.specs.Layout.{node_text};
ghost use Rattle.pen.specs.Wrote.{Wrote};
ghost use Rattle.types.specs.TypeJob.{TypeJob};

use meaning::{Kind, NodeNumber};
use pen::Pen;
use table::Table;

// A list type prints its inner type, which is the next node, by calling itself.
pub fn serialize_type(table: &Table, node: NodeNumber, pen: &mut Pen)
    requires { TypeJob table.now.words.now table.now.pool.now node.0 }
    ensures { (s : SettingsSaid) → Wrote pen.old (node_text (tree_at table.now.words.now table.now.pool.now node.0) s) pen.new }
{
    if table.kind(node) == Kind::NamedType {
        layout::name(table, node, pen);
    } else {
        pen.write(b"[");
        serialize_type(table, NodeNumber(node.0 + 1), pen);
        pen.write(b"]");
    }
    leaves::if_one(table, node, b"!", pen);
}
