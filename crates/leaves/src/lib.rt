// The parts of rules that print no tree below: descriptions, aliases, literals, and words that a variant chooses.
#![tactic(auto)]

ghost use Rattle.std.specs.Prelude.{◌≡◌, true, List, [], ◌∷◌, ◌++◌, ℕ};
ghost use Rattle.meaning.specs.Literal.{literal};
ghost use Rattle.meaning.specs.Settings.{Settings as SettingsSaid};
ghost use Rattle.meaning.specs.Table.{text_at};
ghost use Rattle.meaning.specs.Rules.{Part, text, if_named, if_one, description, operation_type, location_name, rule_of};
ghost use Rattle.meaning.specs.Children.{a};
ghost use Rattle.pen.specs.Wrote.{Wrote};
ghost use Rattle.settings.specs.Said.{said};
ghost use Rattle.table.specs.Words.{InTable, TextInPool};
ghost use Rattle.layout.specs.Jobs.{Ranged};
ghost use Rattle.layout.specs.declared.Children.{Children as ChildrenSaid};
ghost use Rattle.layout.specs.Kids.{next_is};
ghost use Rattle.layout.specs.Did.{Did, all_plain, bytes};
ghost use Rattle.leaves.specs.Leaves.{alias, boolean};

use layout::{Children, Class};
use meaning::{Kind, NodeNumber};
use pen::Pen;
use quoted::Classes;
use settings::Settings;
use table::Table;

// The node's text as a literal.
pub fn string_value(
    table: &Table,
    classes: &Classes,
    descriptive: bool,
    node: NodeNumber,
    settings: &Settings,
    pen: &mut Pen,
)
    requires { TextInPool table.now.words.now table.now.pool.now node.0 }
    ensures { Wrote pen.old (literal (said settings.now) descriptive (text_at table.now.words.now table.now.pool.now node.0)) pen.new }
{
    literal::serialize_string_value(classes, descriptive, table.text(node), settings, pen);
}

// The description that is next, and a new line.
fn described(
    table: &Table,
    classes: &Classes,
    children: &mut Children,
    settings: &Settings,
    pen: &mut Pen,
)
    requires range { Ranged table.now.words.now table.now.pool.now children.old.next.0 children.old.end.0 }
    requires next { next_is table.now.words.now (a 18) children.old.next.0 children.old.end.0 ≡ true }
    ensures { (n : ℕ) → Did table.now.words.now table.now.pool.now (said settings.now) n description children.old pen.old children.new pen.new }
{
    string_value(table, classes, true, children.next, settings, pen);
    children.pass(table);
    settings.new_line_or_space(pen);
}

// The same, if there is one: a test that stands apart, so that a caller is spared the call.
pub fn serialize_description(
    table: &Table,
    classes: &Classes,
    children: &mut Children,
    settings: &Settings,
    pen: &mut Pen,
)
    requires { Ranged table.now.words.now table.now.pool.now children.old.next.0 children.old.end.0 }
    ensures { (n : ℕ) → Did table.now.words.now table.now.pool.now (said settings.now) n description children.old pen.old children.new pen.new }
{
    if children.is_next(table, Class::Kind(Kind::Description)) {
        described(table, classes, children, settings, pen);
    }
}

// The alias of a field, if there is one: `alias: `.
#[inline(always)]
pub fn alias(table: &Table, children: &mut Children, pen: &mut Pen)
    requires { Ranged table.now.words.now table.now.pool.now children.old.next.0 children.old.end.0 }
    ensures { (s : SettingsSaid) (n : ℕ) → Did table.now.words.now table.now.pool.now s n alias children.old pen.old children.new pen.new }
{
    if children.is_next(table, Class::Kind(Kind::Alias)) {
        layout::name(table, children.next, pen);
        children.pass(table);
        pen.write(b": ");
    }
}

// The node's text after a token, where it has one: ` name`, ` on Name`.
#[inline(always)]
pub fn if_named(table: &Table, node: NodeNumber, before: &[u8], pen: &mut Pen)
    requires { TextInPool table.now.words.now table.now.pool.now node.0 }
    ensures { (s : SettingsSaid) (at : ChildrenSaid) (ps : List Part) → all_plain ps ≡ true → bytes ps ≡ before.now → Did table.now.words.now table.now.pool.now s node.0 (if_named (ps ++ text ∷ [])) at pen.old at pen.new }
{
    if table.length(node) != 0 {
        pen.write(before);
        layout::name(table, node, pen);
    }
}

// The token, where the node's variant is 1: `!`, ` repeatable`.
#[inline(always)]
pub fn if_one(table: &Table, node: NodeNumber, token: &[u8], pen: &mut Pen)
    requires { InTable table.now.words.now node.0 }
    ensures { (p : List ℕ) (s : SettingsSaid) (at : ChildrenSaid) (ps : List Part) → all_plain ps ≡ true → bytes ps ≡ token.now → Did table.now.words.now p s node.0 (if_one ps) at pen.old at pen.new }
{
    if table.variant(node) == 1 {
        pen.write(token);
    }
}

// The word that the variant chooses, here and below: the table's own number, for which an enum would say the same words twice.
pub fn operation_type(table: &Table, node: NodeNumber, pen: &mut Pen)
    requires { InTable table.now.words.now node.0 }
    ensures { (p : List ℕ) (s : SettingsSaid) (at : ChildrenSaid) → Did table.now.words.now p s node.0 operation_type at pen.old at pen.new }
{
    match table.variant(node) {
        0 => pen.write(b"query"),
        1 => pen.write(b"mutation"),
        2 => pen.write(b"subscription"),
        _ => {}
    }
}

#[inline(always)]
pub fn boolean(table: &Table, node: NodeNumber, pen: &mut Pen)
    requires { InTable table.now.words.now node.0 }
    ensures { (p : List ℕ) (s : SettingsSaid) (at : ChildrenSaid) → Did table.now.words.now p s node.0 boolean at pen.old at pen.new }
{
    match table.variant(node) {
        0 => pen.write(b"false"),
        1 => pen.write(b"true"),
        _ => {}
    }
}

// The name of a directive location.
pub fn location(table: &Table, node: NodeNumber, pen: &mut Pen)
    requires { InTable table.now.words.now node.0 }
    ensures { (p : List ℕ) (s : SettingsSaid) (at : ChildrenSaid) → Did table.now.words.now p s node.0 location_name at pen.old at pen.new }
{
    match table.variant(node) {
        0 => pen.write(b"QUERY"),
        1 => pen.write(b"MUTATION"),
        2 => pen.write(b"SUBSCRIPTION"),
        3 => pen.write(b"FIELD"),
        4 => pen.write(b"FRAGMENT_DEFINITION"),
        5 => pen.write(b"FRAGMENT_SPREAD"),
        6 => pen.write(b"INLINE_FRAGMENT"),
        7 => pen.write(b"VARIABLE_DEFINITION"),
        8 => pen.write(b"SCHEMA"),
        9 => pen.write(b"SCALAR"),
        10 => pen.write(b"OBJECT"),
        11 => pen.write(b"FIELD_DEFINITION"),
        12 => pen.write(b"ARGUMENT_DEFINITION"),
        13 => pen.write(b"INTERFACE"),
        14 => pen.write(b"UNION"),
        15 => pen.write(b"ENUM"),
        16 => pen.write(b"ENUM_VALUE"),
        17 => pen.write(b"INPUT_OBJECT"),
        18 => pen.write(b"INPUT_FIELD_DEFINITION"),
        _ => {}
    }
}

// The type of a root operation: `query: Query`.
#[inline(always)]
pub fn root_operation(table: &Table, node: NodeNumber, pen: &mut Pen)
    requires { TextInPool table.now.words.now table.now.pool.now node.0 }
    ensures { (s : SettingsSaid) (at : ChildrenSaid) → Did table.now.words.now table.now.pool.now s node.0 (rule_of 25) at pen.old at pen.new }
{
    operation_type(table, node, pen);
    pen.write(b": ");
    layout::name(table, node, pen);
}

#[inline(always)]
pub fn variable_value(table: &Table, node: NodeNumber, pen: &mut Pen)
    requires { TextInPool table.now.words.now table.now.pool.now node.0 }
    ensures { (s : SettingsSaid) (at : ChildrenSaid) → Did table.now.words.now table.now.pool.now s node.0 (rule_of 39) at pen.old at pen.new }
{
    pen.write(b"$");
    layout::name(table, node, pen);
}
