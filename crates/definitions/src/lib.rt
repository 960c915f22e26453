// The seventeen kinds of definitions and extensions, printed as serialize.rs prints them.
#![tactic(auto)]

ghost use Rattle.std.specs.Prelude.{◌≡◌, true, ◌&&◌, List, [], ◌∷◌, ◌++◌, ℕ, ◌+◌, ◌≤◌, ◌<◌};
ghost use Rattle.meaning.specs.Ascii.{space};
ghost use Rattle.meaning.specs.KindNumbers.{kind_number};
ghost use Rattle.meaning.specs.Table.{nodes, kind_at, end_at, tree_at};
ghost use Rattle.meaning.specs.Children.{a};
ghost use Rattle.meaning.specs.Rules.{Part, separated, child, optional, description, extend, scalar, object_like, union, enum, input_object, rule_of};
ghost use Rattle.meaning.specs.Layout.{definition_text};
ghost use Rattle.pen.specs.Wrote.{Wrote};
ghost use Rattle.settings.specs.Said.{said};
ghost use Rattle.layout.specs.Written.{gap_text, ChildrenOf};
ghost use Rattle.layout.specs.Jobs.{Job, Jobs};
ghost use Rattle.layout.specs.Did.{Did, all_plain, bytes};
ghost use Rattle.layout.specs.Read.{words, pool};
ghost use Rattle.serialize.specs.Parts.{Parts};
ghost use Rattle.definitions.specs.Segments.{tail, object_tail, body, short_at};

use layout::{Children, Class, Gap, Printer};
use meaning::{Kind, NodeNumber};
use pen::Pen;
use settings::Settings;

// The next child, and those of the kind after it, each after the gap: `A & B`.
fn listed(
    printer: &Printer,
    kind: Kind,
    gap: Gap,
    children: &mut Children,
    settings: &Settings,
    pen: &mut Pen,
)
    requires { Jobs (words printer.now) (pool printer.now) children.old (settings.now.level + 1) }
    ensures { (n : ℕ) (sign : List ℕ) → gap_text gap (said settings.now) ≡ space ∷ (sign ++ space ∷ []) → Did (words printer.now) (pool printer.now) (said settings.now) n (child (a (kind_number kind)) ++ separated sign (a (kind_number kind)) ∷ []) children.old pen.old children.new pen.new }
{
    serialize::one(printer, children, settings, pen);
    serialize::each(printer, Class::Kind(kind), gap, children, settings, pen);
}

// The same after a token, where there is a child of the kind: ` implements A & B`, ` = A | B`.
fn listed_after(
    printer: &Printer,
    before: &[u8],
    kind: Kind,
    gap: Gap,
    children: &mut Children,
    settings: &Settings,
    pen: &mut Pen,
)
    requires { Jobs (words printer.now) (pool printer.now) children.old (settings.now.level + 1) }
    ensures { (n : ℕ) (ps : List Part) (sign : List ℕ) → all_plain ps ≡ true → bytes ps ≡ before.now → gap_text gap (said settings.now) ≡ space ∷ (sign ++ space ∷ []) → Did (words printer.now) (pool printer.now) (said settings.now) n (optional (a (kind_number kind)) (ps ++ (child (a (kind_number kind)) ++ separated sign (a (kind_number kind)) ∷ []))) children.old pen.old children.new pen.new }
{
    if children.is_next(&printer.table, Class::Kind(kind)) {
        pen.write(before);
        listed(printer, kind, gap, children, settings, pen);
    }
}

// The directives and selections that an operation, a fragment and no other ends with.
fn tail(printer: &Printer, children: &mut Children, settings: &Settings, pen: &mut Pen)
    requires { Jobs (words printer.now) (pool printer.now) children.old (settings.now.level + 1) }
    ensures { (n : ℕ) → Did (words printer.now) (pool printer.now) (said settings.now) n tail children.old pen.old children.new pen.new }
{
    serialize::directives(printer, children, settings, pen);
    pen.write(b" ");
    serialize::curly(printer, Class::Selection, children, settings, pen);
}

fn operation(
    printer: &Printer,
    node: NodeNumber,
    children: &mut Children,
    settings: &Settings,
    pen: &mut Pen,
)
    requires { Parts (words printer.now) (pool printer.now) node.0 children.old settings.now.level }
    ensures { Did (words printer.now) (pool printer.now) (said settings.now) node.0 (rule_of 1) children.old pen.old children.new pen.new }
{
    leaves::operation_type(&printer.table, node, pen);
    leaves::if_named(&printer.table, node, b" ", pen);
    let class = Class::Kind(Kind::VariableDefinition);
    serialize::arguments(printer, class, children, settings, pen);
    tail(printer, children, settings, pen);
}

fn fragment(
    printer: &Printer,
    node: NodeNumber,
    children: &mut Children,
    settings: &Settings,
    pen: &mut Pen,
)
    requires { Parts (words printer.now) (pool printer.now) node.0 children.old settings.now.level }
    ensures { Did (words printer.now) (pool printer.now) (said settings.now) node.0 (rule_of 2) children.old pen.old children.new pen.new }
{
    pen.write(b"fragment ");
    layout::name(&printer.table, node, pen);
    pen.write(b" on ");
    serialize::one(printer, children, settings, pen);
    tail(printer, children, settings, pen);
}

fn directive_definition(
    printer: &Printer,
    node: NodeNumber,
    children: &mut Children,
    settings: &Settings,
    pen: &mut Pen,
)
    requires { Parts (words printer.now) (pool printer.now) node.0 children.old settings.now.level }
    ensures { Did (words printer.now) (pool printer.now) (said settings.now) node.0 (rule_of 3) children.old pen.old children.new pen.new }
{
    leaves::serialize_description(&printer.table, printer.classes, children, settings, pen);
    pen.write(b"directive @");
    layout::name(&printer.table, node, pen);
    serialize::arguments_def(printer, children, settings, pen);
    leaves::if_one(&printer.table, node, b" repeatable", pen);
    pen.write(b" on ");
    listed(printer, Kind::Location, Gap::Bar, children, settings, pen);
}

fn schema(
    printer: &Printer,
    node: NodeNumber,
    children: &mut Children,
    settings: &Settings,
    pen: &mut Pen,
)
    requires { Parts (words printer.now) (pool printer.now) node.0 children.old settings.now.level }
    ensures { Did (words printer.now) (pool printer.now) (said settings.now) node.0 (rule_of 4) children.old pen.old children.new pen.new }
{
    leaves::serialize_description(&printer.table, printer.classes, children, settings, pen);
    pen.write(b"schema");
    serialize::directives(printer, children, settings, pen);
    pen.write(b" ");
    let class = Class::Kind(Kind::RootOperation);
    serialize::curly(printer, class, children, settings, pen);
}

fn schema_extension(
    printer: &Printer,
    node: NodeNumber,
    children: &mut Children,
    settings: &Settings,
    pen: &mut Pen,
)
    requires { Parts (words printer.now) (pool printer.now) node.0 children.old settings.now.level }
    ensures { Did (words printer.now) (pool printer.now) (said settings.now) node.0 (rule_of 11) children.old pen.old children.new pen.new }
{
    pen.write(b"extend schema");
    serialize::directives(printer, children, settings, pen);
    let class = Class::Kind(Kind::RootOperation);
    serialize::opt_braces(printer, class, children, settings, pen);
}

// `serialize_object_type_like` of serialize.rs: what follows `type ` and `interface `.
fn object_type_like(
    printer: &Printer,
    node: NodeNumber,
    children: &mut Children,
    settings: &Settings,
    pen: &mut Pen,
)
    requires { Parts (words printer.now) (pool printer.now) node.0 children.old settings.now.level }
    ensures { Did (words printer.now) (pool printer.now) (said settings.now) node.0 object_tail children.old pen.old children.new pen.new }
{
    layout::name(&printer.table, node, pen);
    listed_after(
        printer,
        b" implements ",
        Kind::InterfaceName,
        Gap::Ampersand,
        children,
        settings,
        pen,
    );
    serialize::directives(printer, children, settings, pen);
    let class = Class::Kind(Kind::FieldDefinition);
    serialize::opt_braces(printer, class, children, settings, pen);
}

fn union(
    printer: &Printer,
    node: NodeNumber,
    children: &mut Children,
    settings: &Settings,
    pen: &mut Pen,
)
    requires { Parts (words printer.now) (pool printer.now) node.0 children.old settings.now.level }
    ensures { Did (words printer.now) (pool printer.now) (said settings.now) node.0 union children.old pen.old children.new pen.new }
{
    pen.write(b"union ");
    layout::name(&printer.table, node, pen);
    serialize::directives(printer, children, settings, pen);
    listed_after(
        printer,
        b" = ",
        Kind::UnionMember,
        Gap::Bar,
        children,
        settings,
        pen,
    );
}

fn scalar(
    printer: &Printer,
    node: NodeNumber,
    children: &mut Children,
    settings: &Settings,
    pen: &mut Pen,
)
    requires { Parts (words printer.now) (pool printer.now) node.0 children.old settings.now.level }
    ensures { Did (words printer.now) (pool printer.now) (said settings.now) node.0 scalar children.old pen.old children.new pen.new }
{
    pen.write(b"scalar ");
    layout::name(&printer.table, node, pen);
    serialize::directives(printer, children, settings, pen);
}

fn enumeration(
    printer: &Printer,
    node: NodeNumber,
    children: &mut Children,
    settings: &Settings,
    pen: &mut Pen,
)
    requires { Parts (words printer.now) (pool printer.now) node.0 children.old settings.now.level }
    ensures { Did (words printer.now) (pool printer.now) (said settings.now) node.0 enum children.old pen.old children.new pen.new }
{
    pen.write(b"enum ");
    layout::name(&printer.table, node, pen);
    serialize::directives(printer, children, settings, pen);
    let class = Class::Kind(Kind::EnumValueDefinition);
    serialize::opt_braces(printer, class, children, settings, pen);
}

fn input_object(
    printer: &Printer,
    node: NodeNumber,
    children: &mut Children,
    settings: &Settings,
    pen: &mut Pen,
)
    requires { Parts (words printer.now) (pool printer.now) node.0 children.old settings.now.level }
    ensures { Did (words printer.now) (pool printer.now) (said settings.now) node.0 input_object children.old pen.old children.new pen.new }
{
    pen.write(b"input ");
    layout::name(&printer.table, node, pen);
    serialize::directives(printer, children, settings, pen);
    let class = Class::Kind(Kind::InputValueDefinition);
    serialize::opt_braces(printer, class, children, settings, pen);
}

fn object(
    printer: &Printer,
    node: NodeNumber,
    children: &mut Children,
    settings: &Settings,
    pen: &mut Pen,
)
    requires { Parts (words printer.now) (pool printer.now) node.0 children.old settings.now.level }
    ensures { Did (words printer.now) (pool printer.now) (said settings.now) node.0 (object_like "type") children.old pen.old children.new pen.new }
{
    pen.write(b"type ");
    object_type_like(printer, node, children, settings, pen);
}

fn interface(
    printer: &Printer,
    node: NodeNumber,
    children: &mut Children,
    settings: &Settings,
    pen: &mut Pen,
)
    requires { Parts (words printer.now) (pool printer.now) node.0 children.old settings.now.level }
    ensures { Did (words printer.now) (pool printer.now) (said settings.now) node.0 (object_like "interface") children.old pen.old children.new pen.new }
{
    pen.write(b"interface ");
    object_type_like(printer, node, children, settings, pen);
}

// What the definition of a type and its extension share; nothing for other kinds.
fn type_like(
    printer: &Printer,
    kind: Kind,
    node: NodeNumber,
    children: &mut Children,
    settings: &Settings,
    pen: &mut Pen,
)
    requires { Parts (words printer.now) (pool printer.now) node.0 children.old settings.now.level }
    ensures { Did (words printer.now) (pool printer.now) (said settings.now) node.0 (body kind) children.old pen.old children.new pen.new }
{
    match kind {
        Kind::Scalar | Kind::ExtendScalar => scalar(printer, node, children, settings, pen),
        Kind::Object | Kind::ExtendObject => object(printer, node, children, settings, pen),
        Kind::Interface | Kind::ExtendInterface => interface(
            printer, node, children, settings, pen,
        ),
        Kind::Union | Kind::ExtendUnion => union(printer, node, children, settings, pen),
        Kind::Enum | Kind::ExtendEnum => enumeration(printer, node, children, settings, pen),
        Kind::InputObject | Kind::ExtendInputObject => input_object(
            printer, node, children, settings, pen,
        ),
        _ => {}
    }
}

fn type_definition(
    printer: &Printer,
    kind: Kind,
    node: NodeNumber,
    children: &mut Children,
    settings: &Settings,
    pen: &mut Pen,
)
    requires { Parts (words printer.now) (pool printer.now) node.0 children.old settings.now.level }
    ensures { Did (words printer.now) (pool printer.now) (said settings.now) node.0 (description ++ body kind) children.old pen.old children.new pen.new }
{
    leaves::serialize_description(&printer.table, printer.classes, children, settings, pen);
    type_like(printer, kind, node, children, settings, pen);
}

fn type_extension(
    printer: &Printer,
    kind: Kind,
    node: NodeNumber,
    children: &mut Children,
    settings: &Settings,
    pen: &mut Pen,
)
    requires { Parts (words printer.now) (pool printer.now) node.0 children.old settings.now.level }
    ensures { Did (words printer.now) (pool printer.now) (said settings.now) node.0 (extend ++ body kind) children.old pen.old children.new pen.new }
{
    pen.write(b"extend ");
    type_like(printer, kind, node, children, settings, pen);
}

fn serialize_kind(
    printer: &Printer,
    kind: Kind,
    node: NodeNumber,
    children: &mut Children,
    settings: &Settings,
    pen: &mut Pen,
)
    requires parts { Parts (words printer.now) (pool printer.now) node.0 children.old settings.now.level }
    requires first { 1 ≤ kind_number kind }
    requires last { kind_number kind ≤ 17 }
    ensures { Did (words printer.now) (pool printer.now) (said settings.now) node.0 (rule_of (kind_number kind)) children.old pen.old children.new pen.new }
{
    match kind {
        Kind::Operation => operation(printer, node, children, settings, pen),
        Kind::Fragment => fragment(printer, node, children, settings, pen),
        Kind::DirectiveDefinition => directive_definition(printer, node, children, settings, pen),
        Kind::Schema => schema(printer, node, children, settings, pen),
        Kind::ExtendSchema => schema_extension(printer, node, children, settings, pen),
        Kind::Scalar
        | Kind::Object
        | Kind::Interface
        | Kind::Union
        | Kind::Enum
        | Kind::InputObject => type_definition(printer, kind, node, children, settings, pen),
        Kind::ExtendScalar
        | Kind::ExtendObject
        | Kind::ExtendInterface
        | Kind::ExtendUnion
        | Kind::ExtendEnum
        | Kind::ExtendInputObject => type_extension(printer, kind, node, children, settings, pen),
        // the others are no definitions
        _ => unreachable!(),
    }
}

// A query with no name, variables or directives.
fn is_short(printer: &Printer, kind: Kind, node: NodeNumber, children: &Children) -> bool
    requires inside { node.0 < nodes (words printer.now) }
    requires kind { kind_number kind ≡ kind_at (words printer.now) node.0 }
    requires own { ChildrenOf (words printer.now) node.0 children.now }
    ensures { result ≡ short_at (words printer.now) node.0 (end_at (words printer.now) node.0) }
{
    let operation = kind == Kind::Operation;
    let query = printer.table.variant(node) == 0;
    let unnamed = printer.table.length(node) == 0;
    operation & (query & (unnamed & children.is_next(&printer.table, Class::Selection)))
}

// A definition; the first of a document may be shorthand.
pub fn serialize_definition(
    printer: &Printer,
    first: bool,
    node: NodeNumber,
    settings: &Settings,
    pen: &mut Pen,
)
    requires job { Job (words printer.now) (pool printer.now) node.0 settings.now.level }
    requires low { 1 ≤ kind_at (words printer.now) node.0 }
    requires high { kind_at (words printer.now) node.0 ≤ 17 }
    ensures { Wrote pen.old (definition_text (said settings.now) first (tree_at (words printer.now) (pool printer.now) node.0)) pen.new }
{
    let kind = printer.table.kind(node);
    let mut children = Children::of(&printer.table, node);
    if first && is_short(printer, kind, node, &children) {
        serialize::curly(printer, Class::Selection, &mut children, settings, pen);
    } else {
        serialize_kind(printer, kind, node, &mut children, settings, pen);
    }
}
