// Every node below a definition, printed as serialize.rs prints it. One walk over children, `each`, decides by kind.
#![tactic(auto)]

ghost use Rattle.std.specs.Prelude.{◌∷◌, [], ◌++◌, ℕ, ◌+◌, ◌<◌};
ghost use Rattle.meaning.specs.Ascii.{ascii};
ghost use Rattle.meaning.specs.Table.{kind_at, tree_at};
ghost use Rattle.meaning.specs.Children.{a, rest, run, past};
ghost use Rattle.meaning.specs.Rules.{comma_separated, optional, single_line, single_line_unless_marked, argument_definitions, default_value, optional_braces, rule_of};
ghost use Rattle.meaning.specs.Layout.{child_in, first_said, each, in_braces, in_commas, node_text};
ghost use Rattle.pen.specs.Wrote.{Wrote};
ghost use Rattle.settings.specs.Said.{said};
ghost use Rattle.layout.specs.Classes.{meant};
ghost use Rattle.layout.specs.Written.{gap_text};
ghost use Rattle.layout.specs.Jobs.{Job, Jobs};
ghost use Rattle.layout.specs.Did.{Walked, Did};
ghost use Rattle.layout.specs.Read.{words, pool, ahead};
ghost use Rattle.serialize.specs.Parts.{Parts};

use layout::{Children, Class, Gap, Printer};
use meaning::{Kind, NodeNumber};
use pen::Pen;
use settings::Settings;

// ---- lists of children

// The next child, whatever its kind.
#[cycle(tree)]
#[inline(always)]
pub fn one(printer: &Printer, children: &mut Children, settings: &Settings, pen: &mut Pen)
    requires { Jobs (words printer.now) (pool printer.now) children.old settings.now.level }
    ensures { Walked (words printer.now) (pool printer.now) (first_said (said settings.now) (ahead printer.now children.old)) (rest child_in (ahead printer.now children.old)) children.old pen.old children.new pen.new }
{
    if children.next.0 < children.end.0 {
        serialize_impl(printer, children.next, settings, pen);
        children.pass(&printer.table);
    }
}

// The next children of the class, each after the gap.
#[cycle(tree)]
#[inline(always)]
pub fn each(
    printer: &Printer,
    class: Class,
    gap: Gap,
    children: &mut Children,
    settings: &Settings,
    pen: &mut Pen,
)
    requires { Jobs (words printer.now) (pool printer.now) children.old settings.now.level }
    ensures { Walked (words printer.now) (pool printer.now) (each (gap_text gap (said settings.now)) (said settings.now) (run child_in (meant class) (ahead printer.now children.old))) (past child_in (meant class) (ahead printer.now children.old)) children.old pen.old children.new pen.new }
{
    // A `while`: `one` goes on to the next child, which counts nothing.
    while children.is_next(&printer.table, class) {
        gap.write(settings, pen);
        one(printer, children, settings, pen);
    }
}

// `[a, b, c]` or, with breaks on, each on a line of its own with a comma after the last: `comma_separated` of serialize.rs.
#[cycle(tree)]
fn commas(
    printer: &Printer,
    left: &[u8],
    right: &[u8],
    class: Class,
    children: &mut Children,
    settings: &Settings,
    pen: &mut Pen,
)
    requires { Jobs (words printer.now) (pool printer.now) children.old (settings.now.level + 1) }
    ensures { Walked (words printer.now) (pool printer.now) (in_commas (said settings.now) left.now right.now (run child_in (meant class) (ahead printer.now children.old))) (past child_in (meant class) (ahead printer.now children.old)) children.old pen.old children.new pen.new }
{
    pen.write(left);
    if children.is_next(&printer.table, class) {
        let inner = settings.deeper();
        inner.new_line(pen);
        one(printer, children, &inner, pen);
        each(printer, class, Gap::Comma, children, &inner, pen);
        layout::trailing_comma(settings, pen);
        settings.new_line(pen);
    }
    pen.write(right);
}

// `{ a b c }` or, with breaks on, each on a line of its own: `curly_brackets_space_separated` of serialize.rs.
#[cycle(tree)]
pub fn curly(
    printer: &Printer,
    class: Class,
    children: &mut Children,
    settings: &Settings,
    pen: &mut Pen,
)
    requires { Jobs (words printer.now) (pool printer.now) children.old (settings.now.level + 1) }
    ensures { Walked (words printer.now) (pool printer.now) (in_braces (said settings.now) (run child_in (meant class) (ahead printer.now children.old))) (past child_in (meant class) (ahead printer.now children.old)) children.old pen.old children.new pen.new }
{
    pen.write(b"{");
    if children.is_next(&printer.table, class) {
        each(printer, class, Gap::Line, children, &settings.deeper(), pen);
        settings.new_line_or_space(pen);
    }
    pen.write(b"}");
}

// A space and the children of the class in braces, where there are any.
#[cycle(tree)]
#[inline(always)]
pub fn opt_braces(
    printer: &Printer,
    class: Class,
    children: &mut Children,
    settings: &Settings,
    pen: &mut Pen,
)
    requires { Jobs (words printer.now) (pool printer.now) children.old (settings.now.level + 1) }
    ensures { (n : ℕ) → Did (words printer.now) (pool printer.now) (said settings.now) n (optional_braces (meant class)) children.old pen.old children.new pen.new }
{
    if children.is_next(&printer.table, class) {
        pen.write(b" ");
        curly(printer, class, children, settings, pen);
    }
}

// Arguments or variables in parentheses, on one line, where there are any.
#[cycle(tree)]
#[inline(always)]
pub fn arguments(
    printer: &Printer,
    class: Class,
    children: &mut Children,
    settings: &Settings,
    pen: &mut Pen,
)
    requires { Jobs (words printer.now) (pool printer.now) children.old (settings.now.level + 1) }
    ensures { (n : ℕ) → Did (words printer.now) (pool printer.now) (said settings.now) n (optional (meant class) (comma_separated single_line (ascii "(") (ascii ")") (meant class) ∷ [])) children.old pen.old children.new pen.new }
{
    if children.is_next(&printer.table, class) {
        let line = settings.on_single_line();
        commas(printer, b"(", b")", class, children, &line, pen);
    }
}

// The directives, each after a space. Mostly there is none: the test stands apart from the walk, so that a caller is spared the call.
#[cycle(tree)]
#[inline(always)]
pub fn directives(printer: &Printer, children: &mut Children, settings: &Settings, pen: &mut Pen)
    requires { Jobs (words printer.now) (pool printer.now) children.old settings.now.level }
    ensures { Walked (words printer.now) (pool printer.now) (each (ascii " ") (said settings.now) (run child_in (a 19) (ahead printer.now children.old))) (past child_in (a 19) (ahead printer.now children.old)) children.old pen.old children.new pen.new }
{
    let class = Class::Kind(Kind::Directive);
    if children.is_next(&printer.table, class) {
        each(printer, class, Gap::Space, children, settings, pen);
    }
}

// Argument definitions in parentheses, on one line unless one has a description or a directive.
#[cycle(tree)]
fn signature(printer: &Printer, children: &mut Children, settings: &Settings, pen: &mut Pen)
    requires { Jobs (words printer.now) (pool printer.now) children.old (settings.now.level + 1) }
    ensures { (n : ℕ) → Did (words printer.now) (pool printer.now) (said settings.now) n (comma_separated single_line_unless_marked (ascii "(") (ascii ")") (a 22) ∷ []) children.old pen.old children.new pen.new }
{
    let marked = children.any_marked(&printer.table);
    let lines = layout::single_line_unless(marked, settings);
    let class = Class::Kind(Kind::InputValueDefinition);
    commas(printer, b"(", b")", class, children, &lines, pen);
}

// The same, where there are any.
#[cycle(tree)]
#[inline(always)]
pub fn arguments_def(printer: &Printer, children: &mut Children, settings: &Settings, pen: &mut Pen)
    requires { Jobs (words printer.now) (pool printer.now) children.old (settings.now.level + 1) }
    ensures { (n : ℕ) → Did (words printer.now) (pool printer.now) (said settings.now) n argument_definitions children.old pen.old children.new pen.new }
{
    if children.is_next(&printer.table, Class::Kind(Kind::InputValueDefinition)) {
        signature(printer, children, settings, pen);
    }
}

// ---- a node of each kind

// ` = value`, where there is a value.
#[cycle(tree)]
#[inline(always)]
fn default(printer: &Printer, children: &mut Children, settings: &Settings, pen: &mut Pen)
    requires { Jobs (words printer.now) (pool printer.now) children.old settings.now.level }
    ensures { (n : ℕ) → Did (words printer.now) (pool printer.now) (said settings.now) n default_value children.old pen.old children.new pen.new }
{
    if children.is_next(&printer.table, Class::Value) {
        pen.write(b" = ");
        one(printer, children, settings, pen);
    }
}

#[cycle(tree)]
#[inline(always)]
fn directive(
    printer: &Printer,
    node: NodeNumber,
    children: &mut Children,
    settings: &Settings,
    pen: &mut Pen,
)
    requires { Parts (words printer.now) (pool printer.now) node.0 children.old settings.now.level }
    ensures { Did (words printer.now) (pool printer.now) (said settings.now) node.0 (rule_of 19) children.old pen.old children.new pen.new }
{
    pen.write(b"@");
    layout::name(&printer.table, node, pen);
    arguments(
        printer,
        Class::Kind(Kind::Argument),
        children,
        settings,
        pen,
    );
}

// An argument, or a field of an object value.
#[cycle(tree)]
#[inline(always)]
fn argument(
    printer: &Printer,
    node: NodeNumber,
    children: &mut Children,
    settings: &Settings,
    pen: &mut Pen,
)
    requires { Parts (words printer.now) (pool printer.now) node.0 children.old settings.now.level }
    ensures { Did (words printer.now) (pool printer.now) (said settings.now) node.0 (rule_of 20) children.old pen.old children.new pen.new }
{
    layout::name(&printer.table, node, pen);
    pen.write(b": ");
    one(printer, children, settings, pen);
}

#[cycle(tree)]
#[inline(always)]
fn variable(
    printer: &Printer,
    node: NodeNumber,
    children: &mut Children,
    settings: &Settings,
    pen: &mut Pen,
)
    requires { Parts (words printer.now) (pool printer.now) node.0 children.old settings.now.level }
    ensures { Did (words printer.now) (pool printer.now) (said settings.now) node.0 (rule_of 21) children.old pen.old children.new pen.new }
{
    pen.write(b"$");
    layout::name(&printer.table, node, pen);
    pen.write(b": ");
    one(printer, children, settings, pen);
    default(printer, children, settings, pen);
    directives(printer, children, settings, pen);
}

// An InputValueDefinition.
#[cycle(tree)]
#[inline(always)]
fn input(
    printer: &Printer,
    node: NodeNumber,
    children: &mut Children,
    settings: &Settings,
    pen: &mut Pen,
)
    requires { Parts (words printer.now) (pool printer.now) node.0 children.old settings.now.level }
    ensures { Did (words printer.now) (pool printer.now) (said settings.now) node.0 (rule_of 22) children.old pen.old children.new pen.new }
{
    leaves::serialize_description(&printer.table, printer.classes, children, settings, pen);
    layout::name(&printer.table, node, pen);
    pen.write(b": ");
    one(printer, children, settings, pen);
    default(printer, children, settings, pen);
    directives(printer, children, settings, pen);
}

// A FieldDefinition.
#[cycle(tree)]
#[inline(always)]
fn field_def(
    printer: &Printer,
    node: NodeNumber,
    children: &mut Children,
    settings: &Settings,
    pen: &mut Pen,
)
    requires { Parts (words printer.now) (pool printer.now) node.0 children.old settings.now.level }
    ensures { Did (words printer.now) (pool printer.now) (said settings.now) node.0 (rule_of 23) children.old pen.old children.new pen.new }
{
    leaves::serialize_description(&printer.table, printer.classes, children, settings, pen);
    layout::name(&printer.table, node, pen);
    arguments_def(printer, children, settings, pen);
    pen.write(b": ");
    one(printer, children, settings, pen);
    directives(printer, children, settings, pen);
}

#[cycle(tree)]
#[inline(always)]
fn enum_value(
    printer: &Printer,
    node: NodeNumber,
    children: &mut Children,
    settings: &Settings,
    pen: &mut Pen,
)
    requires { Parts (words printer.now) (pool printer.now) node.0 children.old settings.now.level }
    ensures { Did (words printer.now) (pool printer.now) (said settings.now) node.0 (rule_of 24) children.old pen.old children.new pen.new }
{
    leaves::serialize_description(&printer.table, printer.classes, children, settings, pen);
    layout::name(&printer.table, node, pen);
    directives(printer, children, settings, pen);
}

#[cycle(tree)]
#[inline(always)]
fn field(
    printer: &Printer,
    node: NodeNumber,
    children: &mut Children,
    settings: &Settings,
    pen: &mut Pen,
)
    requires { Parts (words printer.now) (pool printer.now) node.0 children.old settings.now.level }
    ensures { Did (words printer.now) (pool printer.now) (said settings.now) node.0 (rule_of 29) children.old pen.old children.new pen.new }
{
    leaves::alias(&printer.table, children, pen);
    layout::name(&printer.table, node, pen);
    arguments(
        printer,
        Class::Kind(Kind::Argument),
        children,
        settings,
        pen,
    );
    directives(printer, children, settings, pen);
    opt_braces(printer, Class::Selection, children, settings, pen);
}

#[cycle(tree)]
#[inline(always)]
fn spread(
    printer: &Printer,
    node: NodeNumber,
    children: &mut Children,
    settings: &Settings,
    pen: &mut Pen,
)
    requires { Parts (words printer.now) (pool printer.now) node.0 children.old settings.now.level }
    ensures { Did (words printer.now) (pool printer.now) (said settings.now) node.0 (rule_of 31) children.old pen.old children.new pen.new }
{
    pen.write(b"...");
    layout::name(&printer.table, node, pen);
    directives(printer, children, settings, pen);
}

#[cycle(tree)]
#[inline(always)]
fn inline(
    printer: &Printer,
    node: NodeNumber,
    children: &mut Children,
    settings: &Settings,
    pen: &mut Pen,
)
    requires { Parts (words printer.now) (pool printer.now) node.0 children.old settings.now.level }
    ensures { Did (words printer.now) (pool printer.now) (said settings.now) node.0 (rule_of 32) children.old pen.old children.new pen.new }
{
    pen.write(b"...");
    leaves::if_named(&printer.table, node, b" on ", pen);
    directives(printer, children, settings, pen);
    pen.write(b" ");
    curly(printer, Class::Selection, children, settings, pen);
}

#[cycle(tree)]
#[inline(always)]
fn list(printer: &Printer, children: &mut Children, settings: &Settings, pen: &mut Pen)
    requires { Jobs (words printer.now) (pool printer.now) children.old (settings.now.level + 1) }
    ensures { (n : ℕ) → Did (words printer.now) (pool printer.now) (said settings.now) n (rule_of 42) children.old pen.old children.new pen.new }
{
    commas(printer, b"[", b"]", Class::Value, children, settings, pen);
}

#[cycle(tree)]
#[inline(always)]
fn object(printer: &Printer, children: &mut Children, settings: &Settings, pen: &mut Pen)
    requires { Jobs (words printer.now) (pool printer.now) children.old (settings.now.level + 1) }
    ensures { (n : ℕ) → Did (words printer.now) (pool printer.now) (said settings.now) n (rule_of 43) children.old pen.old children.new pen.new }
{
    let class = Class::Kind(Kind::ObjectField);
    commas(printer, b"{", b"}", class, children, settings, pen);
}

// Any node below a definition: the parts of its kind's rule.
#[cycle(tree)]
pub fn serialize_impl(printer: &Printer, node: NodeNumber, settings: &Settings, pen: &mut Pen)
    requires job { Job (words printer.now) (pool printer.now) node.0 settings.now.level }
    requires below { 17 < kind_at (words printer.now) node.0 }
    ensures { Wrote pen.old (node_text (tree_at (words printer.now) (pool printer.now) node.0) (said settings.now)) pen.new }
{
    // a kind that document 01 does not know has no rule
    let Ok(kind) = Kind::try_from(printer.table.kind_number(node)) else {
        return;
    };
    let mut own = Children::of(&printer.table, node);
    let children = &mut own;
    match kind {
        Kind::Description => leaves::string_value(
            &printer.table,
            printer.classes,
            true,
            node,
            settings,
            pen,
        ),
        Kind::Directive => directive(printer, node, children, settings, pen),
        Kind::Argument | Kind::ObjectField => argument(printer, node, children, settings, pen),
        Kind::VariableDefinition => variable(printer, node, children, settings, pen),
        Kind::InputValueDefinition => input(printer, node, children, settings, pen),
        Kind::FieldDefinition => field_def(printer, node, children, settings, pen),
        Kind::EnumValueDefinition => enum_value(printer, node, children, settings, pen),
        Kind::RootOperation => leaves::root_operation(&printer.table, node, pen),
        Kind::Location => leaves::location(&printer.table, node, pen),
        Kind::Field => field(printer, node, children, settings, pen),
        Kind::FragmentSpread => spread(printer, node, children, settings, pen),
        Kind::InlineFragment => inline(printer, node, children, settings, pen),
        Kind::NamedType | Kind::ListType => types::serialize_type(&printer.table, node, pen),
        Kind::Null => pen.write(b"null"),
        Kind::Boolean => leaves::boolean(&printer.table, node, pen),
        Kind::String => leaves::string_value(
            &printer.table,
            printer.classes,
            false,
            node,
            settings,
            pen,
        ),
        Kind::Variable => leaves::variable_value(&printer.table, node, pen),
        Kind::List => list(printer, children, settings, pen),
        Kind::ObjectValue => object(printer, children, settings, pen),
        Kind::InterfaceName
        | Kind::UnionMember
        | Kind::Alias
        | Kind::EnumValue
        | Kind::Float
        | Kind::Int => layout::name(&printer.table, node, pen),
        // no definition stands below another
        _ => unreachable!(),
    }
}
