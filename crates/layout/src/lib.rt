// What the printer of every kind is made of: a walk over children, a look at those ahead, and gaps.
#![tactic(auto)]

mod printer;

ghost use Rattle.std.specs.Prelude.{◌≡◌, ℕ, if◌then◌else◌};
ghost use Rattle.meaning.specs.Settings.{on_single_line};
ghost use Rattle.meaning.specs.Table.{text_at};
ghost use Rattle.meaning.specs.Children.{a, is_in};
ghost use Rattle.meaning.specs.KindNumbers.{kind_number};
ghost use Rattle.meaning.specs.Layout.{is_mark};
ghost use Rattle.pen.specs.Wrote.{Wrote};
ghost use Rattle.settings.specs.Said.{said};
ghost use Rattle.table.specs.Words.{InTable, TextInPool};
ghost use Rattle.layout.specs.Jobs.{Within, Ranged};
ghost use Rattle.layout.specs.Classes.{meant, is_selection, is_value};
ghost use Rattle.layout.specs.Kids.{next_is};
ghost use Rattle.layout.specs.Written.{gap_text, last_comma, ChildrenOf, Past};
ghost use Rattle.layout.specs.Marks.{mark_among, marked_run};

use meaning::{Kind, NodeNumber};
use pen::Pen;
pub use printer::Printer;
use settings::Settings;
use table::Table;

// A walk over the children of a node: the next one, and the node before which the last one ends.
#[derive(Clone, Copy)]
pub struct Children {
    pub next: NodeNumber,
    pub end: NodeNumber,
}

// What stands before each child of a walk: ` `, ` & `, ` | `, a new line or space, or a comma and that.
#[derive(Clone, Copy)]
pub enum Gap {
    Space,
    Ampersand,
    Bar,
    Line,
    Comma,
}

impl Gap {
    pub fn write(self, settings: &Settings, pen: &mut Pen)
        ensures { Wrote pen.old (gap_text self (said settings.now)) pen.new }
    {
        match self {
            Gap::Space => pen.write(b" "),
            Gap::Ampersand => pen.write(b" & "),
            Gap::Bar => pen.write(b" | "),
            Gap::Line => settings.new_line_or_space(pen),
            Gap::Comma => {
                pen.write(b",");
                settings.new_line_or_space(pen);
            }
        }
    }
}

// The comma after the last item of a list.
pub fn trailing_comma(settings: &Settings, pen: &mut Pen)
    ensures { Wrote pen.old (last_comma settings.now.breaks) pen.new }
{
    if settings.breaks {
        pen.write(b",");
    }
}

pub fn single_line_unless<'a>(marked: bool, settings: &Settings<'a>) -> Settings<'a>
    ensures { said result ≡ (if marked then said settings.now else on_single_line (said settings.now)) }
{
    if marked {
        *settings
    } else {
        settings.on_single_line()
    }
}

// What a place among the children asks for: a kind, by name or by its number; a selection; a value. The number stays, since `is_next` and
// `each` promise an answer for any number, one that is no kind's too.
#[derive(Clone, Copy)]
pub enum Class {
    Kind(Kind),
    Number(usize),
    Selection,
    Value,
}

fn is_selection(kind: Kind) -> bool
    ensures { result ≡ is_selection (kind_number kind) }
{
    matches!(
        kind,
        Kind::Field | Kind::FragmentSpread | Kind::InlineFragment
    )
}

fn is_value(kind: Kind) -> bool
    ensures { result ≡ is_value (kind_number kind) }
{
    matches!(
        kind,
        Kind::Null
            | Kind::Boolean
            | Kind::EnumValue
            | Kind::String
            | Kind::Variable
            | Kind::Float
            | Kind::Int
            | Kind::List
            | Kind::ObjectValue
    )
}

// Whether a kind of this number is a description or a directive.
fn is_mark(number: u32) -> bool
    ensures { result ≡ is_mark number }
{
    matches!(
        Kind::try_from(number),
        Ok(Kind::Description | Kind::Directive)
    )
}

impl Class {
    // Whether a kind of this number is in the class.
    #[inline(always)]
    fn holds(self, number: u32) -> bool
        ensures { (variant : ℕ) → result ≡ is_in (meant self) number variant }
    {
        match self {
            Class::Kind(wanted) => number as usize == wanted.number(),
            Class::Number(wanted) => number as usize == wanted,
            Class::Selection => match Kind::try_from(number) {
                Ok(kind) => is_selection(kind),
                Err(_) => false,
            },
            Class::Value => match Kind::try_from(number) {
                Ok(kind) => is_value(kind),
                Err(_) => false,
            },
        }
    }
}

// The text of a node.
#[inline(always)]
pub fn name(table: &Table, node: NodeNumber, pen: &mut Pen)
    requires { TextInPool table.now.words.now table.now.pool.now node.0 }
    ensures { Wrote pen.old (text_at table.now.words.now table.now.pool.now node.0) pen.new }
{
    pen.write(table.text(node));
}

impl Children {
    // The children of a node.
    pub fn of(table: &Table, node: NodeNumber) -> Children
        requires { InTable table.now.words.now node.0 }
        ensures { ChildrenOf table.now.words.now node.0 result }
    {
        Children {
            next: NodeNumber(node.0 + 1),
            end: NodeNumber(table.end(node)),
        }
    }

    // Past the next child.
    #[inline(always)]
    pub fn pass(&mut self, table: &Table)
        requires { InTable table.now.words.now self.old.next.0 }
        ensures { Past table.now.words.now self.old self.new }
    {
        self.next = NodeNumber(table.end(self.next));
    }

    // Whether the next child is there and of the class.
    #[inline(always)]
    pub fn is_next(&self, table: &Table, class: Class) -> bool
        requires { Within table.now.words.now self.now.end.0 }
        ensures { result ≡ next_is table.now.words.now (meant class) self.now.next.0 self.now.end.0 }
    {
        self.next.0 < self.end.0 && class.holds(table.kind_number(self.next))
    }

    // Whether there is a description or a directive among the children.
    fn has_mark(mut self, table: &Table) -> bool
        requires { Ranged table.now.words.now table.now.pool.now self.next.0 self.end.0 }
        ensures { result ≡ mark_among table.now.words.now table.now.pool.now self.next.0 self.end.0 }
    {
        // A `while`: it goes from child to child by their ends, and counts nothing.
        while self.next.0 < self.end.0 {
            if is_mark(table.kind_number(self.next)) {
                return true;
            }
            self.pass(table);
        }
        false
    }

    // Whether one of the next argument definitions has a description or a directive.
    pub fn any_marked(mut self, table: &Table) -> bool
        requires { Ranged table.now.words.now table.now.pool.now self.next.0 self.end.0 }
        ensures { result ≡ marked_run table.now.words.now table.now.pool.now (a 22) self.next.0 self.end.0 }
    {
        // A `while`, as in `has_mark`.
        while self.is_next(table, Class::Kind(Kind::InputValueDefinition)) {
            if Children::of(table, self.next).has_mark(table) {
                return true;
            }
            self.pass(table);
        }
        false
    }
}
