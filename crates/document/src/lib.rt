// A whole document: any table, settings and output get an answer.
#![tactic(auto)]

ghost use Rattle.std.specs.Prelude.{◌≡◌, ◌≤◌, ◌<◌};
ghost use Rattle.meaning.specs.Table.{tree_of, forest};
ghost use Rattle.meaning.specs.Layout.{apart, later_definitions, document_text};
ghost use Rattle.meaning.specs.Answers.{printed_answer};
ghost use Rattle.meaning.specs.Entries.{printed_document};
ghost use Rattle.meaning.specs.Refusals.{Accepted};
ghost use Rattle.pen.specs.Wrote.{Wrote};
ghost use Rattle.settings.specs.Said.{said};
ghost use Rattle.layout.specs.Read.{words, pool};
ghost use Rattle.document.specs.Top.{Tops, ending};

use layout::{Children, Printer};
use meaning::{NodeNumber, Offset, Refusal};
use pen::Pen;
use quoted::Classes;
use settings::Settings;
use table::Table;

// Between two definitions: an empty line, or a space.
fn apart(settings: &Settings, pen: &mut Pen)
    ensures { Wrote pen.old (apart (said settings.now)) pen.new }
{
    if settings.breaks {
        pen.write_byte(b'\n');
        settings.line_break(pen);
    } else {
        pen.write_byte(b' ');
    }
}

// The definitions that are left, each after what stands between two.
fn later_definitions(
    printer: &Printer,
    mut definitions: Children,
    settings: &Settings,
    pen: &mut Pen,
)
    requires accepted { Accepted (words printer.now) (pool printer.now) }
    requires tops { Tops (words printer.now) (pool printer.now) definitions.next.0 definitions.end.0 }
    requires level { settings.now.level ≤ 64 }
    ensures { Wrote pen.old (later_definitions (said settings.now) (forest (words printer.now) (pool printer.now) definitions.next.0 definitions.end.0)) pen.new }
{
    // A `while`: it goes from child to child by their ends, and counts nothing.
    while definitions.next.0 < definitions.end.0 {
        apart(settings, pen);
        definitions::serialize_definition(printer, false, definitions.next, settings, pen);
        definitions.pass(&printer.table);
    }
}

// The line feed after the last definition.
fn end_line(settings: &Settings, pen: &mut Pen)
    ensures { Wrote pen.old (ending settings.now.breaks) pen.new }
{
    if settings.breaks {
        pen.write_byte(b'\n');
    }
}

// `top_level` of serialize.rs.
fn top_level(printer: &Printer, settings: &Settings, pen: &mut Pen)
    requires accepted { Accepted (words printer.now) (pool printer.now) }
    requires level { settings.now.level ≤ 64 }
    ensures { Wrote pen.old (document_text (said settings.now) (tree_of (words printer.now) (pool printer.now))) pen.new }
{
    let mut definitions = Children::of(&printer.table, NodeNumber(0));
    if definitions.next.0 < definitions.end.0 {
        definitions::serialize_definition(printer, true, definitions.next, settings, pen);
        definitions.pass(&printer.table);
        later_definitions(printer, definitions, settings, pen);
        end_line(settings, pen);
    }
}

// The document of a table under the settings, into `out`: its length, or why nothing was written.
pub fn print_document(settings: &Settings, table: &Table, out: &mut [u8]) -> Result<Offset, Refusal>
    ensures { (printed_answer result, out.new) ≡ printed_document (said settings.now) table.now.words.now table.now.pool.now out.old }
{
    check_table::check_document(settings, table)?;
    let classes = Classes::new();
    let printer = Printer {
        table: *table,
        classes: &classes,
    };
    let mut measure = Pen::over(&mut []);
    top_level(&printer, settings, &mut measure);
    if out.len() < measure.at.0 {
        return Err(Refusal::Room(measure.at));
    }
    let mut pen = Pen::over(out);
    top_level(&printer, settings, &mut pen);
    Ok(pen.at)
}
