// One string literal, printed into lent memory.
#![tactic(auto)]

ghost use Rattle.std.specs.Prelude.{◌≡◌, ◌≤◌, length};
ghost use Rattle.meaning.specs.Settings.{times};
ghost use Rattle.meaning.specs.Literal.{takes_block, literal};
ghost use Rattle.meaning.specs.Answers.{printed_answer};
ghost use Rattle.meaning.specs.Entries.{printed_literal};
ghost use Rattle.pen.specs.Wrote.{Wrote};
ghost use Rattle.settings.specs.Said.{said};
ghost use Rattle.literal.specs.Chosen.{chosen, fit_of};

use meaning::{NodeNumber, Offset, Refusal};
use pen::Pen;
use quoted::Classes;
use settings::Settings;

const LEVELS: usize = 128;

const LONGEST_VALUE: usize = 65536;

// Block form needs breaks, a description or a line feed, and a value that a block string can stand for.
fn takes_block(settings: &Settings, description: bool, value: &[u8]) -> bool
    ensures { result ≡ takes_block (said settings.now) description value.now }
{
    settings.breaks
        && (description || block::contains_newline(value))
        && block::can_be_block_string(value)
}

// The literal in the form that was chosen: `"""abc"""` or `"abc"`.
fn write_chosen(
    classes: &Classes,
    blockwise: bool,
    value: &[u8],
    settings: &Settings,
    pen: &mut Pen,
)
    ensures { Wrote pen.old (chosen blockwise (times settings.now.level settings.now.prefix.now) value.now) pen.new }
{
    if blockwise {
        block::write_block_string(value, settings, pen);
    } else {
        classes.write_quoted(value, pen);
    }
}

// A literal where it stands in a document, `serialize_string_value` of serialize.rs.
pub fn serialize_string_value(
    classes: &Classes,
    description: bool,
    value: &[u8],
    settings: &Settings,
    pen: &mut Pen,
)
    ensures { Wrote pen.old (literal (said settings.now) description value.now) pen.new }
{
    let blockwise = takes_block(settings, description, value);
    write_chosen(classes, blockwise, value, settings, pen);
}

// Whether the literal fits into `room` bytes: by the bound of the quoted form, or measured.
fn check_room(
    classes: &Classes,
    blockwise: bool,
    value: &[u8],
    settings: &Settings,
    room: usize,
) -> Result<(), Refusal>
    requires { (length value.now ≤ 65536) × (length settings.now.prefix.now ≤ 16) × (settings.now.level ≤ 128) }
    ensures { result ≡ fit_of (chosen blockwise (times settings.now.level settings.now.prefix.now) value.now) room }
{
    if !blockwise && 6 * value.len() + 2 <= room {
        return Ok(());
    }
    let mut pen = Pen::over(&mut []);
    write_chosen(classes, blockwise, value, settings, &mut pen);
    if room < pen.at.0 {
        return Err(Refusal::Room(pen.at));
    }
    Ok(())
}

// The literal of `value` under the settings, into `out`: its length, or why nothing was written.
pub fn print_literal(
    value: &[u8],
    description: bool,
    settings: &Settings,
    out: &mut [u8],
) -> Result<Offset, Refusal>
    ensures { (printed_answer result, out.new) ≡ printed_literal (said settings.now) description value.now out.old }
{
    if settings.are_refused(LEVELS) {
        return Err(Refusal::Settings);
    }
    if LONGEST_VALUE < value.len() {
        return Err(Refusal::Size);
    }
    if !text::is_utf8(value) {
        return Err(Refusal::Text(NodeNumber(0)));
    }
    let classes = Classes::new();
    let blockwise = takes_block(settings, description, value);
    check_room(&classes, blockwise, value, settings, out.len())?;
    let mut pen = Pen::over(out);
    write_chosen(&classes, blockwise, value, settings, &mut pen);
    Ok(pen.at)
}
