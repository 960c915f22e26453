// What the C interface answers, in numbers and byte slices: the result is document 01's number, 0 for success. The static library
// `gateway_c` exports these functions under their names, with these parameters.
#![tactic(auto)]

ghost use Rattle.std.specs.Prelude.{◌≡◌};
ghost use Rattle.meaning.specs.Answers.{checked_answer, printed_answer};
ghost use Rattle.meaning.specs.Entries.{printed_literal_by_numbers, read_literal, checked_table, checked_document_by_numbers, printed_document_by_numbers};
ghost use Rattle.gateway.specs.Numbers.{Told, ToldForm, ToldPlace, ToldWhole};
ghost use Rattle.gateway.specs.Switches.{SwitchIs, SettingsAre};

use meaning::{Offset, Refusal};
use settings::Settings;
use table::Table;

// A yes-or-no number: one that is neither 0 nor 1 is refused.
fn switch(number: u32) -> Result<bool, Refusal>
    ensures { SwitchIs number result }
{
    match number {
        0 => Ok(false),
        1 => Ok(true),
        _ => Err(Refusal::Settings),
    }
}

// The settings that numbers say.
fn settings_of<'a>(breaks: u32, prefix: &'a [u8], level: u64) -> Result<Settings<'a>, Refusal>
    ensures { SettingsAre breaks prefix.entry.now level result }
{
    Ok(Settings {
        breaks: switch(breaks)?,
        prefix,
        level: level as usize,
    })
}

fn print_literal(
    value: &[u8],
    description: u32,
    breaks: u32,
    prefix: &[u8],
    level: u64,
    out: &mut [u8],
) -> Result<Offset, Refusal>
    ensures { (printed_answer result, out.new) ≡ printed_literal_by_numbers breaks prefix.now level description value.now out.old }
{
    let settings = settings_of(breaks, prefix, level)?;
    literal::print_literal(value, switch(description)?, &settings, out)
}

fn check_document(breaks: u32, prefix: &[u8], level: u64, table: &Table) -> Result<(), Refusal>
    ensures { checked_answer result ≡ checked_document_by_numbers breaks prefix.now level table.now.words.now table.now.pool.now }
{
    check_table::check_document(&settings_of(breaks, prefix, level)?, table)
}

fn print_document(
    breaks: u32,
    prefix: &[u8],
    level: u64,
    table: &Table,
    out: &mut [u8],
) -> Result<Offset, Refusal>
    ensures { (printed_answer result, out.new) ≡ printed_document_by_numbers breaks prefix.now level table.now.words.now table.now.pool.now out.old }
{
    document::print_document(&settings_of(breaks, prefix, level)?, table, out)
}

pub fn dervisclo_print_literal(
    value: &[u8],
    description: u32,
    breaks: u32,
    prefix: &[u8],
    level: u64,
    out: &mut [u8],
    length: &mut u64,
) -> u32
    ensures { Told (printed_literal_by_numbers breaks prefix.now level description value.now out.old) result length.new out.new }
{
    match print_literal(value, description, breaks, prefix, level, out) {
        Ok(n) => {
            *length = n.0 as u64;
            0
        }
        Err(why) => {
            *length = numbers::needed(why);
            numbers::number(why)
        }
    }
}

pub fn dervisclo_read_literal(text: &[u8], out: &mut [u8], length: &mut u64, form: &mut u32) -> u32
    ensures { ToldForm (read_literal text.now out.old) result length.new form.new out.new }
{
    match reader::read_literal(text, out) {
        Ok((found, n)) => {
            *length = n.0 as u64;
            *form = numbers::form_number(found);
            0
        }
        Err(why) => {
            *length = numbers::needed(why);
            *form = 0;
            numbers::number(why)
        }
    }
}

// The number and the place of what is said of a table.
fn tell(answer: Result<(), Refusal>, place: &mut u64) -> u32
    ensures { ToldPlace (checked_answer answer) result place.new }
{
    match answer {
        Ok(()) => {
            *place = 0;
            0
        }
        Err(why) => {
            *place = numbers::place(why);
            numbers::number(why)
        }
    }
}

// The lowest refusal of a table, and its place; 0 where it is accepted.
pub fn dervisclo_check_table(words: &[u32], pool: &[u8], place: &mut u64) -> u32
    ensures { ToldPlace (checked_table words.now pool.now) result place.new }
{
    tell(check_table::check_table(&Table { words, pool }), place)
}

// The same for a document that is to be printed under these settings.
pub fn dervisclo_check_document(
    breaks: u32,
    prefix: &[u8],
    level: u64,
    words: &[u32],
    pool: &[u8],
    place: &mut u64,
) -> u32
    ensures { ToldPlace (checked_document_by_numbers breaks prefix.now level words.now pool.now) result place.new }
{
    tell(
        check_document(breaks, prefix, level, &Table { words, pool }),
        place,
    )
}

// A table's document under these settings: its length, or the lowest refusal with its place or the needed length.
pub fn dervisclo_print_document(
    breaks: u32,
    prefix: &[u8],
    level: u64,
    words: &[u32],
    pool: &[u8],
    out: &mut [u8],
    place: &mut u64,
    length: &mut u64,
) -> u32
    ensures { ToldWhole (printed_document_by_numbers breaks prefix.now level words.now pool.now out.old) result place.new length.new out.new }
{
    match print_document(breaks, prefix, level, &Table { words, pool }, out) {
        Ok(n) => {
            *place = 0;
            *length = n.0 as u64;
            0
        }
        Err(why) => {
            *place = numbers::place(why);
            *length = numbers::needed(why);
            numbers::number(why)
        }
    }
}
