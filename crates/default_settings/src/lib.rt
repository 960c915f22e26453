// Printing with document 01's default settings.
#![tactic(auto)]

ghost use Rattle.std.specs.Prelude.{◌≡◌};
ghost use Rattle.meaning.specs.Settings.{default_settings};
ghost use Rattle.meaning.specs.Answers.{printed_answer};
ghost use Rattle.meaning.specs.Entries.{printed_document};

use meaning::{Offset, Refusal};
use settings::Settings;
use table::Table;

// "Default: line breaks on, prefix two spaces, level 0."
pub fn print_document(table: &Table, out: &mut [u8]) -> Result<Offset, Refusal>
    ensures { (printed_answer result, out.new) ≡ printed_document default_settings table.now.words.now table.now.pool.now out.old }
{
    let settings = Settings {
        breaks: true,
        prefix: b"  ",
        level: 0,
    };
    document::print_document(&settings, table, out)
}
