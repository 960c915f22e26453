// Any table gets an answer: refusals 2 to 7 of document 01, the lowest number first, at the smallest node.
#![tactic(auto)]

ghost use Rattle.std.specs.Prelude.{◌≡◌};
ghost use Rattle.meaning.specs.Refusals.{size_fault};
ghost use Rattle.meaning.specs.Answers.{checked_answer};
ghost use Rattle.meaning.specs.Entries.{checked_table, checked_document};
ghost use Rattle.settings.specs.Said.{said};

use meaning::Refusal;
use settings::Settings;
use table::{Table, WORDS_PER_NODE};

const MOST_NODES: usize = 8192;

const LARGEST_POOL: usize = 65536;

const DOCUMENT_LEVELS: usize = 64;

#[tactic(auto, unfolding(meaning::specs::Refusals::size_fault))]
fn size_fault(table: &Table) -> bool
    ensures { result ≡ size_fault table.now.words.now table.now.pool.now }
{
    table.words.len() % WORDS_PER_NODE != 0
        || table.words.is_empty()
        || MOST_NODES < table.words.len() / WORDS_PER_NODE
        || LARGEST_POOL < table.pool.len()
}

// Accepted, or the lowest refusal at its smallest node.
pub fn check_table(table: &Table) -> Result<(), Refusal>
    ensures { checked_answer result ≡ checked_table table.now.words.now table.now.pool.now }
{
    if size_fault(table) {
        return Err(Refusal::Size);
    }
    let n = table.words.len() / WORDS_PER_NODE;
    if let Some(i) = nodes::first_node_fault(table, n) {
        return Err(Refusal::Node(i));
    }
    if let Some(i) = nesting::first_nesting_fault(table, n) {
        return Err(Refusal::Nesting(i));
    }
    if let Some(i) = depth::first_depth_fault(table, n) {
        return Err(Refusal::Depth(i));
    }
    if let Some(i) = children::first_children_fault(table, n) {
        return Err(Refusal::Children(i));
    }
    if let Some(i) = texts::first_text_fault(table, n) {
        return Err(Refusal::Text(i));
    }
    Ok(())
}

// The same for a document that is to be printed under these settings.
#[tactic(auto, unfolding(meaning::specs::Entries::checked_document))]
pub fn check_document(settings: &Settings, table: &Table) -> Result<(), Refusal>
    ensures { checked_answer result ≡ checked_document (said settings.now) table.now.words.now table.now.pool.now }
{
    if settings.are_refused(DOCUMENT_LEVELS) {
        return Err(Refusal::Settings);
    }
    check_table(table)
}
