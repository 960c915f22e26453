// What each kind allows, and the same in tables, so that it is read and not decided anew at each node.
ghost use Rattle.std.specs.Prelude.{◌≡◌};
ghost use Rattle.meaning.specs.KindNumbers.{kind_number};
ghost use Rattle.meaning.specs.Children.{row_of};
ghost use Rattle.meaning.specs.Refusals.{takes_no_text};
ghost use Rattle.nodes.specs.Kinds.{VariantsOf, Textless};

use meaning::Kind;
use table::{KINDS, by_kind};

#[tactic(auto, unfolding(meaning::specs::Children::row_of, meaning::specs::Children::rows))]
pub(crate) fn variants_of(kind: Kind) -> u8
    ensures { result ≡ (row_of (kind_number kind)).variants }
{
    match kind {
        Kind::Operation | Kind::RootOperation => 3,
        // repeatable or not
        Kind::DirectiveDefinition => 2,
        Kind::Location => 19,
        // non-null or not
        Kind::NamedType | Kind::ListType => 2,
        // true or false
        Kind::Boolean => 2,
        _ => 1,
    }
}

#[tactic(auto, unfolding(meaning::specs::Children::row_of, meaning::specs::Children::rows))]
pub(crate) fn takes_no_text(kind: Kind) -> bool
    ensures { result ≡ takes_no_text (row_of (kind_number kind)).text }
{
    matches!(
        kind,
        Kind::Document
            | Kind::Schema
            | Kind::ExtendSchema
            | Kind::Location
            | Kind::ListType
            | Kind::Null
            | Kind::Boolean
            | Kind::List
            | Kind::ObjectValue
    )
}

// By a kind's number: how many variants it has, and 1 where it takes no text, a number since it is multiplied with the text's length.
#[derive(Drop)]
pub(crate) struct KindTables {
    pub variants: [u8; KINDS],
    pub textless: [u8; KINDS],
    pub ghost variants_right: { VariantsOf variants },
    pub ghost textless_right: { Textless textless },
}

impl KindTables {
    pub(crate) fn new() -> Self {
        KindTables {
            variants: by_kind(variants_of),
            textless: by_kind(|kind| u8::from(takes_no_text(kind))),
        }
    }
}
