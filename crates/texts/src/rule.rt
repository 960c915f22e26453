// What a kind's text is: document 01's table of kinds, column "text".
ghost use Rattle.std.specs.Prelude.{◌≡◌};
ghost use Rattle.meaning.specs.KindNumbers.{kind_number};
ghost use Rattle.meaning.specs.Children.{row_of};
ghost use Rattle.meaning.specs.Text.{is_reserved, text_fits};
ghost use Rattle.texts.specs.Rule.{meant, highest};

use meaning::Kind;

#[derive(Clone, Copy)]
pub(crate) enum Rule {
    NoText,
    Name,
    NameOrEmpty,
    FragmentName,
    EnumName,
    Float,
    Int,
    AnyText,
}

#[tactic(auto, using(names::specs::Same::same_by_equality), unfolding(meaning::specs::Text::is_reserved))]
fn is_reserved(s: &[u8]) -> bool
    ensures { result ≡ is_reserved s.now }
{
    s == b"true".as_slice() || s == b"false".as_slice() || s == b"null".as_slice()
}

impl Rule {
    #[tactic(auto, unfolding(meaning::specs::Children::row_of))]
    pub(crate) fn of(kind: Kind) -> Rule
        ensures { meant result ≡ (row_of (kind_number kind)).text }
    {
        match kind {
            Kind::Document
            | Kind::Schema
            | Kind::ExtendSchema
            | Kind::Location
            | Kind::ListType
            | Kind::Null
            | Kind::Boolean
            | Kind::List
            | Kind::ObjectValue => Rule::NoText,
            Kind::Operation | Kind::InlineFragment => Rule::NameOrEmpty,
            Kind::Fragment | Kind::FragmentSpread => Rule::FragmentName,
            Kind::EnumValueDefinition | Kind::EnumValue => Rule::EnumName,
            Kind::Float => Rule::Float,
            Kind::Int => Rule::Int,
            Kind::Description | Kind::String => Rule::AnyText,
            _ => Rule::Name,
        }
    }

    #[tactic(auto, using(names::specs::Same::same_by_equality, names::specs::Same::same_as_nothing), unfolding(meaning::specs::Text::text_fits))]
    pub(crate) fn fits(self, s: &[u8]) -> bool
        ensures { result ≡ text_fits (meant self) s.now }
    {
        match self {
            Rule::NoText => s.is_empty(),
            Rule::Name => names::is_name(s),
            Rule::NameOrEmpty => s.is_empty() || names::is_name(s),
            Rule::FragmentName => names::is_name(s) && s != b"on".as_slice(),
            Rule::EnumName => names::is_name(s) && !is_reserved(s),
            Rule::Float => names::is_float(s),
            Rule::Int => names::is_int(s),
            Rule::AnyText => text::is_utf8(s),
        }
    }

    // A name that begins with no later byte is no other word: `on` is no fragment's name, and reserved words begin with small letters.
    pub(crate) fn highest(self) -> u8
        ensures { result ≡ highest (meant self) }
    {
        match self {
            Rule::NoText | Rule::Name | Rule::NameOrEmpty => 0xFF,
            Rule::FragmentName => b'n',
            Rule::EnumName => b'_',
            Rule::Float | Rule::Int | Rule::AnyText => 0,
        }
    }
}
