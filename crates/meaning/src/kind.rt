// Document 01's 45 kinds of nodes, in the order of their numbers.
ghost use Rattle.meaning.specs.KindNumbers.{kind_number, Named};
ghost use Rattle.std.specs.Prelude.{◌≡◌};

#[derive(Clone, Copy, Debug, PartialEq, Eq)]
pub enum Kind {
    Document,
    Operation,
    Fragment,
    DirectiveDefinition,
    Schema,
    Scalar,
    Object,
    Interface,
    Union,
    Enum,
    InputObject,
    ExtendSchema,
    ExtendScalar,
    ExtendObject,
    ExtendInterface,
    ExtendUnion,
    ExtendEnum,
    ExtendInputObject,
    Description,
    Directive,
    Argument,
    VariableDefinition,
    InputValueDefinition,
    FieldDefinition,
    EnumValueDefinition,
    RootOperation,
    InterfaceName,
    UnionMember,
    Location,
    Field,
    Alias,
    FragmentSpread,
    InlineFragment,
    NamedType,
    ListType,
    Null,
    Boolean,
    EnumValue,
    String,
    Variable,
    Float,
    Int,
    List,
    ObjectValue,
    ObjectField,
}

// A number that is no kind's.
#[derive(Clone, Copy, Debug, PartialEq, Eq)]
pub struct NoKind(pub u32);

impl TryFrom<u32> for Kind {
    type Error = NoKind;

    ghost try_from_gives = { Named };

    fn try_from(number: u32) -> Result<Self, NoKind> {
        match number {
            0 => Ok(Kind::Document),
            1 => Ok(Kind::Operation),
            2 => Ok(Kind::Fragment),
            3 => Ok(Kind::DirectiveDefinition),
            4 => Ok(Kind::Schema),
            5 => Ok(Kind::Scalar),
            6 => Ok(Kind::Object),
            7 => Ok(Kind::Interface),
            8 => Ok(Kind::Union),
            9 => Ok(Kind::Enum),
            10 => Ok(Kind::InputObject),
            11 => Ok(Kind::ExtendSchema),
            12 => Ok(Kind::ExtendScalar),
            13 => Ok(Kind::ExtendObject),
            14 => Ok(Kind::ExtendInterface),
            15 => Ok(Kind::ExtendUnion),
            16 => Ok(Kind::ExtendEnum),
            17 => Ok(Kind::ExtendInputObject),
            18 => Ok(Kind::Description),
            19 => Ok(Kind::Directive),
            20 => Ok(Kind::Argument),
            21 => Ok(Kind::VariableDefinition),
            22 => Ok(Kind::InputValueDefinition),
            23 => Ok(Kind::FieldDefinition),
            24 => Ok(Kind::EnumValueDefinition),
            25 => Ok(Kind::RootOperation),
            26 => Ok(Kind::InterfaceName),
            27 => Ok(Kind::UnionMember),
            28 => Ok(Kind::Location),
            29 => Ok(Kind::Field),
            30 => Ok(Kind::Alias),
            31 => Ok(Kind::FragmentSpread),
            32 => Ok(Kind::InlineFragment),
            33 => Ok(Kind::NamedType),
            34 => Ok(Kind::ListType),
            35 => Ok(Kind::Null),
            36 => Ok(Kind::Boolean),
            37 => Ok(Kind::EnumValue),
            38 => Ok(Kind::String),
            39 => Ok(Kind::Variable),
            40 => Ok(Kind::Float),
            41 => Ok(Kind::Int),
            42 => Ok(Kind::List),
            43 => Ok(Kind::ObjectValue),
            44 => Ok(Kind::ObjectField),
            _ => Err(NoKind(number)),
        }
    }
}

impl Kind {
    pub fn number(self) -> usize
        ensures { result ≡ kind_number self }
    {
        self as usize
    }
}
