// The types of shapes, and their names.
ghost use Rattle.std.specs.Prelude.{◌≡◌, MatchOption};
ghost use Rattle.sm_model.specs.Kinds.{kind_name};

/// The type of a shape (Smithy 2.0, "Simple types", "Aggregate types", "Service types"). Members are shapes of their own and
/// have none.
#[derive(Debug, Clone, Copy, PartialEq, Eq, Drop)]
pub enum Kind {
    /// `blob`
    Blob,
    /// `boolean`
    Boolean,
    /// `string`
    Text,
    /// `enum`
    Enum,
    /// `byte`
    Byte,
    /// `short`
    Short,
    /// `integer`
    Integer,
    /// `intEnum`
    IntEnum,
    /// `long`
    Long,
    /// `float`
    Float,
    /// `double`
    Double,
    /// `bigInteger`
    BigInteger,
    /// `bigDecimal`
    BigDecimal,
    /// `timestamp`
    Timestamp,
    /// `document`
    Document,
    /// `list`
    List,
    /// `map`
    Map,
    /// `structure`
    Structure,
    /// `union`
    Union,
    /// `service`
    Service,
    /// `operation`
    Operation,
    /// `resource`
    Resource,
}

impl Kind {
    /// The type with this name, as the IDL and the AST write it; `None` for any other text. No memory.
    pub fn named(name: &str) -> Option<Self>
        ensures { MatchOption result ((k : Kind) → name.now ≡ kind_name k → ⊥) (λ k. name.now ≡ kind_name k) }
    {
        match name {
            "blob" => Some(Kind::Blob),
            "boolean" => Some(Kind::Boolean),
            "string" => Some(Kind::Text),
            "enum" => Some(Kind::Enum),
            "byte" => Some(Kind::Byte),
            "short" => Some(Kind::Short),
            "integer" => Some(Kind::Integer),
            "intEnum" => Some(Kind::IntEnum),
            "long" => Some(Kind::Long),
            "float" => Some(Kind::Float),
            "double" => Some(Kind::Double),
            "bigInteger" => Some(Kind::BigInteger),
            "bigDecimal" => Some(Kind::BigDecimal),
            "timestamp" => Some(Kind::Timestamp),
            "document" => Some(Kind::Document),
            "list" => Some(Kind::List),
            "map" => Some(Kind::Map),
            "structure" => Some(Kind::Structure),
            "union" => Some(Kind::Union),
            "service" => Some(Kind::Service),
            "operation" => Some(Kind::Operation),
            "resource" => Some(Kind::Resource),
            _ => None,
        }
    }

    /// The name of the type. No memory.
    pub fn name(self) -> &'static str
        ensures { result.now ≡ kind_name self }
    {
        match self {
            Kind::Blob => "blob",
            Kind::Boolean => "boolean",
            Kind::Text => "string",
            Kind::Enum => "enum",
            Kind::Byte => "byte",
            Kind::Short => "short",
            Kind::Integer => "integer",
            Kind::IntEnum => "intEnum",
            Kind::Long => "long",
            Kind::Float => "float",
            Kind::Double => "double",
            Kind::BigInteger => "bigInteger",
            Kind::BigDecimal => "bigDecimal",
            Kind::Timestamp => "timestamp",
            Kind::Document => "document",
            Kind::List => "list",
            Kind::Map => "map",
            Kind::Structure => "structure",
            Kind::Union => "union",
            Kind::Service => "service",
            Kind::Operation => "operation",
            Kind::Resource => "resource",
        }
    }
}
