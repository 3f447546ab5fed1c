// Faults: why a tree spells no value of a shape, and where. The codec finds them, and programs print them.
ghost use Rattle.std.specs.Prelude.{◌≡◌};
ghost use Rattle.sm_shapes.specs.FaultWords.{fault_word};

use sm_tree::Path;

/// Why a tree, or a part of it, spells no value of its shape.
#[derive(Debug, Clone, Copy, PartialEq, Eq, Drop)]
pub enum FaultKind {
    /// The tree is of another type than the shape's values. Prints as `Type`.
    WrongType,
    /// Null in a list or a map that isn't sparse.
    Null,
    /// A member's name, or a map's key, stands twice or more.
    Repeated,
    /// A required member without a default is absent or null.
    Missing,
    /// A whole number that the shape's width doesn't hold.
    Width,
    /// A text that is no base64 of bytes.
    Base64,
    /// A leaf of the right type that is no stamp's.
    Time,
    /// A length outside the bounds of the trait `length`.
    Length,
    /// A text that the trait `pattern` doesn't find.
    Pattern,
    /// None of an enum's values.
    Enum,
    /// A number outside the bounds of the trait `range`.
    Range,
    /// Two entries of a list with the trait `uniqueItems` are equal.
    Unique,
    /// A union of which no member is there, or more than one.
    UnionCount,
    /// A value that the protocol on the other side can't spell.
    NotCarried,
}

impl FaultKind {
    /// The word that is printed for the kind.
    pub fn word(self) -> &'static str
        ensures { result.now ≡ fault_word self }
    {
        match self {
            FaultKind::WrongType => "Type",
            FaultKind::Null => "Null",
            FaultKind::Repeated => "Repeated",
            FaultKind::Missing => "Missing",
            FaultKind::Width => "Width",
            FaultKind::Base64 => "Base64",
            FaultKind::Time => "Time",
            FaultKind::Length => "Length",
            FaultKind::Pattern => "Pattern",
            FaultKind::Enum => "Enum",
            FaultKind::Range => "Range",
            FaultKind::Unique => "Unique",
            FaultKind::UnionCount => "UnionCount",
            FaultKind::NotCarried => "NotCarried",
        }
    }
}

/// A fault of a tree for a shape.
#[derive(Debug, Drop)]
pub struct Fault {
    /// Where it is, from the tree's root.
    pub path: Path,
    /// Why the part there spells no value.
    pub kind: FaultKind,
}
