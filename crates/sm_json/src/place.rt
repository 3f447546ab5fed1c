// Where a reader stands within a JSON text (RFC 8259), between two bytes.
use sm_tree::number::Phase;

/// One of the three literal names (section 3).
#[derive(Debug, Clone, Copy, PartialEq, Eq, Drop)]
pub enum Literal {
    /// `null`.
    Null,
    /// `true`.
    True,
    /// `false`.
    False,
}

/// What a string stands for.
#[derive(Debug, Clone, Copy, PartialEq, Eq, Drop)]
pub enum Role {
    /// The name of a pair.
    Key,
    /// A value.
    Value,
}

/// Where a reader stands.
#[derive(Debug, Clone, Copy, PartialEq, Eq, Drop)]
pub enum JsonPlace {
    /// A value must come.
    Value,
    /// A bracket has opened: a value or the closing bracket must come.
    FirstEntry,
    /// A brace has opened: a name or the closing brace must come.
    FirstKey,
    /// A comma stood in an object: a name must come.
    NextKey,
    /// A name has ended: a colon must come.
    Colon,
    /// A value has ended.
    After,
    /// In a literal name, behind so many of its letters.
    Word(Literal, u8),
    /// In a number.
    Number(Phase),
    /// In a string.
    Text(Role),
}
