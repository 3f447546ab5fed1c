// What stands in the objects of rows.
use sm_shapes::kinds::ShapeKind;
use sm_tree::{NoMemory, Text, Tree};
use std::alloc::Global;

/// What stands under a name of an object.
pub fn part<'t>(object: &'t Tree, name: &str) -> Option<&'t Tree> {
    let Tree::Object(pairs) = object else {
        return None;
    };
    for pair in pairs.as_slice() {
        if pair.0.as_str() == name {
            return Some(&pair.1);
        }
    }
    None
}

/// A text under a name.
pub fn text_of<'t>(object: &'t Tree, name: &str) -> Option<&'t str> {
    match part(object, name) {
        Some(Tree::Text(text)) => Some(text.as_str()),
        _ => None,
    }
}

/// A copy of it.
pub fn copy_of(alloc: Global, object: &Tree, name: &str) -> Result<Option<Text>, NoMemory> {
    match text_of(object, name) {
        Some(text) => Ok(Some(Text::copy(alloc, text)?)),
        None => Ok(None),
    }
}

/// A whole number under a name.
pub fn number_of(object: &Tree, name: &str) -> Option<i64> {
    match part(object, name) {
        Some(Tree::Int(number)) => Some(*number),
        _ => None,
    }
}

/// Whether `true` stands under a name.
pub fn is_set(object: &Tree, name: &str) -> bool {
    match part(object, name) {
        Some(Tree::Bool(truth)) => *truth,
        _ => false,
    }
}

/// The pairs of an object under a name.
pub fn pairs_of<'t>(object: &'t Tree, name: &str) -> &'t [(Text, Tree)] {
    match part(object, name) {
        Some(Tree::Object(pairs)) => pairs.as_slice(),
        _ => &[],
    }
}

/// The entries of a list under a name.
pub fn items_of<'t>(object: &'t Tree, name: &str) -> &'t [Tree] {
    match part(object, name) {
        Some(Tree::List(items)) => items.as_slice(),
        _ => &[],
    }
}

/// The kind of shapes that Smithy's IDL has this word for; all other words are those of types without values.
pub fn kind_named(word: &str) -> ShapeKind {
    match word {
        "blob" => ShapeKind::Blob,
        "boolean" => ShapeKind::Boolean,
        "string" => ShapeKind::Text,
        "enum" => ShapeKind::Enum,
        "byte" => ShapeKind::Byte,
        "short" => ShapeKind::Short,
        "integer" => ShapeKind::Integer,
        "intEnum" => ShapeKind::IntEnum,
        "long" => ShapeKind::Long,
        "timestamp" => ShapeKind::Timestamp,
        "list" => ShapeKind::List,
        "map" => ShapeKind::Map,
        "structure" => ShapeKind::Structure,
        "union" => ShapeKind::Union,
        _ => ShapeKind::LeftOut,
    }
}
