// The shapes of the prelude.
ghost use Rattle.std.specs.Prelude.{◌≡◌};
ghost use Rattle.std.specs.List.{list_any};
ghost use Rattle.std.specs.Str.{bytes_eq};
ghost use Rattle.sm_model.specs.Given.{given_ids};
ghost use Rattle.sm_model.specs.PreludeShapes.{is_prelude_id, fraction_shapes, integer_shapes, plain_shapes, primitive_shapes, unit_id};

/// Whether the id is that of a shape of the prelude. No memory.
pub fn is_in_prelude(id: &str) -> bool
    ensures { result ≡ is_prelude_id id.now }
{
    is_plain(id) || is_integer(id) || is_fraction(id) || is_primitive(id) || is_unit(id)
}

fn is_plain(id: &str) -> bool
    ensures { result ≡ list_any (bytes_eq id.now) (given_ids plain_shapes) }
{
    match id {
        "smithy.api#Blob"
        | "smithy.api#Boolean"
        | "smithy.api#String"
        | "smithy.api#Timestamp"
        | "smithy.api#Document" => true,
        _ => false,
    }
}

fn is_integer(id: &str) -> bool
    ensures { result ≡ list_any (bytes_eq id.now) (given_ids integer_shapes) }
{
    match id {
        "smithy.api#Byte"
        | "smithy.api#Short"
        | "smithy.api#Integer"
        | "smithy.api#Long"
        | "smithy.api#BigInteger" => true,
        _ => false,
    }
}

fn is_fraction(id: &str) -> bool
    ensures { result ≡ list_any (bytes_eq id.now) (given_ids fraction_shapes) }
{
    match id {
        "smithy.api#Float" | "smithy.api#Double" | "smithy.api#BigDecimal" => true,
        _ => false,
    }
}

fn is_primitive(id: &str) -> bool
    ensures { result ≡ list_any (bytes_eq id.now) (given_ids primitive_shapes) }
{
    match id {
        "smithy.api#PrimitiveBoolean"
        | "smithy.api#PrimitiveByte"
        | "smithy.api#PrimitiveShort"
        | "smithy.api#PrimitiveInteger"
        | "smithy.api#PrimitiveLong"
        | "smithy.api#PrimitiveFloat"
        | "smithy.api#PrimitiveDouble" => true,
        _ => false,
    }
}

fn is_unit(id: &str) -> bool
    ensures { result ≡ bytes_eq id.now unit_id }
{
    id == "smithy.api#Unit"
}
