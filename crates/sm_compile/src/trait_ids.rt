// The ids of the traits that tables are made from and that rules look at (Smithy 2.0, "Trait index"), each the text of its definition in
// `specs/TraitIds.antt`.

/// A member that each value has.
pub const REQUIRED: &str = "smithy.api#required";

/// The value of a member that is not given.
pub const DEFAULT: &str = "smithy.api#default";

/// A list or map that may hold nulls.
pub const SPARSE: &str = "smithy.api#sparse";

/// A list whose values differ.
pub const UNIQUE_ITEMS: &str = "smithy.api#uniqueItems";

/// Bounds of a length.
pub const LENGTH: &str = "smithy.api#length";

/// Bounds of a number.
pub const RANGE: &str = "smithy.api#range";

/// A regular expression that each text matches.
pub const PATTERN: &str = "smithy.api#pattern";

/// The value of a member of an enum.
pub const ENUM_VALUE: &str = "smithy.api#enumValue";

/// How a timestamp is written.
pub const TIMESTAMP_FORMAT: &str = "smithy.api#timestampFormat";

/// The name of a member in JSON.
pub const JSON_NAME: &str = "smithy.api#jsonName";

/// The media type of a text or blob.
pub const MEDIA_TYPE: &str = "smithy.api#mediaType";

/// A blob or union that is sent piece by piece.
pub const STREAMING: &str = "smithy.api#streaming";

/// An operation that changes nothing.
pub const READONLY: &str = "smithy.api#readonly";

/// An operation that may be asked for again.
pub const IDEMPOTENT: &str = "smithy.api#idempotent";

/// The input of one operation.
pub const INPUT: &str = "smithy.api#input";

/// The output of one operation.
pub const OUTPUT: &str = "smithy.api#output";

/// A structure that is an error, and whose fault it is.
pub const ERROR: &str = "smithy.api#error";

/// A member by which a request is known again.
pub const IDEMPOTENCY_TOKEN: &str = "smithy.api#idempotencyToken";

/// The method, the pattern and the status code of an operation.
pub const HTTP: &str = "smithy.api#http";

/// The status code of an error.
pub const HTTP_ERROR: &str = "smithy.api#httpError";

/// A member in a label of the pattern.
pub const HTTP_LABEL: &str = "smithy.api#httpLabel";

/// A member in the query.
pub const HTTP_QUERY: &str = "smithy.api#httpQuery";

/// A map of names and values in the query.
pub const HTTP_QUERY_PARAMS: &str = "smithy.api#httpQueryParams";

/// A member in a header.
pub const HTTP_HEADER: &str = "smithy.api#httpHeader";

/// A map of headers that begin with one prefix.
pub const HTTP_PREFIX_HEADERS: &str = "smithy.api#httpPrefixHeaders";

/// A member that is the whole body.
pub const HTTP_PAYLOAD: &str = "smithy.api#httpPayload";

/// A member in the status code.
pub const HTTP_RESPONSE_CODE: &str = "smithy.api#httpResponseCode";

/// A shape whose id is that of a trait.
pub const TRAIT: &str = "smithy.api#trait";

/// Events that are left out.
pub const SUPPRESS: &str = "smithy.api#suppress";

/// A shape that is mixed into others.
pub const MIXIN: &str = "smithy.api#mixin";
