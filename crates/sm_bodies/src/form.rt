// The formats in which bodies are.

/// A format of bodies.
#[derive(Debug, Clone, Copy, PartialEq, Eq, Drop)]
pub enum BodyForm {
    /// JSON texts (RFC 8259).
    Json,
    /// Items of CBOR (RFC 8949).
    Cbor,
}
