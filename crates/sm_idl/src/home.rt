// What the words of a file are relative to.
ghost use Rattle.sm_ids.specs.Identifier.{IsNamespace};

use sm_model::Uses;

/// The namespace of a file, and the ids that it uses.
#[derive(Debug, Clone, Copy, Drop)]
pub(crate) struct FileHome<'h> {
    /// The namespace.
    pub(crate) namespace: &'h str,
    /// The ids that the file uses, in order.
    pub(crate) uses: &'h Uses,
    pub(crate) ghost is_namespace: { IsNamespace namespace.now },
}
