// Nodes put together from their parts.
ghost use Rattle.std.specs.Prelude.{◌≡◌};
ghost use Rattle.sm_model.specs.Raw.{raw_id, raw_list, raws_of, empty_raw};
ghost use Rattle.sm_model.specs.RawView.{raw_view, raws_view, raw_members_view};
ghost use Rattle.sm_idl.specs.Nodes.{as_object};

use sm_model::{RawItems, RawNode, RawPairs, Ref};
use sm_tree::Text;
use std::alloc::Global;

/// An id.
pub(crate) fn id_node(id: Ref) -> RawNode
    ensures { raw_view result ≡ raw_id id }
{
    RawNode::Id(id)
}

/// A list of these nodes.
pub(crate) fn list_node(items: Vec<RawNode>) -> RawNode
    ensures { raw_view result ≡ raw_list (raws_of (raws_view items.items)) }
{
    RawNode::List(RawItems::new(items))
}

/// An object of these pairs.
pub(crate) fn object_node(pairs: Vec<(Text, RawNode)>) -> RawNode
    ensures { raw_view result ≡ as_object (raw_members_view pairs.items) }
{
    RawNode::Object(RawPairs::new(pairs))
}

/// An object without pairs.
pub(crate) fn empty_node(alloc: Global) -> RawNode
    ensures { raw_view result ≡ empty_raw }
{
    RawNode::Object(RawPairs::new(Vec::new(alloc)))
}
