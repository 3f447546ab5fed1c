// What the codec's definitions have to do with each other. These calls do nothing.
ghost use Rattle.std.specs.Prelude.{Bool};
ghost use Rattle.sm_codec.specs.Bound.{KeptIsBounded};
ghost use Rattle.sm_codec.specs.CodecLaws.{OneValue, ValueOrFault, WrittenSpells};
ghost use Rattle.sm_codec.specs.Convention.{IsConvention, WrittenLeafReads};
ghost use Rattle.sm_codec.specs.FilledLaws.{FilledIsShaped};
ghost use Rattle.sm_codec.specs.WrittenLaws.{WritesJson, WritesCbor, WrittenIsJson, WrittenIsCbor};
ghost use Rattle.sm_codec.specs.Conventions.{cbor_convention, json_convention, node_convention};

/// The convention of CBOR meets the laws of conventions: what it writes is read again, among others.
pub fn cbor_leaves()
    ensures { IsConvention cbor_convention }
{}

/// So do those of JSON, by the members' names and by their JSON names.
pub fn json_leaves()
    ensures { (json_names : Bool) → IsConvention (json_convention json_names) }
{}

/// And those of the nodes of models, with blobs as texts of their bytes and in base64.
pub fn node_leaves()
    ensures { (raw_blobs : Bool) → IsConvention (node_convention raw_blobs) }
{}

/// What is written for a value that a convention carries is read again as that value.
pub fn written_leaf_reads()
    ensures json { (json_names : Bool) → WrittenLeafReads (json_convention json_names) }
    ensures cbor { WrittenLeafReads cbor_convention }
    ensures nodes { (raw_blobs : Bool) → WrittenLeafReads (node_convention raw_blobs) }
{}

/// In every table that is in order, by every convention: a tree has no fault at a place exactly where it spells some value of the place.
pub fn value_or_fault()
    ensures { ValueOrFault }
{}

/// A tree that has no fault at a place spells one value of it, which is what it comes to.
pub fn one_value()
    ensures { OneValue }
{}

/// The tree that is written for a value of a place, whose leaves are all carried, spells the value.
pub fn written_spells()
    ensures { WrittenSpells }
{}

/// Where the leaves that a convention writes can be written as JSON, so can the tree of every value that it carries.
pub fn written_is_json()
    ensures { WrittenIsJson }
{}

/// Where the leaves that a convention writes can be written as CBOR, so can the tree of every value that it carries.
pub fn written_is_cbor()
    ensures { WrittenIsCbor }
{}

/// What the conventions of JSON write can be written as JSON.
pub fn json_leaves_written()
    ensures { (json_names : Bool) → WritesJson (json_convention json_names) }
{}

/// What the conventions of the nodes of models write can be written as JSON.
pub fn node_leaves_written()
    ensures { (raw_blobs : Bool) → WritesJson (node_convention raw_blobs) }
{}

/// What the convention of CBOR writes can be written as CBOR.
pub fn cbor_leaves_written()
    ensures { WritesCbor cbor_convention }
{}

/// A table that is in order and has no default set stays in order where its defaults are filled, and they pass their patterns.
pub fn filled_is_shaped()
    ensures { FilledIsShaped }
{}

/// Whatever events a decoder stands for, by a codec in order, the values that it holds have at most one node for each tree that has begun at
/// a place that isn't passed over, and the defaults of one structure with each. Each such tree has an event of its own. The decoder has a
/// frame for each list and object that is open and isn't passed over, and one more at most. A frame has one fault at most.
pub fn kept_is_bounded()
    ensures { KeptIsBounded }
{}
