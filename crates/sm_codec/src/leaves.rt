// How a format spells simple values, and under which names members stand. The codec is over any convention that meets the laws.
ghost use Rattle.std.specs.Prelude.{◌≡◌, ◌<◌, true, IfOk};
ghost use Rattle.sm_tree.specs.View.{node_of};
ghost use Rattle.sm_shapes.specs.TableData.{shape_count, member_count, members_at, member_with};
ghost use Rattle.sm_shapes.specs.InOrder.{Shaped};
ghost use Rattle.sm_shapes.specs.TableView.{table_data};
ghost use Rattle.sm_shapes.specs.ValueView.{val_of};
ghost use Rattle.sm_codec.specs.Convention.{Convention, IsConvention};
ghost use Rattle.sm_codec.specs.LeafAnswers.{ReadsLeaf};

use crate::Simple;
use sm_shapes::FaultKind;
use sm_shapes::tables::Table;
use sm_shapes::values::Value;
use sm_tree::{NoMemory, Tree};
use std::alloc::Global;

/// Why a leaf isn't read.
#[derive(Debug, Clone, Copy, PartialEq, Eq, Drop)]
pub enum LeafRefusal {
    /// The leaf spells no value of the simple type.
    Fault(FaultKind),
    /// The allocator refused the memory that the value needs.
    NoMemory,
}

/// A convention of leaves: how simple values are spelled, and the names of members.
pub trait Leaves {
    /// The convention as data.
    ghost convention: { Self → Convention };

    /// The name under which a member of a shape stands. In a table that is in order the members of one shape have different names.
    /// No memory.
    fn wire_name<'t>(&self, table: &'t Table, shape: u32, member: u32) -> &'t str
        requires { member < member_count (table_data table.now) }
        ensures { result.now ≡ (convention self.now).name (table_data table.now) shape member };

    /// The member of a shape that stands under this name. A binary search. No memory.
    fn member_named(&self, table: &Table, shape: u32, name: &str) -> Option<u32>
        requires number { shape < shape_count (table_data table.now) }
        requires shaped { Shaped (table_data table.now) }
        ensures { result ≡ member_with ((convention self.now).name (table_data table.now) shape) name.now
            (members_at (table_data table.now) shape) };

    /// The value that a tree spells where a simple type is, or the fault. A text or a blob takes as much memory as its length.
    fn read(&self, alloc: Global, simple: Simple, leaf: &Tree) -> Result<Value, LeafRefusal>
        ensures { ReadsLeaf ((convention self.now).read simple (node_of leaf.now)) result };

    /// Whether a value is one of the simple type, and the convention spells it. No memory.
    fn carries(&self, simple: Simple, value: &Value) -> bool
        ensures { result ≡ (convention self.now).carries simple (val_of value.now) };

    /// The tree that is written for a value. The caller must know that the convention carries it.
    fn write(&self, alloc: Global, simple: Simple, value: &Value) -> Result<Tree, NoMemory>
        requires { (convention self.now).carries simple (val_of value.now) ≡ true }
        ensures { IfOk result (λ tree. node_of tree ≡ (convention self.now).write simple (val_of value.now)) };

    /// The convention meets the laws. The call does nothing: code over any convention makes it to know them.
    fn laws(&self)
        ensures { IsConvention (convention self.now) };
}
