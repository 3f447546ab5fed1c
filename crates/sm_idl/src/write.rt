// Models written in the IDL: the one text of a namespace of a graph.
ghost use Rattle.std.specs.Prelude.{◌≡◌, [], ◌∷◌, ◌++◌, IfOk, OnOk, codes};
ghost use Rattle.sm_bytes.specs.Ascii.{line_feed};
ghost use Rattle.sm_model.specs.GraphView.{maps_of};
ghost use Rattle.sm_idl.specs.Written.{written_idl};

mod field;
mod form;
mod id;
mod member;
mod put;
mod shape;
mod traits;
mod value;

use put::put;
use shape::put_shapes;
use sm_model::Graph;
use sm_tree::NoMemory;
use std::alloc::Global;
use traits::put_metadata;

/// The one text that is written for a namespace of a graph: the version, the metadata, the namespace, and the shapes of the
/// namespace outside the prelude, in the order of their ids. A namespace without such shapes has the lines before them alone.
/// `NoMemory` where the allocator refuses memory.
pub fn write_idl(alloc: Global, graph: &Graph, namespace: &str) -> Result<Vec<u8>, NoMemory>
    ensures { IfOk result (λ text. text.items ≡ written_idl (maps_of graph.now) namespace.now) }
{
    let mut out = Vec::new(alloc);
    put_idl(alloc, graph, namespace, &mut out)?;
    Ok(out)
}

fn put_idl(alloc: Global, graph: &Graph, namespace: &str, out: &mut Vec<u8>) -> Result<(), NoMemory>
    ensures { OnOk result (out.new.items ≡ out.old.items ++ written_idl (maps_of graph.now) namespace.now) }
{
    put("$version: \"2.0\"\n", out)?;
    put_metadata(alloc, graph.metadata(), out)?;
    put_namespace(namespace, out)?;
    put_shapes(alloc, graph, namespace, out)?;
    Ok(())
}

fn put_namespace(namespace: &str, out: &mut Vec<u8>) -> Result<(), NoMemory>
    ensures { OnOk result (out.new.items ≡ out.old.items ++ (codes "namespace " ++ namespace.now ++ line_feed ∷ [])) }
{
    put("namespace ", out)?;
    put(namespace, out)?;
    put("\n", out)
}
