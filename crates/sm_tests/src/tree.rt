// What only tests say of trees: which room their builder makes.
use sm_tree::{NoMemory, Tree, TreeBuilder};
use std::alloc::Global;
use std::test::Fail;

// The room of a list of one entry, of which so many were expected.
fn room_of(alloc: Global, expected: usize) -> Result<usize, NoMemory> {
    let mut builder = TreeBuilder::new(alloc);
    builder.start_list(expected)?;
    builder.value(Tree::Null)?;
    builder.end_list()?;
    match builder.finish() {
        Tree::List(items) => Ok(items.into_inner().capacity()),
        _ => Ok(0),
    }
}

#[test]
fn the_first_room_is_what_is_expected(rt: HostRuntime) -> Result<(), Fail> {
    for (expected, room) in [(0, 1), (1, 1), (3, 3), (4, 4), (1000, 4)] {
        assert_eq!(rt; room_of(rt.alloc(), expected)?, room);
    }
    Ok(())
}
