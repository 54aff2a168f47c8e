//! The next free block from a number on is taken first. No clause says which.

use lis_blockmap::BlockMap;
use std::test::Fail;

#[test]
fn the_next_free_block_is_taken(rt: HostRuntime) -> Result<(), Fail> {
    let mut map = BlockMap::new(rt.alloc(), 4)?;
    map.mark(1);
    assert!(rt; map.take(1) == Some(2));
    assert!(rt; map.take(4) == Some(0));
    assert!(rt; map.take(0) == Some(3));
    assert!(rt; map.take(2).is_none());
    if map.is_taken(0) {
        map.give(0);
    }
    assert!(rt; map.take(1) == Some(0));
    Ok(())
}
