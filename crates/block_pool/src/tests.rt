use crate::{Block, Pool};
use std::test::Fail;
use units::PAGE;

fn crosses_threads<T: Send + Sync>(value: T) -> T {
    value
}

/// Whether all bytes of a block of `pages` pages are zero.
fn is_wiped(block: &Block, pages: u32) -> bool {
    block.pages() == pages
        && block.bytes().len() as u64 == PAGE * u64::from(pages)
        && block.bytes().iter().all(|byte| *byte == 0)
}

/// Whether the pool keeps `kept` blocks, and made `made`.
fn counts(pool: &Pool, kept: u32, made: u64) -> bool {
    pool.kept() == kept && pool.made() == made
}

#[test]
fn a_kept_block_comes_back_wiped(rt: HostRuntime) -> Result<(), Fail> {
    let mut pool = crosses_threads(Pool::new(rt.alloc(), 1)?);
    let mut block = crosses_threads(pool.take(rt.alloc(), 1)?);
    block.bytes_mut().fill(255);
    pool.put(block);
    assert!(rt; counts(&pool, 1, 1) && pool.keeps(1) && !pool.keeps(2));
    let one = pool.take(rt.alloc(), 1)?;
    assert!(rt; is_wiped(&one, 1) && counts(&pool, 0, 1));
    let two = pool.take(rt.alloc(), 2)?;
    assert!(rt; is_wiped(&two, 2) && counts(&pool, 0, 2));
    assert!(rt; format!(in rt.alloc(); "{two:?}")?.as_str() == "Block { pages: 2, .. }");
    pool.put(one);
    pool.put(two);
    assert!(rt; counts(&pool, 1, 2) && pool.pages_put() == 4);
    let kept = pool.take(rt.alloc(), 1)?;
    assert!(rt; kept.pages() == 1 && counts(&pool, 0, 2));
    Ok(())
}
