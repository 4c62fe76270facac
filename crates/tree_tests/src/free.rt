//! Trees given back, seen by the slow program of `ref_trees`.

use crate::puts::{database, length_at, pages_of, payload_of, put_row};
use byte_base::u32_at;
use ref_trees::{is_whole_for, use_of};
use rowid_tree::{MemSpace, PageSpace, make_root};
use std::alloc::Global;
use std::process::Abort;
use std::test::Fail;
use tree_free::free_all;

/// How many pages are free, as page 1 says.
pub(crate) fn free_count(
    rt: &impl Abort,
    alloc: Global,
    space: &mut MemSpace,
) -> Result<u32, Fail> {
    assert!(rt; space.size() > 0);
    let mut page = vec![in alloc; 0u8; space.page_size() as usize]?;
    assert!(rt; page.len() == space.page_size() as usize && page.len() >= 512);
    space.get(1, &mut page)?;
    Ok(u32_at(&page, 36))
}

#[test]
fn a_freed_tree_is_on_the_freelist_and_the_others_are_whole(rt: HostRuntime) -> Result<(), Fail> {
    let mut space = database(&rt, rt.alloc(), 512, 32)?;
    assert!(rt; space.size() > 0);
    let first = make_root(rt.alloc(), &mut space)?;
    assert!(rt; space.size() > 0);
    let second = make_root(rt.alloc(), &mut space)?;
    for at in 0..60 {
        let payload = payload_of(rt.alloc(), at, length_at(at))?;
        for root in [first, second] {
            assert!(rt; !put_row(&rt, rt.alloc(), &mut space, root, at, &payload)?);
        }
    }
    let pages = pages_of(&rt, rt.alloc(), &mut space)?;
    let used = use_of(rt.alloc(), &pages, &[1, first, second])?.ok_or("no trees")?;
    let size = space.size();
    assert_eq!(rt; free_count(&rt, rt.alloc(), &mut space)?, 0);

    assert!(rt; space.size() > 0 && first != 1);
    free_all(rt.alloc(), &mut space, first)?;

    let pages = pages_of(&rt, rt.alloc(), &mut space)?;
    assert_eq!(rt; is_whole_for(rt.alloc(), &pages, &[1, second])?, Ok(()));
    let left = use_of(rt.alloc(), &pages, &[1, second])?.ok_or("no trees")?;
    assert!(rt; space.size() == size && left > 0 && left < used);
    assert!(rt; free_count(&rt, rt.alloc(), &mut space)? as usize == used - left);
    Ok(())
}
