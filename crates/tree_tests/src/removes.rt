//! Rows taken out of trees in memory, seen by the slow program of `ref_trees`.

use crate::free::free_count;
use crate::puts::{database, length_at, pages_of, payload_of, put_listed, put_row, see_whole};
use ref_trees::{is_whole_for, use_of};
use rowid_tree::{MemSpace, PageSpace, make_root};
use std::alloc::Global;
use std::process::Abort;
use std::test::Fail;
use tree_remove::remove;

/// Takes a row out.
fn remove_row(
    rt: &impl Abort,
    alloc: Global,
    space: &mut MemSpace,
    root: u32,
    rowid: i64,
) -> Result<bool, Fail> {
    assert!(rt; space.size() > 0);
    Ok(remove(alloc, space, root, rowid)?)
}

/// Sees that the pages are whole, and that each is used or free. Answers how many are used.
fn see_none_lost(
    rt: &impl Abort,
    alloc: Global,
    space: &mut MemSpace,
    roots: &[u32],
) -> Result<usize, Fail> {
    let pages = pages_of(rt, alloc, space)?;
    assert_eq!(rt; is_whole_for(alloc, &pages, roots)?, Ok(()));
    let used = use_of(alloc, &pages, roots)?.ok_or("no trees")?;
    let free = free_count(rt, alloc, space)? as usize;
    assert!(rt;
        used.wrapping_add(free) == space.size() as usize,
        "{used} used, {free} free"
    );
    Ok(used)
}

#[test]
fn a_thousand_rows_go_and_their_pages_are_free(rt: HostRuntime) -> Result<(), Fail> {
    for (rising, page_one) in [(true, false), (false, false), (true, true), (false, true)] {
        see_all_go(&rt, rt.alloc(), rising, page_one)?;
    }
    Ok(())
}

/// Puts rows of a hundred bytes, and takes all of them out in order.
fn see_all_go(rt: &impl Abort, alloc: Global, rising: bool, page_one: bool) -> Result<(), Fail> {
    let count = if page_one { 200 } else { 1000 };
    let mut space = database(rt, alloc, 512, 0)?;
    assert!(rt; space.size() > 0);
    let root = if page_one {
        1
    } else {
        make_root(alloc, &mut space)?
    };
    let both = [1, root];
    let roots = &both[..if page_one { 1 } else { 2 }];
    for rowid in 0..count {
        let payload = payload_of(alloc, rowid, 100)?;
        assert!(rt; !put_row(rt, alloc, &mut space, root, rowid, &payload)?);
    }
    for at in 0..count {
        let rowid = if rising {
            at
        } else {
            (count - 1).wrapping_sub(at)
        };
        assert!(rt; remove_row(rt, alloc, &mut space, root, rowid)?);
        if at % 10 == 9 {
            see_none_lost(rt, alloc, &mut space, roots)?;
        }
    }
    assert!(rt; see_none_lost(rt, alloc, &mut space, roots)? == roots.len());
    assert!(rt; !remove_row(rt, alloc, &mut space, root, 0)?);
    Ok(())
}

#[test]
fn a_long_row_gives_its_chain_back(rt: HostRuntime) -> Result<(), Fail> {
    let mut space = database(&rt, rt.alloc(), 512, 0)?;
    assert!(rt; space.size() > 0);
    let root = make_root(rt.alloc(), &mut space)?;
    let payload = payload_of(rt.alloc(), 7, 65_536)?;
    assert!(rt; !put_row(&rt, rt.alloc(), &mut space, root, 7, &payload)?);
    assert_eq!(rt; free_count(&rt, rt.alloc(), &mut space)?, 0);
    assert!(rt; remove_row(&rt, rt.alloc(), &mut space, root, 7)?);
    assert_eq!(rt; free_count(&rt, rt.alloc(), &mut space)?, 129);
    assert!(rt; see_none_lost(&rt, rt.alloc(), &mut space, &[1, root])? == 2);
    Ok(())
}

/// Sees that two lists of pages have the same bytes.
fn see_same(
    rt: &impl Abort,
    alloc: Global,
    space: &mut MemSpace,
    before: &[Vec<u8>],
) -> Result<(), Fail> {
    let after = bytes_of(rt, alloc, space)?;
    assert!(rt; after.len() == before.len());
    for (one, other) in after.iter().zip(before) {
        assert!(rt; one.as_slice() == other.as_slice());
    }
    Ok(())
}

/// The bytes of all pages.
fn bytes_of(rt: &impl Abort, alloc: Global, space: &mut MemSpace) -> Result<Vec<Vec<u8>>, Fail> {
    let mut pages = Vec::new(alloc);
    for number in 1..space.size().wrapping_add(1) {
        let mut page = vec![in alloc; 0u8; space.page_size() as usize]?;
        assert!(rt; 1 <= number && number <= space.size());
        assert!(rt; page.len() == space.page_size() as usize);
        space.get(number, &mut page)?;
        pages.push(page)?;
    }
    Ok(pages)
}

#[test]
fn a_row_that_is_not_there_changes_no_page(rt: HostRuntime) -> Result<(), Fail> {
    let mut space = database(&rt, rt.alloc(), 512, 32)?;
    assert!(rt; space.size() > 0);
    let root = make_root(rt.alloc(), &mut space)?;
    for at in 0i64..40 {
        let payload = payload_of(rt.alloc(), at, length_at(at))?;
        assert!(rt;
            !put_row(
                &rt,
                rt.alloc(),
                &mut space,
                root,
                at.wrapping_mul(2),
                &payload
            )?
        );
    }
    let before = bytes_of(&rt, rt.alloc(), &mut space)?;
    for rowid in [i64::MIN, -1, 1, 39, 79, i64::MAX] {
        assert!(rt; !remove_row(&rt, rt.alloc(), &mut space, root, rowid)?);
        see_same(&rt, rt.alloc(), &mut space, &before)?;
    }
    Ok(())
}

#[test]
fn rows_come_and_go(rt: HostRuntime) -> Result<(), Fail> {
    for (page_size, reserved) in [(512, 32), (4096, 0)] {
        see_mixed(&rt, rt.alloc(), page_size, reserved)?;
    }
    Ok(())
}

/// Puts rows into page 1 and two trees and takes others out of them, scattered, and at last all.
fn see_mixed(rt: &impl Abort, alloc: Global, page_size: u32, reserved: u8) -> Result<(), Fail> {
    let mut space = database(rt, alloc, page_size, reserved)?;
    assert!(rt; space.size() > 0);
    let first = make_root(alloc, &mut space)?;
    let roots = [1, first];
    let mut rows = Vec::new(alloc);
    for at in 0i64..600 {
        let rowid = at.wrapping_mul(37) % 167;
        if at % 5 < 3 {
            let len = length_at(at);
            let payload = payload_of(alloc, rowid, len)?;
            let replaces = put_listed(&mut rows, rowid, len)?;
            for root in roots {
                assert!(rt; put_row(rt, alloc, &mut space, root, rowid, &payload)? == replaces);
            }
        } else {
            let had = take_listed(&mut rows, rowid);
            for root in roots {
                assert!(rt; remove_row(rt, alloc, &mut space, root, rowid)? == had);
            }
        }
        if at % 10 == 9 {
            see_whole(rt, alloc, &mut space, &roots, &rows)?;
            see_none_lost(rt, alloc, &mut space, &roots)?;
        }
    }
    for (rowid, _) in &rows {
        for root in roots {
            assert!(rt; remove_row(rt, alloc, &mut space, root, *rowid)?);
        }
    }
    assert!(rt; see_none_lost(rt, alloc, &mut space, &roots)? == 2);
    Ok(())
}

/// Takes a row out of a sorted list of rowids and lengths, and answers whether there was one.
fn take_listed(rows: &mut Vec<(i64, usize)>, rowid: i64) -> bool {
    match rows.binary_search_by_key(&rowid, |row| row.0) {
        Ok(at) => {
            rows.remove(at);
            true
        }
        Err(_) => false,
    }
}
