//! Damaged trees, which are not given back.

use crate::free_all;
use page_pool::{MemSpace, PageSpace, SpaceFault};
use std::process::Abort;
use std::test::Fail;

/// An interior page of 512 bytes with one cell, at its end: the four bytes of the child, and the key.
fn interior(child: u8, key: u8, right: u8) -> [u8; 512] {
    let mut page = [0; 512];
    page[0] = 5;
    page[4] = 1;
    (page[5], page[6]) = (0x01, 0xfb);
    page[11] = right;
    (page[12], page[13]) = (0x01, 0xfb);
    page[510] = child;
    page[511] = key;
    page
}

/// A leaf of 512 bytes without a row.
fn leaf() -> [u8; 512] {
    let mut page = [0; 512];
    (page[0], page[5]) = (13, 0x02);
    page
}

/// The same as page 1, behind the header of the database.
fn first_leaf() -> [u8; 512] {
    let mut page = [0; 512];
    (page[100], page[105]) = (13, 0x02);
    page
}

/// Adds a page.
fn add(rt: &impl Abort, space: &mut MemSpace, page: &[u8; 512]) -> Result<(), Fail> {
    let number = space.grow()?;
    assert!(rt; 1 <= number && number <= space.size());
    assert!(rt; space.page_size() == 512 && space.usable() == 512);
    space.put(number, page)?;
    Ok(())
}

/// Whether a page holds this.
fn holds(
    rt: &impl Abort,
    space: &mut MemSpace,
    number: u32,
    page: &[u8; 512],
) -> Result<bool, Fail> {
    assert!(rt; 1 <= number && number <= space.size() && space.page_size() == 512);
    let mut found = [0; 512];
    space.get(number, &mut found)?;
    Ok(found == *page)
}

#[test]
fn a_page_that_is_met_again_is_named_and_nothing_changes(rt: HostRuntime) -> Result<(), Fail> {
    // the right-most children of pages 2 and 3, whose first children are 4 and 5, and the page that is named: in a loop, twice
    // on one page and on two, page 1, and a number out of range
    let cases = [(3, 2, 2), (4, 5, 4), (3, 4, 4), (3, 1, 1), (3, 6, 3)];
    for (second, third, named) in cases {
        let pages = [
            first_leaf(),
            interior(4, 7, second),
            interior(5, 9, third),
            leaf(),
            leaf(),
        ];
        let mut space = MemSpace::new(rt.alloc(), 512, 0)?;
        for page in &pages {
            add(&rt, &mut space, page)?;
        }
        assert!(rt; space.size() > 0);
        let freed = free_all(rt.alloc(), &mut space, 2);
        assert_eq!(rt; freed, Err(SpaceFault::Corrupt { page: named }));
        for (number, page) in (1..6).zip(&pages) {
            assert!(rt; holds(&rt, &mut space, number, page)?);
        }
    }
    Ok(())
}
