//! Rows put into trees in memory, seen by `next_from` and by the slow program of `ref_trees`.

ghost use Rattle.std.specs.Prelude.{◌≡◌, ◌≤◌, IfOk};
ghost use Rattle.page_pool.specs.Memory.{mem_state};

use db_format::{Bytes, Value, new_header, write_record};
use page_pool::put_cleared;
use ref_pages::{RefPage, RefPages};
use ref_trees::{Walked, cells_at, is_whole_for, need_of, use_of, walk_of};
use rowid_tree::{MemSpace, PageSpace, find, make_root, next_from, put};
use std::alloc::Global;
use std::process::Abort;
use std::test::Fail;
use tree_model::WalkEnd;
use tree_page::{LeafCells, PageCells, write_page};

/// A space of page 1 alone, with the header of a database and a tree without a row.
pub(crate) fn database(
    rt: &impl Abort,
    alloc: Global,
    page_size: u32,
    reserved: u8,
) -> Result<MemSpace, Fail> {
    assert!(rt; page_size == 512 || page_size == 4096);
    assert!(rt; reserved <= 32);
    let mut space = MemSpace::new(alloc, page_size, reserved)?;
    space.grow()?;
    let mut page = vec![in alloc; 0u8; page_size as usize]?;
    let cells = PageCells::Leaf(LeafCells::from_vec(Vec::new(alloc)));
    write_page(&cells, 1, page_size - u32::from(reserved), &mut page);
    new_header(page_size, reserved, &mut page);
    put_cleared(&mut space, 1, &mut page)?;
    Ok(space)
}

/// The pages of a space, for the slow program.
pub(crate) fn pages_of(
    rt: &impl Abort,
    alloc: Global,
    space: &mut MemSpace,
) -> Result<RefPages, Fail> {
    let mut pages = Vec::new(alloc);
    let mut page = vec![in alloc; 0u8; space.page_size() as usize]?;
    for number in 1..space.size().wrapping_add(1) {
        assert!(rt; 1 <= number && number <= space.size());
        assert!(rt; page.len() == space.page_size() as usize);
        space.get(number, &mut page)?;
        pages.push(RefPage {
            bytes: Bytes::copy_of(alloc, &page)?,
            bad: None,
        })?;
    }
    Ok(RefPages::new(space.usable(), pages).ok_or("no pages")?)
}

/// The payload of a row: `len` bytes that depend on the rowid.
pub(crate) fn payload_of(alloc: Global, rowid: i64, len: usize) -> Result<Vec<u8>, Fail> {
    let mut bytes = Vec::new(alloc);
    let start = (rowid & 0x7f) as usize;
    for place in 0..len {
        bytes.push((start.wrapping_add(place) % 251) as u8)?;
    }
    Ok(bytes)
}

/// Puts a row.
pub(crate) fn put_row(
    rt: &impl Abort,
    alloc: Global,
    space: &mut MemSpace,
    root: u32,
    rowid: i64,
    payload: &[u8],
) -> Result<bool, Fail> {
    assert!(rt; space.size() > 0);
    Ok(put(alloc, space, root, rowid, payload)?)
}

#[test]
fn the_two_ends_come_in_order(rt: HostRuntime) -> Result<(), Fail> {
    let mut space = database(&rt, rt.alloc(), 512, 0)?;
    assert!(rt; space.size() > 0);
    let root = make_root(rt.alloc(), &mut space)?;
    assert_eq!(rt; root, 2);
    assert!(rt; !put_row(&rt, rt.alloc(), &mut space, root, i64::MAX, b"high")?);
    assert!(rt; !put_row(&rt, rt.alloc(), &mut space, root, i64::MIN, b"low")?);
    let cases: [(i64, i64, &[u8]); 3] = [
        (i64::MIN, i64::MIN, b"low"),
        (i64::MIN + 1, i64::MAX, b"high"),
        (i64::MAX, i64::MAX, b"high"),
    ];
    for (from, rowid, payload) in cases {
        assert!(rt; space.size() > 0);
        let row = next_from(rt.alloc(), &mut space, root, from)?.ok_or("no row")?;
        assert!(rt; row.0 == rowid && row.1.as_slice() == payload);
        assert!(rt; space.size() > 0);
        let found = find(rt.alloc(), &mut space, root, rowid)?.ok_or("no row")?;
        assert!(rt; found.as_slice() == payload);
    }
    Ok(())
}

#[test]
fn five_rows_of_a_hundred_bytes_are_a_tree_of_three_pages(rt: HostRuntime) -> Result<(), Fail> {
    let mut space = database(&rt, rt.alloc(), 512, 0)?;
    assert!(rt; space.size() > 0);
    let root = make_root(rt.alloc(), &mut space)?;
    assert_eq!(rt; root, 2);
    let blob = Bytes::from_vec(vec![in rt.alloc(); 0x61u8; 100]?);
    let record = write_record(rt.alloc(), &[Value::Blob(blob)])?;
    assert!(rt; record.as_slice().len() == 103);
    for rowid in 1..6 {
        assert!(rt; !put_row(&rt, rt.alloc(), &mut space, root, rowid, record.as_slice())?);
    }
    assert_eq!(rt; space.size(), 4);
    let pages = pages_of(&rt, rt.alloc(), &mut space)?;
    match cells_at(rt.alloc(), &pages, 20, 2, 2)? {
        Ok(PageCells::Interior { cells, right }) => {
            assert!(rt; cells.as_slice().len() == 1 && right == 4);
        }
        _ => return Err(Fail::from("page 2 is no interior page")),
    }
    Ok(())
}

/// In which order rows are put.
#[derive(Clone, Copy, Debug, PartialEq, Eq)]
enum Order {
    Rising,
    Falling,
    Scattered,
}

/// The rowid of the row that is put as number `at` of two hundred. Some come twice where they are scattered.
fn rowid_at(order: Order, at: i64) -> i64 {
    let at = at & 0xff;
    match order {
        Order::Rising => at * 3,
        Order::Falling => 600 - at * 3,
        Order::Scattered => (at * 37) % 167 - 80,
    }
}

/// How many bytes the payload of that row has: 66,000 in each hundredth row, up to 2,000 in each sixth, and up to 150 in the
/// others.
pub(crate) fn length_at(at: i64) -> usize {
    let at = (at & 0xff) as usize;
    if at % 100 == 10 {
        66_000
    } else if at % 6 == 0 {
        (at * 125) % 2001
    } else {
        (at * 67) % 151
    }
}

/// Sees that the rows of a tree are those of a list, in order.
fn see_rows(
    rt: &impl Abort,
    alloc: Global,
    pages: &RefPages,
    root: u32,
    rows: &[(i64, usize)],
) -> Result<(), Fail> {
    let Walked { rows: given, end } = walk_of(alloc, pages, root, i64::MIN, i64::MAX, None)?;
    assert!(rt; end == WalkEnd::End);
    assert!(rt; given.as_slice().len() == rows.len(), "rows of {root}");
    for (row, wanted) in given.as_slice().iter().zip(rows) {
        let payload = payload_of(alloc, wanted.0, wanted.1)?;
        assert!(rt; row.0 == wanted.0 && row.1.as_slice() == payload.as_slice());
    }
    Ok(())
}

/// Sees that the pages are whole with these rows in each of the trees, all used, and no more of them than needed.
pub(crate) fn see_whole(
    rt: &impl Abort,
    alloc: Global,
    space: &mut MemSpace,
    roots: &[u32],
    rows: &[(i64, usize)],
) -> Result<(), Fail> {
    let pages = pages_of(rt, alloc, space)?;
    assert_eq!(rt; is_whole_for(alloc, &pages, roots)?, Ok(()));
    for root in roots {
        see_rows(rt, alloc, &pages, *root, rows)?;
    }
    let used = use_of(alloc, &pages, roots)?.ok_or("no trees")?;
    let needed = need_of(alloc, &pages, roots)?.ok_or("no trees")?;
    assert!(rt; used as u64 <= needed, "{used} used, {needed} needed");
    Ok(())
}

/// Puts a row into a sorted list of rowids and lengths, and answers whether there was one.
pub(crate) fn put_listed(
    rows: &mut Vec<(i64, usize)>,
    rowid: i64,
    len: usize,
) -> Result<bool, Fail> {
    match rows.binary_search_by_key(&rowid, |row| row.0) {
        Ok(at) => {
            rows[at].1 = len;
            Ok(true)
        }
        Err(at) => {
            rows.insert(at, (rowid, len))?;
            Ok(false)
        }
    }
}

#[test]
fn hundreds_of_rows_stand_in_whole_trees(rt: HostRuntime) -> Result<(), Fail> {
    let cases = [
        (512, 32, Order::Rising),
        (512, 32, Order::Falling),
        (512, 32, Order::Scattered),
        (4096, 0, Order::Scattered),
    ];
    for (page_size, reserved, order) in cases {
        see_puts(&rt, rt.alloc(), page_size, reserved, order)?;
    }
    Ok(())
}

/// Puts two hundred rows into page 1 and two trees, and looks at all of them after each row.
fn see_puts(
    rt: &impl Abort,
    alloc: Global,
    page_size: u32,
    reserved: u8,
    order: Order,
) -> Result<(), Fail> {
    let mut space = database(rt, alloc, page_size, reserved)?;
    assert!(rt; space.size() > 0);
    let first = make_root(alloc, &mut space)?;
    assert!(rt; space.size() > 0);
    let second = make_root(alloc, &mut space)?;
    let roots = [1, first, second];
    let mut rows = Vec::new(alloc);
    for at in 0..200 {
        let rowid = rowid_at(order, at);
        let len = length_at(at);
        let payload = payload_of(alloc, rowid, len)?;
        let replaces = put_listed(&mut rows, rowid, len)?;
        for root in roots {
            assert!(rt; put_row(rt, alloc, &mut space, root, rowid, &payload)? == replaces);
        }
        see_whole(rt, alloc, &mut space, &roots, &rows)?;
    }
    Ok(())
}

#[test]
fn long_rows_stand_in_whole_trees(rt: HostRuntime) -> Result<(), Fail> {
    let mut space = database(&rt, rt.alloc(), 512, 32)?;
    assert!(rt; space.size() > 0);
    let root = make_root(rt.alloc(), &mut space)?;
    let mut rows = Vec::new(rt.alloc());
    for (rowid, len) in [(1, 66_000), (2, 0), (1, 3), (3, 66_000), (2, 478)] {
        let payload = payload_of(rt.alloc(), rowid, len)?;
        let replaces = put_listed(&mut rows, rowid, len)?;
        for root in [1, root] {
            assert!(rt; put_row(&rt, rt.alloc(), &mut space, root, rowid, &payload)? == replaces);
        }
        see_whole(&rt, rt.alloc(), &mut space, &[1, root], &rows)?;
    }
    Ok(())
}
