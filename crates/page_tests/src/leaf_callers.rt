//! A small caller of a page space, proved by the laws and the contracts that every crate above has.

ghost use Rattle.std.specs.Prelude.{◌≤◌, IsTrue, IfOk};
ghost use Rattle.page_pool.specs.Space.{IsWritable, Steady};
ghost use Rattle.page_tests.specs.Caller.{FitsAll, LeavesLeaf};

use crate::spaces::database;
use byte_base::u32_at;
use page_list::{give_keeps, take_keeps, taken_good};
use page_pool::{PageSpace, SpaceFault, give_page, take_page};
use std::alloc::Global;
use std::test::Fail;
use tree_laws::{header_size, whole_gives, whole_takes};
use tree_model::whole_stays;
use tree_page::{LeafCells, PageCells, write_page};

/// Takes a page and writes a leaf to it, takes another, and gives that one back. Answers the first.
fn leaf_and_back<S: PageSpace>(
    alloc: Global,
    space: &mut S,
    cells: &PageCells,
) -> Result<u32, SpaceFault>
    requires writable { IsWritable (S.state space.old) }
    requires some { 1 ≤ (S.state space.old).pages.size }
    requires fits { FitsAll cells.now (S.state space.old).pages.usable }
    ensures steady { Steady (S.state space.old) (S.state space.new) }
    ensures leaves { IsTrue (S.state space.old).tells → IfOk result (λ page. LeavesLeaf (S.state space.old).pages (S.state space.new).pages page cells.now) }
{
    take_keeps();
    taken_good();
    give_keeps();
    whole_stays();
    whole_takes();
    whole_gives();
    header_size();
    // asked first, since the answer also says that the pages have their sizes before anything is changed
    let usable = space.usable();
    let page = take_page(alloc, space)?;
    let mut bytes = vec![in alloc; 0u8; space.page_size() as usize]?;
    write_page(cells, page, usable, &mut bytes);
    space.put(page, &bytes)?;
    let other = take_page(alloc, space)?;
    give_page(alloc, space, other)?;
    Ok(page)
}

#[test]
fn the_page_taken_last_is_free_again(rt: HostRuntime) -> Result<(), Fail> {
    let mut space = database(&rt, rt.alloc(), 3, 0)?;
    let cells = PageCells::Leaf(LeafCells::from_vec(Vec::new(rt.alloc())));
    let page = leaf_and_back(rt.alloc(), &mut space, &cells)?;
    assert!(rt; page == 4 && space.size() == 5 && space.page_size() == 512);
    let mut first = [0; 512];
    space.get(1, &mut first)?;
    // the first trunk is page 5, and one page is free
    assert_eq!(rt; (u32_at(&first, 32), u32_at(&first, 36)), (5, 1));
    Ok(())
}
