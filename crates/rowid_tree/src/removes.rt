//! A row taken out of a tree.

ghost use Rattle.std.specs.Prelude.{◌≡◌, ◌≤◌, true, false, IsTrue, IfOk, IfErr};
ghost use Rattle.page_pool.specs.Space.{IsWritable, Steady, Stays};
ghost use Rattle.page_pool.specs.Pool.{NotesChange};
ghost use Rattle.tree_remove.specs.Remove.{RemoveDone, RemoveRefused};
ghost use Rattle.rowid_tree.specs.Puts.{IsSoundlyRefused, HasWholeTree};
ghost use Rattle.rowid_tree.specs.Removes.{RemovesRow, MayBeLargeWithout};

use db_format::header_in_front;
use page_pool::{PageSpace, SpaceFault};
use std::alloc::Global;
use tree_model::{one_path, path_finds};
use tree_page::{front_apart, one_page, page_fits};
use tree_removed::{remove_keeps_whole, remove_may_be_large, shrink_fits};

/// Takes the row of `rowid` out of the tree from page `root`, and answers whether there was one.
///
/// Done as `tree_remove::remove` does it, and what it is over whole pages is said here. Refused as `find` is, or where a
/// page beside the way cannot be gone over, before any change; as taking and putting pages is, `Large` where one page more
/// passes the greatest database; where the one child that the root has left cannot be gone over; and as giving pages and
/// the chain of the row back is. Then some of the pages are changed.
pub fn remove<S: PageSpace>(
    alloc: Global,
    space: &mut S,
    root: u32,
    rowid: i64,
) -> Result<bool, SpaceFault>
    requires writable { IsWritable (S.state space.old) }
    requires some { 1 ≤ (S.state space.old).pages.size }
    ensures steady { Steady (S.state space.old) (S.state space.new) }
    ensures done { IsTrue (S.state space.old).tells → IfOk result (RemoveDone (S.state space.old).page_size (S.state space.old).pages (S.state space.new).pages (S.state space.new).changed root rowid) }
    ensures removes { IsTrue (S.state space.old).tells → IfOk result (RemovesRow (S.state space.old).pages (S.state space.new).pages root rowid) }
    ensures nothing { IfOk result (λ there. there ≡ false → Stays (S.state space.old) (S.state space.new)) }
    ensures refused { IfErr result (RemoveRefused (S.state space.old) (S.state space.new) root rowid) }
    ensures changed { IfOk result (λ there. there ≡ true → IsTrue (S.state space.old).tells → HasWholeTree (S.state space.old).pages root → IsTrue (S.state space.new).changed) }
    ensures clean { IsTrue (S.state space.old).tells → IfErr result (IsSoundlyRefused (S.state space.old).pages root) }
    ensures large { IsTrue (S.state space.old).tells → IfErr result (MayBeLargeWithout (S.state space.old).pages root rowid (S.state space.old).page_size) }
    ensures noted { NotesChange (S.state space.old) (S.state space.new) }
{
    remove_keeps_whole();
    remove_may_be_large();
    shrink_fits();
    front_apart();
    header_in_front();
    one_page();
    page_fits();
    one_path();
    path_finds();
    // the space says, when it is asked, that its pages have their sizes
    let _size = space.size();
    tree_remove::remove(alloc, space, root, rowid)
}
