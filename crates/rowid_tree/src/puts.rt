//! A row put into a tree.

ghost use Rattle.std.specs.Prelude.{◌≤◌, IsTrue, IfOk, IfErr};
ghost use Rattle.page_pool.specs.Space.{IsWritable, Steady};
ghost use Rattle.page_pool.specs.Pool.{NotesChange};
ghost use Rattle.rowid_tree.specs.Puts.{PutDone, PutRefused, PutsRow, MayBeLarge, IsSoundlyRefused, HasWholeTree};

use crate::cell::{free_replaced, write_cell};
use crate::place::place_cell;
use db_format::header_in_front;
use page_pool::{PageSpace, SpaceFault};
use std::alloc::Global;
use tree_model::{one_path, path_finds};
use tree_page::{front_apart, one_page};
use tree_put::{put_keeps_whole, put_may_be_large};
use tree_search::descend;

/// Puts the row of `rowid` with this payload into the tree from page `root`, and answers whether it replaced one.
///
/// The chain of the payload is written first, then the pages of the way that change, and last the old chain of the rowid
/// is given back. Refused as `find` is, before any change; as taking and putting pages is, `Large` where one page more
/// passes the greatest database; and as giving back the old chain is. Then some of the pages are changed.
pub fn put<S: PageSpace>(
    alloc: Global,
    space: &mut S,
    root: u32,
    rowid: i64,
    payload: &[u8],
) -> Result<bool, SpaceFault>
    requires writable { IsWritable (S.state space.old) }
    requires some { 1 ≤ (S.state space.old).pages.size }
    ensures steady { Steady (S.state space.old) (S.state space.new) }
    ensures done { IfOk result (PutDone (S.state space.old) (S.state space.new) root rowid payload.now) }
    ensures puts { IsTrue (S.state space.old).tells → IfOk result (PutsRow (S.state space.old).pages (S.state space.new).pages root rowid payload.now) }
    ensures refused { IfErr result (PutRefused (S.state space.old) (S.state space.new) root rowid payload.now) }
    ensures large { IsTrue (S.state space.old).tells → IfErr result (MayBeLarge (S.state space.old).pages root rowid payload.now (S.state space.old).page_size) }
    ensures changed { IfOk result (λ _. IsTrue (S.state space.old).tells → HasWholeTree (S.state space.old).pages root → IsTrue (S.state space.new).changed) }
    ensures clean { IsTrue (S.state space.old).tells → IfErr result (IsSoundlyRefused (S.state space.old).pages root) }
    ensures noted { NotesChange (S.state space.old) (S.state space.new) }
{
    put_keeps_whole();
    put_may_be_large();
    front_apart();
    header_in_front();
    one_page();
    one_path();
    path_finds();
    put_row(alloc, space, root, rowid, payload)
}

/// The same, without what it is in whole pages.
fn put_row<S: PageSpace>(
    alloc: Global,
    space: &mut S,
    root: u32,
    rowid: i64,
    payload: &[u8],
) -> Result<bool, SpaceFault>
    requires writable { IsWritable (S.state space.old) }
    requires some { 1 ≤ (S.state space.old).pages.size }
    ensures steady { Steady (S.state space.old) (S.state space.new) }
    ensures done { IfOk result (PutDone (S.state space.old) (S.state space.new) root rowid payload.now) }
    ensures refused { IfErr result (PutRefused (S.state space.old) (S.state space.new) root rowid payload.now) }
    ensures noted { NotesChange (S.state space.old) (S.state space.new) }
{
    let descent = descend(alloc, space, root, rowid)?;
    let cell = write_cell(alloc, space, rowid, payload)?;
    let replaced = place_cell(alloc, space, descent, cell)?;
    free_replaced(alloc, space, &replaced)?;
    Ok(replaced.is_some())
}
