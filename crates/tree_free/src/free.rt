//! A tree given back, page after page.

ghost use Rattle.std.specs.Prelude.{◌≡◌, ◌≢◌, ℕ, ◌≤◌, IsTrue, IfErr, OnOk};
ghost use Rattle.db_format.specs.declared.fault.SpaceFault.TheVariants.{Large};
ghost use Rattle.page_pool.specs.Space.{IsReady, IsWritable, HasSizes, Steady, Stays};
ghost use Rattle.page_pool.specs.Pool.{NotesChange};
ghost use Rattle.tree_free.specs.Free.{TreeFreed, TreeRefused, RemovesRoot, IsSoundlyRefused};
ghost use Rattle.tree_free.specs.Steps.{FreeStops};

use crate::collect::tree_pages;
use page_list::{gives_keep, not_damaged, one_chain};
use page_pool::{PageSpace, SpaceFault};
use payload_chain::give_pages;
use std::alloc::Global;
use tree_laws::whole_gives;
use tree_model::one_tree;
use tree_page::one_page;

/// Gives back every page of the tree from page `root`, with the chains of its rows, the root too, in tree order: the whole
/// tree is gone over before the first page is given.
///
/// Refused as `get` is, with `Bad` and `Corrupt` of a page of the tree or of a chain that cannot be gone over, and with
/// `Corrupt` of a page that the tree names twice or that is page 1: then nothing has changed. Refused as `give_page` is:
/// then some of the pages are given.
pub fn free_all<S: PageSpace>(alloc: Global, space: &mut S, root: u32) -> Result<(), SpaceFault>
    requires writable { IsWritable (S.state space.old) }
    requires some { 1 ≤ (S.state space.old).pages.size }
    requires other { root ≢ 1 }
    ensures steady { Steady (S.state space.old) (S.state space.new) }
    ensures freed { OnOk result (TreeFreed (S.state space.old) (S.state space.new) root) }
    ensures removes { IsTrue (S.state space.old).tells → OnOk result (RemovesRoot (S.state space.old).pages (S.state space.new).pages root) }
    ensures refused { IfErr result (TreeRefused (S.state space.old) (S.state space.new) root) }
    ensures small { IfErr result (λ fault. (pages : ℕ) → fault ≢ Large pages) }
    ensures clean { IsTrue (S.state space.old).tells → IfErr result (IsSoundlyRefused (S.state space.old).pages root) }
    ensures changed { OnOk result (IsTrue (S.state space.new).changed) }
    ensures noted { NotesChange (S.state space.old) (S.state space.new) }
{
    gives_keep();
    not_damaged();
    whole_gives();
    one_tree();
    one_page();
    one_chain();
    // the space says, when it is asked, that its pages have their sizes
    let _size = space.size();
    free_tree(alloc, space, root)
}

/// The same, without what it is in whole pages.
fn free_tree<S: PageSpace>(alloc: Global, space: &mut S, root: u32) -> Result<(), SpaceFault>
    requires writable { IsWritable (S.state space.old) }
    ensures steady { Steady (S.state space.old) (S.state space.new) }
    ensures freed { OnOk result (TreeFreed (S.state space.old) (S.state space.new) root) }
    ensures refused { IfErr result (FreeStops (S.state space.old) (S.state space.new) root) }
    ensures changed { OnOk result (IsTrue (S.state space.new).changed) }
    ensures noted { NotesChange (S.state space.old) (S.state space.new) }
{
    let numbers = tree_pages(alloc, space, root)?;
    give_pages(alloc, space, &numbers)
}
