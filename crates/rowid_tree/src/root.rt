//! A new tree.

ghost use Rattle.std.specs.Prelude.{◌≤◌, IsTrue, IfOk, IfErr, OnOk};
ghost use Rattle.page_list.specs.Pages.{HasPage};
ghost use Rattle.page_pool.specs.Space.{IsWritable, HasSizes, Steady};
ghost use Rattle.page_pool.specs.Pool.{NotesChange};
ghost use Rattle.rowid_tree.specs.Roots.{EmptyWritten, EmptyRefused, RootMade, RootRefused, AddsRoot};

use page_cut::Sheet;
use page_pool::{PageSpace, SpaceFault, take_page};
use std::alloc::Global;
use tree_laws::{header_size, whole_takes};
use tree_model::root_added;
use tree_page::{LeafCells, PageCells, front_apart};
use tree_write::write_sheets;

/// Takes a page, and makes it the root of a tree without a row.
///
/// Refused as `take_page` is, or as putting that page is; then the page may be taken.
pub fn make_root<S: PageSpace>(alloc: Global, space: &mut S) -> Result<u32, SpaceFault>
    requires writable { IsWritable (S.state space.old) }
    requires some { 1 ≤ (S.state space.old).pages.size }
    ensures steady { Steady (S.state space.old) (S.state space.new) }
    ensures made { IfOk result (RootMade (S.state space.old) (S.state space.new)) }
    ensures adds { IsTrue (S.state space.old).tells → IfOk result (AddsRoot (S.state space.old).pages (S.state space.new).pages) }
    ensures refused { IfErr result (RootRefused (S.state space.old) (S.state space.new)) }
    ensures changed { IfOk result (λ _. IsTrue (S.state space.new).changed) }
    ensures noted { NotesChange (S.state space.old) (S.state space.new) }
{
    whole_takes();
    header_size();
    root_added();
    front_apart();
    // the space says, when it is asked, that its pages have their sizes
    let _size = space.size();
    take_root(alloc, space)
}

/// The same, without what it is in whole pages.
fn take_root<S: PageSpace>(alloc: Global, space: &mut S) -> Result<u32, SpaceFault>
    requires writable { IsWritable (S.state space.old) }
    requires some { 1 ≤ (S.state space.old).pages.size }
    ensures steady { Steady (S.state space.old) (S.state space.new) }
    ensures made { IfOk result (RootMade (S.state space.old) (S.state space.new)) }
    ensures refused { IfErr result (RootRefused (S.state space.old) (S.state space.new)) }
    ensures changed { IfOk result (λ _. IsTrue (S.state space.new).changed) }
    ensures noted { NotesChange (S.state space.old) (S.state space.new) }
{
    let number = take_page(alloc, space)?;
    write_empty(alloc, space, number)?;
    Ok(number)
}

/// Writes a leaf without a row to a page.
fn write_empty<S: PageSpace>(alloc: Global, space: &mut S, number: u32) -> Result<(), SpaceFault>
    requires writable { IsWritable (S.state space.old) }
    requires there { HasPage (S.state space.old).pages number }
    requires sizes { HasSizes (S.state space.old) }
    ensures steady { Steady (S.state space.old) (S.state space.new) }
    ensures written { OnOk result (EmptyWritten (S.state space.old) (S.state space.new) number) }
    ensures refused { IfErr result (EmptyRefused (S.state space.old) (S.state space.new) number) }
    ensures noted { NotesChange (S.state space.old) (S.state space.new) }
{
    let cells = LeafCells::from_vec(Vec::new(alloc));
    let sheet = Sheet {
        number,
        cells: PageCells::Leaf(cells),
        key: 0,
    };
    write_sheets(alloc, space, &[sheet])
}
