//! What is written and given back once the way is gone up.

ghost use Rattle.std.specs.Prelude.{◌≡◌, ◌++◌, [], ◌∷◌, IsTrue, IfOk, IfErr, IfSome, OnOk};
ghost use Rattle.page_list.specs.Pages.{HasPage};
ghost use Rattle.page_pool.specs.Space.{IsWritable, HasSizes, Steady};
ghost use Rattle.page_pool.specs.Pool.{NotesChange};
ghost use Rattle.payload_chain.specs.Chains.{HasEach};
ghost use Rattle.tree_write.specs.Write.{WriteLeaves, NotesSheets};
ghost use Rattle.tree_join.specs.Join.{listed};
ghost use Rattle.tree_remove.specs.Remove.{IsTakenOver, Settled, NotesOver, NotesSettled, StopsWriting, TakeOverRefused, SettleRefused};

use crate::beside::{alone, read_cells};
use crate::upward::Shrunk;
use page_cut::Sheet;
use page_pool::{PageSpace, SpaceFault};
use payload_chain::give_pages;
use std::alloc::{AllocError, Global};
use tree_page::fits;
use tree_write::write_sheets;

/// Writes what a removal leaves of the pages, and gives back those that it leaves nothing of.
pub(crate) fn settle<S: PageSpace>(
    alloc: Global,
    space: &mut S,
    root: u32,
    shrunk: Shrunk,
) -> Result<(), SpaceFault>
    requires writable { IsWritable (S.state space.old) }
    requires there { HasEach (S.state space.old).pages shrunk.lost.items }
    ensures steady { Steady (S.state space.old) (S.state space.new) }
    ensures settled { IsTrue (S.state space.old).tells → OnOk result (Settled (S.state space.old).page_size (S.state space.old).pages (S.state space.new).pages root shrunk) }
    ensures size { OnOk result ((S.state space.new).pages.size ≡ (S.state space.old).pages.size) }
    ensures refused { IfErr result (SettleRefused (S.state space.old) (S.state space.new) root shrunk) }
    ensures changed { OnOk result (NotesSettled (S.state space.old).pages (S.state space.new).changed root shrunk) }
    ensures noted { NotesChange (S.state space.old) (S.state space.new) }
{
    let Shrunk { out, lost, over } = shrunk;
    write_sheets(alloc, space, out.as_slice())?;
    let also = take_over(alloc, space, root, over)?;
    let lost = with_also(lost, also)?;
    give_pages(alloc, space, lost.as_slice())
}

/// The pages that are lost, with one more, if there is one.
fn with_also(lost: Vec<u32>, also: Option<u32>) -> Result<Vec<u32>, AllocError>
    ensures { IfOk result (λ all. all.items ≡ lost.items ++ listed also) }
{
    let mut all = lost;
    if let Some(page) = also {
        all.push(page)?;
    }
    Ok(all)
}

/// Where the root has one child left, it gets the cells of that child, which is answered: it is to be given back then. Where they do
/// not fit on page 1, that stands over the child without a cell.
fn take_over<S: PageSpace>(
    alloc: Global,
    space: &mut S,
    root: u32,
    over: Option<u32>,
) -> Result<Option<u32>, SpaceFault>
    requires writable { IsWritable (S.state space.old) }
    requires sizes { HasSizes (S.state space.old) }
    ensures steady { Steady (S.state space.old) (S.state space.new) }
    ensures size { (S.state space.new).pages.size ≡ (S.state space.old).pages.size }
    ensures taken { IsTrue (S.state space.old).tells → IfOk result (λ lost. IsTakenOver (S.state space.old).pages (S.state space.new).pages root over (listed lost)) }
    ensures there { IfOk result (λ lost. IfSome lost (HasPage (S.state space.old).pages)) }
    ensures refused { IfErr result (TakeOverRefused (S.state space.old) (S.state space.new) root over) }
    ensures changed { OnOk result (NotesOver (S.state space.old).pages (S.state space.new).changed root over) }
    ensures noted { NotesChange (S.state space.old) (S.state space.new) }
{
    let Some(child) = over else {
        return Ok(None);
    };
    let cells = read_cells(alloc, space, root, child)?;
    let fitting = fits(&cells, root, space.usable());
    if !fitting {
        write_sheet(alloc, space, alone(alloc, root, child))?;
        return Ok(None);
    }
    let sheet = Sheet {
        number: root,
        cells,
        key: 0,
    };
    write_sheet(alloc, space, sheet)?;
    Ok(Some(child))
}

/// Writes one sheet.
fn write_sheet<S: PageSpace>(alloc: Global, space: &mut S, sheet: Sheet) -> Result<(), SpaceFault>
    requires writable { IsWritable (S.state space.old) }
    ensures steady { Steady (S.state space.old) (S.state space.new) }
    ensures size { (S.state space.new).pages.size ≡ (S.state space.old).pages.size }
    ensures leaves { WriteLeaves (S.state space.old) (S.state space.new) (sheet ∷ []) result }
    ensures refused { IfErr result (StopsWriting (S.state space.old) (S.state space.new) (sheet ∷ [])) }
    ensures changed { OnOk result (NotesSheets (S.state space.old) (S.state space.new) (sheet ∷ [])) }
    ensures noted { NotesChange (S.state space.old) (S.state space.new) }
{
    write_sheets(alloc, space, &[sheet])
}
