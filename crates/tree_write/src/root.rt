//! The root: it keeps its number, over the parts of what stood on it where that overflows.

ghost use Rattle.std.specs.Prelude.{◌≡◌, ◌+◌, ◌≤◌, [], ◌∷◌, ◌++◌, length, IfOk, IfErr};
ghost use Rattle.page_pool.specs.Space.{IsWritable, Steady};
ghost use Rattle.page_pool.specs.Pool.{NotesChange};
ghost use Rattle.tree_level.specs.Level.{up_cells};
ghost use Rattle.tree_plan.specs.Climb.{RootFits};
ghost use Rattle.tree_write.specs.Climb.{ClimbRefused};
ghost use Rattle.tree_write.specs.Steps.{RootSettled};

use crate::level::put_behind;
use page_cut::{Sheet, Sheets};
use page_pool::{PageSpace, SpaceFault};
use payload_chain::take_pages;
use std::alloc::{AllocError, Global};
use tree_page::{InnerCell, InnerCells, PageCells, fits};
use tree_plan::number_sheets;

/// Puts the root behind what is to be written: its cells where they fit on it, else their parts on new pages and the
/// root over them.
pub fn settle_root<S: PageSpace>(
    alloc: Global,
    space: &mut S,
    root: u32,
    sheets: Sheets,
    out: Vec<Sheet>,
) -> Result<Vec<Sheet>, SpaceFault>
    requires writable { IsWritable (S.state space.old) }
    requires some { 1 ≤ (S.state space.old).pages.size }
    ensures steady { Steady (S.state space.old) (S.state space.new) }
    ensures settled { IfOk result (λ all. RootSettled (S.state space.old) (S.state space.new) root (S.state space.old).pages.usable sheets out.items all.items) }
    ensures refused { IfErr result (ClimbRefused (S.state space.old) (S.state space.new) (length sheets.front.items + 1)) }
    ensures noted { NotesChange (S.state space.old) (S.state space.new) }
{
    let mut out = out;
    let usable = space.usable();
    if !sheets.front.is_empty() || !fits(&sheets.last, root, usable) {
        return split_root(alloc, space, root, sheets, out);
    }
    let Sheets { front, last } = sheets;
    put_behind(&mut out, front, root, last)?;
    Ok(out)
}

/// Puts the parts of a root behind what is to be written, each on a new page, and the root over them.
fn split_root<S: PageSpace>(
    alloc: Global,
    space: &mut S,
    root: u32,
    sheets: Sheets,
    out: Vec<Sheet>,
) -> Result<Vec<Sheet>, SpaceFault>
    requires writable { IsWritable (S.state space.old) }
    requires some { 1 ≤ (S.state space.old).pages.size }
    requires over { ¬ (RootFits (S.state space.old).pages.usable root sheets) }
    ensures steady { Steady (S.state space.old) (S.state space.new) }
    ensures settled { IfOk result (λ all. RootSettled (S.state space.old) (S.state space.new) root (S.state space.old).pages.usable sheets out.items all.items) }
    ensures refused { IfErr result (ClimbRefused (S.state space.old) (S.state space.new) (length sheets.front.items + 1)) }
    ensures noted { NotesChange (S.state space.old) (S.state space.new) }
{
    let Sheets { front, last } = sheets;
    let mut out = out;
    let mut front = front;
    let parts = front.len();
    let pages = take_pages(alloc, space, parts + 1)?;
    number_sheets(&mut front, &pages[..parts]);
    let page = pages[parts];
    let cells = cells_over(alloc, &front)?;
    put_behind(&mut out, front, page, last)?;
    out.push(Sheet {
        number: root,
        cells: PageCells::Interior { cells, right: page },
        key: 0,
    })?;
    Ok(out)
}

/// The cells that name the parts.
fn cells_over(alloc: Global, front: &[Sheet]) -> Result<InnerCells, AllocError>
    ensures { IfOk result (λ cells. cells ≡ up_cells front.now) }
{
    let mut cells = InnerCells::from_vec(Vec::new(alloc));
    for sheet in front {
        cells.push(InnerCell {
            child: sheet.number,
            rowid: sheet.key,
        })?;
    }
    Ok(cells)
}
