//! Page 1 of a database that had no pages.
//!
//! After sqlite.org, "Database File Format", section 1.3, "The Database Header".

ghost use Rattle.std.specs.Prelude.{◌≤◌, ◌+◌, IfOk, IfErr, OnOk};
ghost use Rattle.db_format.specs.Header.{IsPageSize};
ghost use Rattle.page_pool.specs.Space.{IsWritable, Steady};
ghost use Rattle.page_pool.specs.Pool.{NotesChange};
ghost use Rattle.table_store.specs.Made.{Begins, BeginRefused};
ghost use Rattle.table_store.specs.MakeSteps.{BeginsWith};

use db_format::{SpaceFault, new_header};
use page_pool::PageSpace;
use std::alloc::{AllocError, Global};
use tree_page::{LeafCells, PageCells, front_apart, write_page};

/// Makes page 1 where there is none: a leaf without a row behind a new header.
///
/// Refused for want of memory and as `grow` is: then nothing has changed. Refused as putting page 1 is: then it has zeros.
pub(crate) fn begin<S: PageSpace>(alloc: Global, space: &mut S) -> Result<(), SpaceFault>
    requires writable { IsWritable (S.state space.old) }
    ensures steady { Steady (S.state space.old) (S.state space.new) }
    ensures some { OnOk result (1 ≤ (S.state space.new).pages.size) }
    ensures begins { OnOk result (Begins (S.state space.old) (S.state space.new)) }
    ensures refused { IfErr result (BeginRefused (S.state space.old) (S.state space.new)) }
    ensures noted { NotesChange (S.state space.old) (S.state space.new) }
{
    if space.size() > 0 {
        return Ok(());
    }
    let page = first_page(alloc, space.page_size(), space.usable())?;
    let number = space.grow()?;
    space.put(number, &page)
}

/// The bytes of such a page.
fn first_page(alloc: Global, page_size: u32, usable: u32) -> Result<Vec<u8>, AllocError>
    requires size { IsPageSize page_size }
    requires least { 480 ≤ usable }
    requires most { usable ≤ page_size }
    requires spare { page_size ≤ usable + 255 }
    ensures { IfOk result (λ page. BeginsWith page_size usable page.items) }
{
    let mut page = vec![in alloc; 0; page_size as usize]?;
    let cells = PageCells::Leaf(LeafCells::from_vec(Vec::new(alloc)));
    write_page(&cells, 1, usable, &mut page);
    front_apart();
    new_header(page_size, (page_size - usable) as u8, &mut page);
    Ok(page)
}
