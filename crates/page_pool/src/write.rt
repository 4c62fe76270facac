//! Pages, written as they were edited.

ghost use Rattle.std.specs.Prelude.{◌≡◌, ◌≤◌, length, IsTrue, OnOk, IfErr};
ghost use Rattle.page_list.specs.Pages.{HasPage, IsGood};
ghost use Rattle.page_list.specs.Edits.{cleared};
ghost use Rattle.page_pool.specs.Space.{IsWritable, Steady, PageCause, PutLeaves};
ghost use Rattle.page_pool.specs.Pool.{NotesChange};
ghost use Rattle.page_pool.specs.Steps.{Wrote, WriteRefused};

use crate::PageSpace;
use crate::page::{Page, clear};
use db_format::SpaceFault;

/// Writes a page, with zeros from the usable size on, which the buffer has too then. Refused as `put` is.
pub fn put_cleared<S: PageSpace>(
    space: &mut S,
    number: u32,
    bytes: &mut [u8],
) -> Result<(), SpaceFault>
    requires writable { IsWritable (S.state space.old) }
    requires there { HasPage (S.state space.old).pages number }
    requires one_page { length bytes.old ≡ (S.state space.old).page_size }
    ensures steady { Steady (S.state space.old) (S.state space.new) }
    ensures cause { PageCause (S.state space.old) (S.state space.new) number result }
    ensures leaves { PutLeaves (S.state space.old) (S.state space.new) number (cleared (S.state space.old).pages.usable bytes.old) result }
{
    clear(bytes, space.usable() as usize);
    space.put(number, bytes)
}

/// Writes a page and then page 1. They are the same page only in a damaged database.
pub fn write_both<S: PageSpace>(
    space: &mut S,
    number: u32,
    page: Page,
    first: Page,
) -> Result<(), SpaceFault>
    requires writable { IsWritable (S.state space.old) }
    requires there { HasPage (S.state space.old).pages number }
    requires one_page { length page ≡ (S.state space.old).page_size }
    requires first_page { length first ≡ (S.state space.old).page_size }
    requires first_good { IsTrue (S.state space.old).tells → IsGood (S.state space.old).pages 1 }
    ensures steady { Steady (S.state space.old) (S.state space.new) }
    ensures wrote { OnOk result (Wrote (S.state space.old) (S.state space.new) number page first) }
    ensures refused { IfErr result (WriteRefused (S.state space.old) (S.state space.new) number) }
    ensures noted { NotesChange (S.state space.old) (S.state space.new) }
{
    write_page(space, number, page)?;
    write_page(space, 1, first)
}

/// Writes a page, with zeros from the usable size on.
pub fn write_page<S: PageSpace>(space: &mut S, number: u32, page: Page) -> Result<(), SpaceFault>
    requires writable { IsWritable (S.state space.old) }
    requires there { HasPage (S.state space.old).pages number }
    requires one_page { length page ≡ (S.state space.old).page_size }
    ensures steady { Steady (S.state space.old) (S.state space.new) }
    ensures cause { PageCause (S.state space.old) (S.state space.new) number result }
    ensures leaves { PutLeaves (S.state space.old) (S.state space.new) number (cleared (S.state space.old).pages.usable page) result }
{
    let mut bytes = page.into_vec();
    put_cleared(space, number, &mut bytes)
}
