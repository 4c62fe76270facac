//! Sheets, written.

ghost use Rattle.std.specs.Prelude.{◌≡◌, ◌↔◌, ◌≤◌, [], ◌∷◌, length, take, IsTrue, IfErr, OnOk};
ghost use Rattle.page_list.specs.Pages.{HasPage};
ghost use Rattle.page_pool.specs.Space.{IsReady, IsWritable, HasSizes, Steady, Stays, PageCause};
ghost use Rattle.page_pool.specs.Pool.{NotesChange};
ghost use Rattle.payload_chain.specs.Chains.{PutRefused};
ghost use Rattle.tree_level.specs.Level.{numbers};
ghost use Rattle.tree_write.specs.Write.{MayStand, WriteLeaves, NotesSheets};

use page_cut::Sheet;
use page_pool::{PageSpace, SpaceFault, put_cleared};
use std::alloc::Global;
use tree_page::{fits, write_page};

/// Writes each sheet to its page, and passes over one whose page is not there or has no room for its cells; in whole
/// pages there is none. Page 1 keeps its first 100 bytes, the header of the database. A buffer of one page is taken.
///
/// Refused as `put` is, or `get` of page 1. After a refusal no page but those of the sheets has changed.
pub fn write_sheets<S: PageSpace>(
    alloc: Global,
    space: &mut S,
    sheets: &[Sheet],
) -> Result<(), SpaceFault>
    requires writable { IsWritable (S.state space.old) }
    ensures steady { Steady (S.state space.old) (S.state space.new) }
    ensures size { (S.state space.new).pages.size ≡ (S.state space.old).pages.size }
    ensures leaves { WriteLeaves (S.state space.old) (S.state space.new) sheets.now result }
    ensures cause { IfErr result (PutRefused (S.state space.old) (S.state space.new) (numbers sheets.now)) }
    ensures noted { NotesChange (S.state space.old) (S.state space.new) }
    ensures changed { OnOk result (NotesSheets (S.state space.old) (S.state space.new) sheets.now) }
{
    let mut page = vec![in alloc; 0u8; space.page_size() as usize]?;
    for sheet in sheets {
        write_sheet(space, sheet, &mut page)?;
    }
    Ok(())
}

/// Writes one sheet to its page where it may stand there, by a buffer of one page.
fn write_sheet<S: PageSpace>(
    space: &mut S,
    sheet: &Sheet,
    page: &mut [u8],
) -> Result<(), SpaceFault>
    requires writable { IsWritable (S.state space.old) }
    requires sizes { HasSizes (S.state space.old) }
    requires one_page { length page.old ≡ (S.state space.old).page_size }
    ensures steady { Steady (S.state space.old) (S.state space.new) }
    ensures size { (S.state space.new).pages.size ≡ (S.state space.old).pages.size }
    ensures leaves { WriteLeaves (S.state space.old) (S.state space.new) (sheet.now ∷ []) result }
    ensures cause { IfErr result (PutRefused (S.state space.old) (S.state space.new) (sheet.now.number ∷ [])) }
    ensures noted { NotesChange (S.state space.old) (S.state space.new) }
    ensures changed { OnOk result (NotesSheets (S.state space.old) (S.state space.new) (sheet.now ∷ [])) }
{
    if !may_stand(space, sheet) {
        return Ok(());
    }
    load_header(space, sheet.number, page)?;
    put_sheet(space, sheet, page)
}

/// Whether the page of the sheet is there, and has room for its cells.
fn may_stand<S: PageSpace>(space: &S, sheet: &Sheet) -> bool
    requires ready { IsReady (S.state space.now) }
    ensures { IsTrue result ↔ MayStand (S.state space.now).pages sheet.now }
{
    if sheet.number == 0 || space.size() < sheet.number {
        return false;
    }
    fits(&sheet.cells, sheet.number, space.usable())
}

/// Reads page 1 where that is the page to be written, since the header of the database stays.
fn load_header<S: PageSpace>(space: &mut S, number: u32, page: &mut [u8]) -> Result<(), SpaceFault>
    requires ready { IsReady (S.state space.old) }
    requires sizes { HasSizes (S.state space.old) }
    requires there { HasPage (S.state space.old).pages number }
    requires one_page { length page.old ≡ (S.state space.old).page_size }
    ensures steady { Steady (S.state space.old) (S.state space.new) }
    ensures stays { Stays (S.state space.old) (S.state space.new) }
    ensures cause { IfErr result (PutRefused (S.state space.old) (S.state space.new) (number ∷ [])) }
    ensures header { number ≡ 1 → IsTrue (S.state space.old).tells → OnOk result (page.new ≡ (S.state space.old).pages.bytes number) }
{
    if number == 1 {
        return space.get(number, page);
    }
    Ok(())
}

/// Writes one sheet to its page, by a buffer of one page, which has what page 1 held where that is the page.
fn put_sheet<S: PageSpace>(space: &mut S, sheet: &Sheet, page: &mut [u8]) -> Result<(), SpaceFault>
    requires writable { IsWritable (S.state space.old) }
    requires sizes { HasSizes (S.state space.old) }
    requires may { MayStand (S.state space.old).pages sheet.now }
    requires one_page { length page.old ≡ (S.state space.old).page_size }
    requires header { sheet.now.number ≡ 1 → IsTrue (S.state space.old).tells → page.old ≡ (S.state space.old).pages.bytes sheet.now.number }
    ensures steady { Steady (S.state space.old) (S.state space.new) }
    ensures size { (S.state space.new).pages.size ≡ (S.state space.old).pages.size }
    ensures leaves { WriteLeaves (S.state space.old) (S.state space.new) (sheet.now ∷ []) result }
    ensures cause { PageCause (S.state space.old) (S.state space.new) sheet.now.number result }
    ensures noted { NotesChange (S.state space.old) (S.state space.new) }
    ensures changed { OnOk result (IsTrue (S.state space.new).changed) }
{
    write_page(&sheet.cells, sheet.number, space.usable(), page);
    put_cleared(space, sheet.number, page)
}
