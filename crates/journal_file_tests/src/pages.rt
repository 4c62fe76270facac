//! A file of two pages before and after its first row, and the plan of a journal of both.

ghost use Rattle.std.specs.Prelude.{◌≡◌, ℕ, [], ◌∷◌, length, take, drop, IfOk, None};
ghost use Rattle.journal_format.specs.Journal.{IsPlan};
ghost use Rattle.journal_format.specs.Values.{all_paged, undo_of_plan};
ghost use Rattle.vfs_model.specs.Name.{kind_of};

use byte_base::Bytes;
use journal_format::{JournalPlan, NumberedPage, PageList};
use std::alloc::{AllocError, Global};
use std::test::Fail;
use vfs_model::{Kind, Name};

/// The page size of these tests.
pub const PAGE: usize = 512;

/// Bytes that stand at a place.
pub type Patch = (usize, &'static [u8]);

/// The file with the table `t` of the column `a`, without a row.
const BEFORE: [Patch; 9] = [
    (0, b"SQLite format 3\x00"),
    (16, b"\x02\x00\x01\x01\x00\x40\x20\x20"),
    (24, b"\x00\x00\x00\x01\x00\x00\x00\x02"),
    (40, b"\x00\x00\x00\x01\x00\x00\x00\x04"),
    (56, b"\x00\x00\x00\x01"),
    (92, b"\x00\x00\x00\x01\x00\x2e\x63\x00"),
    (100, b"\x0d\x00\x00\x00\x01\x01\xdf\x00\x01\xdf"),
    (
        479,
        b"\x1f\x01\x06\x17\x0f\x0f\x01\x2ftablett\x02CREATE TABLE t(a)",
    ),
    (512, b"\x0d\x00\x00\x00\x00\x02\x00\x00"),
];

/// What the first row, of the text `a`, changes in it.
const ROW: [Patch; 4] = [
    (24, b"\x00\x00\x00\x02"),
    (92, b"\x00\x00\x00\x02"),
    (512, b"\x0d\x00\x00\x00\x01\x01\xfb\x00\x01\xfb"),
    (512 + 507, b"\x03\x01\x02\x0f\x61"),
];

/// Lays bytes over others, where they have room.
pub fn lay(bytes: &mut [u8], patches: &[Patch])
    ensures { length bytes.new ≡ length bytes.old }
{
    for (place, patch) in patches {
        if *place <= bytes.len() && patch.len() <= bytes.len() - *place {
            bytes[*place..*place + patch.len()].copy_from_slice(patch);
        }
    }
}

/// The file without the row.
pub fn before(alloc: Global) -> Result<Vec<u8>, AllocError> {
    let mut file = vec![in alloc; 0; 2 * PAGE]?;
    lay(&mut file, &BEFORE);
    Ok(file)
}

/// The file with the row.
pub fn after(alloc: Global) -> Result<Vec<u8>, AllocError> {
    let mut file = before(alloc)?;
    lay(&mut file, &ROW);
    Ok(file)
}

/// The two pages of a file.
pub fn both_pages(alloc: Global, file: &[u8]) -> Result<PageList, AllocError>
    requires { length file.now ≡ 1024 }
    ensures { IfOk result (λ pages. all_paged pages ≡ (1, take 512 file.now) ∷ (2, drop 512 file.now) ∷ []) }
{
    let (first, second) = file.split_at(512);
    let mut pages = PageList::from_vec(Vec::new(alloc));
    pages.push(numbered(alloc, 1, first)?)?;
    pages.push(numbered(alloc, 2, second)?)?;
    Ok(pages)
}

/// A page with its number.
fn numbered(alloc: Global, number: u32, page: &[u8]) -> Result<NumberedPage, AllocError>
    ensures { IfOk result (λ made. (made.number ≡ number) × (made.bytes ≡ page.now)) }
{
    let bytes = Bytes::copy_of(alloc, page)?;
    Ok(NumberedPage { number, bytes })
}

/// The plan of a journal that undoes changes to both pages of a file.
pub fn plan_of(alloc: Global, file: &[u8]) -> Result<JournalPlan, AllocError>
    requires { length file.now ≡ 1024 }
    ensures plan { IfOk result (λ plan. IsPlan plan.nonce (undo_of_plan plan)) }
    ensures page { IfOk result (λ plan. plan.page ≡ 512) }
    ensures initial { IfOk result (λ plan. plan.initial ≡ 2) }
    ensures originals { IfOk result (λ plan. all_paged plan.originals ≡ (1, take 512 file.now) ∷ (2, drop 512 file.now) ∷ []) }
{
    Ok(JournalPlan {
        nonce: 1,
        initial: 2,
        page: 512,
        originals: both_pages(alloc, file)?,
        super_name: None,
    })
}

/// The name of the database.
pub fn main_name() -> Result<Name, Fail>
    ensures { IfOk result (λ name. kind_of name ≡ Kind.Main) }
{
    let name = Name::new(b"main").ok_or("a name")?;
    match name.kind() {
        Kind::Main => Ok(name),
        _ => Err("a database".into()),
    }
}

/// The name of its journal.
pub fn journal_name() -> Result<Name, Fail>
    ensures { IfOk result (λ name. kind_of name ≡ Kind.Journal) }
{
    let name = Name::new(b"main-journal").ok_or("a name")?;
    match name.kind() {
        Kind::Journal => Ok(name),
        _ => Err("a journal".into()),
    }
}
