//! A journal as it is written.

ghost use Rattle.std.specs.Prelude.{◌≡◌, ℕ, ◌+◌, ◌*◌, ◌≤◌, ◌<◌, ◌^◌, ◌++◌, length, OnOk, IfOk};
ghost use Rattle.std.specs.List.{flat_map};
ghost use Rattle.byteorder.specs.Endian.{big_bytes};
ghost use Rattle.journal_format.specs.Journal.{checksum, record_of, trailer, trailer_of, journal, IsPlan};
ghost use Rattle.journal_format.specs.Values.{paged, all_paged, undo_of_plan};
ghost use Rattle.journal_format.specs.Steps.{header, name_sum};

use crate::laws::few_records;
use crate::pages::{NumberedPage, PageList};
use byte_base::Bytes;
use std::alloc::{AllocError, Global};
use vfs_model::Name;

/// What a journal begins with once it is open, and what a trailer ends with.
pub(crate) const MAGIC: [u8; 8] = [0xd9, 0xd5, 0x05, 0xf9, 0x20, 0xa1, 0x63, 0xd7];

/// The sector size of a journal that is written here.
const SECTOR: u32 = 512;

/// The zeros behind the 28 bytes of the header, up to the sector size.
const PADDING: [u8; 484] = [0; 484];

/// The place of the byte in a database file that SQLite locks. The page with it holds no content.
const LOCK_BYTE: u32 = 1 << 30;

/// What a journal undoes once it is open.
#[derive(Debug, Drop)]
pub struct JournalPlan {
    /// What each checksum begins with: the change counter of the database before the transaction.
    pub nonce: u32,
    /// The pages of the database before the transaction.
    pub initial: u32,
    /// The page size, a power of two from 512 to 65,536.
    pub page: u32,
    /// The pages that the transaction changes as they were before, in the order of their numbers.
    pub originals: PageList,
    /// The super-journal of a commit over two databases.
    pub super_name: Option<Name>,
}

/// The whole file of a journal that undoes a plan once its first byte, which is zero here, is d9: a sector of 512 bytes with
/// the header; a record for each original, which has eight bytes more than the page; the trailer, of the super-journal's name
/// and 20 bytes more. After sqlite.org, "Database File Format", section 3.
pub fn journal_bytes(alloc: Global, plan: &JournalPlan) -> Result<Bytes, AllocError>
    requires { IsPlan plan.now.nonce (undo_of_plan plan.now) }
    ensures { IfOk result (λ bytes. bytes ≡ journal 0 plan.now.nonce (undo_of_plan plan.now)) }
{
    few_records();
    let originals = plan.originals.as_slice();
    let mut bytes = Bytes::from_vec(Vec::new(alloc));
    push_header(&mut bytes, originals.len() as u32, plan)?;
    push_records(&mut bytes, plan.nonce, originals)?;
    push_trailer_of(&mut bytes, plan.page, &plan.super_name)?;
    Ok(bytes)
}

/// Adds the header, its first byte zero, and zeros up to the sector size.
fn push_header(bytes: &mut Bytes, count: u32, plan: &JournalPlan) -> Result<(), AllocError>
    ensures { OnOk result (bytes.new ≡ bytes.old ++ header count plan.now.nonce plan.now.initial plan.now.page) }
{
    bytes.push(0)?;
    bytes.extend_from_slice(&MAGIC[1..])?;
    push_number(bytes, count)?;
    push_number(bytes, plan.nonce)?;
    push_number(bytes, plan.initial)?;
    push_number(bytes, SECTOR)?;
    push_number(bytes, plan.page)?;
    bytes.extend_from_slice(&PADDING)?;
    Ok(())
}

/// Adds records.
fn push_records(bytes: &mut Bytes, nonce: u32, pages: &[NumberedPage]) -> Result<(), AllocError>
    ensures { OnOk result (bytes.new ≡ bytes.old ++ flat_map (record_of nonce) (all_paged pages.now)) }
{
    for page in pages {
        push_record(bytes, nonce, page)?;
    }
    Ok(())
}

/// Adds a record.
fn push_record(bytes: &mut Bytes, nonce: u32, page: &NumberedPage) -> Result<(), AllocError>
    ensures { OnOk result (bytes.new ≡ bytes.old ++ record_of nonce (paged page.now)) }
{
    push_number(bytes, page.number)?;
    bytes.extend_from_slice(page.bytes.as_slice())?;
    push_number(bytes, checksum(nonce, page.bytes.as_slice()))
}

/// Adds the trailer where a super-journal is named.
fn push_trailer_of(
    bytes: &mut Bytes,
    page: u32,
    super_name: &Option<Name>,
) -> Result<(), AllocError>
    requires { 1 ≤ page }
    ensures { OnOk result (bytes.new ≡ bytes.old ++ trailer_of page super_name.now) }
{
    match super_name {
        None => Ok(()),
        Some(name) => push_trailer(bytes, page, name),
    }
}

/// Adds the trailer that names a super-journal, behind records of pages of this size.
pub(crate) fn push_trailer(bytes: &mut Bytes, page: u32, name: &Name) -> Result<(), AllocError>
    requires { 1 ≤ page }
    ensures { OnOk result (bytes.new ≡ bytes.old ++ trailer page name.now) }
{
    push_number(bytes, lock_page(page))?;
    bytes.extend_from_slice(name.bytes())?;
    push_number(bytes, name.bytes().len() as u32)?;
    push_number(bytes, sum(name.bytes()))?;
    bytes.extend_from_slice(&MAGIC)?;
    Ok(())
}

/// Adds a number in four bytes, the greatest first.
fn push_number(bytes: &mut Bytes, number: u32) -> Result<(), AllocError>
    ensures { OnOk result (bytes.new ≡ bytes.old ++ big_bytes 4 number) }
{
    bytes.extend_from_slice(&number.to_be_bytes())
}

/// The number of the page with the lock bytes, with pages of this size.
pub(crate) fn lock_page(page: u32) -> u32
    requires { 1 ≤ page }
    ensures { result ≡ Rattle.journal_format.specs.Journal.lock_page page }
{
    LOCK_BYTE / page + 1
}

/// The checksum of a record: the nonce and the bytes of the page at 200, 400 and so on before its end, modulo 2^32.
pub(crate) fn checksum(nonce: u32, page: &[u8]) -> u32
    ensures { result ≡ checksum nonce page.now }
{
    let mut sum = nonce;
    for k in 0..page.len() / 200 {
        sum = sum.wrapping_add(u32::from(page[page.len() - 200 * (k + 1)]));
    }
    sum
}

/// The sum of the bytes of a name.
fn sum(name: &[u8]) -> u32
    ensures { result ≡ name_sum name.now }
{
    let mut sum: u32 = 0;
    for byte in name {
        sum = sum.wrapping_add(u32::from(*byte));
    }
    sum
}
