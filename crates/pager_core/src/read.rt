//! How a connection begins to read: its lock, and the pages, which are read anew where the file has changed.

ghost use Rattle.std.specs.Prelude.{◌≡◌, ℕ, ◌+◌, ◌-◌, ◌*◌, ◌/◌, ◌≤◌, length, IsTrue, IfOk, IfErr, OnOk, None, Some};
ghost use Rattle.byte_base.specs.Numbers.{number_at};
ghost use Rattle.vfs_model.specs.Effect.{NoLooser};
ghost use Rattle.vfs_trait.specs.State.{Steady, Stands, IsOpen, OpenStays, name_at, file_at};
ghost use Rattle.vfs_trait.specs.Calls.{Leaves, LocksAt};
ghost use Rattle.db_format.specs.Header.{greatest_length, IsPageSize};
ghost use Rattle.page_list.specs.Pages.{HasPage, IsGood};
ghost use Rattle.page_draft.specs.Slots.{shown};
ghost use Rattle.page_draft.specs.Draft.{read_pages, with_last, IsClean, IsLong, KeepsSizes};
ghost use Rattle.pager_core.specs.Seen.{Fits};
ghost use Rattle.pager_core.specs.Open.{IsUnread};
ghost use Rattle.pager_core.specs.Read.{LooksAt, AreGood, FirstMeets, ReadMeets, IsPageOf, ArePagesOf, ReadFrom, IsAnew, IsCurrent, SameDatabase, first_fault, ReadCause, BeginCause, Refreshes, BeginsRead, AsksShared};

use crate::fault::PagerFault;
use crate::pager::Pager;
use byte_base::{Bytes, u32_at};
use db_format::{GREATEST_LENGTH, SpaceFault};
use page_draft::{PageDraft, ReadPage};
use std::alloc::{AllocError, Global};
use vfs_model::{Fid, Level, Owner, looser_twice};
use vfs_trait::{Vfs, VfsFault};

impl Pager {
    /// Begins to read for a connection: it asks Shared, and reads the pages of the file where they are not read yet or its change counter is
    /// another than theirs, and nobody has a draft.
    ///
    /// Refused with `Busy`, by the lock rule: nothing has changed. Refused with `Failed`, `Memory` or `Bad` of page 1: Shared is held, and no
    /// page counts as read. A file that has grown past the greatest database is refused with `Memory`.
    pub fn begin_read<V: Vfs>(
        &mut self,
        alloc: Global,
        stack: &mut V,
        who: Owner,
    ) -> Result<(), PagerFault>
        requires fits { Fits self.old (V.state stack.old) }
        ensures steady { Steady (V.state stack.old) (V.state stack.new) }
        ensures opens { OpenStays (V.state stack.old) (V.state stack.new) }
        ensures leaves { Leaves (V.state stack.old) (V.state stack.new) self.old.name NoLooser }
        ensures rule { LocksAt (V.state stack.old) (V.state stack.new) self.old.fid.0 (AsksShared who result) }
        ensures cause { BeginCause (V.state stack.old) (V.state stack.new) self.old.name self.old.pages.page_size result }
        ensures same { SameDatabase self.old self.new }
        ensures reads { BeginsRead (V.state stack.old) self.old self.new result }
        ensures fits { Fits self.new (V.state stack.new) }
        ensures stands { Stands (V.state stack.new) }
    {
        looser_twice();
        match stack.lock(self.fid, who, Level::Shared) {
            Ok(()) => self.read_if_free(alloc, stack),
            Err(_) => Err(PagerFault::Busy),
        }
    }

    /// Reads the pages anew where nobody has a draft and the file has changed.
    fn read_if_free<V: Vfs>(&mut self, alloc: Global, stack: &mut V) -> Result<(), PagerFault>
        requires named { (V.state stack.old).open_files self.old.fid.0 ≡ Some self.old.name }
        requires stands { Stands (V.state stack.old) }
        ensures looks { LooksAt (V.state stack.old) (V.state stack.new) self.old.fid.0 }
        ensures cause { ReadCause (V.state stack.old) (V.state stack.new) self.old.name self.old.pages.page_size result }
        ensures same { SameDatabase self.old self.new }
        ensures reads { BeginsRead (V.state stack.old) self.old self.new result }
        ensures stands { Stands (V.state stack.new) }
    {
        match self.owner {
            Some(_) => Ok(()),
            None => self.refresh(alloc, stack),
        }
    }

    /// Reads the pages anew where the file has changed.
    fn refresh<V: Vfs>(&mut self, alloc: Global, stack: &mut V) -> Result<(), PagerFault>
        requires named { (V.state stack.old).open_files self.old.fid.0 ≡ Some self.old.name }
        requires stands { Stands (V.state stack.old) }
        ensures looks { LooksAt (V.state stack.old) (V.state stack.new) self.old.fid.0 }
        ensures cause { ReadCause (V.state stack.old) (V.state stack.new) self.old.name self.old.pages.page_size result }
        ensures same { SameDatabase self.old self.new }
        ensures reads { Refreshes (V.state stack.old) self.old self.new result }
        ensures stands { Stands (V.state stack.new) }
    {
        looser_twice();
        match self.is_current(stack) {
            Ok(true) => Ok(()),
            Ok(false) => self.read_anew(alloc, stack),
            Err(fault) => {
                self.forget(alloc);
                Err(fault)
            }
        }
    }

    /// Whether there are pages, and the file has their change counter.
    fn is_current<V: Vfs>(&self, stack: &mut V) -> Result<bool, PagerFault>
        requires named { (V.state stack.old).open_files self.now.fid.0 ≡ Some self.now.name }
        requires stands { Stands (V.state stack.old) }
        ensures looks { LooksAt (V.state stack.old) (V.state stack.new) self.now.fid.0 }
        ensures cause { ReadCause (V.state stack.old) (V.state stack.new) self.now.name self.now.pages.page_size result }
        ensures current { IfOk result (λ current. IsTrue current → IsCurrent (V.state stack.old) self.now) }
        ensures stands { Stands (V.state stack.new) }
    {
        if self.pages.read_size() == 0 {
            return Ok(false);
        }
        let mut counter = [0; 4];
        match stack.read(self.fid, 24, &mut counter) {
            Ok(_) => Ok(u32_at(&counter, 0) == self.counter()),
            Err(fault) => Err(first_fault(fault)),
        }
    }

    /// Reads all pages of the file. Refused: none is read.
    fn read_anew<V: Vfs>(&mut self, alloc: Global, stack: &mut V) -> Result<(), PagerFault>
        requires named { (V.state stack.old).open_files self.old.fid.0 ≡ Some self.old.name }
        ensures looks { LooksAt (V.state stack.old) (V.state stack.new) self.old.fid.0 }
        ensures cause { ReadCause (V.state stack.old) (V.state stack.new) self.old.name self.old.pages.page_size result }
        ensures same { SameDatabase self.old self.new }
        ensures clean { IsClean self.new.pages }
        ensures anew { OnOk result (IsAnew (V.state stack.old) self.new) }
        ensures none { IfErr result (λ _. IsUnread self.new.pages) }
        ensures stands { Stands (V.state stack.new) }
    {
        let reserved = self.forget(alloc);
        let pages = file_pages(alloc, stack, self.fid, self.pages.page_size(), reserved)?;
        self.pages = pages;
        Ok(())
    }

    /// Forgets the pages that were read, and all that was put. It answers how many bytes at the end of a page are reserved.
    fn forget(&mut self, alloc: Global) -> u8
        ensures same { SameDatabase self.old self.new }
        ensures unread { IsUnread self.new.pages }
        ensures size { IsPageSize self.new.pages.page_size }
        ensures room { 480 + result ≤ self.new.pages.page_size }
        ensures rest { self.new.pages.usable ≡ self.new.pages.page_size - result }
    {
        let _size = self.pages.read_size();
        let page_size = self.pages.page_size();
        let reserved = (page_size - self.pages.usable()) as u8;
        self.pages = PageDraft::new(alloc, page_size, reserved);
        reserved
    }
}

/// The pages of an open file, of which the first is good.
fn file_pages<V: Vfs>(
    alloc: Global,
    stack: &mut V,
    fid: Fid,
    page_size: u32,
    reserved: u8,
) -> Result<PageDraft, PagerFault>
    requires is_open { IsOpen (V.state stack.old) fid.0 }
    requires size { IsPageSize page_size }
    requires room { 480 + reserved ≤ page_size }
    ensures looks { LooksAt (V.state stack.old) (V.state stack.new) fid.0 }
    ensures cause { ReadCause (V.state stack.old) (V.state stack.new) (name_at (V.state stack.old) fid.0) page_size result }
    ensures sized { IfOk result (λ pages. pages.page_size ≡ page_size) }
    ensures used { IfOk result (λ pages. pages.usable ≡ page_size - reserved) }
    ensures clean { IfOk result (λ pages. IsClean pages) }
    ensures from { IfOk result (λ pages. ReadFrom (V.state stack.old) (name_at (V.state stack.old) fid.0) page_size (read_pages pages)) }
    ensures first { IfOk result (λ pages. HasPage (read_pages pages) 1 → IsGood (read_pages pages) 1) }
    ensures stands { Stands (V.state stack.new) }
{
    looser_twice();
    let count = page_count(stack, fid, page_size)?;
    let pages = read_pages(alloc, stack, fid, page_size, reserved, count)?;
    look_at_first(&pages)?;
    Ok(pages)
}

/// How many pages stand whole in an open file.
fn page_count<V: Vfs>(stack: &mut V, fid: Fid, page_size: u32) -> Result<u32, PagerFault>
    requires is_open { IsOpen (V.state stack.old) fid.0 }
    requires size { IsPageSize page_size }
    ensures looks { LooksAt (V.state stack.old) (V.state stack.new) fid.0 }
    ensures cause { ReadCause (V.state stack.old) (V.state stack.new) (name_at (V.state stack.old) fid.0) page_size result }
    ensures few { IfOk result (λ count. count * page_size ≤ greatest_length) }
    ensures value { IsTrue (V.state stack.old).tells → IfOk result (λ count. count ≡ length (file_at (V.state stack.old) fid.0).now.bytes / page_size) }
    ensures stands { Stands (V.state stack.new) }
{
    match stack.length(fid) {
        Ok(length) => whole_pages(length, page_size),
        Err(VfsFault::Failed) => Err(PagerFault::Failed),
        Err(_) => Err(PagerFault::Memory),
    }
}

/// How many pages of a size a length has, which is at most that of the greatest database.
fn whole_pages(length: u64, page_size: u32) -> Result<u32, PagerFault>
    requires size { IsPageSize page_size }
    ensures few { IfOk result (λ count. count * page_size ≤ greatest_length) }
    ensures value { IfOk result (λ count. count ≡ length / page_size) }
    ensures cause { IfErr result (λ fault. fault ≡ PagerFault.Memory) }
{
    if length > GREATEST_LENGTH {
        return Err(PagerFault::Memory);
    }
    Ok((length / u64::from(page_size)) as u32)
}

/// Reads so many pages of an open file.
fn read_pages<V: Vfs>(
    alloc: Global,
    stack: &mut V,
    fid: Fid,
    page_size: u32,
    reserved: u8,
    count: u32,
) -> Result<PageDraft, PagerFault>
    requires is_open { IsOpen (V.state stack.old) fid.0 }
    requires size { IsPageSize page_size }
    requires room { 480 + reserved ≤ page_size }
    requires few { count * page_size ≤ greatest_length }
    requires stands { Stands (V.state stack.old) }
    ensures looks { LooksAt (V.state stack.old) (V.state stack.new) fid.0 }
    ensures cause { ReadCause (V.state stack.old) (V.state stack.new) (name_at (V.state stack.old) fid.0) page_size result }
    ensures sized { IfOk result (λ pages. pages.page_size ≡ page_size) }
    ensures used { IfOk result (λ pages. pages.usable ≡ page_size - reserved) }
    ensures clean { IfOk result (λ pages. IsClean pages) }
    ensures count { IfOk result (λ pages. (read_pages pages).size ≡ count) }
    ensures pages { IfOk result (λ pages. ArePagesOf (V.state stack.old) (name_at (V.state stack.old) fid.0) page_size (read_pages pages)) }
    ensures stands { Stands (V.state stack.new) }
{
    looser_twice();
    let mut pages = PageDraft::new(alloc, page_size, reserved);
    for read in 0..count {
        let page = read_page(alloc, stack, fid, page_size, read + 1)?;
        push(&mut pages, page)?;
    }
    Ok(pages)
}

/// Puts a page behind those that were read.
fn push(pages: &mut PageDraft, page: ReadPage) -> Result<(), PagerFault>
    requires clean { IsClean pages.old }
    requires long { IsLong pages.old.page_size page }
    requires few { ((read_pages pages.old).size + 1) * pages.old.page_size ≤ greatest_length }
    ensures sizes { KeepsSizes pages.old pages.new }
    ensures clean { IsClean pages.new }
    ensures pages { OnOk result (read_pages pages.new ≡ with_last (shown pages.old.page_size page) (read_pages pages.old)) }
    ensures cause { IfErr result (λ fault. fault ≡ PagerFault.Memory) }
{
    match pages.push_read(page) {
        Ok(()) => Ok(()),
        Err(_) => Err(PagerFault::Memory),
    }
}

/// Reads a page of an open file.
fn read_page<V: Vfs>(
    alloc: Global,
    stack: &mut V,
    fid: Fid,
    page_size: u32,
    number: u32,
) -> Result<ReadPage, PagerFault>
    requires is_open { IsOpen (V.state stack.old) fid.0 }
    requires size { IsPageSize page_size }
    requires one { 1 ≤ number }
    requires few { number * page_size ≤ greatest_length }
    ensures looks { LooksAt (V.state stack.old) (V.state stack.new) fid.0 }
    ensures cause { ReadCause (V.state stack.old) (V.state stack.new) (name_at (V.state stack.old) fid.0) page_size result }
    ensures long { IfOk result (IsLong page_size) }
    ensures page { IfOk result (λ page. IsPageOf (V.state stack.old) (name_at (V.state stack.old) fid.0) page_size number (shown page_size page)) }
    ensures stands { Stands (V.state stack.new) }
{
    stack.view_holds();
    let Ok(mut bytes) = zeros(alloc, page_size) else {
        return Err(PagerFault::Memory);
    };
    let off = (number as u64 - 1) * page_size as u64;
    match stack.read(fid, off, &mut bytes) {
        Ok(_) => Ok(ReadPage::Good(Bytes::from_vec(bytes))),
        Err(VfsFault::BadPage { kept, found, .. }) => Ok(ReadPage::Bad { kept, found }),
        Err(VfsFault::Failed) => Err(PagerFault::Failed),
        Err(_) => Err(PagerFault::Memory),
    }
}

/// Room for a page.
fn zeros(alloc: Global, page_size: u32) -> Result<Vec<u8>, AllocError>
    ensures { IfOk result (λ bytes. length bytes.items ≡ page_size) }
{
    vec![in alloc; 0; page_size as usize]
}

/// Why a read of page 1 is refused, by the fault of the stack.
fn first_fault(fault: VfsFault) -> PagerFault
    ensures { result ≡ first_fault fault }
{
    match fault {
        VfsFault::Failed => PagerFault::Failed,
        VfsFault::Memory => PagerFault::Memory,
        VfsFault::BadPage { kept, found, .. } => PagerFault::Bad {
            page: 1,
            kept,
            found,
        },
        VfsFault::Busy { .. } => PagerFault::Memory,
        VfsFault::Full { .. } => PagerFault::Memory,
    }
}

/// Refuses pages of which the first fails its checksum.
fn look_at_first(pages: &PageDraft) -> Result<(), PagerFault>
    ensures good { OnOk result (HasPage (read_pages pages.now) 1 → IsGood (read_pages pages.now) 1) }
    ensures there { IfErr result (λ _. HasPage (read_pages pages.now) 1) }
    ensures bad { IfErr result (λ fault. (kept : ℕ) × (found : ℕ) × (fault ≡ PagerFault.Bad 1 kept found) × ((read_pages pages.now).bad 1 ≡ Some (kept, found))) }
{
    if pages.read_size() == 0 {
        return Ok(());
    }
    match pages.read_page(1) {
        Err(SpaceFault::Bad { kept, found, .. }) => Err(PagerFault::Bad {
            page: 1,
            kept,
            found,
        }),
        _ => Ok(()),
    }
}
