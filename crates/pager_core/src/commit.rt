//! A commit: all pages of a draft are written to the file. No journal is written, so nothing is said of a stop in the midst of it.

ghost use Rattle.std.specs.Prelude.{◌≡◌, ◌+◌, ◌-◌, ◌*◌, ◌≤◌, ◌^◌, true, false, length, take, IsTrue, Some, None, OnOk, IfOk, IfErr};
ghost use Rattle.db_format.specs.Header.{IsPageSize, Says, KeepsOthers, ReadsBack};
ghost use Rattle.page_list.specs.Pages.{HasPage, IsGood};
ghost use Rattle.page_list.specs.Edits.{with_page};
ghost use Rattle.page_draft.specs.Draft.{read_pages, now_pages, IsClean};
ghost use Rattle.vfs_model.specs.Lock.{Lowers, rank, level_at};
ghost use Rattle.vfs_model.specs.declared.level.Level.TheVariants.{Free, Exclusive};
ghost use Rattle.vfs_trait.specs.State.{Steady, OpenStays, IsOpen, file_at};
ghost use Rattle.vfs_trait.specs.Calls.{Caused, FilesLeft, LocksAt};
ghost use Rattle.pager_core.specs.Locks.{Asks};
ghost use Rattle.pager_core.specs.Seen.{seen, Fits, IsShown, SameFile};
ghost use Rattle.pager_core.specs.Commit.{IsPlain, commits, MayCount, next_header, IsNextFirst, IsFileOf, IsSynced, SamePager, CommitCaused, CommitLeaves, CommitLevels, CommitFiles, EndsIdle, EndsCommit, FirstCaused, KeepsBut, StepFails, HasLaid, HasLaidPage, HasWritten};

use crate::fault::PagerFault;
use crate::pager::Pager;
use byte_base::{Bytes, u32_at};
use db_format::{Header, SpaceFault, write_header};
use page_draft::PageDraft;
use std::alloc::{AllocError, Global};
use vfs_model::{Fid, Level, Owner, looser_twice};
use vfs_trait::{Vfs, VfsFault, kept_twice};

impl Pager {
    /// Writes the draft of a connection to the file, whole, with the next change counter, and ends the draft and the lock. Where there is no change
    /// to write, no file is touched.
    ///
    /// Refused with `Bad`, `Worn`, `Memory` and `Busy`, in this order, before the file is touched: nothing has changed but that `Busy` leaves
    /// Pending. Refused with `Failed` and `MemoryAfter` from then on: Exclusive is held, and the pager has to be closed.
    pub fn commit<V: Vfs>(
        &mut self,
        alloc: Global,
        stack: &mut V,
        who: Owner,
    ) -> Result<(), PagerFault>
        requires fits { Fits self.old (V.state stack.old) }
        requires shows { IsShown self.old (V.state stack.old) }
        requires plain { IsPlain (V.state stack.old).layers }
        ensures steady { Steady (V.state stack.old) (V.state stack.new) }
        ensures opens { OpenStays (V.state stack.old) (V.state stack.new) }
        ensures fits { Fits self.new (V.state stack.new) }
        ensures idle { commits self.old who ≡ false → EndsIdle self.old self.new (V.state stack.old) (V.state stack.new) who result }
        ensures commit { commits self.old who ≡ true → EndsCommit self.old self.new (V.state stack.old) (V.state stack.new) who result }
        ensures written { OnOk result (commits self.old who ≡ true → IsTrue (V.state stack.old).tells → IsFileOf self.old.pages.page_size (file_at (V.state stack.new) self.old.fid.0).now.bytes (read_pages self.new.pages)) }
        ensures synced { OnOk result (commits self.old who ≡ true → IsTrue (V.state stack.old).tells → IsSynced (file_at (V.state stack.new) self.old.fid.0)) }
        ensures shows { OnOk result (IsShown self.new (V.state stack.new)) }
    {
        if self.commits(who) {
            return self.commit_draft(alloc, stack, who);
        }
        self.rollback(stack, who);
        Ok(())
    }

    /// Whether a connection has something to commit.
    fn commits(&self, who: Owner) -> bool
        ensures value { result ≡ commits self.now who }
    {
        if !self.owns(who) {
            return false;
        }
        self.pages.changed() && self.seen_size(who) > 0
    }

    /// Commits a draft that has something to write.
    fn commit_draft<V: Vfs>(
        &mut self,
        alloc: Global,
        stack: &mut V,
        who: Owner,
    ) -> Result<(), PagerFault>
        requires fits { Fits self.old (V.state stack.old) }
        requires shows { IsShown self.old (V.state stack.old) }
        requires plain { IsPlain (V.state stack.old).layers }
        requires owned { self.old.owner ≡ Some who }
        requires some { HasPage (now_pages self.old.pages) 1 }
        ensures steady { Steady (V.state stack.old) (V.state stack.new) }
        ensures opens { OpenStays (V.state stack.old) (V.state stack.new) }
        ensures fits { Fits self.new (V.state stack.new) }
        ensures cause { CommitCaused (now_pages self.old.pages) (V.state stack.old) (V.state stack.new) result }
        ensures left { CommitLeaves self.old self.new who result }
        ensures levels { LocksAt (V.state stack.old) (V.state stack.new) self.old.fid.0 (CommitLevels who result) }
        ensures files { CommitFiles (V.state stack.old) (V.state stack.new) self.old.fid.0 result }
        ensures written { OnOk result (IsTrue (V.state stack.old).tells → IsFileOf self.old.pages.page_size (file_at (V.state stack.new) self.old.fid.0).now.bytes (read_pages self.new.pages)) }
        ensures synced { OnOk result (IsTrue (V.state stack.old).tells → IsSynced (file_at (V.state stack.new) self.old.fid.0)) }
    {
        looser_twice();
        kept_twice();
        let first = prepared_first(alloc, &self.pages)?;
        self.ask_alone(stack, who)?;
        self.write_all(stack, first)?;
        self.finish(stack, who);
        Ok(())
    }

    /// Asks Exclusive for the connection that has the draft. Refused with `Busy` alone, by the lock rule.
    fn ask_alone<V: Vfs>(&self, stack: &mut V, who: Owner) -> Result<(), PagerFault>
        requires fits { Fits self.now (V.state stack.old) }
        requires owned { self.now.owner ≡ Some who }
        ensures steady { Steady (V.state stack.old) (V.state stack.new) }
        ensures opens { OpenStays (V.state stack.old) (V.state stack.new) }
        ensures files { FilesLeft (V.state stack.old) (V.state stack.new) }
        ensures rule { LocksAt (V.state stack.old) (V.state stack.new) self.now.fid.0 (Asks who Exclusive result) }
        ensures fits { Fits self.now (V.state stack.new) }
    {
        match stack.lock(self.fid, who, Level::Exclusive) {
            Ok(()) => Ok(()),
            Err(_) => Err(PagerFault::Busy),
        }
    }

    /// Puts page 1 into the draft, and makes the file that of the draft.
    fn write_all<V: Vfs>(&mut self, stack: &mut V, first: Bytes) -> Result<(), PagerFault>
        requires is_open { IsOpen (V.state stack.old) self.old.fid.0 }
        requires plain { IsPlain (V.state stack.old).layers }
        requires shows { IsShown self.old (V.state stack.old) }
        requires some { HasPage (now_pages self.old.pages) 1 }
        requires one_page { length first ≡ self.old.pages.page_size }
        ensures keeps { KeepsBut (V.state stack.old) (V.state stack.new) self.old.fid.0 }
        ensures cause { IfErr result (StepFails (V.state stack.old) (V.state stack.new)) }
        ensures same { SameFile self.old self.new }
        ensures owner { self.new.owner ≡ self.old.owner }
        ensures put { OnOk result (now_pages self.new.pages ≡ with_page 1 first (now_pages self.old.pages)) }
        ensures written { OnOk result (IsTrue (V.state stack.old).tells → IsFileOf self.old.pages.page_size (file_at (V.state stack.new) self.old.fid.0).now.bytes (now_pages self.new.pages)) }
        ensures synced { OnOk result (IsTrue (V.state stack.old).tells → IsSynced (file_at (V.state stack.new) self.old.fid.0)) }
    {
        if self.pages.put_bytes(1, first).is_err() {
            return Err(PagerFault::MemoryAfter);
        }
        write_file(&self.pages, stack, self.fid)
    }

    /// Makes the draft what was read, and ends the lock.
    fn finish<V: Vfs>(&mut self, stack: &mut V, who: Owner)
        requires fits { Fits self.old (V.state stack.old) }
        requires owned { self.old.owner ≡ Some who }
        ensures steady { Steady (V.state stack.old) (V.state stack.new) }
        ensures opens { OpenStays (V.state stack.old) (V.state stack.new) }
        ensures files { FilesLeft (V.state stack.old) (V.state stack.new) }
        ensures levels { LocksAt (V.state stack.old) (V.state stack.new) self.old.fid.0 (λ old new. Lowers old new who Free) }
        ensures same { SamePager self.old self.new }
        ensures kept { read_pages self.new.pages ≡ now_pages self.old.pages }
        ensures owner { self.new.owner ≡ None }
        ensures clean { IsClean self.new.pages }
        ensures fits { Fits self.new (V.state stack.new) }
    {
        self.pages.keep();
        self.owner = None;
        stack.unlock(self.fid, who, Level::Free);
    }
}

/// A copy of page 1 with the next header. Refused with `Bad` and `Worn`, each just where its cause is there, and with `Memory`.
fn prepared_first(alloc: Global, pages: &PageDraft) -> Result<Bytes, PagerFault>
    requires some { HasPage (now_pages pages.now) 1 }
    ensures cause { FirstCaused (now_pages pages.now) result }
    ensures long { IfOk result (λ first. length first ≡ pages.now.page_size) }
    ensures next { IfOk result (IsNextFirst pages.now.page_size (now_pages pages.now)) }
{
    match pages.page(1) {
        Ok(page) => counted_first(alloc, pages, page),
        Err(SpaceFault::Bad { page, kept, found }) => Err(PagerFault::Bad { page, kept, found }),
        Err(_) => Err(PagerFault::Failed),
    }
}

/// The same, of a page 1 that does not fail its checksum.
fn counted_first(alloc: Global, pages: &PageDraft, page: &[u8]) -> Result<Bytes, PagerFault>
    requires good { IsGood (now_pages pages.now) 1 }
    requires is_first { page.now ≡ (now_pages pages.now).bytes 1 }
    requires one_page { length page.now ≡ pages.now.page_size }
    ensures cause { FirstCaused (now_pages pages.now) result }
    ensures long { IfOk result (λ first. length first ≡ pages.now.page_size) }
    ensures next { IfOk result (IsNextFirst pages.now.page_size (now_pages pages.now)) }
{
    let size = pages.size();
    let counter = u32_at(page, 24);
    if counter == u32::MAX {
        return Err(PagerFault::Worn);
    }
    let header = Header {
        page: pages.page_size(),
        reserved: (pages.page_size() - pages.usable()) as u8,
        counter: counter + 1,
        size,
        first_trunk: u32_at(page, 32),
        free_pages: u32_at(page, 36),
        cookie: u32_at(page, 40),
    };
    match with_header(alloc, &header, page) {
        Ok(first) => Ok(first),
        Err(_) => Err(PagerFault::Memory),
    }
}

/// A copy of a page with this header.
fn with_header(alloc: Global, header: &Header, page: &[u8]) -> Result<Bytes, AllocError>
    requires size { IsPageSize header.now.page }
    requires room { 100 ≤ length page.now }
    ensures says { IfOk result (Says header.now) }
    ensures kept { IfOk result (KeepsOthers page.now) }
    ensures reads_back { IfOk result (ReadsBack header.now page.now) }
{
    let mut copy = Vec::new(alloc);
    copy.extend_from_slice(page)?;
    write_header(header, &mut copy);
    Ok(Bytes::from_vec(copy))
}

/// Makes a file that of these pages: each is written, the file is cut behind the last, and it is synced.
fn write_file<V: Vfs>(pages: &PageDraft, stack: &mut V, fid: Fid) -> Result<(), PagerFault>
    requires is_open { IsOpen (V.state stack.old) fid.0 }
    requires plain { IsPlain (V.state stack.old).layers }
    requires reads { IsTrue (V.state stack.old).tells → (read_pages pages.now).size * pages.now.page_size ≤ length (file_at (V.state stack.old) fid.0).now.bytes }
    ensures keeps { KeepsBut (V.state stack.old) (V.state stack.new) fid.0 }
    ensures cause { IfErr result (StepFails (V.state stack.old) (V.state stack.new)) }
    ensures written { OnOk result (IsTrue (V.state stack.old).tells → IsFileOf pages.now.page_size (file_at (V.state stack.new) fid.0).now.bytes (now_pages pages.now)) }
    ensures synced { OnOk result (IsTrue (V.state stack.old).tells → IsSynced (file_at (V.state stack.new) fid.0)) }
{
    looser_twice();
    write_pages(pages, stack, fid)?;
    let length = u64::from(pages.size()) * u64::from(pages.page_size());
    cut_and_sync(stack, fid, length)
}

/// Writes all pages, in rising order.
fn write_pages<V: Vfs>(pages: &PageDraft, stack: &mut V, fid: Fid) -> Result<(), PagerFault>
    requires is_open { IsOpen (V.state stack.old) fid.0 }
    requires plain { IsPlain (V.state stack.old).layers }
    requires reads { IsTrue (V.state stack.old).tells → (read_pages pages.now).size * pages.now.page_size ≤ length (file_at (V.state stack.old) fid.0).now.bytes }
    ensures keeps { KeepsBut (V.state stack.old) (V.state stack.new) fid.0 }
    ensures cause { IfErr result (StepFails (V.state stack.old) (V.state stack.new)) }
    ensures laid { OnOk result (IsTrue (V.state stack.old).tells → HasLaid pages.now.page_size (now_pages pages.now).size (now_pages pages.now) (file_at (V.state stack.old) fid.0).now.bytes (file_at (V.state stack.new) fid.0).now.bytes) }
{
    looser_twice();
    for place in 0..pages.size() {
        write_page(pages, stack, fid, place + 1)?;
    }
    Ok(())
}

/// Writes a page at its place. One that fails its checksum is left out: the file has it as it was read.
fn write_page<V: Vfs>(
    pages: &PageDraft,
    stack: &mut V,
    fid: Fid,
    number: u32,
) -> Result<(), PagerFault>
    requires is_open { IsOpen (V.state stack.old) fid.0 }
    requires plain { IsPlain (V.state stack.old).layers }
    requires there { HasPage (now_pages pages.now) number }
    requires reach { IsTrue (V.state stack.old).tells → (number - 1) * pages.now.page_size ≤ length (file_at (V.state stack.old) fid.0).now.bytes }
    requires reads { IsTrue (V.state stack.old).tells → (read_pages pages.now).size * pages.now.page_size ≤ length (file_at (V.state stack.old) fid.0).now.bytes }
    ensures keeps { KeepsBut (V.state stack.old) (V.state stack.new) fid.0 }
    ensures cause { IfErr result (StepFails (V.state stack.old) (V.state stack.new)) }
    ensures laid { OnOk result (IsTrue (V.state stack.old).tells → HasLaidPage pages.now.page_size number (now_pages pages.now) (file_at (V.state stack.old) fid.0).now.bytes (file_at (V.state stack.new) fid.0).now.bytes) }
{
    let _size = pages.size();
    match pages.page(number) {
        Ok(page) => {
            let at = u64::from(number - 1) * u64::from(pages.page_size());
            write_at(stack, fid, at, page)
        }
        Err(_) => Ok(()),
    }
}

/// Writes bytes at a place that the file reaches.
fn write_at<V: Vfs>(stack: &mut V, fid: Fid, at: u64, bytes: &[u8]) -> Result<(), PagerFault>
    requires is_open { IsOpen (V.state stack.old) fid.0 }
    requires plain { IsPlain (V.state stack.old).layers }
    requires within { at + length bytes.now ≤ 2 ^ 32 }
    requires reach { IsTrue (V.state stack.old).tells → at ≤ length (file_at (V.state stack.old) fid.0).now.bytes }
    ensures keeps { KeepsBut (V.state stack.old) (V.state stack.new) fid.0 }
    ensures cause { IfErr result (StepFails (V.state stack.old) (V.state stack.new)) }
    ensures wrote { OnOk result (IsTrue (V.state stack.old).tells → HasWritten at bytes.now (file_at (V.state stack.old) fid.0).now.bytes (file_at (V.state stack.new) fid.0).now.bytes) }
{
    match stack.write(fid, at, bytes) {
        Ok(()) => Ok(()),
        Err(VfsFault::Failed) => Err(PagerFault::Failed),
        Err(_) => Err(PagerFault::MemoryAfter),
    }
}

/// Cuts a file to a length, and syncs it.
fn cut_and_sync<V: Vfs>(stack: &mut V, fid: Fid, len: u64) -> Result<(), PagerFault>
    requires is_open { IsOpen (V.state stack.old) fid.0 }
    requires plain { IsPlain (V.state stack.old).layers }
    requires reach { IsTrue (V.state stack.old).tells → len ≤ length (file_at (V.state stack.old) fid.0).now.bytes }
    ensures keeps { KeepsBut (V.state stack.old) (V.state stack.new) fid.0 }
    ensures cause { IfErr result (StepFails (V.state stack.old) (V.state stack.new)) }
    ensures cut { OnOk result (IsTrue (V.state stack.old).tells → (file_at (V.state stack.new) fid.0).now.bytes ≡ take len (file_at (V.state stack.old) fid.0).now.bytes) }
    ensures synced { OnOk result (IsTrue (V.state stack.old).tells → IsSynced (file_at (V.state stack.new) fid.0)) }
{
    match cut_then_sync(stack, fid, len) {
        Ok(()) => Ok(()),
        Err(VfsFault::Failed) => Err(PagerFault::Failed),
        Err(_) => Err(PagerFault::MemoryAfter),
    }
}

/// The same, with the stack's own faults.
fn cut_then_sync<V: Vfs>(stack: &mut V, fid: Fid, len: u64) -> Result<(), VfsFault>
    requires is_open { IsOpen (V.state stack.old) fid.0 }
    requires plain { IsPlain (V.state stack.old).layers }
    requires reach { IsTrue (V.state stack.old).tells → len ≤ length (file_at (V.state stack.old) fid.0).now.bytes }
    ensures keeps { KeepsBut (V.state stack.old) (V.state stack.new) fid.0 }
    ensures cause { Caused (V.state stack.old) (V.state stack.new) result }
    ensures cut { OnOk result (IsTrue (V.state stack.old).tells → (file_at (V.state stack.new) fid.0).now.bytes ≡ take len (file_at (V.state stack.old) fid.0).now.bytes) }
    ensures synced { OnOk result (IsTrue (V.state stack.old).tells → IsSynced (file_at (V.state stack.new) fid.0)) }
{
    looser_twice();
    stack.cut(fid, len)?;
    stack.sync(fid)
}
