//! How a database is opened over a stack.

ghost use Rattle.std.specs.Prelude.{◌≡◌, ◌++◌, IfOk, IsTrue};
ghost use Rattle.vfs_model.specs.Name.{IsName, kind_of};
ghost use Rattle.vfs_model.specs.Effect.{NoLooser};
ghost use Rattle.vfs_model.specs.declared.name.Kind.TheVariants.{Main};
ghost use Rattle.vfs_trait.specs.State.{Steady, Stands, IsFree, IsOpen, OpenStays, LevelsStay, BrokenStays, Rests, name_at};
ghost use Rattle.vfs_trait.specs.Calls.{Caused, Leaves, FilesLeft};
ghost use Rattle.db_format.specs.Header.{header_of};
ghost use Rattle.pager_core.specs.Seen.{Fits};
ghost use Rattle.pager_core.specs.Open.{journal_of, IsRule, checksum_page, sizes_of, IsUnread, BeginsAs, HeaderGives, OpensPager, LeavesOpened, FileCaused, OpenCaused, refusal_of};

use crate::pager::Pager;
use db_format::{header_in_front, read_header};
use page_draft::PageDraft;
use std::alloc::Global;
use vfs_model::{Fid, Kind, Name, apart_back, looser_twice};
use vfs_trait::{OpenFault, Vfs, VfsFault, kept_twice};

/// How a database is opened.
#[derive(Clone, Copy, Debug)]
pub struct OpenRule {
    /// The page size in bytes of a database that is made, and that of the checksum layer.
    pub page: u32,
    /// How many bytes at the end of each page of a database that is made hold no content.
    pub reserve: u8,
    /// Whether there is a checksum layer.
    pub cksum: bool,
    /// The super-journal that a journal may name.
    pub super_name: Option<Name>,
}

impl OpenRule {
    /// The page size that a header must say.
    fn checksum_page(&self) -> Option<u32>
        ensures { result ≡ checksum_page self.now }
    {
        if self.cksum { Some(self.page) } else { None }
    }
}

impl Pager {
    /// Opens the database of a name, and makes an empty file where there is none. No page is read yet.
    ///
    /// A journal is not played back: where there is one, the database is refused with `ForeignJournal`, whatever it holds. After a refusal no
    /// file is open that was not.
    pub fn open<V: Vfs>(
        alloc: Global,
        stack: &mut V,
        name: Name,
        rule: &OpenRule,
    ) -> Result<Pager, OpenFault>
        requires free { IsFree (V.state stack.old) name }
        requires is_main { Main ≡ kind_of name }
        requires journal { IsName (journal_of name) }
        requires rule { IsRule rule.now }
        ensures steady { Steady (V.state stack.old) (V.state stack.new) }
        ensures opens { OpensPager (V.state stack.old) (V.state stack.new) name result }
        ensures levels { LevelsStay (V.state stack.old) (V.state stack.new) }
        ensures leaves { Leaves (V.state stack.old) (V.state stack.new) name (LeavesOpened result) }
        ensures cause { OpenCaused (V.state stack.old) (V.state stack.new) name rule.now result }
        ensures fits { IfOk result (λ pager. Fits pager (V.state stack.new)) }
        ensures unread { IfOk result (λ pager. IsUnread pager.pages) }
        ensures stands { Stands (V.state stack.new) }
    {
        looser_twice();
        match has_journal(stack, &name) {
            Ok(false) => open_file(alloc, stack, name, rule),
            Ok(true) => Err(OpenFault::ForeignJournal),
            Err(fault) => Err(refusal(fault)),
        }
    }
}

/// Whether the journal of a name is there.
fn has_journal<V: Vfs>(stack: &mut V, name: &Name) -> Result<bool, VfsFault>
    requires journal { IsName (journal_of name.now) }
    ensures steady { Steady (V.state stack.old) (V.state stack.new) }
    ensures cause { Caused (V.state stack.old) (V.state stack.new) result }
    ensures rests { Rests (V.state stack.old) (V.state stack.new) }
    ensures is_there { IsTrue (V.state stack.old).tells → IfOk result (λ there. there ≡ ((V.state stack.old).files (journal_of name.now)).now.there) }
    ensures files { FilesLeft (V.state stack.old) (V.state stack.new) }
    ensures stands { Stands (V.state stack.new) }
{
    let Some(journal) = name.with(b"-journal") else {
        unreachable!()
    };
    stack.exists(&journal)
}

/// Opens the file of a database, and looks what it begins.
fn open_file<V: Vfs>(
    alloc: Global,
    stack: &mut V,
    name: Name,
    rule: &OpenRule,
) -> Result<Pager, OpenFault>
    requires free { IsFree (V.state stack.old) name }
    requires is_main { Main ≡ kind_of name }
    requires rule { IsRule rule.now }
    requires stands { Stands (V.state stack.old) }
    ensures steady { Steady (V.state stack.old) (V.state stack.new) }
    ensures opens { OpensPager (V.state stack.old) (V.state stack.new) name result }
    ensures levels { LevelsStay (V.state stack.old) (V.state stack.new) }
    ensures leaves { Leaves (V.state stack.old) (V.state stack.new) name (LeavesOpened result) }
    ensures cause { FileCaused (V.state stack.old) (V.state stack.new) name rule.now result }
    ensures fits { IfOk result (λ pager. Fits pager (V.state stack.new)) }
    ensures unread { IfOk result (λ pager. IsUnread pager.pages) }
    ensures stands { Stands (V.state stack.new) }
{
    apart_back();
    looser_twice();
    let fid = match stack.open(&name, Kind::Main) {
        Ok(fid) => fid,
        Err(fault) => return Err(refusal(fault)),
    };
    match first_pages(alloc, stack, fid, rule) {
        Ok(pages) => Ok(Pager {
            name,
            fid,
            pages,
            owner: None,
        }),
        Err(fault) => {
            stack.close(fid);
            Err(fault)
        }
    }
}

/// The pages of an open database of which none is read yet.
fn first_pages<V: Vfs>(
    alloc: Global,
    stack: &mut V,
    fid: Fid,
    rule: &OpenRule,
) -> Result<PageDraft, OpenFault>
    requires is_open { IsOpen (V.state stack.old) fid.0 }
    requires rule { IsRule rule.now }
    ensures steady { Steady (V.state stack.old) (V.state stack.new) }
    ensures opens { OpenStays (V.state stack.old) (V.state stack.new) }
    ensures levels { LevelsStay (V.state stack.old) (V.state stack.new) }
    ensures broken { BrokenStays (V.state stack.old) (V.state stack.new) }
    ensures leaves { Leaves (V.state stack.old) (V.state stack.new) (name_at (V.state stack.old) fid.0) NoLooser }
    ensures cause { BeginsAs (V.state stack.old) (V.state stack.new) (name_at (V.state stack.old) fid.0) rule.now result }
    ensures unread { IfOk result IsUnread }
    ensures stands { Stands (V.state stack.new) }
{
    header_in_front();
    looser_twice();
    let length = match stack.length(fid) {
        Ok(length) => length,
        Err(fault) => return Err(refusal(fault)),
    };
    if length == 0 {
        return Ok(PageDraft::new(alloc, rule.page, rule.reserve));
    }
    let mut first = [0; 100];
    match stack.read(fid, 0, &mut first) {
        Ok(_) => by_header(alloc, &first, length, rule),
        Err(fault) => Err(refusal(fault)),
    }
}

/// The pages of a database with this header, the first 100 bytes of a file of this length.
fn by_header(
    alloc: Global,
    first: &[u8; 100],
    length: u64,
    rule: &OpenRule,
) -> Result<PageDraft, OpenFault>
    ensures gives { HeaderGives (sizes_of (header_of first.now length (checksum_page rule.now))) result }
    ensures unread { IfOk result IsUnread }
{
    match read_header(first, length, rule.checksum_page()) {
        Ok(header) => Ok(PageDraft::new(alloc, header.page, header.reserved)),
        Err(fault) => Err(OpenFault::Header(fault)),
    }
}

/// Why an opening is refused whose call of the stack was.
fn refusal(fault: VfsFault) -> OpenFault
    ensures { result ≡ refusal_of fault }
{
    match fault {
        VfsFault::Failed => OpenFault::Failed,
        VfsFault::Memory => OpenFault::Memory,
        VfsFault::BadPage { page, kept, found } => OpenFault::BadPage { page, kept, found },
        VfsFault::Busy { .. } => OpenFault::Memory,
        VfsFault::Full { .. } => OpenFault::Memory,
    }
}
