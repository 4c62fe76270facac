//! The pager.

use db_format::SpaceFault;
use page_draft::PageDraft;
use vfs_model::{Fid, Name, Owner};

/// The pages of a database that is open.
#[derive(Drop)]
pub struct Pager {
    /// Its name, and its number among the open files.
    pub name: Name,
    pub fid: Fid,
    /// Its pages.
    pub pages: PageDraft,
    /// Whose draft they have.
    pub owner: Option<Owner>,
}

impl Pager {
    ghost use Rattle.std.specs.Prelude.{◌≡◌, ◌+◌, true, length, IfOk, IfErr, OnOk, OnErr};
    ghost use Rattle.page_list.specs.Pages.{HasPage, IsGood};
    ghost use Rattle.page_list.specs.Edits.{with_page, grown};
    ghost use Rattle.page_draft.specs.Draft.{HasSizes, IsBad, PageFails, PassesGreatest, GrowFails};
    ghost use Rattle.pager_core.specs.Seen.{owns, seen, is_changed, IsAlone, SameFile, SeenStays, KeepsOwner};

    /// Whether a connection has the draft.
    pub(crate) fn owns(&self, who: Owner) -> bool
        ensures { result ≡ owns self.now.owner who }
    {
        match self.owner {
            Some(owner) => owner == who,
            None => false,
        }
    }

    /// How many pages a connection sees.
    pub(crate) fn seen_size(&self, who: Owner) -> u32
        ensures value { result ≡ (seen self.now who).size }
        ensures sizes { HasSizes self.now.pages.page_size (seen self.now who) }
    {
        if self.owns(who) {
            return self.pages.size();
        }
        self.pages.read_size()
    }

    /// The bytes of a page as a connection sees it. Refused with `Bad` alone, just where it fails its checksum.
    pub(crate) fn seen_page(&self, who: Owner, number: u32) -> Result<&[u8], SpaceFault>
        requires there { HasPage (seen self.now who) number }
        ensures good { OnOk result (IsGood (seen self.now who) number) }
        ensures long { IfOk result (λ bytes. length bytes.now ≡ self.now.pages.page_size) }
        ensures bytes { IfOk result (λ bytes. bytes.now ≡ (seen self.now who).bytes number) }
        ensures refused { IfErr result (IsBad (seen self.now who) number) }
    {
        if self.owns(who) {
            return self.pages.page(number);
        }
        self.pages.read_page(number)
    }

    /// Puts a page into the draft of a connection, which no other has. Refused as `PageDraft::put` is: nothing has changed.
    pub(crate) fn put_own(
        &mut self,
        who: Owner,
        number: u32,
        bytes: &[u8],
    ) -> Result<(), SpaceFault>
        requires alone { IsAlone self.old who }
        requires there { HasPage (seen self.old who) number }
        requires one_page { length bytes.now ≡ self.old.pages.page_size }
        ensures alone { IsAlone self.new who }
        ensures stays { SameFile self.old self.new }
        ensures owned { KeepsOwner self.old self.new who }
        ensures good { OnOk result (IsGood (seen self.old who) number) }
        ensures put { OnOk result (seen self.new who ≡ with_page number bytes.now (seen self.old who)) }
        ensures changed { OnOk result (is_changed self.new who ≡ true) }
        ensures refused { IfErr result (PageFails (seen self.old who) number) }
        ensures kept { OnErr result (SeenStays self.old self.new who) }
    {
        self.pages.put(number, bytes)?;
        self.owner = Some(who);
        Ok(())
    }

    /// Adds a page of zeros to the draft of a connection, which no other has, and answers its number. Refused as `PageDraft::grow` is: nothing
    /// has changed.
    pub(crate) fn grow_own(&mut self, who: Owner) -> Result<u32, SpaceFault>
        requires alone { IsAlone self.old who }
        ensures alone { IsAlone self.new who }
        ensures stays { SameFile self.old self.new }
        ensures owned { KeepsOwner self.old self.new who }
        ensures next { IfOk result (λ number. number ≡ (seen self.old who).size + 1) }
        ensures small { OnOk result (¬ (PassesGreatest self.old.pages.page_size (seen self.old who))) }
        ensures grown { OnOk result (seen self.new who ≡ grown self.old.pages.page_size (seen self.old who)) }
        ensures changed { OnOk result (is_changed self.new who ≡ true) }
        ensures refused { IfErr result (GrowFails self.old.pages.page_size (seen self.old who)) }
        ensures kept { OnErr result (SeenStays self.old self.new who) }
    {
        let number = self.pages.grow()?;
        self.owner = Some(who);
        Ok(number)
    }
}
