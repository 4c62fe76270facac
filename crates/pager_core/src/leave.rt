//! How connections go out of a database, and the numbers of the database that they see.

use crate::pager::Pager;
use byte_base::u32_at;
use vfs_model::{Level, Owner};
use vfs_trait::Vfs;

impl Pager {
    ghost use Rattle.std.specs.Prelude.{◌≡◌, false, IsTrue};
    ghost use Rattle.vfs_model.specs.Effect.{Closed};
    ghost use Rattle.vfs_model.specs.Lock.{Lowers};
    ghost use Rattle.vfs_model.specs.declared.level.Level.TheVariants.{Free};
    ghost use Rattle.vfs_trait.specs.State.{Steady, OpenStays};
    ghost use Rattle.vfs_trait.specs.Calls.{FilesLeft, LocksAt, Closes, Leaves, falls_to};
    ghost use Rattle.page_draft.specs.Draft.{read_pages};
    ghost use Rattle.pager_core.specs.Seen.{Fits, SameFile, seen, is_changed};
    ghost use Rattle.pager_core.specs.Leave.{DropsDraft, counter_of};

    /// Drops the draft of a connection, where it has one, and ends its locks. It takes no memory, and the device is not asked.
    pub fn rollback<V: Vfs>(&mut self, stack: &mut V, who: Owner)
        requires fits { Fits self.old (V.state stack.old) }
        ensures steady { Steady (V.state stack.old) (V.state stack.new) }
        ensures opens { OpenStays (V.state stack.old) (V.state stack.new) }
        ensures files { FilesLeft (V.state stack.old) (V.state stack.new) }
        ensures lowers { LocksAt (V.state stack.old) (V.state stack.new) self.old.fid.0 (λ old new. Lowers old new who Free) }
        ensures same { SameFile self.old self.new }
        ensures drops { DropsDraft self.old self.new who }
        ensures fits { Fits self.new (V.state stack.new) }
    {
        self.drop_draft(who);
        stack.unlock(self.fid, who, Level::Free);
    }

    /// Lowers the lock of a connection, which has changed nothing, to Shared or Free; a lower one stays. It takes no memory, and the device
    /// is not asked.
    pub fn lower<V: Vfs>(&mut self, stack: &mut V, who: Owner, level: Level)
        requires fits { Fits self.old (V.state stack.old) }
        requires falls { IsTrue (falls_to level) }
        requires unchanged { is_changed self.old who ≡ false }
        ensures steady { Steady (V.state stack.old) (V.state stack.new) }
        ensures opens { OpenStays (V.state stack.old) (V.state stack.new) }
        ensures files { FilesLeft (V.state stack.old) (V.state stack.new) }
        ensures lowers { LocksAt (V.state stack.old) (V.state stack.new) self.old.fid.0 (λ old new. Lowers old new who level) }
        ensures same { SameFile self.old self.new }
        ensures drops { DropsDraft self.old self.new who }
        ensures fits { Fits self.new (V.state stack.new) }
    {
        self.drop_draft(who);
        stack.unlock(self.fid, who, level);
    }

    /// Closes the file with all drafts and locks. It takes no memory, and the device is not asked.
    pub fn close<V: Vfs>(self, stack: &mut V)
        requires fits { Fits self (V.state stack.old) }
        ensures steady { Steady (V.state stack.old) (V.state stack.new) }
        ensures closes { Closes (V.state stack.old) (V.state stack.new) self.fid.0 }
        ensures leaves { Leaves (V.state stack.old) (V.state stack.new) self.name Closed }
    {
        stack.close(self.fid);
    }

    /// How many pages a connection sees.
    pub fn pages(&self, who: Owner) -> u32
        ensures value { result ≡ (seen self.now who).size }
    {
        self.seen_size(who)
    }

    /// The change counter of the database as it was read: 0 where there is no page, or page 1 fails its checksum.
    pub fn counter(&self) -> u32
        ensures value { result ≡ counter_of (read_pages self.now.pages) }
    {
        if self.pages.read_size() == 0 {
            return 0;
        }
        match self.pages.read_page(1) {
            Ok(bytes) => u32_at(bytes, 24),
            Err(_) => 0,
        }
    }

    /// Drops the draft of a connection, where it has one.
    fn drop_draft(&mut self, who: Owner)
        ensures same { SameFile self.old self.new }
        ensures drops { DropsDraft self.old self.new who }
    {
        if self.owns(who) {
            self.pages.discard();
            self.owner = None;
        }
    }
}
