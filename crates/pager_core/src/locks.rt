//! Drafts of connections, and the locks that they need.

use crate::fault::PagerFault;
use crate::pager::Pager;
use vfs_model::{Level, Owner};
use vfs_trait::Vfs;

impl Pager {
    ghost use Rattle.std.specs.Prelude.{◌≡◌, ℕ, ◌≤◌, OnOk};
    ghost use Rattle.vfs_model.specs.Lock.{level_at, rank};
    ghost use Rattle.vfs_model.specs.declared.level.Level.TheVariants.{Reserved};
    ghost use Rattle.vfs_trait.specs.State.{Steady, OpenStays};
    ghost use Rattle.vfs_trait.specs.Calls.{FilesLeft, LocksAt};
    ghost use Rattle.page_draft.specs.Draft.{marked_list, now_list};
    ghost use Rattle.pager_core.specs.Locks.{Asks};
    ghost use Rattle.pager_core.specs.Seen.{Fits, IsAlone, SameFile, SeenStays};

    /// Asks Reserved for a connection, which holds Shared. Refused with `Busy` alone, by the lock rule: nothing has changed.
    pub fn begin_write<V: Vfs>(&self, stack: &mut V, who: Owner) -> Result<(), PagerFault>
        requires fits { Fits self.now (V.state stack.old) }
        requires shared { 1 ≤ rank (level_at ((V.state stack.old).levels self.now.fid.0) who) }
        ensures steady { Steady (V.state stack.old) (V.state stack.new) }
        ensures opens { OpenStays (V.state stack.old) (V.state stack.new) }
        ensures files { FilesLeft (V.state stack.old) (V.state stack.new) }
        ensures rule { LocksAt (V.state stack.old) (V.state stack.new) self.now.fid.0 (Asks who Reserved result) }
        ensures fits { Fits self.now (V.state stack.new) }
        ensures alone { OnOk result (IsAlone self.now who) }
    {
        match stack.lock(self.fid, who, Level::Reserved) {
            Ok(()) => Ok(()),
            Err(_) => Err(PagerFault::Busy),
        }
    }

    /// Sets a mark in the draft, to which `undo_command` goes back. It takes no memory.
    pub fn mark_command(&mut self)
        ensures same { SameFile self.old self.new }
        ensures owner { self.new.owner ≡ self.old.owner }
        ensures seen { (who : ℕ) → SeenStays self.old self.new who }
        ensures marked { marked_list self.new.pages ≡ now_list self.old.pages }
        ensures mark { self.new.pages.marked_changed ≡ self.old.pages.changed }
    {
        self.pages.mark();
    }

    /// Takes the draft back to the mark. It takes no memory.
    pub fn undo_command(&mut self)
        ensures same { SameFile self.old self.new }
        ensures owner { self.new.owner ≡ self.old.owner }
        ensures undone { now_list self.new.pages ≡ marked_list self.old.pages }
        ensures change { self.new.pages.changed ≡ self.old.pages.marked_changed }
    {
        self.pages.undo();
    }
}
