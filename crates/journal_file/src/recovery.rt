//! A caller of a playback, for which no clause asks how sure the database file is.

ghost use Rattle.std.specs.Prelude.{◌≡◌, ◌≢◌, ℕ, Bool, false, List, IsTrue};
ghost use Rattle.vfs_model.specs.File.{IsSettled};
ghost use Rattle.vfs_model.specs.Name.{kind_of};
ghost use Rattle.vfs_trait.specs.State.{IsOpen, Steady, Stands, file_at, name_at};
ghost use Rattle.vfs_trait.specs.Calls.{Caused, checked};
ghost use Rattle.journal_format.specs.Undo.{Undo};
ghost use Rattle.journal_format.specs.Journal.{Undoes, hot};
ghost use Rattle.journal_file.specs.Tame.{Reserves};
ghost use Rattle.journal_file.specs.Content.{AllHaveStood};
ghost use Rattle.journal_file.specs.Steps.{IsHotOver};

use crate::rollback::rollback_from;
use journal_format::asked;
use std::alloc::Global;
use vfs_model::{Fid, Kind, older_images};
use vfs_trait::{Vfs, VfsFault};

/// Syncs a database file, and rolls it back from its hot journal: whichever call fails, what a stop leaves stands for all that
/// something stood for which a stop could have left before.
pub fn recover<V: Vfs>(
    alloc: Global,
    stack: &mut V,
    db: Fid,
    journal: Fid,
    page: u32,
    reserve: u8,
) -> Result<(), VfsFault>
    requires db_open { IsOpen (V.state stack.old) db.0 }
    requires journal_open { IsOpen (V.state stack.old) journal.0 }
    requires two { db.0 ≢ journal.0 }
    requires is_main { kind_of (name_at (V.state stack.old) db.0) ≡ Kind.Main }
    requires is_journal { kind_of (name_at (V.state stack.old) journal.0) ≡ Kind.Journal }
    requires reserves { Reserves (checked (V.state stack.old).layers) page reserve }
    requires hot { IsTrue (V.state stack.old).tells → IsHotOver page (file_at (V.state stack.old) journal.0) (file_at (V.state stack.old) db.0) }
    requires settled { IsTrue (V.state stack.old).tells → IsSettled (file_at (V.state stack.old) journal.0) }
    ensures steady { Steady (V.state stack.old) (V.state stack.new) }
    ensures cause { Caused (V.state stack.old) (V.state stack.new) result }
    ensures stood { (exists : List ℕ → Bool) → (u : Undo) → IsTrue (V.state stack.old).tells → (file_at (V.state stack.old) db.0).wild ≡ false → (file_at (V.state stack.new) db.0).wild ≡ false → hot exists (file_at (V.state stack.old) journal.0).now.bytes ≡ Undoes u →
        AllHaveStood exists reserve (file_at (V.state stack.old) journal.0) (file_at (V.state stack.old) db.0) (file_at (V.state stack.new) journal.0) (file_at (V.state stack.new) db.0) }
    ensures stands { Stands (V.state stack.new) }
{
    asked();
    older_images();
    stack.view_holds();
    stack.sync(db)?;
    rollback_from(alloc, stack, db, journal, page, reserve)
}
