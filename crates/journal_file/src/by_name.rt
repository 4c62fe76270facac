//! A commit whose journal is opened by its name before and closed behind.

ghost use Rattle.std.specs.Prelude.{◌≡◌, ℕ, Bool, false, List, OnOk, IsTrue};
ghost use Rattle.vfs_model.specs.File.{Found};
ghost use Rattle.vfs_model.specs.Name.{kind_of};
ghost use Rattle.vfs_trait.specs.State.{IsOpen, IsFree, Steady, Stands, file_at, name_at};
ghost use Rattle.vfs_trait.specs.Calls.{Caused, checked};
ghost use Rattle.journal_format.specs.Undo.{ArePages};
ghost use Rattle.journal_format.specs.Journal.{IsPlan};
ghost use Rattle.journal_format.specs.Values.{all_paged, undo_of_plan};
ghost use Rattle.journal_file.specs.Tame.{Reserves};
ghost use Rattle.journal_file.specs.Content.{with_reserve, IsUndone, AllStandFor, AllStandForEither};
ghost use Rattle.journal_file.specs.Steps.{IsClosedOrEmpty, IsSettledButName};
ghost use Rattle.journal_file.specs.Commit.{AreAmong, changed, IsReady, Counts};

use crate::commit::commit_pages;
use crate::first_use::prepare;
use crate::laws::cold_stands;
use journal_format::{JournalPlan, PageList};
use std::alloc::Global;
use vfs_model::{Fid, Kind, Name, older_images};
use vfs_trait::{Vfs, VfsFault, never_wild};

/// Makes the journal of a name ready, commits pages under it and closes it: `commit_pages` from a journal that is not open.
///
/// Whatever is answered, the same files are open, and what a stop leaves stands for the file before or for the file with the
/// pages. Ok: for the latter.
pub fn commit_named<V: Vfs>(
    alloc: Global,
    stack: &mut V,
    db: Fid,
    name: &Name,
    plan: &JournalPlan,
    pages: PageList,
    reserve: u8,
) -> Result<(), VfsFault>
    requires db_open { IsOpen (V.state stack.old) db.0 }
    requires is_main { kind_of (name_at (V.state stack.old) db.0) ≡ Kind.Main }
    requires free { IsFree (V.state stack.old) name.now }
    requires is_journal { kind_of name.now ≡ Kind.Journal }
    requires closed { IsTrue (V.state stack.old).tells → IsClosedOrEmpty ((V.state stack.old).files name.now).now.bytes }
    requires settled { IsTrue (V.state stack.old).tells → IsSettledButName ((V.state stack.old).files name.now) }
    requires reserves { Reserves (checked (V.state stack.old).layers) plan.now.page reserve }
    requires plan { IsPlan plan.now.nonce (undo_of_plan plan.now) }
    requires pages { ArePages plan.now.page (all_paged pages) }
    requires among { AreAmong (undo_of_plan plan.now).originals (all_paged pages) }
    requires ready { IsTrue (V.state stack.old).tells → IsReady reserve (undo_of_plan plan.now) (file_at (V.state stack.old) db.0) }
    ensures steady { Steady (V.state stack.old) (V.state stack.new) }
    ensures cause { Caused (V.state stack.old) (V.state stack.new) result }
    ensures opens { (fid : ℕ) → (V.state stack.new).open_files fid ≡ (V.state stack.old).open_files fid }
    ensures either { (exists : List ℕ → Bool) → (after : Found) → IsTrue (V.state stack.old).tells → (file_at (V.state stack.new) db.0).wild ≡ false → Counts exists (undo_of_plan plan.now) →
        IsUndone (with_reserve reserve (changed (undo_of_plan plan.now) (all_paged pages))) (file_at (V.state stack.old) db.0).now after →
        AllStandForEither exists reserve ((V.state stack.new).files name.now) (file_at (V.state stack.new) db.0) (file_at (V.state stack.old) db.0).now after }
    ensures after { OnOk result ((exists : List ℕ → Bool) → IsTrue (V.state stack.old).tells → (file_at (V.state stack.new) db.0).wild ≡ false →
        AllStandFor exists reserve ((V.state stack.new).files name.now) (file_at (V.state stack.new) db.0) (file_at (V.state stack.new) db.0).now) }
    ensures written { OnOk result (IsTrue (V.state stack.old).tells →
        IsUndone (with_reserve reserve (changed (undo_of_plan plan.now) (all_paged pages))) (file_at (V.state stack.old) db.0).now (file_at (V.state stack.new) db.0).now) }
    ensures stands { Stands (V.state stack.new) }
{
    older_images();
    cold_stands();
    never_wild();
    stack.view_holds();
    let journal = prepare(stack, name)?;
    let done = commit_pages(alloc, stack, db, journal, plan, pages, reserve);
    stack.close(journal);
    done
}
