//! A caller that commits pages which lie within the file: by the other calls alone.

ghost use Rattle.std.specs.Prelude.{◌≡◌, ◌≢◌, ℕ, ◌≤◌, ◌^◌, Bool, false, List, length, OnOk, IsTrue};
ghost use Rattle.vfs_model.specs.File.{Found, IsSettled};
ghost use Rattle.vfs_model.specs.Store.{OthersStay};
ghost use Rattle.vfs_model.specs.Name.{kind_of};
ghost use Rattle.vfs_trait.specs.State.{IsOpen, Steady, OpenStays, RestsBut, Stands, file_at, name_at};
ghost use Rattle.vfs_trait.specs.Calls.{Caused, checked};
ghost use Rattle.journal_format.specs.Undo.{ArePages};
ghost use Rattle.journal_format.specs.Journal.{IsPlan, journal};
ghost use Rattle.journal_format.specs.Reading.{IsPlayable};
ghost use Rattle.journal_format.specs.Values.{all_paged, undo_of, undo_of_plan};
ghost use Rattle.journal_file.specs.Tame.{IsSturdy, Reserves};
ghost use Rattle.journal_file.specs.Content.{initial_size, with_reserve, IsUndone, AllStandFor, AllStandForEither};
ghost use Rattle.journal_file.specs.Steps.{IsShut, IsLong, BothStayed, with_first};
ghost use Rattle.journal_file.specs.Commit.{AreAmong, changed, IsReady, Counts, HasBegun, HasChanged};

use crate::gate::{close_gate, open_gate, write_journal};
use crate::laws::{cold_stands, gate_stands, kept_image, kept_stands, shut_is_cold};
use crate::playback::play;
use journal_format::{
    JournalPlan, PageList, Play, few_records, journal_bytes, pages_cover, read_back,
};
use std::alloc::Global;
use vfs_model::{Fid, Kind, looser_twice, older_images, settled_stays};
use vfs_trait::{Vfs, VfsFault};

/// Writes pages that lie within a settled file, under a journal of what they replace, with zeros in the last `reserve` bytes of each.
///
/// Whatever is answered, what a stop leaves stands for the file before or for the file with the pages. Ok: for the latter.
pub fn commit_pages<V: Vfs>(
    alloc: Global,
    stack: &mut V,
    db: Fid,
    journal: Fid,
    plan: &JournalPlan,
    pages: PageList,
    reserve: u8,
) -> Result<(), VfsFault>
    requires db_open { IsOpen (V.state stack.old) db.0 }
    requires journal_open { IsOpen (V.state stack.old) journal.0 }
    requires two { db.0 ≢ journal.0 }
    requires is_main { kind_of (name_at (V.state stack.old) db.0) ≡ Kind.Main }
    requires is_journal { kind_of (name_at (V.state stack.old) journal.0) ≡ Kind.Journal }
    requires reserves { Reserves (checked (V.state stack.old).layers) plan.now.page reserve }
    requires plan { IsPlan plan.now.nonce (undo_of_plan plan.now) }
    requires pages { ArePages plan.now.page (all_paged pages) }
    requires among { AreAmong (undo_of_plan plan.now).originals (all_paged pages) }
    requires shut { IsTrue (V.state stack.old).tells → IsShut (file_at (V.state stack.old) journal.0) }
    requires ready { IsTrue (V.state stack.old).tells → IsReady reserve (undo_of_plan plan.now) (file_at (V.state stack.old) db.0) }
    ensures steady { Steady (V.state stack.old) (V.state stack.new) }
    ensures cause { Caused (V.state stack.old) (V.state stack.new) result }
    ensures opens { OpenStays (V.state stack.old) (V.state stack.new) }
    ensures either { (exists : List ℕ → Bool) → (after : Found) → IsTrue (V.state stack.old).tells → (file_at (V.state stack.new) db.0).wild ≡ false → Counts exists (undo_of_plan plan.now) →
        IsUndone (with_reserve reserve (changed (undo_of_plan plan.now) (all_paged pages))) (file_at (V.state stack.old) db.0).now after →
        AllStandForEither exists reserve (file_at (V.state stack.new) journal.0) (file_at (V.state stack.new) db.0) (file_at (V.state stack.old) db.0).now after }
    ensures after { OnOk result ((exists : List ℕ → Bool) → IsTrue (V.state stack.old).tells → (file_at (V.state stack.new) db.0).wild ≡ false →
        AllStandFor exists reserve (file_at (V.state stack.new) journal.0) (file_at (V.state stack.new) db.0) (file_at (V.state stack.new) db.0).now) }
    ensures written { OnOk result (IsTrue (V.state stack.old).tells →
        IsUndone (with_reserve reserve (changed (undo_of_plan plan.now) (all_paged pages))) (file_at (V.state stack.old) db.0).now (file_at (V.state stack.new) db.0).now) }
    ensures settled { OnOk result (IsTrue (V.state stack.old).tells → (file_at (V.state stack.new) db.0).wild ≡ false → IsSettled (file_at (V.state stack.new) db.0)) }
    ensures shut { OnOk result (IsTrue (V.state stack.old).tells → IsShut (file_at (V.state stack.new) journal.0)) }
    ensures tame { IsTrue (V.state stack.old).tells → IsSturdy (V.state stack.old) (name_at (V.state stack.old) db.0) (initial_size (undo_of_plan plan.now)) → (file_at (V.state stack.new) db.0).wild ≡ false }
    ensures others { IsTrue (V.state stack.old).tells → BothStayed (V.state stack.old).layers (V.state stack.old).files (V.state stack.new).files (name_at (V.state stack.old) db.0) (name_at (V.state stack.old) journal.0) }
    ensures stands { Stands (V.state stack.new) }
{
    looser_twice();
    older_images();
    settled_stays();
    pages_cover();
    read_back();
    cold_stands();
    gate_stands();
    kept_image();
    kept_stands();
    shut_is_cold();
    stack.view_holds();
    begin(alloc, stack, journal, plan)?;
    let change = Play {
        page: plan.page,
        initial: plan.initial,
        records: pages,
        super_name: None,
    };
    change_and_close(alloc, stack, db, journal, &change, reserve)
}

/// Writes the journal of a plan and opens it.
fn begin<V: Vfs>(
    alloc: Global,
    stack: &mut V,
    journal: Fid,
    plan: &JournalPlan,
) -> Result<(), VfsFault>
    requires is_open { IsOpen (V.state stack.old) journal.0 }
    requires is_journal { kind_of (name_at (V.state stack.old) journal.0) ≡ Kind.Journal }
    requires plan { IsPlan plan.now.nonce (undo_of_plan plan.now) }
    requires shut { IsTrue (V.state stack.old).tells → IsShut (file_at (V.state stack.old) journal.0) }
    requires stands { Stands (V.state stack.old) }
    ensures steady { Steady (V.state stack.old) (V.state stack.new) }
    ensures cause { Caused (V.state stack.old) (V.state stack.new) result }
    ensures rests { RestsBut (V.state stack.old) (V.state stack.new) journal.0 }
    ensures begun { IsTrue (V.state stack.old).tells → HasBegun (Rattle.journal_format.specs.Journal.journal 0 plan.now.nonce (undo_of_plan plan.now)) (file_at (V.state stack.new) journal.0) }
    ensures settled { OnOk result (IsTrue (V.state stack.old).tells → IsSettled (file_at (V.state stack.new) journal.0)) }
    ensures there { OnOk result (IsTrue (V.state stack.old).tells → IsTrue (file_at (V.state stack.new) journal.0).now.there) }
    ensures opened { OnOk result (IsTrue (V.state stack.old).tells → (file_at (V.state stack.new) journal.0).now.bytes ≡ Rattle.journal_format.specs.Journal.journal 217 plan.now.nonce (undo_of_plan plan.now)) }
    ensures others { IsTrue (V.state stack.old).tells → OthersStay (V.state stack.old).layers (V.state stack.old).files (V.state stack.new).files (name_at (V.state stack.old) journal.0) }
    ensures stands { Stands (V.state stack.new) }
{
    few_records();
    shut_is_cold();
    match journal_bytes(alloc, plan) {
        Ok(bytes) => write_and_open(stack, journal, bytes.as_slice()),
        Err(_) => Err(VfsFault::Memory),
    }
}

/// Writes a journal and opens it.
fn write_and_open<V: Vfs>(stack: &mut V, journal: Fid, bytes: &[u8]) -> Result<(), VfsFault>
    requires is_open { IsOpen (V.state stack.old) journal.0 }
    requires is_journal { kind_of (name_at (V.state stack.old) journal.0) ≡ Kind.Journal }
    requires some { 1 ≤ length bytes.now }
    requires within { length bytes.now ≤ 2 ^ 32 }
    requires shut { IsTrue (V.state stack.old).tells → IsShut (file_at (V.state stack.old) journal.0) }
    ensures steady { Steady (V.state stack.old) (V.state stack.new) }
    ensures cause { Caused (V.state stack.old) (V.state stack.new) result }
    ensures rests { RestsBut (V.state stack.old) (V.state stack.new) journal.0 }
    ensures begun { IsTrue (V.state stack.old).tells → HasBegun (with_first 0 bytes.now) (file_at (V.state stack.new) journal.0) }
    ensures settled { OnOk result (IsTrue (V.state stack.old).tells → IsSettled (file_at (V.state stack.new) journal.0)) }
    ensures there { OnOk result (IsTrue (V.state stack.old).tells → IsTrue (file_at (V.state stack.new) journal.0).now.there) }
    ensures opened { OnOk result (IsTrue (V.state stack.old).tells → (file_at (V.state stack.new) journal.0).now.bytes ≡ with_first 217 bytes.now) }
    ensures others { IsTrue (V.state stack.old).tells → OthersStay (V.state stack.old).layers (V.state stack.old).files (V.state stack.new).files (name_at (V.state stack.old) journal.0) }
    ensures stands { Stands (V.state stack.new) }
{
    looser_twice();
    shut_is_cold();
    write_journal(stack, journal, bytes)?;
    open_gate(stack, journal)
}

/// Writes the pages, syncs them and closes the journal.
fn change_and_close<V: Vfs>(
    alloc: Global,
    stack: &mut V,
    db: Fid,
    journal: Fid,
    change: &Play,
    reserve: u8,
) -> Result<(), VfsFault>
    requires db_open { IsOpen (V.state stack.old) db.0 }
    requires journal_open { IsOpen (V.state stack.old) journal.0 }
    requires two { db.0 ≢ journal.0 }
    requires is_main { kind_of (name_at (V.state stack.old) db.0) ≡ Kind.Main }
    requires is_journal { kind_of (name_at (V.state stack.old) journal.0) ≡ Kind.Journal }
    requires playable { IsPlayable change.now }
    requires reserves { Reserves (checked (V.state stack.old).layers) change.now.page reserve }
    requires long { IsTrue (V.state stack.old).tells → IsLong (undo_of change.now) (file_at (V.state stack.old) db.0) }
    requires some { IsTrue (V.state stack.old).tells → 1 ≤ length (file_at (V.state stack.old) journal.0).now.bytes }
    requires settled { IsTrue (V.state stack.old).tells → IsSettled (file_at (V.state stack.old) journal.0) }
    requires stands { Stands (V.state stack.old) }
    ensures steady { Steady (V.state stack.old) (V.state stack.new) }
    ensures cause { Caused (V.state stack.old) (V.state stack.new) result }
    ensures opens { OpenStays (V.state stack.old) (V.state stack.new) }
    ensures changed { IsTrue (V.state stack.old).tells → (file_at (V.state stack.new) db.0).wild ≡ false →
        HasChanged (with_reserve reserve (undo_of change.now)) (file_at (V.state stack.old) journal.0) (file_at (V.state stack.old) db.0) (file_at (V.state stack.new) journal.0) (file_at (V.state stack.new) db.0) }
    ensures written { OnOk result (IsTrue (V.state stack.old).tells → IsUndone (with_reserve reserve (undo_of change.now)) (file_at (V.state stack.old) db.0).now (file_at (V.state stack.new) db.0).now) }
    ensures settled { OnOk result (IsTrue (V.state stack.old).tells → (file_at (V.state stack.new) db.0).wild ≡ false → IsSettled (file_at (V.state stack.new) db.0)) }
    ensures shut { OnOk result (IsTrue (V.state stack.old).tells → IsShut (file_at (V.state stack.new) journal.0)) }
    ensures tame { IsTrue (V.state stack.old).tells → IsSturdy (V.state stack.old) (name_at (V.state stack.old) db.0) (initial_size (undo_of change.now)) → (file_at (V.state stack.new) db.0).wild ≡ false }
    ensures others { IsTrue (V.state stack.old).tells → BothStayed (V.state stack.old).layers (V.state stack.old).files (V.state stack.new).files (name_at (V.state stack.old) db.0) (name_at (V.state stack.old) journal.0) }
    ensures stands { Stands (V.state stack.new) }
{
    looser_twice();
    play(alloc, stack, db, change, reserve)?;
    close_gate(stack, journal)
}
