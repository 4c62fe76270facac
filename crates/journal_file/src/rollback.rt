//! A hot journal that is read, played back and closed.

ghost use Rattle.std.specs.Prelude.{◌≡◌, ◌≢◌, ℕ, ◌+◌, ◌≤◌, ◌^◌, Bool, false, List, length, OnOk, IfOk, IsTrue, Option, Some, None, OnErr, IsErrOf};
ghost use Rattle.vfs_model.specs.File.{FileState, IsSettled};
ghost use Rattle.vfs_model.specs.Effect.{NoLooser};
ghost use Rattle.vfs_model.specs.Store.{OthersStay};
ghost use Rattle.vfs_model.specs.Name.{kind_of};
ghost use Rattle.vfs_trait.specs.State.{IsOpen, Steady, LimitsStay, LevelsStay, OpenStays, LengthsBeside, Rests, Stands, file_at, name_at};
ghost use Rattle.vfs_trait.specs.Calls.{Caused, Leaves, FilesLeft, checked};
ghost use Rattle.journal_format.specs.Undo.{Undo};
ghost use Rattle.journal_format.specs.Journal.{Undoes, all_exist, hot};
ghost use Rattle.journal_format.specs.Values.{undo_of};
ghost use Rattle.journal_format.specs.Reading.{IsPlayable};
ghost use Rattle.journal_file.specs.Tame.{IsSturdy, Reserves};
ghost use Rattle.journal_file.specs.Content.{initial_size, with_reserve, IsUndone, AllStandFor, AllHaveStood};
ghost use Rattle.journal_file.specs.Steps.{IsShut, IsKept, IsLong, IsHotOver, BothStayed, Exits, IsRead, CanPlayAt, IsWhole};

use crate::gate::close_gate;
use crate::laws::kept_image;
use crate::playback::play;
use byte_base::Bytes;
use journal_format::{Hot, JournalFault, Play, asked, closed_is_cold, read_hot, short_is_cold};
use std::alloc::Global;
use vfs_model::{Fid, Kind, looser_twice, now_is_image, older_images, settled_stays};
use vfs_trait::{Vfs, VfsFault};

/// The most bytes of a journal.
const MOST_JOURNAL: u64 = 1 << 32;

/// Reads a journal whole, plays it back, with zeros in the last `reserve` bytes of each page, and closes it.
///
/// Where the stack tells no content and the journal is not hot, or has another form or another page size, nothing is played and
/// the journal is closed. Refused with `Failed` or `Memory`: what a stop leaves stands for what it stood for, so it can be done again.
pub fn rollback_from<V: Vfs>(
    alloc: Global,
    stack: &mut V,
    db: Fid,
    journal: Fid,
    page: u32,
    reserve: u8,
) -> Result<(), VfsFault>
    requires db_open { IsOpen (V.state stack.old) db.0 }
    requires journal_open { IsOpen (V.state stack.old) journal.0 }
    requires two { db.0 ≢ journal.0 }
    requires is_main { kind_of (name_at (V.state stack.old) db.0) ≡ Kind.Main }
    requires is_journal { kind_of (name_at (V.state stack.old) journal.0) ≡ Kind.Journal }
    requires reserves { Reserves (checked (V.state stack.old).layers) page reserve }
    requires hot { IsTrue (V.state stack.old).tells → IsHotOver page (file_at (V.state stack.old) journal.0) (file_at (V.state stack.old) db.0) }
    requires settled { IsTrue (V.state stack.old).tells → IsSettled (file_at (V.state stack.old) journal.0) }
    ensures steady { Steady (V.state stack.old) (V.state stack.new) }
    ensures cause { Caused (V.state stack.old) (V.state stack.new) result }
    ensures limits { LimitsStay (V.state stack.old) (V.state stack.new) }
    ensures levels { LevelsStay (V.state stack.old) (V.state stack.new) }
    ensures opens { OpenStays (V.state stack.old) (V.state stack.new) }
    ensures lengths { LengthsBeside Kind.Main (V.state stack.old) (V.state stack.new) (name_at (V.state stack.old) db.0) }
    ensures tame { (u : Undo) → IsTrue (V.state stack.old).tells → hot all_exist (file_at (V.state stack.old) journal.0).now.bytes ≡ Undoes u → IsSturdy (V.state stack.old) (name_at (V.state stack.old) db.0) (initial_size u) → (file_at (V.state stack.new) db.0).wild ≡ false }
    ensures stood { (exists : List ℕ → Bool) → (u : Undo) → IsTrue (V.state stack.old).tells → (file_at (V.state stack.old) db.0).wild ≡ false → (file_at (V.state stack.new) db.0).wild ≡ false → hot exists (file_at (V.state stack.old) journal.0).now.bytes ≡ Undoes u →
        initial_size u ≤ (file_at (V.state stack.old) db.0).shortest →
        AllHaveStood exists reserve (file_at (V.state stack.old) journal.0) (file_at (V.state stack.old) db.0) (file_at (V.state stack.new) journal.0) (file_at (V.state stack.new) db.0) }
    ensures first { (exists : List ℕ → Bool) → (u : Undo) → (first : FileState) → IsTrue (V.state stack.old).tells → (file_at (V.state stack.new) db.0).wild ≡ false →
        hot exists (file_at (V.state stack.old) journal.0).now.bytes ≡ Undoes u → IsSettled first → IsTrue first.now.there →
        IsKept (with_reserve reserve u) first (file_at (V.state stack.old) db.0) → IsUndone (with_reserve reserve u) first.now first.now →
        AllStandFor exists reserve (file_at (V.state stack.new) journal.0) (file_at (V.state stack.new) db.0) first.now }
    ensures played { OnOk result ((u : Undo) → IsTrue (V.state stack.old).tells → hot all_exist (file_at (V.state stack.old) journal.0).now.bytes ≡ Undoes u →
        IsUndone (with_reserve reserve u) (file_at (V.state stack.old) db.0).now (file_at (V.state stack.new) db.0).now) }
    ensures settled { OnOk result (IsTrue (V.state stack.old).tells → (file_at (V.state stack.new) db.0).wild ≡ false → IsSettled (file_at (V.state stack.new) db.0)) }
    ensures shut { OnOk result (IsTrue (V.state stack.old).tells → IsShut (file_at (V.state stack.new) journal.0)) }
    ensures others { IsTrue (V.state stack.old).tells → BothStayed (V.state stack.old).layers (V.state stack.old).files (V.state stack.new).files (name_at (V.state stack.old) db.0) (name_at (V.state stack.old) journal.0) }
    ensures stands { Stands (V.state stack.new) }
{
    asked();
    short_is_cold();
    now_is_image();
    older_images();
    settled_stays();
    kept_image();
    looser_twice();
    stack.view_holds();
    match read_play(alloc, stack, journal, page)? {
        Some(found) => play_and_close(alloc, stack, db, journal, &found, reserve),
        None => close_gate(stack, journal),
    }
}

/// Plays a hot journal back and closes it.
fn play_and_close<V: Vfs>(
    alloc: Global,
    stack: &mut V,
    db: Fid,
    journal: Fid,
    found: &Play,
    reserve: u8,
) -> Result<(), VfsFault>
    requires db_open { IsOpen (V.state stack.old) db.0 }
    requires journal_open { IsOpen (V.state stack.old) journal.0 }
    requires two { db.0 ≢ journal.0 }
    requires is_main { kind_of (name_at (V.state stack.old) db.0) ≡ Kind.Main }
    requires is_journal { kind_of (name_at (V.state stack.old) journal.0) ≡ Kind.Journal }
    requires playable { IsPlayable found.now }
    requires reserves { Reserves (checked (V.state stack.old).layers) found.now.page reserve }
    requires is_hot { IsTrue (V.state stack.old).tells → hot all_exist (file_at (V.state stack.old) journal.0).now.bytes ≡ Undoes (undo_of found.now) }
    requires long { IsTrue (V.state stack.old).tells → IsLong (undo_of found.now) (file_at (V.state stack.old) db.0) }
    requires settled { IsTrue (V.state stack.old).tells → IsSettled (file_at (V.state stack.old) journal.0) }
    requires stands { Stands (V.state stack.old) }
    ensures steady { Steady (V.state stack.old) (V.state stack.new) }
    ensures cause { Caused (V.state stack.old) (V.state stack.new) result }
    ensures limits { LimitsStay (V.state stack.old) (V.state stack.new) }
    ensures levels { LevelsStay (V.state stack.old) (V.state stack.new) }
    ensures opens { OpenStays (V.state stack.old) (V.state stack.new) }
    ensures lengths { LengthsBeside Kind.Main (V.state stack.old) (V.state stack.new) (name_at (V.state stack.old) db.0) }
    ensures exits { IsTrue (V.state stack.old).tells → (file_at (V.state stack.old) db.0).wild ≡ false → (file_at (V.state stack.new) db.0).wild ≡ false →
        Exits reserve (undo_of found.now) (file_at (V.state stack.old) journal.0) (file_at (V.state stack.old) db.0) (file_at (V.state stack.new) journal.0) (file_at (V.state stack.new) db.0) }
    ensures tame { IsTrue (V.state stack.old).tells → IsSturdy (V.state stack.old) (name_at (V.state stack.old) db.0) (initial_size (undo_of found.now)) → (file_at (V.state stack.new) db.0).wild ≡ false }
    ensures played { OnOk result (IsTrue (V.state stack.old).tells → IsUndone (with_reserve reserve (undo_of found.now)) (file_at (V.state stack.old) db.0).now (file_at (V.state stack.new) db.0).now) }
    ensures settled { OnOk result (IsTrue (V.state stack.old).tells → (file_at (V.state stack.new) db.0).wild ≡ false → IsSettled (file_at (V.state stack.new) db.0)) }
    ensures shut { OnOk result (IsTrue (V.state stack.old).tells → IsShut (file_at (V.state stack.new) journal.0)) }
    ensures others { IsTrue (V.state stack.old).tells → BothStayed (V.state stack.old).layers (V.state stack.old).files (V.state stack.new).files (name_at (V.state stack.old) db.0) (name_at (V.state stack.old) journal.0) }
    ensures stands { Stands (V.state stack.new) }
{
    closed_is_cold();
    short_is_cold();
    now_is_image();
    older_images();
    settled_stays();
    kept_image();
    looser_twice();
    play(alloc, stack, db, found, reserve)?;
    close_gate(stack, journal)
}

/// What a journal undoes with pages of this size, or `None` where it is none such.
fn read_play<V: Vfs>(
    alloc: Global,
    stack: &mut V,
    journal: Fid,
    page: u32,
) -> Result<Option<Play>, VfsFault>
    requires is_open { IsOpen (V.state stack.old) journal.0 }
    requires is_journal { kind_of (name_at (V.state stack.old) journal.0) ≡ Kind.Journal }
    ensures steady { Steady (V.state stack.old) (V.state stack.new) }
    ensures cause { Caused (V.state stack.old) (V.state stack.new) result }
    ensures rests { Rests (V.state stack.old) (V.state stack.new) }
    ensures leaves { Leaves (V.state stack.old) (V.state stack.new) (name_at (V.state stack.old) journal.0) NoLooser }
    ensures read { IfOk result (λ found. IsTrue (V.state stack.old).tells → IsRead page (file_at (V.state stack.old) journal.0).now.bytes found) }
    ensures playable { IfOk result (λ found. CanPlayAt page found) }
    ensures stands { Stands (V.state stack.new) }
{
    match read_all(alloc, stack, journal)? {
        Some(bytes) => played_from(alloc, bytes.as_slice(), page),
        None => Ok(None),
    }
}

/// What the bytes of a journal undo with pages of this size.
fn played_from(alloc: Global, bytes: &[u8], page: u32) -> Result<Option<Play>, VfsFault>
    ensures read { IfOk result (λ found. IsRead page bytes.now found) }
    ensures playable { IfOk result (λ found. CanPlayAt page found) }
    ensures memory { OnErr result (IsErrOf result VfsFault.Memory) }
{
    match read_hot(alloc, bytes) {
        Ok(Hot::Play(play)) => {
            if play.page == page {
                Ok(Some(play))
            } else {
                Ok(None)
            }
        }
        Ok(Hot::Cold) | Err(JournalFault::Foreign) => Ok(None),
        Err(JournalFault::Memory) => Err(VfsFault::Memory),
    }
}

/// All bytes of a journal, or `None` where they are more than one has.
fn read_all<V: Vfs>(alloc: Global, stack: &mut V, journal: Fid) -> Result<Option<Bytes>, VfsFault>
    requires is_open { IsOpen (V.state stack.old) journal.0 }
    requires is_journal { kind_of (name_at (V.state stack.old) journal.0) ≡ Kind.Journal }
    ensures steady { Steady (V.state stack.old) (V.state stack.new) }
    ensures cause { Caused (V.state stack.old) (V.state stack.new) result }
    ensures rests { Rests (V.state stack.old) (V.state stack.new) }
    ensures leaves { Leaves (V.state stack.old) (V.state stack.new) (name_at (V.state stack.old) journal.0) NoLooser }
    ensures bytes { IfOk result (λ found. IsTrue (V.state stack.old).tells → IsWhole (file_at (V.state stack.old) journal.0).now.bytes found) }
    ensures stands { Stands (V.state stack.new) }
{
    looser_twice();
    let len = stack.length(journal)?;
    if len > MOST_JOURNAL {
        return Ok(None);
    }
    Ok(Some(read_front(alloc, stack, journal, len)?))
}

/// The first bytes of a journal, with zeros behind its end.
fn read_front<V: Vfs>(
    alloc: Global,
    stack: &mut V,
    journal: Fid,
    len: u64,
) -> Result<Bytes, VfsFault>
    requires is_open { IsOpen (V.state stack.old) journal.0 }
    requires is_journal { kind_of (name_at (V.state stack.old) journal.0) ≡ Kind.Journal }
    requires within { len ≤ 2 ^ 32 }
    requires stands { Stands (V.state stack.old) }
    ensures steady { Steady (V.state stack.old) (V.state stack.new) }
    ensures cause { Caused (V.state stack.old) (V.state stack.new) result }
    ensures rests { Rests (V.state stack.old) (V.state stack.new) }
    ensures files { FilesLeft (V.state stack.old) (V.state stack.new) }
    ensures bytes { IfOk result (λ found. IsTrue (V.state stack.old).tells → len ≡ length (file_at (V.state stack.old) journal.0).now.bytes → found ≡ (file_at (V.state stack.old) journal.0).now.bytes) }
    ensures stands { Stands (V.state stack.new) }
{
    let Ok(mut bytes) = vec![in alloc; 0u8; len as usize] else {
        return Err(VfsFault::Memory);
    };
    read_into(stack, journal, bytes.as_mut_slice())?;
    Ok(Bytes::from_vec(bytes))
}

/// Reads the first bytes of a journal.
#[tactic(auto, using(crate::proofs::ReadLemmas::whole_read))]
fn read_into<V: Vfs>(stack: &mut V, journal: Fid, buf: &mut [u8]) -> Result<(), VfsFault>
    requires is_open { IsOpen (V.state stack.old) journal.0 }
    requires is_journal { kind_of (name_at (V.state stack.old) journal.0) ≡ Kind.Journal }
    requires within { length buf.old ≤ 2 ^ 32 }
    ensures steady { Steady (V.state stack.old) (V.state stack.new) }
    ensures cause { Caused (V.state stack.old) (V.state stack.new) result }
    ensures rests { Rests (V.state stack.old) (V.state stack.new) }
    ensures files { FilesLeft (V.state stack.old) (V.state stack.new) }
    ensures bytes { OnOk result (IsTrue (V.state stack.old).tells → length buf.old ≡ length (file_at (V.state stack.old) journal.0).now.bytes → buf.new ≡ (file_at (V.state stack.old) journal.0).now.bytes) }
    ensures stands { Stands (V.state stack.new) }
{
    stack.read(journal, 0, buf)?;
    Ok(())
}
