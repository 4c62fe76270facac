//! What a journal undoes, written to the database file.

ghost use Rattle.std.specs.Prelude.{◌≡◌, ℕ, ◌+◌, ◌*◌, ◌≤◌, ◌^◌, false, length, OnOk, IfOk, IsTrue, ◌++◌, replicate};
ghost use Rattle.vfs_model.specs.File.{IsSettled};
ghost use Rattle.vfs_model.specs.Store.{OthersStay};
ghost use Rattle.vfs_model.specs.Name.{kind_of};
ghost use Rattle.vfs_trait.specs.State.{IsOpen, Steady, RestsBut, Stands, file_at, name_at};
ghost use Rattle.vfs_trait.specs.Calls.{Caused, Leaves, MayWrite, checked};
ghost use Rattle.journal_format.specs.Undo.{start};
ghost use Rattle.journal_format.specs.Journal.{is_size, most_database};
ghost use Rattle.journal_format.specs.Values.{undo_of};
ghost use Rattle.journal_format.specs.Reading.{IsPlayable};
ghost use Rattle.journal_file.specs.Tame.{IsSturdy, Reserves};
ghost use Rattle.journal_file.specs.Content.{initial_size, cleared, with_reserve, IsUndone};
ghost use Rattle.journal_file.specs.Steps.{IsKept, IsLong, WithinLeaves, HasLaid};

use byte_base::Bytes;
use journal_format::{NumberedPage, Play, pages_cover};
use std::alloc::{AllocError, Global};
use vfs_model::{Fid, Kind, looser_twice};
use vfs_trait::{Vfs, VfsFault};

/// Writes the pages that are played back, in order, each with zeros in its last `reserve` bytes, cuts the file to its initial
/// size and syncs it.
///
/// Refused with `Failed` or `Memory`: what is played back may be there in part; all else of the first `initial` pages is as it was.
pub fn play<V: Vfs>(
    alloc: Global,
    stack: &mut V,
    db: Fid,
    play: &Play,
    reserve: u8,
) -> Result<(), VfsFault>
    requires is_open { IsOpen (V.state stack.old) db.0 }
    requires is_main { kind_of (name_at (V.state stack.old) db.0) ≡ Kind.Main }
    requires playable { IsPlayable play.now }
    requires reserves { Reserves (checked (V.state stack.old).layers) play.now.page reserve }
    requires long { IsTrue (V.state stack.old).tells → IsLong (undo_of play.now) (file_at (V.state stack.old) db.0) }
    ensures steady { Steady (V.state stack.old) (V.state stack.new) }
    ensures cause { Caused (V.state stack.old) (V.state stack.new) result }
    ensures rests { RestsBut (V.state stack.old) (V.state stack.new) db.0 }
    ensures kept { IsTrue (V.state stack.old).tells → (file_at (V.state stack.new) db.0).wild ≡ false → IsKept (with_reserve reserve (undo_of play.now)) (file_at (V.state stack.old) db.0) (file_at (V.state stack.new) db.0) }
    ensures played { OnOk result (IsTrue (V.state stack.old).tells → IsUndone (with_reserve reserve (undo_of play.now)) (file_at (V.state stack.old) db.0).now (file_at (V.state stack.new) db.0).now) }
    ensures settled { OnOk result (IsTrue (V.state stack.old).tells → (file_at (V.state stack.new) db.0).wild ≡ false → IsSettled (file_at (V.state stack.new) db.0)) }
    ensures tame { IsTrue (V.state stack.old).tells → IsSturdy (V.state stack.old) (name_at (V.state stack.old) db.0) (initial_size (undo_of play.now)) → (file_at (V.state stack.new) db.0).wild ≡ false }
    ensures others { IsTrue (V.state stack.old).tells → OthersStay (V.state stack.old).layers (V.state stack.old).files (V.state stack.new).files (name_at (V.state stack.old) db.0) }
    ensures stands { Stands (V.state stack.new) }
{
    looser_twice();
    write_originals(alloc, stack, db, play, reserve)?;
    stack.cut(db, u64::from(play.initial) * u64::from(play.page))?;
    stack.sync(db)
}

/// Writes the pages that are played back.
fn write_originals<V: Vfs>(
    alloc: Global,
    stack: &mut V,
    db: Fid,
    play: &Play,
    reserve: u8,
) -> Result<(), VfsFault>
    requires is_open { IsOpen (V.state stack.old) db.0 }
    requires is_main { kind_of (name_at (V.state stack.old) db.0) ≡ Kind.Main }
    requires playable { IsPlayable play.now }
    requires reserves { Reserves (checked (V.state stack.old).layers) play.now.page reserve }
    requires long { IsTrue (V.state stack.old).tells → IsLong (undo_of play.now) (file_at (V.state stack.old) db.0) }
    ensures steady { Steady (V.state stack.old) (V.state stack.new) }
    ensures cause { Caused (V.state stack.old) (V.state stack.new) result }
    ensures rests { RestsBut (V.state stack.old) (V.state stack.new) db.0 }
    ensures kept { IsTrue (V.state stack.old).tells → (file_at (V.state stack.new) db.0).wild ≡ false → IsKept (with_reserve reserve (undo_of play.now)) (file_at (V.state stack.old) db.0) (file_at (V.state stack.new) db.0) }
    ensures laid { OnOk result (IsTrue (V.state stack.old).tells → HasLaid (with_reserve reserve (undo_of play.now)) (file_at (V.state stack.old) db.0) (file_at (V.state stack.new) db.0)) }
    ensures tame { IsTrue (V.state stack.old).tells → IsSturdy (V.state stack.old) (name_at (V.state stack.old) db.0) (initial_size (undo_of play.now)) → (file_at (V.state stack.new) db.0).wild ≡ false }
    ensures others { IsTrue (V.state stack.old).tells → OthersStay (V.state stack.old).layers (V.state stack.old).files (V.state stack.new).files (name_at (V.state stack.old) db.0) }
    ensures stands { Stands (V.state stack.new) }
{
    looser_twice();
    pages_cover();
    stack.view_holds();
    let pages = play.records.as_slice();
    for page in pages {
        write_page(alloc, stack, db, play.page, page, reserve)?;
    }
    Ok(())
}

/// Writes a page that lies within the file.
fn write_page<V: Vfs>(
    alloc: Global,
    stack: &mut V,
    db: Fid,
    size: u32,
    page: &NumberedPage,
    reserve: u8,
) -> Result<(), VfsFault>
    requires is_open { IsOpen (V.state stack.old) db.0 }
    requires is_main { kind_of (name_at (V.state stack.old) db.0) ≡ Kind.Main }
    requires sized { IsTrue (is_size size) }
    requires whole { length page.now.bytes ≡ size }
    requires one { 1 ≤ page.now.number }
    requires room { page.now.number * size ≤ most_database }
    requires reserves { Reserves (checked (V.state stack.old).layers) size reserve }
    requires inside { IsTrue (V.state stack.old).tells → page.now.number * size ≤ length (file_at (V.state stack.old) db.0).now.bytes }
    ensures steady { Steady (V.state stack.old) (V.state stack.new) }
    ensures cause { Caused (V.state stack.old) (V.state stack.new) result }
    ensures rests { RestsBut (V.state stack.old) (V.state stack.new) db.0 }
    ensures leaves { Leaves (V.state stack.old) (V.state stack.new) (name_at (V.state stack.old) db.0) (λ old new. WithinLeaves ((V.state stack.old).delicate (name_at (V.state stack.old) db.0)) old new (start size page.now.number) (cleared reserve page.now.bytes) result) }
    ensures stands { Stands (V.state stack.new) }
{
    stack.view_holds();
    let at = u64::from(page.number - 1) * u64::from(size);
    match copy_cleared(alloc, page.bytes.as_slice(), reserve) {
        Ok(bytes) => write_within(stack, db, at, bytes.as_slice()),
        Err(_) => Err(VfsFault::Memory),
    }
}

/// A copy of a page with zeros in its last bytes.
fn copy_cleared(alloc: Global, bytes: &[u8], reserve: u8) -> Result<Bytes, AllocError>
    requires { reserve ≤ length bytes.now }
    ensures { IfOk result (λ copy. copy ≡ cleared reserve bytes.now) }
{
    let reserve = usize::from(reserve);
    let mut copy = Bytes::copy_front(alloc, bytes, bytes.len() - reserve)?;
    push_zeros(&mut copy, reserve)?;
    Ok(copy)
}

/// Adds so many zeros.
fn push_zeros(bytes: &mut Bytes, count: usize) -> Result<(), AllocError>
    ensures { OnOk result (bytes.new ≡ bytes.old ++ replicate count 0) }
{
    for _k in 0..count {
        bytes.push(0)?;
    }
    Ok(())
}

/// Writes bytes that lie within the file. No limit refuses what makes no file longer; where the stack tells no lengths, such a
/// refusal counts as want of memory.
fn write_within<V: Vfs>(stack: &mut V, db: Fid, at: u64, bytes: &[u8]) -> Result<(), VfsFault>
    requires is_open { IsOpen (V.state stack.old) db.0 }
    requires within { at + length bytes.now ≤ 2 ^ 32 }
    requires inside { IsTrue (V.state stack.old).tells → at + length bytes.now ≤ length (file_at (V.state stack.old) db.0).now.bytes }
    requires pages { MayWrite (kind_of (name_at (V.state stack.old) db.0)) (checked (V.state stack.old).layers) at bytes.now }
    ensures steady { Steady (V.state stack.old) (V.state stack.new) }
    ensures cause { Caused (V.state stack.old) (V.state stack.new) result }
    ensures rests { RestsBut (V.state stack.old) (V.state stack.new) db.0 }
    ensures leaves { Leaves (V.state stack.old) (V.state stack.new) (name_at (V.state stack.old) db.0) (λ old new. WithinLeaves ((V.state stack.old).delicate (name_at (V.state stack.old) db.0)) old new at bytes.now result) }
    ensures stands { Stands (V.state stack.new) }
{
    match stack.write(db, at, bytes) {
        Ok(()) => Ok(()),
        Err(VfsFault::Failed) => Err(VfsFault::Failed),
        Err(_) => Err(VfsFault::Memory),
    }
}
