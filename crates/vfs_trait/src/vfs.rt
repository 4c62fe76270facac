//! The trait of a stack, and its box.

ghost use Rattle.std.specs.Prelude.{◌≡◌, ◌↔◌, ℕ, ◌+◌, ◌≤◌, ◌^◌, true, false, length, IsTrue, OnErr, IfOk};
ghost use Rattle.vfs_model.specs.Name.{kind_of};
ghost use Rattle.vfs_model.specs.Effect.{NoLooser, Closed};
ghost use Rattle.vfs_model.specs.Lock.{MayAsk, Lowers};
ghost use Rattle.vfs_trait.specs.State.{StackState, file_at, name_at, IsOpen, IsFree, Steady, LimitsStay, LevelsStay, OpenStays, LengthsStay, BrokenStays, BrokenBeside, Rests, RestsBut, RestsMeasured, Stands};
ghost use Rattle.vfs_trait.specs.Log.{Logs, outcome_of, yes_or_no};
ghost use Rattle.vfs_trait.specs.declared.log.Call.TheVariants.{Open, Exists, Read, Write, Cut, Sync, Length, Delete, SyncNames, Lock, Unlock};
ghost use Rattle.vfs_trait.specs.declared.log.Outcome.TheVariants.{Ok as Done, Fid as Number, Bytes as Count, Len};
ghost use Rattle.vfs_trait.specs.Follows.{Follows, OpenUnsettles, WriteUnsettles, CutUnsettles, SyncUnsettles, DeleteUnsettles, NamesUnsettle};
ghost use Rattle.vfs_trait.specs.Calls.{Caused, ReadCaused, WriteCaused, MayWrite, MayCutTo, checked, Numbers, OpenLengths, OpenLeaves, Closes, CloseLengths, FillsUp, Reads, AllZero, WriteLeaves, WriteCounts, CutLeaves, CutCounts, Measures, SyncLeaves, SyncTames, DeleteLeaves, Leaves, NamesLeft, FilesLeft, LocksAt, LockRule, IsReserved, Answers, falls_to};

use crate::{Answer, Control, VfsFault};
use vfs_model::{Fid, Kind, Level, Name, Owner};

/// A stack of files. What contracts say of it is one record, its state.
///
/// Clauses on the content of files, on lengths and on what a stop may leave hold where the state tells content. The
/// refusals of a call come in the order `Memory`, `Failed`, `BadPage`, `Full`; a layer that finds a write full asks nothing
/// of the layers below it.
pub trait Vfs: Drop {
    ghost state: { Self → StackState };

    /// Opens the file of a name, and makes it where it is missing. The number is the least that is not in use.
    ///
    /// Refused with `Failed` or `Memory`: no file is open by it, a file that was there is as it was, and one that was
    /// missing may now be there, empty.
    fn open(&mut self, name: &Name, kind: Kind) -> Result<Fid, VfsFault>
        requires free { IsFree (state self.old) name.now }
        requires kind { kind ≡ kind_of name.now }
        ensures steady { Steady (state self.old) (state self.new) }
        ensures cause { Caused (state self.old) (state self.new) result }
        ensures numbers { Numbers (state self.old) (state self.new) name.now result }
        ensures limits { LimitsStay (state self.old) (state self.new) }
        ensures levels { LevelsStay (state self.old) (state self.new) }
        ensures lengths { OpenLengths kind (state self.old) (state self.new) name.now result }
        ensures broken { BrokenStays (state self.old) (state self.new) }
        ensures leaves { Leaves (state self.old) (state self.new) name.now (λ old new. OpenLeaves old new result) }
        ensures follows { Follows (state self.old) (state self.new) result (OpenUnsettles (state self.old) (state self.new) name.now) }
        ensures logs { Logs (state self.old).layers (state self.old).log (state self.new).log (Open name.now kind) (outcome_of Number result) }
        ensures stands { Stands (state self.new) };

    /// Whether a file is there. Refused with `Failed` or `Memory`; no file has changed.
    fn exists(&mut self, name: &Name) -> Result<bool, VfsFault>
        ensures steady { Steady (state self.old) (state self.new) }
        ensures cause { Caused (state self.old) (state self.new) result }
        ensures rests { Rests (state self.old) (state self.new) }
        ensures is_there { IsTrue (state self.old).tells → IfOk result (λ there. there ≡ ((state self.old).files name.now).now.there) }
        ensures files { FilesLeft (state self.old) (state self.new) }
        ensures follows { Follows (state self.old) (state self.new) result (λ _. Unit {0}) }
        ensures logs { Logs (state self.old).layers (state self.old).log (state self.new).log (Exists name.now) (outcome_of yes_or_no result) }
        ensures stands { Stands (state self.new) };

    /// Closes a file, and ends all locks on it. No refusal.
    fn close(&mut self, fid: Fid)
        requires is_open { IsOpen (state self.old) fid.0 }
        ensures steady { Steady (state self.old) (state self.new) }
        ensures closes { Closes (state self.old) (state self.new) fid.0 }
        ensures limits { LimitsStay (state self.old) (state self.new) }
        ensures lengths { CloseLengths (kind_of (name_at (state self.old) fid.0)) (state self.old) (state self.new) (name_at (state self.old) fid.0) }
        ensures broken { BrokenBeside (state self.old) (state self.new) fid.0 }
        ensures leaves { Leaves (state self.old) (state self.new) (name_at (state self.old) fid.0) Closed }
        ensures log { (state self.new).log ≡ (state self.old).log }
        ensures stands { Stands (state self.new) };

    /// Reads from an offset on. Fills the part of the buffer behind the end of the file with zeros, and answers how many
    /// bytes lay in the file.
    ///
    /// Refused with `Failed`, `Memory` or, where a page that is touched fails its checksum, `BadPage` of the first such
    /// page: the buffer holds zeros. No file has changed.
    fn read(&mut self, fid: Fid, off: u64, buf: &mut [u8]) -> Result<usize, VfsFault>
        requires is_open { IsOpen (state self.old) fid.0 }
        requires within { off + length buf.old ≤ 2 ^ 32 }
        ensures steady { Steady (state self.old) (state self.new) }
        ensures cause { ReadCaused (state self.old) (state self.new) (name_at (state self.old) fid.0) off (length buf.old) result }
        ensures rests { Rests (state self.old) (state self.new) }
        ensures fills { IfOk result (FillsUp buf.new) }
        ensures reads { IsTrue (state self.old).tells → IfOk result (Reads (file_at (state self.old) fid.0).now.bytes off buf.new) }
        ensures refused { OnErr result (AllZero buf.new) }
        ensures files { FilesLeft (state self.old) (state self.new) }
        ensures follows { Follows (state self.old) (state self.new) result (λ _. Unit {0}) }
        ensures logs { Logs (state self.old).layers (state self.old).log (state self.new).log (Read fid off (length buf.old)) (outcome_of Count result) }
        ensures stands { Stands (state self.new) };

    /// Writes bytes at an offset, which is at most the length of the file. Below a checksum layer a database is written by
    /// whole pages, with zeros in their last eight bytes.
    ///
    /// Refused with `Failed` or `Memory`: the range may hold anything, and the length lies between the one before and the
    /// end of the range. Refused with `Full`, where a group of files or an appended database would pass its limit: the
    /// length and all bytes before the offset are as they were.
    fn write(&mut self, fid: Fid, off: u64, bytes: &[u8]) -> Result<(), VfsFault>
        requires is_open { IsOpen (state self.old) fid.0 }
        requires within { off + length bytes.now ≤ 2 ^ 32 }
        requires reach { IsTrue (state self.old).tells → off ≤ length (file_at (state self.old) fid.0).now.bytes }
        requires pages { MayWrite (kind_of (name_at (state self.old) fid.0)) (checked (state self.old).layers) off bytes.now }
        ensures steady { Steady (state self.old) (state self.new) }
        ensures cause { WriteCaused (state self.old) (state self.new) (name_at (state self.old) fid.0) off (length bytes.now) result }
        ensures rests { RestsBut (state self.old) (state self.new) fid.0 }
        ensures counts { WriteCounts (state self.old) (state self.new) fid.0 (name_at (state self.old) fid.0) off (length bytes.now) result }
        ensures leaves { Leaves (state self.old) (state self.new) (name_at (state self.old) fid.0) (λ old new. WriteLeaves ((state self.old).delicate (name_at (state self.old) fid.0)) old new off bytes.now result) }
        ensures follows { Follows (state self.old) (state self.new) result (WriteUnsettles (state self.old) (state self.new) fid.0 off (length bytes.now)) }
        ensures logs { Logs (state self.old).layers (state self.old).log (state self.new).log (Write fid off (length bytes.now)) (outcome_of (λ _. Done) result) }
        ensures stands { Stands (state self.new) };

    /// Cuts a file to a length, which is at most its own. An equal length changes nothing. Below a checksum layer a
    /// database is cut to whole pages.
    ///
    /// Refused with `Failed` or `Memory`: the length lies between the new one and the one before, and what is left of the
    /// file is as it was.
    fn cut(&mut self, fid: Fid, len: u64) -> Result<(), VfsFault>
        requires is_open { IsOpen (state self.old) fid.0 }
        requires reach { IsTrue (state self.old).tells → len ≤ length (file_at (state self.old) fid.0).now.bytes }
        requires pages { MayCutTo (kind_of (name_at (state self.old) fid.0)) (checked (state self.old).layers) len }
        ensures steady { Steady (state self.old) (state self.new) }
        ensures cause { Caused (state self.old) (state self.new) result }
        ensures rests { RestsBut (state self.old) (state self.new) fid.0 }
        ensures counts { CutCounts (state self.old) (state self.new) fid.0 (name_at (state self.old) fid.0) result }
        ensures leaves { Leaves (state self.old) (state self.new) (name_at (state self.old) fid.0) (λ old new. CutLeaves old new len result) }
        ensures follows { Follows (state self.old) (state self.new) result (CutUnsettles (state self.old) (state self.new) fid.0 len) }
        ensures logs { Logs (state self.old).layers (state self.old).log (state self.new).log (Cut fid len) (outcome_of (λ _. Done) result) }
        ensures stands { Stands (state self.new) };

    /// Makes the content of a file outlast a stop as it is now.
    ///
    /// Refused with `Failed` or `Memory`: a read finds the file as before, and a stop may change no more than before.
    fn sync(&mut self, fid: Fid) -> Result<(), VfsFault>
        requires is_open { IsOpen (state self.old) fid.0 }
        ensures steady { Steady (state self.old) (state self.new) }
        ensures cause { Caused (state self.old) (state self.new) result }
        ensures rests { Rests (state self.old) (state self.new) }
        ensures leaves { Leaves (state self.old) (state self.new) (name_at (state self.old) fid.0) (λ old new. SyncLeaves old new result) }
        ensures tames { SyncTames (state self.old) (state self.new) fid.0 result }
        ensures follows { Follows (state self.old) (state self.new) result (SyncUnsettles (state self.old) (state self.new) fid.0) }
        ensures logs { Logs (state self.old).layers (state self.old).log (state self.new).log (Sync fid) (outcome_of (λ _. Done) result) }
        ensures stands { Stands (state self.new) };

    /// The length of a file in bytes. Refused with `Failed` or `Memory`; no file has changed.
    fn length(&mut self, fid: Fid) -> Result<u64, VfsFault>
        requires is_open { IsOpen (state self.old) fid.0 }
        ensures steady { Steady (state self.old) (state self.new) }
        ensures cause { Caused (state self.old) (state self.new) result }
        ensures rests { RestsMeasured (state self.old) (state self.new) fid.0 }
        ensures measures { Measures (state self.old) (state self.new) (name_at (state self.old) fid.0) result }
        ensures length_of { IsTrue (state self.old).tells → IfOk result (λ len. len ≡ length (file_at (state self.old) fid.0).now.bytes) }
        ensures leaves { Leaves (state self.old) (state self.new) (name_at (state self.old) fid.0) NoLooser }
        ensures follows { Follows (state self.old) (state self.new) result (λ _. Unit {0}) }
        ensures logs { Logs (state self.old).layers (state self.old).log (state self.new).log (Length fid) (outcome_of Len result) }
        ensures stands { Stands (state self.new) };

    /// Deletes the file of a name. A missing name is Ok.
    ///
    /// Refused with `Failed` or `Memory`: the file is as it was, or not there any more.
    fn delete(&mut self, name: &Name, kind: Kind) -> Result<(), VfsFault>
        requires free { IsFree (state self.old) name.now }
        requires kind { kind ≡ kind_of name.now }
        ensures steady { Steady (state self.old) (state self.new) }
        ensures cause { Caused (state self.old) (state self.new) result }
        ensures rests { Rests (state self.old) (state self.new) }
        ensures leaves { Leaves (state self.old) (state self.new) name.now (λ old new. DeleteLeaves old new result) }
        ensures follows { Follows (state self.old) (state self.new) result (DeleteUnsettles (state self.old) (state self.new) name.now) }
        ensures logs { Logs (state self.old).layers (state self.old).log (state self.new).log (Delete name.now kind) (outcome_of (λ _. Done) result) }
        ensures stands { Stands (state self.new) };

    /// Makes every name outlast a stop as it is now, there or not.
    ///
    /// Refused with `Failed` or `Memory`: a stop may change no more than before.
    fn sync_names(&mut self) -> Result<(), VfsFault>
        ensures steady { Steady (state self.old) (state self.new) }
        ensures cause { Caused (state self.old) (state self.new) result }
        ensures rests { Rests (state self.old) (state self.new) }
        ensures names { NamesLeft (state self.old) (state self.new) result }
        ensures follows { Follows (state self.old) (state self.new) result (NamesUnsettle (state self.old) (state self.new)) }
        ensures logs { Logs (state self.old).layers (state self.old).log (state self.new).log SyncNames (outcome_of (λ _. Done) result) }
        ensures stands { Stands (state self.new) };

    /// Asks for a level on a file: Shared, Reserved over Shared, or Exclusive over Reserved. A level that is held or
    /// passed is Ok. It takes no memory, and no device is asked.
    ///
    /// Refused with `Busy` alone, by the lock rule. An owner that is refused Exclusive holds Pending then.
    fn lock(&mut self, fid: Fid, owner: Owner, level: Level) -> Result<(), VfsFault>
        requires is_open { IsOpen (state self.old) fid.0 }
        requires asks { MayAsk ((state self.old).levels fid.0) owner level }
        ensures steady { Steady (state self.old) (state self.new) }
        ensures rule { LocksAt (state self.old) (state self.new) fid.0 (LockRule owner level result) }
        ensures limits { LimitsStay (state self.old) (state self.new) }
        ensures opens { OpenStays (state self.old) (state self.new) }
        ensures lengths { LengthsStay (state self.old) (state self.new) }
        ensures broken { BrokenStays (state self.old) (state self.new) }
        ensures files { FilesLeft (state self.old) (state self.new) }
        ensures logs { Logs (state self.old).layers (state self.old).log (state self.new).log (Lock fid owner level) (outcome_of (λ _. Done) result) }
        ensures stands { Stands (state self.new) };

    /// Lowers the level of an owner on a file to Shared or Free; a lower one stays. No refusal, no memory, no device.
    fn unlock(&mut self, fid: Fid, owner: Owner, level: Level)
        requires is_open { IsOpen (state self.old) fid.0 }
        requires falls { IsTrue (falls_to level) }
        ensures steady { Steady (state self.old) (state self.new) }
        ensures lowers { LocksAt (state self.old) (state self.new) fid.0 (λ old new. Lowers old new owner level) }
        ensures limits { LimitsStay (state self.old) (state self.new) }
        ensures opens { OpenStays (state self.old) (state self.new) }
        ensures lengths { LengthsStay (state self.old) (state self.new) }
        ensures broken { BrokenStays (state self.old) (state self.new) }
        ensures files { FilesLeft (state self.old) (state self.new) }
        ensures logs { Logs (state self.old).layers (state self.old).log (state self.new).log (Unlock fid owner level) Done }
        ensures stands { Stands (state self.new) };

    /// The kind of an open file, for layers that are given its number alone.
    fn kind(&self, fid: Fid) -> Kind
        requires is_open { IsOpen (state self.now) fid.0 }
        ensures { result ≡ kind_of (name_at (state self.now) fid.0) };

    /// Whether some owner holds Reserved or more on a file.
    fn reserved(&self, fid: Fid) -> bool
        requires is_open { IsOpen (state self.now) fid.0 }
        ensures { (result ≡ true) ↔ IsReserved ((state self.now).levels fid.0) };

    /// Says of a stack that no call has touched yet what each call says of the stack it leaves. It does nothing.
    fn view_holds(&self)
        ensures stands { Stands (state self.now) };

    /// Asks or orders one layer. `Unknown` where there is no such layer or group.
    ///
    /// Refused with `Memory` alone, and never for `SetLimit`; nothing has changed.
    fn control(&mut self, control: Control) -> Result<Answer, VfsFault>
        ensures steady { Steady (state self.old) (state self.new) }
        ensures answers { Answers (state self.old) (state self.new) control result }
        ensures levels { LevelsStay (state self.old) (state self.new) }
        ensures opens { OpenStays (state self.old) (state self.new) }
        ensures lengths { LengthsStay (state self.old) (state self.new) }
        ensures broken { BrokenStays (state self.old) (state self.new) }
        ensures files { FilesLeft (state self.old) (state self.new) }
        ensures stands { Stands (state self.new) };
}

impl Vfs for Box<dyn Vfs> {
    ghost state = { λ b. (Vfs-box b).state b.value };

    fn open(&mut self, name: &Name, kind: Kind) -> Result<Fid, VfsFault> {
        (**self).open(name, kind)
    }

    fn exists(&mut self, name: &Name) -> Result<bool, VfsFault> {
        (**self).exists(name)
    }

    fn close(&mut self, fid: Fid) {
        (**self).close(fid)
    }

    fn read(&mut self, fid: Fid, off: u64, buf: &mut [u8]) -> Result<usize, VfsFault> {
        (**self).read(fid, off, buf)
    }

    fn write(&mut self, fid: Fid, off: u64, bytes: &[u8]) -> Result<(), VfsFault> {
        (**self).write(fid, off, bytes)
    }

    fn cut(&mut self, fid: Fid, len: u64) -> Result<(), VfsFault> {
        (**self).cut(fid, len)
    }

    fn sync(&mut self, fid: Fid) -> Result<(), VfsFault> {
        (**self).sync(fid)
    }

    fn length(&mut self, fid: Fid) -> Result<u64, VfsFault> {
        (**self).length(fid)
    }

    fn delete(&mut self, name: &Name, kind: Kind) -> Result<(), VfsFault> {
        (**self).delete(name, kind)
    }

    fn sync_names(&mut self) -> Result<(), VfsFault> {
        (**self).sync_names()
    }

    fn lock(&mut self, fid: Fid, owner: Owner, level: Level) -> Result<(), VfsFault> {
        (**self).lock(fid, owner, level)
    }

    fn unlock(&mut self, fid: Fid, owner: Owner, level: Level) {
        (**self).unlock(fid, owner, level)
    }

    fn kind(&self, fid: Fid) -> Kind {
        (**self).kind(fid)
    }

    fn reserved(&self, fid: Fid) -> bool {
        (**self).reserved(fid)
    }

    fn view_holds(&self) {
        (**self).view_holds()
    }

    fn control(&mut self, control: Control) -> Result<Answer, VfsFault> {
        (**self).control(control)
    }
}
