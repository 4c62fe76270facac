//! A device in memory that fails at the calls that it is told to.

ghost use Rattle.std.specs.Prelude.{◌≡◌, ℕ, ◌≤◌, List, length, Some, IfOk, IfNone, OnSome, IsTrue};
ghost use Rattle.vfs_model.specs.File.{absent};
ghost use Rattle.vfs_trait.specs.Log.{counted_up};

use crate::SureVfs;
use crate::space::zero_all;
use std::alloc::{AllocError, Global};
use vfs_model::{Fid, Kind, Level, Name, Owner};
use vfs_trait::{Answer, Bytes, Control, Vfs, VfsFault};

/// A device call that fails.
#[derive(Clone, Copy, Debug, PartialEq, Eq)]
pub struct FailAt {
    /// The number of the call, from 1, among all calls that reach the device: `open`, `exists`, `read`,
    /// `write`, `cut`, `sync`, `length`, `delete`, `sync_names`.
    pub call: u64,
    /// How many bytes a failing write puts first, or all if it is shorter.
    pub reach: u64,
    /// Whether every later call fails too, and changes nothing.
    pub from_then_on: bool,
}

/// A device in memory that fails at given calls. Each failure raises its count by one; at the greatest count
/// it stays.
#[derive(Drop)]
pub struct MemVfs {
    pub(crate) device: SureVfs,
    pub(crate) fails: Vec<FailAt>,
    /// How many device calls there were.
    pub(crate) calls: u64,
    /// Whether every call fails from now on, and changes nothing.
    pub(crate) dead: bool,
    pub(crate) faults: u64,
}

impl MemVfs {
    ghost use Rattle.vfs_trait.specs.State.{NoneOpen};
    ghost use Rattle.mem_vfs.specs.Failing.{mem_state};
    ghost use Rattle.mem_vfs.specs.Given.{Has, Shows};

    /// A device without files that never fails.
    pub fn new(alloc: Global) -> Result<MemVfs, AllocError>
        ensures empty { IfOk result (λ device. (name : List ℕ) → (mem_state device).files name ≡ absent) }
        ensures closed { IfOk result (λ device. NoneOpen (mem_state device)) }
    {
        Ok(MemVfs {
            device: SureVfs::new(alloc)?,
            fails: Vec::new(alloc),
            calls: 0,
            dead: false,
            faults: 0,
        })
    }

    /// A device with these files, settled, that fails at these calls. Of two files of one name the first counts.
    pub fn with(
        alloc: Global,
        files: Vec<(Name, Bytes)>,
        fails: Vec<FailAt>,
    ) -> Result<MemVfs, AllocError>
        ensures given { IfOk result (λ device. Has (mem_state device).files files.items) }
        ensures closed { IfOk result (λ device. NoneOpen (mem_state device)) }
    {
        Ok(MemVfs {
            device: SureVfs::with(alloc, files)?,
            fails,
            calls: 0,
            dead: false,
            faults: 0,
        })
    }

    /// The bytes that a read finds of a file, or `None` where there is no file of the name.
    pub fn bytes_of(&self, name: &Name) -> Option<&[u8]>
        ensures { Shows ((mem_state self.now).files name.now).now result }
    {
        self.device.bytes_of(name)
    }

    /// Counts a device call, and says whether it fails: then how many bytes a write puts first, none where the device
    /// is dead.
    fn fails_now(&mut self) -> Option<u64>
        ensures goes { IfNone result (self.new.faults ≡ self.old.faults) }
        ensures fails { OnSome result (self.new.faults ≡ counted_up self.old.faults 1) }
        ensures counts { self.old.faults ≤ self.new.faults }
        ensures device { self.new.device ≡ self.old.device }
        ensures dead { IsTrue self.old.dead → result ≡ Some 0 }
    {
        self.calls = self.calls.saturating_add(1);
        let reach = if self.dead { 0 } else { self.told_to_fail()? };
        self.faults = self.faults.saturating_add(1);
        Some(reach)
    }

    /// The reach of the failure that is told for this call.
    fn told_to_fail(&mut self) -> Option<u64>
        ensures faults { self.new.faults ≡ self.old.faults }
        ensures device { self.new.device ≡ self.old.device }
    {
        let call = self.calls;
        let fail = self.fails.iter().find(|fail| fail.call == call)?;
        self.dead = fail.from_then_on;
        Some(fail.reach)
    }
}

impl Vfs for MemVfs {
    ghost use Rattle.std.specs.Prelude.{◌+◌, ◌^◌};
    ghost use Rattle.vfs_model.specs.Name.{kind_of};
    ghost use Rattle.vfs_trait.specs.State.{file_at, name_at, IsOpen, Steady, RestsBut, Stands};
    ghost use Rattle.vfs_trait.specs.Log.{Logs, outcome_of};
    ghost use Rattle.vfs_trait.specs.declared.log.Call.TheVariants.{Write};
    ghost use Rattle.vfs_trait.specs.declared.log.Outcome.TheVariants.{Ok as Done};
    ghost use Rattle.vfs_trait.specs.Follows.{Follows, WriteUnsettles};
    ghost use Rattle.vfs_trait.specs.Calls.{WriteCaused, MayWrite, checked, WriteLeaves, WriteCounts, Leaves};
    ghost use Rattle.mem_vfs.specs.Failing.{mem_state};

    ghost state = { mem_state };

    fn open(&mut self, name: &Name, kind: Kind) -> Result<Fid, VfsFault> {
        if self.fails_now().is_some() {
            return Err(VfsFault::Failed);
        }
        self.device.open(name, kind)
    }

    fn exists(&mut self, name: &Name) -> Result<bool, VfsFault> {
        if self.fails_now().is_some() {
            return Err(VfsFault::Failed);
        }
        self.device.exists(name)
    }

    fn close(&mut self, fid: Fid) {
        self.device.close(fid);
    }

    fn read(&mut self, fid: Fid, off: u64, buf: &mut [u8]) -> Result<usize, VfsFault> {
        if self.fails_now().is_some() {
            zero_all(buf);
            return Err(VfsFault::Failed);
        }
        self.device.read(fid, off, buf)
    }

    fn write(&mut self, fid: Fid, off: u64, bytes: &[u8]) -> Result<(), VfsFault>
        requires is_open { IsOpen (mem_state self.old) fid.0 }
        requires within { off + length bytes.now ≤ 2 ^ 32 }
        requires reach { IsTrue (mem_state self.old).tells → off ≤ length (file_at (mem_state self.old) fid.0).now.bytes }
        requires pages { MayWrite (kind_of (name_at (mem_state self.old) fid.0)) (checked (mem_state self.old).layers) off bytes.now }
        ensures steady { Steady (mem_state self.old) (mem_state self.new) }
        ensures cause { WriteCaused (mem_state self.old) (mem_state self.new) (name_at (mem_state self.old) fid.0) off (length bytes.now) result }
        ensures rests { RestsBut (mem_state self.old) (mem_state self.new) fid.0 }
        ensures counts { WriteCounts (mem_state self.old) (mem_state self.new) fid.0 (name_at (mem_state self.old) fid.0) off (length bytes.now) result }
        ensures leaves { Leaves (mem_state self.old) (mem_state self.new) (name_at (mem_state self.old) fid.0) (λ old new. WriteLeaves ((mem_state self.old).delicate (name_at (mem_state self.old) fid.0)) old new off bytes.now result) }
        ensures follows { Follows (mem_state self.old) (mem_state self.new) result (WriteUnsettles (mem_state self.old) (mem_state self.new) fid.0 off (length bytes.now)) }
        ensures logs { Logs (mem_state self.old).layers (mem_state self.old).log (mem_state self.new).log (Write fid off (length bytes.now)) (outcome_of (λ _. Done) result) }
        ensures stands { Stands (mem_state self.new) }
        ensures dead { IsTrue self.old.dead → (mem_state self.new).files ≡ (mem_state self.old).files }
    {
        match self.fails_now() {
            None => self.device.write(fid, off, bytes),
            Some(0) => Err(VfsFault::Failed),
            Some(reach) => {
                let _ = self.device.write(fid, off, front(bytes, reach));
                Err(VfsFault::Failed)
            }
        }
    }

    fn cut(&mut self, fid: Fid, len: u64) -> Result<(), VfsFault> {
        if self.fails_now().is_some() {
            return Err(VfsFault::Failed);
        }
        self.device.cut(fid, len)
    }

    fn sync(&mut self, fid: Fid) -> Result<(), VfsFault> {
        if self.fails_now().is_some() {
            return Err(VfsFault::Failed);
        }
        self.device.sync(fid)
    }

    fn length(&mut self, fid: Fid) -> Result<u64, VfsFault> {
        if self.fails_now().is_some() {
            return Err(VfsFault::Failed);
        }
        self.device.length(fid)
    }

    fn delete(&mut self, name: &Name, kind: Kind) -> Result<(), VfsFault> {
        if self.fails_now().is_some() {
            return Err(VfsFault::Failed);
        }
        self.device.delete(name, kind)
    }

    fn sync_names(&mut self) -> Result<(), VfsFault> {
        if self.fails_now().is_some() {
            return Err(VfsFault::Failed);
        }
        self.device.sync_names()
    }

    fn lock(&mut self, fid: Fid, owner: Owner, level: Level) -> Result<(), VfsFault> {
        self.device.lock(fid, owner, level)
    }

    fn unlock(&mut self, fid: Fid, owner: Owner, level: Level) {
        self.device.unlock(fid, owner, level);
    }

    fn kind(&self, fid: Fid) -> Kind {
        self.device.kind(fid)
    }

    fn reserved(&self, fid: Fid) -> bool {
        self.device.reserved(fid)
    }

    fn view_holds(&self) {
        self.device.view_holds();
    }

    fn control(&mut self, control: Control) -> Result<Answer, VfsFault> {
        self.device.control(control)
    }
}

/// The first bytes, as many as the reach or all.
fn front(bytes: &[u8], reach: u64) -> &[u8]
    ensures { length result.now ≤ length bytes.now }
{
    match usize::try_from(reach) {
        Ok(reach) if reach < bytes.len() => &bytes[..reach],
        _ => bytes,
    }
}
