//! A device in memory that never fails.

ghost use Rattle.mem_vfs.specs.Memory.{HandlesFound, HandlesApart};

use crate::file::File;
use crate::space::copy_out;
use crate::{files, handles};
use handles::Handle;
use std::alloc::{AllocError, Global};
use vfs_model::{Fid, Kind, Level, Name, Owner};
use vfs_trait::{Answer, Bytes, Control, Vfs, VfsFault};

/// A device in memory that never fails: its count of faults is the constant 0.
#[derive(Drop)]
pub struct SureVfs {
    pub(crate) alloc: Global,
    /// Also those that were deleted, since a stop may bring them back.
    pub(crate) files: Vec<File>,
    /// The open files, by their numbers.
    pub(crate) handles: Vec<Option<Handle>>,
    ghost found: { HandlesFound handles.items files.items },
    ghost apart: { HandlesApart handles.items },
}

impl SureVfs {
    ghost use Rattle.std.specs.Prelude.{◌≡◌, ℕ, List, IfOk};
    ghost use Rattle.vfs_model.specs.File.{absent};
    ghost use Rattle.vfs_trait.specs.State.{NoneOpen};
    ghost use Rattle.mem_vfs.specs.Sure.{sure_state};
    ghost use Rattle.mem_vfs.specs.Given.{Has, Shows};

    /// A device without files.
    pub fn new(alloc: Global) -> Result<SureVfs, AllocError>
        ensures empty { IfOk result (λ device. (name : List ℕ) → (sure_state device).files name ≡ absent) }
        ensures closed { IfOk result (λ device. NoneOpen (sure_state device)) }
    {
        Ok(SureVfs {
            alloc,
            files: Vec::new(alloc),
            handles: Vec::new(alloc),
        })
    }

    /// A device with these files, settled. Of two files of one name the first counts.
    pub fn with(alloc: Global, files: Vec<(Name, Bytes)>) -> Result<SureVfs, AllocError>
        ensures given { IfOk result (λ device. Has (sure_state device).files files.items) }
        ensures closed { IfOk result (λ device. NoneOpen (sure_state device)) }
    {
        Ok(SureVfs {
            alloc,
            files: files::settled(alloc, &files)?,
            handles: Vec::new(alloc),
        })
    }

    /// The bytes that a read finds of a file, or `None` where there is no file of the name.
    pub fn bytes_of(&self, name: &Name) -> Option<&[u8]>
        ensures { Shows ((sure_state self.now).files name.now).now result }
    {
        files::bytes_of(&self.files, name)
    }
}

impl Vfs for SureVfs {
    ghost use Rattle.mem_vfs.specs.Sure.{sure_state};

    ghost state = { sure_state };

    fn open(&mut self, name: &Name, _kind: Kind) -> Result<Fid, VfsFault> {
        if files::make_missing(&mut self.files, self.alloc, name).is_err() {
            return Err(VfsFault::Memory);
        }
        match handles::take(&mut self.handles, name) {
            Ok(fid) => Ok(fid),
            Err(_) => Err(VfsFault::Memory),
        }
    }

    fn exists(&mut self, name: &Name) -> Result<bool, VfsFault> {
        Ok(files::is_there(&self.files, name))
    }

    fn close(&mut self, fid: Fid) {
        handles::release(&mut self.handles, fid);
    }

    fn read(&mut self, fid: Fid, off: u64, buf: &mut [u8]) -> Result<usize, VfsFault> {
        let name = handles::name_at(&self.handles, fid);
        let bytes = files::bytes_in(&self.files, &name);
        Ok(copy_out(bytes, off as usize, buf))
    }

    fn write(&mut self, fid: Fid, off: u64, bytes: &[u8]) -> Result<(), VfsFault> {
        let name = handles::name_at(&self.handles, fid);
        match files::write(&mut self.files, &name, off as usize, bytes) {
            Ok(()) => Ok(()),
            Err(_) => Err(VfsFault::Memory),
        }
    }

    fn cut(&mut self, fid: Fid, len: u64) -> Result<(), VfsFault> {
        let name = handles::name_at(&self.handles, fid);
        files::cut(&mut self.files, &name, len as usize);
        Ok(())
    }

    fn sync(&mut self, fid: Fid) -> Result<(), VfsFault> {
        let name = handles::name_at(&self.handles, fid);
        files::sync(&mut self.files, &name);
        Ok(())
    }

    fn length(&mut self, fid: Fid) -> Result<u64, VfsFault> {
        let name = handles::name_at(&self.handles, fid);
        Ok(files::bytes_in(&self.files, &name).len() as u64)
    }

    fn delete(&mut self, name: &Name, _kind: Kind) -> Result<(), VfsFault> {
        files::delete(&mut self.files, name);
        Ok(())
    }

    fn sync_names(&mut self) -> Result<(), VfsFault> {
        files::sync_names(&mut self.files);
        Ok(())
    }

    fn lock(&mut self, fid: Fid, owner: Owner, level: Level) -> Result<(), VfsFault> {
        match handles::lock(&mut self.handles, fid, owner, level) {
            Ok(()) => Ok(()),
            Err(busy) => Err(VfsFault::Busy {
                holder: busy.holder,
                level: busy.level,
            }),
        }
    }

    fn unlock(&mut self, fid: Fid, owner: Owner, level: Level) {
        handles::unlock(&mut self.handles, fid, owner, level);
    }

    fn kind(&self, fid: Fid) -> Kind {
        handles::name_at(&self.handles, fid).kind()
    }

    fn reserved(&self, fid: Fid) -> bool {
        handles::reserved(&self.handles, fid)
    }

    fn view_holds(&self) {}

    fn control(&mut self, _control: Control) -> Result<Answer, VfsFault> {
        Ok(Answer::Unknown)
    }
}
