//! The device.

ghost use Rattle.std.specs.Prelude.{◌≡◌, ℕ, ◌≤◌, IfOk};
ghost use Rattle.host_vfs.specs.Open.{NamesApart};
ghost use Rattle.host_vfs.specs.Counted.{Counts};

use crate::faults::counted;
use crate::folder::{Folder, is_dots};
use crate::handles;
use handles::Handle;
use std::alloc::{AllocError, Global};
use std::io;
use std::io::ErrorKind;
use std::rt::Files;
use vfs_model::{Fid, Kind, Level, Name, Owner};
use vfs_trait::{Answer, Control, Vfs, VfsFault};

/// The files of a folder of the system. It tells no content. Its count of faults rises at each error of std for which a
/// call is refused; at the greatest count it stays.
#[derive(Drop)]
pub struct HostVfs<R: Files> {
    alloc: Global,
    folder: Folder<R>,
    /// The open files, by their numbers.
    handles: Vec<Option<Handle>>,
    pub(crate) faults: u64,
    ghost apart: { NamesApart handles.items },
}

impl<R: Files + Clone + Drop> HostVfs<R> {
    ghost use Rattle.host_vfs.specs.Untold.{untold, IsFresh};

    /// The files of a folder, of which none is open. The empty path is the current folder. The system is not asked: that a
    /// folder is missing shows at the first call.
    pub fn new(alloc: Global, rt: R, folder: &str) -> Result<HostVfs<R>, AllocError>
        ensures { IfOk result (λ host. IsFresh (untold host.handles.items host.faults)) }
    {
        Ok(HostVfs {
            alloc,
            folder: Folder::new(alloc, rt, folder)?,
            handles: Vec::new(alloc),
            faults: 0,
        })
    }
}

impl<R: Files + Drop> HostVfs<R> {
    /// The path of a name. `.` and `..` have none here: to the system they are folders, and one of them another.
    fn path_of(&mut self, name: &Name) -> Result<String, VfsFault>
        ensures counts { Counts self.old.faults self.new.faults result }
        ensures grows { self.old.faults ≤ self.new.faults }
        ensures handles { self.new.handles ≡ self.old.handles }
    {
        if is_dots(name) {
            let refused = io::Error::from(ErrorKind::InvalidInput);
            return counted(&mut self.faults, Err(refused));
        }
        match self.folder.path_of(self.alloc, name) {
            Ok(path) => Ok(path),
            Err(_) => Err(VfsFault::Memory),
        }
    }
}

impl<R: Files + Drop> Vfs for HostVfs<R> {
    ghost use Rattle.host_vfs.specs.Untold.{untold};

    ghost state = { λ h. untold h.handles.items h.faults };

    fn open(&mut self, name: &Name, _kind: Kind) -> Result<Fid, VfsFault> {
        let path = self.path_of(name)?;
        if handles::make_room(&mut self.handles).is_err() {
            return Err(VfsFault::Memory);
        }
        counted(&mut self.faults, self.folder.make(path.as_str()))?;
        match handles::take(&mut self.handles, name, path) {
            Ok(fid) => Ok(fid),
            Err(_) => Err(VfsFault::Memory),
        }
    }

    fn exists(&mut self, name: &Name) -> Result<bool, VfsFault> {
        let path = self.path_of(name)?;
        counted(&mut self.faults, self.folder.exists(path.as_str()))
    }

    fn close(&mut self, fid: Fid) {
        handles::release(&mut self.handles, fid);
    }

    fn read(&mut self, fid: Fid, off: u64, buf: &mut [u8]) -> Result<usize, VfsFault> {
        let path = handles::path_at(&self.handles, fid);
        counted(&mut self.faults, self.folder.read(path, off, buf))
    }

    fn write(&mut self, fid: Fid, off: u64, bytes: &[u8]) -> Result<(), VfsFault> {
        let path = handles::path_at(&self.handles, fid);
        counted(&mut self.faults, self.folder.write(path, off, bytes))
    }

    fn cut(&mut self, fid: Fid, len: u64) -> Result<(), VfsFault> {
        let path = handles::path_at(&self.handles, fid);
        counted(&mut self.faults, self.folder.cut(path, len))
    }

    fn sync(&mut self, fid: Fid) -> Result<(), VfsFault> {
        let path = handles::path_at(&self.handles, fid);
        counted(&mut self.faults, self.folder.sync(path))
    }

    fn length(&mut self, fid: Fid) -> Result<u64, VfsFault> {
        let path = handles::path_at(&self.handles, fid);
        counted(&mut self.faults, self.folder.length(path))
    }

    fn delete(&mut self, name: &Name, _kind: Kind) -> Result<(), VfsFault> {
        let path = self.path_of(name)?;
        counted(&mut self.faults, self.folder.delete(path.as_str()))
    }

    fn sync_names(&mut self) -> Result<(), VfsFault> {
        counted(&mut self.faults, self.folder.sync_names())
    }

    fn lock(&mut self, fid: Fid, owner: Owner, level: Level) -> Result<(), VfsFault> {
        match handles::lock(&mut self.handles, fid, owner, level) {
            Ok(()) => Ok(()),
            Err(busy) => Err(VfsFault::Busy {
                holder: busy.holder,
                level: busy.level,
            }),
        }
    }

    fn unlock(&mut self, fid: Fid, owner: Owner, level: Level) {
        handles::unlock(&mut self.handles, fid, owner, level);
    }

    fn kind(&self, fid: Fid) -> Kind {
        handles::name_at(&self.handles, fid).kind()
    }

    fn reserved(&self, fid: Fid) -> bool {
        handles::reserved(&self.handles, fid)
    }

    fn view_holds(&self) {}

    fn control(&mut self, _control: Control) -> Result<Answer, VfsFault> {
        Ok(Answer::Unknown)
    }
}
