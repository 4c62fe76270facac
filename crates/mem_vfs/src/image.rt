//! What a stop leaves of a device.

ghost use Rattle.std.specs.Prelude.{IfOk};
ghost use Rattle.vfs_model.specs.Sound.{IsDeviceImage};
ghost use Rattle.vfs_model.specs.Store.{present};
ghost use Rattle.mem_vfs.specs.Sure.{sure_state};
ghost use Rattle.mem_vfs.specs.Failing.{mem_state, IsFresh};
ghost use Rattle.mem_vfs.specs.Image.{AllSettled, AreChosen};

use crate::{ImageChoice, MemVfs, SureVfs, files};
use std::alloc::{AllocError, Global};

impl SureVfs {
    /// The image that a choice names: what a stop may leave, settled, with no file open.
    pub fn image(&self, alloc: Global, choice: &ImageChoice) -> Result<MemVfs, AllocError>
        ensures image { IfOk result (λ image. IsDeviceImage (sure_state self.now).base (present (mem_state image).files)) }
        ensures settled { IfOk result (λ image. AllSettled (mem_state image).files) }
        ensures fresh { IfOk result IsFresh }
        ensures chosen { IfOk result (λ image. AreChosen choice.now self.now.files.items (present (mem_state image).files)) }
    {
        Ok(MemVfs {
            device: SureVfs {
                alloc,
                files: files::images(alloc, &self.files, choice)?,
                handles: Vec::new(alloc),
            },
            fails: Vec::new(alloc),
            calls: 0,
            dead: false,
            faults: 0,
        })
    }
}

impl MemVfs {
    /// The image that a choice names: what a stop may leave, settled, with no file open and none that fails.
    pub fn image(&self, alloc: Global, choice: &ImageChoice) -> Result<MemVfs, AllocError>
        ensures image { IfOk result (λ image. IsDeviceImage (mem_state self.now).base (present (mem_state image).files)) }
        ensures settled { IfOk result (λ image. AllSettled (mem_state image).files) }
        ensures fresh { IfOk result IsFresh }
        ensures chosen { IfOk result (λ image. AreChosen choice.now self.now.device.files.items (present (mem_state image).files)) }
    {
        self.device.image(alloc, choice)
    }
}
