//! Files in memory by their names.

ghost use Rattle.std.specs.Prelude.{IfOk};
ghost use Rattle.ref_stack.specs.Seen.{files_of, Shows};

use byte_base::Bytes;
use std::alloc::{AllocError, Global};
use vfs_model::Name;

/// What is seen of a file.
#[derive(Debug, Drop)]
pub struct Shown {
    /// Whether the file is there.
    pub there: bool,
    /// Its bytes, none where it is not there.
    pub bytes: Bytes,
}

/// The first file of a name.
pub fn file_in(alloc: Global, files: &[(Name, Bytes)], name: &[u8]) -> Result<Shown, AllocError>
    ensures { IfOk result (Shows (files_of files.now name.now)) }
{
    let Some((file, more)) = files.split_first() else {
        return Ok(Shown {
            there: false,
            bytes: Bytes::from_vec(Vec::new(alloc)),
        });
    };
    if file.0.bytes() == name {
        return Ok(Shown {
            there: true,
            bytes: Bytes::copy_of(alloc, file.1.as_slice())?,
        });
    }
    file_in(alloc, more, name)
}
