//! The calls of std on the files of one folder. Each opens its file anew, so that none is held open between two calls.

ghost use Rattle.std.specs.Prelude.{◌≡◌, ◌-◌, ◌++◌, ◌≤◌, length, take, replicate, IfOk, OnErr};
ghost use Rattle.vfs_trait.specs.Calls.{FillsUp, AllZero};

use std::alloc::{AllocError, Global};
use std::fs::{OpenFile, OpenOptions};
use std::io;
use std::io::{ErrorKind, Read, Seek, SeekFrom, Write};
use std::rt::Files;
use vfs_model::Name;

/// A folder of the system. What its calls answer is what std answers.
#[derive(Drop)]
pub struct Folder<R: Files> {
    rt: R,
    /// Its path, which is not empty.
    path: String,
}

impl<R: Files + Drop> Folder<R> {
    /// The folder of a path; of the empty one the current folder. The system is not asked.
    pub fn new(alloc: Global, rt: R, path: &str) -> Result<Folder<R>, AllocError> {
        let path = if path.is_empty() { "." } else { path };
        Ok(Folder {
            rt,
            path: String::from_str(alloc, path)?,
        })
    }

    /// The path of a name. A name has no slash, so it leads to no other folder, `.` and `..` apart.
    pub fn path_of(&self, alloc: Global, name: &Name) -> Result<String, AllocError> {
        let mut path = String::from_str(alloc, self.path.as_str())?;
        path.push('/')?;
        for byte in name.bytes() {
            path.push(char::from(*byte))?;
        }
        Ok(path)
    }

    /// Makes a file where it is missing, and sees that it can be read and written. What is no file, as a folder or a pipe,
    /// is refused, since a call on it could mean anything or never end.
    pub fn make(&self, path: &str) -> io::Result<()> {
        let mut options = OpenOptions::new();
        options.read(true).write(true).create(true);
        let file = options.open(&self.rt, path)?;
        if file.metadata()?.is_file() {
            Ok(())
        } else {
            Err(io::Error::from(ErrorKind::InvalidInput))
        }
    }

    /// Whether a file is there. In a folder that is missing that is not known.
    pub fn exists(&self, path: &str) -> io::Result<bool> {
        match self.rt.metadata(path) {
            Ok(_) => Ok(true),
            Err(error) => {
                self.is_absence(error)?;
                Ok(false)
            }
        }
    }

    /// Reads from an offset on, and answers how many bytes the file has there. The rest of the buffer is filled with
    /// zeros, all of it after an error.
    pub fn read(&self, path: &str, off: u64, buf: &mut [u8]) -> io::Result<usize>
        ensures fills { IfOk result (FillsUp buf.new) }
        ensures refused { OnErr result (AllZero buf.new) }
    {
        match self.read_front(path, off, buf) {
            Ok(count) => {
                zero_behind(buf, count);
                Ok(count)
            }
            Err(error) => {
                zero_behind(buf, 0);
                Err(error)
            }
        }
    }

    /// Reads from an offset on.
    fn read_front(&self, path: &str, off: u64, buf: &mut [u8]) -> io::Result<usize>
        ensures { IfOk result (λ count. count ≤ length buf.new) }
    {
        let mut file = OpenOptions::new().read(true).open(&self.rt, path)?;
        file.seek(SeekFrom::Start(off))?;
        read_on(&mut file, buf)
    }

    /// Writes all bytes at an offset.
    pub fn write(&self, path: &str, off: u64, bytes: &[u8]) -> io::Result<()> {
        let mut file = self.open_to_write(path)?;
        file.seek(SeekFrom::Start(off))?;
        file.write_all(bytes)?;
        file.flush()
    }

    /// Cuts a file to a length. A file that is no longer than that stays as it is.
    pub fn cut(&self, path: &str, len: u64) -> io::Result<()> {
        let file = self.open_to_write(path)?;
        if len < file.metadata()?.len() {
            file.set_len(len)?;
        }
        Ok(())
    }

    /// Has the system put the bytes and the length of a file on its disk.
    pub fn sync(&self, path: &str) -> io::Result<()> {
        self.open_to_write(path)?.sync_all()
    }

    /// The length of a file in bytes.
    pub fn length(&self, path: &str) -> io::Result<u64> {
        Ok(self.rt.metadata(path)?.len())
    }

    /// Deletes a file. A missing one is no error, unless the folder is missing.
    pub fn delete(&self, path: &str) -> io::Result<()> {
        match self.rt.remove_file(path) {
            Ok(()) => Ok(()),
            Err(error) => self.is_absence(error),
        }
    }

    /// Has the system put the names of the folder on its disk.
    pub fn sync_names(&self) -> io::Result<()> {
        let folder = OpenOptions::new()
            .read(true)
            .open(&self.rt, self.path.as_str())?;
        folder.sync_all()
    }

    /// Opens a file that is there for writing.
    fn open_to_write(&self, path: &str) -> io::Result<R::File> {
        OpenOptions::new().write(true).open(&self.rt, path)
    }

    /// `Ok` where an error says no more than that a file is missing in a folder that is there.
    fn is_absence(&self, error: io::Error) -> io::Result<()> {
        if error.kind() != ErrorKind::NotFound {
            return Err(error);
        }
        self.rt.metadata(self.path.as_str())?;
        Ok(())
    }
}

/// Whether a name is one that the system gives to a folder.
pub fn is_dots(name: &Name) -> bool {
    matches!(name.bytes(), b"." | b"..")
}

/// Reads until the buffer is full or the file ends, and answers how many bytes it read. A read that a signal
/// interrupts is made again.
fn read_on<F: Read>(file: &mut F, buf: &mut [u8]) -> io::Result<usize>
    ensures { IfOk result (λ count. count ≤ length buf.new) }
{
    let mut count = 0;
    'reads: for _ in 0..u64::MAX {
        if count == buf.len() {
            return Ok(count);
        }
        match file.read(&mut buf[count..]) {
            Ok(0) => return Ok(count),
            Ok(more) => count += more,
            Err(error) if error.kind() == ErrorKind::Interrupted => {}
            Err(error) => return Err(error),
        }
    }
    Err(io::Error::from(ErrorKind::Other))
}

/// Puts zeros behind the first bytes.
fn zero_behind(buf: &mut [u8], count: usize)
    requires { count ≤ length buf.old }
    ensures { buf.new ≡ take count buf.old ++ replicate (length buf.old - count) 0 }
{
    buf[count..].fill(0);
}
