//! A stack with one open file, as the tests use it.

ghost use Rattle.std.specs.Prelude.{◌≡◌, ◌≤◌, ◌^◌, Some, length, drop, replicate};
ghost use Rattle.std.proofs.Props.{props};
ghost use Rattle.vfs_trait.specs.State.{NoneOpen, IsOpen};
ghost use Rattle.layer_tests.specs.Given.{page_size};

use vfs_model::{Fid, Name};
use vfs_trait::{Answer, Control, TraceList, Vfs, VfsFault, separate_is_free};

/// The page size of the tests.
pub const PAGE: usize = 512;

/// A stack with a checksum layer, and an open file of it.
#[derive(Drop)]
pub struct Opened<V: Vfs> {
    pub stack: V,
    file: Fid,
    ghost open: { IsOpen (V.state stack) file.0 } by { Prim.hlevel props },
    ghost page: { page_size (V.state stack).layers ≡ Some 512 } by { Prim.hlevel props },
}

/// Opens a file of a stack in which none is open. A name that would be too long under chunks is not tried.
pub fn open_file<V: Vfs>(stack: V, name: &Name) -> Result<Opened<V>, VfsFault>
    requires closed { NoneOpen (V.state stack) }
    requires page { page_size (V.state stack).layers ≡ Some 512 }
{
    separate_is_free();
    let mut stack = stack;
    if name.bytes().len() > 155 {
        return Err(VfsFault::Failed);
    }
    let file = stack.open(name, name.kind())?;
    Ok(Opened { stack, file })
}

impl<V: Vfs> Opened<V> {
    /// Writes a page with zeros in its last eight bytes, by its number from 0, where the file reaches.
    #[tactic(auto, using(crate::proofs::MayLemmas::may_write))]
    pub fn write(&mut self, number: u16, page: &[u8]) -> Result<(), VfsFault>
        requires size { length page.now ≡ 512 }
        requires zeros { drop 504 page.now ≡ replicate 8 0 }
    {
        let off = 512 * u64::from(number);
        if self.stack.length(self.file)? < off {
            return Ok(());
        }
        self.stack.write(self.file, off, page)
    }

    pub fn read(&mut self, off: u16, buf: &mut [u8]) -> Result<usize, VfsFault>
        requires { length buf.old ≤ 2 ^ 31 }
    {
        self.stack.read(self.file, u64::from(off), buf)
    }

    /// Cuts the file to so many pages, where it has them.
    #[tactic(auto, using(crate::proofs::MayLemmas::may_cut))]
    pub fn cut(&mut self, pages: u16) -> Result<(), VfsFault> {
        let len = 512 * u64::from(pages);
        if self.stack.length(self.file)? < len {
            return Ok(());
        }
        self.stack.cut(self.file, len)
    }

    pub fn sync(&mut self) -> Result<(), VfsFault> {
        self.stack.sync(self.file)
    }

    /// The lines of the calls that the trace layer keeps, if there is one.
    pub fn lines(&mut self) -> Result<Option<TraceList>, VfsFault> {
        match self.stack.control(Control::TakeTrace { layer: 1 })? {
            Answer::Trace(list) => Ok(Some(list)),
            _ => Ok(None),
        }
    }
}
