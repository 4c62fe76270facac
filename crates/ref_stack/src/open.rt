//! Open files with their lengths and places.

ghost use Rattle.std.specs.Prelude.{◌≡◌, ℕ, List, [], ◌∷◌, max, IfOk};
ghost use Rattle.vfs_model.specs.Pass.{len_at, place_at, settled, reached, settled_at, same_name};
ghost use Rattle.ref_stack.specs.Near.{IsNear};

use crate::front::in_front;
use crate::mark::next_start;
use byte_base::Bytes;
use std::alloc::{AllocError, Global};
use std::marker::Model;
use vfs_model::Placed;

/// An open file at a quota or append layer: its name there, how long the layer shows it, and where it stands in its file,
/// which is within 2^32 bytes. Contracts see it as the record of the three.
#[derive(Debug, Drop)]
pub struct OpenFile {
    name: Bytes,
    len: u64,
    place: Placed,
}

impl Model for OpenFile {
    ghost use Rattle.vfs_model.specs.Pass.{OpenFile as Open};
    ghost use Rattle.ref_stack.specs.Near.{IsNear};

    ghost Value = { Open };

    ghost view = { λ f. record { name = f.name; len = f.len; place = f.place } };

    ghost invariant = { λ f. IsNear f.place };
}

impl OpenFile {
    /// An open file, without taking memory.
    pub fn new(name: Bytes, len: u64, place: Placed) -> OpenFile
        requires { IsNear place }
        ensures { result ≡ record { name = name; len = len; place = place } }
    {
        OpenFile { name, len, place }
    }

    /// Its name.
    pub fn name(&self) -> &[u8]
        ensures { result.now ≡ self.now.name }
    {
        self.name.as_slice()
    }

    /// How long its layer shows it, in bytes.
    pub fn len(&self) -> u64
        ensures { result ≡ self.now.len }
    {
        self.len
    }

    /// Where it stands in its file.
    pub fn place(&self) -> Placed
        ensures value { result ≡ self.now.place }
        ensures near { IsNear result }
    {
        self.place
    }

    /// A copy.
    fn copy(&self, alloc: Global) -> Result<OpenFile, AllocError>
        ensures { IfOk result (λ copy. copy ≡ self.now) }
    {
        let name = Bytes::copy_of(alloc, self.name())?;
        Ok(OpenFile::new(name, self.len(), self.place()))
    }

    /// A copy that is not shorter than this.
    fn ended(&self, alloc: Global, end: u64) -> Result<OpenFile, AllocError>
        ensures { IfOk result (λ copy. copy ≡ record self.now { len = max self.now.len end }) }
    {
        let name = Bytes::copy_of(alloc, self.name())?;
        Ok(OpenFile::new(name, self.len().max(end), self.place()))
    }

    /// A copy whose place is settled.
    fn settled(&self, alloc: Global) -> Result<OpenFile, AllocError>
        ensures { IfOk result (λ copy. copy ≡ record self.now { place = settled self.now.place }) }
    {
        let name = Bytes::copy_of(alloc, self.name())?;
        Ok(OpenFile::new(name, self.len(), settled(self.place())))
    }
}

/// The place that the first write settles.
fn settled(place: Placed) -> Placed
    requires { IsNear place }
    ensures value { result ≡ settled place }
    ensures near { IsNear result }
{
    match place {
        Placed::Ordinary => Placed::Ordinary,
        Placed::Behind(start) => Placed::Behind(start),
        Placed::Fresh(len) => Placed::Behind(next_start(len)),
    }
}

/// The open files of a layer. Contracts see them as a list.
#[derive(Debug, Drop)]
pub struct OpenFiles {
    files: Vec<OpenFile>,
}

impl Model for OpenFiles {
    ghost use Rattle.std.specs.Prelude.{List};
    ghost use Rattle.vfs_model.specs.Pass.{OpenFile as Open};

    ghost Value = { List Open };

    ghost view = { λ f. f.files.items };
}

impl OpenFiles {
    /// The open files of a vector, without taking memory.
    pub fn from_vec(files: Vec<OpenFile>) -> OpenFiles
        ensures { result ≡ files.items }
    {
        OpenFiles { files }
    }

    /// The open files.
    pub fn as_slice(&self) -> &[OpenFile]
        ensures { result.now ≡ self.now }
    {
        self.files.as_slice()
    }

    /// These files behind one.
    pub fn behind(self, first: OpenFile) -> Result<OpenFiles, AllocError>
        ensures { IfOk result (λ files. files ≡ first ∷ self) }
    {
        Ok(OpenFiles::from_vec(in_front(first, self.files)?))
    }
}

/// A copy of open files.
pub fn copy_of(alloc: Global, files: &[OpenFile]) -> Result<OpenFiles, AllocError>
    ensures { IfOk result (λ copy. copy ≡ files.now) }
{
    let Some((first, more)) = files.split_first() else {
        return Ok(OpenFiles::from_vec(Vec::new(alloc)));
    };
    copy_of(alloc, more)?.behind(first.copy(alloc)?)
}

/// Whether two names are the same.
fn same_name(a: &[u8], b: &[u8]) -> bool
    ensures { result ≡ same_name a.now b.now }
{
    a.len() == b.len() && a.starts_with(b)
}

/// The length of a file, 0 where it is not open.
pub fn len_at(name: &[u8], files: &[OpenFile]) -> u64
    ensures { result ≡ len_at name.now files.now }
{
    let Some((first, more)) = files.split_first() else {
        return 0;
    };
    if same_name(first.name(), name) {
        return first.len();
    }
    len_at(name, more)
}

/// Where a file stands in its file; one that is not open is a database by itself.
pub fn place_at(name: &[u8], files: &[OpenFile]) -> Placed
    ensures value { result ≡ place_at name.now files.now }
    ensures near { IsNear result }
{
    let Some((first, more)) = files.split_first() else {
        return Placed::Ordinary;
    };
    if same_name(first.name(), name) {
        return first.place();
    }
    place_at(name, more)
}

/// The open files with one that is not shorter than this: it is open from now on.
pub fn reached(
    alloc: Global,
    name: &[u8],
    end: u64,
    files: &[OpenFile],
) -> Result<OpenFiles, AllocError>
    ensures { IfOk result (λ after. after ≡ reached name.now end files.now) }
{
    let Some((first, more)) = files.split_first() else {
        let opened = OpenFile::new(Bytes::copy_of(alloc, name)?, end, Placed::Ordinary);
        return OpenFiles::from_vec(Vec::new(alloc)).behind(opened);
    };
    if same_name(first.name(), name) {
        return copy_of(alloc, more)?.behind(first.ended(alloc, end)?);
    }
    reached(alloc, name, end, more)?.behind(first.copy(alloc)?)
}

/// The open files with the place of one settled.
pub fn settled_at(alloc: Global, name: &[u8], files: &[OpenFile]) -> Result<OpenFiles, AllocError>
    ensures { IfOk result (λ after. after ≡ settled_at name.now files.now) }
{
    let Some((first, more)) = files.split_first() else {
        return Ok(OpenFiles::from_vec(Vec::new(alloc)));
    };
    if same_name(first.name(), name) {
        return copy_of(alloc, more)?.behind(first.settled(alloc)?);
    }
    settled_at(alloc, name, more)?.behind(first.copy(alloc)?)
}
