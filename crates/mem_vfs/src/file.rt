//! One file in memory, by the disk model: what a read finds, and what a stop may leave.

ghost use Rattle.std.specs.Prelude.{◌≡◌, ◌≤◌, [], false, IsTrue, vec_len};

use crate::space::{mark, overwrite, stretch};
use crate::{Edge, Fill, ImageChoice};
use std::alloc::{AllocError, Global};
use vfs_model::Name;

/// A file: the bytes that a read finds, those of its last sync, and what of it is unsettled.
#[derive(Drop)]
pub struct File {
    pub name: Name,
    pub present: Vec<u8>,
    /// The bytes of the last sync, and behind them room for the next one.
    pub synced: Vec<u8>,
    /// How many bytes the file had at its last sync.
    pub synced_len: usize,
    /// For each place up to the longest length whether it was written since the last sync.
    pub marks: Vec<bool>,
    /// The shortest length since the last sync.
    pub shortest: usize,
    /// Whether a file of the name is there.
    pub there: bool,
    /// Whether one was there at the last sync of names.
    pub was_there: bool,
    /// Whether the name was neither made nor deleted since.
    pub sure: bool,
    ghost no_shorter: { shortest ≤ vec_len present },
    ghost no_longer: { vec_len present ≤ vec_len marks },
    ghost room: { vec_len marks ≤ vec_len synced },
    ghost old_no_shorter: { shortest ≤ synced_len },
    ghost old_no_longer: { synced_len ≤ vec_len marks },
    ghost missing: { there ≡ false → present.items ≡ [] },
    ghost same_name: { IsTrue sure → was_there ≡ there },
}

impl File {
    ghost use Rattle.std.specs.Prelude.{◌≡◌, ℕ, ◌+◌, ◌-◌, ◌^◌, ◌<◌, ◌++◌, [], length, replicate, slice_index, true, false, OnOk, OnErr, IfOk, IsTrue};
    ghost use Rattle.vfs_model.specs.Effect.{WriteFailed, Synced, NameSynced};
    ghost use Rattle.vfs_model.specs.File.{IsImage, IsSettled};
    ghost use Rattle.mem_vfs.specs.Memory.{file_state};
    ghost use Rattle.mem_vfs.specs.Written.{IsWritten};
    ghost use Rattle.mem_vfs.specs.Change.{Writes, IsOpened, IsCut, IsDeleted};
    ghost use Rattle.mem_vfs.specs.Given.{settled};
    ghost use Rattle.mem_vfs.specs.Image.{IsChosen, length_by, byte_by};
    ghost use Rattle.vfs_model.specs.File.{absent};

    /// A file that was just made, of a name that had none: empty, and its name not sure.
    pub fn new(alloc: Global, name: &Name) -> File
        ensures name { result.name ≡ name.now }
        ensures made { IsOpened absent (file_state result) }
    {
        File {
            name: *name,
            present: Vec::new(alloc),
            synced: Vec::new(alloc),
            synced_len: 0,
            marks: Vec::new(alloc),
            shortest: 0,
            there: true,
            was_there: false,
            sure: false,
        }
    }

    /// A name without a file, settled.
    pub fn gone(alloc: Global, name: &Name) -> File
        ensures name { result.name ≡ name.now }
        ensures settled { IsSettled (file_state result) }
        ensures there { result.there ≡ false }
        ensures empty { result.present.items ≡ [] }
    {
        File {
            name: *name,
            present: Vec::new(alloc),
            synced: Vec::new(alloc),
            synced_len: 0,
            marks: Vec::new(alloc),
            shortest: 0,
            there: false,
            was_there: false,
            sure: true,
        }
    }

    /// A file with these bytes, settled.
    pub fn settled(alloc: Global, name: &Name, bytes: &[u8]) -> Result<File, AllocError>
        ensures name { IfOk result (λ file. file.name ≡ name.now) }
        ensures present { IfOk result (λ file. file.present.items ≡ bytes.now) }
        ensures marks { IfOk result (λ file. file.marks.items ≡ replicate (length bytes.now) false) }
        ensures shortest { IfOk result (λ file. file.shortest ≡ length bytes.now) }
        ensures there { IfOk result (λ file. file.there ≡ true) }
        ensures sure { IfOk result (λ file. file.sure ≡ true) }
    {
        let mut marks = Vec::new(alloc);
        marks.resize(bytes.len(), false)?;
        Ok(File {
            name: *name,
            present: Vec::from_slice(alloc, bytes)?,
            synced: Vec::from_slice(alloc, bytes)?,
            synced_len: bytes.len(),
            marks,
            shortest: bytes.len(),
            there: true,
            was_there: true,
            sure: true,
        })
    }

    /// Makes the file again where it is not there: empty, and its name not sure.
    pub fn open(&mut self)
        ensures name { self.new.name ≡ self.old.name }
        ensures there { self.new.there ≡ true }
        ensures opened { IsOpened (file_state self.old) (file_state self.new) }
    {
        if !self.there {
            self.there = true;
            self.sure = false;
            self.shortest = 0;
        }
    }

    /// Deletes the file: its name is not sure, and a stop may bring it back. One that is not there stays so.
    pub fn delete(&mut self)
        ensures name { self.new.name ≡ self.old.name }
        ensures deleted { IsDeleted (file_state self.old) (file_state self.new) }
    {
        if self.there {
            self.there = false;
            self.sure = false;
            self.shortest = 0;
            self.present.truncate(0);
        }
    }

    /// Makes the name outlast a stop as it is now, there or not.
    pub fn sync_name(&mut self)
        ensures name { self.new.name ≡ self.old.name }
        ensures synced { NameSynced (file_state self.old) (file_state self.new) }
    {
        self.sure = true;
        self.was_there = self.there;
        if !self.there {
            self.synced_len = 0;
            self.marks.truncate(0);
        }
    }

    /// Writes bytes from an offset on. Without memory a read finds the file as it was.
    pub fn write(&mut self, off: usize, bytes: &[u8]) -> Result<(), AllocError>
        requires there { self.old.there ≡ true }
        requires reach { off ≤ vec_len self.old.present }
        requires fits { off + length bytes.now ≤ 2 ^ 32 }
        ensures name { self.new.name ≡ self.old.name }
        ensures there { self.new.there ≡ self.old.there }
        ensures writes { Writes result off bytes.now (file_state self.old) (file_state self.new) }
    {
        self.put(off, bytes)
    }

    /// Makes the vectors long enough, and puts the bytes and their marks over them.
    fn put(&mut self, off: usize, bytes: &[u8]) -> Result<(), AllocError>
        requires there { self.old.there ≡ true }
        requires reach { off ≤ vec_len self.old.present }
        requires fits { off + length bytes.now ≤ 2 ^ 32 }
        ensures name { self.new.name ≡ self.old.name }
        ensures there { self.new.there ≡ self.old.there }
        ensures ok { OnOk result (IsWritten self.old self.new off bytes.now) }
        ensures err { OnErr result (WriteFailed false (file_state self.old) (file_state self.new) off (length bytes.now)) }
    {
        let end = off + bytes.len();
        let longest = end.max(self.marks.len());
        self.lengthen(longest)?;
        let len = end.max(self.present.len());
        stretch(&mut self.present, len)?;
        overwrite(&mut self.present, off, bytes);
        mark(&mut self.marks, off, bytes.len());
        Ok(())
    }

    /// Takes room for so many places.
    fn lengthen(&mut self, len: usize) -> Result<(), AllocError>
        requires { vec_len self.old.marks ≤ len }
        ensures ok { OnOk result (self.new.marks.items ≡ self.old.marks.items ++ replicate (len - vec_len self.old.marks) false) }
        ensures err { OnErr result (self.new.marks.items ≡ self.old.marks.items) }
        ensures present { self.new.present ≡ self.old.present }
        ensures shortest { self.new.shortest ≡ self.old.shortest }
        ensures there { self.new.there ≡ self.old.there }
        ensures sure { self.new.sure ≡ self.old.sure }
        ensures name { self.new.name ≡ self.old.name }
    {
        if self.synced.len() < len {
            self.synced.resize(len, 0)?;
        }
        self.marks.resize(len, false)
    }

    /// Cuts the file to a length that is at most its own.
    pub fn cut(&mut self, len: usize)
        requires { len ≤ vec_len self.old.present }
        ensures name { self.new.name ≡ self.old.name }
        ensures there { self.new.there ≡ self.old.there }
        ensures cut { IsCut len (file_state self.old) (file_state self.new) }
    {
        self.present.truncate(len);
        self.shortest = self.shortest.min(len);
    }

    /// Keeps the bytes as they are now as those of the last sync.
    pub fn sync(&mut self)
        ensures name { self.new.name ≡ self.old.name }
        ensures there { self.new.there ≡ self.old.there }
        ensures synced { Synced (file_state self.old) (file_state self.new) }
    {
        let len = self.present.len();
        overwrite(&mut self.synced, 0, &self.present);
        self.synced_len = len;
        self.shortest = len;
        self.marks.truncate(len);
        self.marks.fill(false);
    }

    /// One of the files that a stop may leave of this one, settled.
    pub fn image(&self, alloc: Global, choice: &ImageChoice) -> Result<File, AllocError>
        ensures name { IfOk result (λ file. file.name ≡ self.now.name) }
        ensures settled { IfOk result (λ file. IsSettled (file_state file)) }
        ensures image { IfOk result (λ file. IsImage (file_state self.now) (file_state file).now) }
        ensures chosen { IfOk result (λ file. IsChosen choice.now self.now (file_state file).now) }
    {
        let there = match choice.names {
            Edge::Old => self.was_there,
            Edge::Present => self.there,
        };
        if !there {
            return Ok(File::gone(alloc, &self.name));
        }
        let bytes = self.content(alloc, choice)?;
        File::settled(alloc, &self.name, &bytes)
    }

    /// The content of an image that has the file.
    fn content(&self, alloc: Global, choice: &ImageChoice) -> Result<Vec<u8>, AllocError>
        ensures size { IfOk result (λ bytes. length bytes.items ≡ length_by choice.now.length self.now) }
        ensures each { IfOk result (λ bytes. (place : ℕ) → place < length bytes.items → slice_index bytes.items place ≡ byte_by choice.now.bytes self.now place) }
    {
        let mut bytes = Vec::new(alloc);
        for place in 0..self.length(choice.length) {
            bytes.push(self.byte_at(choice.bytes, place))?;
        }
        Ok(bytes)
    }

    /// The length of such an image.
    fn length(&self, length: Edge) -> usize
        ensures { result ≡ length_by length self.now }
    {
        match length {
            Edge::Present if self.there => self.present.len(),
            _ => self.synced_len,
        }
    }

    /// What it has at a place.
    fn byte_at(&self, fill: Fill, place: usize) -> u8
        ensures { result ≡ byte_by fill self.now place }
    {
        let kept = place < self.shortest && !self.marks[place];
        if kept {
            return self.present[place];
        }
        match fill {
            Fill::Old if place < self.synced_len => self.synced[place],
            Fill::Present if place < self.present.len() => self.present[place],
            Fill::All(byte) => byte,
            _ => 0,
        }
    }
}
