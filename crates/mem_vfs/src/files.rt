//! Files by their names.

ghost use Rattle.std.specs.Prelude.{◌≡◌, ℕ, ◌+◌, ◌^◌, ◌≤◌, List, [], ◌<◌, length, slice_index_or, find, None, IfOk, IfSome, IsTrue, MatchOption};
ghost use Rattle.vfs_model.specs.Effect.{Synced};
ghost use Rattle.vfs_model.specs.Store.{NamesSynced};
ghost use Rattle.mem_vfs.specs.declared.file.File.{File};
ghost use Rattle.mem_vfs.specs.Memory.{IsPlace, is_named, store, file_state, IsThere};
ghost use Rattle.mem_vfs.specs.Change.{Changes, StayThere, Makes, IsOpened, Writes, IsCut, IsDeleted};
ghost use Rattle.mem_vfs.specs.Given.{Has, Shows};
ghost use Rattle.mem_vfs.specs.Image.{AreImagesBy};

use crate::ImageChoice;
use crate::file::File;
use std::alloc::{AllocError, Global};
use vfs_model::Name;
use vfs_trait::Bytes;

/// Files with these bytes, settled.
pub fn settled(alloc: Global, given: &[(Name, Bytes)]) -> Result<Vec<File>, AllocError>
    ensures { IfOk result (λ files. Has (store files.items) given.now) }
{
    let mut files = Vec::new(alloc);
    for (name, bytes) in given {
        files.push(File::settled(alloc, name, bytes.as_slice())?)?;
    }
    Ok(files)
}

/// The image that a choice names of each file.
pub fn images(alloc: Global, files: &[File], choice: &ImageChoice) -> Result<Vec<File>, AllocError>
    ensures { IfOk result (λ images. AreImagesBy choice.now files.now images.items) }
{
    let mut images = Vec::new(alloc);
    for file in files {
        images.push(file.image(alloc, choice)?)?;
    }
    Ok(images)
}

/// Where the first file of a name stands.
fn place_of(files: &[File], name: &Name) -> Option<usize>
    ensures place { MatchOption result (find (is_named name.now) files.now ≡ None) (IsPlace files.now name.now) }
    ensures within { IfSome result (λ place. place < length files.now) }
    ensures state { IfSome result (λ place. (f : File) → f ≡ slice_index_or files.now place f → store files.now name.now ≡ file_state f) }
{
    for (place, file) in files.iter().enumerate() {
        if file.name.bytes() == name.bytes() {
            return Some(place);
        }
    }
    None
}

/// The place of a file that is there.
fn place_in(files: &[File], name: &Name) -> usize
    requires { IsThere files.now name.now }
    ensures place { IsPlace files.now name.now result }
    ensures within { result < length files.now }
    ensures state { (f : File) → f ≡ slice_index_or files.now result f → store files.now name.now ≡ file_state f }
{
    place_of(files, name).unwrap()
}

/// The bytes of a file that is there.
pub fn bytes_in<'a>(files: &'a [File], name: &Name) -> &'a [u8]
    requires { IsThere files.now name.now }
    ensures { result.now ≡ (store files.now name.now).now.bytes }
{
    let place = place_in(files, name);
    &files[place].present
}

/// The bytes of a file, or `None` where it is not there.
pub fn bytes_of<'a>(files: &'a [File], name: &Name) -> Option<&'a [u8]>
    ensures { Shows (store files.now name.now).now result }
{
    if !is_there(files, name) {
        return None;
    }
    Some(bytes_in(files, name))
}

/// Whether a file of the name is there.
pub fn is_there(files: &[File], name: &Name) -> bool
    ensures { result ≡ (store files.now name.now).now.there }
{
    match place_of(files, name) {
        Some(place) => files[place].there,
        None => false,
    }
}

/// Makes a file where it is not there: empty, and its name not sure.
pub fn make_missing(files: &mut Vec<File>, alloc: Global, name: &Name) -> Result<(), AllocError>
    ensures makes { Changes (Makes result) files.old.items files.new.items name.now }
    ensures stay { StayThere files.old.items files.new.items }
{
    match place_of(files, name) {
        Some(place) => {
            open_at(files, name, place);
            Ok(())
        }
        None => make(files, alloc, name),
    }
}

/// Makes the file at a place again where it is not there.
fn open_at(files: &mut [File], name: &Name, place: usize)
    requires at { IsPlace files.old name.now place }
    requires within { place < length files.old }
    ensures opened { Changes IsOpened files.old files.new name.now }
    ensures stay { StayThere files.old files.new }
{
    let file = &mut files[place];
    file.open();
}

/// Makes a file of a name that has none in the list.
fn make(files: &mut Vec<File>, alloc: Global, name: &Name) -> Result<(), AllocError>
    requires { find (is_named name.now) files.old.items ≡ None }
    ensures makes { Changes (Makes result) files.old.items files.new.items name.now }
    ensures stay { StayThere files.old.items files.new.items }
{
    files.push(File::new(alloc, name))?;
    Ok(())
}

/// Writes to a file that is there.
pub fn write(files: &mut [File], name: &Name, off: usize, bytes: &[u8]) -> Result<(), AllocError>
    requires there { IsThere files.old name.now }
    requires reach { off ≤ length (store files.old name.now).now.bytes }
    requires fits { off + length bytes.now ≤ 2 ^ 32 }
    ensures writes { Changes (Writes result off bytes.now) files.old files.new name.now }
    ensures stay { StayThere files.old files.new }
{
    let place = place_in(files, name);
    let file = &mut files[place];
    file.write(off, bytes)
}

/// Cuts a file that is there to a length that is at most its own.
pub fn cut(files: &mut [File], name: &Name, len: usize)
    requires there { IsThere files.old name.now }
    requires reach { len ≤ length (store files.old name.now).now.bytes }
    ensures cut { Changes (IsCut len) files.old files.new name.now }
    ensures stay { StayThere files.old files.new }
{
    let place = place_in(files, name);
    let file = &mut files[place];
    file.cut(len);
}

/// Keeps the bytes of a file that is there as those of its last sync.
pub fn sync(files: &mut [File], name: &Name)
    requires there { IsThere files.old name.now }
    ensures synced { Changes Synced files.old files.new name.now }
    ensures stay { StayThere files.old files.new }
{
    let place = place_in(files, name);
    let file = &mut files[place];
    file.sync();
}

/// Deletes a file. A missing one stays so.
pub fn delete(files: &mut [File], name: &Name)
    ensures { Changes IsDeleted files.old files.new name.now }
{
    if let Some(place) = place_of(files, name) {
        delete_at(files, name, place);
    }
}

/// Deletes the file at a place.
fn delete_at(files: &mut [File], name: &Name, place: usize)
    requires at { IsPlace files.old name.now place }
    requires within { place < length files.old }
    ensures { Changes IsDeleted files.old files.new name.now }
{
    let file = &mut files[place];
    file.delete();
}

/// Makes every name outlast a stop as it is now.
pub fn sync_names(files: &mut [File])
    ensures synced { NamesSynced (store files.old) (store files.new) }
    ensures stay { StayThere files.old files.new }
{
    for file in files.iter_mut() {
        file.sync_name();
    }
}
