//! The lengths that views of files in memory give.

ghost use Rattle.std.specs.Prelude.{◌≡◌, ◌-◌, ◌≤◌, ◌∷◌, ◌++◌, IfOk};
ghost use Rattle.vfs_model.specs.View.{through, most_chunks};
ghost use Rattle.vfs_model.specs.Pass.{chunk_names, all_chunks, appended_files, counted_files, lengths_shown};
ghost use Rattle.ref_stack.specs.Seen.{files_of};

use crate::chunk::{MOST_CHUNKS, chunk_name};
use crate::front::in_front;
use crate::mark::placed;
use crate::open::{OpenFile, OpenFiles};
use crate::shown::through;
use byte_base::Bytes;
use std::alloc::{AllocError, Global};
use vfs_model::{Layer, Name, Placed};

/// The lengths that views give of files of these names: of each at every quota and append layer, and of its chunks below a
/// multiplexor.
pub fn lengths_shown(
    alloc: Global,
    layers: &[Layer],
    files: &[(Name, Bytes)],
    names: &[Bytes],
) -> Result<Vec<OpenFiles>, AllocError>
    ensures { IfOk result (λ lengths. lengths.items ≡ lengths_shown layers.now (files_of files.now) names.now) }
{
    let Some((layer, below)) = layers.split_first() else {
        return Ok(Vec::new(alloc));
    };
    match layer {
        Layer::Trace | Layer::Cksum { .. } => lengths_shown(alloc, below, files, names),
        Layer::Mux { chunk } => {
            let chunks = all_chunks(alloc, *chunk, below, files, names)?;
            lengths_shown(alloc, below, files, &chunks)
        }
        Layer::Append => {
            let own = appended_files(alloc, layers, below, files, names)?;
            in_front(own, lengths_shown(alloc, below, files, names)?)
        }
        Layer::Quota { .. } => {
            let own = counted_files(alloc, below, files, names)?;
            in_front(own, lengths_shown(alloc, below, files, names)?)
        }
    }
}

/// The open files of an append layer with the layers below it, as all of these and those below show them.
fn appended_files(
    alloc: Global,
    layers: &[Layer],
    below: &[Layer],
    files: &[(Name, Bytes)],
    names: &[Bytes],
) -> Result<OpenFiles, AllocError>
    ensures { IfOk result (λ own. own ≡ appended_files (through layers.now (files_of files.now)) (through below.now (files_of files.now)) names.now) }
{
    let Some((first, more)) = names.split_first() else {
        return Ok(OpenFiles::from_vec(Vec::new(alloc)));
    };
    let shown = through(alloc, layers, files, first.as_slice())?;
    let whole = through(alloc, below, files, first.as_slice())?;
    let name = Bytes::copy_of(alloc, first.as_slice())?;
    let len = shown.bytes.as_slice().len() as u64;
    let own = OpenFile::new(name, len, placed(whole.bytes.as_slice()));
    appended_files(alloc, layers, below, files, more)?.behind(own)
}

/// The open files of a quota layer, as the layers below it show them.
fn counted_files(
    alloc: Global,
    below: &[Layer],
    files: &[(Name, Bytes)],
    names: &[Bytes],
) -> Result<OpenFiles, AllocError>
    ensures { IfOk result (λ own. own ≡ counted_files (through below.now (files_of files.now)) names.now) }
{
    let Some((first, more)) = names.split_first() else {
        return Ok(OpenFiles::from_vec(Vec::new(alloc)));
    };
    let shown = through(alloc, below, files, first.as_slice())?;
    let name = Bytes::copy_of(alloc, first.as_slice())?;
    let own = OpenFile::new(name, shown.bytes.as_slice().len() as u64, Placed::Ordinary);
    counted_files(alloc, below, files, more)?.behind(own)
}

/// The names of the chunks of these files that are there.
fn all_chunks(
    alloc: Global,
    chunk: u32,
    below: &[Layer],
    files: &[(Name, Bytes)],
    names: &[Bytes],
) -> Result<Vec<Bytes>, AllocError>
    ensures { IfOk result (λ all. all.items ≡ all_chunks chunk (through below.now (files_of files.now)) names.now) }
{
    let Some((first, more)) = names.split_first() else {
        return Ok(Vec::new(alloc));
    };
    let mut all = chunk_names(alloc, chunk, below, files, first.as_slice(), 0)?;
    let mut rest = all_chunks(alloc, chunk, below, files, more)?;
    all.append(&mut rest)?;
    Ok(all)
}

/// The names of the chunks of a file, from one on, up to the end of the file.
#[tactic(auto, using(crate::proofs::LengthLemmas::names_over, crate::proofs::LengthLemmas::names_none, crate::proofs::LengthLemmas::names_last, crate::proofs::LengthLemmas::names_more))]
fn chunk_names(
    alloc: Global,
    chunk: u32,
    below: &[Layer],
    files: &[(Name, Bytes)],
    name: &[u8],
    number: u32,
) -> Result<Vec<Bytes>, AllocError>
    ensures { IfOk result (λ names. names.items ≡ chunk_names (most_chunks - number) chunk (through below.now (files_of files.now)) name.now number) }
{
    if number >= MOST_CHUNKS {
        return Ok(Vec::new(alloc));
    }
    let own = chunk_name(alloc, name, number)?;
    let shown = through(alloc, below, files, own.as_slice())?;
    if !shown.there {
        return Ok(Vec::new(alloc));
    }
    if shown.bytes.as_slice().len() < chunk as usize {
        return in_front(own, Vec::new(alloc));
    }
    let more = chunk_names(alloc, chunk, below, files, name, number + 1)?;
    in_front(own, more)
}
