//! What the layers of a stack show of files in memory.

ghost use Rattle.std.specs.Prelude.{◌≡◌, ◌-◌, ◌/◌, ◌≤◌, ◌++◌, IfOk};
ghost use Rattle.vfs_model.specs.Name.{kind_of};
ghost use Rattle.vfs_model.specs.Mark.{placed, shown_at};
ghost use Rattle.vfs_model.specs.Sums.{without_sums};
ghost use Rattle.vfs_model.specs.View.{through, in_chunks, bytes_from, most_chunks};
ghost use Rattle.ref_stack.specs.Seen.{files_of, Shows, IsOfMain};

use crate::chunk::{MOST_CHUNKS, chunk_name};
use crate::files::{Shown, file_in};
use crate::mark::shown_at;
use crate::sums::{fails, without_sums};
use byte_base::Bytes;
use std::alloc::{AllocError, Global};
use vfs_model::{Kind, Layer, Name, kind_of};

/// What a stack of layers, the top one first, shows of the file of a name.
#[cycle(views)]
pub fn through(
    alloc: Global,
    layers: &[Layer],
    files: &[(Name, Bytes)],
    name: &[u8],
) -> Result<Shown, AllocError>
    ensures { IfOk result (Shows (through layers.now (files_of files.now) name.now)) }
{
    let Some((layer, below)) = layers.split_first() else {
        return file_in(alloc, files, name);
    };
    match layer {
        Layer::Trace | Layer::Quota { .. } => through(alloc, below, files, name),
        Layer::Cksum { page } => {
            let shown = through(alloc, below, files, name)?;
            summed(alloc, *page, name, shown)
        }
        Layer::Append => {
            let shown = through(alloc, below, files, name)?;
            appended(alloc, name, shown)
        }
        Layer::Mux { chunk } => in_chunks(alloc, *chunk, below, files, name),
    }
}

/// A file that is kept in chunks, where its first one is there.
#[cycle(views)]
fn in_chunks(
    alloc: Global,
    chunk: u32,
    below: &[Layer],
    files: &[(Name, Bytes)],
    name: &[u8],
) -> Result<Shown, AllocError>
    ensures { IfOk result (Shows (in_chunks chunk (through below.now (files_of files.now)) name.now)) }
{
    let first = through(alloc, below, files, name)?;
    let bytes = bytes_from(alloc, chunk, below, files, name, 0)?;
    Ok(Shown {
        there: first.there,
        bytes,
    })
}

/// The bytes of the chunks from one on.
#[cycle(views)]
#[tactic(auto, using(crate::proofs::ShownLemmas::chunks_end, crate::proofs::ShownLemmas::chunk_short, crate::proofs::ShownLemmas::chunk_full))]
fn bytes_from(
    alloc: Global,
    chunk: u32,
    below: &[Layer],
    files: &[(Name, Bytes)],
    name: &[u8],
    number: u32,
) -> Result<Bytes, AllocError>
    ensures { IfOk result (λ bytes. bytes ≡ bytes_from (most_chunks - number) chunk (through below.now (files_of files.now)) name.now number) }
{
    if number >= MOST_CHUNKS {
        return Ok(Bytes::from_vec(Vec::new(alloc)));
    }
    let own = chunk_name(alloc, name, number)?;
    let shown = through(alloc, below, files, own.as_slice())?;
    if !shown.there {
        return Ok(Bytes::from_vec(Vec::new(alloc)));
    }
    if shown.bytes.as_slice().len() < chunk as usize {
        return Ok(shown.bytes);
    }
    let rest = bytes_from(alloc, chunk, below, files, name, number + 1)?;
    joined(
        alloc,
        &shown.bytes.as_slice()[..chunk as usize],
        rest.as_slice(),
    )
}

/// Two byte strings, one behind the other.
fn joined(alloc: Global, front: &[u8], back: &[u8]) -> Result<Bytes, AllocError>
    ensures { IfOk result (λ bytes. bytes ≡ front.now ++ back.now) }
{
    let mut bytes = Bytes::copy_of(alloc, front)?;
    bytes.extend_from_slice(back)?;
    Ok(bytes)
}

/// A database without the sums of its pages.
fn summed(alloc: Global, page: u32, name: &[u8], shown: Shown) -> Result<Shown, AllocError>
    ensures { IfOk result (IsOfMain (kind_of name.now) (without_sums page 0 shown.bytes) shown) }
{
    match kind_of(name) {
        Kind::Main => Ok(Shown {
            there: shown.there,
            bytes: without_sums(alloc, page, shown.bytes.as_slice())?,
        }),
        Kind::Journal | Kind::Super => Ok(shown),
    }
}

/// A database that stands behind other content.
fn appended(alloc: Global, name: &[u8], shown: Shown) -> Result<Shown, AllocError>
    ensures { IfOk result (IsOfMain (kind_of name.now) (shown_at (placed shown.bytes) shown.bytes) shown) }
{
    match kind_of(name) {
        Kind::Main => Ok(Shown {
            there: shown.there,
            bytes: Bytes::copy_of(alloc, shown_at(shown.bytes.as_slice()))?,
        }),
        Kind::Journal | Kind::Super => Ok(shown),
    }
}

/// Whether a place of what is shown lies on a page that fails its checksum.
pub fn is_bad(
    alloc: Global,
    layers: &[Layer],
    files: &[(Name, Bytes)],
    name: &[u8],
    place: u32,
) -> Result<bool, AllocError>
    ensures { IfOk result (λ bad. bad ≡ (through layers.now (files_of files.now) name.now).bad place) }
{
    let Some((layer, below)) = layers.split_first() else {
        return Ok(false);
    };
    match layer {
        Layer::Trace | Layer::Quota { .. } => is_bad(alloc, below, files, name, place),
        Layer::Mux { .. } => Ok(false),
        Layer::Append => match kind_of(name) {
            Kind::Main => Ok(false),
            Kind::Journal | Kind::Super => is_bad(alloc, below, files, name, place),
        },
        Layer::Cksum { page } => match kind_of(name) {
            Kind::Main => {
                let shown = through(alloc, below, files, name)?;
                Ok(fails(*page, shown.bytes.as_slice(), page_of(*page, place)))
            }
            Kind::Journal | Kind::Super => is_bad(alloc, below, files, name, place),
        },
    }
}

/// The page of a place.
#[tactic(auto, using(crate::proofs::ShownLemmas::over_zero))]
fn page_of(page: u32, place: u32) -> u32
    ensures { result ≡ place / page }
{
    if page == 0 { 0 } else { place / page }
}
