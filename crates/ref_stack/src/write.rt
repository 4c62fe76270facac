//! One write of a database, followed down the layers of a stack.

ghost use Rattle.std.specs.Prelude.{◌≡◌, ◌+◌, ◌-◌, ◌*◌, ◌≤◌, ◌∷◌, length, IfOk};
ghost use Rattle.vfs_model.specs.View.{most_chunks};
ghost use Rattle.vfs_model.specs.Pass.{pass, by_chunks, then_pass, on_top};
ghost use Rattle.vfs_model.specs.declared.layer.Layer.TheVariants.{Append, Quota};
ghost use Rattle.ref_stack.specs.Passed.{way_of};

use crate::append::{append_says, placed_then, shifted};
use crate::chunk::{MOST_CHUNKS, chunk_name};
use crate::front::in_front;
use crate::open::{OpenFiles, copy_of, len_at, place_at, reached};
use crate::quota::{Limits, quota_says};
use std::alloc::{AllocError, Global};
use vfs_model::{Group, Layer};

/// How a write passes down the layers.
#[derive(Debug, Drop)]
pub enum Passing {
    /// It passes, and these are the lengths then.
    Passes(Vec<OpenFiles>),
    /// It is refused as full.
    IsFull {
        /// The bytes that there would be.
        total: u64,
        /// The most that there may be.
        limit: u64,
    },
}

/// A copy of the open files of each layer.
fn copies(alloc: Global, lengths: &[OpenFiles]) -> Result<Vec<OpenFiles>, AllocError>
    ensures { IfOk result (λ copy. copy.items ≡ lengths.now) }
{
    let Some((first, more)) = lengths.split_first() else {
        return Ok(Vec::new(alloc));
    };
    in_front(copy_of(alloc, first.as_slice())?, copies(alloc, more)?)
}

/// A write that passed, or did not, below a layer with these open files.
fn on_top(files: OpenFiles, passing: Passing) -> Result<Passing, AllocError>
    ensures { IfOk result (λ above. way_of above ≡ on_top files (way_of passing)) }
{
    match passing {
        Passing::Passes(lengths) => Ok(Passing::Passes(in_front(files, lengths)?)),
        Passing::IsFull { total, limit } => Ok(Passing::IsFull { total, limit }),
    }
}

/// How a write of a database, from a place up to an end, passes down layers, the top one first: by the limits of the groups
/// of each quota layer, and by the open files of each quota and append layer. Each append layer moves the end by less than
/// 2^33 bytes, and every end is to fit into 64 bits.
#[cycle(passes)]
#[tactic(auto, unfolding(vfs_model::specs::Pass::pass))]
pub fn pass(
    alloc: Global,
    layers: &[Layer],
    limits: &[Limits],
    lengths: &[OpenFiles],
    name: &[u8],
    off: u64,
    end: u64,
) -> Result<Passing, AllocError>
    requires order { off ≤ end }
    requires fits { end + 8589934592 * length layers.now ≤ u64.MAX }
    ensures { IfOk result (λ passing. way_of passing ≡ pass layers.now limits.now lengths.now name.now off end) }
{
    let Some((layer, below)) = layers.split_first() else {
        return Ok(Passing::Passes(copies(alloc, lengths)?));
    };
    match layer {
        Layer::Trace | Layer::Cksum { .. } => pass(alloc, below, limits, lengths, name, off, end),
        Layer::Append => pass_appended(alloc, below, limits, lengths, name, off, end),
        Layer::Mux { chunk } => {
            by_chunks(alloc, *chunk, below, limits, lengths, name, 0, off, end)
        }
        Layer::Quota { groups } => {
            pass_counted(
                alloc,
                groups.as_slice(),
                below,
                limits,
                lengths,
                name,
                off,
                end,
            )
        }
    }
}

/// A write at an append layer.
#[cycle(passes)]
#[tactic(auto, unfolding(vfs_model::specs::Pass::pass))]
fn pass_appended(
    alloc: Global,
    below: &[Layer],
    limits: &[Limits],
    lengths: &[OpenFiles],
    name: &[u8],
    off: u64,
    end: u64,
) -> Result<Passing, AllocError>
    requires order { off ≤ end }
    requires fits { end + 8589934592 * (length below.now + 1) ≤ u64.MAX }
    ensures { IfOk result (λ passing. way_of passing ≡ pass (Append ∷ below.now) limits.now lengths.now name.now off end) }
{
    let Some((own, lengths)) = lengths.split_first() else {
        return Ok(Passing::Passes(Vec::new(alloc)));
    };
    let files = own.as_slice();
    let len = len_at(name, files);
    let range = shifted(place_at(name, files), len, off, end);
    if let Some((total, limit)) = append_says(place_at(name, files), len, end, range) {
        return Ok(Passing::IsFull { total, limit });
    }
    let passing = pass(alloc, below, limits, lengths, name, range.0, range.1)?;
    let placed = placed_then(alloc, len < end, name, files)?;
    on_top(reached(alloc, name, end, placed.as_slice())?, passing)
}

/// A write at a quota layer.
#[cycle(passes)]
#[tactic(auto, unfolding(vfs_model::specs::Pass::pass))]
fn pass_counted(
    alloc: Global,
    groups: &[Group],
    below: &[Layer],
    limits: &[Limits],
    lengths: &[OpenFiles],
    name: &[u8],
    off: u64,
    end: u64,
) -> Result<Passing, AllocError>
    requires order { off ≤ end }
    requires fits { end + 8589934592 * length below.now ≤ u64.MAX }
    ensures { IfOk result (λ passing. way_of passing ≡ pass (Quota groups.now ∷ below.now) limits.now lengths.now name.now off end) }
{
    let Some((own, lengths)) = lengths.split_first() else {
        return Ok(Passing::Passes(Vec::new(alloc)));
    };
    let after = reached(alloc, name, end, own.as_slice())?;
    let Some((first, limits)) = limits.split_first() else {
        return on_top(after, pass(alloc, below, limits, lengths, name, off, end)?);
    };
    let says = quota_says(alloc, groups, first.as_slice(), own.as_slice(), name, end)?;
    if let Some((total, limit)) = says {
        return Ok(Passing::IsFull { total, limit });
    }
    on_top(after, pass(alloc, below, limits, lengths, name, off, end)?)
}

/// A write at a multiplexor, from a chunk on: one write a chunk in rising order, each with the lengths before it.
#[cycle(passes)]
#[tactic(auto, using(crate::proofs::PassLemmas::chunks_over, crate::proofs::PassLemmas::chunks_end, crate::proofs::PassLemmas::chunks_skip, crate::proofs::PassLemmas::chunks_write))]
fn by_chunks(
    alloc: Global,
    chunk: u32,
    below: &[Layer],
    limits: &[Limits],
    lengths: &[OpenFiles],
    name: &[u8],
    number: u32,
    off: u64,
    end: u64,
) -> Result<Passing, AllocError>
    requires order { off ≤ end }
    requires fits { end + 8589934592 * length below.now ≤ u64.MAX }
    ensures { IfOk result (λ passing. way_of passing ≡ by_chunks (pass below.now limits.now) (most_chunks - number) chunk name.now number off end lengths.now) }
{
    let start = u64::from(chunk) * u64::from(number);
    let next = u64::from(chunk) * (u64::from(number) + 1);
    if number >= MOST_CHUNKS || end <= start {
        return Ok(Passing::Passes(copies(alloc, lengths)?));
    }
    if next <= off {
        return by_chunks(
            alloc,
            chunk,
            below,
            limits,
            lengths,
            name,
            number + 1,
            off,
            end,
        );
    }
    let own = chunk_name(alloc, name, number)?;
    let (from, to) = (off.max(start) - start, end.min(next) - start);
    let passing = pass(alloc, below, limits, lengths, own.as_slice(), from, to)?;
    then_chunks(
        alloc,
        passing,
        chunk,
        below,
        limits,
        name,
        number + 1,
        off,
        end,
    )
}

/// The writes to the chunks from one on, behind one that passed or did not.
#[cycle(passes)]
fn then_chunks(
    alloc: Global,
    passing: Passing,
    chunk: u32,
    below: &[Layer],
    limits: &[Limits],
    name: &[u8],
    number: u32,
    off: u64,
    end: u64,
) -> Result<Passing, AllocError>
    requires order { off ≤ end }
    requires fits { end + 8589934592 * length below.now ≤ u64.MAX }
    ensures { IfOk result (λ after. way_of after ≡ then_pass (way_of passing) (by_chunks (pass below.now limits.now) (most_chunks - number) chunk name.now number off end)) }
{
    match passing {
        Passing::Passes(lengths) => {
            by_chunks(
                alloc, chunk, below, limits, &lengths, name, number, off, end,
            )
        }
        Passing::IsFull { total, limit } => Ok(Passing::IsFull { total, limit }),
    }
}
