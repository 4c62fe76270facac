//! Writes below an append layer.

ghost use Rattle.std.specs.Prelude.{◌≡◌, ◌+◌, ◌≤◌, IfOk};
ghost use Rattle.vfs_model.specs.Pass.{shifted, append_says, placed_then};
ghost use Rattle.ref_stack.specs.Near.{IsNear};

use crate::mark::next_start;
use crate::open::{OpenFile, OpenFiles, copy_of, len_at, settled_at};
use std::alloc::{AllocError, Global};
use vfs_model::Placed;

/// How long a mark is.
const MARK_SIZE: u64 = 25;

/// The most bytes of a whole file that grows.
const APPEND_LIMIT: u64 = 1_000_013_824;

/// Where a write of a range begins and ends in the file that has the database at this place: one that grows ends with the
/// mark, and the first one begins at the end of what stands there.
pub fn shifted(place: Placed, len: u64, off: u64, end: u64) -> (u64, u64)
    requires near { IsNear place }
    requires order { off ≤ end }
    requires fits { end + 8589934592 ≤ u64.MAX }
    ensures value { result ≡ shifted place len off end }
    ensures order { result.0 ≤ result.1 }
    ensures near { result.1 ≤ end + 8589934592 }
{
    match place {
        Placed::Ordinary => (off, end),
        Placed::Behind(start) if len < end => (start + off, start + end + MARK_SIZE),
        Placed::Behind(start) => (start + off, start + end),
        Placed::Fresh(whole) if len < end => (whole, next_start(whole) + end + MARK_SIZE),
        Placed::Fresh(whole) => (whole, whole),
    }
}

/// The length of the whole file and the limit, where a write that makes the database longer passes it.
pub fn append_says(place: Placed, len: u64, end: u64, range: (u64, u64)) -> Option<(u64, u64)>
    ensures { result ≡ append_says place len end range }
{
    match place {
        Placed::Ordinary => None,
        Placed::Behind(_) | Placed::Fresh(_) => {
            if len < end && range.1 > APPEND_LIMIT {
                Some((range.1, APPEND_LIMIT))
            } else {
                None
            }
        }
    }
}

/// The open files, with the place of one settled where a write makes it longer.
pub fn placed_then(
    alloc: Global,
    grows: bool,
    name: &[u8],
    files: &[OpenFile],
) -> Result<OpenFiles, AllocError>
    ensures { IfOk result (λ after. after ≡ placed_then grows name.now files.now) }
{
    if grows {
        settled_at(alloc, name, files)
    } else {
        copy_of(alloc, files)
    }
}
