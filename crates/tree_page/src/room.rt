//! Whether cells fit on a page.

ghost use Rattle.std.specs.Prelude.{◌≡◌, ℕ, ◌+◌, ◌*◌, ◌≤◌, ◌<◌, ◌↔◌, max, length, Some, true, false, slice_get, IfSome, IfNone, IsTrue};
ghost use Rattle.tree_page.specs.Page.{Cell, leaf, cells_of};
ghost use Rattle.tree_page.specs.Written.{Fits, KeepsLocal, IsSound, written_size};
ghost use Rattle.tree_page.specs.Steps.{Joins};

use crate::cell::{LeafCell, PageCells};
use crate::put::varint_size;
use crate::read::{LEAST_EXTENT, begin_of, header_size, is_above};
use db_format::local_size;

/// Whether the cells can be written on page `number`, of which `usable` bytes hold content: their keys rise, each
/// has the local part of its payload and no needless overflow page, and there is room. It takes no memory.
pub fn fits(cells: &PageCells, number: u32, usable: u32) -> bool
    requires least { 480 ≤ usable }
    requires most { usable ≤ 65536 }
    ensures { IsTrue result ↔ Fits cells.now number usable }
{
    let mut room = usable as usize - begin_of(number) - header_size(cells.kind());
    let mut last = None;
    for at in 0..cells.len() {
        let Some(left) = room_behind(cells, at, usable, last, room) else {
            return false;
        };
        room = left;
        last = Some(cells.rowid(at));
    }
    true
}

/// The room behind a cell, where the cell is sound, comes behind the last one, and has room.
fn room_behind(
    cells: &PageCells,
    at: usize,
    usable: u32,
    last: Option<i64>,
    room: usize,
) -> Option<usize>
    requires at { at < length (cells_of cells.now) }
    requires least { 480 ≤ usable }
    requires most { usable ≤ 65536 }
    ensures joins { IfSome result (λ left. (cell : Cell) → slice_get (cells_of cells.now) at ≡ Some cell → Joins usable last room left cell) }
    ensures none { IfNone result ((cell : Cell) → slice_get (cells_of cells.now) at ≡ Some cell → (left : ℕ) → ¬ (Joins usable last room left cell)) }
{
    if !is_above(last, cells.rowid(at)) || !is_sound(cells, at, usable) {
        return None;
    }
    room.checked_sub(space_at(cells, at))
}

/// Whether a page of so many usable bytes can have the cell.
fn is_sound(cells: &PageCells, at: usize, usable: u32) -> bool
    requires at { at < length (cells_of cells.now) }
    requires least { 480 ≤ usable }
    requires most { usable ≤ 65536 }
    ensures yes { result ≡ true → (cell : Cell) → slice_get (cells_of cells.now) at ≡ Some cell → IsSound usable cell }
    ensures short { result ≡ true → (cell : LeafCell) → slice_get (cells_of cells.now) at ≡ Some (leaf cell) → length cell.local ≤ 65536 }
    ensures no { result ≡ false → (cell : Cell) → slice_get (cells_of cells.now) at ≡ Some cell → ¬ (IsSound usable cell) }
{
    match cells {
        PageCells::Leaf(cells) => keeps_local(&cells.as_slice()[at], usable),
        PageCells::Interior { .. } => true,
    }
}

/// Whether the cell has the local part of its payload, and an overflow page only where that is not all.
fn keeps_local(cell: &LeafCell, usable: u32) -> bool
    requires least { 480 ≤ usable }
    requires most { usable ≤ 65536 }
    ensures yes { result ≡ true → KeepsLocal usable cell.now }
    ensures no { result ≡ false → ¬ (KeepsLocal usable cell.now) }
{
    let size = cell.local.as_slice().len();
    size == local_size(usable, cell.payload_len) as usize
        && (cell.overflow == 0 || (size as u64) < cell.payload_len)
}

/// What a cell takes on a page: two bytes for its pointer, and itself at least four.
pub fn space_at(cells: &PageCells, at: usize) -> usize
    requires at { at < length (cells_of cells.now) }
    requires short { (cell : LeafCell) → slice_get (cells_of cells.now) at ≡ Some (leaf cell) → length cell.local ≤ 65536 }
    ensures value { (cell : Cell) → slice_get (cells_of cells.now) at ≡ Some cell → result ≡ 2 + max 4 (written_size cell) }
    ensures most { result ≤ 65560 }
{
    2 + written_size(cells, at).max(LEAST_EXTENT)
}

/// How many bytes a cell has as it is written.
pub(crate) fn written_size(cells: &PageCells, at: usize) -> usize
    requires at { at < length (cells_of cells.now) }
    requires short { (cell : LeafCell) → slice_get (cells_of cells.now) at ≡ Some (leaf cell) → length cell.local ≤ 65536 }
    ensures value { (cell : Cell) → slice_get (cells_of cells.now) at ≡ Some cell → result ≡ written_size cell }
    ensures most { result ≤ 65558 }
{
    match cells {
        PageCells::Leaf(cells) => leaf_size(&cells.as_slice()[at]),
        PageCells::Interior { cells, .. } => 4 + varint_size(cells.as_slice()[at].rowid),
    }
}

/// How many bytes the cell of a leaf has as it is written.
fn leaf_size(cell: &LeafCell) -> usize
    requires { length cell.now.local ≤ 65536 }
    ensures value { result ≡ written_size (leaf cell.now) }
    ensures most { result ≤ 65558 }
{
    let local = cell.local.as_slice().len();
    let front = varint_size(cell.payload_len.cast_signed()) + varint_size(cell.rowid);
    let spilled = if (local as u64) < cell.payload_len {
        4
    } else {
        0
    };
    front + local + spilled
}
