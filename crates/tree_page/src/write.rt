//! A page written from a list of cells.

ghost use Rattle.std.specs.Prelude.{◌≡◌, ℕ, ◌+◌, ◌-◌, ◌*◌, ◌≤◌, ◌<◌, ◌%◌, [], ◌∷◌, ◌++◌, length, max, Some, take, drop, replicate, slice_get, IfSome};
ghost use Rattle.std.specs.List.{AllByRecursion};
ghost use Rattle.byteorder.specs.Endian.{big_bytes};
ghost use Rattle.tree_page.specs.Page.{Cell, leaf, inner, cells_of, page_kind, begin_of, first_pointer, header_size, type_byte, IsPage};
ghost use Rattle.tree_page.specs.Written.{Fits, IsSound, written_size, space_of, header_of, IsWritten};
ghost use Rattle.tree_page.specs.Steps.{Lays, LaysCell, LaysNext, Fills, IsBlank, IsNumbered};

use crate::cell::{InnerCell, Kind, LeafCell, PageCells};
use crate::put::{put, put_number, put_short, put_varint_at};
use crate::read::{LEAST_EXTENT, begin_of, header_size};
use crate::room::written_size;

/// Writes the cells on page `number`, of which `usable` bytes hold content, with no freeblocks and no gaps between
/// the cells. The 100 bytes before the b-tree page of page 1 stay, and so do the bytes behind the usable part. It
/// takes no memory.
pub fn write_page(cells: &PageCells, number: u32, usable: u32, page: &mut [u8])
    requires least { 480 ≤ usable }
    requires within { usable ≤ length page.old }
    requires most { length page.old ≤ 65536 }
    requires fits { Fits cells.now number usable }
    ensures written { IsWritten page.old page.new number usable cells.now }
    ensures reads { IsPage page.new number usable cells.now }
    ensures front { take (begin_of number) page.new ≡ take (begin_of number) page.old }
    ensures back { drop usable page.new ≡ drop usable page.old }
{
    let begin = begin_of(number);
    let usable = usable as usize;
    clear(page, begin, usable);
    let content = put_cells(cells, begin + header_size(cells.kind()), usable, page);
    put_header(cells, begin, content, page);
}

/// Makes the bytes from a place to an end zero.
fn clear(page: &mut [u8], from: usize, end: usize)
    requires order { from ≤ end }
    requires within { end ≤ length page.old }
    ensures { page.new ≡ take from page.old ++ (replicate (end - from) 0 ++ drop end page.old) }
{
    page[from..end].fill(0);
}

/// Writes the pointers from a place on, and the cells from the end on, between which all bytes are zero.
fn put_cells(cells: &PageCells, first: usize, usable: usize, page: &mut [u8]) -> usize
    requires within { usable ≤ length page.old }
    requires most { length page.old ≤ 65536 }
    requires sound { AllByRecursion (IsSound usable) (cells_of cells.now) }
    requires room { first + space_of (cells_of cells.now) ≤ usable }
    requires blank { IsBlank page.old first usable }
    ensures { Fills usable first usable (take first page.old) (drop usable page.old) (cells_of cells.now) result page.new }
{
    let mut end = usable;
    for at in 0..cells.len() {
        end = put_next(cells, at, first + 2 * at, end, page);
    }
    end
}

/// Writes a cell before the one that was written last, and the pointer to it.
fn put_next(cells: &PageCells, at: usize, pointer: usize, end: usize, page: &mut [u8]) -> usize
    requires at { at < length (cells_of cells.now) }
    requires within { end ≤ length page.old }
    requires most { end ≤ 65536 }
    requires room { (cell : Cell) → slice_get (cells_of cells.now) at ≡ Some cell → pointer + 2 + max 4 (written_size cell) ≤ end }
    requires blank { IsBlank page.old pointer end }
    ensures { IfSome (slice_get (cells_of cells.now) at) (λ cell. LaysNext page.old page.new pointer end result cell) }
{
    let place = end - written_size(cells, at).max(LEAST_EXTENT);
    put_short(page, pointer, place as u16);
    put_cell(cells, at, place, page);
    place
}

/// Writes a cell at a place.
fn put_cell(cells: &PageCells, at: usize, place: usize, page: &mut [u8])
    requires at { at < length (cells_of cells.now) }
    requires room { (cell : Cell) → slice_get (cells_of cells.now) at ≡ Some cell → place + written_size cell ≤ length page.old }
    ensures { IfSome (slice_get (cells_of cells.now) at) (λ cell. LaysCell page.old page.new place cell) }
{
    match cells {
        PageCells::Leaf(cells) => put_leaf(&cells.as_slice()[at], place, page),
        PageCells::Interior { cells, .. } => put_inner(&cells.as_slice()[at], place, page),
    }
}

/// Writes the cell of a leaf at a place.
fn put_leaf(cell: &LeafCell, place: usize, page: &mut [u8])
    requires { place + written_size (leaf cell.now) ≤ length page.old }
    ensures { LaysCell page.old page.new place (leaf cell.now) }
{
    let local = cell.local.as_slice();
    let payload_len = cell.payload_len;
    let rowid = cell.rowid;
    let overflow = cell.overflow;
    let rowid_place = place + put_varint_at(page, place, payload_len.cast_signed());
    let local_place = rowid_place + put_varint_at(page, rowid_place, rowid);
    put(page, local_place, local);
    if (local.len() as u64) < payload_len {
        put_number(page, local_place + local.len(), overflow);
    }
}

/// Writes the cell of an interior page at a place.
fn put_inner(cell: &InnerCell, place: usize, page: &mut [u8])
    requires { place + written_size (inner cell.now) ≤ length page.old }
    ensures { LaysCell page.old page.new place (inner cell.now) }
{
    let InnerCell { child, rowid } = *cell;
    put_number(page, place, child);
    put_varint_at(page, place + 4, rowid);
}

/// Writes the header of a b-tree page, whose cells begin at `content`.
fn put_header(cells: &PageCells, begin: usize, content: usize, page: &mut [u8])
    requires room { begin + header_size (page_kind cells.now) ≤ length page.old }
    requires count { length (cells_of cells.now) ≤ 65535 }
    ensures lays { Lays page.old page.new begin (header_of cells.now content) }
    ensures numbered { IsNumbered cells.now }
{
    put_front(
        type_byte(cells.kind()),
        cells.len() as u16,
        begin,
        content,
        page,
    );
    if let PageCells::Interior { right, .. } = cells {
        put_number(page, begin + 8, *right);
    }
}

/// Writes the part of the header that both kinds of page have.
fn put_front(kind: u8, count: u16, begin: usize, content: usize, page: &mut [u8])
    requires { begin + 8 ≤ length page.old }
    ensures { Lays page.old page.new begin (kind ∷ 0 ∷ 0 ∷ (big_bytes 2 count ++ (big_bytes 2 (content % 65536) ++ (0 ∷ [])))) }
{
    put(page, begin, &[kind, 0, 0]);
    put_short(page, begin + 3, count);
    put_short(page, begin + 5, (content % 0x1_0000) as u16);
    put(page, begin + 7, &[0]);
}

/// The byte that tells the kind of a page.
fn type_byte(kind: Kind) -> u8
    ensures { result ≡ type_byte kind }
{
    match kind {
        Kind::Leaf => 13,
        Kind::Interior => 5,
    }
}
