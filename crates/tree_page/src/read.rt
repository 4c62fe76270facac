//! The cells of a page, read from any bytes.
//!
//! First the cells are found, and what they take is marked; only then are their payloads copied. So a page whose
//! cells overlap costs no more than one whose cells do not.

ghost use Rattle.std.specs.Prelude.{◌≡◌, ℕ, ◌+◌, ◌*◌, ◌≤◌, ◌<◌, ◌⊎◌, ◌↔◌, true, false, List, [], ◌∷◌, ◌++◌, length, map, take, drop, Option, Some, None, IfOk, IfSome, IfNone, IsErrOf, IsTrue, slice_index};
ghost use Rattle.std.specs.List.{All};
ghost use Rattle.byte_base.specs.Numbers.{number_at};
ghost use Rattle.tree_page.specs.declared.cell.Kind.{Kind};
ghost use Rattle.tree_page.specs.declared.cell.LeafCell.{LeafCell};
ghost use Rattle.tree_page.specs.declared.cell.InnerCell.{InnerCell};
ghost use Rattle.tree_page.specs.declared.cell.PageCells.{PageCells};
ghost use Rattle.tree_page.specs.Page.{Cell, leaf, inner, kind_of, rowid_of, Placed, Extent, IsAt, Stands, Spells, SpellsLeaf, SpellsInner, IsFreeblock, AreFreeblocks, IsTreePage, IsPage, OnePage, begin_of, header_size, content_start, type_byte};
ghost use Rattle.tree_page.specs.Steps.{cell_of, IsHead, IsFound, Owns, IsSpelled, ReadsAs, IsAbove, IsNext, TakesNext, AreClear, HasFound, AreCells, IsClear, Marks, ReadsVarint, ReadsNone, HasOverflow};

use crate::cell::{InnerCell, InnerCells, Kind, LeafCell, LeafCells, PageCells};
use crate::marks::mark;
use byteorder::{BigEndian, ByteOrder};
use db_format::{Bytes, FormatFault, local_size, one_varint, read_varint};
use std::alloc::{AllocError, Global};

/// The fewest bytes that a cell takes, and the fewest of a freeblock.
pub(crate) const LEAST_EXTENT: usize = 4;

/// The length of a database header, which the b-tree page of page 1 stands behind.
const DATABASE_HEADER: usize = 100;

/// The cells of a page: `page` is the whole page, `number` its number, and `usable` how many of its bytes hold
/// content. `Corrupt` exactly where it is no page of a table b-tree.
pub fn read_page(
    alloc: Global,
    page: &[u8],
    number: u32,
    usable: u32,
) -> Result<PageCells, FormatFault>
    requires least { 480 ≤ usable }
    requires within { usable ≤ length page.now }
    requires most { length page.now ≤ 65536 }
    ensures found { IfOk result (λ cells. IsPage page.now number usable cells) }
    ensures corrupt { IsErrOf result FormatFault.Corrupt → (cells : PageCells) → ¬ (IsPage page.now number usable cells) }
{
    let bytes = &page[..usable as usize];
    let Some(head) = read_head(bytes, number) else {
        return Err(FormatFault::Corrupt);
    };
    let mut marks = vec![in alloc; false; bytes.len()]?;
    read_cells(alloc, bytes, head, &mut marks)
}

/// A page has one list of cells at most.
pub fn one_page()
    ensures { OnePage }
{
    one_varint();
}

/// What the header of a b-tree page says.
#[derive(Clone, Copy)]
struct Head {
    kind: Kind,
    /// The right-most child, 0 on a leaf.
    right: u32,
    /// The place of the first cell pointer.
    pointers: usize,
    /// The number of cells.
    count: usize,
    /// Where the cell content begins.
    content: usize,
    /// The place of the first freeblock, 0 for none.
    free: usize,
}

/// The cells of a page with this header. The marks are for what its cells and freeblocks take.
fn read_cells(
    alloc: Global,
    bytes: &[u8],
    head: Head,
    marks: &mut [bool],
) -> Result<PageCells, FormatFault>
    requires pointers { head.pointers + 2 * head.count ≤ length bytes.now }
    requires free { head.free < 65536 }
    requires least { 480 ≤ length bytes.now }
    requires most { length bytes.now ≤ 65536 }
    requires marks { length marks.old ≡ length bytes.now }
    ensures found { IfOk result (λ cells. ReadsAs bytes.now head marks.old cells) }
    ensures corrupt { IsErrOf result FormatFault.Corrupt → ¬ (IsSpelled bytes.now head marks.old) }
{
    let found = find_cells(alloc, bytes, head, marks)?;
    if !mark_free(bytes, head, marks) {
        return Err(FormatFault::Corrupt);
    }
    let cells = owned(alloc, bytes, head, &found)?;
    Ok(cells)
}

/// The header of a page, where its bounds hold.
fn read_head(bytes: &[u8], number: u32) -> Option<Head>
    requires { 480 ≤ length bytes.now }
    ensures found { IfSome result (λ head. IsHead bytes.now number head) }
    ensures none { IfNone result ((cells : PageCells) → ¬ (IsTreePage bytes.now number cells)) }
{
    let begin = begin_of(number);
    let Some(kind) = kind_at(bytes, begin) else {
        return None;
    };
    let head = Head {
        kind,
        right: right_at(bytes, begin, kind),
        pointers: begin + header_size(kind),
        count: short_at(bytes, begin + 3),
        content: content_start(bytes, number),
        free: short_at(bytes, begin + 1),
    };
    if head.content < head.pointers + 2 * head.count {
        return None;
    }
    if bytes.len() < head.content {
        return None;
    }
    Some(head)
}

/// The kind that a byte tells.
fn kind_at(bytes: &[u8], begin: usize) -> Option<Kind>
    requires { begin < length bytes.now }
    ensures found { IfSome result (λ kind. slice_index bytes.now begin ≡ type_byte kind) }
    ensures none { IfNone result ((kind : Kind) → slice_index bytes.now begin ≡ type_byte kind → ⊥) }
{
    match bytes[begin] {
        13 => Some(Kind::Leaf),
        5 => Some(Kind::Interior),
        _ => None,
    }
}

/// The number of the right-most child, 0 on a leaf.
#[tactic(auto, unfolding(byte_base::specs::Numbers::number_at))]
fn right_at(bytes: &[u8], begin: usize, kind: Kind) -> u32
    requires { begin + 12 ≤ length bytes.now }
    ensures { kind ≡ Kind.Interior → result ≡ number_at 4 bytes.now (begin + 8) }
{
    match kind {
        Kind::Leaf => 0,
        Kind::Interior => BigEndian::read_u32(&bytes[begin + 8..]),
    }
}

/// Where the cell content begins.
#[tactic(auto, unfolding(crate::specs::Page::content_start))]
fn content_start(bytes: &[u8], number: u32) -> usize
    requires { 480 ≤ length bytes.now }
    ensures { result ≡ content_start bytes.now number }
{
    match short_at(bytes, begin_of(number) + 5) {
        0 => 0x1_0000,
        start => start,
    }
}

/// Where the b-tree page of a page begins.
pub(crate) fn begin_of(number: u32) -> usize
    ensures { result ≡ begin_of number }
{
    if number == 1 { DATABASE_HEADER } else { 0 }
}

/// How many bytes the header of a b-tree page has.
pub(crate) fn header_size(kind: Kind) -> usize
    ensures { result ≡ header_size kind }
{
    match kind {
        Kind::Leaf => 8,
        Kind::Interior => 12,
    }
}

/// The big-endian number of two bytes at a place.
#[tactic(auto, unfolding(byte_base::specs::Numbers::number_at))]
fn short_at(bytes: &[u8], place: usize) -> usize
    requires { place + 2 ≤ length bytes.now }
    ensures value { result ≡ number_at 2 bytes.now place }
    ensures small { result < 65536 }
{
    usize::from(BigEndian::read_u16(&bytes[place..]))
}

/// A cell that was found. The local part of a payload stays where it is.
#[derive(Clone, Copy)]
enum Found {
    Leaf(LeafSpot),
    Inner(InnerCell),
}

/// A cell of a leaf that was found.
#[derive(Clone, Copy)]
struct LeafSpot {
    rowid: i64,
    payload_len: u64,
    overflow: u32,
    /// Where the local part of the payload begins.
    place: u32,
    /// How many bytes the local part has.
    size: u32,
}

impl Found {
    fn rowid(&self, bytes: &[u8]) -> i64
        ensures { result ≡ rowid_of (cell_of bytes.now self.now) }
    {
        match self {
            Found::Leaf(spot) => spot.rowid,
            Found::Inner(cell) => cell.rowid,
        }
    }
}

/// Finds the cells of a page by its pointers, and marks what they take.
fn find_cells(
    alloc: Global,
    bytes: &[u8],
    head: Head,
    marks: &mut [bool],
) -> Result<Vec<Found>, FormatFault>
    requires pointers { head.pointers + 2 * head.count ≤ length bytes.now }
    requires least { 480 ≤ length bytes.now }
    requires most { length bytes.now ≤ 65536 }
    requires marks { length marks.old ≡ length bytes.now }
    ensures found { IfOk result (λ found. HasFound bytes.now head marks.old marks.new found.items) }
    ensures corrupt { IsErrOf result FormatFault.Corrupt → (placed : List Placed) (free : List Extent) → length placed ≡ head.count → ¬ (AreCells bytes.now head.content head.kind head.pointers None marks.old placed free) }
{
    let mut found = Vec::with_capacity(alloc, head.count)?;
    let mut last = None;
    for at in 0..head.count {
        let place = short_at(bytes, head.pointers + 2 * at);
        let Some(cell) = next_cell(bytes, head, place, last, marks) else {
            return Err(FormatFault::Corrupt);
        };
        found.push(cell)?;
        last = Some(cell.rowid(bytes));
    }
    Ok(found)
}

/// The cell at a place, where it is one, stands behind the content start, and overlaps none before it.
fn next_cell(
    bytes: &[u8],
    head: Head,
    place: usize,
    last: Option<i64>,
    marks: &mut [bool],
) -> Option<Found>
    requires least { 480 ≤ length bytes.now }
    requires most { length bytes.now ≤ 65536 }
    requires marks { length marks.old ≡ length bytes.now }
    ensures found { IfSome result (λ found. IsFound bytes.now head.kind found) }
    ensures takes { IfSome result (λ found. TakesNext bytes.now head.content head.kind place last marks.old marks.new (cell_of bytes.now found)) }
    ensures none { IfNone result ((placed : Placed) → ¬ (IsNext bytes.now head.content head.kind place last marks.old placed)) }
{
    if place < head.content || place >= bytes.len() {
        return None;
    }
    let Some((found, size)) = cell_at(bytes, head.kind, place) else {
        return None;
    };
    let extent = size.max(LEAST_EXTENT);
    if bytes.len() - place < extent {
        return None;
    }
    let rowid = found.rowid(bytes);
    if !is_above(last, rowid) {
        return None;
    }
    if mark(marks, place, extent) {
        Some(found)
    } else {
        None
    }
}

/// The cell of a kind at a place, and how many bytes spell it.
fn cell_at(bytes: &[u8], kind: Kind, place: usize) -> Option<(Found, usize)>
    requires least { 480 ≤ length bytes.now }
    requires most { length bytes.now ≤ 65536 }
    requires within { place ≤ length bytes.now }
    ensures found { IfSome result (λ found. IsFound bytes.now kind found.0) }
    ensures stands { IfSome result (λ found. IsAt bytes.now place found.1 (cell_of bytes.now found.0)) }
    ensures only { IfSome result (λ found. (size : ℕ) (cell : Cell) → kind_of cell ≡ kind → IsAt bytes.now place size cell → (size ≡ found.1) × (cell ≡ cell_of bytes.now found.0)) }
    ensures none { IfNone result ((size : ℕ) (cell : Cell) → kind_of cell ≡ kind → ¬ (IsAt bytes.now place size cell)) }
{
    match kind {
        Kind::Leaf => leaf_at(bytes, place),
        Kind::Interior => inner_at(bytes, place),
    }
}

/// Whether a rowid is greater than the last one, if there is one.
pub(crate) fn is_above(last: Option<i64>, rowid: i64) -> bool
    ensures yes { result ≡ true → IsAbove last rowid }
    ensures no { result ≡ false → IsAbove last rowid → ⊥ }
{
    match last {
        Some(last) => last < rowid,
        None => true,
    }
}

/// The cell of a leaf at a place, and how many bytes spell it.
fn leaf_at(bytes: &[u8], place: usize) -> Option<(Found, usize)>
    requires least { 480 ≤ length bytes.now }
    requires most { length bytes.now ≤ 65536 }
    requires within { place ≤ length bytes.now }
    ensures found { IfSome result (λ found. IsFound bytes.now Kind.Leaf found.0) }
    ensures stands { IfSome result (λ found. IsAt bytes.now place found.1 (cell_of bytes.now found.0)) }
    ensures only { IfSome result (λ found. (size : ℕ) (cell : LeafCell) → IsAt bytes.now place size (leaf cell) → (size ≡ found.1) × (leaf cell ≡ cell_of bytes.now found.0)) }
    ensures none { IfNone result ((size : ℕ) (cell : LeafCell) → ¬ (IsAt bytes.now place size (leaf cell))) }
{
    let rest = &bytes[place..];
    let Some((value, length_size)) = varint_at(rest) else {
        return None;
    };
    let behind = &rest[length_size..];
    let Some((rowid, rowid_size)) = varint_at(behind) else {
        return None;
    };
    let tail = &behind[rowid_size..];
    let payload_len = value.cast_unsigned();
    let size = local_size(bytes.len() as u32, payload_len) as usize;
    let Some((overflow, overflow_size)) = overflow_at(tail, size, payload_len) else {
        return None;
    };
    let front = length_size + rowid_size;
    let spot = LeafSpot {
        rowid,
        payload_len,
        overflow,
        place: (place + front) as u32,
        size: size as u32,
    };
    Some((Found::Leaf(spot), front + size + overflow_size))
}

/// The varint at the front, and how many bytes it has.
fn varint_at(bytes: &[u8]) -> Option<(i64, usize)>
    ensures found { IfSome result (λ found. ReadsVarint bytes.now found.1 found.0) }
    ensures none { IfNone result (ReadsNone bytes.now) }
{
    // That the front has no other is a law of varints.
    one_varint();
    read_varint(bytes)
}

/// The number of the overflow page behind `size` bytes of a payload, and how many bytes it has there: none where
/// these are all of the payload. `None` where the bytes end before.
fn overflow_at(bytes: &[u8], size: usize, payload_len: u64) -> Option<(u32, usize)>
    requires { size ≤ 65536 }
    ensures found { IfSome result (λ found. HasOverflow bytes.now size payload_len found.0 found.1) }
    ensures none { IfNone result ((over over_size : ℕ) → ¬ (HasOverflow bytes.now size payload_len over over_size)) }
{
    if payload_len <= size as u64 {
        return if bytes.len() < size {
            None
        } else {
            Some((0, 0))
        };
    }
    if bytes.len() < size + 4 {
        return None;
    }
    Some((BigEndian::read_u32(&bytes[size..]), 4))
}

/// The cell of an interior page at a place, and how many bytes spell it.
fn inner_at(bytes: &[u8], place: usize) -> Option<(Found, usize)>
    requires { place ≤ length bytes.now }
    ensures found { IfSome result (λ found. IsFound bytes.now Kind.Interior found.0) }
    ensures stands { IfSome result (λ found. IsAt bytes.now place found.1 (cell_of bytes.now found.0)) }
    ensures only { IfSome result (λ found. (size : ℕ) (cell : InnerCell) → IsAt bytes.now place size (inner cell) → (size ≡ found.1) × (inner cell ≡ cell_of bytes.now found.0)) }
    ensures none { IfNone result ((size : ℕ) (cell : InnerCell) → ¬ (IsAt bytes.now place size (inner cell))) }
{
    let rest = &bytes[place..];
    if rest.len() < 4 {
        return None;
    }
    let child = BigEndian::read_u32(rest);
    let Some((rowid, size)) = varint_at(&rest[4..]) else {
        return None;
    };
    Some((Found::Inner(InnerCell { child, rowid }), 4 + size))
}

/// Goes through the freeblocks, and marks what they take. `false` where one is malformed or overlaps.
fn mark_free(bytes: &[u8], head: Head, marks: &mut [bool]) -> bool
    requires size { length marks.old ≡ length bytes.now }
    requires small { head.free < 65536 }
    ensures sound { result ≡ true → (free : List Extent) × AreFreeblocks bytes.now head.content 0 head.free free × AreClear marks.old free }
    ensures broken { result ≡ false → (free : List Extent) → AreFreeblocks bytes.now head.content 0 head.free free → ¬ (AreClear marks.old free) }
{
    let mut last = 0;
    let mut place = head.free;
    while place != 0 {
        if !mark_block(bytes, head.content, last, place, marks) {
            return false;
        }
        last = place;
        place = short_at(bytes, place);
    }
    true
}

/// Marks what the freeblock at a place takes. `false` where it is malformed or overlaps.
fn mark_block(bytes: &[u8], content: usize, last: usize, place: usize, marks: &mut [bool]) -> bool
    requires size { length marks.old ≡ length bytes.now }
    requires small { place < 65536 }
    ensures within { result ≡ true → place + 2 ≤ length bytes.now }
    ensures rises { result ≡ true → last < place }
    ensures stands { result ≡ true → IsFreeblock bytes.now content last place (record { place = place; size = number_at 2 bytes.now (place + 2) }) }
    ensures clear { result ≡ true → IsClear marks.old (record { place = place; size = number_at 2 bytes.now (place + 2) }) }
    ensures marked { result ≡ true → Marks marks.old marks.new (record { place = place; size = number_at 2 bytes.now (place + 2) }) }
    ensures broken { result ≡ false → (block : Extent) → IsFreeblock bytes.now content last place block → ¬ (IsClear marks.old block) }
{
    if place <= last || place < content || place + 4 > bytes.len() {
        return false;
    }
    let size = short_at(bytes, place + 2);
    if size < LEAST_EXTENT || bytes.len() - place < size {
        return false;
    }
    mark(marks, place, size)
}

/// The cells that were found, each with its local part in memory of its own.
fn owned(alloc: Global, bytes: &[u8], head: Head, found: &[Found]) -> Result<PageCells, AllocError>
    requires { All (IsFound bytes.now head.kind) found.now }
    ensures { IfOk result (λ cells. Owns bytes.now head found.now cells) }
{
    match head.kind {
        Kind::Leaf => {
            let cells = leaves(alloc, bytes, found)?;
            Ok(PageCells::Leaf(cells))
        }
        Kind::Interior => {
            let right = head.right;
            let cells = inners(alloc, found)?;
            Ok(PageCells::Interior { cells, right })
        }
    }
}

/// The cells of a leaf.
fn leaves(alloc: Global, bytes: &[u8], found: &[Found]) -> Result<LeafCells, AllocError>
    requires { All (IsFound bytes.now Kind.Leaf) found.now }
    ensures { IfOk result (λ cells. map leaf cells ≡ map (cell_of bytes.now) found.now) }
{
    let mut cells = LeafCells::from_vec(Vec::with_capacity(alloc, found.len())?);
    for one in found {
        let Found::Leaf(spot) = one else {
            unreachable!()
        };
        cells.push(leaf_of(alloc, bytes, spot)?)?;
    }
    Ok(cells)
}

/// The cell of a leaf, with its local part in memory of its own.
fn leaf_of(alloc: Global, bytes: &[u8], spot: &LeafSpot) -> Result<LeafCell, AllocError>
    requires { spot.now.place + spot.now.size ≤ length bytes.now }
    ensures { IfOk result (λ cell. leaf cell ≡ cell_of bytes.now (Found.Leaf spot.now)) }
{
    let local = Bytes::copy_front(alloc, &bytes[spot.place as usize..], spot.size as usize)?;
    Ok(LeafCell {
        rowid: spot.rowid,
        payload_len: spot.payload_len,
        local,
        overflow: spot.overflow,
    })
}

/// The cells of an interior page.
fn inners(alloc: Global, found: &[Found]) -> Result<InnerCells, AllocError>
    requires { All (IsFound [] Kind.Interior) found.now }
    ensures { IfOk result (λ cells. (bytes : List ℕ) → map inner cells ≡ map (cell_of bytes) found.now) }
{
    let mut cells = InnerCells::from_vec(Vec::with_capacity(alloc, found.len())?);
    for one in found {
        let Found::Inner(cell) = one else {
            unreachable!()
        };
        cells.push(*cell)?;
    }
    Ok(cells)
}
