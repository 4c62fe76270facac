//! The next row from a rowid on.

ghost use Rattle.std.specs.Prelude.{◌≡◌, ◌≤◌, ◌≤ℤ◌, ℕ, length, IsTrue, IfOk, IfErr, OnOk, IfSome, Some, None, option_map};
ghost use Rattle.page_pool.specs.Space.{IsReady, HasSizes, Steady, Stays};
ghost use Rattle.tree_model.specs.Tree.{Tree, rows_of};
ghost use Rattle.tree_model.specs.Whole.{IsWholeTree};
ghost use Rattle.tree_model.specs.declared.ends.Next.TheVariants.{Meets};
ghost use Rattle.tree_model.specs.Walk.{all_children, children_from, first_from, in_leaf};
ghost use Rattle.tree_model.specs.Laws.{first_row, shown};
ghost use Rattle.tree_search.specs.Search.{NextIs, NextMeets, NextOnLeaf, shown_of, SearchRefused, IsNoDamage};
ghost use Rattle.tree_search.specs.Steps.{from_of, next_of, IsKept, HasSought, HasFirst, GoesOn, AreEmpty};

use crate::page::{MOST_DEPTH, enter, page_buffer};
use crate::path::place_from;
use crate::payload::{first_from, payload_of};
use crate::row::OnLeaf;
use byte_base::Bytes;
use page_pool::{PageSpace, SpaceFault};
use std::alloc::Global;
use std::collections::BTreeSet;
use tree_model::{next_gives, one_next};
use tree_page::{InnerCell, LeafCell, LeafCells, PageCells};

/// A cell that a search found.
#[derive(Debug, Drop)]
pub(crate) struct Place {
    /// The leaf that it is on.
    pub leaf: u32,
    /// The cell.
    pub cell: LeafCell,
}

/// What a search for the next row needs on its way.
#[derive(Drop)]
pub(crate) struct Search {
    alloc: Global,
    /// The rowid from which on a row is looked for.
    key: i64,
    /// A buffer of one page.
    buffer: Vec<u8>,
    /// Pages that were searched whole and have no row from the key on, each with how many more pages a path could go over
    /// there. On pages that loop, or are named many times, a search would go over them again and again.
    empty: BTreeSet<(u32, u32)>,
}

/// The first row with a rowid of at least `from` in the tree from page `root`, its rowid and its payload.
///
/// Refused as `next_on_leaf` is.
pub fn next_from<S: PageSpace>(
    alloc: Global,
    space: &mut S,
    root: u32,
    from: i64,
) -> Result<Option<(i64, Bytes)>, SpaceFault>
    requires ready { IsReady (S.state space.old) }
    requires some { 1 ≤ (S.state space.old).pages.size }
    ensures steady { Steady (S.state space.old) (S.state space.new) }
    ensures stays { Stays (S.state space.old) (S.state space.new) }
    ensures found { IsTrue (S.state space.old).tells → IfOk result (NextIs (S.state space.old).pages root from) }
    ensures whole { IsTrue (S.state space.old).tells → IfOk result
        (λ next. (tree : Tree) → IsWholeTree (S.state space.old).pages root tree → next ≡ option_map shown (first_row from (rows_of tree))) }
    ensures refused { IfErr result (SearchRefused (S.state space.old) (S.state space.new) (NextMeets (S.state space.old).pages root from)) }
    ensures clean { IsTrue (S.state space.old).tells → IfErr result (λ fault. (tree : Tree) → IsWholeTree (S.state space.old).pages root tree → IsNoDamage fault) }
{
    one_next();
    next_gives();
    let row = next_on_leaf(alloc, space, root, from)?;
    Ok(shown_in(row))
}

/// What a row has without the place where it was found.
fn shown_in(row: Option<OnLeaf>) -> Option<(i64, Bytes)>
    ensures { result ≡ option_map shown_of row }
{
    match row {
        Some(row) => Some((row.rowid, row.payload)),
        None => None,
    }
}

/// The same with the leaf that it is on.
///
/// Refused as `get` is, with `Bad` and `Corrupt` of the first page that cannot be gone over on the way, in the leaf where
/// `from` would be and in those after it, or where the chain of the row cannot be read. Where the root, or the first page of
/// the chain, is out of range, `Corrupt` names the root itself, or the leaf.
pub fn next_on_leaf<S: PageSpace>(
    alloc: Global,
    space: &mut S,
    root: u32,
    from: i64,
) -> Result<Option<OnLeaf>, SpaceFault>
    requires ready { IsReady (S.state space.old) }
    requires some { 1 ≤ (S.state space.old).pages.size }
    ensures steady { Steady (S.state space.old) (S.state space.new) }
    ensures stays { Stays (S.state space.old) (S.state space.new) }
    ensures found { IsTrue (S.state space.old).tells → IfOk result (NextOnLeaf (S.state space.old).pages root from) }
    ensures onward { IfOk result (λ found. IfSome found (λ row. from ≤ℤ row.rowid)) }
    ensures refused { IfErr result (SearchRefused (S.state space.old) (S.state space.new) (NextMeets (S.state space.old).pages root from)) }
{
    let mut search = Search {
        alloc,
        key: from,
        buffer: page_buffer(alloc, space)?,
        empty: BTreeSet::new(alloc),
    };
    let Some(Place { leaf, cell }) = seek(space, &mut search, MOST_DEPTH, root, Some(from), root)?
    else {
        return Ok(None);
    };
    let rowid = cell.rowid;
    let payload = payload_of(alloc, space, leaf, cell)?;
    Ok(Some(OnLeaf {
        leaf,
        rowid,
        payload,
    }))
}

/// The first cell from the key on, from page `page` on, whose number stands on page `above`, over at most `left` more pages:
/// in the leaf on the path of `from`, then in the leaves after it. `None` is before all rowids.
#[cycle(seek)]
fn seek<S: PageSpace>(
    space: &mut S,
    search: &mut Search,
    left: u32,
    above: u32,
    from: Option<i64>,
    page: u32,
) -> Result<Option<Place>, SpaceFault>
    requires ready { IsReady (S.state space.old) }
    requires sizes { HasSizes (S.state space.old) }
    requires one_page { length search.old.buffer.items ≡ (S.state space.old).page_size }
    requires empty { IsTrue (S.state space.old).tells → AreEmpty (S.state space.old).pages search.old.key search.old.empty }
    ensures steady { Steady (S.state space.old) (S.state space.new) }
    ensures stays { Stays (S.state space.old) (S.state space.new) }
    ensures search { GoesOn search.old search.new }
    ensures empty { IsTrue (S.state space.old).tells → OnOk result (AreEmpty (S.state space.old).pages search.old.key search.new.empty) }
    ensures kept { IfOk result (λ found. IfSome found (λ place. IsKept place.cell)) }
    ensures onward { IfOk result (λ found. IfSome found (λ place. search.old.key ≤ℤ place.cell.rowid)) }
    ensures found { IsTrue (S.state space.old).tells → IfOk result (λ found. HasSought left (S.state space.old).pages search.old.key above (from_of from) page (next_of found)) }
    ensures refused { IfErr result (SearchRefused (S.state space.old) (S.state space.new)
        (λ fault. HasSought left (S.state space.old).pages search.old.key above (from_of from) page (Meets fault))) }
{
    if from.is_some() {
        return seek_page(space, search, left, above, from, page);
    }
    if search.empty.contains(&(left, page)) {
        return Ok(None);
    }
    let found = seek_page(space, search, left, above, None, page)?;
    if found.is_some() {
        return Ok(found);
    }
    search.empty.insert((left, page))?;
    Ok(None)
}

/// The same, whether the page was searched before or not.
#[cycle(seek)]
fn seek_page<S: PageSpace>(
    space: &mut S,
    search: &mut Search,
    left: u32,
    above: u32,
    from: Option<i64>,
    page: u32,
) -> Result<Option<Place>, SpaceFault>
    requires ready { IsReady (S.state space.old) }
    requires one_page { length search.old.buffer.items ≡ (S.state space.old).page_size }
    requires empty { IsTrue (S.state space.old).tells → AreEmpty (S.state space.old).pages search.old.key search.old.empty }
    ensures steady { Steady (S.state space.old) (S.state space.new) }
    ensures stays { Stays (S.state space.old) (S.state space.new) }
    ensures search { GoesOn search.old search.new }
    ensures empty { IsTrue (S.state space.old).tells → OnOk result (AreEmpty (S.state space.old).pages search.old.key search.new.empty) }
    ensures kept { IfOk result (λ found. IfSome found (λ place. IsKept place.cell)) }
    ensures onward { IfOk result (λ found. IfSome found (λ place. search.old.key ≤ℤ place.cell.rowid)) }
    ensures found { IsTrue (S.state space.old).tells → IfOk result (λ found. HasSought left (S.state space.old).pages search.old.key above (from_of from) page (next_of found)) }
    ensures refused { IfErr result (SearchRefused (S.state space.old) (S.state space.new)
        (λ fault. HasSought left (S.state space.old).pages search.old.key above (from_of from) page (Meets fault))) }
{
    match enter(search.alloc, space, &mut search.buffer, left, above, page)? {
        PageCells::Leaf(cells) => Ok(in_leaf(page, search.key, cells)),
        PageCells::Interior { cells, right } => {
            first_of(space, search, left - 1, page, from, cells.as_slice(), right)
        }
    }
}

/// The first cell from a key on in a leaf.
fn in_leaf(leaf: u32, key: i64, cells: LeafCells) -> Option<Place>
    ensures is { next_of result ≡ in_leaf leaf (first_from key cells) }
    ensures cell { IfSome result (λ place. first_from key cells ≡ Some place.cell) }
    ensures onward { IfSome result (λ place. key ≤ℤ place.cell.rowid) }
{
    let Some(cell) = first_from(key, cells) else {
        return None;
    };
    Some(Place { leaf, cell })
}

/// The first cell from the key on below the children of an interior page that `from` does not pass over: the first of them
/// is searched from `from` on, the others whole.
#[cycle(seek)]
fn first_of<S: PageSpace>(
    space: &mut S,
    search: &mut Search,
    left: u32,
    page: u32,
    from: Option<i64>,
    cells: &[InnerCell],
    right: u32,
) -> Result<Option<Place>, SpaceFault>
    requires ready { IsReady (S.state space.old) }
    requires sizes { HasSizes (S.state space.old) }
    requires one_page { length search.old.buffer.items ≡ (S.state space.old).page_size }
    requires empty { IsTrue (S.state space.old).tells → AreEmpty (S.state space.old).pages search.old.key search.old.empty }
    ensures steady { Steady (S.state space.old) (S.state space.new) }
    ensures stays { Stays (S.state space.old) (S.state space.new) }
    ensures search { GoesOn search.old search.new }
    ensures empty { IsTrue (S.state space.old).tells → OnOk result (AreEmpty (S.state space.old).pages search.old.key search.new.empty) }
    ensures kept { IfOk result (λ found. IfSome found (λ place. IsKept place.cell)) }
    ensures onward { IfOk result (λ found. IfSome found (λ place. search.old.key ≤ℤ place.cell.rowid)) }
    ensures found { IsTrue (S.state space.old).tells → IfOk result
        (λ found. HasFirst left (S.state space.old).pages search.old.key page (from_of from) (children_from (from_of from) cells.now right) (next_of found)) }
    ensures refused { IfErr result (SearchRefused (S.state space.old) (S.state space.new)
        (λ fault. HasFirst left (S.state space.old).pages search.old.key page (from_of from) (children_from (from_of from) cells.now right) (Meets fault))) }
{
    let mut start = from;
    for cell in cells_from(from, cells) {
        let found = seek(space, search, left, page, start, cell.child)?;
        if found.is_some() {
            return Ok(found);
        }
        start = None;
    }
    seek(space, search, left, page, start, right)
}

/// The cells from the first on whose key is at least this one.
fn cells_from(from: Option<i64>, cells: &[InnerCell]) -> &[InnerCell]
    ensures { (right : ℕ) → children_from (from_of from) cells.now right ≡ all_children result.now right }
{
    &cells[place_from(from, cells)..]
}
