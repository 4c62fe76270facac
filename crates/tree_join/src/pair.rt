//! The page that the way took, joined with the page beside it.

ghost use Rattle.std.specs.Prelude.{◌≡◌, suc, ◌*◌, ◌-◌, ◌≤◌, ◌<◌, [], ◌∷◌, ◌++◌, length, map, take, drop, IfOk};
ghost use Rattle.tree_page.specs.Page.{inner};
ghost use Rattle.tree_page.specs.Written.{Fits, space_of};
ghost use Rattle.tree_page.specs.declared.cell.PageCells.TheVariants.{Interior};
ghost use Rattle.tree_join.specs.Join.{pair_at, right_page, sibling_of, joined_cells, joined_right, joined_lost, listed, IsOnLeft, IsJoinResult};
ghost use Rattle.tree_join.specs.Steps.{IsCutRising, IsLeftAbove, IsPlanAbove};
ghost use Rattle.tree_level.specs.Level.{up_cells};
ghost use Rattle.tree_plan.specs.Climb.{on};
ghost use Rattle.tree_plan.specs.Law.{AreNumbered};

use crate::level::{Inner, Left, child_at};
use crate::rise::rises;
use page_cut::{Sheet, Sheets, cut};
use std::alloc::{AllocError, Global};
use tree_model::Level;
use tree_page::{InnerCell, InnerCells, PageCells};
use tree_plan::number_sheets;

/// Two pages beside each other, joined.
#[derive(Debug, Drop)]
pub struct JoinPlan {
    /// What is written: the parts of their cells, on their pages.
    pub sheets: Vec<Sheet>,
    /// The left page, where the right one holds all.
    pub lost: Option<u32>,
    /// What is left of the page above.
    pub left: Left,
}

/// The parts before the last one, on the left page, or that page, where there are none.
#[derive(Drop)]
struct OnLeft {
    front: Vec<Sheet>,
    lost: Option<u32>,
}

/// The children of two pages beside each other on one page, the right one of the two, or in two parts, the first of which is
/// on the left one; and what is left of the page above them. `child` is the one that is left of the page that the way took;
/// `cells` and `right` are those of the page beside it.
///
/// `None` in damaged pages: where the keys of the joined pages, or those of the page above then, do not rise.
pub fn join(
    alloc: Global,
    level: Level,
    child: u32,
    cells: InnerCells,
    right: u32,
    usable: u32,
) -> Result<Option<JoinPlan>, AllocError>
    requires least { 480 ≤ usable }
    requires most { usable ≤ 65536 }
    requires number { 1 ≤ level.number }
    requires page { Fits (Interior level.cells level.right) level.number usable }
    requires at { level.at ≤ length level.cells }
    requires some { 1 ≤ length level.cells }
    requires right_page { 1 ≤ right_page level }
    requires beside { Fits (Interior cells right) (sibling_of level) usable }
    ensures { IfOk result (IsJoinResult usable level child cells right) }
{
    let left_page = child_at(&level, pair_at(&level));
    let right_page = child_at(&level, pair_at(&level) + 1);
    let joined = joined(&level, child, cells, right)?;
    let Some(sheets) = cut_rising(alloc, joined, right_page, usable)? else {
        return Ok(None);
    };
    plan_above(alloc, level, sheets, left_page, right_page, usable)
}

/// Two joined pages, once their cells are cut: the parts get their pages, and the page above is planned.
fn plan_above(
    alloc: Global,
    level: Level,
    sheets: Sheets,
    left_page: u32,
    right_page: u32,
    usable: u32,
) -> Result<Option<JoinPlan>, AllocError>
    requires least { 480 ≤ usable }
    requires most { usable ≤ 65536 }
    requires number { 1 ≤ level.number }
    requires page { Fits (Interior level.cells level.right) level.number usable }
    requires at { level.at ≤ length level.cells }
    requires some { 1 ≤ length level.cells }
    requires few { length sheets.front.items ≤ 1 }
    ensures { IfOk result (IsPlanAbove usable level left_page right_page sheets) }
{
    let Sheets { front, last } = sheets;
    let OnLeft { front, lost } = put_on_left(front, left_page);
    let Some(left) = left_above(alloc, level, front.as_slice(), usable)? else {
        return Ok(None);
    };
    let sheets = with_last(front, right_page, last)?;
    Ok(Some(JoinPlan { sheets, lost, left }))
}

/// The parts with the last one behind them, on the right page.
fn with_last(front: Vec<Sheet>, right_page: u32, last: PageCells) -> Result<Vec<Sheet>, AllocError>
    ensures { IfOk result (λ all. all.items ≡ front.items ++ on right_page last ∷ []) }
{
    let mut all = front;
    all.push(Sheet {
        number: right_page,
        cells: last,
        key: 0,
    })?;
    Ok(all)
}

/// The place of the left one of the two pages among the children.
fn pair_at(level: &Level) -> usize
    requires { 1 ≤ length level.now.cells }
    ensures within { result < length level.now.cells }
    ensures is { result ≡ pair_at level.now }
{
    let len = level.cells.as_slice().len();
    if level.at < len {
        return level.at;
    }
    len - 1
}

/// The children of both pages, in order, with the key between them.
fn joined(level: &Level, child: u32, cells: InnerCells, right: u32) -> Result<Inner, AllocError>
    requires some { 1 ≤ length level.now.cells }
    ensures cells { IfOk result (λ page. page.cells ≡ joined_cells level.now child cells right) }
    ensures right { IfOk result (λ page. page.right ≡ joined_right level.now child right) }
{
    let above = level.cells.as_slice();
    let key = above[pair_at(level)].rowid;
    let mut items = cells.into_vec();
    if level.at < above.len() {
        items.insert(0, InnerCell { child, rowid: key })?;
        return Ok(Inner {
            cells: InnerCells::from_vec(items),
            right,
        });
    }
    items.push(InnerCell {
        child: right,
        rowid: key,
    })?;
    Ok(Inner {
        cells: InnerCells::from_vec(items),
        right: child,
    })
}

/// The cells of an interior page, cut, where their keys rise.
fn cut_rising(
    alloc: Global,
    page: Inner,
    number: u32,
    usable: u32,
) -> Result<Option<Sheets>, AllocError>
    requires least { 480 ≤ usable }
    requires most { usable ≤ 65536 }
    requires number { 1 ≤ number }
    requires some { 1 ≤ length page.cells }
    requires room { space_of (map inner page.cells) ≤ 2 * (usable - 12) }
    ensures { IfOk result (IsCutRising number usable page.cells page.right) }
{
    let Inner { cells, right } = page;
    if !rises(cells.as_slice()) {
        return Ok(None);
    }
    let sheets = cut(alloc, PageCells::Interior { cells, right }, number, usable)?;
    Ok(Some(sheets))
}

/// Puts the first part, if there is one, on the left page, and answers that page where there is none.
fn put_on_left(front: Vec<Sheet>, left_page: u32) -> OnLeft
    requires { length front.items ≤ 1 }
    ensures numbered { AreNumbered front.items result.front.items }
    ensures on_left { IsOnLeft left_page result.front.items }
    ensures lost { listed result.lost ≡ joined_lost left_page result.front.items }
{
    let mut front = front;
    if front.is_empty() {
        return OnLeft {
            front,
            lost: Some(left_page),
        };
    }
    number_sheets(front.as_mut_slice(), &[left_page]);
    OnLeft { front, lost: None }
}

/// What is left of the page above: the cell of the left page has the key between the parts, or goes where all is on the
/// right page.
fn left_above(
    alloc: Global,
    level: Level,
    front: &[Sheet],
    usable: u32,
) -> Result<Option<Left>, AllocError>
    requires least { 480 ≤ usable }
    requires most { usable ≤ 65536 }
    requires number { 1 ≤ level.number }
    requires page { Fits (Interior level.cells level.right) level.number usable }
    requires at { level.at ≤ length level.cells }
    requires some { 1 ≤ length level.cells }
    requires few { length front.now ≤ 1 }
    ensures { IfOk result (IsLeftAbove usable level front.now) }
{
    let pair = pair_at(&level);
    let Level {
        number,
        cells,
        right,
        ..
    } = level;
    let cells = paired(cells, pair, front);
    if cells.as_slice().is_empty() {
        return Ok(Some(Left::Over(right)));
    }
    let Some(sheets) = cut_rising(alloc, Inner { cells, right }, number, usable)? else {
        return Ok(None);
    };
    Ok(Some(Left::Parts(sheets)))
}

/// The cells of a page with that of the first part, if there is one, in place of the one at a place.
fn paired(cells: InnerCells, pair: usize, front: &[Sheet]) -> InnerCells
    requires pair { pair < length cells }
    requires few { length front.now ≤ 1 }
    ensures { result ≡ take pair cells ++ (up_cells front.now ++ drop (suc pair) cells) }
{
    let mut items = cells.into_vec();
    if front.is_empty() {
        items.remove(pair);
        return InnerCells::from_vec(items);
    }
    items[pair] = InnerCell {
        child: front[0].number,
        rowid: front[0].key,
    };
    InnerCells::from_vec(items)
}
