//! One page of the way that keeps one child or none, and the page above it.

ghost use Rattle.std.specs.Prelude.{◌≡◌, ◌≤◌, [], length, Some, IsTrue, IfOk, IfErr, IfSome};
ghost use Rattle.page_list.specs.Pages.{HasPage};
ghost use Rattle.page_pool.specs.Space.{IsReady, Steady, Stays};
ghost use Rattle.tree_page.specs.Written.{Fits};
ghost use Rattle.tree_page.specs.declared.cell.PageCells.TheVariants.{Interior};
ghost use Rattle.tree_model.specs.Held.{HasCells};
ghost use Rattle.tree_model.specs.Walk.{IsFault};
ghost use Rattle.tree_plan.specs.Climb.{on};
ghost use Rattle.tree_search.specs.Search.{SearchRefused, IsStep};
ghost use Rattle.tree_join.specs.Join.{sibling_of};
ghost use Rattle.tree_remove.specs.Shrink.{IsLeftPlan};
ghost use Rattle.tree_remove.specs.Steps.{IsRise, IsJoinedWith, IsOneOfPair, HasFewParts, Goes, StaysAlone};

use page_cut::Sheet;
use page_pool::{PageSpace, SpaceFault};
use std::alloc::{AllocError, Global};
use tree_join::{JoinPlan, Left, join, leave_out, sibling, taken_child};
use tree_model::Level;
use tree_page::{InnerCells, PageCells};
use tree_search::{enter, page_buffer};

/// What becomes of a page and the page above it.
#[derive(Drop)]
pub(crate) struct Risen {
    /// What is to be written.
    pub(crate) sheets: Vec<Sheet>,
    /// The page that is to be given back.
    pub(crate) lost: Option<u32>,
    /// What is left of the page above; nothing where that stays as it is.
    pub(crate) next: Option<Left>,
}

/// What becomes of a page that has this child left, or none, and of the page above it. Nothing is left of the page above where in
/// damaged pages the page stays over its one child, and nothing above changes.
///
/// Refused as going over the page beside is.
pub(crate) fn rise<S: PageSpace>(
    alloc: Global,
    space: &mut S,
    number: u32,
    child: Option<u32>,
    level: Level,
) -> Result<Risen, SpaceFault>
    requires ready { IsReady (S.state space.old) }
    requires there { HasPage (S.state space.old).pages number }
    requires level { IsStep (S.state space.old).pages.size (S.state space.old).pages.usable level }
    ensures steady { Steady (S.state space.old) (S.state space.new) }
    ensures stays { Stays (S.state space.old) (S.state space.new) }
    ensures risen { IsTrue (S.state space.old).tells → IfOk result (IsRise (S.state space.old).pages number child level) }
    ensures lost { IfOk result (λ risen. IfSome risen.lost (HasPage (S.state space.old).pages)) }
    ensures planned { IfOk result (λ risen. IfSome risen.next (IsLeftPlan level.number (S.state space.old).pages.usable)) }
    ensures few { IfOk result (λ risen. IfSome risen.next (HasFewParts child)) }
    ensures refused { IfErr result (SearchRefused (S.state space.old) (S.state space.new) (IsFault (S.state space.old).pages 1 level.number (sibling_of level))) }
{
    let usable = space.usable();
    let Some(child) = child else {
        return Ok(goes(alloc, number, leave_out(alloc, level)));
    };
    let Some(beside) = sibling(&level) else {
        return Ok(goes(alloc, number, Left::Over(child)));
    };
    let cells = read_cells(alloc, space, level.number, beside)?;
    let risen = join_with(alloc, number, child, level, cells, usable)?;
    Ok(risen)
}

/// A page goes, and this is left of the page above it.
fn goes(alloc: Global, number: u32, left: Left) -> Risen
    ensures { Goes number left result }
{
    Risen {
        sheets: Vec::new(alloc),
        lost: Some(number),
        next: Some(left),
    }
}

/// The cells of a page of which the number stands on another.
///
/// Refused as going over it is.
pub(crate) fn read_cells<S: PageSpace>(
    alloc: Global,
    space: &mut S,
    above: u32,
    number: u32,
) -> Result<PageCells, SpaceFault>
    requires ready { IsReady (S.state space.old) }
    ensures steady { Steady (S.state space.old) (S.state space.new) }
    ensures stays { Stays (S.state space.old) (S.state space.new) }
    ensures there { IfOk result (λ _. HasPage (S.state space.old).pages number) }
    ensures fits { IfOk result (λ cells. Fits cells number (S.state space.old).pages.usable) }
    ensures found { IsTrue (S.state space.old).tells → IfOk result (HasCells (S.state space.old).pages number) }
    ensures refused { IfErr result (SearchRefused (S.state space.old) (S.state space.new) (IsFault (S.state space.old).pages 1 above number)) }
{
    let mut buffer = page_buffer(alloc, space)?;
    enter(alloc, space, &mut buffer, 1, above, number)
}

/// A page that has one child left, joined with the page beside it. In damaged pages it stays over that child: where it is not the
/// child that its way took, where the page beside is no interior page, or where the two cannot be joined.
fn join_with(
    alloc: Global,
    number: u32,
    child: u32,
    level: Level,
    cells: PageCells,
    usable: u32,
) -> Result<Risen, AllocError>
    requires least { 480 ≤ usable }
    requires most { usable ≤ 65536 }
    requires number { 1 ≤ number }
    requires above { 1 ≤ level.number }
    requires page { Fits (Interior level.cells level.right) level.number usable }
    requires at { level.at ≤ length level.cells }
    requires some { 1 ≤ length level.cells }
    requires sibling { 1 ≤ sibling_of level }
    requires beside { Fits cells (sibling_of level) usable }
    ensures joined { IfOk result (IsJoinedWith usable number child level cells) }
    ensures lost { IfOk result (λ risen. IfSome risen.lost (IsOneOfPair number level)) }
    ensures planned { IfOk result (λ risen. IfSome risen.next (IsLeftPlan level.number usable)) }
    ensures few { IfOk result (λ risen. IfSome risen.next (HasFewParts (Some child))) }
{
    let PageCells::Interior { cells, right } = cells else {
        return stays_alone(alloc, number, child);
    };
    if taken_child(&level) != number {
        return stays_alone(alloc, number, child);
    }
    let Some(plan) = join(alloc, level, child, cells, right, usable)? else {
        return stays_alone(alloc, number, child);
    };
    let JoinPlan { sheets, lost, left } = plan;
    Ok(Risen {
        sheets,
        lost,
        next: Some(left),
    })
}

/// A page stays over its one child, and nothing above changes.
fn stays_alone(alloc: Global, number: u32, child: u32) -> Result<Risen, AllocError>
    ensures { IfOk result (StaysAlone number child) }
{
    let mut sheets = Vec::new(alloc);
    sheets.push(alone(alloc, number, child))?;
    Ok(Risen {
        sheets,
        lost: None,
        next: None,
    })
}

/// The page over its one child, without a cell.
pub(crate) fn alone(alloc: Global, number: u32, child: u32) -> Sheet
    ensures { result ≡ on number (Interior [] child) }
{
    Sheet {
        number,
        cells: PageCells::Interior {
            cells: InnerCells::from_vec(Vec::new(alloc)),
            right: child,
        },
        key: 0,
    }
}
