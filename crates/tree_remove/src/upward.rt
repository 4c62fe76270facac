//! From the leaf up to the root.

ghost use Rattle.std.specs.Prelude.{◌≡◌, ◌+◌, ◌*◌, ◌≤◌, [], ◌∷◌, ◌++◌, length, None, IfOk, IfErr, OnOk};
ghost use Rattle.std.specs.List.{AllByRecursion};
ghost use Rattle.page_list.specs.Pages.{HasPage};
ghost use Rattle.page_pool.specs.Space.{IsReady, IsWritable, Steady};
ghost use Rattle.page_pool.specs.Pool.{NotesChange};
ghost use Rattle.payload_chain.specs.Chains.{StopsTaking};
ghost use Rattle.tree_page.specs.Written.{Fits};
ghost use Rattle.tree_plan.specs.Climb.{on};
ghost use Rattle.tree_write.specs.Climb.{MayClimb, IsPlanOf, Climbed, spare};
ghost use Rattle.tree_search.specs.Search.{IsStep};
ghost use Rattle.tree_join.specs.Join.{listed};
ghost use Rattle.tree_remove.specs.Shrink.{IsLeftPlan, ShrunkTo, ShrinkRefused};
ghost use Rattle.tree_remove.specs.Steps.{IsOneChild, IsLeftOfLeaf, ClimbedOn, most_taken, root_sheets};

use crate::beside::{Risen, rise};
use page_cut::{Sheet, Sheets};
use page_pool::{PageSpace, SpaceFault};
use std::alloc::{AllocError, Global};
use tree_join::Left;
use tree_model::Level;
use tree_page::{LeafCells, PageCells};
use tree_write::climb;

/// What a removal does to the pages, but for the chain of its row.
#[derive(Debug, Drop)]
pub(crate) struct Shrunk {
    /// What is to be written.
    pub(crate) out: Vec<Sheet>,
    /// The pages that are to be given back.
    pub(crate) lost: Vec<u32>,
    /// The one child that the root has left.
    pub(crate) over: Option<u32>,
}

/// What is to be written and given back where this is left of a page below these levels, and the one child that the root has
/// left, if it has one. `levels` are the interior pages from the root down to the one above the page.
///
/// Pages beside those of the way are read, and then pages are taken where the page above two that were joined overflows, fewer than
/// there are levels. Nothing is written but what the takes write. Refused as going over a page beside is, before any change, or as
/// `take_page` is.
pub(crate) fn shrink<S: PageSpace>(
    alloc: Global,
    space: &mut S,
    levels: Vec<Level>,
    number: u32,
    left: Left,
) -> Result<Shrunk, SpaceFault>
    requires writable { IsWritable (S.state space.old) }
    requires some { 1 ≤ (S.state space.old).pages.size }
    requires there { HasPage (S.state space.old).pages number }
    requires each { AllByRecursion (IsStep (S.state space.old).pages.size (S.state space.old).pages.usable) levels.items }
    requires planned { IsLeftPlan number (S.state space.old).pages.usable left }
    requires leaf { IsLeftOfLeaf left }
    ensures steady { Steady (S.state space.old) (S.state space.new) }
    ensures shrunk { IfOk result (ShrunkTo (S.state space.old) (S.state space.new) number left levels.items) }
    ensures refused { IfErr result (ShrinkRefused (S.state space.old) (S.state space.new) levels.items) }
    ensures noted { NotesChange (S.state space.old) (S.state space.new) }
{
    let _pages = space.size();
    let mut levels = levels;
    let mut number = number;
    let mut left = left;
    let mut shrunk = nothing_yet(alloc);
    loop {
        let child = match one_child(left) {
            Ok(child) => child,
            Err(sheets) => return climb_on(alloc, space, levels, number, sheets, shrunk),
        };
        let Some(level) = levels.pop() else {
            return Ok(at_root(alloc, number, child, shrunk)?);
        };
        let above = level.number;
        let Risen { sheets, lost, next } = rise(alloc, space, number, child, level)?;
        put_behind(&mut shrunk, sheets, lost)?;
        let Some(next) = next else {
            return Ok(shrunk);
        };
        number = above;
        left = next;
    }
}

/// Nothing to be done so far.
fn nothing_yet(alloc: Global) -> Shrunk
    ensures out { result.out.items ≡ [] }
    ensures lost { result.lost.items ≡ [] }
    ensures over { result.over ≡ None }
{
    Shrunk {
        out: Vec::new(alloc),
        lost: Vec::new(alloc),
        over: None,
    }
}

/// The one child that is left, if there is one, or the parts.
fn one_child(left: Left) -> Result<Option<u32>, Sheets>
    ensures { IsOneChild left result }
{
    match left {
        Left::Parts(sheets) => Err(sheets),
        Left::Over(child) => Ok(Some(child)),
        Left::Nothing => Ok(None),
    }
}

/// Puts behind it what becomes of one page.
fn put_behind(shrunk: &mut Shrunk, sheets: Vec<Sheet>, lost: Option<u32>) -> Result<(), AllocError>
    ensures out { OnOk result (shrunk.new.out.items ≡ shrunk.old.out.items ++ sheets.items) }
    ensures lost { OnOk result (shrunk.new.lost.items ≡ shrunk.old.lost.items ++ listed lost) }
    ensures over { shrunk.new.over ≡ shrunk.old.over }
{
    let mut sheets = sheets;
    shrunk.out.append(&mut sheets)?;
    if let Some(page) = lost {
        shrunk.lost.push(page)?;
    }
    Ok(())
}

/// Puts behind it what a page with these parts and the pages above it are to hold. Where it has one part no page is taken, and those
/// above stay as they are.
fn climb_on<S: PageSpace>(
    alloc: Global,
    space: &mut S,
    levels: Vec<Level>,
    number: u32,
    sheets: Sheets,
    shrunk: Shrunk,
) -> Result<Shrunk, SpaceFault>
    requires writable { IsWritable (S.state space.old) }
    requires some { 1 ≤ (S.state space.old).pages.size }
    requires each { AllByRecursion (MayClimb (S.state space.old).pages.usable) levels.items }
    requires plan { IsPlanOf number (S.state space.old).pages.usable sheets }
    requires fits { sheets.front.items ≡ [] → Fits sheets.last number (S.state space.old).pages.usable }
    ensures steady { Steady (S.state space.old) (S.state space.new) }
    ensures climbed { IfOk result (ClimbedOn (S.state space.old) (S.state space.new) number sheets levels.items shrunk) }
    ensures refused { IfErr result (λ fault. StopsTaking (S.state space.old) (S.state space.new) (most_taken (length sheets.front.items) (length levels.items) + 2 * spare fault) fault) }
    ensures noted { NotesChange (S.state space.old) (S.state space.new) }
{
    let _pages = space.size();
    if sheets.front.is_empty() {
        let Sheets { last, .. } = sheets;
        return Ok(stay_on(number, last, shrunk)?);
    }
    let mut shrunk = shrunk;
    let mut more = climb(alloc, space, levels, number, sheets)?;
    shrunk.out.append(&mut more)?;
    Ok(shrunk)
}

/// Puts behind it what stays on a page.
fn stay_on(number: u32, cells: PageCells, shrunk: Shrunk) -> Result<Shrunk, AllocError>
    ensures out { IfOk result (λ all. all.out.items ≡ shrunk.out.items ++ on number cells ∷ []) }
    ensures lost { IfOk result (λ all. all.lost.items ≡ shrunk.lost.items) }
    ensures over { IfOk result (λ all. all.over ≡ shrunk.over) }
{
    let mut shrunk = shrunk;
    shrunk.out.push(Sheet {
        number,
        cells,
        key: 0,
    })?;
    Ok(shrunk)
}

/// The root: with no child left it is a leaf without a row; one child is to be taken over.
fn at_root(
    alloc: Global,
    number: u32,
    child: Option<u32>,
    shrunk: Shrunk,
) -> Result<Shrunk, AllocError>
    ensures out { IfOk result (λ all. all.out.items ≡ shrunk.out.items ++ root_sheets number child) }
    ensures lost { IfOk result (λ all. all.lost.items ≡ shrunk.lost.items) }
    ensures over { IfOk result (λ all. all.over ≡ child) }
{
    let mut shrunk = shrunk;
    shrunk.over = child;
    if child.is_some() {
        return Ok(shrunk);
    }
    shrunk.out.push(Sheet {
        number,
        cells: PageCells::Leaf(LeafCells::from_vec(Vec::new(alloc))),
        key: 0,
    })?;
    Ok(shrunk)
}
