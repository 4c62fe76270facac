//! One page of the path: its parts get pages, and the page above it is planned.

ghost use Rattle.std.specs.Prelude.{◌≡◌, ◌↔◌, ◌+◌, ◌-◌, ◌≤◌, ◌<◌, ◌<ℤ◌, [], ◌∷◌, ◌++◌, length, map, IsTrue, IfOk, IfErr, OnOk};
ghost use Rattle.page_pool.specs.Space.{IsWritable, Steady};
ghost use Rattle.page_pool.specs.Pool.{NotesChange};
ghost use Rattle.payload_chain.specs.Chains.{StopsTaking};
ghost use Rattle.tree_page.specs.Page.{inner, rowid_of, AreRising};
ghost use Rattle.tree_plan.specs.Climb.{on, Rises};
ghost use Rattle.tree_write.specs.Climb.{MayClimb, ClimbRefused};
ghost use Rattle.tree_write.specs.Steps.{key_at, EndsBelow, BeginsAbove, ArePlaced, IsNext, StepsUp};

use page_cut::{Sheet, Sheets};
use page_pool::{PageSpace, SpaceFault};
use payload_chain::take_pages;
use std::alloc::{AllocError, Global};
use tree_model::Level;
use tree_page::{InnerCell, PageCells};
use tree_plan::{number_sheets, plan_inner};

/// Takes pages for the parts of a page before its last one, puts all of them behind what is to be written, and plans
/// the page above it: none where no cell comes up, or where in damaged pages those that come up have no place there.
pub fn step_up<S: PageSpace>(
    alloc: Global,
    space: &mut S,
    number: u32,
    sheets: Sheets,
    level: Level,
    out: &mut Vec<Sheet>,
) -> Result<Option<Sheets>, SpaceFault>
    requires writable { IsWritable (S.state space.old) }
    requires some { 1 ≤ (S.state space.old).pages.size }
    requires few { length sheets.front.items ≤ 2 }
    requires level { MayClimb (S.state space.old).pages.usable level }
    ensures steady { Steady (S.state space.old) (S.state space.new) }
    ensures stepped { IfOk result (StepsUp (S.state space.old) (S.state space.new) number (S.state space.old).pages.usable sheets level out.old.items out.new.items) }
    ensures refused { IfErr result (ClimbRefused (S.state space.old) (S.state space.new) (length sheets.front.items)) }
    ensures noted { NotesChange (S.state space.old) (S.state space.new) }
{
    let Sheets { front, last } = sheets;
    let front = place_parts(alloc, space, front)?;
    let next = plan_above(alloc, level, &front, space.usable())?;
    put_behind(out, front, number, last)?;
    Ok(next)
}

/// Takes a page for each part, in order, and gives the part its number.
fn place_parts<S: PageSpace>(
    alloc: Global,
    space: &mut S,
    front: Vec<Sheet>,
) -> Result<Vec<Sheet>, SpaceFault>
    requires writable { IsWritable (S.state space.old) }
    requires some { 1 ≤ (S.state space.old).pages.size }
    ensures steady { Steady (S.state space.old) (S.state space.new) }
    ensures placed { IfOk result (λ placed. ArePlaced (S.state space.old) (S.state space.new) front.items placed.items) }
    ensures refused { IfErr result (StopsTaking (S.state space.old) (S.state space.new) (length front.items)) }
    ensures noted { NotesChange (S.state space.old) (S.state space.new) }
{
    let mut front = front;
    let pages = take_pages(alloc, space, front.len())?;
    number_sheets(&mut front, &pages);
    Ok(front)
}

/// The plan of the page above, where cells come up and rise among its own.
fn plan_above(
    alloc: Global,
    level: Level,
    front: &[Sheet],
    usable: u32,
) -> Result<Option<Sheets>, AllocError>
    requires least { 480 ≤ usable }
    requires most { usable ≤ 65536 }
    requires level { MayClimb usable level }
    requires few { length front.now ≤ 2 }
    ensures { IfOk result (IsNext usable level front.now) }
{
    if front.is_empty() {
        return Ok(None);
    }
    if !rises(&level, front) {
        return Ok(None);
    }
    let next = plan_inner(alloc, level, front, usable)?;
    Ok(Some(next))
}

/// Whether the keys of a page rise with those that come up among them.
fn rises(level: &Level, front: &[Sheet]) -> bool
    requires at { level.now.at ≤ length level.now.cells }
    requires rising { AreRising (map rowid_of (map inner level.now.cells)) }
    requires some { 1 ≤ length front.now }
    requires few { length front.now ≤ 2 }
    ensures { IsTrue result ↔ Rises level.now front.now }
{
    let cells = level.cells.as_slice();
    let first = key_at(front, 0);
    let last = key_at(front, front.len() - 1);
    if !ends_below(&cells[..level.at], first) {
        return false;
    }
    if !begins_above(last, &cells[level.at..]) {
        return false;
    }
    front.len() == 1 || first < last
}

/// The key behind the part at a place.
fn key_at(front: &[Sheet], at: usize) -> i64
    requires { at < length front.now }
    ensures { result ≡ key_at front.now at }
{
    front[at].key
}

/// Whether the last of the cells, if there is one, has a key below this one.
fn ends_below(cells: &[InnerCell], key: i64) -> bool
    ensures { IsTrue result ↔ EndsBelow cells.now key }
{
    cells.is_empty() || cells[cells.len() - 1].rowid < key
}

/// Whether the first of the cells, if there is one, has a key above this one.
fn begins_above(key: i64, cells: &[InnerCell]) -> bool
    ensures { IsTrue result ↔ BeginsAbove key cells.now }
{
    cells.is_empty() || key < cells[0].rowid
}

/// Puts parts behind what is to be written, the last one on a page of this number.
pub fn put_behind(
    out: &mut Vec<Sheet>,
    front: Vec<Sheet>,
    number: u32,
    last: PageCells,
) -> Result<(), AllocError>
    ensures { OnOk result (out.new.items ≡ out.old.items ++ (front.items ++ on number last ∷ [])) }
{
    let mut front = front;
    out.append(&mut front)?;
    out.push(Sheet {
        number,
        cells: last,
        key: 0,
    })?;
    Ok(())
}
