//! From the leaf up to the root.

ghost use Rattle.std.specs.Prelude.{◌+◌, ◌≤◌, length, IfOk, IfErr};
ghost use Rattle.std.specs.List.{AllByRecursion};
ghost use Rattle.page_pool.specs.Space.{IsWritable, Steady};
ghost use Rattle.page_pool.specs.Pool.{NotesChange};
ghost use Rattle.tree_write.specs.Climb.{MayClimb, IsPlanOf, Climbed, ClimbRefused};

use crate::level::step_up;
use crate::root::settle_root;
use page_cut::{Sheet, Sheets};
use page_pool::{PageSpace, SpaceFault};
use std::alloc::Global;
use tree_model::Level;

/// Takes pages for the parts of a page, and for those of the pages above it while cells come up, and answers what is to
/// be written: the pages of the path that change, and the new ones. `levels` are the interior pages from the root down
/// to the one above the page. A page keeps its last part, and the others are on new pages before it; a root keeps its
/// number, and where it overflows stands over new pages with all its parts. At most three pages more are taken than
/// there are levels. Where in damaged pages the cells that come up do not rise among those above, the pages above stay
/// as they are.
///
/// Nothing is written but what the takes write. Refused as `take_page` is, and then some of the pages are taken: fewer than
/// one for each part of the page but the last, one for each level and one for the root.
pub fn climb<S: PageSpace>(
    alloc: Global,
    space: &mut S,
    levels: Vec<Level>,
    number: u32,
    plan: Sheets,
) -> Result<Vec<Sheet>, SpaceFault>
    requires writable { IsWritable (S.state space.old) }
    requires some { 1 ≤ (S.state space.old).pages.size }
    requires each { AllByRecursion (MayClimb (S.state space.old).pages.usable) levels.items }
    requires plan { IsPlanOf number (S.state space.old).pages.usable plan }
    ensures steady { Steady (S.state space.old) (S.state space.new) }
    ensures climbed { IfOk result (λ sheets. Climbed (S.state space.old) (S.state space.new) number plan levels.items sheets.items) }
    ensures refused { IfErr result (ClimbRefused (S.state space.old) (S.state space.new) (length plan.front.items + length levels.items + 1)) }
    ensures noted { NotesChange (S.state space.old) (S.state space.new) }
{
    let _pages = space.size();
    let mut levels = levels;
    let mut number = number;
    let mut sheets = plan;
    let mut out = Vec::new(alloc);
    while let Some(level) = levels.pop() {
        let above = level.number;
        let Some(next) = step_up(alloc, space, number, sheets, level, &mut out)? else {
            return Ok(out);
        };
        number = above;
        sheets = next;
    }
    settle_root(alloc, space, number, sheets, out)
}
