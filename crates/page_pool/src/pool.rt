//! The freelist of a page space.

ghost use Rattle.std.specs.Prelude.{◌≡◌, ◌+◌, ◌*◌, ◌≤◌, ◌<◌, IsTrue, IfOk, IfErr, OnOk};
ghost use Rattle.page_list.specs.Pages.{HasPage};
ghost use Rattle.page_list.specs.Freelist.{HasHead, full};
ghost use Rattle.page_pool.specs.Space.{IsWritable, Steady};
ghost use Rattle.page_pool.specs.Pool.{Taken, Given, HasNoRoom, TakeRefused, GiveRefused, NotesChange};
ghost use Rattle.page_pool.specs.Steps.{ReadsPage, ReadsTrunk};

use crate::PageSpace;
use crate::head::{
    FIRST_TRUNK, FREE_PAGES, Head, LEAF_COUNT, LEAVES, NEXT_TRUNK, TrunkPage, read_head,
};
use crate::page::Page;
use crate::write::{write_both, write_page};
use db_format::SpaceFault;
use std::alloc::Global;

/// Takes a page out of the freelist: the last leaf of its first trunk, or that trunk where it has no leaf. Grows
/// the space where the freelist is empty. The page holds whatever it held; a new one holds zeros.
///
/// Refused as `get`, `put` and `grow` are, and with `Corrupt` exactly where the first trunk is out of range (of
/// page 1, which holds its number), is malformed (of the trunk), or says a last leaf that is out of range (of the
/// trunk). After `Failed` and `Memory` page 1 and the first trunk may have changed, and after no refusal any other
/// page has, and none was added.
pub fn take_page<S: PageSpace>(alloc: Global, space: &mut S) -> Result<u32, SpaceFault>
    requires writable { IsWritable (S.state space.old) }
    requires some { 1 ≤ (S.state space.old).pages.size }
    ensures steady { Steady (S.state space.old) (S.state space.new) }
    ensures taken { IfOk result (Taken (S.state space.old) (S.state space.new)) }
    ensures refused { IfErr result (TakeRefused (S.state space.old) (S.state space.new)) }
    ensures noted { NotesChange (S.state space.old) (S.state space.new) }
{
    let Head { first, trunk } = read_head(alloc, space)?;
    match trunk {
        None => space.grow(),
        Some(trunk) if trunk.leaves == 0 => take_trunk(space, first, trunk),
        Some(trunk) => take_leaf(space, first, trunk),
    }
}

/// Gives a page to the freelist: as the last leaf of its first trunk, or, where there is none or it has as many
/// leaves as a quarter of the usable size less eight, as its new first trunk. A page that becomes a leaf keeps its bytes.
///
/// Refused as `get` and `put` are, and with `Corrupt` exactly where the first trunk is out of range (of page 1,
/// which holds its number) or is malformed (of the trunk). After `Failed` and `Memory` page 1, the first trunk and
/// the page given may have changed, and after no refusal any other page has.
pub fn give_page<S: PageSpace>(alloc: Global, space: &mut S, number: u32) -> Result<(), SpaceFault>
    requires writable { IsWritable (S.state space.old) }
    requires there { HasPage (S.state space.old).pages number }
    ensures steady { Steady (S.state space.old) (S.state space.new) }
    ensures given { OnOk result (Given (S.state space.old) (S.state space.new) number) }
    ensures refused { IfErr result (GiveRefused (S.state space.old) (S.state space.new) number) }
    ensures noted { NotesChange (S.state space.old) (S.state space.new) }
{
    let Head { first, trunk } = read_head(alloc, space)?;
    match trunk {
        Some(trunk) if trunk.leaves < full_at(space.usable()) => {
            give_leaf(space, first, trunk, number)
        }
        _ => give_trunk(alloc, space, first, number),
    }
}

/// As many leaves as a trunk has when it takes no more.
fn full_at(usable: u32) -> u32
    requires { 480 ≤ usable }
    ensures { result ≡ full usable }
{
    usable / 4 - 8
}

/// Takes the first trunk, which has no leaf.
fn take_trunk<S: PageSpace>(space: &mut S, first: Page, trunk: TrunkPage) -> Result<u32, SpaceFault>
    requires writable { IsWritable (S.state space.old) }
    requires first_holds { ReadsPage (S.state space.old) 1 first }
    requires trunk_holds { ReadsTrunk (S.state space.old) first trunk }
    requires empty { trunk.leaves ≡ 0 }
    ensures steady { Steady (S.state space.old) (S.state space.new) }
    ensures taken { IfOk result (Taken (S.state space.old) (S.state space.new)) }
    ensures refused { IfErr result (TakeRefused (S.state space.old) (S.state space.new)) }
    ensures noted { NotesChange (S.state space.old) (S.state space.new) }
{
    let mut first = first;
    let free = first.number(FREE_PAGES);
    first.set_number(FIRST_TRUNK, trunk.page.number(NEXT_TRUNK));
    first.set_number(FREE_PAGES, free.saturating_sub(1));
    write_page(space, 1, first)?;
    Ok(trunk.number)
}

/// Takes the last leaf of the first trunk.
fn take_leaf<S: PageSpace>(space: &mut S, first: Page, trunk: TrunkPage) -> Result<u32, SpaceFault>
    requires writable { IsWritable (S.state space.old) }
    requires first_holds { ReadsPage (S.state space.old) 1 first }
    requires trunk_holds { ReadsTrunk (S.state space.old) first trunk }
    requires leaf { 1 ≤ trunk.leaves }
    ensures steady { Steady (S.state space.old) (S.state space.new) }
    ensures taken { IfOk result (Taken (S.state space.old) (S.state space.new)) }
    ensures refused { IfErr result (TakeRefused (S.state space.old) (S.state space.new)) }
    ensures noted { NotesChange (S.state space.old) (S.state space.new) }
{
    let TrunkPage {
        number,
        mut page,
        leaves,
    } = trunk;
    let leaf = page.number(place_of(leaves - 1));
    if leaf == 0 || leaf > space.size() {
        return Err(SpaceFault::Corrupt { page: number });
    }
    page.set_number(LEAF_COUNT, leaves - 1);
    let mut first = first;
    let free = first.number(FREE_PAGES);
    first.set_number(FREE_PAGES, free.saturating_sub(1));
    write_both(space, number, page, first)?;
    Ok(leaf)
}

/// Makes a page the last leaf of the first trunk, which has room.
fn give_leaf<S: PageSpace>(
    space: &mut S,
    first: Page,
    trunk: TrunkPage,
    number: u32,
) -> Result<(), SpaceFault>
    requires writable { IsWritable (S.state space.old) }
    requires first_holds { ReadsPage (S.state space.old) 1 first }
    requires trunk_holds { ReadsTrunk (S.state space.old) first trunk }
    requires room { trunk.leaves < full (S.state space.old).pages.usable }
    ensures steady { Steady (S.state space.old) (S.state space.new) }
    ensures given { OnOk result (Given (S.state space.old) (S.state space.new) number) }
    ensures refused { IfErr result (GiveRefused (S.state space.old) (S.state space.new) number) }
    ensures noted { NotesChange (S.state space.old) (S.state space.new) }
{
    let mut page = trunk.page;
    page.set_number(LEAF_COUNT, trunk.leaves + 1);
    page.set_number(place_of(trunk.leaves), number);
    let mut first = first;
    let free = first.number(FREE_PAGES);
    first.set_number(FREE_PAGES, free.saturating_add(1));
    write_both(space, trunk.number, page, first)
}

/// Makes a page the first trunk, without a leaf. The trunk that was the first is the next one.
fn give_trunk<S: PageSpace>(
    alloc: Global,
    space: &mut S,
    first: Page,
    number: u32,
) -> Result<(), SpaceFault>
    requires writable { IsWritable (S.state space.old) }
    requires there { HasPage (S.state space.old).pages number }
    requires first_holds { ReadsPage (S.state space.old) 1 first }
    requires head { IsTrue (S.state space.old).tells → HasHead (S.state space.old).pages }
    requires no_room { IsTrue (S.state space.old).tells → HasNoRoom (S.state space.old).pages }
    ensures steady { Steady (S.state space.old) (S.state space.new) }
    ensures given { OnOk result (Given (S.state space.old) (S.state space.new) number) }
    ensures refused { IfErr result (GiveRefused (S.state space.old) (S.state space.new) number) }
    ensures noted { NotesChange (S.state space.old) (S.state space.new) }
{
    let mut page = Page::zeros(alloc, space.page_size() as usize)?;
    page.set_number(NEXT_TRUNK, first.number(FIRST_TRUNK));
    let mut first = first;
    let free = first.number(FREE_PAGES);
    first.set_number(FIRST_TRUNK, number);
    first.set_number(FREE_PAGES, free.saturating_add(1));
    write_both(space, number, page, first)
}

/// The place of a leaf in its trunk, by its index.
fn place_of(leaf: u32) -> usize
    ensures { result ≡ 8 + 4 * leaf }
{
    LEAVES + 4 * leaf as usize
}
