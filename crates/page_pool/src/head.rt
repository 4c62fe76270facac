//! The head of the freelist, read: page 1, and the first trunk where it names one.

ghost use Rattle.std.specs.Prelude.{◌≤◌, IfOk, IfErr};
ghost use Rattle.page_list.specs.Pages.{HasPage};
ghost use Rattle.page_pool.specs.Space.{IsReady, PageCause};
ghost use Rattle.page_pool.specs.Steps.{Same, ReadsPage, ReadsHead, HeadRefused};

use crate::PageSpace;
use crate::page::Page;
use db_format::SpaceFault;
use std::alloc::Global;

/// Where page 1 has the number of the first trunk, 0 for none, and where it has the count of free pages.
pub const FIRST_TRUNK: usize = 32;

pub const FREE_PAGES: usize = 36;

/// Where a trunk has the number of the next one, 0 for none, its count of leaves, and the first leaf.
pub const NEXT_TRUNK: usize = 0;

pub const LEAF_COUNT: usize = 4;

pub const LEAVES: usize = 8;

/// A trunk that was read.
#[derive(Drop)]
pub struct TrunkPage {
    pub number: u32,
    pub page: Page,
    /// How many leaves it has.
    pub leaves: u32,
}

/// Page 1 and the first trunk.
#[derive(Drop)]
pub struct Head {
    pub first: Page,
    pub trunk: Option<TrunkPage>,
}

/// Reads page 1 and the first trunk, and checks what they say of each other.
pub fn read_head<S: PageSpace>(alloc: Global, space: &mut S) -> Result<Head, SpaceFault>
    requires ready { IsReady (S.state space.old) }
    requires some { 1 ≤ (S.state space.old).pages.size }
    ensures same { Same (S.state space.old) (S.state space.new) }
    ensures holds { IfOk result (ReadsHead (S.state space.new)) }
    ensures refused { IfErr result (HeadRefused (S.state space.old) (S.state space.new)) }
{
    let first = read_page(alloc, space, 1)?;
    let number = first.number(FIRST_TRUNK);
    if number == 0 {
        return Ok(Head { first, trunk: None });
    }
    if number > space.size() {
        return Err(SpaceFault::Corrupt { page: 1 });
    }
    let page = read_page(alloc, space, number)?;
    let leaves = page.number(LEAF_COUNT);
    if leaves > space.usable() / 4 - 2 {
        return Err(SpaceFault::Corrupt { page: number });
    }
    let trunk = TrunkPage {
        number,
        page,
        leaves,
    };
    Ok(Head {
        first,
        trunk: Some(trunk),
    })
}

/// Reads a page that is there.
fn read_page<S: PageSpace>(alloc: Global, space: &mut S, number: u32) -> Result<Page, SpaceFault>
    requires ready { IsReady (S.state space.old) }
    requires there { HasPage (S.state space.old).pages number }
    ensures same { Same (S.state space.old) (S.state space.new) }
    ensures cause { PageCause (S.state space.old) (S.state space.new) number result }
    ensures holds { IfOk result (ReadsPage (S.state space.new) number) }
{
    let mut bytes = vec![in alloc; 0; space.page_size() as usize]?;
    space.get(number, &mut bytes)?;
    Ok(Page::from_vec(bytes))
}
