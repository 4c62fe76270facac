//! A chain, given back.

ghost use Rattle.std.specs.Prelude.{IfOk, IfErr, OnOk};
ghost use Rattle.page_pool.specs.Space.{IsReady, IsWritable, HasSizes, Steady, Stays};
ghost use Rattle.page_pool.specs.Pool.{NotesChange};
ghost use Rattle.payload_chain.specs.Chains.{ReadRefused, Freed, FreeRefused, HasEach, HasPages, GaveAll, StopsGivingEach};

use crate::walk::{Walk, page_buffer, pages_needed};
use page_pool::{PageSpace, SpaceFault, give_page};
use std::alloc::Global;

/// Gives back the pages of the chain of `len` bytes that begins at page `first`, in their order. The whole chain is
/// walked before the first of them is given.
///
/// Refused as reading the chain is, and then nothing has changed; or as `give_page` of one of its pages is, and then
/// the pages before it are given, and no page but page 1, the first trunk and those of the chain has changed. After
/// `Bad` and `Corrupt` page 1 and the first trunk are as the last give that was done left them.
pub fn free_chain<S: PageSpace>(
    alloc: Global,
    space: &mut S,
    first: u32,
    len: u64,
) -> Result<(), SpaceFault>
    requires writable { IsWritable (S.state space.old) }
    ensures steady { Steady (S.state space.old) (S.state space.new) }
    ensures freed { OnOk result (Freed (S.state space.old) (S.state space.new) first len) }
    ensures refused { IfErr result (FreeRefused (S.state space.old) (S.state space.new) first len) }
    ensures noted { NotesChange (S.state space.old) (S.state space.new) }
{
    let numbers = chain_pages(alloc, space, first, len)?;
    give_pages(alloc, space, &numbers)
}

/// The pages of the chain of `len` bytes that begins at page `first`, in their order: none for a chain of no bytes, whose
/// first page is 0. No page changes.
///
/// Refused as reading the chain is.
pub fn chain_pages<S: PageSpace>(
    alloc: Global,
    space: &mut S,
    first: u32,
    len: u64,
) -> Result<Vec<u32>, SpaceFault>
    requires ready { IsReady (S.state space.old) }
    ensures steady { Steady (S.state space.old) (S.state space.new) }
    ensures stays { Stays (S.state space.old) (S.state space.new) }
    ensures cause { IfErr result (ReadRefused (S.state space.old) (S.state space.new) first len) }
    ensures pages { IfOk result (λ numbers. HasPages (S.state space.old) first len numbers.items) }
{
    let needed = pages_needed(space, len);
    let mut page = page_buffer(alloc, space)?;
    let mut walk = Walk::new(alloc, first);
    for _ in 0..needed {
        walk.step(space, &mut page)?;
    }
    walk.finish()
}

/// Gives pages to the freelist, one after the other.
///
/// Refused as `give_page` of one of them is: then those before it are given, and no page but page 1, the first trunk and
/// those given has changed.
pub fn give_pages<S: PageSpace>(
    alloc: Global,
    space: &mut S,
    numbers: &[u32],
) -> Result<(), SpaceFault>
    requires writable { IsWritable (S.state space.old) }
    requires sizes { HasSizes (S.state space.old) }
    requires there { HasEach (S.state space.old).pages numbers.now }
    ensures steady { Steady (S.state space.old) (S.state space.new) }
    ensures gave { OnOk result (GaveAll (S.state space.old) (S.state space.new) numbers.now) }
    ensures refused { IfErr result (StopsGivingEach (S.state space.old) (S.state space.new) numbers.now) }
    ensures noted { NotesChange (S.state space.old) (S.state space.new) }
{
    for number in numbers {
        give_page(alloc, space, *number)?;
    }
    Ok(())
}
