//! A chain, written.

ghost use Rattle.std.specs.Prelude.{◌≡◌, ◌+◌, ◌≤◌, length, IfOk, IfErr};
ghost use Rattle.page_list.specs.Pages.{HasPage};
ghost use Rattle.page_list.specs.Chain.{pages_needed};
ghost use Rattle.page_pool.specs.Space.{IsWritable, HasSizes, Steady, PageCause, PutLeaves};
ghost use Rattle.page_pool.specs.Pool.{NotesChange};
ghost use Rattle.payload_chain.specs.Chains.{HasEach, TookThese, StopsTaking, Wrote, WriteRefused, chain_page};
ghost use Rattle.payload_chain.specs.Steps.{PutEach, StopsPuttingEach};

use crate::walk::{page_buffer, pages_needed, room};
use byte_base::put_u32;
use page_pool::{PageSpace, SpaceFault, take_page};
use std::alloc::Global;

/// Writes bytes to a chain of pages that are taken in its order, and answers the first of them. The rest of the
/// last page is zeros.
///
/// Refused as `take_page` and `put` are. After a refusal some of the pages that the bytes need are taken, and no page
/// but page 1, the trunks of the freelist and the pages taken has changed.
pub fn write_chain<S: PageSpace>(
    alloc: Global,
    space: &mut S,
    rest: &[u8],
) -> Result<u32, SpaceFault>
    requires writable { IsWritable (S.state space.old) }
    requires some { 1 ≤ (S.state space.old).pages.size }
    requires bytes { 1 ≤ length rest.now }
    ensures steady { Steady (S.state space.old) (S.state space.new) }
    ensures wrote { IfOk result (λ first. Wrote (S.state space.old) (S.state space.new) first rest.now) }
    ensures refused { IfErr result (WriteRefused (S.state space.old) (S.state space.new) rest.now) }
    ensures noted { NotesChange (S.state space.old) (S.state space.new) }
{
    let needed = pages_needed(space, rest.len() as u64);
    let numbers = take_pages(alloc, space, needed as usize)?;
    put_pages(alloc, space, numbers, rest)
}

/// Takes so many pages, one after the other, and answers their numbers in that order. All memory is taken first.
///
/// Refused as `take_page` is: some of the pages are taken then, fewer than asked for, and no page but page 1, the trunks
/// of the freelist and the pages taken has changed.
pub fn take_pages<S: PageSpace>(
    alloc: Global,
    space: &mut S,
    count: usize,
) -> Result<Vec<u32>, SpaceFault>
    requires writable { IsWritable (S.state space.old) }
    requires some { 1 ≤ (S.state space.old).pages.size }
    ensures steady { Steady (S.state space.old) (S.state space.new) }
    ensures took { IfOk result (λ numbers. TookThese (S.state space.old) (S.state space.new) count numbers.items) }
    ensures refused { IfErr result (StopsTaking (S.state space.old) (S.state space.new) count) }
    ensures noted { NotesChange (S.state space.old) (S.state space.new) }
{
    let _pages = space.size();
    let mut numbers = Vec::with_capacity(alloc, count)?;
    for _ in 0..count {
        let number = take_page(alloc, space)?;
        numbers.push(number)?;
    }
    Ok(numbers)
}

/// Puts bytes to pages, from the last to the first, so that each is put with the number of the one behind it.
/// Answers the first.
fn put_pages<S: PageSpace>(
    alloc: Global,
    space: &mut S,
    numbers: Vec<u32>,
    rest: &[u8],
) -> Result<u32, SpaceFault>
    requires writable { IsWritable (S.state space.old) }
    requires there { HasEach (S.state space.old).pages numbers.items }
    requires bytes { 1 ≤ length rest.now }
    requires enough { length numbers.items ≡ pages_needed (S.state space.old).pages.usable (length rest.now) }
    ensures steady { Steady (S.state space.old) (S.state space.new) }
    ensures put { IfOk result (PutEach (S.state space.old) (S.state space.new) numbers.items rest.now) }
    ensures refused { IfErr result (StopsPuttingEach (S.state space.old) (S.state space.new) numbers.items) }
    ensures noted { NotesChange (S.state space.old) (S.state space.new) }
{
    let room = room(space) as usize;
    let mut page = page_buffer(alloc, space)?;
    let mut numbers = numbers;
    let mut next = 0;
    let mut end = rest.len();
    while let Some(number) = numbers.pop() {
        let start = numbers.len() * room;
        put_piece(space, &mut page, number, next, &rest[start..end])?;
        next = number;
        end = start;
    }
    Ok(next)
}

/// Puts bytes to a page of a chain, by a buffer of one page.
fn put_piece<S: PageSpace>(
    space: &mut S,
    page: &mut [u8],
    number: u32,
    next: u32,
    bytes: &[u8],
) -> Result<(), SpaceFault>
    requires writable { IsWritable (S.state space.old) }
    requires sizes { HasSizes (S.state space.old) }
    requires there { HasPage (S.state space.old).pages number }
    requires one_page { length page.old ≡ (S.state space.old).page_size }
    requires few { 4 + length bytes.now ≤ (S.state space.old).pages.usable }
    ensures steady { Steady (S.state space.old) (S.state space.new) }
    ensures cause { PageCause (S.state space.old) (S.state space.new) number result }
    ensures leaves { PutLeaves (S.state space.old) (S.state space.new) number (chain_page (S.state space.old).page_size next bytes.now) result }
{
    fill_page(page, next, bytes);
    space.put(number, page)
}

/// A page of a chain: the number of the next, some bytes, and zeros behind them.
fn fill_page(page: &mut [u8], next: u32, bytes: &[u8])
    requires { 4 + length bytes.now ≤ length page.old }
    ensures { page.new ≡ chain_page (length page.old) next bytes.now }
{
    page.fill(0);
    page[4..4 + bytes.len()].copy_from_slice(bytes);
    put_u32(page, 0, next);
}
