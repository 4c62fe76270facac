//! Overflow chains, gone over page by page.

ghost use Rattle.std.specs.Prelude.{◌≡◌, ◌≤◌, ◌+◌, ◌-◌, ◌++◌, ◌↔◌, ℕ, length, IfOk, OnOk, IfSome, IfNone, IsTrue};
ghost use Rattle.page_list.specs.Pages.{HasPage, Among};
ghost use Rattle.page_list.specs.Chain.{pages_needed, next_page, piece};
ghost use Rattle.ref_pages.specs.ChainSteps.{StopsAll, GoesOn, IsCourse};
ghost use Rattle.ref_pages.specs.AsPages.{pages_of, ChainEnds};

use crate::numbers::PageNumbers;
use crate::pages::RefPages;
use byteorder::{BigEndian, ByteOrder};
use db_format::Bytes;
use std::alloc::{AllocError, Global};

/// How a chain ends.
#[derive(Debug, Drop)]
pub enum ChainEnd {
    /// It has just the pages that the payload needs.
    Whole {
        /// The numbers of the pages, in order.
        numbers: PageNumbers,
        /// The bytes that they hold.
        payload: Bytes,
    },
    /// It is broken at this page: a page that it needs is not there or was met before, or it goes on behind them.
    Breaks {
        /// The page that holds the number, or the number itself where it is the first, or was met before.
        page: u32,
    },
    /// A page of it fails its checksum.
    Fails {
        /// The number of that page.
        page: u32,
        /// The checksum that is kept, and the one that it has.
        sums: (u64, u64),
    },
}

/// The chain from page `first` on, 0 for none, that holds the last `len` bytes of a payload.
pub fn chain_of(
    alloc: Global,
    pages: &RefPages,
    first: u32,
    len: u64,
) -> Result<ChainEnd, AllocError>
    ensures { IfOk result (λ end. ChainEnds (pages_of pages.now) first len end) }
{
    let wanted = needed(pages.usable(), len);
    let mut numbers = PageNumbers::new(alloc);
    let mut payload = Vec::new(alloc);
    let mut last = first;
    let mut next = first;
    while (numbers.as_slice().len() as u64) < wanted {
        if let Some(end) = stop(pages, numbers.as_slice(), last, next) {
            return Ok(end);
        }
        last = next;
        numbers.push(next)?;
        next = take_page(pages, next, &mut payload)?;
    }
    if next != 0 {
        return Ok(ChainEnd::Breaks { page: last });
    }
    payload.truncate(len as usize);
    Ok(ChainEnd::Whole {
        numbers,
        payload: Bytes::from_vec(payload),
    })
}

/// How many pages a chain of `len` bytes has, where `usable` bytes of each page hold content: all but the four of the next
/// number hold bytes of the chain.
pub fn needed(usable: u32, len: u64) -> u64
    requires { 480 ≤ usable }
    ensures { result ≡ pages_needed usable len }
{
    let piece = usable as u64 - 4;
    if len % piece == 0 {
        len / piece
    } else {
        len / piece + 1
    }
}

/// Why a walk that needs more cannot go on to page `next`: it is not there, it is among the pages before, or it fails.
fn stop(pages: &RefPages, before: &[u32], holder: u32, next: u32) -> Option<ChainEnd>
    ensures some { IfSome result (λ end. StopsAll (pages_of pages.now) before.now holder next end) }
    ensures none { IfNone result (GoesOn (pages_of pages.now) before.now next) }
{
    if pages.bytes_of(next).is_none() {
        return Some(ChainEnd::Breaks { page: holder });
    }
    if is_among(before, next) {
        return Some(ChainEnd::Breaks { page: next });
    }
    match pages.mark_of(next) {
        Some(sums) => Some(ChainEnd::Fails { page: next, sums }),
        None => None,
    }
}

/// Whether a number is in the list.
fn is_among(numbers: &[u32], number: u32) -> bool
    ensures { IsTrue result ↔ Among numbers.now number }
{
    numbers.contains(&number)
}

/// Takes what a page of a chain holds, and gives the number of the next one.
fn take_page(pages: &RefPages, number: u32, payload: &mut Vec<u8>) -> Result<u32, AllocError>
    requires { HasPage (pages_of pages.now) number }
    ensures next { IfOk result (λ next. next ≡ next_page (pages_of pages.now) number) }
    ensures took { OnOk result (payload.new.items ≡ payload.old.items ++ piece (pages_of pages.now) number) }
    ensures long { OnOk result (length payload.new.items ≡ length payload.old.items + (pages.now.usable - 4)) }
{
    let Some(bytes) = pages.bytes_of(number) else {
        unreachable!()
    };
    payload.extend_from_slice(&bytes[4..pages.usable() as usize])?;
    Ok(BigEndian::read_u32(bytes))
}
