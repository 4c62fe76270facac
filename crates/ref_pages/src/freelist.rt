//! The freelist, gone over trunk by trunk.

ghost use Rattle.std.specs.Prelude.{◌≡◌, ◌↔◌, ℕ, ◌+◌, ◌*◌, ◌≤◌, List, ◌∷◌, ◌++◌, length, IsTrue, IfOk, IfSome, IfNone};
ghost use Rattle.page_list.specs.Pages.{AllDifferent};
ghost use Rattle.page_list.specs.Freelist.{Trunk, IsFreelist};
ghost use Rattle.ref_pages.specs.AsPages.{pages_of};
ghost use Rattle.ref_pages.specs.FreeSteps.{MayBeFree, Follows, AreLeaves};

use crate::different::first_twice;
use crate::numbers::PageNumbers;
use crate::pages::RefPages;
use crate::words::word_of;
use byte_base::u32_at;
use std::alloc::{AllocError, Global};
use std::marker::Model;

/// Where page 1 has the number of the first trunk.
const FIRST_TRUNK: usize = 32;

/// A trunk of the freelist. Contracts see it as a `Trunk`.
#[derive(Debug, Drop)]
pub struct RefTrunk {
    number: u32,
    leaves: PageNumbers,
}

impl Model for RefTrunk {
    ghost use Rattle.page_list.specs.Freelist.{Trunk};

    ghost Value = { Trunk };

    ghost view = { λ t. record { number = t.number; leaves = t.leaves } };
}

impl RefTrunk {
    /// The number of its page.
    pub fn number(&self) -> u32
        ensures { result ≡ self.now.number }
    {
        self.number
    }

    /// The numbers of its leaves, in order.
    pub fn leaves(&self) -> &[u32]
        ensures { result.now ≡ self.now.leaves }
    {
        self.leaves.as_slice()
    }
}

/// The trunks of the freelist, in order; `None` where the pages have no freelist. How many pages are free by page 1
/// is not asked.
pub fn freelist_of(alloc: Global, pages: &RefPages) -> Result<Option<Vec<RefTrunk>>, AllocError>
    ensures found { IfOk result (λ found. IfSome found (λ trunks. IsFreelist (pages_of pages.now) trunks.items)) }
    ensures none { IfOk result (λ found. IfNone found ((trunks : List Trunk) → ¬ (IsFreelist (pages_of pages.now) trunks))) }
{
    let mut trunks = Vec::new(alloc);
    let mut met = Vec::new(alloc);
    let mut next = word_of(pages, 1, FIRST_TRUNK);
    while next != 0 {
        let Some(trunk) = trunk_at(alloc, pages, next, &met)? else {
            return Ok(None);
        };
        met.push(trunk.number())?;
        met.extend_from_slice(trunk.leaves())?;
        trunks.push(trunk)?;
        next = word_of(pages, next, 0);
    }
    Ok(Some(trunks))
}

/// The trunk on a page, where it may follow those whose pages were met.
fn trunk_at(
    alloc: Global,
    pages: &RefPages,
    number: u32,
    met: &[u32],
) -> Result<Option<RefTrunk>, AllocError>
    ensures found { IfOk result (λ found. IfSome found (λ trunk. (trunk.number ≡ number) × Follows (pages_of pages.now) met.now trunk)) }
    ensures none { IfOk result (λ found. IfNone found ((trunk : Trunk) → trunk.number ≡ number → ¬ (Follows (pages_of pages.now) met.now trunk))) }
{
    let Some(bytes) = pages.bytes_of(number) else {
        return Ok(None);
    };
    let count = u32_at(bytes, 4) as usize;
    if count > pages.usable() as usize / 4 - 2 {
        return Ok(None);
    }
    let leaves = leaves_of(alloc, bytes, count)?;
    if !follow(alloc, pages, met, number, leaves.as_slice())? {
        return Ok(None);
    }
    Ok(Some(RefTrunk { number, leaves }))
}

/// The leaves of a trunk that says so many.
fn leaves_of(alloc: Global, bytes: &[u8], count: usize) -> Result<PageNumbers, AllocError>
    requires { 8 + 4 * count ≤ length bytes.now }
    ensures { IfOk result (AreLeaves bytes.now count) }
{
    let mut leaves = PageNumbers::new(alloc);
    for at in 0..count {
        leaves.push(u32_at(bytes, 8 + 4 * at))?;
    }
    Ok(leaves)
}

/// Whether a trunk and its leaves may be free pages, and were not met before.
fn follow(
    alloc: Global,
    pages: &RefPages,
    met: &[u32],
    number: u32,
    leaves: &[u32],
) -> Result<bool, AllocError>
    ensures { IfOk result (λ free. IsTrue free ↔ MayBeFree (pages_of pages.now) (number ∷ leaves.now) × AllDifferent (met.now ++ (number ∷ leaves.now))) }
{
    let mut named = Vec::new(alloc);
    named.push(number)?;
    named.extend_from_slice(leaves)?;
    let mut all = Vec::from_slice(alloc, met)?;
    all.extend_from_slice(&named)?;
    Ok(may_be_free(pages, &named) && first_twice(&all).is_none())
}

/// Whether each number is that of a page other than page 1.
fn may_be_free(pages: &RefPages, numbers: &[u32]) -> bool
    ensures { IsTrue result ↔ MayBeFree (pages_of pages.now) numbers.now }
{
    for number in numbers {
        if *number < 2 || *number > pages.size() {
            return false;
        }
    }
    true
}
