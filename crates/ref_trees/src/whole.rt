//! Whether pages are whole where a list of roots says which trees there are.

ghost use Rattle.std.specs.Prelude.{◌≡◌, ℕ, List, [], ◌∷◌, ◌++◌, IfOk, IfErr, IfSome, IfNone};
ghost use Rattle.page_list.specs.Pages.{IsGood, Among};
ghost use Rattle.page_list.specs.Freelist.{Trunk, free_pages};
ghost use Rattle.tree_model.specs.Tree.{Tree};
ghost use Rattle.tree_model.specs.Whole.{IsWholeFor, first_page};
ghost use Rattle.ref_pages.specs.AsPages.{pages_of};
ghost use Rattle.ref_trees.specs.Forest.{IsLack, AreWholeFor};
ghost use Rattle.ref_trees.specs.ForestSteps.{IsTreeLack, IsWholeWith, AreWholeWith, IsWholeFreelist};

use crate::header::has_header;
use crate::path::MOST_DEPTH;
use crate::tree::tree_at;
use page_list::one_freelist;
use ref_pages::{RefPages, RefTrunk, first_twice, freelist_of, times, word_of};
use std::alloc::{AllocError, Global};
use tree_model::one_tree;

/// Where page 1 says how many pages are free.
const FREE_COUNT: usize = 36;

/// Why pages are not whole: the first point that fails.
#[derive(Clone, Copy, Debug, PartialEq, Eq)]
pub enum Lacks {
    /// Page 1 has no header that is read, or it says another usable size.
    Header,
    /// There is no tree from this root: a page of it, or of a chain, is not there, fails its checksum or is malformed;
    /// a chain has other pages than its payload needs; or the tree is deeper than 20 levels.
    Tree {
        /// The root.
        root: u32,
    },
    /// A rowid or a key of the tree from this root is outside of its separators.
    Order {
        /// The root.
        root: u32,
    },
    /// Two leaves of the tree from this root have different depths.
    Depth {
        /// The root.
        root: u32,
    },
    /// A page of the tree from this root is empty that may not be.
    Empty {
        /// The root.
        root: u32,
    },
    /// A trunk of the freelist is malformed, a number of it is not that of a page other than page 1, or a page stands
    /// in it twice.
    Freelist,
    /// This page of the freelist fails its checksum.
    BadFree {
        /// The number of the page.
        page: u32,
    },
    /// Page 1 gives another number of free pages.
    Count,
    /// This page is named more than once.
    Twice {
        /// The number of the page.
        page: u32,
    },
}

/// Whether the pages are whole for these roots, or the first point that fails, in the order of the variants.
pub fn is_whole_for(
    alloc: Global,
    pages: &RefPages,
    roots: &[u32],
) -> Result<Result<(), Lacks>, AllocError>
    ensures whole { IfOk result (λ answer. IfOk answer (λ _. AreWholeFor (pages_of pages.now) roots.now)) }
    ensures lacks { IfOk result (λ answer. IfErr answer (IsLack (pages_of pages.now) roots.now)) }
    ensures refused { IfOk result (λ answer. IfErr answer (λ _. (trees : List Tree) (trunks : List Trunk) → ¬ (IsWholeFor (pages_of pages.now) roots.now trees trunks))) }
{
    one_tree();
    one_freelist();
    if !has_header(pages) {
        return Ok(Err(Lacks::Header));
    }
    let named = match whole_trees(alloc, pages, roots)? {
        Ok(named) => named,
        Err(lacks) => return Ok(Err(lacks)),
    };
    let free = match whole_freelist(alloc, pages)? {
        Ok(free) => free,
        Err(lacks) => return Ok(Err(lacks)),
    };
    let all = all_of(alloc, roots, &named, &free)?;
    match first_twice(&all) {
        Some(page) => Ok(Err(Lacks::Twice { page })),
        None => Ok(Ok(())),
    }
}

/// Page 1 where it is no root, and behind it the pages of the trees and those of the freelist.
pub(crate) fn all_of(
    alloc: Global,
    roots: &[u32],
    named: &[u32],
    free: &[u32],
) -> Result<Vec<u32>, AllocError>
    ensures { IfOk result (λ all. all.items ≡ first_page roots.now ++ named.now ++ free.now) }
{
    let mut all = Vec::new(alloc);
    if times(1, roots) == 0 {
        all.push(1)?;
    }
    all.extend_from_slice(named)?;
    all.extend_from_slice(free)?;
    Ok(all)
}

/// The pages of whole trees from these roots.
fn whole_trees(
    alloc: Global,
    pages: &RefPages,
    roots: &[u32],
) -> Result<Result<Vec<u32>, Lacks>, AllocError>
    ensures whole { IfOk result (λ answer. IfOk answer (λ named. AreWholeWith (pages_of pages.now) roots.now named.items)) }
    ensures lacks { IfOk result (λ answer. IfErr answer (IsLack (pages_of pages.now) roots.now)) }
{
    let mut named = Vec::new(alloc);
    for root in roots {
        match whole_tree(alloc, pages, *root)? {
            Ok(more) => named.extend_from_slice(&more)?,
            Err(lacks) => return Ok(Err(lacks)),
        }
    }
    Ok(Ok(named))
}

/// The pages of a whole tree from a root.
fn whole_tree(
    alloc: Global,
    pages: &RefPages,
    root: u32,
) -> Result<Result<Vec<u32>, Lacks>, AllocError>
    ensures whole { IfOk result (λ answer. IfOk answer (λ named. IsWholeWith (pages_of pages.now) root named.items)) }
    ensures lacks { IfOk result (λ answer. IfErr answer (IsTreeLack (pages_of pages.now) root)) }
{
    let Some(found) = tree_at(alloc, pages, root, None, i64::MAX, MOST_DEPTH)? else {
        return Ok(Err(Lacks::Tree { root }));
    };
    if !found.ordered {
        return Ok(Err(Lacks::Order { root }));
    }
    if !found.level {
        return Ok(Err(Lacks::Depth { root }));
    }
    if !found.root {
        return Ok(Err(Lacks::Empty { root }));
    }
    Ok(Ok(found.pages))
}

/// The pages of the freelist, where it is as it should be.
fn whole_freelist(alloc: Global, pages: &RefPages) -> Result<Result<Vec<u32>, Lacks>, AllocError>
    ensures whole { IfOk result (λ answer. IfOk answer (λ free. IsWholeFreelist (pages_of pages.now) free.items)) }
    ensures lacks { (roots : List ℕ) → IfOk result (λ answer. IfErr answer (IsLack (pages_of pages.now) roots)) }
{
    let Some(trunks) = freelist_of(alloc, pages)? else {
        return Ok(Err(Lacks::Freelist));
    };
    let free = pages_of_trunks(alloc, &trunks)?;
    if let Some(page) = first_bad(pages, &free) {
        return Ok(Err(Lacks::BadFree { page }));
    }
    if word_of(pages, 1, FREE_COUNT) as usize != free.len() {
        return Ok(Err(Lacks::Count));
    }
    Ok(Ok(free))
}

/// The pages of these trunks, each with its leaves.
pub(crate) fn pages_of_trunks(alloc: Global, trunks: &[RefTrunk]) -> Result<Vec<u32>, AllocError>
    ensures { IfOk result (λ free. free.items ≡ free_pages trunks.now) }
{
    let mut free = Vec::new(alloc);
    for trunk in trunks {
        free.push(trunk.number())?;
        free.extend_from_slice(trunk.leaves())?;
    }
    Ok(free)
}

/// The first of these pages that fails its checksum.
fn first_bad(pages: &RefPages, numbers: &[u32]) -> Option<u32>
    ensures some { IfSome result (λ page. Among numbers.now page × ¬ (IsGood (pages_of pages.now) page)) }
    ensures none { IfNone result ((page : ℕ) → Among numbers.now page → IsGood (pages_of pages.now) page) }
{
    for number in numbers {
        if pages.mark_of(*number).is_some() {
            return Some(*number);
        }
    }
    None
}
