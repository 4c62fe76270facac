//! How many pages the trees from a list of roots use, which these are, and how many they may need.

ghost use Rattle.std.specs.Prelude.{◌≡◌, ◌⊎◌, ℕ, ◌+◌, ◌≤◌, map, length, IfOk, IfSome, IfNone};
ghost use Rattle.std.specs.List.{flat_map};
ghost use Rattle.tree_model.specs.Tree.{pages_of as tree_pages};
ghost use Rattle.tree_model.specs.Whole.{named_pages};
ghost use Rattle.tree_model.specs.Need.{need, use_of, chain_pages, need_of_rows, need_of_trees};
ghost use Rattle.ref_pages.specs.AsPages.{pages_of};
ghost use Rattle.ref_trees.specs.Forest.{HasForest, HasFreelist, LacksTree, HasNoFreelist};

use crate::path::MOST_DEPTH;
use crate::tree::tree_at;
use crate::tree_rows::RefRow;
use crate::whole::{all_of, pages_of_trunks};
use db_format::local_size;
use ref_pages::{RefPages, freelist_of, needed, times};
use std::alloc::{AllocError, Global};

/// The pages that these roots name, with those of the freelist: page 1 first where it is no root, then tree by tree.
/// `None` where a root has no tree of at most 20 levels, or the pages have no freelist.
pub fn named_of(
    alloc: Global,
    pages: &RefPages,
    roots: &[u32],
) -> Result<Option<Vec<u32>>, AllocError>
    ensures found { IfOk result (λ found. IfSome found (λ named. HasForest (pages_of pages.now) roots.now (λ trees. HasFreelist (pages_of pages.now) (λ trunks. named.items ≡ named_pages roots.now trees trunks)))) }
    ensures none { IfOk result (λ found. IfNone found (LacksTree (pages_of pages.now) roots.now ⊎ HasNoFreelist (pages_of pages.now))) }
{
    let Some(named) = pages_of_trees(alloc, pages, roots)? else {
        return Ok(None);
    };
    let Some(trunks) = freelist_of(alloc, pages)? else {
        return Ok(None);
    };
    let free = pages_of_trunks(alloc, &trunks)?;
    let all = all_of(alloc, roots, &named, &free)?;
    Ok(Some(all))
}

/// How many pages these roots name, those of the freelist aside; a page that is named twice counts twice. `None` where
/// a root has no tree of at most 20 levels.
pub fn use_of(alloc: Global, pages: &RefPages, roots: &[u32]) -> Result<Option<usize>, AllocError>
    ensures found { IfOk result (λ found. IfSome found (λ count. HasForest (pages_of pages.now) roots.now (λ trees. count ≡ use_of roots.now trees))) }
    ensures none { IfOk result (λ found. IfNone found (LacksTree (pages_of pages.now) roots.now)) }
{
    let Some(named) = pages_of_trees(alloc, pages, roots)? else {
        return Ok(None);
    };
    let all = all_of(alloc, roots, &named, &[])?;
    Ok(Some(all.len()))
}

/// How many pages the trees of these roots may need, and the header page where it is no root of them. `None` where a
/// root has no tree of at most 20 levels. `AllocError` also from 2^64 pages on, whose rows no memory holds.
pub fn need_of(alloc: Global, pages: &RefPages, roots: &[u32]) -> Result<Option<u64>, AllocError>
    ensures found { IfOk result (λ found. IfSome found (λ count. HasForest (pages_of pages.now) roots.now (λ trees. count ≡ need (pages_of pages.now).usable roots.now trees))) }
    ensures none { IfOk result (λ found. IfNone found (LacksTree (pages_of pages.now) roots.now)) }
{
    let mut count = u64::from(times(1, roots) == 0);
    for root in roots {
        let Some(found) = tree_at(alloc, pages, *root, None, i64::MAX, MOST_DEPTH)? else {
            return Ok(None);
        };
        count = sum(count, need_of_tree(pages.usable(), &found.rows)?)?;
    }
    Ok(Some(count))
}

/// The pages of the trees from these roots, tree by tree.
fn pages_of_trees(
    alloc: Global,
    pages: &RefPages,
    roots: &[u32],
) -> Result<Option<Vec<u32>>, AllocError>
    ensures found { IfOk result (λ found. IfSome found (λ named. HasForest (pages_of pages.now) roots.now (λ trees. named.items ≡ flat_map tree_pages trees))) }
    ensures none { IfOk result (λ found. IfNone found (LacksTree (pages_of pages.now) roots.now)) }
{
    let mut named = Vec::new(alloc);
    for root in roots {
        let Some(found) = tree_at(alloc, pages, *root, None, i64::MAX, MOST_DEPTH)? else {
            return Ok(None);
        };
        named.extend_from_slice(&found.pages)?;
    }
    Ok(Some(named))
}

/// What a tree with these rows may need: two pages for each row, or two where there is none, and the chains.
fn need_of_tree(usable: u32, rows: &[RefRow]) -> Result<u64, AllocError>
    requires least { 480 ≤ usable }
    requires most { usable ≤ 65536 }
    ensures { IfOk result (λ count. count ≡ need_of_rows usable (map (λ row. length row.payload) rows.now)) }
{
    let pages = rows.len().max(1) as u64;
    let mut count = sum(pages, pages)?;
    for row in rows {
        count = sum(count, chain_pages(usable, row.payload().len() as u64))?;
    }
    Ok(count)
}

/// The overflow pages of a payload of `len` bytes.
pub fn chain_pages(usable: u32, len: u64) -> u64
    requires least { 480 ≤ usable }
    requires most { usable ≤ 65536 }
    ensures { result ≡ chain_pages usable len }
{
    needed(usable, len - u64::from(local_size(usable, len)))
}

/// The sum, where it is below 2^64.
fn sum(one: u64, other: u64) -> Result<u64, AllocError>
    ensures { IfOk result (λ both. both ≡ one + other) }
{
    match one.checked_add(other) {
        Some(both) => Ok(both),
        None => Err(AllocError),
    }
}
