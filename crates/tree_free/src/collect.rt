//! The pages of a tree, gone over and collected in tree order.

ghost use Rattle.std.specs.Prelude.{◌≡◌, ◌≤◌, ◌∷◌, [], suc, length, IsTrue, IfOk, IfErr, OnOk};
ghost use Rattle.page_list.specs.Pages.{HasPage};
ghost use Rattle.page_pool.specs.Space.{IsReady, HasSizes, Steady, Stays};
ghost use Rattle.payload_chain.specs.Chains.{HasPages};
ghost use Rattle.tree_page.specs.declared.cell.PageCells.TheVariants.{Leaf as LeafPage, Interior as InteriorPage};
ghost use Rattle.tree_page.specs.Written.{Fits};
ghost use Rattle.tree_model.specs.Held.{HasCells};
ghost use Rattle.tree_model.specs.Walk.{rest_of};
ghost use Rattle.tree_search.specs.Search.{SearchRefused};
ghost use Rattle.tree_free.specs.Free.{ChainMeets};
ghost use Rattle.tree_free.specs.Steps.{MetMore, Grown, MeetRefused, GoneOver, WalkMeets, LeafGone, LeafMeets, ChildrenMeet, HasTree, FreeFails};

use page_list::one_chain;
use page_pool::{PageSpace, SpaceFault};
use payload_chain::chain_pages;
use std::alloc::Global;
use std::collections::BTreeSet;
use tree_model::one_tree;
use tree_page::{InnerCell, LeafCell, LeafCells, PageCells, one_page};
use tree_search::{MOST_DEPTH, enter, of_leaf, page_buffer};

/// How far the pages of a tree are collected.
#[derive(Drop)]
pub(crate) struct Collected {
    alloc: Global,
    /// A buffer of one page.
    buffer: Vec<u8>,
    /// The pages so far, in tree order.
    numbers: Vec<u32>,
    /// These, page 1, and the interior pages above whose children are not all gone over. On pages that loop, or are named
    /// many times, a walk would go over them again and again.
    met: BTreeSet<u32>,
}

impl Collected {
    /// Marks a page as met, which it was not before.
    fn mark(&mut self, number: u32) -> Result<(), SpaceFault>
        ensures marked { OnOk result (MetMore self.old.met self.new.met (number ∷ [])) }
        ensures cause { IfErr result (MeetRefused self.old.met (number ∷ [])) }
        ensures numbers { self.new.numbers ≡ self.old.numbers }
        ensures buffer { self.new.buffer ≡ self.old.buffer }
    {
        if !self.met.insert(number)? {
            return Err(SpaceFault::Corrupt { page: number });
        }
        Ok(())
    }

    /// Marks a page, and puts it behind those so far.
    fn meet(&mut self, number: u32) -> Result<(), SpaceFault>
        ensures grown { OnOk result (Grown self.old self.new (number ∷ [])) }
        ensures cause { IfErr result (MeetRefused self.old.met (number ∷ [])) }
        ensures buffer { self.new.buffer ≡ self.old.buffer }
    {
        self.mark(number)?;
        self.numbers.push(number)?;
        Ok(())
    }

    /// The same of the pages of a chain.
    fn meet_each(&mut self, numbers: &[u32]) -> Result<(), SpaceFault>
        ensures grown { OnOk result (Grown self.old self.new numbers.now) }
        ensures cause { IfErr result (MeetRefused self.old.met numbers.now) }
        ensures buffer { self.new.buffer ≡ self.old.buffer }
    {
        for number in numbers {
            self.meet(*number)?;
        }
        Ok(())
    }
}

/// The pages of the tree from page `root`, with the chains of its rows, in tree order.
pub(crate) fn tree_pages<S: PageSpace>(
    alloc: Global,
    space: &mut S,
    root: u32,
) -> Result<Vec<u32>, SpaceFault>
    requires ready { IsReady (S.state space.old) }
    ensures steady { Steady (S.state space.old) (S.state space.new) }
    ensures stays { Stays (S.state space.old) (S.state space.new) }
    ensures found { IfOk result (λ numbers. HasTree (S.state space.old) root numbers.items) }
    ensures refused { IfErr result (SearchRefused (S.state space.old) (S.state space.new) (FreeFails (S.state space.old).pages root)) }
{
    let mut walk = Collected {
        alloc,
        buffer: page_buffer(alloc, space)?,
        numbers: Vec::new(alloc),
        met: BTreeSet::new(alloc),
    };
    // page 1 has the header of the database, and is no page of this tree
    walk.mark(1)?;
    collect(space, &mut walk, MOST_DEPTH, root, root)?;
    Ok(walk.numbers)
}

/// Collects the pages of the tree from page `page`, whose number stands on page `above`, where a path may go over `left` more
/// pages, this one counted.
#[cycle(collect)]
fn collect<S: PageSpace>(
    space: &mut S,
    walk: &mut Collected,
    left: u32,
    above: u32,
    page: u32,
) -> Result<(), SpaceFault>
    requires ready { IsReady (S.state space.old) }
    requires one_page { length walk.old.buffer.items ≡ (S.state space.old).page_size }
    ensures steady { Steady (S.state space.old) (S.state space.new) }
    ensures stays { Stays (S.state space.old) (S.state space.new) }
    ensures gone { OnOk result (GoneOver (S.state space.old) left page walk.old walk.new) }
    ensures refused { IfErr result (SearchRefused (S.state space.old) (S.state space.new) (WalkMeets left (S.state space.old).pages above page walk.old.met)) }
{
    one_page();
    match enter(walk.alloc, space, &mut walk.buffer, left, above, page)? {
        PageCells::Leaf(cells) => collect_rows(space, walk, page, &cells),
        PageCells::Interior { cells, right } => {
            collect_children(space, walk, left - 1, page, cells.as_slice(), right)
        }
    }
}

/// Collects a leaf and the chains of its rows.
fn collect_rows<S: PageSpace>(
    space: &mut S,
    walk: &mut Collected,
    page: u32,
    cells: &LeafCells,
) -> Result<(), SpaceFault>
    requires ready { IsReady (S.state space.old) }
    requires there { HasPage (S.state space.old).pages page }
    requires fits { Fits (LeafPage cells.now) page (S.state space.old).pages.usable }
    requires sizes { HasSizes (S.state space.old) }
    ensures steady { Steady (S.state space.old) (S.state space.new) }
    ensures stays { Stays (S.state space.old) (S.state space.new) }
    ensures gone { OnOk result (LeafGone (S.state space.old) page cells.now walk.old walk.new) }
    ensures refused { IfErr result (SearchRefused (S.state space.old) (S.state space.new) (LeafMeets (S.state space.old).pages page cells.now walk.old.met)) }
{
    one_chain();
    walk.meet(page)?;
    for cell in cells.as_slice() {
        let numbers = pages_of_chain(walk.alloc, space, page, cell)?;
        walk.meet_each(&numbers)?;
    }
    Ok(())
}

/// The pages of the chain of a cell of the leaf on page `leaf`.
fn pages_of_chain<S: PageSpace>(
    alloc: Global,
    space: &mut S,
    leaf: u32,
    cell: &LeafCell,
) -> Result<Vec<u32>, SpaceFault>
    requires ready { IsReady (S.state space.old) }
    requires kept { length cell.now.local ≤ cell.now.payload_len }
    ensures steady { Steady (S.state space.old) (S.state space.new) }
    ensures stays { Stays (S.state space.old) (S.state space.new) }
    ensures pages { IfOk result (λ numbers. HasPages (S.state space.old) cell.now.overflow (rest_of cell.now) numbers.items) }
    ensures refused { IfErr result (SearchRefused (S.state space.old) (S.state space.new) (ChainMeets (S.state space.old).pages leaf cell.now)) }
{
    let rest = cell.payload_len - cell.local.as_slice().len() as u64;
    match chain_pages(alloc, space, cell.overflow, rest) {
        Ok(numbers) => Ok(numbers),
        Err(fault) => Err(of_leaf(space, leaf, fault)),
    }
}

/// Collects the children of an interior page, and the page itself before the right-most of them.
#[cycle(collect)]
fn collect_children<S: PageSpace>(
    space: &mut S,
    walk: &mut Collected,
    left: u32,
    page: u32,
    cells: &[InnerCell],
    right: u32,
) -> Result<(), SpaceFault>
    requires ready { IsReady (S.state space.old) }
    requires one_page { length walk.old.buffer.items ≡ (S.state space.old).page_size }
    requires there { HasPage (S.state space.old).pages page }
    requires has { IsTrue (S.state space.old).tells → HasCells (S.state space.old).pages page (InteriorPage cells.now right) }
    requires sizes { HasSizes (S.state space.old) }
    ensures steady { Steady (S.state space.old) (S.state space.new) }
    ensures stays { Stays (S.state space.old) (S.state space.new) }
    ensures gone { OnOk result (GoneOver (S.state space.old) (suc left) page walk.old walk.new) }
    ensures refused { IfErr result (SearchRefused (S.state space.old) (S.state space.new) (ChildrenMeet left (S.state space.old).pages page cells.now right walk.old.met)) }
{
    one_page();
    one_tree();
    walk.mark(page)?;
    for cell in cells {
        collect(space, walk, left, page, cell.child)?;
    }
    walk.numbers.push(page)?;
    collect(space, walk, left, page, right)
}
