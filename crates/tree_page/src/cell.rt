//! Cells of table b-tree pages, and lists of them.

ghost use Rattle.std.specs.Prelude.{◌≡◌, ◌<◌, [], ◌∷◌, ◌++◌, length, slice_get, IfSome, OnOk, OnErr};
ghost use Rattle.tree_page.specs.Page.{cells_of, page_kind, rowid_of};

use db_format::Bytes;
use std::alloc::AllocError;
use std::marker::Model;

/// The kind of a page.
#[derive(Clone, Copy, Debug, PartialEq, Eq)]
pub(crate) enum Kind {
    /// It has rows.
    Leaf,
    /// It has the numbers of other pages.
    Interior,
}

/// A row, as the cell of a leaf has it.
#[derive(Debug, Drop)]
pub struct LeafCell {
    /// The rowid, which is the key.
    pub rowid: i64,
    /// How many bytes the whole payload has.
    pub payload_len: u64,
    /// The bytes of the payload that stand in the cell: its first `local_size` ones.
    pub local: Bytes,
    /// The page where the rest of the payload begins, 0 where there is no rest.
    pub overflow: u32,
}

/// A page below an interior page.
#[derive(Clone, Copy, Debug, PartialEq, Eq)]
pub struct InnerCell {
    /// The number of the page.
    pub child: u32,
    /// The key: no row below that page has a greater rowid.
    pub rowid: i64,
}

/// The cells of a leaf. Contracts see them as a list.
#[derive(Debug, Drop)]
pub struct LeafCells {
    items: Vec<LeafCell>,
}

impl Model for LeafCells {
    ghost use Rattle.std.specs.Prelude.{List};
    ghost use Rattle.tree_page.specs.declared.cell.LeafCell.{LeafCell};

    ghost Value = { List LeafCell };

    ghost view = { λ c. c.items.items };
}

impl LeafCells {
    /// The cells of a vector, without taking memory.
    pub fn from_vec(items: Vec<LeafCell>) -> LeafCells
        ensures { result ≡ items.items }
    {
        LeafCells { items }
    }

    /// The vector of the cells, without taking memory.
    pub fn into_vec(self) -> Vec<LeafCell>
        ensures { result.items ≡ self }
    {
        self.items
    }

    /// The cells, without taking memory.
    pub fn as_slice(&self) -> &[LeafCell]
        ensures { result.now ≡ self.now }
    {
        self.items.as_slice()
    }

    /// Puts a cell at the end. Without memory the list stays as it was.
    pub fn push(&mut self, item: LeafCell) -> Result<(), AllocError>
        ensures ok { OnOk result (self.new ≡ self.old ++ item ∷ []) }
        ensures err { OnErr result (self.new ≡ self.old) }
    {
        self.items.push(item)?;
        Ok(())
    }
}

/// The cells of an interior page. Contracts see them as a list.
#[derive(Debug, Drop)]
pub struct InnerCells {
    items: Vec<InnerCell>,
}

impl Model for InnerCells {
    ghost use Rattle.std.specs.Prelude.{List};
    ghost use Rattle.tree_page.specs.declared.cell.InnerCell.{InnerCell};

    ghost Value = { List InnerCell };

    ghost view = { λ c. c.items.items };
}

impl InnerCells {
    /// The cells of a vector, without taking memory.
    pub fn from_vec(items: Vec<InnerCell>) -> InnerCells
        ensures { result ≡ items.items }
    {
        InnerCells { items }
    }

    /// The vector of the cells, without taking memory.
    pub fn into_vec(self) -> Vec<InnerCell>
        ensures { result.items ≡ self }
    {
        self.items
    }

    /// The cells, without taking memory.
    pub fn as_slice(&self) -> &[InnerCell]
        ensures { result.now ≡ self.now }
    {
        self.items.as_slice()
    }

    /// Puts a cell at the end. Without memory the list stays as it was.
    pub fn push(&mut self, item: InnerCell) -> Result<(), AllocError>
        ensures ok { OnOk result (self.new ≡ self.old ++ item ∷ []) }
        ensures err { OnErr result (self.new ≡ self.old) }
    {
        self.items.push(item)?;
        Ok(())
    }
}

/// The cells of a page, in rising order of their rowids.
#[derive(Debug, Drop)]
pub enum PageCells {
    /// Those of a leaf.
    Leaf(LeafCells),
    /// Those of an interior page.
    Interior {
        /// The pages below, each with the greatest rowid that may stand there.
        cells: InnerCells,
        /// The number of the right-most page below, whose rowids are greater than all keys.
        right: u32,
    },
}

impl PageCells {
    /// The kind of the page.
    pub(crate) fn kind(&self) -> Kind
        ensures { result ≡ page_kind self.now }
    {
        match self {
            PageCells::Leaf(_) => Kind::Leaf,
            PageCells::Interior { .. } => Kind::Interior,
        }
    }

    /// How many cells there are.
    pub fn len(&self) -> usize
        ensures { result ≡ length (cells_of self.now) }
    {
        match self {
            PageCells::Leaf(cells) => cells.as_slice().len(),
            PageCells::Interior { cells, .. } => cells.as_slice().len(),
        }
    }

    /// The rowid of a cell.
    pub(crate) fn rowid(&self, at: usize) -> i64
        requires { at < length (cells_of self.now) }
        ensures { IfSome (slice_get (cells_of self.now) at) (λ cell. result ≡ rowid_of cell) }
    {
        match self {
            PageCells::Leaf(cells) => cells.as_slice()[at].rowid,
            PageCells::Interior { cells, .. } => cells.as_slice()[at].rowid,
        }
    }
}
