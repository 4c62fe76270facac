//! Pages by their numbers.

ghost use Rattle.std.specs.Prelude.{◌≡◌, [], ◌∷◌, ◌++◌, OnOk, OnErr};

use byte_base::Bytes;
use std::alloc::AllocError;
use std::marker::Model;

/// A page of a database file.
#[derive(Debug, Drop)]
pub struct NumberedPage {
    /// Its number, from 1.
    pub number: u32,
    /// Its bytes.
    pub bytes: Bytes,
}

/// Pages by their numbers. Contracts see them as a list.
#[derive(Debug, Drop)]
pub struct PageList {
    items: Vec<NumberedPage>,
}

impl Model for PageList {
    ghost use Rattle.std.specs.Prelude.{List};
    ghost use Rattle.journal_format.specs.declared.pages.NumberedPage.{NumberedPage};

    ghost Value = { List NumberedPage };

    ghost view = { λ p. p.items.items };
}

impl PageList {
    /// The pages of a vector, without taking memory.
    pub fn from_vec(items: Vec<NumberedPage>) -> PageList
        ensures { result ≡ items.items }
    {
        PageList { items }
    }

    /// The pages, without taking memory.
    pub fn as_slice(&self) -> &[NumberedPage]
        ensures { result.now ≡ self.now }
    {
        self.items.as_slice()
    }

    /// Puts a page at the end. Without memory the list stays as it was.
    pub fn push(&mut self, item: NumberedPage) -> Result<(), AllocError>
        ensures ok { OnOk result (self.new ≡ self.old ++ item ∷ []) }
        ensures err { OnErr result (self.new ≡ self.old) }
    {
        self.items.push(item)?;
        Ok(())
    }
}
