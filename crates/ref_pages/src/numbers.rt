//! Lists of page numbers.

ghost use Rattle.std.specs.Prelude.{◌≡◌, ℕ, List, [], ◌∷◌, ◌++◌, OnOk, OnErr};

use std::alloc::{AllocError, Global};
use std::marker::Model;

/// Numbers of pages. Contracts see them as a list.
#[derive(Debug, Drop)]
pub struct PageNumbers {
    items: Vec<u32>,
}

impl Model for PageNumbers {
    ghost use Rattle.std.specs.Prelude.{ℕ, List};

    ghost Value = { List ℕ };

    ghost view = { λ n. n.items.items };
}

impl PageNumbers {
    /// No numbers, without taking memory.
    pub fn new(alloc: Global) -> PageNumbers
        ensures { result ≡ [] }
    {
        PageNumbers {
            items: Vec::new(alloc),
        }
    }

    /// The numbers, without taking memory.
    pub fn as_slice(&self) -> &[u32]
        ensures { result.now ≡ self.now }
    {
        self.items.as_slice()
    }

    /// Puts a number at the end. Without memory the list stays as it was.
    pub fn push(&mut self, number: u32) -> Result<(), AllocError>
        ensures ok { OnOk result (self.new ≡ self.old ++ number ∷ []) }
        ensures err { OnErr result (self.new ≡ self.old) }
    {
        self.items.push(number)?;
        Ok(())
    }
}
