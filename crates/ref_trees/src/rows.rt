//! Lists of rows.

ghost use Rattle.std.specs.Prelude.{◌≡◌, [], ◌∷◌, ◌++◌, OnOk, OnErr};

use db_format::Bytes;
use std::alloc::{AllocError, Global};
use std::marker::Model;

/// Rows, each a rowid and a payload. Contracts see them as a list.
#[derive(Debug, Drop)]
pub struct Rows {
    items: Vec<(i64, Bytes)>,
}

impl Model for Rows {
    ghost use Rattle.std.specs.Prelude.{ℕ, ℤ, List};

    ghost Value = { List (ℤ × List ℕ) };

    ghost view = { λ r. r.items.items };
}

impl Rows {
    /// No rows, without taking memory.
    pub fn new(alloc: Global) -> Rows
        ensures { result ≡ [] }
    {
        Rows {
            items: Vec::new(alloc),
        }
    }

    /// The rows, without taking memory.
    pub fn as_slice(&self) -> &[(i64, Bytes)]
        ensures { result.now ≡ self.now }
    {
        self.items.as_slice()
    }

    /// Puts a row at the end. Without memory the list stays as it was.
    pub fn push(&mut self, rowid: i64, payload: Bytes) -> Result<(), AllocError>
        ensures ok { OnOk result (self.new ≡ self.old ++ (rowid, payload) ∷ []) }
        ensures err { OnErr result (self.new ≡ self.old) }
    {
        self.items.push((rowid, payload))?;
        Ok(())
    }
}
