//! The rows of the row file.

ghost use Rattle.std.specs.Prelude.{◌≡◌, ℕ, ℤ, ◌≤◌, List, ◌∷◌, ◌++◌, length, is_some, OnOk, OnErr, IfOk};
ghost use Rattle.std.specs.FinMap as map;
ghost use Rattle.std.specs.FinMap.Entries.{put};
ghost use Rattle.std.specs.List.{flat_map};
ghost use Rattle.std.specs.Ordering.{int_cmp};
ghost use Rattle.shell_top.specs.Rows.{row_bytes, row_file};
ghost use Rattle.shell_top.specs.Kept.{AreKept, bytes_left};

use std::alloc::{AllocError, Global};
use std::cmp::Ordering;
use std::collections::BTreeMap;
use std::marker::Model;
use vfs_trait::Bytes;

/// Texts by their rowids. Contracts see them as a finite map.
#[derive(Drop)]
pub struct Rows {
    rows: BTreeMap<i64, Bytes>,
}

impl Model for Rows {
    ghost use Rattle.std.specs.Prelude.{ℤ, ℕ, List};
    ghost use Rattle.std.specs.Ordering.{int_cmp};
    ghost use Rattle.std.specs.Coded.{coded_ℤ, coded_ℕ, coded_list};
    ghost use Rattle.std.specs.FinMap as map;

    ghost Value = { map.FinMap int_cmp (List ℕ) };

    ghost coded = { map.code coded_ℤ (coded_list coded_ℕ) };

    ghost view = { λ r. map.from_sorted r.rows.entries };

    ghost use Rattle.shell_top.specs.Kept.{AreKept, bytes_left};

    ghost invariant = { λ r. AreKept r.rows.entries };
}

impl Rows {
    /// No rows.
    pub fn new(alloc: Global) -> Rows
        ensures { result ≡ map.empty }
    {
        Rows {
            rows: BTreeMap::new(alloc),
        }
    }

    /// The row file of the rows with one more put into them.
    pub fn file_with(&self, alloc: Global, rowid: i64, text: &[u8]) -> Result<Vec<u8>, AllocError>
        requires { length text.now ≤ 65536 }
        ensures { IfOk result (λ file. file.items ≡ row_file (map.insert self.now rowid text.now)) }
    {
        file_of(alloc, &self.rows, rowid, text)
    }

    /// Puts a text at a rowid, and says whether one was there. Without memory the rows are as they were.
    pub fn put(&mut self, rowid: i64, text: Bytes) -> Result<bool, AllocError>
        requires { length text ≤ 65536 }
        ensures replaced { IfOk result (λ replaced. replaced ≡ is_some (map.get self.old rowid)) }
        ensures ok { OnOk result (self.new ≡ map.insert self.old rowid text) }
        ensures err { OnErr result (self.new ≡ self.old) }
    {
        Ok(self.rows.insert(rowid, text)?.is_some())
    }
}

/// The row file of these rows with one more put into them.
fn file_of(
    alloc: Global,
    rows: &BTreeMap<i64, Bytes>,
    rowid: i64,
    text: &[u8],
) -> Result<Vec<u8>, AllocError>
    requires kept { AreKept rows.now.entries }
    requires short { length text.now ≤ 65536 }
    ensures { IfOk result (λ file. file.items ≡ flat_map row_bytes (put int_cmp rowid text.now rows.now.entries)) }
{
    let mut file = Vec::new(alloc);
    let mut placed = false;
    for (other, there) in rows {
        placed = place_row(&mut file, placed, rowid, text, *other, there.as_slice())?;
    }
    if !placed {
        push_row(&mut file, rowid, text)?;
    }
    Ok(file)
}

/// Adds the next of the rows, and the new one before it or in place of it where it belongs there. Says whether
/// the new one was added by now.
fn place_row(
    file: &mut Vec<u8>,
    placed: bool,
    rowid: i64,
    text: &[u8],
    other: i64,
    there: &[u8],
) -> Result<bool, AllocError>
    requires new { length text.now ≤ 65536 }
    requires old { length there.now ≤ 65536 }
    ensures { IfOk result (λ now. (rest : List (ℤ × List ℕ)) →
        file.new.items ++ bytes_left now rowid text.now rest ≡ file.old.items ++ bytes_left placed rowid text.now ((other, there.now) ∷ rest)) }
{
    if placed {
        push_row(file, other, there)?;
        return Ok(true);
    }
    match rowid.cmp(&other) {
        Ordering::Less => {
            push_row(file, rowid, text)?;
            push_row(file, other, there)?;
            Ok(true)
        }
        Ordering::Equal => {
            push_row(file, other, text)?;
            Ok(true)
        }
        Ordering::Greater => {
            push_row(file, other, there)?;
            Ok(false)
        }
    }
}

/// Adds a row to the bytes of a row file.
fn push_row(file: &mut Vec<u8>, rowid: i64, text: &[u8]) -> Result<(), AllocError>
    requires { length text.now ≤ 65536 }
    ensures { OnOk result (file.new.items ≡ file.old.items ++ row_bytes (rowid, text.now)) }
{
    file.extend_from_slice(&rowid.to_be_bytes())?;
    file.extend_from_slice(&(text.len() as u32).to_be_bytes())?;
    file.extend_from_slice(text)?;
    Ok(())
}
