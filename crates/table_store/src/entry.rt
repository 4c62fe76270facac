//! The name of a new table, and the rowid of its row in the schema.

ghost use Rattle.std.specs.Prelude.{◌≡◌, IsTrue, IfOk, IfErr, reverse};
ghost use Rattle.std.specs.List.{flat_map};
ghost use Rattle.page_pool.specs.Space.{IsReady, Steady, Stays};
ghost use Rattle.tree_model.specs.Whole.{greatest};
ghost use Rattle.book_model.specs.Book.{taken_by, text_in, is_on_table as stands_on_table, next_of, free_below};
ghost use Rattle.book_reads.specs.Reads.{is_named};
ghost use Rattle.table_store.specs.Made.{IsFreeIn};
ghost use Rattle.table_store.specs.MakeSteps.{NameRefused};

use crate::fault::TableFault;
use crate::schema::{is_alike, read_schema};
use db_format::{Record, Value};
use page_pool::PageSpace;
use std::alloc::Global;

/// The rowid for the row of a new table. Refused as going over the schema is, and with `Exists` where the name is taken.
pub(crate) fn free_entry<S: PageSpace>(
    alloc: Global,
    space: &mut S,
    name: &[u8],
) -> Result<i64, TableFault>
    requires ready { IsReady (S.state space.old) }
    ensures steady { Steady (S.state space.old) (S.state space.new) }
    ensures stays { Stays (S.state space.old) (S.state space.new) }
    ensures found { IsTrue (S.state space.old).tells → IfOk result (IsFreeIn (S.state space.old).pages name.now) }
    ensures refused { IfErr result (NameRefused (S.state space.old) (S.state space.new) name.now) }
{
    let schema = read_schema(alloc, space)?;
    if is_taken(&schema.rows, name) {
        return Err(TableFault::Exists);
    }
    Ok(next_entry(&schema.rowids))
}

/// Whether a row of the schema takes the name, in letters of either case: as its own, or, of an index or a trigger, as that of its table.
fn is_taken(rows: &[Record], name: &[u8]) -> bool
    ensures { result ≡ is_named (flat_map taken_by rows.now) name.now }
{
    rows.iter().any(|record| takes(record.as_slice(), name))
}

/// Whether one row takes it.
fn takes(values: &[Value], name: &[u8]) -> bool
    ensures { result ≡ is_named (taken_by values.now) name.now }
{
    match values {
        [kind, own, table, ..] => {
            is_text(own, name) || (is_on_table(kind) && is_text(table, name))
        }
        _ => false,
    }
}

/// Whether a value is a text that is the name.
fn is_text(value: &Value, name: &[u8]) -> bool
    ensures { result ≡ is_named (text_in value.now) name.now }
{
    match value {
        Value::Text(own) => is_alike(name, own.as_slice()),
        _ => false,
    }
}

/// Whether a row of this kind is that of an index or a trigger.
fn is_on_table(kind: &Value) -> bool
    ensures { result ≡ stands_on_table kind.now }
{
    match kind {
        Value::Text(kind) => kind.as_slice() == b"index".as_slice()
            || kind.as_slice() == b"trigger".as_slice(),
        _ => false,
    }
}

/// One more than the greatest rowid; 1 where there is none; and behind the greatest that there can be, the greatest that is free.
fn next_entry(rowids: &[i64]) -> i64
    ensures { result ≡ next_of (reverse rowids.now) }
{
    match rowids {
        [] => 1,
        [.., last] if *last == i64::MAX => greatest_free(rowids),
        [.., last] => *last + 1,
    }
}

/// The greatest rowid that is none of these, which rise.
#[tactic(auto, using(crate::proofs::CreateEntryLemmas::reversed))]
fn greatest_free(rowids: &[i64]) -> i64
    ensures { result ≡ free_below greatest (reverse rowids.now) }
{
    let mut free = i64::MAX;
    let mut left = rowids;
    while let [more @ .., last] = left {
        if *last != free {
            return free;
        }
        free -= 1;
        left = more;
    }
    free
}
