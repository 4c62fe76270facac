//! The rows of a tree as the entries of a map.

ghost use Rattle.std.specs.Prelude.{◌≡◌, ◌++◌, length, replicate, IfOk, OnOk};
ghost use Rattle.std.specs.Ordering.{int_cmp};
ghost use Rattle.std.specs.FinMap.{entries, from_entries};
ghost use Rattle.db_format.specs.declared.value.Value.TheVariants.{Null};
ghost use Rattle.book_model.specs.Pages.{filled, entries_of};

use crate::row::KeptRow;
use crate::sorted::sorted;
use crate::twin::Twin;
use db_format::{Record, Value};
use ref_trees::RefRow;
use std::alloc::{AllocError, Global};

/// The rows of a tree in the order of their rowids, each with its values, filled up with nulls to so many columns.
pub(crate) fn rows_by_rowid(
    alloc: Global,
    rows: &[RefRow],
    contents: &[Record],
    columns: usize,
) -> Result<Vec<(i64, KeptRow)>, AllocError>
    ensures { IfOk result (λ all. all.items ≡ entries (from_entries {R = int_cmp} (entries_of columns rows.now contents.now))) }
{
    let mut listed = Vec::new(alloc);
    push_entries(alloc, &mut listed, rows, contents, columns)?;
    let all = sorted(alloc, &listed)?;
    Ok(all)
}

/// Puts the rows of a tree behind others.
fn push_entries(
    alloc: Global,
    all: &mut Vec<(i64, KeptRow)>,
    rows: &[RefRow],
    contents: &[Record],
    columns: usize,
) -> Result<(), AllocError>
    ensures { OnOk result (all.new.items ≡ all.old.items ++ entries_of columns rows.now contents.now) }
{
    let [row, more @ ..] = rows else {
        return Ok(());
    };
    let [values, others @ ..] = contents else {
        return Ok(());
    };
    let kept = stored_row(alloc, row, values, columns)?;
    all.push((row.rowid(), kept))?;
    push_entries(alloc, all, more, others, columns)
}

/// A row as it is stored.
fn stored_row(
    alloc: Global,
    row: &RefRow,
    values: &Record,
    columns: usize,
) -> Result<KeptRow, AllocError>
    ensures { IfOk result (λ kept. kept ≡ record { values = filled columns values.now; size = length row.now.payload }) }
{
    let size = row.payload().len() as u64;
    let values = filled_up(alloc, values, columns)?;
    Ok(KeptRow::stored(values, size))
}

/// Values filled up with nulls to so many columns.
fn filled_up(alloc: Global, values: &Record, columns: usize) -> Result<Record, AllocError>
    ensures { IfOk result (λ all. all ≡ filled columns values.now) }
{
    let mut all = values.twin(alloc)?;
    let missing = columns.saturating_sub(values.as_slice().len());
    push_nulls(&mut all, missing)?;
    Ok(all)
}

/// Puts so many nulls behind values.
fn push_nulls(values: &mut Record, count: usize) -> Result<(), AllocError>
    ensures { OnOk result (values.new ≡ values.old ++ replicate count Null) }
{
    if count == 0 {
        return Ok(());
    }
    values.push(Value::Null)?;
    push_nulls(values, count - 1)
}
