//! Records with fewer values than a table has columns.

ghost use Rattle.std.specs.Prelude.{◌≡◌, IfOk, option_map};
ghost use Rattle.book_model.specs.Pages.{filled};

use db_format::{Record, Value};
use std::alloc::AllocError;

/// The record with nulls behind its values, as many as make one value a column.
pub(crate) fn fill(mut values: Record, columns: usize) -> Result<Record, AllocError>
    ensures { IfOk result (λ full. full ≡ filled columns values) }
{
    for _ in values.as_slice().len()..columns {
        values.push(Value::Null)?;
    }
    Ok(values)
}

/// The same of a row that was found, or none.
pub(crate) fn fill_found(
    found: Option<Record>,
    columns: usize,
) -> Result<Option<Record>, AllocError>
    ensures { IfOk result (λ full. full ≡ option_map (filled columns) found) }
{
    let Some(values) = found else {
        return Ok(None);
    };
    let full = fill(values, columns)?;
    Ok(Some(full))
}

/// The same of a row with its rowid.
pub(crate) fn fill_next(
    found: Option<(i64, Record)>,
    columns: usize,
) -> Result<Option<(i64, Record)>, AllocError>
    ensures { IfOk result (λ full. full ≡ option_map (λ row. (row.0, filled columns row.1)) found) }
{
    let Some((rowid, values)) = found else {
        return Ok(None);
    };
    let full = fill(values, columns)?;
    Ok(Some((rowid, full)))
}
