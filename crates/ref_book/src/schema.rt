//! The row of the schema for a new table.

ghost use Rattle.std.specs.Prelude.{◌≡◌, pos, ◌<◌, ◌^◌, ◌≤ℤ◌, length, IfOk, OnOk, map, reverse, ◌++◌};
ghost use Rattle.std.specs.List.{join_with_byte};
ghost use Rattle.db_format.specs.Create.{written};
ghost use Rattle.book_model.specs.Book.{next_of, free_below, entry_row};

use crate::row::KeptRow;
use crate::twin::Twin;
use byte_base::{ByteLists, Bytes};
use db_format::{Record, Value};
use std::alloc::{AllocError, Global};

/// The rowid of a new row of the schema: one more than the greatest, or where that is the greatest that there can be, the greatest that
/// is free.
pub(crate) fn next_entry(schema: &[(i64, KeptRow)]) -> i64
    ensures { result ≡ next_of (reverse (map (λ e. e.0) schema.now)) }
{
    match schema {
        [] => 1,
        [.., last] if last.0 == i64::MAX => free_below(schema, i64::MAX),
        [.., last] => last.0 + 1,
    }
}

/// The greatest number up to one that is no key of these, of which there are no more than that number says.
#[tactic(auto, using(crate::proofs::Maps::reversed))]
fn free_below(schema: &[(i64, KeptRow)], number: i64) -> i64
    requires { pos (length schema.now) ≤ℤ number }
    ensures { result ≡ free_below number (reverse (map (λ e. e.0) schema.now)) }
{
    let [front @ .., last] = schema else {
        return number;
    };
    if !last.0.cmp(&number).is_eq() {
        return number;
    }
    free_below(front, number - 1)
}

/// The row of the schema for a table with its root on a page.
pub(crate) fn entry_row(
    alloc: Global,
    name: &Bytes,
    columns: &ByteLists,
    root: u64,
) -> Result<KeptRow, AllocError>
    requires { root < 2 ^ 63 }
    ensures { IfOk result (λ row. row ≡ entry_row name.now columns.now root) }
{
    let mut values = Record::from_vec(Vec::new(alloc));
    values.push(Value::Text(Bytes::copy_of(alloc, b"table")?))?;
    values.push(Value::Text(name.twin(alloc)?))?;
    values.push(Value::Text(name.twin(alloc)?))?;
    values.push(Value::Int(root as i64))?;
    values.push(Value::Text(text_of(alloc, name, columns)?))?;
    let row = KeptRow::written(values)?;
    Ok(row)
}

/// The text of a table.
fn text_of(alloc: Global, name: &Bytes, columns: &ByteLists) -> Result<Bytes, AllocError>
    ensures { IfOk result (λ text. text ≡ written (record { name = name.now; columns = columns.now })) }
{
    let mut text = Bytes::copy_of(alloc, b"CREATE TABLE ")?;
    text.extend_from_slice(name.as_slice())?;
    text.push(b'(')?;
    push_columns(&mut text, columns.as_slice())?;
    text.push(b')')?;
    Ok(text)
}

/// Puts names behind a text, with a comma between two.
fn push_columns(text: &mut Bytes, names: &[Bytes]) -> Result<(), AllocError>
    ensures { OnOk result (text.new ≡ text.old ++ join_with_byte 44 names.now) }
{
    match names {
        [] => Ok(()),
        [only] => text.extend_from_slice(only.as_slice()),
        [first, more @ ..] => {
            text.extend_from_slice(first.as_slice())?;
            text.push(b',')?;
            push_columns(text, more)
        }
    }
}
