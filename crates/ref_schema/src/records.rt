//! The records that rows are.

ghost use Rattle.std.specs.Prelude.{◌≡◌, ◌↔◌, not, ◌||◌, ℕ, ℤ, ◌≤◌, ◌≤ℤ◌, length, pos, codes, List, IsTrue, IfOk, IfSome, IfNone};
ghost use Rattle.std.specs.List.{AllByRecursion};
ghost use Rattle.db_format.specs.declared.value.Value.{Value};
ghost use Rattle.db_format.specs.Schema.{IsSchemaRow, HasRootWithin, IsRecordOf};
ghost use Rattle.ref_schema.specs.Steps.{AreRecords, IsSound, HasKind};

use db_format::{FormatFault, Record, Value, one_record, read_record};
use ref_trees::RefRow;
use std::alloc::{AllocError, Global};

/// The records that the payloads of rows are; `None` where one is no record.
pub fn records_of(alloc: Global, rows: &[RefRow]) -> Result<Option<Vec<Record>>, AllocError>
    ensures found { IfOk result (λ found. IfSome found (λ records. AreRecords rows.now records.items)) }
    ensures none { IfOk result (λ found. IfNone found ((records : List (List Value)) → ¬ (AreRecords rows.now records))) }
{
    let mut records = Vec::new(alloc);
    for row in rows {
        match read_record(alloc, row.payload()) {
            Ok(record) => records.push(record)?,
            Err(FormatFault::Corrupt) => return Ok(None),
            Err(FormatFault::Memory) => return Err(AllocError),
        }
    }
    Ok(Some(records))
}

/// Whether every payload is a record of at most so many values.
pub(crate) fn are_records_of(
    alloc: Global,
    rows: &[RefRow],
    columns: usize,
) -> Result<bool, AllocError>
    ensures { IfOk result (λ all. IsTrue all ↔ AllByRecursion (λ row. IsRecordOf columns row.payload) rows.now) }
{
    match rows {
        [] => Ok(true),
        [row, more @ ..] => {
            if is_record_of(alloc, row.payload(), columns)? {
                are_records_of(alloc, more, columns)
            } else {
                Ok(false)
            }
        }
    }
}

/// Whether a payload is a record of at most so many values.
fn is_record_of(alloc: Global, payload: &[u8], columns: usize) -> Result<bool, AllocError>
    ensures { IfOk result (λ yes. IsTrue yes ↔ IsRecordOf columns payload.now) }
{
    one_record();
    match read_record(alloc, payload) {
        Ok(values) => Ok(are_few(&values, columns)),
        Err(FormatFault::Corrupt) => Ok(false),
        Err(FormatFault::Memory) => Err(AllocError),
    }
}

/// Whether there are at most so many values.
fn are_few(values: &Record, columns: usize) -> bool
    ensures { IsTrue result ↔ length values.now ≤ columns }
{
    values.as_slice().len() <= columns
}

/// Whether each record is one that a row of the schema may have.
pub(crate) fn are_sound(records: &[Record], size: u32) -> bool
    ensures { IsTrue result ↔ AllByRecursion (IsSound size) records.now }
{
    match records {
        [] => true,
        [record, more @ ..] => is_sound(record.as_slice(), size) && are_sound(more, size),
    }
}

/// Whether a record is one.
fn is_sound(values: &[Value], size: u32) -> bool
    ensures { IsTrue result ↔ IsSound size values.now }
{
    is_schema_row(values) && has_root_within(values, size)
}

/// Whether there are five values, and the first is a text.
fn is_schema_row(values: &[Value]) -> bool
    ensures { IsTrue result ↔ IsSchemaRow values.now }
{
    matches!(values, [Value::Text(_), _, _, _, _])
}

/// Whether the root of a table, where it is an integer, is not past so many pages.
fn has_root_within(values: &[Value], size: u32) -> bool
    ensures { IsTrue result ↔ HasRootWithin size values.now }
{
    match kind_and_root(values) {
        Some((kind, root)) => is_fine(is_table(kind), is_at_most(root, size)),
        None => true,
    }
}

/// Whether a row is no table's, or its root is fine.
fn is_fine(table: bool, root: bool) -> bool
    ensures { result ≡ (not table || root) }
{
    !table || root
}

/// The first of five values where it is a text, and the fourth where that is an integer.
fn kind_and_root(values: &[Value]) -> Option<(&[u8], i64)>
    ensures some { IfSome result (λ found. HasKind values.now found.0.now found.1) }
    ensures none { IfNone result ((kind : List ℕ) (root : ℤ) → ¬ (HasKind values.now kind root)) }
{
    match values {
        [Value::Text(kind), _, _, Value::Int(root), _] => Some((kind.as_slice(), *root)),
        _ => None,
    }
}

/// Whether a row of this kind is that of a table.
fn is_table(kind: &[u8]) -> bool
    ensures { IsTrue result ↔ kind.now ≡ codes "table" }
{
    kind == b"table".as_slice()
}

/// Whether a number is at most so many pages.
fn is_at_most(root: i64, size: u32) -> bool
    ensures { IsTrue result ↔ root ≤ℤ pos size }
{
    root <= i64::from(size)
}
