//! Names that are one but for the case of ASCII letters.

ghost use Rattle.std.specs.Prelude.{◌≡◌, map, not, filter, ◌++◌, ◌||◌, if◌then◌else◌, []};
ghost use Rattle.std.specs.List.{list_any, flat_map};
ghost use Rattle.std.specs.Str.{str_eq_ignore_ascii_case};
ghost use Rattle.book_model.specs.Book.{text_in, is_on_table, taken_by};

use crate::row::KeptRow;
use crate::table::KeptTable;
use byte_base::Bytes;
use db_format::Value;

/// Whether two names are one but for the case of ASCII letters.
pub(crate) fn is_alike(one: &[u8], other: &[u8]) -> bool
    ensures { result ≡ str_eq_ignore_ascii_case one.now other.now }
{
    one.eq_ignore_ascii_case(other)
}

/// Whether a table has the name.
pub(crate) fn is_table_name(tables: &[(Bytes, KeptTable)], name: &[u8]) -> bool
    ensures { result ≡ list_any (str_eq_ignore_ascii_case name.now) (map (λ e. e.0) tables.now) }
{
    match tables {
        [] => false,
        [first, more @ ..] => is_alike(name, first.0.as_slice()) || is_table_name(more, name),
    }
}

/// Whether the name is one of those that no plain table has.
pub(crate) fn is_foreign_name(foreign: &[Bytes], tables: &[(Bytes, KeptTable)], name: &[u8]) -> bool
    ensures { result ≡ list_any (str_eq_ignore_ascii_case name.now) (filter (λ n. not (list_any (str_eq_ignore_ascii_case n) (map (λ e. e.0) tables.now))) foreign.now) }
{
    let [first, more @ ..] = foreign else {
        return false;
    };
    if !is_table_name(tables, first.as_slice()) && is_alike(name, first.as_slice()) {
        return true;
    }
    is_foreign_name(more, tables, name)
}

/// Whether a row of the schema takes the name.
pub(crate) fn is_taken_name(schema: &[(i64, KeptRow)], name: &[u8]) -> bool
    ensures { result ≡ list_any (str_eq_ignore_ascii_case name.now) (flat_map (λ row. taken_by row.values) (map (λ e. e.1) schema.now)) }
{
    match schema {
        [] => false,
        [first, more @ ..] => { takes(first.1.values(), name) || is_taken_name(more, name) }
    }
}

/// Whether these values of a row of the schema take the name.
fn takes(values: &[Value], name: &[u8]) -> bool
    ensures { result ≡ list_any (str_eq_ignore_ascii_case name.now) (taken_by values.now) }
{
    match values {
        [kind, own, table, ..] => {
            is_text(own, name) || (is_on_table(kind) && is_text(table, name))
        }
        _ => false,
    }
}

/// Whether a value is a text with the name.
fn is_text(value: &Value, name: &[u8]) -> bool
    ensures { result ≡ list_any (str_eq_ignore_ascii_case name.now) (text_in value.now) }
{
    match value {
        Value::Text(text) => is_alike(name, text.as_slice()),
        _ => false,
    }
}

/// Whether rows of a kind stand on a table.
fn is_on_table(kind: &Value) -> bool
    ensures { result ≡ is_on_table kind.now }
{
    match kind {
        Value::Text(kind) => {
            kind.as_slice() == b"index".as_slice() || kind.as_slice() == b"trigger".as_slice()
        }
        _ => false,
    }
}
