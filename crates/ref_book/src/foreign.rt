//! The names of the tables of a schema that are not plain.

ghost use Rattle.std.specs.Prelude.{◌≡◌, ◌++◌, ◌∷◌, [], not, filter, codes, IsTrue, ◌↔◌, IfOk, OnOk, MatchOption};
ghost use Rattle.std.specs.Str.{str_eq_ignore_ascii_case};
ghost use Rattle.book_model.specs.Pages.{once, foreign_in, table_named};

use crate::names::is_alike;
use crate::twin::Twin;
use byte_base::{ByteLists, Bytes};
use db_format::{Record, Value};
use ref_schema::RefTable;
use std::alloc::{AllocError, Global};

/// The names of the tables that the rows of a schema make and that are not plain, each of them once.
pub(crate) fn foreign_of(
    alloc: Global,
    records: &[Record],
    found: &[Option<RefTable>],
) -> Result<ByteLists, AllocError>
    ensures { IfOk result (λ names. names ≡ once (foreign_in records.now found.now)) }
{
    let [first, more @ ..] = records else {
        return Ok(no_names(alloc));
    };
    let [made, others @ ..] = found else {
        return Ok(no_names(alloc));
    };
    let rest = foreign_of(alloc, more, others)?;
    if made.is_some() {
        return Ok(rest);
    }
    match table_named(first.as_slice()) {
        Some(name) => in_front(alloc, name, rest.as_slice()),
        None => Ok(rest),
    }
}

/// No names.
fn no_names(alloc: Global) -> ByteLists
    ensures { result ≡ [] }
{
    ByteLists::from_vec(Vec::new(alloc))
}

/// The name of a table that a row of the schema makes, plain or not.
fn table_named(values: &[Value]) -> Option<&[u8]>
    ensures { MatchOption result (table_named values.now ≡ []) (λ name. table_named values.now ≡ name.now ∷ []) }
{
    match values {
        [Value::Text(kind), Value::Text(name), ..] if is_table(kind.as_slice()) => {
            Some(name.as_slice())
        }
        _ => None,
    }
}

/// Whether a row of this kind is that of a table.
fn is_table(kind: &[u8]) -> bool
    ensures { IsTrue result ↔ kind.now ≡ codes "table" }
{
    kind == b"table".as_slice()
}

/// A name, and behind it those of others that it is not.
fn in_front(alloc: Global, name: &[u8], others: &[Bytes]) -> Result<ByteLists, AllocError>
    ensures { IfOk result (λ all. all ≡ name.now ∷ filter (λ other. not (str_eq_ignore_ascii_case name.now other)) others.now) }
{
    let mut all = no_names(alloc);
    all.push(Bytes::copy_of(alloc, name)?)?;
    push_others(alloc, &mut all, name, others)?;
    Ok(all)
}

/// Puts those of other names that a name is not behind others.
fn push_others(
    alloc: Global,
    all: &mut ByteLists,
    name: &[u8],
    others: &[Bytes],
) -> Result<(), AllocError>
    ensures { OnOk result (all.new ≡ all.old ++ filter (λ other. not (str_eq_ignore_ascii_case name.now other)) others.now) }
{
    let [first, more @ ..] = others else {
        return Ok(());
    };
    if !is_alike(name, first.as_slice()) {
        all.push(first.twin(alloc)?)?;
    }
    push_others(alloc, all, name, more)
}
