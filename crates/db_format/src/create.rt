//! The texts by which the schema of a database keeps its tables, as far as they are plain: a name and
//! columns.
//!
//! After sqlite.org, "Database File Format", section 2.6. SQLite keeps any `CREATE TABLE` there. A text is
//! plain here where it has no types, no constraints, no quotes, no comments and no upper-case name; all
//! others need SQL, and are left as they are. A plain text may name a table or a column by a word that SQL
//! does not take for a name.

ghost use Rattle.std.specs.Prelude.{◌≡◌, ◌≢◌, ℕ, ◌+◌, ◌-◌, ◌≤◌, ◌<◌, ◌==◌, ◌↔◌, List, [], ◌∷◌, ◌++◌, length, take, drop, map, count_by, position, IsTrue, All, AllPairs, Contains, Some, OnOk, IfOk, IfSome, IfNone, IsSomeAnd};
ghost use Rattle.std.specs.List.{join_with_byte};
ghost use Rattle.db_format.specs.Create.{is_identifier_byte, IsIdentifier, AreColumns, IsPlain, SpellsColumns, HasParts, Spells, OneCreate, written};
ghost use Rattle.db_format.specs.CreateSteps.{after_blanks, before_blanks};
ghost use Rattle.db_format.specs.declared.create.Create.{Create};

use crate::{ByteLists, Bytes};
use std::alloc::{AllocError, Global};

/// What each plain text begins with.
const CREATE_TABLE: &[u8; 13] = b"CREATE TABLE ";

/// What no name of a table or a column begins with.
const SQLITE: &[u8; 7] = b"sqlite_";

/// The most bytes of a name.
const NAME_LEN: usize = 64;

/// The most columns of a table.
const COLUMNS: usize = 32;

/// A plain table.
#[derive(Debug, Drop)]
pub struct Create {
    /// Its name.
    pub name: Bytes,
    /// The names of its columns, in order.
    pub columns: ByteLists,
}

/// The plain table that a text spells, or `None` where the text is not plain. Refused only for want of
/// memory.
pub fn read_create(alloc: Global, sql: &[u8]) -> Result<Option<Create>, AllocError>
    ensures found { IfOk result (λ found. IfSome found (Spells sql.now)) }
    ensures only { (create : Create) → Spells sql.now create → IfOk result (λ found. found ≡ Some create) }
{
    let Some((name, inside)) = parts(sql) else {
        return Ok(None);
    };
    if !is_identifier(name) || commas(inside) >= COLUMNS {
        return Ok(None);
    }
    let columns = columns_of(alloc, inside)?;
    if !are_columns(columns.as_slice()) {
        return Ok(None);
    }
    let name = Bytes::from_vec(Vec::from_slice(alloc, name)?);
    Ok(Some(Create { name, columns }))
}

/// The text of a plain table, with no blanks but the two that SQL asks for.
pub fn write_create(alloc: Global, create: &Create) -> Result<Bytes, AllocError>
    requires { IsPlain create.now }
    ensures written { IfOk result (λ text. text ≡ written create.now) }
    ensures reads { IfOk result (λ text. Spells text create.now) }
{
    let mut text = Vec::from_slice(alloc, CREATE_TABLE)?;
    text.extend_from_slice(create.name.as_slice())?;
    text.push(b'(')?;
    join(&mut text, create.columns.as_slice())?;
    text.push(b')')?;
    Ok(Bytes::from_vec(text))
}

/// No text spells two tables.
pub fn one_create()
    ensures { OneCreate }
{}

/// Puts the names behind the text, with a comma between two.
fn join(text: &mut Vec<u8>, names: &[Bytes]) -> Result<(), AllocError>
    ensures { OnOk result (text.new.items ≡ text.old.items ++ join_with_byte 44 names.now) }
{
    let [first, rest @ ..] = names else {
        return Ok(());
    };
    text.extend_from_slice(first.as_slice())?;
    for name in rest {
        text.push(b',')?;
        text.extend_from_slice(name.as_slice())?;
    }
    Ok(())
}

/// The name in front of the first parenthesis, and what stands behind that up to the last one; `None` where
/// the text begins or ends otherwise.
fn parts(sql: &[u8]) -> Option<(&[u8], &[u8])>
    ensures found { IfSome result (λ found. HasParts sql.now found.0.now found.1.now) }
    ensures only { (name inside : List ℕ) → IsIdentifier name → HasParts sql.now name inside → IsSomeAnd result (λ found. (found.0.now ≡ name) × (found.1.now ≡ inside)) }
{
    let rest = sql.strip_prefix(CREATE_TABLE)?;
    let (name, rest) = at_parenthesis(rest)?;
    let inside = before_blanks(rest).strip_suffix(b")")?;
    Some((before_blanks(name), inside))
}

/// What stands before the first opening parenthesis, and what stands behind it.
fn at_parenthesis(text: &[u8]) -> Option<(&[u8], &[u8])>
    ensures found { IfSome result (λ found. (text.now ≡ found.0.now ++ 40 ∷ found.1.now) × All (λ b. b ≢ 40) found.0.now) }
    ensures none { IfNone result (All (λ b. b ≢ 40) text.now) }
{
    let at = text.iter().position(|b| *b == b'(')?;
    Some((&text[..at], &text[at + 1..]))
}

/// The number of commas.
fn commas(text: &[u8]) -> usize
    ensures { result ≡ count_by (λ b. b == 44) text.now }
{
    text.iter().filter(|b| **b == b',').count()
}

/// What stands between commas, without the blanks around it.
fn columns_of(alloc: Global, inside: &[u8]) -> Result<ByteLists, AllocError>
    ensures found { IfOk result (SpellsColumns inside.now) }
    ensures only { (columns : List (List ℕ)) → AreColumns columns → SpellsColumns inside.now columns → IfOk result (λ found. found ≡ columns) }
{
    let mut columns = Vec::new(alloc);
    for piece in inside.split(|b| *b == b',') {
        let column = after_blanks(before_blanks(piece));
        columns.push(Bytes::from_vec(Vec::from_slice(alloc, column)?))?;
    }
    Ok(ByteLists::from_vec(columns))
}

/// Whether these bytes may name a table or a column.
pub fn is_identifier(name: &[u8]) -> bool
    ensures { IsTrue result ↔ IsIdentifier name.now }
{
    match name {
        [first, ..] => {
            first.is_ascii_lowercase()
                && name.len() <= NAME_LEN
                && name.iter().all(|b| is_identifier_byte(*b))
                && !name.starts_with(SQLITE)
        }
        [] => false,
    }
}

/// Whether a name may have this byte.
fn is_identifier_byte(b: u8) -> bool
    ensures { result ≡ is_identifier_byte b }
{
    b.is_ascii_lowercase() || b.is_ascii_digit() || b == b'_'
}

/// Whether a table may have these columns.
pub fn are_columns(columns: &[Bytes]) -> bool
    ensures { IsTrue result ↔ AreColumns columns.now }
{
    !columns.is_empty()
        && columns.len() <= COLUMNS
        && columns
            .iter()
            .all(|column| is_identifier(column.as_slice()))
        && are_different(columns)
}

/// Whether no name stands twice.
fn are_different(names: &[Bytes]) -> bool
    ensures { IsTrue result ↔ AllPairs (λ a b. a ≢ b) names.now }
{
    for at in 0..names.len() {
        if contains(&names[..at], names[at].as_slice()) {
            return false;
        }
    }
    true
}

/// Whether the name is among these.
fn contains(names: &[Bytes], name: &[u8]) -> bool
    ensures { IsTrue result ↔ Contains names.now name.now }
{
    names.iter().any(|other| other.as_slice() == name)
}

/// The text without the blanks at its beginning.
fn after_blanks(mut text: &[u8]) -> &[u8]
    ensures { result.now ≡ after_blanks text.now }
{
    while let [b' ', rest @ ..] = text {
        text = rest;
    }
    text
}

/// The text without the blanks at its end.
fn before_blanks(mut text: &[u8]) -> &[u8]
    ensures { result.now ≡ before_blanks text.now }
{
    while let [rest @ .., b' '] = text {
        text = rest;
    }
    text
}
