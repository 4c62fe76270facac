//! Reading a line as a command.

ghost use Rattle.std.specs.Prelude.{◌≡◌, ◌≢◌, ℕ, ◌≤◌, ◌⊎◌, List, [], ◌∷◌, ◌++◌, codes, length, slice_get, MatchOption, IfOk, OnOk, OnErr, IsErrOf};
ghost use Rattle.std.specs.Fmt.{decimal};
ghost use Rattle.std.specs.List.{AllZip};
ghost use Rattle.db_format.specs.Create.{AreColumns};
ghost use Rattle.db_format.specs.declared.value.Value.{Value as Item};
ghost use Rattle.shell_lang.specs.Command.{SpellsLine, SpellsValue, IsBadLine, OneCommand, most_values, greatest_number};
ghost use Rattle.shell_lang.specs.CommandSteps.{left, verb_text, Reads, ReadsValue, BeginsWith, IsNamed, IsUnnamed, IsMisnamed};

use crate::Command;
use crate::words::{Verb, Words, read_number, split_at_blank};
use byte_base::{ByteLists, Bytes};
use db_format::{Record, Value, are_columns};
use hex::FromHexError;
use percent_encoding::percent_decode;
use std::alloc::Global;
use std::str;
use thiserror::Error;

/// Why a line was not read.
#[derive(Clone, Copy, Debug, PartialEq, Eq, Error)]
pub enum LineFault {
    /// The line is no command.
    #[error("the line is no command")]
    BadLine,
    /// There was no memory.
    #[error("no memory")]
    Memory,
}

/// The greatest number of a connection in a line.
const GREATEST_NUMBER: i64 = 999;

/// The most values of a row.
const MOST_VALUES: usize = 32;

/// The most columns of a table.
const MOST_COLUMNS: usize = 32;

/// The number of the connection that a line names, 1 where it names none, and the command that it gives. The number is
/// from 0 to 999; connections have 1 to 8.
///
/// Refused with `BadLine` exactly where the line gives no command.
pub fn read_command(alloc: Global, line: &[u8]) -> Result<(u32, Command), LineFault>
    ensures found { IfOk result (λ found. SpellsLine line.now found.0 found.1) }
    ensures bad { IsErrOf result LineFault.BadLine → IsBadLine line.now }
{
    if str::from_utf8(line).is_err() {
        return Err(LineFault::BadLine);
    }
    let Some((number, text)) = read_connection(line) else {
        return Err(LineFault::BadLine);
    };
    match read_words(alloc, Words::of(text)) {
        Ok(command) => Ok((number, command)),
        Err(fault) => Err(fault),
    }
}

/// A line gives at most one command.
pub fn one_command()
    ensures { OneCommand }
{}

/// The number of the connection, and the text of the command.
fn read_connection(line: &[u8]) -> Option<(u32, &[u8])>
    ensures { MatchOption result (IsMisnamed line.now) (λ found. IsNamed line.now found.0 found.1.now ⊎ IsUnnamed line.now found.0 found.1.now) }
{
    match line {
        [b'@', named @ ..] => read_named(named),
        _ => Some((1, line)),
    }
}

/// The number behind `@`, and what stands behind that and a blank.
fn read_named(named: &[u8]) -> Option<(u32, &[u8])>
    ensures { MatchOption result ((number : ℕ) (text : List ℕ) → ¬ (BeginsWith named.now number text)) (λ found. BeginsWith named.now found.0 found.1.now) }
{
    let Some((word, text)) = split_at_blank(named) else {
        return None;
    };
    match read_small(word) {
        Some(number) => Some((number, text)),
        None => None,
    }
}

/// The number of a connection that is written so.
fn read_small(word: &[u8]) -> Option<u32>
    ensures { MatchOption result ((number : ℕ) → number ≤ greatest_number → word.now ≢ decimal number) (λ number. (number ≤ greatest_number) × (word.now ≡ decimal number)) }
{
    let Some(number) = read_number(word) else {
        return None;
    };
    if 0 <= number && number <= GREATEST_NUMBER {
        Some(number as u32)
    } else {
        None
    }
}

/// The command that words give.
fn read_words(alloc: Global, mut words: Words) -> Result<Command, LineFault>
    ensures { Reads (left words.entry) result }
{
    let Some(word) = words.next() else {
        return Err(LineFault::BadLine);
    };
    let Some(verb) = Verb::read(word) else {
        return Err(LineFault::BadLine);
    };
    match verb {
        Verb::Create => read_create(alloc, words),
        Verb::Drop => read_drop(alloc, words),
        Verb::Tables => alone(words, Command::Tables),
        Verb::Put => read_put(alloc, words),
        Verb::Get => read_get(alloc, words),
        Verb::Del => read_del(alloc, words),
        Verb::Scan => read_scan(alloc, words),
        Verb::Count => read_count(alloc, words),
        Verb::Begin => alone(words, Command::Begin),
        Verb::Commit => alone(words, Command::Commit),
        Verb::Rollback => alone(words, Command::Rollback),
        Verb::Reopen => alone(words, Command::Reopen),
    }
}

/// A command without words behind its verb.
fn alone(mut words: Words, command: Command) -> Result<Command, LineFault>
    ensures found { IfOk result (λ found. (found ≡ command) × (left words.entry ≡ [])) }
    ensures bad { OnErr result (left words.entry ≢ []) }
{
    words.end()?;
    Ok(command)
}

/// The words behind `create`.
fn read_create(alloc: Global, mut words: Words) -> Result<Command, LineFault>
    ensures { Reads (verb_text Verb.Create ∷ left words.entry) result }
{
    let table = words.table(alloc)?;
    let columns = read_columns(alloc, words)?;
    Ok(Command::Create { table, columns })
}

/// The words behind `drop`.
fn read_drop(alloc: Global, mut words: Words) -> Result<Command, LineFault>
    ensures { Reads (verb_text Verb.Drop ∷ left words.entry) result }
{
    let table = words.table(alloc)?;
    words.end()?;
    Ok(Command::Drop { table })
}

/// The words behind `put`.
fn read_put(alloc: Global, mut words: Words) -> Result<Command, LineFault>
    ensures { Reads (verb_text Verb.Put ∷ left words.entry) result }
{
    let table = words.table(alloc)?;
    let rowid = words.number()?;
    let values = read_values(alloc, words)?;
    Ok(Command::Put {
        table,
        rowid,
        values,
    })
}

/// The words behind `get`.
fn read_get(alloc: Global, mut words: Words) -> Result<Command, LineFault>
    ensures { Reads (verb_text Verb.Get ∷ left words.entry) result }
{
    let table = words.table(alloc)?;
    let rowid = words.number()?;
    words.end()?;
    Ok(Command::Get { table, rowid })
}

/// The words behind `del`.
fn read_del(alloc: Global, mut words: Words) -> Result<Command, LineFault>
    ensures { Reads (verb_text Verb.Del ∷ left words.entry) result }
{
    let table = words.table(alloc)?;
    let rowid = words.number()?;
    words.end()?;
    Ok(Command::Del { table, rowid })
}

/// The words behind `scan`.
fn read_scan(alloc: Global, mut words: Words) -> Result<Command, LineFault>
    ensures { Reads (verb_text Verb.Scan ∷ left words.entry) result }
{
    let table = words.table(alloc)?;
    let low = words.number()?;
    let high = words.number()?;
    words.end()?;
    Ok(Command::Scan { table, low, high })
}

/// The words behind `count`.
fn read_count(alloc: Global, mut words: Words) -> Result<Command, LineFault>
    ensures { Reads (verb_text Verb.Count ∷ left words.entry) result }
{
    let table = words.table(alloc)?;
    words.end()?;
    Ok(Command::Count { table })
}

/// The columns that words name.
fn read_columns(alloc: Global, mut words: Words) -> Result<ByteLists, LineFault>
    ensures found { IfOk result (λ columns. (columns ≡ left words.entry) × AreColumns columns) }
    ensures bad { IsErrOf result LineFault.BadLine → ¬ (AreColumns (left words.entry)) }
{
    let mut columns = ByteLists::from_vec(Vec::new(alloc));
    while let Some(word) = words.next() {
        if columns.as_slice().len() >= MOST_COLUMNS {
            return Err(LineFault::BadLine);
        }
        push_column(alloc, &mut columns, word)?;
    }
    if are_columns(columns.as_slice()) {
        Ok(columns)
    } else {
        Err(LineFault::BadLine)
    }
}

/// Puts a name at the end.
fn push_column(alloc: Global, columns: &mut ByteLists, word: &[u8]) -> Result<(), LineFault>
    ensures ok { OnOk result (columns.new ≡ columns.old ++ word.now ∷ []) }
    ensures err { IsErrOf result LineFault.BadLine → ⊥ }
{
    match Bytes::copy_of(alloc, word) {
        Ok(column) => match columns.push(column) {
            Ok(()) => Ok(()),
            Err(_) => Err(LineFault::Memory),
        },
        Err(_) => Err(LineFault::Memory),
    }
}

/// The values that words give.
fn read_values(alloc: Global, mut words: Words) -> Result<Record, LineFault>
    ensures found { IfOk result (λ values. AllZip SpellsValue (left words.entry) values × (1 ≤ length values) × (length values ≤ most_values)) }
    ensures bad { IsErrOf result LineFault.BadLine → (values : List Item) → AllZip SpellsValue (left words.entry) values → 1 ≤ length values → length values ≤ most_values → ⊥ }
{
    let mut values = Record::from_vec(Vec::new(alloc));
    while let Some(word) = words.next() {
        if values.as_slice().len() >= MOST_VALUES {
            return Err(LineFault::BadLine);
        }
        let value = read_value(alloc, word)?;
        if values.push(value).is_err() {
            return Err(LineFault::Memory);
        }
    }
    if values.as_slice().is_empty() {
        return Err(LineFault::BadLine);
    }
    Ok(values)
}

/// The value that a word gives.
fn read_value(alloc: Global, word: &[u8]) -> Result<Value, LineFault>
    ensures { ReadsValue word.now result }
{
    if let Some(number) = after(word, b"i:") {
        return read_int(number);
    }
    if let Some(text) = after(word, b"t:") {
        return read_text(alloc, text);
    }
    if let Some(digits) = after(word, b"b:") {
        return read_blob(alloc, digits);
    }
    if word == b"null".as_slice() {
        Ok(Value::Null)
    } else {
        Err(LineFault::BadLine)
    }
}

/// What stands behind these bytes at the front, or `None` where others stand there.
fn after<'a>(text: &'a [u8], front: &[u8]) -> Option<&'a [u8]>
    ensures { MatchOption result ((rest : List ℕ) → text.now ≢ front.now ++ rest) (λ rest. text.now ≡ front.now ++ rest.now) }
{
    text.strip_prefix(front)
}

/// The integer behind `i:`.
fn read_int(number: &[u8]) -> Result<Value, LineFault>
    ensures { ReadsValue (codes "i:" ++ number.now) result }
{
    match read_number(number) {
        Some(number) => Ok(Value::Int(number)),
        None => Err(LineFault::BadLine),
    }
}

/// The text behind `t:`.
fn read_text(alloc: Global, escaped: &[u8]) -> Result<Value, LineFault>
    ensures { ReadsValue (codes "t:" ++ escaped.now) result }
{
    let mut bytes = Vec::new(alloc);
    if percent_decode(escaped).append_to(&mut bytes).is_err() {
        return Err(LineFault::Memory);
    }
    if str::from_utf8(bytes.as_slice()).is_err() {
        return Err(LineFault::BadLine);
    }
    Ok(Value::Text(Bytes::from_vec(bytes)))
}

/// The bytes behind `b:`.
fn read_blob(alloc: Global, digits: &[u8]) -> Result<Value, LineFault>
    ensures { ReadsValue (codes "b:" ++ digits.now) result }
{
    match hex::decode(alloc, digits) {
        Ok(bytes) => Ok(Value::Blob(Bytes::from_vec(bytes))),
        Err(FromHexError::OutOfMemory) => Err(LineFault::Memory),
        Err(_) => Err(LineFault::BadLine),
    }
}
