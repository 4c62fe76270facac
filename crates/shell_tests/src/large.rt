//! Changes that may be too large, judged over books whose pages are so great that a few of them make the greatest database.

use crate::judged::{answered, is_allowed};
use byte_base::{ByteLists, Bytes};
use db_format::{Record, Value};
use ref_book::MapShelf;
use ref_shell::Machine;
use shell_lang::{Command, Db, Reply, TableName};
use std::alloc::{AllocError, Global};
use std::test::Fail;
use vfs_model::Owner;

/// A machine that has answered some lines, where so many pages make the greatest database.
fn bounded(alloc: Global, most: u32, lines: &[&[u8]]) -> Result<Machine<MapShelf>, Fail> {
    let page = 1_073_741_824u32.checked_div(most).ok_or("no pages")?;
    answered(alloc, page, lines)
}

/// How many pages make the greatest database, the lines that were answered, the line that is asked, and the number with which `large` may be answered,
/// or may not.
type Case = (u32, &'static [&'static [u8]], &'static [u8], u32, bool);

const NONE: &[&[u8]] = &[b"reopen"];

const EMPTY: &[&[u8]] = &[b"reopen", b"create t a"];

const ONE_ROW: &[&[u8]] = &[b"reopen", b"create t a", b"put t 1 i:1"];

/// The schema and a table take two pages for each row, and two at least.
const CASES: [Case; 14] = [
    (3, NONE, b"create t a", 4, true),
    (4, NONE, b"create t a", 5, false),
    (3, NONE, b"create t a", 5, false),
    (3, NONE, b"drop t", 4, false),
    (3, EMPTY, b"put t 1 i:1", 4, true),
    (4, EMPTY, b"put t 1 i:1", 5, false),
    (5, ONE_ROW, b"put t 2 i:1", 6, true),
    (6, ONE_ROW, b"put t 2 i:1", 7, false),
    (3, ONE_ROW, b"put t 1 i:2", 4, true),
    (4, ONE_ROW, b"put t 1 i:2", 5, false),
    (3, ONE_ROW, b"del t 1", 4, true),
    (4, ONE_ROW, b"del t 1", 5, false),
    (1, ONE_ROW, b"drop t", 2, true),
    (2, ONE_ROW, b"drop t", 3, false),
];

/// How many pages make the greatest database, the length of a text, and the number with which `large` may be answered to its put, or may not. Of 480 bytes that
/// a page has, a cell keeps 445 of a payload, which is three bytes longer than the text, and an overflow page 476.
const TEXTS: [(u32, usize, u32, bool); 6] = [
    (3, 442, 4, true),
    (4, 442, 5, false),
    (4, 443, 5, true),
    (5, 443, 6, false),
    (7, 2000, 8, true),
    (8, 2000, 9, false),
];

/// The same of the name of a column and the making of its table, whose row has 30 bytes more and those of the root's number, eight at most.
const COLUMNS: [(u32, usize, u32, bool); 4] = [
    (3, 407, 4, true),
    (4, 407, 5, false),
    (4, 408, 5, true),
    (5, 408, 6, false),
];

/// So many letters.
fn letters(alloc: Global, len: usize) -> Result<Bytes, AllocError> {
    Ok(Bytes::from_vec(vec![in alloc; b'a'; len]?))
}

/// The table of the tests.
fn table(alloc: Global) -> Result<TableName, AllocError> {
    Ok(TableName {
        db: Db::Main,
        name: Bytes::copy_of(alloc, b"t")?,
    })
}

/// Puts a text of a length.
fn long_put(alloc: Global, len: usize) -> Result<Command, AllocError> {
    let mut values = Record::from_vec(Vec::new(alloc));
    values.push(Value::Text(letters(alloc, len)?))?;
    Ok(Command::Put {
        table: table(alloc)?,
        rowid: 1,
        values,
    })
}

/// Makes a table with a column whose name has a length.
fn long_create(alloc: Global, len: usize) -> Result<Command, AllocError> {
    let mut columns = ByteLists::from_vec(Vec::new(alloc));
    columns.push(letters(alloc, len)?)?;
    Ok(Command::Create {
        table: table(alloc)?,
        columns,
    })
}

#[test]
fn changes_may_be_too_large_by_their_pages(rt: HostRuntime) -> Result<(), Fail> {
    let alloc = rt.alloc();
    for (most, before, line, pages, wanted) in CASES {
        let machine = bounded(alloc, most, before)?;
        let reply = Reply::Large { pages };
        assert!(rt;
            is_allowed(alloc, &machine, line, &reply)? == wanted,
            "{line:?} {pages}"
        );
    }
    Ok(())
}

#[test]
fn chains_count_too(rt: HostRuntime) -> Result<(), Fail> {
    let alloc = rt.alloc();
    let who = Owner::new(1).ok_or("connection")?;
    for (most, len, pages, wanted) in TEXTS {
        let machine = bounded(alloc, most, EMPTY)?;
        let said = machine.allows(who, long_put(alloc, len)?, &Reply::Large { pages })?;
        assert!(rt; said == wanted, "text {len} {pages}");
    }
    for (most, len, pages, wanted) in COLUMNS {
        let machine = bounded(alloc, most, NONE)?;
        let said = machine.allows(who, long_create(alloc, len)?, &Reply::Large { pages })?;
        assert!(rt; said == wanted, "column {len} {pages}");
    }
    Ok(())
}
