//! Replies that were seen, judged after some lines were answered.

use db_format::{Record, Value};
use ref_book::MapShelf;
use ref_shell::Machine;
use shell_lang::{Command, Reply, RowList, ScanEnd, read_command};
use std::alloc::{AllocError, Global};
use std::test::Fail;
use vfs_model::Owner;

/// The lines that were answered, the line that is asked, and whether memory may be wanted, memory wanted once the device was asked, and a
/// fault answered.
type FreeCase = (&'static [&'static [u8]], &'static [u8], [bool; 3]);

const FREE: [FreeCase; 10] = [
    (&[], b"get t 1", [false, false, false]),
    (&[], b"reopen", [false, true, true]),
    (&[b"reopen"], b"begin", [false, false, false]),
    (&[b"reopen"], b"get t 1", [true, false, true]),
    (&[b"reopen"], b"create t a", [true, true, true]),
    (&[b"reopen"], b"put t 1 i:1", [true, false, true]),
    (
        &[b"reopen", b"create t a"],
        b"put t 1 i:1",
        [true, true, true],
    ),
    (
        &[b"reopen", b"create t a", b"begin"],
        b"commit",
        [false, false, false],
    ),
    (
        &[b"reopen", b"create t a", b"begin", b"put t 1 i:1"],
        b"commit",
        [true, true, true],
    ),
    (
        &[b"reopen", b"create t a", b"begin", b"get t 1"],
        b"@2 put t 1 i:1",
        [true, false, true],
    ),
];

/// A reply that was seen. A row has its own rowid as its only value.
#[derive(Clone, Copy, Debug)]
enum Seen {
    New,
    Replaced,
    Nothing,
    Busy,
    Row(i64),
    Count(u64),
    Rows(&'static [i64], ScanEnd),
}

/// What stands before the reply is asked: a table with two rows.
const TWO_ROWS: [&[u8]; 4] = [b"reopen", b"create t a", b"put t 1 i:1", b"put t 2 i:2"];

/// The line that is asked then, the reply, and whether it is allowed.
const OTHERS: [(&[u8], Seen, bool); 14] = [
    (b"put t 3 i:3", Seen::New, true),
    (b"put t 3 i:3", Seen::Replaced, false),
    (b"put t 2 i:3", Seen::Replaced, true),
    (b"put t 2 i:3", Seen::Busy, false),
    (b"get t 1", Seen::Row(1), true),
    (b"get t 1", Seen::Row(2), false),
    (b"get t 1", Seen::Nothing, false),
    (b"count t", Seen::Count(2), true),
    (
        b"scan t 0 9",
        Seen::Rows(&[1, 2], ScanEnd::End { lines: 2 }),
        true,
    ),
    (
        b"scan t 0 9",
        Seen::Rows(&[1], ScanEnd::End { lines: 1 }),
        false,
    ),
    (b"scan t 0 9", Seen::Rows(&[1], ScanEnd::Fault), true),
    (b"scan t 0 9", Seen::Rows(&[1, 2], ScanEnd::Memory), true),
    (b"scan t 0 9", Seen::Rows(&[2], ScanEnd::Fault), false),
    (b"scan t 0 9", Seen::Rows(&[], ScanEnd::Memory), false),
];

/// A row that has its own rowid as its only value.
fn row_of(alloc: Global, rowid: i64) -> Result<Record, AllocError> {
    let mut values = Record::from_vec(Vec::new(alloc));
    values.push(Value::Int(rowid))?;
    Ok(values)
}

/// Such rows.
fn rows_of(alloc: Global, rowids: &[i64]) -> Result<RowList, AllocError> {
    let mut rows = RowList::from_vec(Vec::new(alloc));
    for rowid in rowids {
        rows.push((*rowid, row_of(alloc, *rowid)?))?;
    }
    Ok(rows)
}

/// The reply that was seen.
fn reply_of(alloc: Global, seen: Seen) -> Result<Reply, AllocError> {
    Ok(match seen {
        Seen::New => Reply::New,
        Seen::Replaced => Reply::Replaced,
        Seen::Nothing => Reply::Nothing,
        Seen::Busy => Reply::Busy,
        Seen::Row(rowid) => Reply::Row {
            rowid,
            values: row_of(alloc, rowid)?,
        },
        Seen::Count(rows) => Reply::Count { rows },
        Seen::Rows(rowids, last) => Reply::Rows {
            rows: rows_of(alloc, rowids)?,
            last,
        },
    })
}

/// The connection and the command of a line.
pub(crate) fn said(alloc: Global, line: &[u8]) -> Result<(Owner, Command), Fail> {
    let (number, command) = read_command(alloc, line)?;
    let number = u8::try_from(number).ok().ok_or("number")?;
    Ok((Owner::new(number).ok_or("connection")?, command))
}

/// A machine over a book of no pages that has answered some lines.
pub(crate) fn answered(
    alloc: Global,
    page: u32,
    lines: &[&[u8]],
) -> Result<Machine<MapShelf>, Fail> {
    let mut machine = Machine::closed(MapShelf::new(alloc, page, 480));
    for line in lines {
        let (who, command) = said(alloc, *line)?;
        machine.step(who, command);
    }
    Ok(machine)
}

/// Whether a line may be answered so.
pub(crate) fn is_allowed(
    alloc: Global,
    machine: &Machine<MapShelf>,
    line: &[u8],
    reply: &Reply,
) -> Result<bool, Fail> {
    let (who, command) = said(alloc, line)?;
    Ok(machine.allows(who, command, reply)?)
}

#[test]
fn free_replies_come_where_they_may(rt: HostRuntime) -> Result<(), Fail> {
    let alloc = rt.alloc();
    let replies = [Reply::Memory, Reply::MemoryStopped, Reply::Fault];
    for (before, line, wanted) in FREE {
        let machine = answered(alloc, 512, before)?;
        for (reply, may) in replies.iter().zip(wanted) {
            assert!(rt;
                is_allowed(alloc, &machine, line, reply)? == may,
                "{line:?} {reply:?}"
            );
        }
    }
    Ok(())
}

#[test]
fn other_replies_come_where_they_are_due(rt: HostRuntime) -> Result<(), Fail> {
    let alloc = rt.alloc();
    let machine = answered(alloc, 512, &TWO_ROWS)?;
    for (line, seen, wanted) in OTHERS {
        let reply = reply_of(alloc, seen)?;
        assert!(rt;
            is_allowed(alloc, &machine, line, &reply)? == wanted,
            "{line:?} {seen:?}"
        );
    }
    Ok(())
}
