//! What no clause says: that lines and replies are read and written where there is memory, and that the grammar is the
//! one that was meant.

ghost use Rattle.std.specs.Prelude.{IsTrue};
ghost use Rattle.shell_lang.specs.Reply.{IsPrintable};

use db_format::{ByteLists, Bytes, Create, HeaderFault, Record, TableEntry, TableList, Value};
use shell_lang::{
    Command, Db, ErrorWord, LineFault, Reply, RowList, ScanEnd, TableName, read_command,
    write_reply,
};
use std::alloc::{AllocError, Global};
use std::test::Fail;
use vfs_model::Name;
use vfs_trait::OpenFault;

/// Lines, each with the command that it gives behind `>`.
const COMMANDS: &[u8] = b"\
    tables>@1 tables|begin>@1 begin|commit>@1 commit|rollback>@1 rollback|reopen>@1 reopen|@0 tables>@0 tables|\
    @9 begin>@9 begin|@999 commit>@999 commit|create t a>@1 create t a|create t9_ a_ b0 z>@1 create t9_ a_ b0 z|\
    create abbbbbbbbbbbbbbbbbbbbbbbbbbbbbbbbbbbbbbbbbbbbbbbbbbbbbbbbbbbbbbb abbbbbbbbbbbbbbbbbbbbbbbbbbbbbbbbbbbbbbbbbbbbbbbbbbbbbbbbbbbbbbb>@1 create abbbbbbbbbbbbbbbbbbbbbbbbbbbbbbbbbbbbbbbbbbbbbbbbbbbbbbbbbbbbbbb abbbbbbbbbbbbbbbbbbbbbbbbbbbbbbbbbbbbbbbbbbbbbbbbbbbbbbbbbbbbbbb|\
    create t c0 c1 c2 c3 c4 c5 c6 c7 c8 c9 c10 c11 c12 c13 c14 c15 c16 c17 c18 c19 c20 c21 c22 c23 c24 c25 c26 c27 c28 c29 c30 c31>@1 create t c0 c1 c2 c3 c4 c5 c6 c7 c8 c9 c10 c11 c12 c13 c14 c15 c16 c17 c18 c19 c20 c21 c22 c23 c24 c25 c26 c27 c28 c29 c30 c31|\
    drop sqlite>@1 drop sqlite|count create>@1 count create|@8 drop t>@8 drop t|get t 0>@1 get t 0|\
    get t -1>@1 get t -1|del t 9223372036854775807>@1 del t 9223372036854775807|\
    del t -9223372036854775808>@1 del t -9223372036854775808|scan t -5 5>@1 scan t -5 5|\
    scan t 5 -5>@1 scan t 5 -5|scan t 7 7>@1 scan t 7 7|put t 1 null>@1 put t 1 null|\
    put t 1 null null null null null null null null null null null null null null null null null null null null null null null null null null null null null null null null>@1 put t 1 null null null null null null null null null null null null null null null null null null null null null null null null null null null null null null null null|\
    put t 0 i:0 i:-1 i:9223372036854775807 i:-9223372036854775808>@1 put t 0 i:0 i:-1 i:9223372036854775807 i:-9223372036854775808|\
    put t 1 t:>@1 put t 1 t:|put t 1 b:>@1 put t 1 b:|put t 1 b:aB>@1 put t 1 b:ab|\
    put t 1 b:00fF10>@1 put t 1 b:00ff10|put t 1 t:%>@1 put t 1 t:%25|put t 1 t:%4>@1 put t 1 t:%25%34|\
    put t 1 t:%zz>@1 put t 1 t:%25%7A%7A|put t 1 t:%41>@1 put t 1 t:%41|put t 1 t:%4a%4A>@1 put t 1 t:%4A%4A|\
    put t 1 t:%%41>@1 put t 1 t:%25%41|put t 1 t:%2541>@1 put t 1 t:%25%34%31|\
    put t 1 t:%00%0A%20>@1 put t 1 t:%00%0A%20|put t 1 t:null>@1 put t 1 t:%6E%75%6C%6C|\
    put t 1 t:%c3%a9>@1 put t 1 t:%C3%A9|put t 1 t:\xc3\xa9>@1 put t 1 t:%C3%A9|\
    put t 1 t:a\x09b>@1 put t 1 t:%61%09%62|@2 put t 1 null i:7 t:x b:2a>@2 put t 1 null i:7 t:%78 b:2a";

/// Lines that give none.
const BAD_LINES: &[u8] = b"\
    | |\n|@|@ |@9|@1|@1 |@1  tables|@1000 tables|@01 tables|@00 tables|@+1 tables|@-1 tables|@ tables|@x tables|\
    @1tables|@1 @1 tables| tables|tables |tables t|Tables|tables\r|tables\n|table|begin now|commit t|rollback 1|\
    reopen main|close|drop|drop t u|drop  t|drop T|drop 1t|drop _t|drop sqlite_x|\
    drop abbbbbbbbbbbbbbbbbbbbbbbbbbbbbbbbbbbbbbbbbbbbbbbbbbbbbbbbbbbbbbbb|drop aux.t|drop t-|drop t\r|drop t\0|\
    drop t\xff|count|count t 1|create t|create|create t a a|create t a b c b|create t A|create t a,b|\
    create t sqlite_c|\
    create t c0 c1 c2 c3 c4 c5 c6 c7 c8 c9 c10 c11 c12 c13 c14 c15 c16 c17 c18 c19 c20 c21 c22 c23 c24 c25 c26 c27 c28 c29 c30 c31 z|\
    get t|get t 1 2|get t +1|get t 01|get t -0|get t 00|get t 0x1|get t 1.0|get t -|get t 9223372036854775808|\
    get t -9223372036854775809|get t 18446744073709551617|del t|del t one|del t 1 1|scan t|scan t 1|\
    scan t 1 2 3|scan t 1 02|scan t 1 -0|put t 1|put t|put 1 null|\
    put t 1 null null null null null null null null null null null null null null null null null null null null null null null null null null null null null null null null null|\
    put t 1 Null|put t 1 nul|put t 1 real|put t 1 1|put t 1 x:1|put t 1 i:|put t 1 i:1.5|put t 1 i:+1|\
    put t 1 i:01|put t 1 i:-0|put t 1 i:9223372036854775808|put t 1 T:x|put t 1 t|put t 1 t:a b|put t 1 t:%C3|\
    put t 1 t:%ff|put t 1 t:%ED%A0%80|put t 1 t:\xff|put t 1 t:\xc3|put t 1 b:0|put t 1 b:012|put t 1 b:0g|\
    put t 1 b:%41|put t 1 B:00|put t 1  null|put t 1 null |put T 1 null|put t 01 null|check|check aux|totals|\
    limit 1 1 5|trace 1|open|insert t 1 null";

/// How many replies are tried.
const CASES: usize = 43;

const UPPER_DIGITS: &[u8; 16] = b"0123456789ABCDEF";

const LOWER_DIGITS: &[u8; 16] = b"0123456789abcdef";

/// A line with the connection named and each byte of a text escaped.
#[derive(Drop)]
struct Printer {
    line: Vec<u8>,
    alloc: Global,
}

impl Printer {
    fn word(&mut self, word: &[u8]) -> Result<(), AllocError> {
        self.line.push(b' ')?;
        self.line.extend_from_slice(word)
    }

    fn number(&mut self, number: i64) -> Result<(), AllocError> {
        let text = format!(in self.alloc; "{number}")?;
        self.word(text.as_bytes())
    }

    fn verb(&mut self, verb: &[u8], table: &TableName) -> Result<(), AllocError> {
        self.word(verb)?;
        self.word(table.name.as_slice())
    }

    fn row(&mut self, verb: &[u8], table: &TableName, rowid: i64) -> Result<(), AllocError> {
        self.verb(verb, table)?;
        self.number(rowid)
    }

    fn digits(&mut self, digits: &[u8; 16], b: u8) -> Result<(), AllocError> {
        self.line.push(digits[usize::from(b / 16)])?;
        self.line.push(digits[usize::from(b % 16)])?;
        Ok(())
    }

    fn value(&mut self, value: &Value) -> Result<(), AllocError> {
        match value {
            Value::Null => self.word(b"null"),
            Value::Int(number) => {
                let text = format!(in self.alloc; "i:{number}")?;
                self.word(text.as_bytes())
            }
            Value::Text(text) => {
                self.word(b"t:")?;
                for b in text.as_slice() {
                    self.line.push(b'%')?;
                    self.digits(UPPER_DIGITS, *b)?;
                }
                Ok(())
            }
            Value::Blob(blob) => {
                self.word(b"b:")?;
                for b in blob.as_slice() {
                    self.digits(LOWER_DIGITS, *b)?;
                }
                Ok(())
            }
            Value::Real(_) => self.word(b"real"),
        }
    }

    fn command(&mut self, command: &Command) -> Result<(), AllocError> {
        match command {
            Command::Create { table, columns } => {
                self.verb(b"create", table)?;
                for column in columns.as_slice() {
                    self.word(column.as_slice())?;
                }
                Ok(())
            }
            Command::Drop { table } => self.verb(b"drop", table),
            Command::Tables => self.word(b"tables"),
            Command::Put {
                table,
                rowid,
                values,
            } => {
                self.row(b"put", table, *rowid)?;
                for value in values.as_slice() {
                    self.value(value)?;
                }
                Ok(())
            }
            Command::Get { table, rowid } => self.row(b"get", table, *rowid),
            Command::Del { table, rowid } => self.row(b"del", table, *rowid),
            Command::Scan { table, low, high } => {
                self.row(b"scan", table, *low)?;
                self.number(*high)
            }
            Command::Count { table } => self.verb(b"count", table),
            Command::Begin => self.word(b"begin"),
            Command::Commit => self.word(b"commit"),
            Command::Rollback => self.word(b"rollback"),
            Command::Reopen => self.word(b"reopen"),
        }
    }
}

/// What a line gives, printed; an empty line where it gives nothing.
fn printed(alloc: Global, line: &[u8]) -> Result<Vec<u8>, Fail> {
    match read_command(alloc, line) {
        Ok((number, command)) => {
            let front = format!(in alloc; "@{number}")?;
            let mut printer = Printer {
                line: Vec::from_slice(alloc, front.as_bytes())?,
                alloc,
            };
            printer.command(&command)?;
            Ok(printer.line)
        }
        Err(LineFault::BadLine) => Ok(Vec::new(alloc)),
        Err(LineFault::Memory) => Err(Fail::from(AllocError)),
    }
}

/// What stands on the two sides of the first `>`.
fn sides(case: &[u8]) -> (&[u8], &[u8]) {
    match case.iter().position(|b| *b == b'>') {
        Some(at) => (&case[..at], &case[at + 1..]),
        None => (case, case),
    }
}

#[test]
fn lines_give_commands(rt: HostRuntime) -> Result<(), Fail> {
    for case in COMMANDS.split(|b| *b == b'|') {
        let (line, want) = sides(case);
        let once = printed(rt.alloc(), line)?;
        assert_eq!(rt; once.as_slice(), want);
        let again = printed(rt.alloc(), want)?;
        assert_eq!(rt; again.as_slice(), want);
    }
    Ok(())
}

#[test]
fn other_lines_are_bad(rt: HostRuntime) -> Result<(), Fail> {
    for line in BAD_LINES.split(|b| *b == b'|') {
        let found = printed(rt.alloc(), line)?;
        assert!(rt; found.is_empty());
    }
    Ok(())
}

fn values(alloc: Global) -> Result<Record, AllocError> {
    let mut values = Record::from_vec(Vec::new(alloc));
    values.push(Value::Null)?;
    values.push(Value::Int(-5))?;
    values.push(Value::Text(Bytes::copy_of(alloc, b"a-b \xc3\xa9")?))?;
    values.push(Value::Blob(Bytes::copy_of(alloc, b"\0\xff")?))?;
    values.push(Value::Real(0))?;
    Ok(values)
}

fn rows(alloc: Global) -> Result<RowList, AllocError> {
    let mut rows = RowList::from_vec(Vec::new(alloc));
    rows.push((1, values(alloc)?))?;
    rows.push((2, Record::from_vec(Vec::new(alloc))))?;
    Ok(rows)
}

fn tables(alloc: Global) -> Result<TableList, AllocError> {
    let mut columns = ByteLists::from_vec(Vec::new(alloc));
    columns.push(Bytes::copy_of(alloc, b"a")?)?;
    columns.push(Bytes::copy_of(alloc, b"b")?)?;
    let mut tables = TableList::from_vec(Vec::new(alloc));
    tables.push(TableEntry::Plain(Create {
        name: Bytes::copy_of(alloc, b"t")?,
        columns,
    }))?;
    tables.push(TableEntry::Foreign(Bytes::copy_of(alloc, b"My table")?))?;
    Ok(tables)
}

fn refused(why: OpenFault) -> Reply {
    Reply::Refused { db: Db::Main, why }
}

fn needs() -> Reply {
    match Name::new(b"main-with-other") {
        Some(name) => refused(OpenFault::NeedsOther { name }),
        None => Reply::Done,
    }
}

/// Whether the reply is no refusal, or one for a reason that is printed.
fn is_printable(reply: &Reply) -> bool
    ensures { IsTrue result → IsPrintable reply.now }
{
    match reply {
        Reply::Refused { db: _, why } => matches!(
            why,
            OpenFault::Header(_) | OpenFault::ForeignJournal | OpenFault::NeedsOther { .. }
        ),
        _ => true,
    }
}

/// A reply and its text, by a number from 0, or `None` past the last.
fn reply_case(alloc: Global, at: usize) -> Result<Option<(Reply, &'static [u8])>, AllocError> {
    match at {
        0 => with(Reply::Open { main: 7 }, b"open 7\n"),
        1 => with(Reply::Done, b"ok\n"),
        2 => with(Reply::New, b"new\n"),
        3 => with(Reply::Replaced, b"replaced\n"),
        4 => with(
            Reply::Row {
                rowid: -1,
                values: values(alloc)?,
            },
            b"row -1 null i:-5 t:a-b%20%C3%A9 b:00ff real\n",
        ),
        5 => with(Reply::Nothing, b"none\n"),
        6 => with(
            Reply::Rows {
                rows: rows(alloc)?,
                last: ScanEnd::End { lines: 2 },
            },
            b"row 1 null i:-5 t:a-b%20%C3%A9 b:00ff real\nrow 2\nend 2\n",
        ),
        7 => with(
            Reply::Rows {
                rows: RowList::from_vec(Vec::new(alloc)),
                last: ScanEnd::Fault,
            },
            b"fault\n",
        ),
        8 => with(
            Reply::Rows {
                rows: RowList::from_vec(Vec::new(alloc)),
                last: ScanEnd::Memory,
            },
            b"memory\n",
        ),
        9 => with(
            Reply::Rows {
                rows: rows(alloc)?,
                last: ScanEnd::Corrupt {
                    db: Db::Main,
                    page: 3,
                },
            },
            b"row 1 null i:-5 t:a-b%20%C3%A9 b:00ff real\nrow 2\ncorrupt 3\n",
        ),
        10 => with(
            Reply::Rows {
                rows: RowList::from_vec(Vec::new(alloc)),
                last: ScanEnd::Checksum {
                    db: Db::Main,
                    page: 2,
                    kept: 1,
                    found: 2,
                },
            },
            b"checksum 2 0000000000000001 0000000000000002\n",
        ),
        11 => with(
            Reply::Count {
                rows: 18_446_744_073_709_551_615,
            },
            b"count 18446744073709551615\n",
        ),
        12 => with(
            Reply::TableLines {
                tables: tables(alloc)?,
            },
            b"table t a b\nforeign My%20table\nend 2\n",
        ),
        13 => with(Reply::Busy, b"busy\n"),
        14 => with(
            Reply::Full {
                total: 20,
                limit: 10,
            },
            b"full 20 10\n",
        ),
        15 => with(
            Reply::Checksum {
                db: Db::Main,
                page: 4_294_967_295,
                kept: 0x0123_4567_89ab_cdef,
                found: 0xffff_ffff_ffff_ffff,
            },
            b"checksum 4294967295 0123456789abcdef ffffffffffffffff\n",
        ),
        16 => with(
            Reply::Corrupt {
                db: Db::Main,
                page: 1,
            },
            b"corrupt 1\n",
        ),
        17 => with(Reply::Large { pages: 12 }, b"large 12\n"),
        18 => with(Reply::Worn, b"worn\n"),
        19 => with(Reply::Fault, b"fault\n"),
        20 => with(Reply::Stopped, b"stopped\n"),
        21 => with(Reply::Memory, b"memory\n"),
        22 => with(Reply::MemoryStopped, b"memory stopped\n"),
        23 => with(
            Reply::Error {
                word: ErrorWord::BadLine,
            },
            b"error bad-line\n",
        ),
        24 => with(
            Reply::Error {
                word: ErrorWord::NoConn,
            },
            b"error no-conn\n",
        ),
        25 => with(
            Reply::Error {
                word: ErrorWord::InTxn,
            },
            b"error in-txn\n",
        ),
        26 => with(
            Reply::Error {
                word: ErrorWord::NoTxn,
            },
            b"error no-txn\n",
        ),
        27 => with(
            Reply::Error {
                word: ErrorWord::NoTable,
            },
            b"error no-table\n",
        ),
        28 => with(
            Reply::Error {
                word: ErrorWord::Foreign,
            },
            b"error foreign\n",
        ),
        29 => with(
            Reply::Error {
                word: ErrorWord::Exists,
            },
            b"error exists\n",
        ),
        30 => with(
            Reply::Error {
                word: ErrorWord::Columns,
            },
            b"error columns\n",
        ),
        31 => with(
            Reply::Error {
                word: ErrorWord::TooLong,
            },
            b"error too-long\n",
        ),
        32 => with(
            refused(OpenFault::Header(HeaderFault::NotADatabase)),
            b"refused main not-a-database\n",
        ),
        33 => with(
            refused(OpenFault::Header(HeaderFault::PageSize { found: 7 })),
            b"refused main page-size 7\n",
        ),
        34 => with(
            refused(OpenFault::Header(HeaderFault::FileVersion { found: 2 })),
            b"refused main version 2\n",
        ),
        35 => with(
            refused(OpenFault::Header(HeaderFault::Reserved { found: 9 })),
            b"refused main reserved 9\n",
        ),
        36 => with(
            refused(OpenFault::Header(HeaderFault::SchemaFormat { found: 3 })),
            b"refused main schema-format 3\n",
        ),
        37 => with(
            refused(OpenFault::Header(HeaderFault::AutoVacuum)),
            b"refused main auto-vacuum\n",
        ),
        38 => with(
            refused(OpenFault::Header(HeaderFault::Encoding { found: 2 })),
            b"refused main encoding 2\n",
        ),
        39 => with(
            refused(OpenFault::Header(HeaderFault::TooLarge {
                bytes: 1_073_741_825,
            })),
            b"refused main too-large 1073741825\n",
        ),
        40 => with(
            refused(OpenFault::Header(HeaderFault::Corrupt)),
            b"refused main corrupt\n",
        ),
        41 => with(
            refused(OpenFault::ForeignJournal),
            b"refused main foreign-journal\n",
        ),
        42 => with(needs(), b"refused main needs main-with-other\n"),
        _ => Ok(None),
    }
}

fn with(reply: Reply, text: &'static [u8]) -> Result<Option<(Reply, &'static [u8])>, AllocError> {
    Ok(Some((reply, text)))
}

/// What stands in a text after a reply was put behind it; nothing where the reply is not printable.
fn written(alloc: Global, reply: &Reply) -> Result<Bytes, AllocError> {
    let mut out = Bytes::copy_of(alloc, b"before ")?;
    if is_printable(reply) {
        write_reply(reply, &mut out)?;
    }
    Ok(out)
}

#[test]
fn replies_are_written(rt: HostRuntime) -> Result<(), Fail> {
    for at in 0..CASES {
        let Some((reply, want)) = reply_case(rt.alloc(), at)? else {
            return Err(Fail::from(AllocError));
        };
        let mut whole = Vec::from_slice(rt.alloc(), b"before ")?;
        whole.extend_from_slice(want)?;
        let out = written(rt.alloc(), &reply)?;
        assert_eq!(rt; out.as_slice(), whole.as_slice());
    }
    Ok(())
}
