//! Whether two values are the same.

ghost use Rattle.std.specs.Prelude.{◌≡◌, ◌↔◌, IsTrue};

use byte_base::{ByteLists, Bytes};
use db_format::{Create, Record, TableEntry, TableList, Value};
use shell_lang::{Reply, RowList, ScanEnd};
use vfs_model::Name;
use vfs_trait::OpenFault;

/// What can be compared whole.
pub(crate) trait Same {
    fn same(&self, other: &Self) -> bool
        ensures { IsTrue result ↔ self.now ≡ other.now };
}

/// Whether the items of two lists are the same.
pub(crate) fn all_same<T: Same>(items: &[T], others: &[T]) -> bool
    ensures { IsTrue result ↔ items.now ≡ others.now }
{
    match (items, others) {
        ([], []) => true,
        ([item, more @ ..], [other, rest @ ..]) => item.same(other) && all_same(more, rest),
        _ => false,
    }
}

impl Same for i64 {
    fn same(&self, other: &i64) -> bool {
        *self == *other
    }
}

impl Same for Bytes {
    fn same(&self, other: &Bytes) -> bool {
        self.as_slice() == other.as_slice()
    }
}

impl Same for ByteLists {
    fn same(&self, other: &ByteLists) -> bool {
        all_same(self.as_slice(), other.as_slice())
    }
}

impl Same for Value {
    fn same(&self, other: &Value) -> bool {
        match (self, other) {
            (Value::Null, Value::Null) => true,
            (Value::Int(number), Value::Int(number_b)) => *number == *number_b,
            (Value::Text(bytes), Value::Text(bytes_b)) => bytes.same(bytes_b),
            (Value::Blob(bytes), Value::Blob(bytes_b)) => bytes.same(bytes_b),
            (Value::Real(bits), Value::Real(bits_b)) => *bits == *bits_b,
            _ => false,
        }
    }
}

impl Same for Record {
    fn same(&self, other: &Record) -> bool {
        all_same(self.as_slice(), other.as_slice())
    }
}

impl<A: Same, B: Same> Same for (A, B) {
    fn same(&self, other: &(A, B)) -> bool {
        self.0.same(&other.0) && self.1.same(&other.1)
    }
}

impl Same for RowList {
    fn same(&self, other: &RowList) -> bool {
        all_same(self.as_slice(), other.as_slice())
    }
}

impl Same for Create {
    fn same(&self, other: &Create) -> bool {
        self.name.same(&other.name) && self.columns.same(&other.columns)
    }
}

impl Same for TableEntry {
    fn same(&self, other: &TableEntry) -> bool {
        match (self, other) {
            (TableEntry::Plain(create), TableEntry::Plain(other)) => create.same(other),
            (TableEntry::Foreign(name), TableEntry::Foreign(other)) => name.same(other),
            _ => false,
        }
    }
}

impl Same for TableList {
    fn same(&self, other: &TableList) -> bool {
        all_same(self.as_slice(), other.as_slice())
    }
}

impl Same for Name {
    fn same(&self, other: &Name) -> bool {
        self.bytes() == other.bytes()
    }
}

impl Same for OpenFault {
    fn same(&self, other: &OpenFault) -> bool {
        match (self, other) {
            (OpenFault::Failed, OpenFault::Failed) => true,
            (OpenFault::Memory, OpenFault::Memory) => true,
            (
                OpenFault::BadPage { page, kept, found },
                OpenFault::BadPage {
                    page: page_b,
                    kept: kept_b,
                    found: found_b,
                },
            ) => *page == *page_b && *kept == *kept_b && *found == *found_b,
            (OpenFault::Header(fault), OpenFault::Header(other)) => *fault == *other,
            (OpenFault::ForeignJournal, OpenFault::ForeignJournal) => true,
            (OpenFault::NeedsOther { name }, OpenFault::NeedsOther { name: other }) => {
                name.same(other)
            }
            _ => false,
        }
    }
}

impl Same for ScanEnd {
    fn same(&self, other: &ScanEnd) -> bool {
        match (self, other) {
            (ScanEnd::End { lines }, ScanEnd::End { lines: other }) => *lines == *other,
            (ScanEnd::Fault, ScanEnd::Fault) => true,
            (ScanEnd::Memory, ScanEnd::Memory) => true,
            (
                ScanEnd::Checksum {
                    db,
                    page,
                    kept,
                    found,
                },
                ScanEnd::Checksum {
                    db: db_b,
                    page: page_b,
                    kept: kept_b,
                    found: found_b,
                },
            ) => *db == *db_b && *page == *page_b && *kept == *kept_b && *found == *found_b,
            (
                ScanEnd::Corrupt { db, page },
                ScanEnd::Corrupt {
                    db: db_b,
                    page: page_b,
                },
            ) => *db == *db_b && *page == *page_b,
            _ => false,
        }
    }
}

impl Same for Reply {
    fn same(&self, other: &Reply) -> bool {
        match (self, other) {
            (Reply::Open { main }, Reply::Open { main: main_b }) => *main == *main_b,
            (Reply::Done, Reply::Done) => true,
            (Reply::New, Reply::New) => true,
            (Reply::Replaced, Reply::Replaced) => true,
            (
                Reply::Row { rowid, values },
                Reply::Row {
                    rowid: rowid_b,
                    values: values_b,
                },
            ) => *rowid == *rowid_b && values.same(values_b),
            (Reply::Nothing, Reply::Nothing) => true,
            (
                Reply::Rows { rows, last },
                Reply::Rows {
                    rows: rows_b,
                    last: last_b,
                },
            ) => rows.same(rows_b) && last.same(last_b),
            (Reply::Count { rows }, Reply::Count { rows: rows_b }) => *rows == *rows_b,
            (Reply::TableLines { tables }, Reply::TableLines { tables: tables_b }) => tables.same(
                tables_b,
            ),
            (Reply::Busy, Reply::Busy) => true,
            (
                Reply::Full { total, limit },
                Reply::Full {
                    total: total_b,
                    limit: limit_b,
                },
            ) => *total == *total_b && *limit == *limit_b,
            (
                Reply::Checksum {
                    db,
                    page,
                    kept,
                    found,
                },
                Reply::Checksum {
                    db: db_b,
                    page: page_b,
                    kept: kept_b,
                    found: found_b,
                },
            ) => *db == *db_b && *page == *page_b && *kept == *kept_b && *found == *found_b,
            (
                Reply::Corrupt { db, page },
                Reply::Corrupt {
                    db: db_b,
                    page: page_b,
                },
            ) => *db == *db_b && *page == *page_b,
            (Reply::Large { pages }, Reply::Large { pages: pages_b }) => *pages == *pages_b,
            (Reply::Worn, Reply::Worn) => true,
            (Reply::Fault, Reply::Fault) => true,
            (Reply::Stopped, Reply::Stopped) => true,
            (Reply::Memory, Reply::Memory) => true,
            (Reply::MemoryStopped, Reply::MemoryStopped) => true,
            (
                Reply::Refused { db, why },
                Reply::Refused {
                    db: db_b,
                    why: why_b,
                },
            ) => *db == *db_b && why.same(why_b),
            (Reply::Error { word }, Reply::Error { word: word_b }) => *word == *word_b,
            _ => false,
        }
    }
}
