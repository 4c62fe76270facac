//! Lists of tables and of values.

use db_format::{Bytes, Record, TableEntry, TableList, Value};
use std::test::Fail;

#[test]
fn lists_grow(rt: HostRuntime) -> Result<(), Fail> {
    let mut tables = TableList::from_vec(Vec::new(rt.alloc()));
    let name = Vec::from_slice(rt.alloc(), b"Other")?;
    tables.push(TableEntry::Foreign(Bytes::from_vec(name)))?;
    assert!(rt; matches!(tables.as_slice(), [TableEntry::Foreign(_)]));
    let mut record = Record::from_vec(Vec::new(rt.alloc()));
    record.push(Value::Int(7))?;
    assert!(rt; matches!(record.as_slice(), [Value::Int(7)]));
    Ok(())
}
