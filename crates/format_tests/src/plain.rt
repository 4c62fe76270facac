//! The plain tables of a schema, by rows from a file that was made elsewhere.

use db_format::{Bytes, Record, Value, plain_tables};
use std::alloc::Global;
use std::test::Fail;

/// The row that a schema has for the table `t` of the column `a`, with its root on page 2.
fn schema_row(alloc: Global, kind: &[u8]) -> Result<Record, Fail> {
    let mut row = Record::from_vec(Vec::new(alloc));
    for text in [kind, b"t", b"t"] {
        row.push(Value::Text(Bytes::copy_of(alloc, text)?))?;
    }
    row.push(Value::Int(2))?;
    row.push(Value::Text(Bytes::copy_of(alloc, b"CREATE TABLE t(a)")?))?;
    Ok(row)
}

/// The rows of a schema, each of this kind, how many pages there are, and how many plain tables they make.
const SCHEMAS: [(&[&[u8]], u32, usize); 5] = [
    (&[b"table"], 2, 1),
    (&[b"table"], 1, 0),
    (&[b"table", b"table"], 2, 1),
    (&[b"table", b"index"], 2, 0),
    (&[b"view"], 2, 0),
];

#[test]
fn a_row_makes_a_table_where_its_root_is_within_the_file(rt: HostRuntime) -> Result<(), Fail> {
    let alloc = rt.alloc();
    for (kinds, pages, count) in SCHEMAS {
        let mut rows = Vec::new(alloc);
        for kind in kinds {
            rows.push(schema_row(alloc, kind)?)?;
        }
        let plain = plain_tables(alloc, &rows, pages)?;
        assert_eq!(rt; plain.as_slice().len(), count);
        for table in plain.as_slice() {
            assert_eq!(rt; table.name.as_slice(), b"t".as_slice());
            assert_eq!(rt; table.root, 2);
            assert_eq!(rt; table.create.columns.as_slice().len(), 1);
        }
    }
    Ok(())
}
