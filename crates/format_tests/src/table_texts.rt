//! Texts of tables, read and written.

use db_format::{ByteLists, Bytes, Create, are_columns, is_identifier, read_create, write_create};
use std::alloc::{AllocError, Global};
use std::process::Abort;
use std::test::Fail;

/// Whether this is the table `t1` of the columns `a` and `b_2`.
fn is_table_t1(create: &Create) -> bool {
    let [first, second] = create.columns.as_slice() else {
        return false;
    };
    create.name.as_slice() == b"t1".as_slice()
        && first.as_slice() == b"a".as_slice()
        && second.as_slice() == b"b_2".as_slice()
}

/// Writes a table whose name and columns may be those of a plain table.
fn written(rt: &impl Abort, alloc: Global, create: &Create) -> Result<Bytes, AllocError> {
    assert!(rt; is_identifier(create.name.as_slice()));
    assert!(rt; are_columns(create.columns.as_slice()));
    write_create(alloc, create)
}

#[test]
fn plain_texts_are_read(rt: HostRuntime) -> Result<(), Fail> {
    let texts: [&[u8]; 4] = [
        b"CREATE TABLE t1(a,b_2)",
        b"CREATE TABLE t1(a,b_2)   ",
        b"CREATE TABLE t1 (a,b_2)",
        b"CREATE TABLE t1  (  a  ,  b_2  )  ",
    ];
    for text in texts {
        let create = read_create(rt.alloc(), text)?.ok_or("plain")?;
        assert!(rt; is_table_t1(&create), "{text:?}");
        let again = written(&rt, rt.alloc(), &create)?;
        assert!(rt; again.as_slice() == texts[0], "{text:?}");
    }
    Ok(())
}

#[test]
fn other_texts_are_not_read(rt: HostRuntime) -> Result<(), Fail> {
    let others: [&[u8]; 19] = [
        b"",
        b"CREATE TABLE",
        b"CREATE TABLE t",
        b"CREATE TABLE t()",
        b"CREATE TABLE t(a",
        b"CREATE TABLE t(a))",
        b"CREATE TABLE t(a,)",
        b"CREATE TABLE t(a,a)",
        b"CREATE TABLE t(a b)",
        b"CREATE TABLE t(a) x",
        b"CREATE TABLE t(a)\n",
        b"CREATE TABLE t(a INTEGER)",
        b"CREATE TABLE  t(a)",
        b"CREATE TABLE T(a)",
        b"CREATE TABLE \"t\"(a)",
        b"CREATE TABLE 1t(a)",
        b"CREATE TABLE sqlite_t(a)",
        b"CREATE TABLE t(sqlite_a)",
        b"create table t(a)",
    ];
    for text in others {
        assert!(rt; read_create(rt.alloc(), text)?.is_none(), "{text:?}");
    }
    Ok(())
}

/// The columns `c0`, `c1` and so on.
fn columns(alloc: Global, count: usize) -> Result<ByteLists, AllocError> {
    let mut columns = ByteLists::from_vec(Vec::new(alloc));
    for number in 0..count {
        let name = format!(in alloc; "c{number}")?;
        columns.push(Bytes::copy_of(alloc, name.as_bytes())?)?;
    }
    Ok(columns)
}

#[test]
fn longest_table_is_written(rt: HostRuntime) -> Result<(), Fail> {
    let longest = [b'n'; 64];
    assert!(rt; is_identifier(&longest) && !is_identifier(&[b'n'; 65]));
    let create = Create {
        name: Bytes::copy_of(rt.alloc(), &longest)?,
        columns: columns(rt.alloc(), 32)?,
    };
    let text = written(&rt, rt.alloc(), &create)?;
    let read = read_create(rt.alloc(), text.as_slice())?.ok_or("plain")?;
    assert!(rt; read.columns.as_slice().len() == 32);
    Ok(())
}
