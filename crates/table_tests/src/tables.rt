//! Tables filled, read, listed and dropped.

ghost use Rattle.std.specs.Prelude.{IfOk};
ghost use Rattle.db_format.specs.Create.{IsPlain};

use crate::tall::Tall;
use byte_base::{Bytes, u32_at};
use db_format::{Create, SpaceFault, TableEntry, Value, read_create};
use page_pool::{MemSpace, PageSpace};
use std::alloc::Global;
use std::process::Abort;
use std::test::Fail;
use table_store::{TableFault, count, create, drop_table, get, list, put, remove, scan_next};

/// The plain table that a text makes.
fn table(alloc: Global, sql: &[u8]) -> Result<Create, Fail>
    ensures { IfOk result (λ table. IsPlain table) }
{
    Ok(read_create(alloc, sql)?.ok_or("no plain table")?)
}

/// A database with the plain table `t(a)`, which has no row, on pages of 512 bytes.
fn database(rt: &impl Abort, alloc: Global) -> Result<MemSpace, Fail> {
    let mut space = MemSpace::new(alloc, 512, 0)?;
    create(alloc, &mut space, &table(alloc, b"CREATE TABLE t(a)")?)?;
    assert!(rt; space.size() == 2);
    Ok(space)
}

/// The number in the header of a database, at a place.
fn header_number(
    rt: &impl Abort,
    alloc: Global,
    space: &mut MemSpace,
    place: usize,
) -> Result<u32, Fail> {
    assert!(rt; space.size() > 0 && place <= 96);
    let mut page = vec![in alloc; 0u8; space.page_size() as usize]?;
    assert!(rt; page.len() == space.page_size() as usize && page.len() >= 512);
    space.get(1, &mut page)?;
    Ok(u32_at(&page, place))
}

#[test]
fn rows_stand_at_both_ends(rt: HostRuntime) -> Result<(), Fail> {
    let mut space = database(&rt, rt.alloc())?;
    assert!(rt; !put(rt.alloc(), &mut space, b"t", i64::MIN, &[Value::Null])?);
    assert!(rt; !put(rt.alloc(), &mut space, b"T", i64::MAX, &[Value::Int(0)])?);

    let first = scan_next(rt.alloc(), &mut space, b"t", i64::MIN, i64::MAX)?.ok_or("no row")?;
    assert!(rt; first.0 == i64::MIN && matches!(first.1.as_slice(), [Value::Null]));
    let last = scan_next(rt.alloc(), &mut space, b"t", 0, i64::MAX)?.ok_or("no row")?;
    assert!(rt; last.0 == i64::MAX && matches!(last.1.as_slice(), [Value::Int(0)]));
    assert!(rt; scan_next(rt.alloc(), &mut space, b"t", i64::MIN + 1, i64::MAX - 1)?.is_none());

    assert!(rt; put(rt.alloc(), &mut space, b"t", i64::MAX, &[Value::Int(7)])?);
    assert_eq!(rt; count(rt.alloc(), &mut space, b"t")?, 2);
    let row = get(rt.alloc(), &mut space, b"t", i64::MAX)?.ok_or("no row")?;
    assert!(rt; matches!(row.as_slice(), [Value::Int(7)]));
    Ok(())
}

#[test]
fn a_dropped_table_leaves_its_page_to_another(rt: HostRuntime) -> Result<(), Fail> {
    let mut space = database(&rt, rt.alloc())?;
    assert!(rt; !put(rt.alloc(), &mut space, b"t", 1, &[Value::Int(1)])?);
    assert!(rt; remove(rt.alloc(), &mut space, b"t", 1)?);
    assert!(rt; !remove(rt.alloc(), &mut space, b"t", 1)?);
    let tables = list(rt.alloc(), &mut space)?;
    assert!(rt;
        matches!(tables.as_slice(), [TableEntry::Plain(table)] if table.columns.as_slice().len() == 1)
    );
    assert!(rt;
        matches!(
            drop_table(rt.alloc(), &mut space, b"u"),
            Err(TableFault::NoTable)
        )
    );
    assert_eq!(rt; header_number(&rt, rt.alloc(), &mut space, 40)?, 1);

    drop_table(rt.alloc(), &mut space, b"t")?;
    assert!(rt; list(rt.alloc(), &mut space)?.as_slice().is_empty());
    assert_eq!(rt; space.size(), 2);
    assert_eq!(rt; header_number(&rt, rt.alloc(), &mut space, 36)?, 1);
    assert_eq!(rt; header_number(&rt, rt.alloc(), &mut space, 40)?, 2);

    let again = table(rt.alloc(), b"CREATE TABLE u(a,b)")?;
    create(rt.alloc(), &mut space, &again)?;
    assert!(rt;
        matches!(
            create(rt.alloc(), &mut space, &again),
            Err(TableFault::Exists)
        )
    );
    assert_eq!(rt; space.size(), 2);
    assert_eq!(rt; header_number(&rt, rt.alloc(), &mut space, 36)?, 0);
    Ok(())
}

#[test]
fn no_page_passes_the_greatest_database(rt: HostRuntime) -> Result<(), Fail> {
    let mut first = database(&rt, rt.alloc())?;
    let blob = [Value::Blob(Bytes::copy_of(rt.alloc(), &[0x61; 100])?)];
    // each takes 107 of the 504 bytes of the leaf
    for rowid in 1..5 {
        assert!(rt; !put(rt.alloc(), &mut first, b"t", rowid, &blob)?);
    }
    assert!(rt; first.page_size() == 512 && first.size() == 2);
    let mut space = Tall { first };
    let refused = put(rt.alloc(), &mut space, b"t", 5, &blob);
    assert!(rt;
        matches!(
            refused,
            Err(TableFault::Space(SpaceFault::Large { pages: 2_097_153 }))
        )
    );
    assert!(rt; get(rt.alloc(), &mut space, b"t", 5)?.is_none());
    assert!(rt; put(rt.alloc(), &mut space, b"t", 4, &blob)?);
    Ok(())
}
