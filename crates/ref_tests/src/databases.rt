//! Databases of a few pages, laid out byte by byte: whole ones, and some for each way of not being whole.

use crate::spelled::{Patch, Patches, ZEROS, space};
use ref_schema::{LacksDatabase, is_whole};
use ref_trees::{Lacks, RefPages};
use std::alloc::Global;
use std::test::Fail;

/// Page 1 of a database with the plain table `t` of the column `a` on page 2.
const ONE_TABLE: Patches = &[
    (
        0,
        b"SQLite format 3\0\x02\0\x01\x01\0\x40\x20\x20\0\0\0\x01",
    ),
    (40, b"\0\0\0\x01\0\0\0\x04\0\0\0\0\0\0\0\0\0\0\0\x01"),
    (100, b"\x0d\0\0\0\x01\x01\xdf\0\x01\xdf"),
    (
        479,
        b"\x1f\x01\x06\x17\x0f\x0f\x01\x2ftablett\x02CREATE TABLE t(a)",
    ),
];

/// A second row of its schema.
const TWO_ROWS: Patch = (100, b"\x0d\0\0\0\x02\x01\xbe\0\x01\xdf\x01\xbe");

/// That of a table `u`, of another `t`, and of an index on it, whose name stands there in another case.
const TABLE_U: Patch = (
    446,
    b"\x1f\x02\x06\x17\x0f\x0f\x01\x2ftableuu\x03CREATE TABLE u(a)",
);

const TABLE_T: Patch = (
    446,
    b"\x1f\x02\x06\x17\x0f\x0f\x01\x2ftablett\x03CREATE TABLE t(a)",
);

const INDEX_ON_T: Patch = (
    446,
    b"\x1f\x02\x06\x17\x0f\x0f\x01\x2findexiT\x03CREATE INDEX i ON",
);

/// A leaf without a row.
const EMPTY: Patches = &[(0, b"\x0d\0\0\0\0\x02\0\0")];

/// Leaves with a row: of one value, of two values, and of what is no record.
const ROW: Patches = &[
    (0, b"\x0d\0\0\0\x01\x01\xfb\0\x01\xfb"),
    (507, b"\x03\x01\x02\x0fa"),
];

const WIDE_ROW: Patches = &[
    (0, b"\x0d\0\0\0\x01\x01\xfb\0\x01\xfb"),
    (507, b"\x03\x01\x03\x08\x09"),
];

const NO_RECORD: Patches = &[
    (0, b"\x0d\0\0\0\x01\x01\xfc\0\x01\xfc"),
    (508, b"\x02\x01\x02\x0a"),
];

/// What is lacking of a database with page 1 patched, and these pages behind it.
fn answer(
    alloc: Global,
    more: &[Patch],
    others: &[Patches],
) -> Result<Result<(), LacksDatabase>, Fail> {
    let pages = space(alloc, ONE_TABLE, more, others, &[])?;
    Ok(is_whole(alloc, &pages)?)
}

#[test]
fn databases_are_whole(rt: HostRuntime) -> Result<(), Fail> {
    let alloc = rt.alloc();
    let pages = RefPages::new(512, Vec::new(alloc)).ok_or("sized")?;
    assert!(rt; is_whole(alloc, &pages)? == Ok(()));
    let cases: [(&[Patch], &[Patches]); 4] = [
        (&[], &[EMPTY]),
        (&[], &[ROW]),
        (&[TWO_ROWS, TABLE_U], &[ROW, EMPTY]),
        // a table with an index is not looked at
        (&[TWO_ROWS, INDEX_ON_T], &[NO_RECORD, ZEROS]),
    ];
    for (more, others) in cases {
        assert!(rt; answer(alloc, more, others)? == Ok(()), "{more:?}");
    }
    Ok(())
}

#[test]
fn each_lack_is_named(rt: HostRuntime) -> Result<(), Fail> {
    let cases: [(&[Patch], &[Patches], LacksDatabase); 10] = [
        // the serial type 10, which no record has, in place of that of the type of the row; and no b-tree page
        (&[(482, b"\x0a")], &[EMPTY], LacksDatabase::Records),
        (&[(100, b"\0")], &[EMPTY], LacksDatabase::Records),
        // a blob in place of the text, four values, and a root past the end
        (&[(482, b"\x16")], &[EMPTY], LacksDatabase::Schema),
        (
            &[(481, b"\x05\x17\x0f\x0f\x33table")],
            &[EMPTY],
            LacksDatabase::Schema,
        ),
        (&[(494, b"\x03")], &[EMPTY], LacksDatabase::Schema),
        (&[TWO_ROWS, TABLE_T], &[EMPTY, EMPTY], LacksDatabase::Name),
        (&[], &[ZEROS], LacksDatabase::Pages(Lacks::Tree { root: 2 })),
        (
            &[(36, b"\0\0\0\x01")],
            &[EMPTY],
            LacksDatabase::Pages(Lacks::Count),
        ),
        (&[], &[WIDE_ROW], LacksDatabase::Rows),
        (&[], &[NO_RECORD], LacksDatabase::Rows),
    ];
    for (more, others, lacks) in cases {
        assert!(rt; answer(rt.alloc(), more, others)? == Err(lacks), "{more:?}");
    }
    Ok(())
}
