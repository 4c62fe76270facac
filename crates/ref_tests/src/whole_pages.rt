//! Spaces of a few pages, laid out byte by byte: whole ones, and one for each way of not being whole.

use crate::spelled::{Patch, Patches, ZEROS, space};
use ref_trees::{Lacks, RefPages, is_whole_for, named_of, need_of, use_of};
use std::alloc::Global;
use std::process::Abort;
use std::test::Fail;

/// The header of a database of pages of 512 bytes, as sqlite.org says its fields; the size at 28 is left 0.
const HEADER: Patch = (
    0,
    b"SQLite format 3\0\x02\0\x01\x01\0\x40\x20\x20\0\0\0\x01",
);

const FORMAT: Patch = (40, b"\0\0\0\x01\0\0\0\x04\0\0\0\0\0\0\0\0\0\0\0\x01");

const FIRST: Patches = &[HEADER, FORMAT];

/// The b-tree page of page 1 with one row: the plain table `t` of one column, with its root on page 2.
const SCHEMA_HEAD: Patch = (100, b"\x0d\0\0\0\x01\x01\xdf\0\x01\xdf");

const SCHEMA_ROW: Patch = (
    479,
    b"\x1f\x01\x06\x17\x0f\x0f\x01\x2ftablett\x02CREATE TABLE t(a)",
);

/// The b-tree page of page 1 without a row.
const NO_SCHEMA: Patch = (100, b"\x0d\0\0\0\0\x02\0\0");

/// A leaf without a row.
const EMPTY_LEAF: Patch = (0, b"\x0d\0\0\0\0\x02\0\0");

/// A leaf with the row 3, whose payload is `02 0f 61`, and the same with the row 9.
const ROW_3: Patches = &[
    (0, b"\x0d\0\0\0\x01\x01\xfb\0\x01\xfb"),
    (507, b"\x03\x03\x02\x0f\x61"),
];

const ROW_9: Patches = &[
    (0, b"\x0d\0\0\0\x01\x01\xfb\0\x01\xfb"),
    (507, b"\x03\x09\x02\x0f\x61"),
];

/// A leaf with the row 1, whose payload has 600 bytes: 92 on the leaf, and 508 on page 3.
const SPILLS: Patches = &[
    (0, b"\x0d\0\0\0\x01\x01\x9d\0\x01\x9d"),
    (413, b"\x84\x58\x01"),
    (508, b"\0\0\0\x03"),
];

/// An interior page with the children 3, up to the key 5, and 4.
const INTERIOR: Patches = &[
    (0, b"\x05\0\0\0\x01\x01\xfb\0\0\0\0\x04\x01\xfb"),
    (507, b"\0\0\0\x03\x05"),
];

/// An interior page over page 3 alone.
const ONE_CHILD: Patches = &[(0, b"\x05\0\0\0\0\x02\0\0\0\0\0\x03")];

/// An interior page over page 5 alone.
const ONE_CHILD_5: Patches = &[(0, b"\x05\0\0\0\0\x02\0\0\0\0\0\x05")];

/// A leaf with the row 3 and the row 9 behind it.
const ROWS_3_9: Patches = &[
    (0, b"\x0d\0\0\0\x02\x01\xf6\0\x01\xfb\x01\xf6"),
    (502, b"\x03\x09\x02\x0f\x61\x03\x03\x02\x0f\x61"),
];

/// A page of a chain that goes on, and an interior page that is its own child.
const CHAIN_ON: Patches = &[(0, b"\0\0\0\x02")];

const LOOP: Patches = &[(0, b"\x05\0\0\0\0\x02\0\0\0\0\0\x02")];

/// A trunk with the leaf 4 and no trunk behind it.
const TRUNK: Patches = &[(0, b"\0\0\0\0\0\0\0\x01\0\0\0\x04")];

/// Page 1 with its table; without one; and without one, but with a freelist, the number of its pages, and a wrong number.
const TABLE: Patches = &[SCHEMA_HEAD, SCHEMA_ROW];

const PLAIN: Patches = &[NO_SCHEMA];

const FREE: Patches = &[NO_SCHEMA, (32, b"\0\0\0\x03\0\0\0\x02")];

const FEWER: Patches = &[NO_SCHEMA, (32, b"\0\0\0\x03\0\0\0\x01")];

const BEYOND: Patches = &[NO_SCHEMA, (32, b"\0\0\0\x09")];

/// Page 1 of another version, and with a reserved byte.
const VERSION: Patches = &[NO_SCHEMA, (18, b"\x02")];

const RESERVE: Patches = &[NO_SCHEMA, (20, b"\x01")];

/// A page of an empty leaf.
const EMPTY: Patches = &[EMPTY_LEAF];

/// Sees that a space is whole for its roots, which pages it names, how many are in use, and how many they may need.
fn see_whole(
    rt: &impl Abort,
    pages: &RefPages,
    alloc: Global,
    roots: &[u32],
    named: &[u32],
    counts: (usize, u64),
) -> Result<(), Fail> {
    assert!(rt; is_whole_for(alloc, pages, roots)? == Ok(()));
    assert!(rt; named_of(alloc, pages, roots)?.ok_or("trees")?.as_slice() == named);
    assert!(rt; use_of(alloc, pages, roots)? == Some(counts.0));
    assert!(rt; need_of(alloc, pages, roots)? == Some(counts.1));
    Ok(())
}

#[test]
fn small_spaces_are_whole(rt: HostRuntime) -> Result<(), Fail> {
    let alloc = rt.alloc();
    let cases: [(Patches, &[Patches], &[u32], &[u32], (usize, u64)); 4] = [
        (TABLE, &[EMPTY], &[1, 2], &[1, 2], (2, 4)),
        (PLAIN, &[SPILLS, ZEROS], &[2], &[1, 2, 3], (3, 4)),
        (
            PLAIN,
            &[INTERIOR, ROW_3, ROW_9],
            &[2],
            &[1, 3, 2, 4],
            (4, 5),
        ),
        (FREE, &[ROW_3, TRUNK, ZEROS], &[2], &[1, 2, 3, 4], (2, 3)),
    ];
    for (first, others, roots, named, counts) in cases {
        let pages = space(alloc, FIRST, first, others, &[])?;
        see_whole(&rt, &pages, alloc, roots, named, counts)?;
    }
    Ok(())
}

/// One space for each way of not being whole, and some for each kind of page.
#[test]
fn each_lack_is_named(rt: HostRuntime) -> Result<(), Fail> {
    let alloc = rt.alloc();
    let tree = Lacks::Tree { root: 2 };
    let empty = Lacks::Empty { root: 2 };
    let cases: [(Patches, &[Patches], &[u32], &[u32], Lacks); 16] = [
        (PLAIN, &[], &[1], &[], Lacks::Header),
        (VERSION, &[], &[], &[], Lacks::Header),
        (RESERVE, &[], &[], &[], Lacks::Header),
        (PLAIN, &[], &[], &[2], tree),
        (PLAIN, &[ROW_3], &[2], &[2], tree),
        (PLAIN, &[ZEROS], &[], &[2], tree),
        (PLAIN, &[SPILLS, CHAIN_ON], &[], &[2], tree),
        (PLAIN, &[LOOP], &[], &[2], tree),
        (
            PLAIN,
            &[INTERIOR, ROW_9, ROW_9],
            &[],
            &[2],
            Lacks::Order { root: 2 },
        ),
        (
            PLAIN,
            &[INTERIOR, ROW_3, ONE_CHILD_5, ROW_9],
            &[],
            &[2],
            Lacks::Depth { root: 2 },
        ),
        (PLAIN, &[ONE_CHILD, ROW_3], &[], &[2], empty),
        (PLAIN, &[INTERIOR, ROW_3, EMPTY], &[], &[2], empty),
        (PLAIN, &[ROWS_3_9], &[], &[2, 2], Lacks::Twice { page: 2 }),
        (BEYOND, &[], &[], &[], Lacks::Freelist),
        (
            FREE,
            &[ROW_3, TRUNK, ZEROS],
            &[4],
            &[2],
            Lacks::BadFree { page: 4 },
        ),
        (FEWER, &[ROW_3, TRUNK, ZEROS], &[], &[2], Lacks::Count),
    ];
    for (first, others, bad, roots, lacks) in cases {
        let pages = space(alloc, FIRST, first, others, bad)?;
        assert!(rt;
            is_whole_for(alloc, &pages, roots)? == Err(lacks),
            "{lacks:?}"
        );
    }
    Ok(())
}
