//! Paths and walks over small spaces whose pages are spelled out here, byte by byte.

use crate::spelled::{Patches, ZEROS, bytes_of, lay, page_of, space};
use ref_trees::{RefPages, Walked, path_of, walk_of};
use std::alloc::{AllocError, Global};
use std::test::Fail;
use tree_model::{Fault, PathEnd, WalkEnd};

/// A leaf with the rows 1, 3 and 5, whose payloads are `a`, `b` and `c`.
const ODD_ROWS: Patches = &[
    (
        0,
        b"\x0d\x00\x00\x00\x03\x01\xf4\x00\x01\xfc\x01\xf8\x01\xf4",
    ),
    (500, b"\x01\x05c\x00\x01\x03b\x00\x01\x01a\x00"),
];

/// An interior page over the pages 3, with keys up to 3, 4, with keys up to 6, and 5.
const ROOT: Patches = &[
    (
        0,
        b"\x05\x00\x00\x00\x02\x01\xf6\x00\x00\x00\x00\x05\x01\xfb\x01\xf6",
    ),
    (502, b"\x00\x00\x00\x04\x06\x00\x00\x00\x03\x03"),
];

/// The leaves below it: the rows 1 and 2, the rows 4 and 6, and the rows 7 and 9.
const LOW_LEAF: Patches = &[
    (0, b"\x0d\x00\x00\x00\x02\x01\xf8\x00\x01\xfc\x01\xf8"),
    (504, b"\x01\x02b\x00\x01\x01a\x00"),
];

const MIDDLE_LEAF: Patches = &[
    (0, b"\x0d\x00\x00\x00\x02\x01\xf8\x00\x01\xfc\x01\xf8"),
    (504, b"\x01\x06f\x00\x01\x04d\x00"),
];

const HIGH_LEAF: Patches = &[
    (0, b"\x0d\x00\x00\x00\x02\x01\xf8\x00\x01\xfc\x01\xf8"),
    (504, b"\x01\x09i\x00\x01\x07g\x00"),
];

/// The payload that a path found, none where there is no row.
fn found(end: &PathEnd) -> Result<Option<&[u8]>, Fault> {
    match end {
        PathEnd::HasPayload(payload) => Ok(Some(payload.as_slice())),
        PathEnd::NoRow => Ok(None),
        PathEnd::Ends(fault) => Err(*fault),
    }
}

/// Whether a walk gave just rows with these rowids, each with a payload of one byte, and ended like this.
fn gave(walked: &Walked, rows: &[(i64, u8)], end: WalkEnd) -> bool {
    let given = walked.rows.as_slice();
    given.len() == rows.len()
        && given.iter().zip(rows).all(|(row, wanted)| row.0 == wanted.0
            && row.1.as_slice() == [wanted.1].as_slice())
        && walked.end == end
}

/// Whether the path to a key ends with this payload, without a row or with a fault.
fn finds(
    alloc: Global,
    pages: &RefPages,
    root: u32,
    key: i64,
    columns: Option<u32>,
    wanted: Result<Option<&[u8]>, Fault>,
) -> Result<bool, AllocError> {
    let end = path_of(alloc, pages, root, key, columns)?;
    Ok(found(&end) == wanted)
}

/// Whether a walk from one rowid to another gives just these rows and ends like this.
fn walks(
    alloc: Global,
    pages: &RefPages,
    root: u32,
    range: (i64, i64),
    rows: &[(i64, u8)],
    end: WalkEnd,
) -> Result<bool, AllocError> {
    let walked = walk_of(alloc, pages, root, range.0, range.1, None)?;
    Ok(gave(&walked, rows, end))
}

#[test]
fn rows_are_found_and_walked_over(rt: HostRuntime) -> Result<(), Fail> {
    let pages = space(
        rt.alloc(),
        ZEROS,
        &[],
        &[ROOT, LOW_LEAF, MIDDLE_LEAF, HIGH_LEAF],
        &[],
    )?;
    let cases: [(i64, Option<&[u8]>); 10] = [
        (0, None),
        (1, Some(b"a")),
        (2, Some(b"b")),
        (3, None),
        (4, Some(b"d")),
        (5, None),
        (6, Some(b"f")),
        (7, Some(b"g")),
        (9, Some(b"i")),
        (10, None),
    ];
    for (key, payload) in cases {
        assert!(rt;
            finds(rt.alloc(), &pages, 2, key, None, Ok(payload))?,
            "of {key}"
        );
    }
    let all: &[(i64, u8)] = &[
        (1, b'a'),
        (2, b'b'),
        (4, b'd'),
        (6, b'f'),
        (7, b'g'),
        (9, b'i'),
    ];
    let cases: [(i64, i64, &[(i64, u8)]); 6] = [
        (i64::MIN, i64::MAX, all),
        (2, 6, &[(2, b'b'), (4, b'd'), (6, b'f')]),
        (3, 3, &[]),
        (7, 8, &[(7, b'g')]),
        (9, 1, &[]),
        (i64::MIN, 0, &[]),
    ];
    for (low, high, rows) in cases {
        let walked = walks(rt.alloc(), &pages, 2, (low, high), rows, WalkEnd::End)?;
        assert!(rt; walked, "from {low} to {high}");
    }
    Ok(())
}

/// Whether the search for row 5 of damaged pages ends with this fault, and so does the walk over all, with these rows
/// before.
fn stops(
    alloc: Global,
    spelled: &[Patches],
    marked: &[u32],
    root: u32,
    fault: Fault,
    rows: &[(i64, u8)],
) -> Result<bool, Fail> {
    let pages = space(alloc, ZEROS, &[], spelled, marked)?;
    let ended = finds(alloc, &pages, root, 5, None, Err(fault))?;
    let all = (i64::MIN, i64::MAX);
    let stopped = walks(alloc, &pages, root, all, rows, WalkEnd::StopsAt(fault))?;
    Ok(ended && stopped)
}

/// Where the search for row 5, and the walk over all, of damaged trees end, with the rows that the walk gives before.
#[test]
fn damaged_trees_name_a_page(rt: HostRuntime) -> Result<(), Fail> {
    let far: Patches = &[
        (
            0,
            b"\x05\x00\x00\x00\x02\x01\xf6\x00\x00\x00\x00\x05\x01\xfb\x01\xf6",
        ),
        (502, b"\x00\x00\x00\x63\x06\x00\x00\x00\x03\x03"),
    ];
    let none: Patches = &[
        (
            0,
            b"\x05\x00\x00\x00\x02\x01\xf6\x00\x00\x00\x00\x05\x01\xfb\x01\xf6",
        ),
        (502, b"\x00\x00\x00\x00\x06\x00\x00\x00\x03\x03"),
    ];
    let own_child: Patches = &[(0, b"\x05\x00\x00\x00\x00\x02\x00\x00\x00\x00\x00\x02")];
    let low: &[(i64, u8)] = &[(1, b'a'), (2, b'b')];
    let cases: [(&[Patches], &[u32], u32, Fault, &[(i64, u8)]); 9] = [
        (
            &[far, LOW_LEAF, MIDDLE_LEAF, HIGH_LEAF],
            &[],
            2,
            Fault::Broken(2),
            low,
        ),
        (
            &[none, LOW_LEAF, MIDDLE_LEAF, HIGH_LEAF],
            &[],
            2,
            Fault::Broken(2),
            low,
        ),
        (
            &[ROOT, LOW_LEAF, ZEROS, HIGH_LEAF],
            &[],
            2,
            Fault::Broken(4),
            low,
        ),
        (
            &[ROOT, LOW_LEAF, MIDDLE_LEAF, HIGH_LEAF],
            &[4],
            2,
            Fault::BadPage(4),
            low,
        ),
        (
            &[ROOT, LOW_LEAF, MIDDLE_LEAF, HIGH_LEAF],
            &[2],
            2,
            Fault::BadPage(2),
            &[],
        ),
        (&[ZEROS], &[2], 2, Fault::BadPage(2), &[]),
        (&[own_child], &[], 2, Fault::Broken(2), &[]),
        (&[ODD_ROWS], &[], 77, Fault::Broken(77), &[]),
        (&[ODD_ROWS], &[], 0, Fault::Broken(0), &[]),
    ];
    for (spelled, marked, root, fault, rows) in cases {
        let stopped = stops(rt.alloc(), spelled, marked, root, fault, rows)?;
        assert!(rt; stopped, "{fault:?}");
    }
    Ok(())
}

/// Pages 2 and so on, each the right-most child of the one before, down to a leaf with the rows 1, 3 and 5.
fn stair(alloc: Global, interior: u32) -> Result<RefPages, Fail> {
    let mut pages = Vec::new(alloc);
    pages.push(page_of(bytes_of(alloc, ZEROS, &[])?, false))?;
    let right_only: Patches = &[(0, b"\x05\x00\x00\x00\x00\x02\x00\x00")];
    for number in 0..interior {
        let mut bytes = bytes_of(alloc, right_only, &[])?;
        lay(&mut bytes, 8, &number.wrapping_add(3).to_be_bytes());
        pages.push(page_of(bytes, false))?;
    }
    pages.push(page_of(bytes_of(alloc, ODD_ROWS, &[])?, false))?;
    Ok(RefPages::new(512, pages).ok_or("no pages")?)
}

#[test]
fn twenty_pages_are_the_deepest_path(rt: HostRuntime) -> Result<(), Fail> {
    let fault = Fault::Broken(22);
    let cases: [(u32, Result<Option<&[u8]>, Fault>, &[(i64, u8)], WalkEnd); 2] = [
        (
            19,
            Ok(Some(b"b")),
            &[(1, b'a'), (3, b'b'), (5, b'c')],
            WalkEnd::End,
        ),
        (20, Err(fault), &[], WalkEnd::StopsAt(fault)),
    ];
    for (interior, wanted, rows, end) in cases {
        let pages = stair(rt.alloc(), interior)?;
        let found = finds(rt.alloc(), &pages, 2, 3, None, wanted)?;
        let walked = walks(rt.alloc(), &pages, 2, (0, 9), rows, end)?;
        assert!(rt; found && walked, "{found}, {walked}: {interior}");
    }
    Ok(())
}

/// A leaf with the row 1, whose payload of 1017 bytes begins on it with 39 of them and goes on from page 3.
const SPILLS: Patches = &[
    (0, b"\x0d\x00\x00\x00\x01\x01\xd2\x00\x01\xd2"),
    (466, b"\x87\x79\x01first"),
    (508, b"\x00\x00\x00\x03"),
];

/// Pages of chains: the number of the next one, a byte at the beginning of what it holds, and one at its end.
const TO_FOUR: Patches = &[(0, b"\x00\x00\x00\x04s"), (511, b"t")];

const LAST: Patches = &[(0, b"\x00\x00\x00\x00u"), (473, b"v")];

const TO_FAR: Patches = &[(0, b"\x00\x00\x00\x63s")];

const TO_ITSELF: Patches = &[(0, b"\x00\x00\x00\x03s")];

const GOES_ON: Patches = &[(0, b"\x00\x00\x00\x03u")];

const TO_NONE: Patches = &[(0, b"\x00\x00\x00\x00s")];

/// Whether the search for row 1, whose chain is broken, ends with this fault, and so do the walks that end before it
/// and behind it.
fn breaks(alloc: Global, spelled: &[Patches], marked: &[u32], fault: Fault) -> Result<bool, Fail> {
    let pages = space(alloc, ZEROS, &[], spelled, marked)?;
    let ended = finds(alloc, &pages, 2, 1, None, Err(fault))?;
    let end = WalkEnd::StopsAt(fault);
    let before = walks(alloc, &pages, 2, (0, 0), &[], end)?;
    let over = walks(alloc, &pages, 2, (0, 9), &[], end)?;
    Ok(ended && before && over)
}

/// Also where the row is past the last rowid of the walk.
#[test]
fn broken_chains_name_a_page(rt: HostRuntime) -> Result<(), Fail> {
    let far: Patches = &[
        (0, b"\x0d\x00\x00\x00\x01\x01\xd2\x00\x01\xd2"),
        (466, b"\x87\x79\x01first"),
        (508, b"\x00\x00\x00\x63"),
    ];
    let cases: [(&[Patches], &[u32], Fault); 8] = [
        (&[far, TO_FOUR, LAST], &[], Fault::Broken(2)),
        (&[SPILLS, TO_FAR, LAST], &[], Fault::Broken(3)),
        (&[SPILLS, TO_NONE, LAST], &[], Fault::Broken(3)),
        (&[SPILLS, TO_ITSELF, LAST], &[], Fault::Broken(3)),
        (&[SPILLS, TO_FOUR, GOES_ON], &[], Fault::Broken(4)),
        (&[SPILLS, TO_FOUR, LAST], &[3], Fault::BadPage(3)),
        (&[SPILLS, TO_FOUR, LAST], &[4], Fault::BadPage(4)),
        (&[SPILLS, TO_FOUR], &[], Fault::Broken(3)),
    ];
    for (spelled, marked, fault) in cases {
        let broken = breaks(rt.alloc(), spelled, marked, fault)?;
        assert!(rt; broken, "{fault:?}");
    }
    Ok(())
}

#[test]
fn a_payload_goes_on_in_its_chain(rt: HostRuntime) -> Result<(), Fail> {
    let pages = space(rt.alloc(), ZEROS, &[], &[SPILLS, TO_FOUR, LAST], &[])?;
    let end = path_of(rt.alloc(), &pages, 2, 1, None)?;
    let payload = found(&end).map_err(|_| "fault")?.ok_or("no row")?;
    let places: [(usize, Option<&u8>); 5] = [
        (39, Some(&b's')),
        (546, Some(&b't')),
        (547, Some(&b'u')),
        (1016, Some(&b'v')),
        (1017, None),
    ];
    for (place, byte) in places {
        assert!(rt; payload.get(place) == byte, "at {place}");
    }
    Ok(())
}

/// A leaf whose row 1 is a record of the integer 1, whose row 2 is one of two of them, and whose row 3 is none.
const RECORDS: Patches = &[
    (
        0,
        b"\x0d\x00\x00\x00\x03\x01\xf2\x00\x01\xfb\x01\xf6\x01\xf2",
    ),
    (
        498,
        b"\x01\x03\x09\x00\x03\x02\x03\x09\x09\x02\x01\x02\x09\x00\x00\x00",
    ),
];

#[test]
fn payloads_that_are_no_records(rt: HostRuntime) -> Result<(), Fail> {
    let pages = space(rt.alloc(), ZEROS, &[], &[RECORDS], &[])?;
    let one: Result<Option<&[u8]>, Fault> = Ok(Some(b"\x02\x09"));
    let two: Result<Option<&[u8]>, Fault> = Ok(Some(b"\x03\x09\x09"));
    let none: Result<Option<&[u8]>, Fault> = Ok(Some(b"\x09"));
    let fault: Result<Option<&[u8]>, Fault> = Err(Fault::Broken(2));
    let cases = [
        (1, None, one),
        (2, None, two),
        (3, None, none),
        (1, Some(0), fault),
        (1, Some(1), one),
        (2, Some(1), fault),
        (2, Some(2), two),
        (3, Some(9), fault),
    ];
    for (key, columns, wanted) in cases {
        assert!(rt;
            finds(rt.alloc(), &pages, 2, key, columns, wanted)?,
            "of {key}"
        );
    }
    let walked = walk_of(rt.alloc(), &pages, 2, 0, 9, Some(1))?;
    assert!(rt; walked.end == WalkEnd::StopsAt(Fault::Broken(2)));
    assert!(rt; walked.rows.as_slice().iter().map(|row| row.0).eq([1]));
    Ok(())
}
