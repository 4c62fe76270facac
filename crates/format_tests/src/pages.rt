//! Pages of trees, read and written.

use byte_base::{put_u16, u16_at};
use db_format::{
    ByteLists, Bytes, Create, FormatFault, Header, Value, are_columns, is_identifier, local_size,
    new_header, write_create, write_header, write_record,
};
use std::alloc::{AllocError, Global};
use std::test::Fail;
use tree_page::{
    InnerCell, InnerCells, LeafCell, LeafCells, PageCells, fits, read_page, write_page,
};

/// Bytes that stand at a place.
type Patch = (usize, &'static [u8]);

/// The file of the table `t` of the column `a`, without a row: page 1 with the row of its schema, and page 2.
const FILE: [Patch; 9] = [
    (0, b"SQLite format 3\x00"),
    (16, b"\x02\x00\x01\x01\x00\x40\x20\x20"),
    (24, b"\x00\x00\x00\x01\x00\x00\x00\x02"),
    (40, b"\x00\x00\x00\x01\x00\x00\x00\x04"),
    (56, b"\x00\x00\x00\x01"),
    (92, b"\x00\x00\x00\x01\x00\x2e\x63\x00"),
    (100, b"\x0d\x00\x00\x00\x01\x01\xdf\x00\x01\xdf"),
    (
        479,
        b"\x1f\x01\x06\x17\x0f\x0f\x01\x2ftablett\x02CREATE TABLE t(a)",
    ),
    (512, b"\x0d\x00\x00\x00\x00\x02\x00\x00"),
];

/// A page of zeros with bytes laid over it.
fn page_of(alloc: Global, size: usize, patches: &[Patch]) -> Result<Vec<u8>, AllocError> {
    let mut page = vec![in alloc; 0; size]?;
    lay(&mut page, patches, 0, 0);
    Ok(page)
}

/// Lays bytes over a page: those of the header, which has fewer than 100, so many places farther, and the rest so
/// many lower.
fn lay(page: &mut [u8], patches: &[Patch], farther: usize, lower: usize) {
    for (place, patch) in patches {
        let at = if *place < 100 {
            place.wrapping_add(farther)
        } else {
            place.wrapping_sub(lower)
        };
        if at <= page.len() && patch.len() <= page.len() - at {
            page[at..at + patch.len()].copy_from_slice(patch);
        }
    }
}

fn read(alloc: Global, page: &[u8], number: u32, usable: u32) -> Result<PageCells, FormatFault> {
    if 480 <= usable && usable as usize <= page.len() && page.len() <= 65536 {
        read_page(alloc, page, number, usable)
    } else {
        Err(FormatFault::Memory)
    }
}

/// Writes cells where they fit.
fn write(cells: &PageCells, number: u32, usable: u32, page: &mut [u8]) {
    let within = 480 <= usable && usable as usize <= page.len() && page.len() <= 65536;
    if within && fits(cells, number, usable) {
        write_page(cells, number, usable, page);
    }
}

/// A page that had another content, with the cells where they fit.
fn page_with(
    alloc: Global,
    cells: &PageCells,
    number: u32,
    usable: u32,
    size: usize,
) -> Result<Vec<u8>, AllocError> {
    let mut page = vec![in alloc; 0x5a; size]?;
    write(cells, number, usable, &mut page);
    Ok(page)
}

/// Whether the cells that are read on a page are written as that page.
fn comes_back(alloc: Global, page: &[u8], number: u32, usable: u32) -> Result<bool, FormatFault> {
    let cells = read(alloc, page, number, usable)?;
    let again = page_with(alloc, &cells, number, usable, page.len())?;
    Ok(*again == *page)
}

fn text(alloc: Global, bytes: &[u8]) -> Result<Bytes, AllocError> {
    Ok(Bytes::from_vec(Vec::from_slice(alloc, bytes)?))
}

/// The text of the table `t` of the column `a`.
fn create_text(alloc: Global) -> Result<Bytes, AllocError> {
    let mut columns = ByteLists::from_vec(Vec::new(alloc));
    columns.push(text(alloc, b"a")?)?;
    let name = text(alloc, b"t")?;
    if is_identifier(name.as_slice()) && are_columns(columns.as_slice()) {
        return write_create(alloc, &Create { name, columns });
    }
    Ok(name)
}

/// The row of that table in the schema.
fn schema_row(alloc: Global) -> Result<Bytes, AllocError> {
    let mut values = Vec::new(alloc);
    for word in [b"table".as_slice(), b"t", b"t"] {
        values.push(Value::Text(text(alloc, word)?))?;
    }
    values.push(Value::Int(2))?;
    values.push(Value::Text(create_text(alloc)?))?;
    write_record(alloc, &values)
}

/// Page 1 of that file.
fn first_page(alloc: Global) -> Result<Vec<u8>, AllocError> {
    let local = schema_row(alloc)?;
    let mut rows = LeafCells::from_vec(Vec::new(alloc));
    rows.push(LeafCell {
        rowid: 1,
        payload_len: local.as_slice().len() as u64,
        local,
        overflow: 0,
    })?;
    let mut page = page_with(alloc, &PageCells::Leaf(rows), 1, 512, 512)?;
    put_header(&mut page);
    Ok(page)
}

/// The header of a database of two pages.
fn put_header(page: &mut [u8]) {
    if page.len() < 100 {
        return;
    }
    new_header(512, 0, page);
    let header = Header {
        page: 512,
        reserved: 0,
        counter: 1,
        size: 2,
        first_trunk: 0,
        free_pages: 0,
        cookie: 1,
    };
    write_header(&header, page);
}

#[test]
fn the_file_of_a_new_table(rt: HostRuntime) -> Result<(), Fail> {
    let mut file = first_page(rt.alloc())?;
    file.extend_from_slice(&empty_page(rt.alloc(), 512)?)?;
    assert!(rt; file == page_of(rt.alloc(), 1024, &FILE)?);
    Ok(())
}

/// Page 2 with no cells.
fn empty_page(alloc: Global, size: usize) -> Result<Vec<u8>, AllocError> {
    let cells = PageCells::Leaf(LeafCells::from_vec(Vec::new(alloc)));
    page_with(alloc, &cells, 2, size.min(65536) as u32, size)
}

/// A leaf with two cells, a freeblock of six bytes and two fragments, for pages of 512 bytes.
const LEAF: [Patch; 4] = [
    (0, b"\x0d\x01\xf0\x00\x02\x01\xe0\x02\x01\xe0\x01\xf8"),
    (480, b"\x02\x01\xaa\xbb"),
    (496, b"\x00\x00\x00\x06"),
    (504, b"\x03\x02\x01\x02\x03"),
];

/// The leaf with other bytes laid over it. Where 32 bytes are reserved behind it, its content stands as many
/// places lower.
fn changed(
    alloc: Global,
    begin: usize,
    reserved: u16,
    patches: &[Patch],
) -> Result<Vec<u8>, AllocError> {
    let by = usize::from(reserved);
    let mut page = page_of(alloc, 512, &[])?;
    lay(&mut page, &LEAF, begin, by);
    lay(&mut page, patches, begin, by);
    lower(&mut page, begin.wrapping_add(1), reserved);
    lower(&mut page, begin.wrapping_add(5), reserved);
    lower(&mut page, begin.wrapping_add(8), reserved);
    lower(&mut page, begin.wrapping_add(10), reserved);
    lower(&mut page, 496usize.wrapping_sub(by), reserved);
    if reserved == 32 {
        lay(&mut page, &[(480, &[0x5a; 32])], 0, 0);
    }
    Ok(page)
}

/// Makes the place that two bytes name lower, where it is one of the content.
fn lower(page: &mut [u8], at: usize, by: u16) {
    if at < 500 && page.len() == 512 {
        let place = u16_at(page, at);
        if place >= 400 && place < 600 {
            put_u16(page, at, place - by.min(400));
        }
    }
}

/// A rule, and bytes that break it alone where they are laid over the leaf.
type Case = (&'static str, &'static [Patch]);

const MALFORMED: [Case; 18] = [
    ("another kind", &[(0, b"\x02")]),
    ("content within the pointers", &[(5, b"\x00\x0b")]),
    (
        "content passes the end",
        &[(1, b"\x00\x00\x00\x00\x02\x01")],
    ),
    ("cell before the pointers", &[(8, b"\x00\x00")]),
    ("cell before the content", &[(5, b"\x01\xe1")]),
    (
        "freeblock before the content",
        &[(1, b"\x01\xdc"), (476, b"\x00\x00\x00\x04")],
    ),
    ("cell begins at the end", &[(10, b"\x02\x00")]),
    (
        "three bytes before the end",
        &[(10, b"\x01\xfd"), (509, b"\x01\x02\x00")],
    ),
    ("small freeblock", &[(496, b"\x00\x00\x00\x03")]),
    ("freeblock of two bytes", &[(1, b"\x01\xfe")]),
    (
        "freeblock passes the end",
        &[
            (1, b"\x01\xf8"),
            (10, b"\x01\xf0"),
            (496, b"\x03\x02\x01\x02\x03"),
            (504, b"\x00\x00\x00\x09"),
        ],
    ),
    (
        "falling freeblocks",
        &[(488, b"\x00\x00\x00\x04"), (496, b"\x01\xe8")],
    ),
    ("cells overlap", &[(10, b"\x01\xe2"), (482, b"\x02\x02")]),
    ("cell and freeblock overlap", &[(496, b"\x00\x00\x00\x09")]),
    (
        "varint cut off",
        &[(504, b"\x80\x80\x80\x80\x80\x80\x80\x80")],
    ),
    ("payload cut off", &[(504, b"\x07\x02")]),
    (
        "overflow page cut off",
        &[
            (1, b"\x00\x00\x00\x01\x01\xd4"),
            (8, b"\x01\xd4"),
            (468, b"\x84\x03\x02"),
        ],
    ),
    ("equal keys", &[(505, b"\x01")]),
];

/// How the changed leaf is read on page 1 and another, with and without reserved bytes: as it should.
fn are_read(alloc: Global, patches: &[Patch], well_formed: bool) -> Result<bool, AllocError> {
    for (number, begin, reserved) in [(1, 100, 0), (1, 100, 32), (2, 0, 0), (2, 0, 32)] {
        let page = changed(alloc, begin, reserved, patches)?;
        if !is_read(alloc, &page, number, 512 - u32::from(reserved), well_formed) {
            return Ok(false);
        }
    }
    Ok(true)
}

/// Whether the page is read where it is well-formed, and else is corrupt.
fn is_read(alloc: Global, page: &[u8], number: u32, usable: u32, well_formed: bool) -> bool {
    match read(alloc, page, number, usable) {
        Ok(_) => well_formed,
        Err(fault) => !well_formed && fault == FormatFault::Corrupt,
    }
}

/// How many cases in front are refused.
fn refused(alloc: Global, cases: &[Case]) -> Result<usize, AllocError> {
    for (at, (_, patches)) in cases.iter().enumerate() {
        if !are_read(alloc, patches, false)? {
            return Ok(at);
        }
    }
    Ok(cases.len())
}

#[test]
fn each_way_of_being_malformed_is_refused(rt: HostRuntime) -> Result<(), Fail> {
    assert!(rt; are_read(rt.alloc(), &[], true)?);
    assert_eq!(rt; refused(rt.alloc(), &MALFORMED)?, 18);
    Ok(())
}

#[test]
fn a_freeblock_ends_with_the_largest_page(rt: HostRuntime) -> Result<(), Fail> {
    let head: Patch = (0, b"\x0d\xff\xfc\x00\x00\xff\xfc\x00");
    let four = page_of(rt.alloc(), 65536, &[head, (65535, b"\x04")])?;
    assert!(rt; is_read(rt.alloc(), &four, 2, 65536, true));
    let five = page_of(rt.alloc(), 65536, &[head, (65535, b"\x05")])?;
    assert!(rt; is_read(rt.alloc(), &five, 2, 65536, false));
    Ok(())
}

/// A cell of a leaf with a payload of this length, as much of it as is local.
fn row(alloc: Global, usable: u32, rowid: i64, payload_len: u64) -> Result<LeafCell, AllocError> {
    let mut size = 0;
    if 480 <= usable && usable <= 65536 {
        size = local_size(usable, payload_len);
    }
    let local = vec![in alloc; 7; size as usize]?;
    Ok(LeafCell {
        rowid,
        payload_len,
        local: Bytes::from_vec(local),
        overflow: u32::from(u64::from(size) < payload_len),
    })
}

/// A page of that size with these rows, given by their rowids and the lengths of their payloads, where they fit.
fn page_of_rows(
    alloc: Global,
    number: u32,
    usable: u32,
    size: usize,
    rows: &[(i64, u64)],
) -> Result<Vec<u8>, AllocError> {
    let mut cells = LeafCells::from_vec(Vec::new(alloc));
    for (rowid, payload_len) in rows {
        cells.push(row(alloc, usable, *rowid, *payload_len)?)?;
    }
    page_with(alloc, &PageCells::Leaf(cells), number, usable, size)
}

/// Rows on a page of a size, a usable size and a number, and whether they fit.
type Rows = (usize, u32, u32, &'static [(i64, u64)], bool);

const ROWS: [Rows; 10] = [
    (512, 480, 1, &[(-5, 3), (0, 0), (9, 200)], true),
    (
        512,
        480,
        2,
        &[(i64::MIN, 446), (-1, 1), (i64::MAX, 2)],
        true,
    ),
    (512, 512, 2, &[(1, 477), (2, 18)], true),
    (512, 512, 2, &[(1, 477), (2, 19)], false),
    (512, 512, 2, &[(1, 477), (2, 14), (3, 0)], false),
    (512, 512, 1, &[(1, 477)], false),
    (512, 512, 1, &[(1, 600), (300, 1000)], true),
    (512, 512, 2, &[(2, 1), (2, 1)], false),
    (65536, 65536, 2, &[(1, 65501)], true),
    (65536, 65536, 3, &[(1, 65502), (2, 1 << 40)], true),
];

/// How many cases in front come back where they fit, and do not where they do not.
fn right(alloc: Global, cases: &[Rows]) -> Result<usize, AllocError> {
    for (at, (size, usable, number, rows, fits)) in cases.iter().enumerate() {
        let page = page_of_rows(alloc, *number, *usable, *size, rows)?;
        if comes_back(alloc, &page, *number, *usable).unwrap_or(false) != *fits {
            return Ok(at);
        }
    }
    Ok(cases.len())
}

#[test]
fn rows_come_back_from_a_page_where_they_fit(rt: HostRuntime) -> Result<(), Fail> {
    assert_eq!(rt; right(rt.alloc(), &ROWS)?, 10);
    Ok(())
}

/// An interior page with two cells.
fn interior_page(alloc: Global) -> Result<Vec<u8>, AllocError> {
    let mut cells = InnerCells::from_vec(Vec::new(alloc));
    for (child, rowid) in [(7, -1), (0x0102_0304, 200)] {
        cells.push(InnerCell { child, rowid })?;
    }
    page_with(alloc, &PageCells::Interior { cells, right: 9 }, 4, 512, 512)
}

#[test]
fn the_bytes_of_an_interior_page_and_of_the_largest(rt: HostRuntime) -> Result<(), Fail> {
    let head: Patch = (
        0,
        b"\x05\x00\x00\x00\x02\x01\xed\x00\x00\x00\x00\x09\x01\xf3\x01\xed",
    );
    let rest: Patch = (
        493,
        b"\x01\x02\x03\x04\x81\x48\x00\x00\x00\x07\xff\xff\xff\xff\xff\xff\xff\xff\xff",
    );
    let inner = interior_page(rt.alloc())?;
    assert!(rt; inner == page_of(rt.alloc(), 512, &[head, rest])?);
    assert!(rt; comes_back(rt.alloc(), &inner, 4, 512)?);
    assert!(rt; empty_page(rt.alloc(), 65536)? == page_of(rt.alloc(), 65536, &[(0, b"\x0d")])?);
    Ok(())
}
