//! Runs that begin with the pages of a file, spelled out here byte by byte.

use db_format::Bytes;
use ref_book::MapShelf;
use ref_pages::{RefPage, RefPages};
use ref_shell::run;
use std::alloc::{AllocError, Global};
use std::test::Fail;

/// Bytes that stand at a place of a file.
type Patch = (usize, &'static [u8]);

/// The file of 1024 bytes after `create t a` on an empty one, with pages of 512 bytes.
const ONE_TABLE: [Patch; 8] = [
    (
        0,
        b"\x53\x51\x4c\x69\x74\x65\x20\x66\x6f\x72\x6d\x61\x74\x20\x33\x00",
    ),
    (
        16,
        b"\x02\x00\x01\x01\x00\x40\x20\x20\x00\x00\x00\x01\x00\x00\x00\x02",
    ),
    (40, b"\x00\x00\x00\x01\x00\x00\x00\x04"),
    (56, b"\x00\x00\x00\x01"),
    (92, b"\x00\x00\x00\x01\x00\x2e\x63\x00"),
    (100, b"\x0d\x00\x00\x00\x01\x01\xdf\x00\x01\xdf"),
    (
        479,
        b"\x1f\x01\x06\x17\x0f\x0f\x01\x2f\x74\x61\x62\x6c\x65\x74\x74\x02\
          \x43\x52\x45\x41\x54\x45\x20\x54\x41\x42\x4c\x45\x20\x74\x28\x61\x29",
    ),
    (512, b"\x0d\x00\x00\x00\x00\x02\x00\x00"),
];

/// The change counter at its end, where it is kept and where the size is vouched for.
const WORN: [Patch; 2] = [(24, b"\xff\xff\xff\xff"), (92, b"\xff\xff\xff\xff")];

/// A row in the table: rowid 1, the text `a`.
const ONE_ROW: [Patch; 2] = [
    (512, b"\x0d\x00\x00\x00\x01\x01\xfb\x00\x01\xfb"),
    (1019, b"\x03\x01\x02\x0f\x61"),
];

/// The text of the table in small letters, which is not that of a plain one.
const FOREIGN: [Patch; 1] = [(495, b"create")];

/// What it shows, what is laid over the file, the input, and the text that it is answered.
type Case = (&'static str, &'static [Patch], &'static [u8], &'static [u8]);

const RUNS: [Case; 4] = [
    (
        "a table in a file",
        &[],
        b"tables\nget t 1\nput t 1 t:a\nget t 1\nreopen\n",
        b"open 1\ntable t a\nend 1\nnone\nnew\nrow 1 t:a\nopen 2\n",
    ),
    (
        "a row in a file",
        &ONE_ROW,
        b"get t 1\ncount t\nput t 1 i:2\nput t 2 null\nscan t 0 9\ndrop t\ntables\n",
        b"open 1\nrow 1 t:a\ncount 1\nreplaced\nnew\nrow 1 i:2\nrow 2 null\nend 2\nok\nend 0\n",
    ),
    (
        "a table that is not plain",
        &FOREIGN,
        b"tables\nget t 1\ndrop t\ncreate t a\ncreate u a\ntables\n",
        b"open 1\nforeign t\nend 1\nerror foreign\nerror foreign\nerror exists\nok\nforeign t\ntable u a\nend 2\n",
    ),
    (
        "a counter at its end",
        &WORN,
        b"get t 1\nput t 1 i:1\nbegin\nput t 1 i:1\ncommit\nrollback\ncount t\n",
        b"open 4294967295\nnone\nworn\nok\nnew\nworn\nok\ncount 0\n",
    ),
];

/// What is laid over the file so that its pages are not whole: the table has no tree, a trunk that is no page, a page that is named
/// twice, a row that is no record.
const BROKEN: [(&str, &[Patch]); 4] = [
    ("no tree", &[(512, b"\x00")]),
    ("no trunk", &[(32, b"\x00\x00\x00\x09\x00\x00\x00\x01")]),
    (
        "a page in use is free",
        &[(32, b"\x00\x00\x00\x02\x00\x00\x00\x01")],
    ),
    (
        "no record",
        &[
            (512, b"\x0d\x00\x00\x00\x01\x01\xfc\x00\x01\xfc"),
            (1020, b"\x02\x01\x02\x0a"),
        ],
    ),
];

/// Lays bytes over a file from a place on.
fn lay(file: &mut [u8], patches: &[Patch]) {
    for (place, bytes) in patches {
        for (slot, byte) in file.iter_mut().skip(*place).zip(*bytes) {
            *slot = *byte;
        }
    }
}

/// The pages of the file with one table, with this laid over it.
fn pages_of(alloc: Global, patches: &[Patch]) -> Result<RefPages, Fail> {
    let mut file = vec![in alloc; 0; 1024]?;
    lay(&mut file, &ONE_TABLE);
    lay(&mut file, patches);
    let mut pages = Vec::new(alloc);
    for page in file.chunks(512) {
        pages.push(RefPage {
            bytes: Bytes::copy_of(alloc, page)?,
            bad: None,
        })?;
    }
    Ok(RefPages::new(512, pages).ok_or("pages")?)
}

#[test]
fn runs_from_a_file_give_their_text(rt: HostRuntime) -> Result<(), Fail> {
    let alloc = rt.alloc();
    for (name, patches, input, text) in RUNS {
        let pages = pages_of(alloc, patches)?;
        let shelf = MapShelf::of_pages(alloc, 512, &pages)?.ok_or("whole")?;
        let given = run(alloc, shelf, input)?;
        assert!(rt; given.as_slice() == text, "{name}");
    }
    Ok(())
}

#[test]
fn pages_that_are_not_whole_have_no_book(rt: HostRuntime) -> Result<(), Fail> {
    let alloc = rt.alloc();
    for (name, patches) in BROKEN {
        let pages = pages_of(alloc, patches)?;
        assert!(rt; MapShelf::of_pages(alloc, 512, &pages)?.is_none(), "{name}");
    }
    Ok(())
}

#[test]
fn no_pages_are_the_empty_book(rt: HostRuntime) -> Result<(), Fail> {
    let alloc = rt.alloc();
    let pages = RefPages::new(512, Vec::new(alloc)).ok_or("pages")?;
    let shelf = MapShelf::of_pages(alloc, 512, &pages)?.ok_or("whole")?;
    let given = run(alloc, shelf, b"tables\n")?;
    assert!(rt; given.as_slice() == b"open 0\nend 0\n".as_slice());
    Ok(())
}
