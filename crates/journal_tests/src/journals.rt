//! Rollback journals, written and read.

ghost use Rattle.std.specs.Prelude.{◌≡◌, ℕ, List, length, Some, IfOk};
ghost use Rattle.journal_format.specs.Journal.{IsPlan};
ghost use Rattle.journal_format.specs.Values.{undo_of_plan};
ghost use Rattle.vfs_model.specs.Name.{IsName, kind_of};
ghost use Rattle.vfs_model.specs.declared.name.Kind.TheVariants.{Super};

use crate::patches::{FIRST, Patch, lay, page_of};
use Told::{Cold, Foreign, Plays};
use byte_base::Bytes;
use journal_format::{
    Hot, JournalFault, JournalPlan, NumberedPage, PageList, journal_bytes, read_hot,
};
use std::alloc::{AllocError, Global};
use std::test::Fail;
use vfs_model::{Kind, Name};

/// The journal of the first row that is put into that file: both pages are changed.
const JOURNAL: [Patch; 7] = [
    (0, b"\x00\xd5\x05\xf9\x20\xa1\x63\xd7"),
    (
        8,
        b"\x00\x00\x00\x02\x00\x00\x00\x01\x00\x00\x00\x02\x00\x00\x02\x00\x00\x00\x02\x00",
    ),
    (512, b"\x00\x00\x00\x01"),
    (1028, b"\x00\x00\x00\x01"),
    (1032, b"\x00\x00\x00\x02"),
    (1036, b"\x0d\x00\x00\x00\x00\x02\x00\x00"),
    (1548, b"\x00\x00\x00\x01"),
];

/// The trailer with the name `main-with-other`, for pages of 512 bytes.
const TRAILER: &[u8] =
    b"\x00\x20\x00\x01main-with-other\x00\x00\x00\x0f\x00\x00\x05\xdd\xd9\xd5\x05\xf9\x20\xa1\x63\xd7";

/// The same with the name `main-then-other`, which is a database's.
const OTHER_TRAILER: &[u8] =
    b"\x00\x20\x00\x01main-then-other\x00\x00\x00\x0f\x00\x00\x05\xd0\xd9\xd5\x05\xf9\x20\xa1\x63\xd7";

/// And with `main-with-o/her`, which is no name.
const NO_TRAILER: &[u8] =
    b"\x00\x20\x00\x01main-with-o/her\x00\x00\x00\x0f\x00\x00\x05\x98\xd9\xd5\x05\xf9\x20\xa1\x63\xd7";

/// The bytes of that journal, open, as many as are asked for, with bytes laid over them.
fn spelled(alloc: Global, len: usize, patches: &[Patch]) -> Result<Vec<u8>, AllocError> {
    let mut bytes = vec![in alloc; 0; 1552]?;
    lay(&mut bytes, &JOURNAL);
    lay(&mut bytes[516..1028], &FIRST);
    bytes[0] = 0xd9;
    bytes.resize(len, 0)?;
    lay(&mut bytes, patches);
    Ok(bytes)
}

/// A page of 512 bytes that has these at their places.
fn page(alloc: Global, number: u32, patches: &[Patch]) -> Result<NumberedPage, AllocError>
    ensures number { IfOk result (λ page. page.number ≡ number) }
    ensures size { IfOk result (λ page. length page.bytes ≡ 512) }
{
    let mut bytes = page_of(alloc, 512, patches)?;
    bytes.resize(512, 0)?;
    let bytes = Bytes::from_vec(bytes);
    Ok(NumberedPage { number, bytes })
}

/// What that journal undoes.
fn plan(alloc: Global, super_name: Option<Name>) -> Result<JournalPlan, AllocError>
    requires { (name : List ℕ) → super_name ≡ Some name → IsName name × (kind_of name ≡ Super) }
    ensures { IfOk result (λ plan. IsPlan plan.nonce (undo_of_plan plan)) }
{
    let mut originals = PageList::from_vec(Vec::new(alloc));
    originals.push(page(alloc, 1, &FIRST)?)?;
    originals.push(page(alloc, 2, &[(0, b"\x0d"), (5, b"\x02")])?)?;
    Ok(JournalPlan {
        nonce: 1,
        initial: 2,
        page: 512,
        originals,
        super_name,
    })
}

/// The name of a super-journal.
fn super_name() -> Option<Name>
    ensures { (name : List ℕ) → result ≡ Some name → IsName name × (kind_of name ≡ Super) }
{
    let name = Name::new(b"main-with-other")?;
    match name.kind() {
        Kind::Super => Some(name),
        _ => None,
    }
}

/// The bytes that are written for that plan.
fn written(alloc: Global, super_name: Option<Name>) -> Result<Bytes, AllocError>
    requires { (name : List ℕ) → super_name ≡ Some name → IsName name × (kind_of name ≡ Super) }
{
    journal_bytes(alloc, &plan(alloc, super_name)?)
}

#[test]
fn journals_are_written(rt: HostRuntime) -> Result<(), Fail> {
    let alloc = rt.alloc();
    let mut whole = spelled(alloc, 1552, &[(0, b"\x00")])?;
    assert!(rt; written(alloc, None)?.as_slice() == whole.as_slice());
    whole.extend_from_slice(TRAILER)?;
    let name = super_name();
    assert!(rt; name.is_some());
    assert!(rt; written(alloc, name)?.as_slice() == whole.as_slice());
    Ok(())
}

/// What is read from bytes.
#[derive(Clone, Copy, Debug, PartialEq, Eq)]
enum Told {
    Cold,
    Foreign,
    /// The first number, how many pages are played back, and whether a super-journal is named.
    Plays(u32, usize, bool),
}

fn read_as(alloc: Global, bytes: &[u8]) -> Result<Told, JournalFault> {
    match read_hot(alloc, bytes) {
        Ok(Hot::Cold) => Ok(Cold),
        Ok(Hot::Play(play)) => {
            let pages = play.records.as_slice();
            let first = pages.first().map_or(0, |page| page.number);
            Ok(Plays(first, pages.len(), play.super_name.is_some()))
        }
        Err(JournalFault::Foreign) => Ok(Foreign),
        Err(JournalFault::Memory) => Err(JournalFault::Memory),
    }
}

/// All records, as many as there are.
const ALL: &[u8] = b"\xff\xff\xff\xff";

/// What it shows, how many bytes of that journal, what is laid over them, and what is read.
type Case = (&'static str, usize, &'static [Patch], Told);

const HOSTILE: [Case; 29] = [
    ("as it was written", 1552, &[], Plays(1, 2, false)),
    ("closed", 1552, &[(0, b"\x00")], Cold),
    ("another first byte", 1552, &[(0, b"\x01")], Cold),
    ("27 bytes", 27, &[], Cold),
    ("28 bytes", 28, &[], Foreign),
    ("a sector of 0", 1552, &[(20, b"\x00\x00\x00\x00")], Foreign),
    (
        "a sector of 256",
        1552,
        &[(20, b"\x00\x00\x01\x00")],
        Foreign,
    ),
    (
        "a longer sector",
        1552,
        &[(20, b"\x00\x00\x08\x00")],
        Foreign,
    ),
    (
        "a page of 1000",
        1552,
        &[(24, b"\x00\x00\x03\xe8")],
        Foreign,
    ),
    (
        "2^30 bytes of pages",
        1552,
        &[(16, b"\x00\x20\x00\x00")],
        Plays(1, 2, false),
    ),
    ("a page more", 1552, &[(16, b"\x00\x20\x00\x01")], Foreign),
    ("a byte too many", 1553, &[], Foreign),
    ("a byte too few", 1551, &[], Foreign),
    ("a count of 1", 1552, &[(8, b"\x00\x00\x00\x01")], Foreign),
    (
        "a count of 0",
        1552,
        &[(8, b"\x00\x00\x00\x00")],
        Plays(0, 0, false),
    ),
    ("all records", 1552, &[(8, ALL)], Plays(1, 2, false)),
    (
        "all, the last one cut",
        1551,
        &[(8, ALL)],
        Plays(1, 1, false),
    ),
    (
        "all, the magic last",
        1552,
        &[(8, ALL), (1544, b"\xd9\xd5\x05\xf9\x20\xa1\x63\xd7")],
        Foreign,
    ),
    (
        "page 0",
        1552,
        &[(1032, b"\x00\x00\x00\x00")],
        Plays(1, 1, false),
    ),
    (
        "the page of the lock",
        1552,
        &[(512, b"\x00\x20\x00\x01")],
        Plays(0, 0, false),
    ),
    (
        "past the size, the checksum wrong",
        1552,
        &[(512, b"\x00\x00\x00\x03"), (1028, b"\x09")],
        Plays(2, 1, false),
    ),
    (
        "the checksum wrong",
        1552,
        &[(1028, b"\x09")],
        Plays(0, 0, false),
    ),
    (
        "a byte that is in the checksum",
        1552,
        &[(516 + 312, b"\x01")],
        Plays(0, 0, false),
    ),
    (
        "a byte that is not",
        1552,
        &[(516 + 313, b"\x01")],
        Plays(1, 2, false),
    ),
    (
        "a super-journal",
        1587,
        &[(1552, TRAILER)],
        Plays(1, 2, true),
    ),
    (
        "behind no record",
        547,
        &[(8, b"\x00\x00\x00\x00"), (512, TRAILER)],
        Plays(0, 0, true),
    ),
    (
        "the sum wrong",
        1587,
        &[(1552, TRAILER), (1575, b"\x01")],
        Foreign,
    ),
    ("a database named", 1587, &[(1552, OTHER_TRAILER)], Foreign),
    ("no name", 1587, &[(1552, NO_TRAILER)], Foreign),
];

#[test]
fn hostile_journals_have_one_meaning(rt: HostRuntime) -> Result<(), Fail> {
    let alloc = rt.alloc();
    for (name, len, patches, expected) in HOSTILE {
        let bytes = spelled(alloc, len, patches)?;
        assert_eq!(rt; read_as(alloc, &bytes)?, expected, "{name}");
    }
    Ok(())
}
