//! Pages, chains and freelists over small spaces whose pages are spelled out here, byte by byte.

use crate::spelled::{Patches, ZEROS, space};
use db_format::Bytes;
use ref_pages::{ChainEnd, RefPage, RefPages, RefTrunk, chain_of, freelist_of};
use std::alloc::{AllocError, Global};
use std::test::Fail;

/// A page that begins like a leaf of a b-tree.
const LEAF: Patches = &[(0, b"\x0d")];

/// Pages of chains: the number of the next one, a byte at the beginning of what it holds, and one at its end.
const TO_FOUR: Patches = &[(0, b"\x00\x00\x00\x04s"), (511, b"t")];

const LAST: Patches = &[(0, b"\x00\x00\x00\x00u"), (473, b"v")];

/// Whether a chain is whole with just these pages and so many bytes, or breaks at this page.
fn ends(
    alloc: Global,
    pages: &RefPages,
    first: u32,
    len: u64,
    wanted: Result<&[u32], u32>,
) -> Result<bool, AllocError> {
    match chain_of(alloc, pages, first, len)? {
        ChainEnd::Whole { numbers, payload } => {
            Ok(wanted == Ok(numbers.as_slice()) && payload.as_slice().len() as u64 == len)
        }
        ChainEnd::Breaks { page } => Ok(wanted == Err(page)),
        ChainEnd::Fails { .. } => Ok(false),
    }
}

#[test]
fn chains_end_in_one_way(rt: HostRuntime) -> Result<(), Fail> {
    let pages = space(rt.alloc(), ZEROS, &[], &[LEAF, TO_FOUR, LAST], &[])?;
    let cases: [(u32, u64, Result<&[u32], u32>); 11] = [
        (0, 0, Ok(&[])),
        (4, 1, Ok(&[4])),
        (4, 508, Ok(&[4])),
        (3, 509, Ok(&[3, 4])),
        (3, 1016, Ok(&[3, 4])),
        (3, 0, Err(3)),
        (0, 1, Err(0)),
        (3, 508, Err(3)),
        (3, 1017, Err(4)),
        (3, u64::MAX, Err(4)),
        (5, 1, Err(5)),
    ];
    for (first, len, wanted) in cases {
        assert!(rt;
            ends(rt.alloc(), &pages, first, len, wanted)?,
            "{first}, {len}"
        );
    }
    Ok(())
}

#[test]
fn a_chain_fails_with_its_page(rt: HostRuntime) -> Result<(), Fail> {
    let pages = space(rt.alloc(), ZEROS, &[], &[LEAF, TO_FOUR, LAST], &[4])?;
    let end = chain_of(rt.alloc(), &pages, 3, 600)?;
    assert!(rt;
        matches!(
            end,
            ChainEnd::Fails {
                page: 4,
                sums: (7, 8)
            }
        )
    );
    Ok(())
}

#[test]
fn sizes_that_pages_may_have(rt: HostRuntime) -> Result<(), Fail> {
    let cases = [
        (479, 512, false),
        (480, 480, true),
        (480, 479, false),
        (512, 511, false),
        (512, 65536, true),
        (512, 65537, false),
        (65536, 65536, true),
        (65537, 65537, false),
    ];
    for (usable, size, wanted) in cases {
        let mut pages = Vec::new(rt.alloc());
        pages.push(RefPage {
            bytes: Bytes::from_vec(vec![in rt.alloc(); 0; size]?),
            bad: None,
        })?;
        let made = RefPages::new(usable, pages);
        assert!(rt; made.is_some() == wanted, "{usable} of {size}");
    }
    Ok(())
}

#[test]
fn pages_are_as_they_were_given(rt: HostRuntime) -> Result<(), Fail> {
    let pages = space(rt.alloc(), ZEROS, &[], &[LEAF], &[2])?;
    assert!(rt; pages.size() == 2 && pages.usable() == 512);
    assert!(rt; pages.bytes_of(0).is_none() && pages.bytes_of(3).is_none());
    assert!(rt;
        pages
            .bytes_of(2)
            .is_some_and(|bytes| bytes.len() == 512 && bytes.first() == Some(&13))
    );
    assert!(rt;
        pages.mark_of(1).is_none() && pages.mark_of(2) == Some((7, 8)) && pages.mark_of(3).is_none()
    );
    Ok(())
}

/// Page 1 with the number 2, or 9, of the first trunk at place 32.
const FREE_FROM_2: Patches = &[(32, b"\x00\x00\x00\x02")];

const FREE_FROM_9: Patches = &[(32, b"\x00\x00\x00\x09")];

/// Trunks: the number of the next one, how many leaves there are, and each leaf.
const TO_3_WITH_4: Patches = &[(0, b"\x00\x00\x00\x03\x00\x00\x00\x01\x00\x00\x00\x04")];

const ENDS_WITH_4: Patches = &[(0, b"\x00\x00\x00\x00\x00\x00\x00\x01\x00\x00\x00\x04")];

const ENDS_WITH_1: Patches = &[(0, b"\x00\x00\x00\x00\x00\x00\x00\x01\x00\x00\x00\x01")];

const ENDS_WITH_127: Patches = &[(0, b"\x00\x00\x00\x00\x00\x00\x00\x7f\x00\x00\x00\x04")];

const BACK_TO_2: Patches = &[(0, b"\x00\x00\x00\x02")];

/// Trunks, each a number and its leaves.
type Trunks = &'static [(u32, &'static [u32])];

/// Whether these are the trunks.
fn are(trunks: &[RefTrunk], wanted: Trunks) -> bool {
    trunks.len() == wanted.len()
        && trunks.iter().zip(wanted).all(|(trunk, says)| trunk.number() == says.0
            && trunk.leaves() == says.1)
}

/// Whether pages have a freelist with just these trunks, or none.
fn lists(
    alloc: Global,
    first: Patches,
    others: &[Patches],
    wanted: Option<Trunks>,
) -> Result<bool, Fail> {
    let pages = space(alloc, first, &[], others, &[])?;
    let Some(trunks) = freelist_of(alloc, &pages)? else {
        return Ok(wanted.is_none());
    };
    match wanted {
        Some(wanted) => Ok(are(&trunks, wanted)),
        None => Ok(false),
    }
}

#[test]
fn freelists_from_page_1(rt: HostRuntime) -> Result<(), Fail> {
    let cases: [(Patches, &[Patches], Option<Trunks>); 9] = [
        (ZEROS, &[ENDS_WITH_4], Some(&[])),
        (FREE_FROM_2, &[ZEROS], Some(&[(2, &[])])),
        (
            FREE_FROM_2,
            &[TO_3_WITH_4, ZEROS, ZEROS],
            Some(&[(2, &[4]), (3, &[])]),
        ),
        (FREE_FROM_9, &[ZEROS], None),
        (FREE_FROM_2, &[BACK_TO_2], None),
        (FREE_FROM_2, &[ENDS_WITH_4, ZEROS], None),
        (FREE_FROM_2, &[ENDS_WITH_1, ZEROS], None),
        (FREE_FROM_2, &[ENDS_WITH_127, ZEROS, ZEROS], None),
        (FREE_FROM_2, &[TO_3_WITH_4, ENDS_WITH_4, ZEROS], None),
    ];
    for (first, others, wanted) in cases {
        assert!(rt; lists(rt.alloc(), first, others, wanted)?, "{wanted:?}");
    }
    Ok(())
}
