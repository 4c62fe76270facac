//! Small spaces whose pages are spelled out byte by byte.

use db_format::Bytes;
use ref_pages::{RefPage, RefPages};
use std::alloc::{AllocError, Global};
use std::test::Fail;

/// Bytes that stand at a place of a page.
pub type Patch = (usize, &'static [u8]);

/// Those of a page, over zeros.
pub type Patches = &'static [Patch];

/// A page of zeros.
pub const ZEROS: Patches = &[];

/// Lays bytes over a page from a place on.
pub fn lay(page: &mut [u8], place: usize, bytes: &[u8]) {
    for (slot, byte) in page.iter_mut().skip(place).zip(bytes) {
        *slot = *byte;
    }
}

/// The 512 bytes of a page that has these at their places, and then these.
pub fn bytes_of(alloc: Global, patches: &[Patch], more: &[Patch]) -> Result<Vec<u8>, AllocError> {
    let mut page = vec![in alloc; 0; 512]?;
    for (place, bytes) in patches.iter().chain(more) {
        lay(&mut page, *place, bytes);
    }
    Ok(page)
}

/// The page of these bytes; one that is bad fails its checksum, which is 8 in place of 7.
pub fn page_of(bytes: Vec<u8>, bad: bool) -> RefPage {
    RefPage {
        bytes: Bytes::from_vec(bytes),
        bad: if bad { Some((7, 8)) } else { None },
    }
}

/// Page 1, with more bytes laid over it, and the others behind it, all good but those of the marks.
pub fn space(
    alloc: Global,
    first: &[Patch],
    more: &[Patch],
    others: &[Patches],
    marked: &[u32],
) -> Result<RefPages, Fail> {
    let mut pages = Vec::new(alloc);
    let bytes = bytes_of(alloc, first, more)?;
    pages.push(page_of(bytes, marked.contains(&1)))?;
    let mut number: u32 = 1;
    for patches in others {
        number = number.wrapping_add(1);
        let bytes = bytes_of(alloc, *patches, &[])?;
        pages.push(page_of(bytes, marked.contains(&number)))?;
    }
    Ok(RefPages::new(512, pages).ok_or("no pages")?)
}
