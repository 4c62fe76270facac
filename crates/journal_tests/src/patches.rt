//! Bytes laid over others.

use std::alloc::{AllocError, Global};

/// Bytes that stand at a place.
pub(crate) type Patch = (usize, &'static [u8]);

/// Page 1, of 512 bytes, of a file with the table `t` of the column `a`, without a row.
pub(crate) const FIRST: [Patch; 8] = [
    (0, b"SQLite format 3\x00"),
    (16, b"\x02\x00\x01\x01\x00\x40\x20\x20"),
    (24, b"\x00\x00\x00\x01\x00\x00\x00\x02"),
    (40, b"\x00\x00\x00\x01\x00\x00\x00\x04"),
    (56, b"\x00\x00\x00\x01"),
    (92, b"\x00\x00\x00\x01\x00\x2e\x63\x00"),
    (100, b"\x0d\x00\x00\x00\x01\x01\xdf\x00\x01\xdf"),
    (
        479,
        b"\x1f\x01\x06\x17\x0f\x0f\x01\x2ftablett\x02CREATE TABLE t(a)",
    ),
];

/// So many zeros with bytes laid over them.
pub(crate) fn page_of(
    alloc: Global,
    size: usize,
    patches: &[Patch],
) -> Result<Vec<u8>, AllocError> {
    let mut page = vec![in alloc; 0; size]?;
    lay(&mut page, patches);
    Ok(page)
}

/// Lays bytes over others, where they have room.
pub(crate) fn lay(page: &mut [u8], patches: &[Patch]) {
    for (place, patch) in patches {
        if *place <= page.len() && patch.len() <= page.len() - *place {
            page[*place..*place + patch.len()].copy_from_slice(patch);
        }
    }
}
