//! The header on page 1, with the size at place 28 left aside.

ghost use Rattle.std.specs.Prelude.{◌≡◌, ◌↔◌, ◌+◌, ◌≤◌, ◌<◌, length, take, slice_index, IsTrue};
ghost use Rattle.db_format.specs.Header.{page_of};
ghost use Rattle.byte_base.specs.Numbers.{number_at};
ghost use Rattle.tree_model.specs.Whole.{HasHeader};
ghost use Rattle.ref_pages.specs.AsPages.{pages_of};
ghost use Rattle.ref_trees.specs.ForestSteps.{without_size};

use byteorder::{BigEndian, ByteOrder};
use db_format::{header_in_front, read_header};
use ref_pages::RefPages;

/// Whether page 1 is there, is good, and begins with a header that is read without refusal and says the usable size.
pub(crate) fn has_header(pages: &RefPages) -> bool
    ensures { IsTrue result ↔ HasHeader (pages_of pages.now) }
{
    header_in_front();
    let Some(bytes) = pages.bytes_of(1) else {
        return false;
    };
    if pages.mark_of(1).is_some() {
        return false;
    }
    let first = first_of(bytes);
    let page = page_of(&first);
    let length = u64::from(page) * u64::from(pages.size());
    let accepted = read_header(&first, length, None).is_ok();
    accepted && page == pages.usable() + reserved_of(&first)
}

/// The first 100 bytes of a page, with zeros for the size at place 28.
fn first_of(bytes: &[u8]) -> [u8; 100]
    requires { 100 ≤ length bytes.now }
    ensures { result ≡ take 100 (without_size bytes.now) }
{
    let mut first = [0; 100];
    for at in 0..100 {
        first[at] = byte_at(bytes, at);
    }
    first
}

/// A byte of the header, 0 where the size stands.
fn byte_at(bytes: &[u8], at: usize) -> u8
    requires { at < length bytes.now }
    ensures { result ≡ slice_index (without_size bytes.now) at }
{
    if at < 28 {
        bytes[at]
    } else if at < 32 {
        0
    } else {
        bytes[at]
    }
}

/// How many bytes at the end of each page a header leaves aside.
fn reserved_of(first: &[u8; 100]) -> u32
    ensures is { result ≡ slice_index first.now 20 }
    ensures small { result < 256 }
{
    let reserved = first[20];
    u32::from(reserved)
}

/// The page size that a header says.
#[tactic(auto, unfolding(db_format::specs::Header::page_of))]
fn page_of(bytes: &[u8]) -> u32
    requires { 100 ≤ length bytes.now }
    ensures { result ≡ page_of bytes.now }
{
    match short_at(bytes, 16) {
        1 => 65536,
        size => size,
    }
}

/// The number in the two bytes at a place.
fn short_at(bytes: &[u8], place: usize) -> u32
    requires { place + 2 ≤ length bytes.now }
    ensures { result ≡ number_at 2 bytes.now place }
{
    u32::from(BigEndian::read_u16(&bytes[place..]))
}
