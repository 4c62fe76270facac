//! The database header, which is the first 100 bytes of a database.
//!
//! After sqlite.org, "Database File Format", section 1.3. Some files that SQLite opens are refused here, each
//! by a fault of its own: those with a write-ahead log, with a schema format other than 4, with
//! auto-vacuum, with texts in UTF-16, past 1 GiB, and of another length than the header says where it holds.

ghost use Rattle.std.specs.Prelude.{◌≡◌, ◌+◌, ◌*◌, ◌≤◌, ◌↔◌, ◌==◌, if◌then◌else◌, [], ◌∷◌, ◌++◌, replicate, length, drop, IsTrue, IfOk};
ghost use Rattle.db_format.specs.Header.{page_of, is_page_size, IsPageSize, has_size, has_fractions, is_no_database, is_other_page, is_other_reserve, is_fresh, is_corrupt, greatest_length, first_of, refusals, fields_of, header_of, Says, KeepsOthers, ReadsBack, IsNew, ReadsNew, HeaderInFront, Fits, AcceptedFits};
ghost use Rattle.byte_base.specs.Numbers.{number_at};
ghost use Rattle.db_format.specs.HeaderSteps.{Puts, beginning};

use byte_base::{u16_at, u32_at};
use byteorder::{BigEndian, ByteOrder};
use thiserror::Error;

/// What a database begins with.
const TITLE: &[u8; 16] = b"SQLite format 3\0";

/// The greatest length of a database, in bytes: a longer file is not opened.
pub const GREATEST_LENGTH: u64 = 1 << 30;

/// The schema format of a database with tables.
const SCHEMA_FORMAT: u32 = 4;

/// The text encoding of UTF-8.
const UTF_8: u32 = 1;

/// The number that this program leaves as that of the writer: a version of SQLite with this format.
const WRITER: u32 = 3040000;

/// The fields of a header that change.
#[derive(Clone, Copy, Debug, PartialEq, Eq)]
pub struct Header {
    /// The page size in bytes.
    pub page: u32,
    /// The bytes at the end of each page that hold no content.
    pub reserved: u8,
    /// The change counter.
    pub counter: u32,
    /// The size of the database in pages.
    pub size: u32,
    /// The first trunk page of the freelist, 0 for none.
    pub first_trunk: u32,
    /// The number of free pages.
    pub free_pages: u32,
    /// The schema cookie.
    pub cookie: u32,
}

/// Why a file is not opened as a database.
#[derive(Clone, Copy, Debug, PartialEq, Eq, Error)]
pub enum HeaderFault {
    /// The file has fewer than 100 bytes, or another title.
    #[error("not a database")]
    NotADatabase,
    /// The page size is none, or not that of the checksum layer.
    #[error("page size {found}")]
    PageSize {
        /// The two bytes of the page size.
        found: u32,
    },
    /// The write or the read version is not 1. 2 means a write-ahead log.
    #[error("file version {found}")]
    FileVersion {
        /// The first version that is not 1.
        found: u8,
    },
    /// A page would have fewer than 480 usable bytes, or not the eight of the checksum layer reserved.
    #[error("{found} reserved bytes")]
    Reserved {
        /// The reserved bytes of a page.
        found: u8,
    },
    /// The schema format is not 4, and not 0 with no encoding.
    #[error("schema format {found}")]
    SchemaFormat {
        /// The schema format.
        found: u32,
    },
    /// The database is one for auto-vacuum.
    #[error("auto-vacuum")]
    AutoVacuum,
    /// The text is not UTF-8.
    #[error("text encoding {found}")]
    Encoding {
        /// The text encoding.
        found: u32,
    },
    /// The file is longer than 1 GiB.
    #[error("too large: {bytes} bytes")]
    TooLarge {
        /// The length of the file in bytes.
        bytes: u64,
    },
    /// The payload fractions are not 64, 32 and 32, or the length of the file is no multiple of the page
    /// size, or not the size that the header gives.
    #[error("corrupt header")]
    Corrupt,
}

/// Reads the header of a file: `first` are its first 100 bytes, and `length` its length in bytes. `cksum` is
/// the page size of the checksum layer, where there is one. Of several faults the first in the order of the
/// variants is answered. It takes no memory.
pub fn read_header(
    first: &[u8; 100],
    length: u64,
    cksum: Option<u32>,
) -> Result<Header, HeaderFault>
    ensures value { result ≡ header_of first.now length cksum }
    ensures fits { IfOk result (λ header. Fits header cksum) }
{
    match refusal(first, length, cksum) {
        Some(fault) => Err(fault),
        None => Ok(fields_of(first, length)),
    }
}

/// Sets the fields of the header on page 1 of a database, and leaves all other bytes of the page.
///
/// A database that never had a table has the schema format 0 and the encoding 0; a write gives it 4 and 1,
/// as every other database that is accepted has them. With the fields come the counter at place 92 and the
/// number of this program at place 96. It takes no memory.
pub fn write_header(header: &Header, page: &mut [u8])
    requires size { IsPageSize header.now.page }
    requires room { 100 ≤ length page.old }
    ensures says { Says header.now page.new }
    ensures kept { KeepsOthers page.old page.new }
    ensures reads_back { ReadsBack header.now page.old page.new }
{
    put_short(page, 16, stored_page(header.page));
    page[20] = header.reserved;
    let counts = [
        header.counter,
        header.size,
        header.first_trunk,
        header.free_pages,
        header.cookie,
        SCHEMA_FORMAT,
    ];
    put_numbers(page, 24, &counts);
    put_numbers(page, 56, &[UTF_8]);
    put_numbers(page, 92, &[header.counter, WRITER]);
}

/// Makes the header of a database that has no table yet, and leaves the rest of the page. Its size and
/// counters are 0. It takes no memory.
pub fn new_header(page_size: u32, reserved: u8, page: &mut [u8])
    requires size { IsPageSize page_size }
    requires room { 100 ≤ length page.old }
    ensures new { IsNew page_size reserved page.new }
    ensures rest { drop 100 page.new ≡ drop 100 page.old }
    ensures reads { ReadsNew page_size reserved page.new }
{
    begin_header(page);
    let header = Header {
        page: page_size,
        reserved,
        counter: 0,
        size: 0,
        first_trunk: 0,
        free_pages: 0,
        cookie: 0,
    };
    write_header(&header, page);
}

/// Writes what every header begins with, and zeros up to the end of the header.
fn begin_header(page: &mut [u8])
    requires { 100 ≤ length page.old }
    ensures { page.new ≡ beginning ++ (replicate 76 0 ++ drop 100 page.old) }
{
    page[..16].copy_from_slice(TITLE);
    page[16..24].copy_from_slice(&[0, 0, 1, 1, 0, 64, 32, 32]);
    page[24..100].copy_from_slice(&[0; 76]);
}

/// A header that is accepted may be written: it is that of a database of just its size.
pub fn accepted_fits()
    ensures { AcceptedFits }
{}

/// The header is in the first 100 bytes: what follows them changes nothing of what is read.
pub fn header_in_front()
    ensures { HeaderInFront }
{}

/// The two bytes that stand for a page size.
fn stored_page(size: u32) -> u16
    requires { IsPageSize size }
    ensures { (if result == 1 then 65536 else result) ≡ size }
{
    if size == 65536 { 1 } else { size as u16 }
}

/// Writes a number of two bytes at a place.
fn put_short(page: &mut [u8], place: usize, number: u16)
    requires { place + 2 ≤ length page.old }
    ensures { Puts 2 page.old page.new place (number ∷ []) }
{
    BigEndian::write_u16_into(&[number], &mut page[place..place + 2]);
}

/// Writes numbers of four bytes, one behind the other, from a place on.
fn put_numbers(page: &mut [u8], place: usize, numbers: &[u32])
    requires { place + 4 * length numbers.now ≤ length page.old }
    ensures { Puts 4 page.old page.new place numbers.now }
{
    BigEndian::write_u32_into(numbers, &mut page[place..place + 4 * numbers.len()]);
}

/// The first fault of a header.
#[tactic(auto, using(crate::proofs::HeaderLemmas::page_size_kept))]
fn refusal(first: &[u8; 100], length: u64, cksum: Option<u32>) -> Option<HeaderFault>
    ensures { result ≡ first_of (refusals first.now length cksum) }
{
    if is_no_database(first, length) {
        return Some(HeaderFault::NotADatabase);
    }
    if is_other_page(first, cksum) {
        let found = u32::from(u16_at(first, 16));
        return Some(HeaderFault::PageSize { found });
    }
    if first[18] != 1 {
        return Some(HeaderFault::FileVersion { found: first[18] });
    }
    if first[19] != 1 {
        return Some(HeaderFault::FileVersion { found: first[19] });
    }
    if is_other_reserve(first, cksum) {
        return Some(HeaderFault::Reserved { found: first[20] });
    }
    let schema = u32_at(first, 44);
    let encoding = u32_at(first, 56);
    if schema != 4 && !is_fresh(first) {
        return Some(HeaderFault::SchemaFormat { found: schema });
    }
    if u32_at(first, 52) != 0 {
        return Some(HeaderFault::AutoVacuum);
    }
    if encoding != 1 && !is_fresh(first) {
        return Some(HeaderFault::Encoding { found: encoding });
    }
    if length > GREATEST_LENGTH {
        return Some(HeaderFault::TooLarge { bytes: length });
    }
    is_corrupt(first, length).then_some(HeaderFault::Corrupt)
}

/// The fields of a header, and the length in pages for the size.
fn fields_of(first: &[u8; 100], length: u64) -> Header
    requires page { IsPageSize (page_of first.now) }
    requires small { length ≤ greatest_length }
    ensures { result ≡ fields_of first.now length }
{
    let page = page_of(first);
    Header {
        page,
        reserved: first[20],
        counter: u32_at(first, 24),
        size: (length / u64::from(page)) as u32,
        first_trunk: u32_at(first, 32),
        free_pages: u32_at(first, 36),
        cookie: u32_at(first, 40),
    }
}

/// Whether the file is not as long as the header says, or no number of pages, or the header has other
/// payload fractions than every database has.
#[tactic(auto, unfolding(crate::specs::Header::is_corrupt))]
fn is_corrupt(first: &[u8; 100], length: u64) -> bool
    requires { IsPageSize (page_of first.now) }
    ensures { result ≡ is_corrupt first.now length }
{
    let page = u64::from(page_of(first));
    !has_fractions(first)
        || !length.is_multiple_of(page)
        || has_size(first) && u64::from(u32_at(first, 28)) != length / page
}

/// Whether this is a page size: a power of two from 512 to 65536.
pub fn is_page_size(size: u32) -> bool
    ensures answer { result ≡ is_page_size size }
    ensures sized { IsTrue result ↔ IsPageSize size }
{
    matches!(
        size,
        512 | 1024 | 2048 | 4096 | 8192 | 16384 | 32768 | 65536
    )
}

/// The page size that the header gives.
#[tactic(auto, unfolding(crate::specs::Header::page_of))]
fn page_of(first: &[u8; 100]) -> u32
    ensures { result ≡ page_of first.now }
{
    match u32::from(u16_at(first, 16)) {
        1 => 65536,
        size => size,
    }
}

/// Whether this is no database at all.
#[tactic(auto, unfolding(crate::specs::Header::is_no_database))]
fn is_no_database(first: &[u8; 100], length: u64) -> bool
    ensures { result ≡ is_no_database first.now length }
{
    length < 100 || !first.starts_with(TITLE)
}

/// Whether the page size is none, or not that of the checksum layer.
#[tactic(auto, unfolding(crate::specs::Header::is_other_page))]
fn is_other_page(first: &[u8; 100], cksum: Option<u32>) -> bool
    ensures { result ≡ is_other_page first.now cksum }
{
    let found = page_of(first);
    !is_page_size(found) || cksum.is_some_and(|page| found != page)
}

/// Whether too many bytes are reserved, or not those of the checksum layer.
#[tactic(auto, unfolding(crate::specs::Header::is_other_reserve))]
fn is_other_reserve(first: &[u8; 100], cksum: Option<u32>) -> bool
    ensures { result ≡ is_other_reserve first.now cksum }
{
    page_of(first) < 480 + u32::from(first[20]) || cksum.is_some() && first[20] != 8
}

/// Whether the header is that of a database that never had a table.
#[tactic(auto, unfolding(crate::specs::Header::is_fresh))]
fn is_fresh(first: &[u8; 100]) -> bool
    ensures { result ≡ is_fresh first.now }
{
    u32_at(first, 44) == 0 && u32_at(first, 56) == 0
}

/// Whether the size in the header holds.
#[tactic(auto, unfolding(crate::specs::Header::has_size))]
fn has_size(first: &[u8; 100]) -> bool
    ensures { result ≡ has_size first.now }
{
    u32_at(first, 28) != 0 && u32_at(first, 24) == u32_at(first, 92)
}

/// Whether the payload fractions are the ones that every database has.
#[tactic(auto, unfolding(crate::specs::Header::has_fractions))]
fn has_fractions(first: &[u8; 100]) -> bool
    ensures { result ≡ has_fractions first.now }
{
    first[21] == 64 && first[22] == 32 && first[23] == 32
}
