//! The sums of a page, and where it keeps them.

ghost use Rattle.std.specs.Prelude.{◌≡◌, ◌+◌, ◌≤◌, ◌<◌, ◌%◌, ◌++◌, length};
ghost use Rattle.byteorder.specs.Endian.{little_bytes};
ghost use Rattle.vfs_model.specs.Sums.{sum_of, kept_sums, little};
ghost use Rattle.cksum_vfs.specs.Page.{other_sums, page_bad, IsSealed, Names};

use byteorder::{BigEndian, ByteOrder, LittleEndian};
use vfs_trait::VfsFault;

/// How many bytes at the end of a page keep its sums.
pub const KEPT_SIZE: usize = 8;

/// The two sums of a page, or of any bytes of whole pairs of words.
pub fn sum(page: &[u8]) -> (u32, u32)
    requires { length page.now % 8 ≡ 0 }
    ensures { result ≡ sum_of page.now }
{
    let mut first = 0;
    let mut second = 0;
    let mut rest = page;
    while let [a, b, c, d, e, f, g, h, more @ ..] = rest {
        first = after(first, little(*a, *b, *c, *d), second);
        second = after(second, little(*e, *f, *g, *h), first);
        rest = more;
    }
    (first, second)
}

/// Three numbers added, modulo 2^32.
fn after(sum: u32, word: u32, other: u32) -> u32
    ensures { result ≡ (sum + word + other) % 4294967296 }
{
    ((u64::from(sum) + u64::from(word) + u64::from(other)) % 4_294_967_296) as u32
}

/// Four bytes as a number, the least one first.
fn little(a: u8, b: u8, c: u8, d: u8) -> u32
    ensures { result ≡ little a b c d }
{
    u32::from(a) + 256 * (u32::from(b) + 256 * (u32::from(c) + 256 * u32::from(d)))
}

/// The bytes that keep two sums.
fn words(first: u32, second: u32) -> [u8; KEPT_SIZE]
    ensures { result ≡ little_bytes 4 first ++ little_bytes 4 second }
{
    let mut bytes = [0; KEPT_SIZE];
    LittleEndian::write_u32(&mut bytes, first);
    LittleEndian::write_u32(&mut bytes[4..], second);
    bytes
}

/// The sums that a page keeps in its last bytes.
fn kept_sums(tail: &[u8]) -> (u32, u32)
    ensures { result ≡ kept_sums tail.now }
{
    match tail {
        [a, b, c, d, e, f, g, h, ..] => (little(*a, *b, *c, *d), little(*e, *f, *g, *h)),
        _ => (0, 0),
    }
}

/// Whether a page keeps other sums than it has.
fn has_other_sums(page: &[u8]) -> bool
    requires long { 8 ≤ length page.now }
    requires pairs { length page.now % 8 ≡ 0 }
    ensures { result ≡ other_sums (length page.now) page.now }
{
    let split = page.len() - KEPT_SIZE;
    let found = sum(&page[..split]);
    let kept = kept_sums(&page[split..]);
    found.0 != kept.0 || found.1 != kept.1
}

/// Whether a page fails of which so many bytes lie in its file, with zeros behind them. One of which none does does not.
pub fn is_bad(page: &[u8], count: usize) -> bool
    requires long { 8 ≤ length page.now }
    requires pairs { length page.now % 8 ≡ 0 }
    ensures { result ≡ page_bad (length page.now) page.now count }
{
    count > 0 && (count < page.len() || has_other_sums(page))
}

/// The refusal that names a page, by its number from 0.
#[tactic(auto, unfolding(byte_base::specs::Numbers::number_at))]
pub fn bad_page(page: &[u8], number: u32) -> VfsFault
    requires long { 8 ≤ length page.now }
    requires pairs { length page.now % 8 ≡ 0 }
    requires small { number < 4294967295 }
    ensures { Names page.now number result }
{
    let split = page.len() - KEPT_SIZE;
    let (first, second) = sum(&page[..split]);
    VfsFault::BadPage {
        page: number + 1,
        kept: BigEndian::read_u64(&page[split..]),
        found: BigEndian::read_u64(&words(first, second)),
    }
}

/// Puts the sums of all but the last eight bytes of a page into these.
pub fn seal(page: &mut [u8])
    requires long { 8 ≤ length page.old }
    requires pairs { length page.old % 8 ≡ 0 }
    ensures { IsSealed page.old page.new }
{
    let split = page.len() - KEPT_SIZE;
    let (first, second) = sum(&page[..split]);
    page[split..].copy_from_slice(&words(first, second));
}
