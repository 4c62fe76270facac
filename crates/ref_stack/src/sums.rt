//! Checksums of pages.

ghost use Rattle.std.specs.Prelude.{◌≡◌, ℕ, ◌+◌, ◌*◌, ◌≤◌, ◌<◌, ◌^◌, ◌%◌, length, IfOk, nat_le, if◌then◌else◌};
ghost use Rattle.vfs_model.specs.Sums.{sums, sum_of, kept_sums, page_at, found_sums, stored_sums, fails, without_sums, little, kept_size};
ghost use Rattle.ref_stack.specs.Pages.{has_other_sums};

use byte_base::Bytes;
use std::alloc::{AllocError, Global};

/// How many bytes at the end of a page keep its sums.
const KEPT_SIZE: usize = 8;

/// The two sums of some bytes, of which fewer than eight at the end are left out.
pub fn sum_of(bytes: &[u8]) -> (u32, u32)
    ensures { result ≡ sum_of bytes.now }
{
    sums(0, 0, bytes)
}

/// The two sums of some bytes, begun with these.
fn sums(first: u32, second: u32, bytes: &[u8]) -> (u32, u32)
    ensures { result ≡ sums (first, second) bytes.now }
{
    let [a, b, c, d, e, f, g, h, more @ ..] = bytes else {
        return (first, second);
    };
    let first = after(first, little(*a, *b, *c, *d), second);
    let second = after(second, little(*e, *f, *g, *h), first);
    sums(first, second, more)
}

/// Three numbers added, modulo 2^32.
fn after(sum: u32, word: u32, other: u32) -> u32
    ensures { result ≡ (sum + word + other) % 4294967296 }
{
    ((u64::from(sum) + u64::from(word) + u64::from(other)) % 4_294_967_296) as u32
}

/// Four bytes as a number, the least one first.
fn little(a: u8, b: u8, c: u8, d: u8) -> u32
    ensures { result ≡ little a b c d }
{
    u32::from(a) + 256 * (u32::from(b) + 256 * (u32::from(c) + 256 * u32::from(d)))
}

/// The sums that a page keeps in its last bytes.
fn kept_sums(tail: &[u8]) -> (u32, u32)
    ensures { result ≡ kept_sums tail.now }
{
    match tail {
        [a, b, c, d, e, f, g, h, ..] => (little(*a, *b, *c, *d), little(*e, *f, *g, *h)),
        _ => (0, 0),
    }
}

/// Whether a page, by its number from 0, is not whole in the bytes or has other sums than those that it keeps; one of
/// which no byte is there does not fail.
pub fn fails(page: u32, bytes: &[u8], number: u32) -> bool
    ensures { result ≡ fails page bytes.now number }
{
    let start = u64::from(page) * u64::from(number);
    let len = bytes.len() as u64;
    if start >= len {
        return false;
    }
    if start + u64::from(page) > len {
        return true;
    }
    page_fails(page, bytes, number)
}

/// Whether a page that is whole in the bytes has other sums than those that it keeps.
#[tactic(auto, using(crate::proofs::SumLemmas::whole_fails))]
fn page_fails(page: u32, bytes: &[u8], number: u32) -> bool
    requires begun { page * number < length bytes.now }
    requires whole { page * number + page ≤ length bytes.now }
    ensures { result ≡ fails page bytes.now number }
{
    let own = &bytes[page as usize * number as usize..][..page as usize];
    has_other_sums(own)
}

/// Whether a whole page has other sums than those that it keeps.
fn has_other_sums(page: &[u8]) -> bool
    ensures { result ≡ has_other_sums page.now }
{
    let split = page.len().saturating_sub(KEPT_SIZE);
    let found = sum_of(&page[..split]);
    let stored = kept_sums(&page[split..]);
    found.0 != stored.0 || found.1 != stored.1
}

/// Bytes with zeros where each page keeps its sums.
#[tactic(auto, using(crate::proofs::SumLemmas::without_step))]
pub fn without_sums(alloc: Global, page: u32, bytes: &[u8]) -> Result<Bytes, AllocError>
    ensures { IfOk result (λ shown. shown ≡ without_sums page 0 bytes.now) }
{
    let mut shown = Bytes::from_vec(Vec::new(alloc));
    for (place, b) in bytes.iter().enumerate() {
        shown.push(without_sum(page, place, *b))?;
    }
    Ok(shown)
}

/// The byte at a place, or zero where its page keeps its sums.
fn without_sum(page: u32, place: usize, b: u8) -> u8
    ensures { result ≡ (if nat_le page (place % page + kept_size) then 0 else b) }
{
    if keeps_sums(page, place) { 0 } else { b }
}

/// Whether a place is one of the last of its page, which keep its sums.
fn keeps_sums(page: u32, place: usize) -> bool
    ensures { result ≡ nat_le page (place % page + kept_size) }
{
    page as usize <= KEPT_SIZE || place % page as usize >= page as usize - KEPT_SIZE
}
