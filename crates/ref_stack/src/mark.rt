//! The mark at the end of a file that has a database behind other content.

ghost use Rattle.std.specs.Prelude.{◌≡◌, ◌+◌, ◌-◌, ◌≤◌, length, take, drop, IfSome};
ghost use Rattle.vfs_model.specs.Mark.{mark_in, placed, is_mark, has_header, next_start, shown_at, mark_size};
ghost use Rattle.ref_stack.specs.Near.{IsNear};

use byteorder::{BigEndian, ByteOrder};
use vfs_model::Placed;

/// How long a mark is.
const MARK_SIZE: usize = 25;

/// The text that a mark begins with.
const MARK_TEXT: &[u8] = b"Start-Of-SQLite3-";

/// The longest file that is looked at for a mark.
const GREATEST_FILE: u64 = 4_294_967_296;

/// Where the database begins in a file of this length, as its last bytes say.
#[tactic(auto, unfolding(byte_base::specs::Numbers::number_at))]
pub fn mark_in(tail: &[u8], len: u64) -> Option<u64>
    ensures value { result ≡ mark_in tail.now len }
    ensures within { IfSome result (λ start. start + mark_size ≤ len) }
{
    if tail.len() != MARK_SIZE || !tail.starts_with(MARK_TEXT) || len % 512 != 25 {
        return None;
    }
    let start = BigEndian::read_u64(&tail[17..]);
    if start % 512 != 0 || start > len - 25 {
        return None;
    }
    Some(start)
}

/// How an append layer opens a file with these bytes.
pub fn placed(bytes: &[u8]) -> Placed
    ensures value { result ≡ placed bytes.now }
    ensures near { IsNear result }
{
    let len = bytes.len() as u64;
    if len == 0 || len > GREATEST_FILE {
        return Placed::Ordinary;
    }
    if let Some(start) = mark_in(&bytes[bytes.len().saturating_sub(MARK_SIZE)..], len) {
        return Placed::Behind(start);
    }
    if bytes.starts_with(b"SQLite format 3\0") {
        return Placed::Ordinary;
    }
    Placed::Fresh(len)
}

/// What an append layer shows of a database file with these bytes.
pub fn shown_at(bytes: &[u8]) -> &[u8]
    ensures { result.now ≡ shown_at (placed bytes.now) bytes.now }
{
    match placed(bytes) {
        Placed::Ordinary => bytes,
        Placed::Behind(start) => between(bytes, start),
        Placed::Fresh(_) => &[],
    }
}

/// The bytes from a place up to where a mark at the end begins.
fn between(bytes: &[u8], start: u64) -> &[u8]
    ensures { result.now ≡ take (length bytes.now - mark_size - start) (drop start bytes.now) }
{
    let end = bytes.len().saturating_sub(MARK_SIZE);
    if start >= end as u64 {
        return &[];
    }
    &bytes[start as usize..end]
}

/// Where a database begins in a file of this length that has no mark: the least multiple of 4096 that is at least this.
pub fn next_start(len: u64) -> u64
    requires { len ≤ 4294967296 }
    ensures { result ≡ next_start len }
{
    let up = len + 4095;
    up - up % 4096
}
