//! Bytes put at a place of a page.

ghost use Rattle.std.specs.Prelude.{◌≡◌, ◌+◌, ◌≤◌, ◌<◌, length};
ghost use Rattle.std.specs.Int.{w64, cast_unsigned};
ghost use Rattle.byteorder.specs.Endian.{big_bytes};
ghost use Rattle.tree_page.specs.Written.{varint_size};
ghost use Rattle.tree_page.specs.Steps.{Lays, LaysVarint};

use byteorder::{BigEndian, ByteOrder};
use db_format::put_varint;

/// Puts bytes at a place.
pub(crate) fn put(page: &mut [u8], place: usize, text: &[u8])
    requires { place + length text.now ≤ length page.old }
    ensures { Lays page.old page.new place text.now }
{
    page[place..place + text.len()].copy_from_slice(text);
}

/// Puts a number of two bytes at a place.
pub(crate) fn put_short(page: &mut [u8], place: usize, number: u16)
    requires { place + 2 ≤ length page.old }
    ensures { Lays page.old page.new place (big_bytes 2 number) }
{
    let mut text = [0; 2];
    BigEndian::write_u16(&mut text, number);
    put(page, place, &text);
}

/// Puts a number of four bytes at a place.
pub(crate) fn put_number(page: &mut [u8], place: usize, number: u32)
    requires { place + 4 ≤ length page.old }
    ensures { Lays page.old page.new place (big_bytes 4 number) }
{
    let mut text = [0; 4];
    BigEndian::write_u32(&mut text, number);
    put(page, place, &text);
}

/// Puts the shortest varint of a number at a place, and answers how many bytes it has.
pub(crate) fn put_varint_at(page: &mut [u8], place: usize, value: i64) -> usize
    requires { place + varint_size (cast_unsigned w64 value) ≤ length page.old }
    ensures { LaysVarint page.old page.new place value result }
{
    let mut text = [0; 9];
    let size = put_varint(value, &mut text);
    put(page, place, &text[..size]);
    size
}

/// How many bytes the shortest varint of a number has.
pub(crate) fn varint_size(value: i64) -> usize
    ensures size { result ≡ varint_size (cast_unsigned w64 value) }
    ensures most { result ≤ 9 }
{
    let mut text = [0; 9];
    put_varint(value, &mut text)
}
