//! Big-endian numbers in bytes.

ghost use Rattle.std.specs.Prelude.{◌≡◌, ◌+◌, ◌≤◌, length};
ghost use Rattle.byte_base.specs.Numbers.{number_at, with_number};

use byteorder::{BigEndian, ByteOrder};

/// The number in the two bytes at a place.
#[tactic(auto, unfolding(crate::specs::Numbers::number_at))]
pub fn u16_at(bytes: &[u8], place: usize) -> u16
    requires { place + 2 ≤ length bytes.now }
    ensures { result ≡ number_at 2 bytes.now place }
{
    BigEndian::read_u16(&bytes[place..])
}

/// The number in the four bytes at a place.
#[tactic(auto, unfolding(crate::specs::Numbers::number_at))]
pub fn u32_at(bytes: &[u8], place: usize) -> u32
    requires { place + 4 ≤ length bytes.now }
    ensures { result ≡ number_at 4 bytes.now place }
{
    BigEndian::read_u32(&bytes[place..])
}

/// Puts a number into the two bytes at a place.
#[tactic(auto, unfolding(crate::specs::Numbers::with_number))]
pub fn put_u16(bytes: &mut [u8], place: usize, number: u16)
    requires { place + 2 ≤ length bytes.old }
    ensures { bytes.new ≡ with_number 2 place number bytes.old }
{
    BigEndian::write_u16(&mut bytes[place..place + 2], number);
}

/// Puts a number into the four bytes at a place.
#[tactic(auto, unfolding(crate::specs::Numbers::with_number))]
pub fn put_u32(bytes: &mut [u8], place: usize, number: u32)
    requires { place + 4 ≤ length bytes.old }
    ensures { bytes.new ≡ with_number 4 place number bytes.old }
{
    BigEndian::write_u32(&mut bytes[place..place + 4], number);
}
