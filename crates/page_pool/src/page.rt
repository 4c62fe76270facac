//! One page.

ghost use Rattle.std.specs.Prelude.{◌≡◌, ℕ, ◌+◌, ◌≤◌, List, length, replicate, IfOk};
ghost use Rattle.byte_base.specs.Numbers.{number_at, with_number};
ghost use Rattle.page_list.specs.Edits.{cleared};
ghost use Rattle.page_pool.specs.Space.{IsZeroFrom};

use byte_base::{put_u32, u32_at};
use std::alloc::{AllocError, Global};
use std::marker::Model;

/// The bytes of a page. Contracts see them as a list.
#[derive(Drop)]
pub struct Page {
    bytes: Vec<u8>,
}

impl Model for Page {
    ghost Value = { List ℕ };

    ghost view = { λ page. page.bytes.items };
}

impl Page {
    /// A page of zeros.
    pub fn zeros(alloc: Global, size: usize) -> Result<Page, AllocError>
        ensures { IfOk result (λ page. page ≡ replicate size 0) }
    {
        Ok(Page {
            bytes: vec![in alloc; 0; size]?,
        })
    }

    /// The page of these bytes. It takes no memory.
    pub fn from_vec(bytes: Vec<u8>) -> Page
        ensures { result ≡ bytes.items }
    {
        Page { bytes }
    }

    /// The bytes, without taking memory.
    pub fn into_vec(self) -> Vec<u8>
        ensures { result.items ≡ self }
    {
        self.bytes
    }

    /// The bytes.
    pub fn bytes(&self) -> &[u8]
        ensures { result.now ≡ self.now }
    {
        &self.bytes
    }

    /// Takes over the bytes of a page of the same size.
    pub fn copy_from(&mut self, bytes: &[u8])
        requires { length bytes.now ≡ length self.old }
        ensures { self.new ≡ bytes.now }
    {
        self.bytes.copy_from_slice(bytes);
    }

    /// The number in the four bytes at a place.
    pub fn number(&self, place: usize) -> u32
        requires { place + 4 ≤ length self.now }
        ensures { result ≡ number_at 4 self.now place }
    {
        u32_at(&self.bytes, place)
    }

    /// Puts a number into the four bytes at a place.
    pub fn set_number(&mut self, place: usize, number: u32)
        requires { place + 4 ≤ length self.old }
        ensures size { length self.new ≡ length self.old }
        ensures value { self.new ≡ with_number 4 place number self.old }
    {
        put_u32(&mut self.bytes, place, number);
    }
}

/// Writes zeros from a place on.
pub fn clear(bytes: &mut [u8], place: usize)
    requires { place ≤ length bytes.old }
    ensures value { bytes.new ≡ cleared place bytes.old }
    ensures zeros { IsZeroFrom bytes.new place }
{
    bytes[place..].fill(0);
}
