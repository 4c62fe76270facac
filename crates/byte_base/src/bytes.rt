//! A list of bytes, and a list of such lists.

ghost use Rattle.std.specs.Prelude.{◌≡◌, ℕ, List, [], ◌∷◌, ◌++◌, ◌≤◌, length, take, IfOk, OnOk, OnErr};

use smallvec::SmallVec;
use std::alloc::{AllocError, Global};
use std::marker::Model;

/// How many bytes need no memory of their own: most values and small rows have no more.
const INLINE: usize = 24;

/// Bytes that own their memory. Contracts see them as a list.
#[derive(Debug, Drop)]
pub struct Bytes {
    items: SmallVec<u8, INLINE>,
}

impl Model for Bytes {
    ghost Value = { List ℕ };

    ghost view = { λ b. b.items.items };
}

impl Bytes {
    /// The bytes of a vector, without taking memory.
    pub fn from_vec(items: Vec<u8>) -> Bytes
        ensures { result ≡ items.items }
    {
        Bytes {
            items: SmallVec::from_vec(items),
        }
    }

    /// A copy of some bytes.
    pub fn copy_of(alloc: Global, bytes: &[u8]) -> Result<Bytes, AllocError>
        ensures { IfOk result (λ copy. copy ≡ bytes.now) }
    {
        Ok(Bytes {
            items: SmallVec::from_slice(alloc, bytes)?,
        })
    }

    /// A copy of the first `len` bytes. A short one of many bytes is copied by a fixed size, which is the fastest.
    pub fn copy_front(alloc: Global, bytes: &[u8], len: usize) -> Result<Bytes, AllocError>
        requires { len ≤ length bytes.now }
        ensures { IfOk result (λ copy. copy ≡ take len bytes.now) }
    {
        match bytes.split_first_chunk::<INLINE>() {
            Some((front, _)) if len <= INLINE => Ok(Bytes {
                items: SmallVec::from_buf_and_len(alloc, *front, len),
            }),
            _ => Bytes::copy_of(alloc, &bytes[..len]),
        }
    }

    /// The bytes, without taking memory.
    pub fn as_slice(&self) -> &[u8]
        ensures { result.now ≡ self.now }
    {
        self.items.as_slice()
    }

    /// Puts a byte at the end. Without memory the bytes stay as they were.
    pub fn push(&mut self, item: u8) -> Result<(), AllocError>
        ensures ok { OnOk result (self.new ≡ self.old ++ item ∷ []) }
        ensures err { OnErr result (self.new ≡ self.old) }
    {
        self.items.push(item)?;
        Ok(())
    }

    /// Puts bytes at the end. Without memory the bytes stay as they were.
    pub fn extend_from_slice(&mut self, more: &[u8]) -> Result<(), AllocError>
        ensures ok { OnOk result (self.new ≡ self.old ++ more.now) }
        ensures err { OnErr result (self.new ≡ self.old) }
    {
        self.items.extend_from_slice(more)
    }

    /// Keeps the first `len` bytes, or all where there are no more.
    pub fn truncate(&mut self, len: usize)
        ensures { self.new ≡ take len self.old }
    {
        self.items.truncate(len);
    }
}

/// A list of byte strings. Contracts see it as the list of their lists of bytes.
#[derive(Debug, Drop)]
pub struct ByteLists {
    items: Vec<Bytes>,
}

impl Model for ByteLists {
    ghost Value = { List (List ℕ) };

    ghost view = { λ b. b.items.items };
}

impl ByteLists {
    /// The byte strings of a vector, without taking memory.
    pub fn from_vec(items: Vec<Bytes>) -> ByteLists
        ensures { result ≡ items.items }
    {
        ByteLists { items }
    }

    /// The byte strings, without taking memory.
    pub fn as_slice(&self) -> &[Bytes]
        ensures { result.now ≡ self.now }
    {
        self.items.as_slice()
    }

    /// Puts a byte string at the end. Without memory the list stays as it was.
    pub fn push(&mut self, item: Bytes) -> Result<(), AllocError>
        ensures ok { OnOk result (self.new ≡ self.old ++ item ∷ []) }
        ensures err { OnErr result (self.new ≡ self.old) }
    {
        self.items.push(item)?;
        Ok(())
    }
}

#[cfg(test)]
mod tests {
    use super::*;
    use std::test::Fail;

    #[test]
    fn lists_grow(rt: HostRuntime) -> Result<(), Fail> {
        let mut bytes = Bytes::from_vec(Vec::new(rt.alloc()));
        bytes.push(7)?;
        assert!(rt; bytes.as_slice() == [7].as_slice());
        bytes.extend_from_slice(&[8, 9])?;
        assert!(rt; bytes.as_slice() == [7, 8, 9].as_slice());
        bytes.truncate(1);
        assert!(rt; bytes.as_slice() == [7].as_slice());
        let mut lists = ByteLists::from_vec(Vec::new(rt.alloc()));
        lists.push(bytes)?;
        assert!(rt; matches!(lists.as_slice(), [only] if only.as_slice() == [7].as_slice()));
        Ok(())
    }
}
