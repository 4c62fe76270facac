//! File names, and the kind that a name stands for.

ghost use Rattle.vfs_model.specs.declared.name.TheConstants.{NAME_LEN};
ghost use Rattle.std.specs.Prelude.{◌≡◌, ℕ, ◌+◌, ◌≤◌, ◌↔◌, List, ◌++◌, length, drop, IsTrue, IsSome, IfSome};
ghost use Rattle.vfs_model.specs.Name.{IsName, kind_of, stem, has_part, is_name_byte};

use crate::text::lay;
use std::marker::Model;

/// The most bytes that a name has.
const NAME_LEN: usize = 160;

/// What a file is for, which follows from its name alone.
#[derive(Clone, Copy, Debug, PartialEq, Eq)]
pub enum Kind {
    /// A database.
    Main,
    /// The rollback journal of a database.
    Journal,
    /// The super-journal of a commit over two databases.
    Super,
}

/// A file name: 1 to 160 bytes from `a-z A-Z 0-9 . _ -`. Contracts see it as the list of its bytes.
#[derive(Clone, Copy, Debug)]
pub struct Name {
    bytes: [u8; NAME_LEN],
    len: u8,
}

impl Model for Name {
    ghost use Rattle.std.specs.Prelude.{List, ℕ};

    ghost Value = { List ℕ };

    ghost use Rattle.vfs_model.specs.NameFields.{name_of, IsKept, kept, kept_back};

    ghost view = { name_of };

    ghost invariant = { IsKept };

    ghost inverse = { kept };

    ghost inverse_ok = { kept_back };
}

impl Name {
    /// The name with these bytes, or `None` where they are no name: too few, too many, or with a byte
    /// that is not allowed.
    pub fn new(bytes: &[u8]) -> Option<Name>
        ensures named { IsSome result ↔ IsName bytes.now }
        ensures value { IfSome result (λ name. name ≡ bytes.now) }
    {
        if bytes.is_empty() || bytes.len() > NAME_LEN || !bytes.iter().all(|b| is_name_byte(*b)) {
            return None;
        }
        let mut kept = [0; NAME_LEN];
        lay(&mut kept, bytes, &[]);
        Some(Name {
            bytes: kept,
            len: bytes.len() as u8,
        })
    }

    /// The bytes of the name.
    pub fn bytes(&self) -> &[u8]
        ensures value { result.now ≡ self.now }
        ensures name { IsName result.now }
    {
        &self.bytes[..usize::from(self.len)]
    }

    /// The name with these bytes behind it, or `None` where that is no name.
    pub fn with(&self, tail: &[u8]) -> Option<Name>
        ensures named { IsSome result ↔ IsName (self.now ++ tail.now) }
        ensures value { IfSome result (λ name. name ≡ self.now ++ tail.now) }
    {
        let len = self.bytes().len();
        if tail.len() > NAME_LEN - len {
            return None;
        }
        let mut joined = [0; NAME_LEN];
        lay(&mut joined, self.bytes(), tail);
        Name::new(&joined[..len + tail.len()])
    }

    /// What a file of this name is for.
    pub fn kind(&self) -> Kind
        ensures { result ≡ kind_of self.now }
    {
        kind_of(self.bytes())
    }
}

/// What a file is for whose name has these bytes, also where they are no name.
pub fn kind_of(name: &[u8]) -> Kind
    ensures { result ≡ kind_of name.now }
{
    let stem = stem(name);
    if stem.ends_with(b"-journal") {
        Kind::Journal
    } else if has_part(stem, b"-with-") {
        Kind::Super
    } else {
        Kind::Main
    }
}

/// Whether a name may have this byte.
fn is_name_byte(b: u8) -> bool
    ensures { result ≡ is_name_byte b }
{
    b.is_ascii_alphanumeric() || b == b'.' || b == b'_' || b == b'-'
}

/// The name without the decimal digits at its end.
fn stem(name: &[u8]) -> &[u8]
    ensures { result.now ≡ stem name.now }
{
    match name {
        [front @ .., last] if last.is_ascii_digit() => stem(front),
        _ => name,
    }
}

/// Whether the part stands somewhere in the text.
fn has_part(text: &[u8], part: &[u8]) -> bool
    ensures { result ≡ has_part text.now part.now }
{
    for from in 0..text.len() {
        if text[from..].starts_with(part) {
            return true;
        }
    }
    part.is_empty()
}

#[cfg(test)]
mod tests {
    use super::*;
    use std::test::Fail;

    #[test]
    fn names_have_kinds(rt: HostRuntime) -> Result<(), Fail> {
        let cases: [(&[u8], Kind); 9] = [
            (b"main", Kind::Main),
            (b"journal", Kind::Main),
            (b"2026", Kind::Main),
            (b"main7", Kind::Main),
            (b"main-journal", Kind::Journal),
            (b"main-journal001", Kind::Journal),
            (b"a-with-b-journal", Kind::Journal),
            (b"main-with-other", Kind::Super),
            (b"main-with-other12", Kind::Super),
        ];
        for (bytes, kind) in cases {
            let name = Name::new(bytes).ok_or("a name")?;
            assert!(rt; name.kind() == kind, "{bytes:?}");
        }
        Ok(())
    }

    #[test]
    fn other_bytes_are_no_name(rt: HostRuntime) -> Result<(), Fail> {
        let refused: [&[u8]; 5] = [b"", b"a/b", b"a b", b"a\xc3\xa9", &[b'x'; NAME_LEN + 1]];
        for bytes in refused {
            assert!(rt; Name::new(bytes).is_none(), "{bytes:?}");
        }
        let longest = Name::new(&[b'x'; NAME_LEN]).ok_or("160 bytes")?;
        assert!(rt; longest.with(b"0").is_none());
        let journal = Name::new(b"main")
            .ok_or("a name")?
            .with(b"-journal")
            .ok_or("a name")?;
        assert!(rt; journal.bytes() == b"main-journal".as_slice());
        Ok(())
    }
}
