//! The words of a line.

ghost use Rattle.std.specs.Prelude.{◌≡◌, ◌≢◌, ℕ, ℤ, List, [], ◌∷◌, ◌++◌, FitsSigned, MatchOption, IfOk, OnOk, OnErr, IsErrOf, All};
ghost use Rattle.std.specs.Fmt.{signed_decimal};
ghost use Rattle.std.specs.Int.{w64};
ghost use Rattle.std.specs.List.{slice_split};
ghost use Rattle.db_format.specs.Create.{IsIdentifier};
ghost use Rattle.shell_lang.specs.CommandSteps.{is_blank, left, verb_text};

use crate::{Db, LineFault, TableName};
use byte_base::Bytes;
use db_format::is_identifier;
use itoa::Buffer;
use std::alloc::Global;
use std::str;

/// The first word of a command.
#[derive(Clone, Copy, Debug, PartialEq, Eq)]
pub enum Verb {
    /// `create`
    Create,
    /// `drop`
    Drop,
    /// `tables`
    Tables,
    /// `put`
    Put,
    /// `get`
    Get,
    /// `del`
    Del,
    /// `scan`
    Scan,
    /// `count`
    Count,
    /// `begin`
    Begin,
    /// `commit`
    Commit,
    /// `rollback`
    Rollback,
    /// `reopen`
    Reopen,
}

const VERBS: [Verb; 12] = [
    Verb::Create,
    Verb::Drop,
    Verb::Tables,
    Verb::Put,
    Verb::Get,
    Verb::Del,
    Verb::Scan,
    Verb::Count,
    Verb::Begin,
    Verb::Commit,
    Verb::Rollback,
    Verb::Reopen,
];

impl Verb {
    /// The verb that is written so.
    pub fn read(word: &[u8]) -> Option<Verb>
        ensures { MatchOption result ((verb : Verb) → word.now ≢ verb_text verb) (λ verb. word.now ≡ verb_text verb) }
    {
        for verb in &VERBS {
            if verb.text() == word {
                return Some(*verb);
            }
        }
        None
    }

    /// The verb as it is written.
    fn text(self) -> &'static [u8]
        ensures { result.now ≡ verb_text self }
    {
        match self {
            Verb::Create => b"create",
            Verb::Drop => b"drop",
            Verb::Tables => b"tables",
            Verb::Put => b"put",
            Verb::Get => b"get",
            Verb::Del => b"del",
            Verb::Scan => b"scan",
            Verb::Count => b"count",
            Verb::Begin => b"begin",
            Verb::Commit => b"commit",
            Verb::Rollback => b"rollback",
            Verb::Reopen => b"reopen",
        }
    }
}

/// The words of a text that are left.
#[derive(Clone, Copy)]
pub struct Words<'a> {
    /// What stands behind the last blank that was passed, or `None` at the end.
    rest: Option<&'a [u8]>,
}

impl<'a> Words<'a> {
    /// The words of a text. Two blanks in a row have an empty word between them.
    pub fn of(text: &'a [u8]) -> Words<'a>
        ensures { left result ≡ slice_split is_blank text.now }
    {
        Words { rest: Some(text) }
    }

    /// The next word.
    pub fn next(&mut self) -> Option<&'a [u8]>
        ensures { MatchOption result (left self.old ≡ []) (λ word. left self.old ≡ word.now ∷ left self.new) }
    {
        let text = self.rest?;
        match split_at_blank(text) {
            Some((word, rest)) => {
                self.rest = Some(rest);
                Some(word)
            }
            None => {
                self.rest = None;
                Some(text)
            }
        }
    }

    /// The next word as a number.
    pub fn number(&mut self) -> Result<i64, LineFault>
        ensures found { IfOk result (λ z. left self.old ≡ signed_decimal z ∷ left self.new) }
        ensures bad { OnErr result ((z : ℤ) (rest : List (List ℕ)) → FitsSigned w64 z → left self.old ≢ signed_decimal z ∷ rest) }
    {
        let Some(word) = self.next() else {
            return Err(LineFault::BadLine);
        };
        match read_number(word) {
            Some(number) => Ok(number),
            None => Err(LineFault::BadLine),
        }
    }

    /// The next word as the name of a table.
    pub fn table(&mut self, alloc: Global) -> Result<TableName, LineFault>
        ensures found { IfOk result (λ table. (left self.old ≡ table.name ∷ left self.new) × IsIdentifier table.name) }
        ensures bad { IsErrOf result LineFault.BadLine → (name : List ℕ) (rest : List (List ℕ)) → IsIdentifier name → left self.old ≢ name ∷ rest }
    {
        let Some(word) = self.next() else {
            return Err(LineFault::BadLine);
        };
        if !is_identifier(word) {
            return Err(LineFault::BadLine);
        }
        match Bytes::copy_of(alloc, word) {
            Ok(name) => Ok(TableName { db: Db::Main, name }),
            Err(_) => Err(LineFault::Memory),
        }
    }

    /// Refuses a word that is left.
    pub fn end(&mut self) -> Result<(), LineFault>
        ensures found { OnOk result (left self.old ≡ []) }
        ensures bad { OnErr result (left self.old ≢ []) }
    {
        match self.next() {
            Some(_) => Err(LineFault::BadLine),
            None => Ok(()),
        }
    }
}

/// What stands before the first blank, and what stands behind it.
pub fn split_at_blank(text: &[u8]) -> Option<(&[u8], &[u8])>
    ensures { MatchOption result (All (λ b. b ≢ 32) text.now)
        (λ parts. (text.now ≡ parts.0.now ++ 32 ∷ parts.1.now) × All (λ b. b ≢ 32) parts.0.now) }
{
    let at = text.iter().position(|b| *b == b' ')?;
    Some((&text[..at], &text[at + 1..]))
}

/// The number that is written so: of 64 bits with a sign, with no plus sign, no needless zeros and no `-0`.
pub fn read_number(word: &[u8]) -> Option<i64>
    ensures { MatchOption result ((z : ℤ) → FitsSigned w64 z → word.now ≢ signed_decimal z) (λ z. word.now ≡ signed_decimal z) }
{
    let Ok(text) = str::from_utf8(word) else {
        return None;
    };
    let Ok(number) = text.parse::<i64>() else {
        return None;
    };
    if Buffer::new().format(number).as_bytes() == word {
        Some(number)
    } else {
        None
    }
}
