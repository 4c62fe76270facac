//! The words of the command line.

ghost use Rattle.std.specs.Prelude.{◌≡◌, ℕ, List, map, string_bytes, MatchOption};
ghost use Rattle.shell_top.specs.Words.{AreWords, AreRefused};
ghost use Rattle.shell_words.specs.Plan.{IsDatabaseName};

use shell_words::one_word;
use vfs_model::{Kind, Name};

/// The most bytes that a database's name has.
const DATABASE_NAME_LEN: usize = 64;

/// The database that the words name, or `None` where they are refused.
pub fn read_words(words: &[String]) -> Option<Name>
    ensures { MatchOption result (AreRefused (map string_bytes words.now)) (AreWords (map string_bytes words.now)) }
{
    one_word();
    match words {
        [word] => database_name(word.as_bytes()),
        _ => None,
    }
}

/// A database's name, or `None` where the bytes are none.
fn database_name(bytes: &[u8]) -> Option<Name>
    ensures { MatchOption result (¬ (IsDatabaseName bytes.now)) (λ name. (name ≡ bytes.now) × IsDatabaseName bytes.now) }
{
    let name = Name::new(bytes)?;
    if bytes.len() > DATABASE_NAME_LEN || name.kind() != Kind::Main {
        return None;
    }
    match bytes {
        [b'-' | b'.', ..] => None,
        _ => Some(name),
    }
}
