//! What the calls were answered.

ghost use Rattle.std.specs.Prelude.{◌≡◌};
ghost use Rattle.vfs_trait.specs.Log.{outcome_of, yes_or_no};
ghost use Rattle.vfs_trait.specs.declared.log.Outcome.TheVariants.{Ok as Done, Fid as Number, Bytes as Count, Len};

use vfs_model::Fid;
use vfs_trait::{Outcome, VfsFault};

/// Done, or refused.
pub fn done(answer: &Result<(), VfsFault>) -> Outcome
    ensures { result ≡ outcome_of (λ _. Done) answer.now }
{
    match answer {
        Ok(()) => Outcome::Ok,
        Err(fault) => Outcome::Fault(*fault),
    }
}

/// The number of an open file.
pub fn opened(answer: &Result<Fid, VfsFault>) -> Outcome
    ensures { result ≡ outcome_of Number answer.now }
{
    match answer {
        Ok(fid) => Outcome::Fid(*fid),
        Err(fault) => Outcome::Fault(*fault),
    }
}

/// Whether a file is there.
pub fn known(answer: &Result<bool, VfsFault>) -> Outcome
    ensures { result ≡ outcome_of yes_or_no answer.now }
{
    match answer {
        Ok(true) => Outcome::Yes,
        Ok(false) => Outcome::No,
        Err(fault) => Outcome::Fault(*fault),
    }
}

/// How many bytes were read.
pub fn counted(answer: &Result<usize, VfsFault>) -> Outcome
    ensures { result ≡ outcome_of Count answer.now }
{
    match answer {
        Ok(count) => Outcome::Bytes(*count as u64),
        Err(fault) => Outcome::Fault(*fault),
    }
}

/// The length of a file.
pub fn measured(answer: &Result<u64, VfsFault>) -> Outcome
    ensures { result ≡ outcome_of Len answer.now }
{
    match answer {
        Ok(len) => Outcome::Len(*len),
        Err(fault) => Outcome::Fault(*fault),
    }
}
