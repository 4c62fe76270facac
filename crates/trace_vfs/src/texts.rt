//! The lines of kept calls.

ghost use Rattle.std.specs.Prelude.{◌≡◌, ◌++◌, IfOk, OnOk, map};
ghost use Rattle.vfs_trait.specs.Log.{entry_text, call_text, outcome_text, fault_text, kind_text, level_text};

use circular_buffer::HeapCircularBuffer;
use std::alloc::{AllocError, Global};
use vfs_model::{Kind, Level, Name};
use vfs_trait::{ByteLists, Bytes, Call, Entry, Outcome, VfsFault};

/// The line of a call: its number, its words, and what it was answered.
pub fn lines_of(alloc: Global, entry: &Entry) -> Result<String, AllocError>
    ensures { IfOk result (λ line. line.bytes.items ≡ entry_text entry.now) }
{
    let call = call_text(alloc, &entry.call)?;
    let outcome = outcome_text(alloc, &entry.result)?;
    format!(in alloc; "call {} {call} = {outcome}", entry.number)
}

/// The lines of all calls, the oldest first.
pub fn line_lists(
    alloc: Global,
    entries: &HeapCircularBuffer<Entry>,
) -> Result<ByteLists, AllocError>
    ensures { IfOk result (λ lines. lines ≡ map entry_text entries.now.items) }
{
    let (older, newer) = entries.as_slices();
    let mut lines = ByteLists::from_vec(Vec::new(alloc));
    push_lines(alloc, &mut lines, older)?;
    push_lines(alloc, &mut lines, newer)?;
    Ok(lines)
}

/// Puts the lines of some calls at the end.
fn push_lines(alloc: Global, lines: &mut ByteLists, entries: &[Entry]) -> Result<(), AllocError>
    ensures { OnOk result (lines.new ≡ lines.old ++ map entry_text entries.now) }
{
    for entry in entries {
        let line = lines_of(alloc, entry)?;
        lines.push(Bytes::from_vec(line.into_bytes()))?;
    }
    Ok(())
}

/// The words of a call.
fn call_text(alloc: Global, call: &Call) -> Result<String, AllocError>
    ensures { IfOk result (λ text. text.bytes.items ≡ call_text call.now) }
{
    match call {
        Call::Open { name, kind } => {
            format!(in alloc; "open {} {}", name_text(name), kind_text(*kind))
        }
        Call::Exists { name } => format!(in alloc; "exists {}", name_text(name)),
        Call::Read { fid, off, len } => format!(in alloc; "read {} {off} {len}", fid.0),
        Call::Write { fid, off, len } => format!(in alloc; "write {} {off} {len}", fid.0),
        Call::Cut { fid, len } => format!(in alloc; "cut {} {len}", fid.0),
        Call::Sync { fid } => format!(in alloc; "sync {}", fid.0),
        Call::Length { fid } => format!(in alloc; "length {}", fid.0),
        Call::Delete { name, kind } => {
            format!(in alloc; "delete {} {}", name_text(name), kind_text(*kind))
        }
        Call::SyncNames => format!(in alloc; "syncnames"),
        Call::Lock { fid, owner, level } => {
            format!(in alloc; "lock {} {} {}", fid.0, owner.number(), level_text(*level))
        }
        Call::Unlock { fid, owner, level } => {
            format!(in alloc;
                "unlock {} {} {}",
                fid.0,
                owner.number(),
                level_text(*level)
            )
        }
    }
}

/// A name as a text: its bytes are ASCII.
#[tactic(auto, using(crate::proofs::NameLemmas::name_is_utf8))]
fn name_text(name: &Name) -> &str
    ensures { result.now ≡ name.now }
{
    str::from_utf8(name.bytes()).unwrap()
}

/// What a call was answered, in words.
fn outcome_text(alloc: Global, outcome: &Outcome) -> Result<String, AllocError>
    ensures { IfOk result (λ text. text.bytes.items ≡ outcome_text outcome.now) }
{
    match outcome {
        Outcome::Ok => format!(in alloc; "ok"),
        Outcome::Fid(fid) => format!(in alloc; "fid {}", fid.0),
        Outcome::Yes => format!(in alloc; "yes"),
        Outcome::No => format!(in alloc; "no"),
        Outcome::Bytes(count) => format!(in alloc; "bytes {count}"),
        Outcome::Len(len) => format!(in alloc; "len {len}"),
        Outcome::Fault(fault) => fault_text(alloc, fault),
    }
}

/// Why a call was refused, in words.
fn fault_text(alloc: Global, fault: &VfsFault) -> Result<String, AllocError>
    ensures { IfOk result (λ text. text.bytes.items ≡ fault_text fault.now) }
{
    match fault {
        VfsFault::Failed => format!(in alloc; "failed"),
        VfsFault::Memory => format!(in alloc; "memory"),
        VfsFault::Busy { holder, level } => {
            format!(in alloc; "busy {} {}", holder.number(), level_text(*level))
        }
        VfsFault::Full { total, limit } => format!(in alloc; "full {total} {limit}"),
        VfsFault::BadPage { page, .. } => format!(in alloc; "bad {page}"),
    }
}

/// The word for a kind.
fn kind_text(kind: Kind) -> &'static str
    ensures { result.now ≡ kind_text kind }
{
    match kind {
        Kind::Main => "main",
        Kind::Journal => "journal",
        Kind::Super => "super",
    }
}

/// The word for a level.
fn level_text(level: Level) -> &'static str
    ensures { result.now ≡ level_text level }
{
    match level {
        Level::Free => "free",
        Level::Shared => "shared",
        Level::Reserved => "reserved",
        Level::Pending => "pending",
        Level::Exclusive => "exclusive",
    }
}
