//! A journal before its first use.

ghost use Rattle.std.specs.Prelude.{◌≡◌, ℕ, length, slice_get, OnOk, IfOk, IsTrue, Some, Result, Ok, Err};
ghost use Rattle.vfs_model.specs.File.{IsSettled};
ghost use Rattle.vfs_model.specs.Store.{OthersStay};
ghost use Rattle.vfs_model.specs.Name.{kind_of};
ghost use Rattle.vfs_trait.specs.State.{IsOpen, IsFree, Steady, LimitsStay, LevelsStay, LengthsStay, BrokenStays, RestsBut, Stands, file_at, name_at};
ghost use Rattle.vfs_trait.specs.Calls.{Caused};
ghost use Rattle.journal_file.specs.Steps.{IsShut, IsCold, IsClosedOrEmpty, IsSettledButName, OpensOne};

use vfs_model::{Fid, Kind, Name, apart_back, looser_twice};
use vfs_trait::{Vfs, VfsFault, never_wild};

/// Opens the journal of a name, and gives an empty one its first byte, zero. What a stop leaves of it at any moment is not hot.
///
/// Refused with `Failed` or `Memory`: it is not open, and may now be there.
pub fn prepare<V: Vfs>(stack: &mut V, name: &Name) -> Result<Fid, VfsFault>
    requires free { IsFree (V.state stack.old) name.now }
    requires is_journal { kind_of name.now ≡ Kind.Journal }
    requires closed { IsTrue (V.state stack.old).tells → IsClosedOrEmpty ((V.state stack.old).files name.now).now.bytes }
    requires settled { IsTrue (V.state stack.old).tells → IsSettledButName ((V.state stack.old).files name.now) }
    ensures steady { Steady (V.state stack.old) (V.state stack.new) }
    ensures cause { Caused (V.state stack.old) (V.state stack.new) result }
    ensures numbers { OpensOne (V.state stack.old) (V.state stack.new) name.now result }
    ensures limits { LimitsStay (V.state stack.old) (V.state stack.new) }
    ensures levels { LevelsStay (V.state stack.old) (V.state stack.new) }
    ensures lengths { LengthsStay (V.state stack.old) (V.state stack.new) }
    ensures broken { BrokenStays (V.state stack.old) (V.state stack.new) }
    ensures cold { IsTrue (V.state stack.old).tells → IsCold ((V.state stack.new).files name.now) }
    ensures shut { OnOk result (IsTrue (V.state stack.old).tells → IsShut ((V.state stack.new).files name.now)) }
    ensures settled { OnOk result (IsTrue (V.state stack.old).tells → IsSettled ((V.state stack.new).files name.now)) }
    ensures others { IsTrue (V.state stack.old).tells → OthersStay (V.state stack.old).layers (V.state stack.old).files (V.state stack.new).files name.now }
    ensures stands { Stands (V.state stack.new) }
{
    apart_back();
    looser_twice();
    never_wild();
    stack.view_holds();
    let journal = stack.open(name, Kind::Journal)?;
    match give_first_byte(stack, journal) {
        Ok(()) => Ok(journal),
        Err(fault) => {
            stack.close(journal);
            Err(fault)
        }
    }
}

/// Gives an open journal its first byte where it is empty, and syncs it and the names.
fn give_first_byte<V: Vfs>(stack: &mut V, journal: Fid) -> Result<(), VfsFault>
    requires is_open { IsOpen (V.state stack.old) journal.0 }
    requires is_journal { kind_of (name_at (V.state stack.old) journal.0) ≡ Kind.Journal }
    requires there { IsTrue (V.state stack.old).tells → IsTrue (file_at (V.state stack.old) journal.0).now.there }
    requires closed { IsTrue (V.state stack.old).tells → IsClosedOrEmpty (file_at (V.state stack.old) journal.0).now.bytes }
    requires settled { IsTrue (V.state stack.old).tells → IsSettledButName (file_at (V.state stack.old) journal.0) }
    ensures steady { Steady (V.state stack.old) (V.state stack.new) }
    ensures cause { Caused (V.state stack.old) (V.state stack.new) result }
    ensures rests { RestsBut (V.state stack.old) (V.state stack.new) journal.0 }
    ensures cold { IsTrue (V.state stack.old).tells → IsCold (file_at (V.state stack.new) journal.0) }
    ensures shut { OnOk result (IsTrue (V.state stack.old).tells → IsShut (file_at (V.state stack.new) journal.0)) }
    ensures settled { OnOk result (IsTrue (V.state stack.old).tells → IsSettled (file_at (V.state stack.new) journal.0)) }
    ensures others { IsTrue (V.state stack.old).tells → OthersStay (V.state stack.old).layers (V.state stack.old).files (V.state stack.new).files (name_at (V.state stack.old) journal.0) }
    ensures stands { Stands (V.state stack.new) }
{
    looser_twice();
    never_wild();
    fill_empty(stack, journal)?;
    stack.sync(journal)?;
    stack.sync_names()
}

/// Writes a zero byte to an open journal that is empty.
fn fill_empty<V: Vfs>(stack: &mut V, journal: Fid) -> Result<(), VfsFault>
    requires is_open { IsOpen (V.state stack.old) journal.0 }
    requires is_journal { kind_of (name_at (V.state stack.old) journal.0) ≡ Kind.Journal }
    requires there { IsTrue (V.state stack.old).tells → IsTrue (file_at (V.state stack.old) journal.0).now.there }
    requires closed { IsTrue (V.state stack.old).tells → IsClosedOrEmpty (file_at (V.state stack.old) journal.0).now.bytes }
    requires settled { IsTrue (V.state stack.old).tells → IsSettledButName (file_at (V.state stack.old) journal.0) }
    ensures steady { Steady (V.state stack.old) (V.state stack.new) }
    ensures cause { Caused (V.state stack.old) (V.state stack.new) result }
    ensures rests { RestsBut (V.state stack.old) (V.state stack.new) journal.0 }
    ensures there { IsTrue (V.state stack.old).tells → IsTrue (file_at (V.state stack.new) journal.0).now.there }
    ensures cold { IsTrue (V.state stack.old).tells → IsCold (file_at (V.state stack.new) journal.0) }
    ensures zero { OnOk result (IsTrue (V.state stack.old).tells → slice_get (file_at (V.state stack.new) journal.0).now.bytes 0 ≡ Some 0) }
    ensures others { IsTrue (V.state stack.old).tells → OthersStay (V.state stack.old).layers (V.state stack.old).files (V.state stack.new).files (name_at (V.state stack.old) journal.0) }
    ensures stands { Stands (V.state stack.new) }
{
    looser_twice();
    never_wild();
    let len = stack.length(journal)?;
    if len != 0 {
        return Ok(());
    }
    stack.write(journal, 0, &[0])
}
