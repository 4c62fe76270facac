//! A journal that is written, and its first byte, by which alone it is open or closed.

ghost use Rattle.std.specs.Prelude.{◌≡◌, ℕ, ◌+◌, ◌≤◌, ◌^◌, length, slice_get, OnOk, IsTrue, Some};
ghost use Rattle.vfs_model.specs.File.{IsSettled};
ghost use Rattle.vfs_model.specs.Store.{OthersStay};
ghost use Rattle.vfs_model.specs.Name.{kind_of};
ghost use Rattle.vfs_trait.specs.State.{IsOpen, Steady, RestsBut, Stands, file_at, name_at};
ghost use Rattle.vfs_trait.specs.Calls.{Caused};
ghost use Rattle.journal_file.specs.Steps.{IsShut, HasButFirst, with_first};

use vfs_model::{Fid, Kind, looser_twice};
use vfs_trait::{Vfs, VfsFault, never_wild};

/// The first byte of an open journal, and of a closed one.
const OPENED: u8 = 0xd9;

const CLOSED: u8 = 0;

/// Writes all of a journal but its first byte, which is and stays zero, cuts the file behind it and syncs.
///
/// Refused with `Failed` or `Memory`: the journal may hold anything behind its first byte.
pub fn write_journal<V: Vfs>(stack: &mut V, journal: Fid, bytes: &[u8]) -> Result<(), VfsFault>
    requires is_open { IsOpen (V.state stack.old) journal.0 }
    requires is_journal { kind_of (name_at (V.state stack.old) journal.0) ≡ Kind.Journal }
    requires some { 1 ≤ length bytes.now }
    requires within { length bytes.now ≤ 2 ^ 32 }
    requires closed { IsTrue (V.state stack.old).tells → slice_get (file_at (V.state stack.old) journal.0).now.bytes 0 ≡ Some 0 }
    requires shut { IsTrue (V.state stack.old).tells → IsShut (file_at (V.state stack.old) journal.0) }
    ensures steady { Steady (V.state stack.old) (V.state stack.new) }
    ensures cause { Caused (V.state stack.old) (V.state stack.new) result }
    ensures rests { RestsBut (V.state stack.old) (V.state stack.new) journal.0 }
    ensures shut { IsTrue (V.state stack.old).tells → IsShut (file_at (V.state stack.new) journal.0) }
    ensures settled { OnOk result (IsTrue (V.state stack.old).tells → IsSettled (file_at (V.state stack.new) journal.0)) }
    ensures written { OnOk result (IsTrue (V.state stack.old).tells → (file_at (V.state stack.new) journal.0).now.bytes ≡ with_first 0 bytes.now) }
    ensures others { IsTrue (V.state stack.old).tells → OthersStay (V.state stack.old).layers (V.state stack.old).files (V.state stack.new).files (name_at (V.state stack.old) journal.0) }
    ensures stands { Stands (V.state stack.new) }
{
    looser_twice();
    never_wild();
    stack.write(journal, 1, &bytes[1..])?;
    stack.cut(journal, bytes.len() as u64)?;
    stack.sync(journal)
}

/// Sets the first byte of a journal and syncs.
fn set_gate<V: Vfs>(stack: &mut V, journal: Fid, byte: u8) -> Result<(), VfsFault>
    requires is_open { IsOpen (V.state stack.old) journal.0 }
    requires is_journal { kind_of (name_at (V.state stack.old) journal.0) ≡ Kind.Journal }
    requires some { IsTrue (V.state stack.old).tells → 1 ≤ length (file_at (V.state stack.old) journal.0).now.bytes }
    requires settled { IsTrue (V.state stack.old).tells → IsSettled (file_at (V.state stack.old) journal.0) }
    ensures steady { Steady (V.state stack.old) (V.state stack.new) }
    ensures cause { Caused (V.state stack.old) (V.state stack.new) result }
    ensures rests { RestsBut (V.state stack.old) (V.state stack.new) journal.0 }
    ensures first { IsTrue (V.state stack.old).tells → HasButFirst (file_at (V.state stack.old) journal.0).now.bytes (file_at (V.state stack.new) journal.0) }
    ensures settled { OnOk result (IsTrue (V.state stack.old).tells → IsSettled (file_at (V.state stack.new) journal.0)) }
    ensures set { OnOk result (IsTrue (V.state stack.old).tells → (file_at (V.state stack.new) journal.0).now.bytes ≡ with_first byte (file_at (V.state stack.old) journal.0).now.bytes) }
    ensures others { IsTrue (V.state stack.old).tells → OthersStay (V.state stack.old).layers (V.state stack.old).files (V.state stack.new).files (name_at (V.state stack.old) journal.0) }
    ensures stands { Stands (V.state stack.new) }
{
    looser_twice();
    never_wild();
    stack.write(journal, 0, &[byte])?;
    stack.sync(journal)
}

/// Opens a journal: from here on it counts. Whatever is answered, only the first byte may have changed.
pub fn open_gate<V: Vfs>(stack: &mut V, journal: Fid) -> Result<(), VfsFault>
    requires is_open { IsOpen (V.state stack.old) journal.0 }
    requires is_journal { kind_of (name_at (V.state stack.old) journal.0) ≡ Kind.Journal }
    requires some { IsTrue (V.state stack.old).tells → 1 ≤ length (file_at (V.state stack.old) journal.0).now.bytes }
    requires settled { IsTrue (V.state stack.old).tells → IsSettled (file_at (V.state stack.old) journal.0) }
    ensures steady { Steady (V.state stack.old) (V.state stack.new) }
    ensures cause { Caused (V.state stack.old) (V.state stack.new) result }
    ensures rests { RestsBut (V.state stack.old) (V.state stack.new) journal.0 }
    ensures first { IsTrue (V.state stack.old).tells → HasButFirst (file_at (V.state stack.old) journal.0).now.bytes (file_at (V.state stack.new) journal.0) }
    ensures settled { OnOk result (IsTrue (V.state stack.old).tells → IsSettled (file_at (V.state stack.new) journal.0)) }
    ensures opened { OnOk result (IsTrue (V.state stack.old).tells → (file_at (V.state stack.new) journal.0).now.bytes ≡ with_first 217 (file_at (V.state stack.old) journal.0).now.bytes) }
    ensures others { IsTrue (V.state stack.old).tells → OthersStay (V.state stack.old).layers (V.state stack.old).files (V.state stack.new).files (name_at (V.state stack.old) journal.0) }
    ensures stands { Stands (V.state stack.new) }
{
    set_gate(stack, journal, OPENED)
}

/// Closes a journal: from here on the database file counts alone. Whatever is answered, only the first byte may have changed.
pub fn close_gate<V: Vfs>(stack: &mut V, journal: Fid) -> Result<(), VfsFault>
    requires is_open { IsOpen (V.state stack.old) journal.0 }
    requires is_journal { kind_of (name_at (V.state stack.old) journal.0) ≡ Kind.Journal }
    requires some { IsTrue (V.state stack.old).tells → 1 ≤ length (file_at (V.state stack.old) journal.0).now.bytes }
    requires settled { IsTrue (V.state stack.old).tells → IsSettled (file_at (V.state stack.old) journal.0) }
    ensures steady { Steady (V.state stack.old) (V.state stack.new) }
    ensures cause { Caused (V.state stack.old) (V.state stack.new) result }
    ensures rests { RestsBut (V.state stack.old) (V.state stack.new) journal.0 }
    ensures first { IsTrue (V.state stack.old).tells → HasButFirst (file_at (V.state stack.old) journal.0).now.bytes (file_at (V.state stack.new) journal.0) }
    ensures settled { OnOk result (IsTrue (V.state stack.old).tells → IsSettled (file_at (V.state stack.new) journal.0)) }
    ensures closed { OnOk result (IsTrue (V.state stack.old).tells → (file_at (V.state stack.new) journal.0).now.bytes ≡ with_first 0 (file_at (V.state stack.old) journal.0).now.bytes) }
    ensures others { IsTrue (V.state stack.old).tells → OthersStay (V.state stack.old).layers (V.state stack.old).files (V.state stack.new).files (name_at (V.state stack.old) journal.0) }
    ensures stands { Stands (V.state stack.new) }
{
    set_gate(stack, journal, CLOSED)
}
