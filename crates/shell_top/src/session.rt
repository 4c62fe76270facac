//! The session over the row file.

ghost use Rattle.std.specs.Prelude.{◌≡◌, ℕ, ◌+◌, ◌*◌, ◌^◌, ◌≤◌, List, [], length, IsTrue, OnOk, IfOk, IfErr, IsErrOf, is_some, None, Some};
ghost use Rattle.std.specs.FinMap as map;
ghost use Rattle.vfs_model.specs.Name.{kind_of};
ghost use Rattle.vfs_model.specs.Effect.{NoLooser};
ghost use Rattle.vfs_trait.specs.State.{NoneOpen, IsOpen, Steady, OpenStays, file_at, name_at};
ghost use Rattle.vfs_trait.specs.Calls.{Leaves};
ghost use Rattle.shell_top.specs.Rows.{row_file};
ghost use Rattle.shell_top.specs.Machine.{Opens, Step};
ghost use Rattle.shell_top.specs.Touched.{OnlyTouches, RefusedStays, UnopenedStays};
ghost use Rattle.shell_top.specs.Stands.{machine, Stands, Keeps, IsKept, rows_len, OpensEmpty, HasCause, reply_for, end_status};

use crate::line::read_put;
use crate::reply::Reply;
use crate::rows::Rows;
use crate::status::Status;
use std::alloc::{AllocError, Global};
use vfs_model::{Fid, Kind, Name, looser_twice};
use vfs_trait::{Bytes, Vfs, VfsFault, separate_is_free};

/// The most bytes that a text has.
const MAX_TEXT: usize = 65536;

/// The open row file.
#[derive(Drop)]
pub struct Table {
    pub file: Fid,
    pub rows: Rows,
}

/// A session over the row file of one name. A stopped session has no table and no file open.
#[derive(Drop)]
pub struct Session {
    pub name: Name,
    pub table: Option<Table>,
}

/// Why a put was not done.
#[derive(Debug, Drop)]
pub enum PutFault {
    /// There was no memory, and nothing has changed.
    Memory,
    /// The stack refused a call: the file may hold anything.
    Stack(VfsFault),
}

impl Session {
    /// Opens the row file of a name, which has to be missing or empty.
    pub fn start<V: Vfs>(alloc: Global, stack: &mut V, name: &Name) -> (Session, Reply)
        requires bare { (V.state stack.old).layers ≡ [] }
        requires closed { NoneOpen (V.state stack.old) }
        requires kind { kind_of name.now ≡ Kind.Main }
        requires short { length name.now ≤ 64 }
        ensures opens { Opens (V.state stack.old) name.now result.1 (machine result.0 (V.state stack.new)) }
        ensures stands { Stands result.0 (V.state stack.new) }
        ensures named { result.0.name ≡ name.now }
        ensures empty { rows_len result.0 ≡ 0 }
        ensures touches { OnlyTouches name.now (V.state stack.old) (V.state stack.new) }
        ensures refused { RefusedStays result.1 (V.state stack.old) (V.state stack.new) name.now }
        ensures unopened { UnopenedStays result.1 (V.state stack.old) (V.state stack.new) name.now }
    {
        match open_empty(stack, name) {
            Ok(file) => {
                let rows = Rows::new(alloc);
                let table = Some(Table { file, rows });
                (Session { name: *name, table }, Reply::Open)
            }
            Err(reply) => (
                Session {
                    name: *name,
                    table: None,
                },
                reply,
            ),
        }
    }

    /// Answers one line. The rows that there are and the line have to be small enough for the row file to
    /// stay within the places that a call of the stack reaches.
    pub fn step<V: Vfs>(&mut self, alloc: Global, stack: &mut V, line: &[u8]) -> Reply
        requires stands { Stands self.old (V.state stack.old) }
        requires room { 2 * rows_len self.old + 3 * length line.now ≤ 3 * 2 ^ 30 }
        ensures step { Step (machine self.old (V.state stack.old)) line.now result (machine self.new (V.state stack.new)) }
        ensures stands { Stands self.new (V.state stack.new) }
        ensures keeps { Keeps self.old self.new (V.state stack.old) (V.state stack.new) }
        ensures grows { 2 * rows_len self.new ≤ 2 * rows_len self.old + 3 * length line.now }
    {
        let Some((rowid, text)) = read_put(line) else {
            return Reply::BadLine;
        };
        let Some(table) = &mut self.table else {
            return Reply::Stopped;
        };
        if text.len() > MAX_TEXT {
            return Reply::TooLong;
        }
        looser_twice();
        match table.put(alloc, stack, rowid, text) {
            Ok(true) => Reply::Replaced,
            Ok(false) => Reply::New,
            Err(PutFault::Memory) => Reply::Memory,
            Err(PutFault::Stack(fault)) => {
                stack.close(table.file);
                self.table = None;
                reply_for(fault)
            }
        }
    }

    /// How a run over this session ends when its input does.
    pub fn status(&self) -> Status
        ensures { result ≡ end_status self.now.table }
    {
        match &self.table {
            Some(_) => Status::Done,
            None => Status::Stopped,
        }
    }

    /// Ends the session: no file is open afterwards, and none has changed.
    pub fn close<V: Vfs>(self, stack: &mut V)
        requires { Stands self (V.state stack.old) }
        ensures closed { NoneOpen (V.state stack.new) }
        ensures steady { Steady (V.state stack.old) (V.state stack.new) }
        ensures leaves { Leaves (V.state stack.old) (V.state stack.new) self.name NoLooser }
    {
        if let Some(table) = self.table {
            stack.view_holds();
            stack.close(table.file);
        }
    }
}

/// Opens a file that is missing or empty.
fn open_empty<V: Vfs>(stack: &mut V, name: &Name) -> Result<Fid, Reply>
    requires closed { NoneOpen (V.state stack.old) }
    requires kind { kind_of name.now ≡ Kind.Main }
    requires short { length name.now ≤ 64 }
    ensures touches { OnlyTouches name.now (V.state stack.old) (V.state stack.new) }
    ensures opens { OpensEmpty (V.state stack.old) (V.state stack.new) name.now result }
    ensures refused { IfErr result (λ reply. RefusedStays reply (V.state stack.old) (V.state stack.new) name.now) }
    ensures unopened { IfErr result (λ reply. UnopenedStays reply (V.state stack.old) (V.state stack.new) name.now) }
{
    separate_is_free();
    looser_twice();
    let file = match stack.open(name, Kind::Main) {
        Ok(file) => file,
        Err(fault) => return Err(reply_for(fault)),
    };
    match stack.length(file) {
        Ok(0) => Ok(file),
        Ok(_) => {
            stack.close(file);
            Err(Reply::NotADatabase)
        }
        Err(fault) => {
            stack.close(file);
            Err(reply_for(fault))
        }
    }
}

/// What a fault of the stack is answered.
fn reply_for(fault: VfsFault) -> Reply
    ensures { result ≡ reply_for fault }
{
    match fault {
        VfsFault::Failed => Reply::Fault,
        _ => Reply::MemoryStopped,
    }
}

impl Table {
    /// Puts a text at a rowid, and says whether one was there. All memory of its own is taken before the
    /// first call of the stack.
    fn put<V: Vfs>(
        &mut self,
        alloc: Global,
        stack: &mut V,
        rowid: i64,
        text: &[u8],
    ) -> Result<bool, PutFault>
        requires kept { IsKept self.old (V.state stack.old) }
        requires short { length text.now ≤ 65536 }
        requires room { length (row_file (map.insert self.old.rows rowid text.now)) ≤ 2 ^ 32 }
        ensures touches { OnlyTouches (name_at (V.state stack.old) self.old.file.0) (V.state stack.old) (V.state stack.new) }
        ensures opens { OpenStays (V.state stack.old) (V.state stack.new) }
        ensures file { self.new.file ≡ self.old.file }
        ensures replaced { IfOk result (λ replaced. replaced ≡ is_some (map.get self.old.rows rowid)) }
        ensures rows { OnOk result (self.new.rows ≡ map.insert self.old.rows rowid text.now) }
        ensures ok { OnOk result (IsKept self.new (V.state stack.new)) }
        ensures memory { IsErrOf result PutFault.Memory → (self.new.rows ≡ self.old.rows) × (V.state stack.new ≡ V.state stack.old) }
        ensures cause { IfErr result (λ why. (fault : _) → why ≡ PutFault.Stack fault → HasCause (V.state stack.old).faults (V.state stack.new).faults fault) }
    {
        let Ok(bytes) = self.rows.file_with(alloc, rowid, text) else {
            return Err(PutFault::Memory);
        };
        let Ok(text) = Vec::from_slice(alloc, text) else {
            return Err(PutFault::Memory);
        };
        let Ok(replaced) = self.rows.put(rowid, Bytes::from_vec(text)) else {
            return Err(PutFault::Memory);
        };
        match rewrite(stack, self.file, &bytes) {
            Ok(()) => Ok(replaced),
            Err(fault) => Err(PutFault::Stack(fault)),
        }
    }
}

/// Makes these the bytes of a file, and syncs it.
fn rewrite<V: Vfs>(stack: &mut V, file: Fid, bytes: &[u8]) -> Result<(), VfsFault>
    requires bare { (V.state stack.old).layers ≡ [] }
    requires is_open { IsOpen (V.state stack.old) file.0 }
    requires room { length bytes.now ≤ 2 ^ 32 }
    ensures touches { OnlyTouches (name_at (V.state stack.old) file.0) (V.state stack.old) (V.state stack.new) }
    ensures opens { OpenStays (V.state stack.old) (V.state stack.new) }
    ensures ok { OnOk result (IsTrue (V.state stack.old).tells → (file_at (V.state stack.new) file.0).now.bytes ≡ bytes.now) }
    ensures cause { IfErr result (HasCause (V.state stack.old).faults (V.state stack.new).faults) }
{
    looser_twice();
    stack.write(file, 0, bytes)?;
    stack.cut(file, bytes.len() as u64)?;
    stack.sync(file)
}
