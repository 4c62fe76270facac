//! The machine.

ghost use Rattle.std.specs.Prelude.{IfSome, true, ◌≡◌, ◌+◌, ◌<◌, length, false, is_some, if◌then◌else◌, IfOk, IfNone, OnErr};
ghost use Rattle.std.specs.List.{list_any};
ghost use Rattle.shell_model.specs.State.{State, closed, committed, opened, own, ended, seen, is_inside, reached};
ghost use Rattle.shell_lang.specs.declared.reply.Reply.TheVariants as reply;
ghost use Rattle.ref_shell.specs.Machine.{state_of};
ghost use Rattle.shell_model.specs.Cases.{Pick, Allows, cases_of, looking, changing, is_long};
ghost use Rattle.shell_model.specs.Step.{Step, is_free};
ghost use Rattle.shell_lang.specs.declared.command.Command.TheVariants as command;
ghost use Rattle.ref_shell.specs.Part.{GoesThrough, said_of, refused_read, refused_write, read_table, write_table, put_values};

use crate::levels::{is_refused, place_of};
use crate::shelf::Shelf;
use byte_base::{ByteLists, Bytes};
use db_format::{Record, Value};
use shell_lang::{Command, ErrorWord, Reply, TableName};
use std::alloc::AllocError;
use vfs_model::{Level, Owner};

/// What a connection has changed and not committed.
#[derive(Drop)]
pub struct Draft<S> {
    pub owner: Owner,
    pub book: S,
}

/// One database and eight connections.
#[derive(Drop)]
pub struct Machine<S> {
    pub kept: S,
    pub draft: Option<Draft<S>>,
    pub levels: [Level; 8],
    pub inside: [bool; 8],
    pub stopped: bool,
}

impl<S: Shelf> Machine<S> {
    /// A machine before its opening, over what a shelf keeps.
    pub fn closed(kept: S) -> Machine<S>
        ensures { state_of S.book result ≡ closed (S.book kept) }
    {
        Machine {
            kept,
            draft: None,
            levels: [Level::Free; 8],
            inside: [false; 8],
            stopped: true,
        }
    }

    /// The shelf that a connection sees.
    pub(crate) fn seen(&self, who: Owner) -> &S
        ensures { S.book result.now ≡ seen (state_of S.book self.now) who }
    {
        match &self.draft {
            Some(draft) if draft.owner == who => &draft.book,
            _ => &self.kept,
        }
    }

    /// Whether a connection is inside a transaction.
    pub(crate) fn is_inside(&self, who: Owner) -> bool
        ensures { result ≡ is_inside (state_of S.book self.now) who }
    {
        self.inside[place_of(who)]
    }

    /// Gives a connection a level, which it keeps inside a transaction.
    fn reach(&mut self, who: Owner, level: Level)
        ensures { state_of S.book self.new ≡ reached (state_of S.book self.old) who level }
    {
        if self.is_inside(who) && self.levels[place_of(who)] < level {
            self.levels[place_of(who)] = level;
        }
    }

    /// What is asked before a read.
    fn refused_reading(&self, who: Owner) -> Option<Reply>
        ensures through { GoesThrough (refused_read (state_of S.book self.now) who) result (state_of S.book self.now) }
        ensures goes { IfNone result (self.now.stopped ≡ false) }
        ensures bound { IfSome result (λ reply. is_free reply ≡ false) }
    {
        if self.stopped {
            return Some(Reply::Stopped);
        }
        if is_refused(&self.levels, who, Level::Shared) {
            return Some(Reply::Busy);
        }
        None
    }

    /// What is asked before a change.
    fn refused_writing(&self, who: Owner) -> Option<Reply>
        ensures through { GoesThrough (refused_write (state_of S.book self.now) who) result (state_of S.book self.now) }
        ensures goes { IfNone result (self.now.stopped ≡ false) }
        ensures bound { IfSome result (λ reply. is_free reply ≡ false) }
    {
        if let Some(reply) = self.refused_reading(who) {
            return Some(reply);
        }
        if is_refused(&self.levels, who, Level::Reserved) {
            return Some(Reply::Busy);
        }
        None
    }

    /// What the tables that a connection sees say of a name.
    fn refused_table(&self, who: Owner, name: &Bytes) -> Option<Reply>
        ensures through { (after : State) → GoesThrough (looking after (seen (state_of S.book self.now) who) name.now) result after }
        ensures bound { IfSome result (λ reply. is_free reply ≡ false) }
    {
        let shelf = self.seen(who);
        if shelf.is_plain(name) {
            return None;
        }
        let word = if shelf.is_foreign(name) {
            ErrorWord::Foreign
        } else {
            ErrorWord::NoTable
        };
        Some(Reply::Error { word })
    }

    /// Ends the transaction of a connection: its draft and its locks are gone.
    fn end(&mut self, who: Owner)
        ensures { state_of S.book self.new ≡ ended (state_of S.book self.old) who }
    {
        self.levels[place_of(who)] = Level::Free;
        self.inside[place_of(who)] = false;
        let owned = match &self.draft {
            Some(draft) => draft.owner == who,
            None => false,
        };
        if owned {
            self.draft = None;
        }
    }

    /// What is asked before a table is read.
    fn refused_reading_of(&mut self, who: Owner, name: &Bytes) -> Option<Reply>
        ensures through { GoesThrough (read_table (state_of S.book self.old) who name.now) result (state_of S.book self.new) }
        ensures goes { IfNone result ((self.new ≡ self.old) × (self.old.stopped ≡ false)) }
        ensures bound { IfSome result (λ reply. is_free reply ≡ false) }
    {
        if let Some(reply) = self.refused_reading(who) {
            return Some(reply);
        }
        if let Some(reply) = self.refused_table(who, name) {
            self.reach(who, Level::Shared);
            return Some(reply);
        }
        None
    }

    /// What is asked before a table is changed.
    fn refused_writing_of(&mut self, who: Owner, name: &Bytes) -> Option<Reply>
        ensures through { GoesThrough (write_table (state_of S.book self.old) who name.now) result (state_of S.book self.new) }
        ensures goes { IfNone result ((self.new ≡ self.old) × (self.old.stopped ≡ false)) }
        ensures bound { IfSome result (λ reply. is_free reply ≡ false) }
    {
        if let Some(reply) = self.refused_writing(who) {
            return Some(reply);
        }
        if let Some(reply) = self.refused_table(who, name) {
            self.reach(who, Level::Reserved);
            return Some(reply);
        }
        None
    }

    /// A row.
    fn get(&mut self, who: Owner, table: &TableName, rowid: &i64) -> Result<Reply, AllocError>
        ensures ok { IfOk result (λ reply. Step (state_of S.book self.old) who (command.Get table.now rowid.now) reply (state_of S.book self.new)) }
        ensures err { OnErr result ((self.new ≡ self.old) × (self.old.stopped ≡ false)) }
        ensures bound { IfOk result (λ reply. is_free reply ≡ false) }
    {
        if let Some(reply) = self.refused_reading_of(who, &table.name) {
            return Ok(reply);
        }
        let reply = self.seen(who).row(&table.name, rowid)?;
        self.reach(who, Level::Shared);
        Ok(reply)
    }

    /// The rows between two rowids.
    fn scan(
        &mut self,
        who: Owner,
        table: &TableName,
        low: &i64,
        high: &i64,
    ) -> Result<Reply, AllocError>
        ensures ok { IfOk result (λ reply. Step (state_of S.book self.old) who (command.Scan table.now low.now high.now) reply (state_of S.book self.new)) }
        ensures err { OnErr result ((self.new ≡ self.old) × (self.old.stopped ≡ false)) }
        ensures bound { IfOk result (λ reply. is_free reply ≡ false) }
    {
        if let Some(reply) = self.refused_reading_of(who, &table.name) {
            return Ok(reply);
        }
        let reply = self.seen(who).rows(&table.name, low, high)?;
        self.reach(who, Level::Shared);
        Ok(reply)
    }

    /// The number of rows.
    fn count(&mut self, who: Owner, table: &TableName) -> Result<Reply, AllocError>
        ensures ok { IfOk result (λ reply. Step (state_of S.book self.old) who (command.Count table.now) reply (state_of S.book self.new)) }
        ensures err { OnErr result ((self.new ≡ self.old) × (self.old.stopped ≡ false)) }
        ensures bound { IfOk result (λ reply. is_free reply ≡ false) }
    {
        if let Some(reply) = self.refused_reading_of(who, &table.name) {
            return Ok(reply);
        }
        let reply = self.seen(who).count(&table.name);
        self.reach(who, Level::Shared);
        Ok(reply)
    }

    /// The tables.
    fn tables(&mut self, who: Owner) -> Result<Reply, AllocError>
        ensures ok { IfOk result (λ reply. Step (state_of S.book self.old) who (command.Tables) reply (state_of S.book self.new)) }
        ensures err { OnErr result ((self.new ≡ self.old) × (self.old.stopped ≡ false)) }
        ensures bound { IfOk result (λ reply. is_free reply ≡ false) }
    {
        if let Some(reply) = self.refused_reading(who) {
            return Ok(reply);
        }
        let reply = self.seen(who).tables()?;
        self.reach(who, Level::Shared);
        Ok(reply)
    }

    /// A connection keeps a book that it has changed: as its draft inside a transaction, and else by a commit
    /// in the same step.
    fn change(&mut self, who: Owner, book: S, said: Reply) -> Reply
        ensures allowed { Allows (changing (state_of S.book self.old) who (S.book book) said) result (state_of S.book self.new) }
        ensures bound { is_free said ≡ false → is_free result ≡ false }
    {
        if self.is_inside(who) {
            self.draft = Some(Draft { owner: who, book });
            self.reach(who, Level::Reserved);
            return said;
        }
        if self.kept.counter() == u32::MAX {
            return Reply::Worn;
        }
        if is_refused(&self.levels, who, Level::Exclusive) {
            return Reply::Busy;
        }
        self.keep(who, book);
        said
    }

    /// A book becomes the kept one, and the transaction of its connection ends.
    fn keep(&mut self, who: Owner, book: S)
        requires { (S.book self.old.kept).counter < 4294967295 }
        ensures { state_of S.book self.new ≡ committed (state_of S.book self.old) who (S.book book) }
    {
        let mut book = book;
        book.set_counter(self.kept.counter() + 1);
        self.kept = book;
        self.end(who);
    }

    /// Puts a row.
    fn put(
        &mut self,
        who: Owner,
        table: &TableName,
        rowid: &i64,
        values: Record,
    ) -> Result<Reply, AllocError>
        ensures ok { IfOk result (λ reply. Step (state_of S.book self.old) who (command.Put table.now rowid.now values) reply (state_of S.book self.new)) }
        ensures err { OnErr result ((self.new ≡ self.old) × (self.old.stopped ≡ false)) }
        ensures bound { IfOk result (λ reply. is_free reply ≡ false) }
    {
        if let Some(reply) = self.refused_writing_of(who, &table.name) {
            return Ok(reply);
        }
        if let Some(reply) = self.refused_values(who, &table.name, &values) {
            self.reach(who, Level::Reserved);
            return Ok(reply);
        }
        let shelf = self.seen(who);
        let said = put_reply(shelf.has_row(&table.name, rowid));
        let book = shelf.with_row(&table.name, rowid, values)?;
        Ok(self.change(who, book, said))
    }

    /// Takes out a row.
    fn del(&mut self, who: Owner, table: &TableName, rowid: &i64) -> Result<Reply, AllocError>
        ensures ok { IfOk result (λ reply. Step (state_of S.book self.old) who (command.Del table.now rowid.now) reply (state_of S.book self.new)) }
        ensures err { OnErr result ((self.new ≡ self.old) × (self.old.stopped ≡ false)) }
        ensures bound { IfOk result (λ reply. is_free reply ≡ false) }
    {
        if let Some(reply) = self.refused_writing_of(who, &table.name) {
            return Ok(reply);
        }
        if !self.seen(who).has_row(&table.name, rowid) {
            self.reach(who, Level::Reserved);
            return Ok(Reply::Nothing);
        }
        let book = self.seen(who).without_row(&table.name, rowid)?;
        Ok(self.change(who, book, Reply::Done))
    }

    /// Takes out a table.
    fn drop_table(&mut self, who: Owner, table: &TableName) -> Result<Reply, AllocError>
        ensures ok { IfOk result (λ reply. Step (state_of S.book self.old) who (command.Drop table.now) reply (state_of S.book self.new)) }
        ensures err { OnErr result ((self.new ≡ self.old) × (self.old.stopped ≡ false)) }
        ensures bound { IfOk result (λ reply. is_free reply ≡ false) }
    {
        if let Some(reply) = self.refused_writing_of(who, &table.name) {
            return Ok(reply);
        }
        let book = self.seen(who).without_table(&table.name)?;
        Ok(self.change(who, book, Reply::Done))
    }

    /// Makes a table.
    fn create(
        &mut self,
        who: Owner,
        table: &TableName,
        columns: ByteLists,
    ) -> Result<Reply, AllocError>
        ensures ok { IfOk result (λ reply. Step (state_of S.book self.old) who (command.Create table.now columns) reply (state_of S.book self.new)) }
        ensures err { OnErr result ((self.new ≡ self.old) × (self.old.stopped ≡ false)) }
        ensures bound { IfOk result (λ reply. is_free reply ≡ false) }
    {
        if let Some(reply) = self.refused_writing(who) {
            return Ok(reply);
        }
        if self.seen(who).is_taken(&table.name) {
            self.reach(who, Level::Reserved);
            return Ok(Reply::Error {
                word: ErrorWord::Exists,
            });
        }
        let book = self.seen(who).with_table(&table.name, columns)?;
        Ok(self.change(who, book, Reply::Done))
    }

    /// What a table says of the values that are put.
    fn refused_values(&self, who: Owner, name: &Bytes, values: &Record) -> Option<Reply>
        ensures through { (after : State) → GoesThrough (put_values after (seen (state_of S.book self.now) who) name.now values.now) result after }
        ensures bound { IfSome result (λ reply. is_free reply ≡ false) }
    {
        let word = if values.as_slice().len() != self.seen(who).columns(name) {
            ErrorWord::Columns
        } else if any_is_long(values.as_slice()) {
            ErrorWord::TooLong
        } else {
            return None;
        };
        Some(Reply::Error { word })
    }

    /// One command of one connection, run whole.
    pub fn step(&mut self, who: Owner, command: Command) -> Reply
        ensures allowed { Step (state_of S.book self.old) who command result (state_of S.book self.new) }
        ensures due { is_free result ≡ true → result ≡ reply.Memory }
    {
        match command {
            Command::Create { table, columns } => or_memory(self.create(who, &table, columns)),
            Command::Drop { table } => or_memory(self.drop_table(who, &table)),
            Command::Tables => or_memory(self.tables(who)),
            Command::Put {
                table,
                rowid,
                values,
            } => or_memory(self.put(who, &table, &rowid, values)),
            Command::Get { table, rowid } => or_memory(self.get(who, &table, &rowid)),
            Command::Del { table, rowid } => or_memory(self.del(who, &table, &rowid)),
            Command::Scan { table, low, high } => or_memory(self.scan(who, &table, &low, &high)),
            Command::Count { table } => or_memory(self.count(who, &table)),
            Command::Begin => self.begin(who),
            Command::Commit => self.commit(who),
            Command::Rollback => self.rollback(who),
            Command::Reopen => self.reopen(),
        }
    }

    /// Whether a connection has a draft.
    pub(crate) fn has_own(&self, who: Owner) -> bool
        ensures { result ≡ is_some (own (state_of S.book self.now) who) }
    {
        match &self.draft {
            Some(draft) => draft.owner == who,
            None => false,
        }
    }

    /// Commits what a connection has changed.
    fn commit(&mut self, who: Owner) -> Reply
        ensures allowed { (pick : Pick) → Allows (cases_of pick (state_of S.book self.old) who command.Commit) result (state_of S.book self.new) }
        ensures bound { is_free result ≡ false }
    {
        if self.stopped {
            return Reply::Stopped;
        }
        if !self.is_inside(who) {
            return Reply::Error {
                word: ErrorWord::NoTxn,
            };
        }
        if !self.has_own(who) {
            self.end(who);
            return Reply::Done;
        }
        if self.kept.counter() == u32::MAX {
            return Reply::Worn;
        }
        if is_refused(&self.levels, who, Level::Exclusive) {
            self.levels[place_of(who)] = Level::Pending;
            return Reply::Busy;
        }
        if let Some(draft) = self.draft.take() {
            self.keep(who, draft.book);
        }
        Reply::Done
    }

    /// Opens anew: nobody is inside a transaction, and no lock is held.
    pub fn reopen(&mut self) -> Reply
        ensures said { result ≡ reply.Open (S.book self.old.kept).counter }
        ensures state { state_of S.book self.new ≡ opened (S.book self.old.kept) }
    {
        self.draft = None;
        self.levels = [Level::Free; 8];
        self.inside = [false; 8];
        self.stopped = false;
        Reply::Open {
            main: self.kept.counter(),
        }
    }

    /// Begins a transaction.
    fn begin(&mut self, who: Owner) -> Reply
        ensures allowed { (pick : Pick) → Allows (cases_of pick (state_of S.book self.old) who command.Begin) result (state_of S.book self.new) }
        ensures bound { is_free result ≡ false }
    {
        if self.stopped {
            return Reply::Stopped;
        }
        if self.is_inside(who) {
            return Reply::Error {
                word: ErrorWord::InTxn,
            };
        }
        self.inside[place_of(who)] = true;
        Reply::Done
    }

    /// Ends a transaction without its changes.
    fn rollback(&mut self, who: Owner) -> Reply
        ensures allowed { (pick : Pick) → Allows (cases_of pick (state_of S.book self.old) who command.Rollback) result (state_of S.book self.new) }
        ensures bound { is_free result ≡ false }
    {
        if self.stopped {
            return Reply::Stopped;
        }
        if !self.is_inside(who) {
            return Reply::Error {
                word: ErrorWord::NoTxn,
            };
        }
        self.end(who);
        Reply::Done
    }
}

/// What a put is answered, as the row was there or not.
fn put_reply(there: bool) -> Reply
    ensures { result ≡ (if there then reply.Replaced else reply.New) }
{
    if there { Reply::Replaced } else { Reply::New }
}

/// Whether any of the values is a text or a blob that passes 65,536 bytes.
pub(crate) fn any_is_long(values: &[Value]) -> bool
    ensures { result ≡ list_any is_long values.now }
{
    values.iter().any(|value| is_long(value))
}

/// Whether a value is a text or a blob that passes 65,536 bytes.
fn is_long(value: &Value) -> bool
    ensures { result ≡ is_long value.now }
{
    match value {
        Value::Text(bytes) | Value::Blob(bytes) => bytes.as_slice().len() > 65_536,
        _ => false,
    }
}

/// The reply of a command, or that memory was wanted.
fn or_memory(said: Result<Reply, AllocError>) -> Reply
    ensures { result ≡ said_of said }
{
    match said {
        Ok(reply) => reply,
        Err(_) => Reply::Memory,
    }
}
