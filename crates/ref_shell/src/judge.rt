//! Whether a reply that was seen is allowed.

ghost use Rattle.std.specs.Prelude.{◌≡◌, ◌↔◌, ℕ, ℤ, List, false, IsTrue, IfOk};
ghost use Rattle.db_format.specs.declared.value.Value.{Value as Item};
ghost use Rattle.shell_model.specs.Step.{takes_memory, is_free};
ghost use Rattle.shell_laws.specs.Free.{SomeStep, MayPass, MayCut, IsFront, changed, keeps_draft, may_want, may_commit, may_fail, may_write, may_scan, finds, accepts, may_change, may_break_off};
ghost use Rattle.ref_shell.specs.Machine.{state_of, draft_of};
ghost use Rattle.ref_shell.specs.Shelf.{passes};
ghost use Rattle.shell_lang.specs.declared.reply.Reply.TheVariants as reply;
ghost use Rattle.shell_lang.specs.declared.reply.ScanEnd.{ScanEnd};

use crate::levels::is_refused;
use crate::machine::{Draft, Machine, any_is_long};
use crate::same::{Same, all_same};
use crate::shelf::Shelf;
use byte_base::Bytes;
use db_format::Record;
use shell_lang::{Command, Reply, RowList, ScanEnd};
use shell_laws::{free_replies, reference_is_allowed, replies_are_determined};
use std::alloc::AllocError;
use vfs_model::{Level, Owner};

impl<S: Shelf> Machine<S> {
    /// Whether a command of a connection may be answered so. Without memory nothing is told.
    pub fn allows(&self, who: Owner, command: Command, reply: &Reply) -> Result<bool, AllocError>
        ensures { IfOk result (λ allowed. IsTrue allowed ↔ SomeStep (state_of S.book self.now) who command reply.now) }
    {
        free_replies();
        match reply {
            Reply::Memory => Ok(self.may_want(who, &command)),
            Reply::MemoryStopped => Ok(self.may_break_off(who, &command)),
            Reply::Fault => Ok(self.may_fail(who, &command)),
            Reply::Large { pages } => self.may_pass(who, command, *pages),
            Reply::Rows { rows, last } => self.allows_rows(who, command, reply, rows, *last),
            _ => self.is_due(who, command, reply),
        }
    }

    /// Whether the reply is the one that is due.
    fn is_due(&self, who: Owner, command: Command, reply: &Reply) -> Result<bool, AllocError>
        requires { is_free reply.now ≡ false }
        ensures { IfOk result (λ due. IsTrue due ↔ SomeStep (state_of S.book self.now) who command reply.now) }
    {
        replies_are_determined();
        let mut twin = self.twin()?;
        let due = twin.step(who, command);
        if let Reply::Memory = due {
            return Err(AllocError);
        }
        Ok(due.same(reply))
    }

    /// The same machine once more.
    fn twin(&self) -> Result<Machine<S>, AllocError>
        ensures { IfOk result (λ twin. state_of S.book twin ≡ state_of S.book self.now) }
    {
        let kept = self.kept.twin()?;
        let draft = twin_of(&self.draft)?;
        Ok(Machine {
            kept,
            draft,
            levels: self.levels,
            inside: self.inside,
            stopped: self.stopped,
        })
    }

    /// Whether rows may be answered, which may be cut off.
    fn allows_rows(
        &self,
        who: Owner,
        command: Command,
        said: &Reply,
        rows: &RowList,
        last: ScanEnd,
    ) -> Result<bool, AllocError>
        requires { said.now ≡ reply.Rows rows.now last }
        ensures { IfOk result (λ allowed. IsTrue allowed ↔ SomeStep (state_of S.book self.now) who command (reply.Rows rows.now last)) }
    {
        free_replies();
        match last {
            ScanEnd::Fault => self.may_cut(who, &command, rows),
            ScanEnd::Memory => self.may_cut(who, &command, rows),
            _ => self.is_due(who, command, said),
        }
    }

    /// Whether a scan may be cut off behind these rows.
    fn may_cut(&self, who: Owner, command: &Command, rows: &RowList) -> Result<bool, AllocError>
        ensures { IfOk result (λ may. IsTrue may ↔ MayCut (state_of S.book self.now) who command.now rows.now) }
    {
        match command {
            Command::Scan { table, low, high } => {
                if !self.may_scan(who, &table.name) {
                    return Ok(false);
                }
                let whole = self.seen(who).rows(&table.name, low, high)?;
                Ok(begins_with(&whole, rows))
            }
            _ => Ok(false),
        }
    }

    /// Whether a scan gets its level and finds its table.
    fn may_scan(&self, who: Owner, name: &Bytes) -> bool
        ensures { result ≡ may_scan (state_of S.book self.now) who name.now }
    {
        !self.stopped && (!is_refused(&self.levels, who, Level::Shared) && self.finds(who, name))
    }

    /// Whether a change may pass the greatest database with so many pages.
    fn may_pass(&self, who: Owner, command: Command, pages: u32) -> Result<bool, AllocError>
        ensures { IfOk result (λ may. IsTrue may ↔ MayPass (state_of S.book self.now) who command pages) }
    {
        if !self.may_change(who, &command) {
            return Ok(false);
        }
        if !self.seen(who).is_too_many(pages) {
            return Ok(false);
        }
        passes_with(self.seen(who), command)
    }

    /// Whether memory may be wanted.
    fn may_want(&self, who: Owner, command: &Command) -> bool
        ensures { result ≡ may_want (state_of S.book self.now) who command.now }
    {
        !self.stopped && (takes_memory(command) || self.keeps_draft(who, command))
    }

    /// Whether the device may fail.
    fn may_fail(&self, who: Owner, command: &Command) -> bool
        ensures { result ≡ may_fail (state_of S.book self.now) who command.now }
    {
        match command {
            Command::Reopen => true,
            Command::Commit => {
                !self.stopped && (self.keeps_draft(who, command) && self.may_commit(who))
            }
            _ => {
                !self.stopped
                    && (takes_memory(command) && !is_refused(&self.levels, who, Level::Shared))
            }
        }
    }

    /// Whether memory may be wanted once the device was asked.
    fn may_break_off(&self, who: Owner, command: &Command) -> bool
        ensures { result ≡ may_break_off (state_of S.book self.now) who command.now }
    {
        match command {
            Command::Reopen => true,
            Command::Commit => {
                !self.stopped && (self.keeps_draft(who, command) && self.may_commit(who))
            }
            _ => { self.may_change(who, command) && (!self.is_inside(who) && self.may_commit(who)) }
        }
    }

    /// Whether the command is a commit with a change.
    fn keeps_draft(&self, who: Owner, command: &Command) -> bool
        ensures { result ≡ keeps_draft (state_of S.book self.now) who command.now }
    {
        match command {
            Command::Commit => self.is_inside(who) && self.has_own(who),
            _ => false,
        }
    }

    /// Whether a commit is not refused.
    fn may_commit(&self, who: Owner) -> bool
        ensures { result ≡ may_commit (state_of S.book self.now) who }
    {
        self.kept.counter() != u32::MAX && !is_refused(&self.levels, who, Level::Exclusive)
    }

    /// Whether a change gets its levels.
    fn may_write(&self, who: Owner) -> bool
        ensures { result ≡ may_write (state_of S.book self.now) who }
    {
        !self.stopped
            && (!is_refused(&self.levels, who, Level::Shared)
                && !is_refused(&self.levels, who, Level::Reserved))
    }

    /// Whether the table is there and plain.
    fn finds(&self, who: Owner, name: &Bytes) -> bool
        ensures { result ≡ finds (state_of S.book self.now) who name.now }
    {
        let shelf = self.seen(who);
        shelf.is_plain(name) && !shelf.is_foreign(name)
    }

    /// Whether a table takes these values.
    fn accepts(&self, who: Owner, name: &Bytes, values: &Record) -> bool
        ensures { result ≡ accepts (state_of S.book self.now) who name.now values.now }
    {
        values.as_slice().len() == self.seen(who).columns(name) && !any_is_long(values.as_slice())
    }

    /// Whether the command changes something.
    fn may_change(&self, who: Owner, command: &Command) -> bool
        ensures { result ≡ may_change (state_of S.book self.now) who command.now }
    {
        match command {
            Command::Create { table, .. } => {
                self.may_write(who) && !self.seen(who).is_taken(&table.name)
            }
            Command::Drop { table } => self.may_write(who) && self.finds(who, &table.name),
            Command::Put { table, values, .. } => {
                self.may_write(who)
                    && (self.finds(who, &table.name) && self.accepts(who, &table.name, values))
            }
            Command::Del { table, rowid } => {
                self.may_write(who)
                    && (self.finds(who, &table.name) && self.seen(who).has_row(&table.name, rowid))
            }
            _ => false,
        }
    }
}

/// A draft once more, where there is one.
fn twin_of<S: Shelf>(draft: &Option<Draft<S>>) -> Result<Option<Draft<S>>, AllocError>
    ensures { IfOk result (λ twin. draft_of S.book twin ≡ draft_of S.book draft.now) }
{
    match draft {
        Some(draft) => {
            let book = draft.book.twin()?;
            Ok(Some(Draft {
                owner: draft.owner,
                book,
            }))
        }
        None => Ok(None),
    }
}

/// Whether a change of what is seen may pass the greatest database.
fn passes_with<S: Shelf>(seen: &S, command: Command) -> Result<bool, AllocError>
    ensures { IfOk result (λ may. IsTrue may ↔ ((root : ℕ) × IsTrue (passes (S.book seen.now) (changed (S.book seen.now) root command)))) }
{
    match command {
        Command::Create { table, columns } => seen.table_may_pass(&table.name, &columns),
        Command::Drop { table } => {
            let after = seen.without_table(&table.name)?;
            Ok(seen.may_pass(&after))
        }
        Command::Put {
            table,
            rowid,
            values,
        } => {
            let after = seen.with_row(&table.name, &rowid, values)?;
            Ok(seen.may_pass(&after))
        }
        Command::Del { table, rowid } => {
            let after = seen.without_row(&table.name, &rowid)?;
            Ok(seen.may_pass(&after))
        }
        _ => Ok(seen.may_pass(seen)),
    }
}

/// Whether the rows of a reply begin with these, of which there is one at least.
fn begins_with(whole: &Reply, rows: &RowList) -> bool
    ensures { (all : List (ℤ × List Item)) (last : ScanEnd) → whole.now ≡ reply.Rows all last → IsTrue result ↔ IsFront rows.now all }
{
    match whole {
        Reply::Rows {
            rows: whole,
            last: _,
        } => is_front(rows.as_slice(), whole.as_slice()),
        _ => false,
    }
}

/// Whether these are the first of some rows, and one at least.
fn is_front(rows: &[(i64, Record)], whole: &[(i64, Record)]) -> bool
    ensures { IsTrue result ↔ IsFront rows.now whole.now }
{
    !rows.is_empty() && rows.len() <= whole.len() && all_same(rows, &whole[..rows.len()])
}

/// Whether memory may be wanted by a command whatever the state.
fn takes_memory(command: &Command) -> bool
    ensures { result ≡ takes_memory command.now }
{
    match command {
        Command::Begin | Command::Commit | Command::Rollback | Command::Reopen => false,
        _ => true,
    }
}
