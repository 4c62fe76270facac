//! What keeps a book.

ghost use Rattle.std.specs.Prelude.{◌≡◌, ◌↔◌, ◌==◌, ℕ, IsTrue, length, IfOk};
ghost use Rattle.std.specs.FinMap as map;
ghost use Rattle.book_model.specs.Book.{Book, is_plain, is_foreign, is_taken, table_at, has_row, with_table, without_table, with_row, without_row};
ghost use Rattle.shell_model.specs.Cases.{row_reply, rows_reply, tables_listed, too_many};
ghost use Rattle.shell_lang.specs.declared.reply.Reply.TheVariants as reply;
ghost use Rattle.ref_shell.specs.Shelf.{Becomes, passes};

use byte_base::{ByteLists, Bytes};
use db_format::Record;
use shell_lang::Reply;
use std::alloc::AllocError;

/// Keeps a book, in whatever way: maps in memory, or the pages of a file.
pub trait Shelf: Drop {
    /// The book that it keeps.
    ghost book: { Self → Book };

    fn is_plain(&self, name: &Bytes) -> bool
        ensures { result ≡ is_plain (book self.now) name.now };

    fn is_foreign(&self, name: &Bytes) -> bool
        ensures { result ≡ is_foreign (book self.now) name.now };

    fn is_taken(&self, name: &Bytes) -> bool
        ensures { result ≡ is_taken (book self.now) name.now };

    /// How many columns the table has.
    fn columns(&self, name: &Bytes) -> usize
        ensures { result ≡ length (table_at (book self.now) name.now).columns };

    fn has_row(&self, name: &Bytes, rowid: &i64) -> bool
        ensures { result ≡ has_row (book self.now) name.now rowid.now };

    /// The reply that gives a row, or says that there is none.
    fn row(&self, name: &Bytes, rowid: &i64) -> Result<Reply, AllocError>
        ensures { IfOk result (λ said. said ≡ row_reply rowid.now (map.get (table_at (book self.now) name.now).rows rowid.now)) };

    /// The reply that gives the rows between two rowids.
    fn rows(&self, name: &Bytes, low: &i64, high: &i64) -> Result<Reply, AllocError>
        ensures { IfOk result (λ said. said ≡ rows_reply low.now high.now (table_at (book self.now) name.now).rows) };

    /// The reply that gives the number of rows.
    fn count(&self, name: &Bytes) -> Reply
        ensures { result ≡ reply.Count (map.len (table_at (book self.now) name.now).rows) };

    /// The reply that gives the tables.
    fn tables(&self) -> Result<Reply, AllocError>
        ensures { IfOk result (λ said. said ≡ reply.TableLines (tables_listed (book self.now))) };

    fn counter(&self) -> u32
        ensures { result ≡ (book self.now).counter };

    fn set_counter(&mut self, counter: u32)
        ensures { book self.new ≡ record (book self.old) { counter = counter } };

    /// The same with a row put, as a shelf of its own.
    fn with_row(&self, name: &Bytes, rowid: &i64, values: Record) -> Result<Self, AllocError>
        ensures { IfOk result (λ shelf. Becomes (book self.now) (λ root. with_row (book self.now) name.now rowid.now values) (book shelf)) };

    /// The same with a row taken out.
    fn without_row(&self, name: &Bytes, rowid: &i64) -> Result<Self, AllocError>
        ensures { IfOk result (λ shelf. Becomes (book self.now) (λ root. without_row (book self.now) name.now rowid.now) (book shelf)) };

    /// The same with an empty table.
    fn with_table(&self, name: &Bytes, columns: ByteLists) -> Result<Self, AllocError>
        ensures { IfOk result (λ shelf. Becomes (book self.now) (λ root. with_table (book self.now) name.now columns root) (book shelf)) };

    /// The same without a table.
    fn without_table(&self, name: &Bytes) -> Result<Self, AllocError>
        ensures { IfOk result (λ shelf. Becomes (book self.now) (λ root. without_table (book self.now) name.now) (book shelf)) };

    /// The same book, as a shelf of its own.
    fn twin(&self) -> Result<Self, AllocError>
        ensures { IfOk result (λ shelf. book shelf ≡ book self.now) };

    /// Whether a number of pages is the least that passes the greatest database.
    fn is_too_many(&self, pages: u32) -> bool
        ensures { result ≡ (pages == too_many (book self.now)) };

    /// Whether a change into another book may pass the greatest database.
    fn may_pass(&self, changed: &Self) -> bool
        ensures { result ≡ passes (book self.now) (book changed.now) };

    /// The same of an empty table, wherever its root is.
    fn table_may_pass(&self, name: &Bytes, columns: &ByteLists) -> Result<bool, AllocError>
        ensures { IfOk result (λ may. IsTrue may ↔ ((root : ℕ) × IsTrue (passes (book self.now) (with_table (book self.now) name.now columns.now root)))) };
}
