//! The shelf.

ghost use Rattle.std.specs.Prelude.{◌≡◌, T, ◌+◌, ◌-◌, ◌/◌, ◌^◌, ◌<◌, ◌≤◌, max, [], ◌++◌, pos, map, filter, not, IfOk, OnOk};
ghost use Rattle.std.specs.List.{All, list_any};
ghost use Rattle.std.specs.Option.{option_copied};
ghost use Rattle.std.specs.Ordering.{nat_cmp, int_cmp};
ghost use Rattle.std.specs.Str.{str_eq_ignore_ascii_case};
ghost use Rattle.std.specs.Cmp.Lexicographic.{slice_cmp};
ghost use Rattle.std.specs.FinMap as map;
ghost use Rattle.std.specs.FinMap.{is_sorted, from_sorted};
ghost use Rattle.page_list.specs.Pages.{HasPage};
ghost use Rattle.ref_pages.specs.AsPages.{pages_of};
ghost use Rattle.ref_book.specs.Loaded.{AreNumbers, IsPut};
ghost use Rattle.shell_model.specs.Cases.{row_reply};
ghost use Rattle.db_format.specs.declared.table_list.TableEntry.TheVariants.{Plain, Foreign};

use crate::entries::rows_by_rowid;
use crate::foreign::foreign_of;
use crate::load::{Schema, names_of, page_size, push_tables, schema_of, unnamed_of};
use crate::names::{is_foreign_name, is_table_name, is_taken_name};
use crate::need::{left_of_rows, left_of_tables};
use crate::row::KeptRow;
use crate::schema::{entry_row, next_entry};
use crate::sorted::{find, sorted, with_entry, without_entry};
use crate::table::KeptTable;
use crate::twin::{Twin, twins};
use book_model::book_of_pages;
use byte_base::{ByteLists, Bytes};
use db_format::{Record, TableEntry, TableList, one_create, one_record};
use page_list::one_freelist;
use ref_pages::word_of;
use ref_rows::{roots, roots_of_each_size};
use ref_schema::is_whole;
use ref_shell::Shelf;
use ref_trees::RefPages;
use shell_lang::{Reply, ScanEnd};
use std::alloc::{AllocError, Global};
use tree_model::one_tree;

/// Keeps a book in sorted lists.
#[derive(Debug, Drop)]
pub struct MapShelf {
    alloc: Global,
    /// The plain tables in the order of their names.
    tables: Vec<(Bytes, KeptTable)>,
    /// The names of the other tables.
    foreign: ByteLists,
    /// The rows of the schema in the order of their rowids.
    schema: Vec<(i64, KeptRow)>,
    /// The pages that nothing names.
    unnamed: Vec<(u32, Bytes)>,
    numbers: Numbers,
    ghost tables_rise: { T (is_sorted (slice_cmp nat_cmp) tables.items) },
    ghost schema_rises: { T (is_sorted int_cmp schema.items) },
    ghost usable_least: { 480 ≤ numbers.usable },
    ghost usable_most: { numbers.usable ≤ 65536 },
}

/// The numbers of a book.
#[derive(Clone, Copy, Debug)]
struct Numbers {
    counter: u32,
    pages: usize,
    free: usize,
    page: u32,
    usable: u32,
}

impl MapShelf {
    ghost use Rattle.std.specs.Prelude.{IfSome, IfNone};
    ghost use Rattle.page_list.specs.Pages.{HasPage};
    ghost use Rattle.tree_model.specs.Database.{IsWhole};
    ghost use Rattle.book_model.specs.Pages.{IsBookOf, IsBook};
    ghost use Rattle.ref_pages.specs.AsPages.{pages_of};
    ghost use Rattle.ref_book.specs.Loaded.{IsPut};
    ghost use Rattle.book_model.specs.Book.{Book, empty_book, table_at, next_entry, foreign_names, need_of, with_table};
    ghost use Rattle.ref_shell.specs.Shelf.{passes};
    ghost use Rattle.ref_book.specs.Shelf.{book_of};
    ghost use Rattle.ref_book.specs.Steps.{emptied};

    /// A book of no pages, of which `usable` bytes each would hold content.
    pub fn new(alloc: Global, page: u32, usable: u32) -> MapShelf
        requires least { 480 ≤ usable }
        requires most { usable ≤ 65536 }
        ensures { book_of result ≡ empty_book page usable }
    {
        MapShelf {
            alloc,
            tables: Vec::new(alloc),
            foreign: ByteLists::from_vec(Vec::new(alloc)),
            schema: Vec::new(alloc),
            unnamed: Vec::new(alloc),
            numbers: Numbers {
                counter: 0,
                pages: 0,
                free: 0,
                page,
                usable,
            },
        }
    }

    /// The book of pages; `None` where they are not whole. Where there is no page, the page size is that which is given.
    pub fn of_pages(
        alloc: Global,
        page: u32,
        pages: &RefPages,
    ) -> Result<Option<MapShelf>, AllocError>
        ensures found { IfOk result (λ found. IfSome found (λ shelf. IsBook page (pages_of pages.now) (book_of shelf))) }
        ensures none { IfOk result (λ found. IfNone found ((book : Book) → ¬ (IsBook page (pages_of pages.now) book))) }
    {
        book_of_pages();
        if is_whole(alloc, pages)?.is_err() {
            return Ok(None);
        }
        if pages.size() == 0 {
            return Ok(Some(MapShelf::new(alloc, page, pages.usable())));
        }
        MapShelf::of_some_pages(alloc, pages)
    }

    /// The book of whole pages, of which there are some.
    fn of_some_pages(alloc: Global, pages: &RefPages) -> Result<Option<MapShelf>, AllocError>
        requires { HasPage (pages_of pages.now) 1 }
        ensures found { IfOk result (λ found. IfSome found (λ shelf. IsWhole (pages_of pages.now) → IsBookOf (pages_of pages.now) (book_of shelf))) }
        ensures none { IfOk result (λ found. IfNone found (¬ (IsWhole (pages_of pages.now)))) }
    {
        one_tree();
        one_record();
        one_create();
        one_freelist();
        let Some(schema) = schema_of(alloc, pages)? else {
            return Ok(None);
        };
        let mut listed = Vec::new(alloc);
        if !push_tables(alloc, pages, &mut listed, &schema.rows, &schema.found)? {
            return Ok(None);
        }
        let Some(named) = names_of(alloc, pages, &schema.found)? else {
            return Ok(None);
        };
        let shelf = MapShelf::of_parts(alloc, pages, &schema, &listed, &named)?;
        Ok(Some(shelf))
    }

    /// The book of what was read.
    fn of_parts(
        alloc: Global,
        pages: &RefPages,
        schema: &Schema,
        listed: &[(Bytes, KeptTable)],
        named: &[u32],
    ) -> Result<MapShelf, AllocError>
        requires { HasPage (pages_of pages.now) 1 }
        ensures { IfOk result (λ shelf. IsPut (pages_of pages.now) schema.now.rows.items schema.now.records.items schema.now.found.items listed.now named.now (book_of shelf)) }
    {
        let tables = sorted(alloc, listed)?;
        let foreign = foreign_of(alloc, &schema.records, &schema.found)?;
        let rows = rows_by_rowid(alloc, &schema.rows, &schema.records, 5)?;
        let unnamed = unnamed_of(alloc, pages, named)?;
        Ok(MapShelf {
            alloc,
            tables,
            foreign,
            schema: rows,
            unnamed,
            numbers: Numbers::of_pages(pages),
        })
    }

    /// The table of a name, where there is one.
    fn table(&self, name: &Bytes) -> Option<&KeptTable>
        ensures { option_copied result ≡ map.get (book_of self.now).tables name.now }
    {
        find(&self.tables, name)
    }

    /// The same with other tables and another schema: every page that something may name is free.
    fn changed(
        &self,
        tables: Vec<(Bytes, KeptTable)>,
        schema: Vec<(i64, KeptRow)>,
    ) -> Result<MapShelf, AllocError>
        requires tables { T (is_sorted (slice_cmp nat_cmp) tables.items) }
        requires schema { T (is_sorted int_cmp schema.items) }
        ensures { IfOk result (λ shelf. book_of shelf ≡ emptied (record (book_of self.now) { tables = from_sorted tables.items; schema = from_sorted schema.items })) }
    {
        let alloc = self.alloc;
        let foreign = self.foreign.twin(alloc)?;
        let unnamed = twins(alloc, &self.unnamed)?;
        let numbers = self.numbers.emptied(unnamed.len());
        Ok(MapShelf {
            alloc,
            tables,
            foreign,
            schema,
            unnamed,
            numbers,
        })
    }

    /// The table of a name, or this one, which has nothing, where there is none.
    fn read<'a>(&'a self, name: &Bytes, none: &'a KeptTable) -> &'a KeptTable
        requires { none.now ≡ record { columns = []; entry = pos 0; rows = map.empty } }
        ensures { result.now ≡ table_at (book_of self.now) name.now }
    {
        match self.table(name) {
            Some(table) => table,
            None => none,
        }
    }

    /// The rowid of a new row of the schema.
    fn next(&self) -> i64
        ensures { result ≡ next_entry (book_of self.now) }
    {
        next_entry(&self.schema)
    }

    /// The tables with one more, or with another one of a name.
    fn tables_with(
        &self,
        name: &Bytes,
        table: KeptTable,
    ) -> Result<Vec<(Bytes, KeptTable)>, AllocError>
        ensures rise { IfOk result (λ all. T (is_sorted (slice_cmp nat_cmp) all.items)) }
        ensures are { IfOk result (λ all. from_sorted all.items ≡ map.insert (book_of self.now).tables name.now table) }
    {
        let name = name.twin(self.alloc)?;
        let all = with_entry(self.alloc, &self.tables, name, table)?;
        Ok(all)
    }

    /// The schema with one more row.
    fn schema_with(&self, at: i64, row: KeptRow) -> Result<Vec<(i64, KeptRow)>, AllocError>
        ensures rise { IfOk result (λ all. T (is_sorted int_cmp all.items)) }
        ensures are { IfOk result (λ all. from_sorted all.items ≡ map.insert (book_of self.now).schema at row) }
    {
        let all = with_entry(self.alloc, &self.schema, at, row)?;
        Ok(all)
    }

    /// The tables without that of a name.
    fn tables_without(&self, name: &Bytes) -> Result<Vec<(Bytes, KeptTable)>, AllocError>
        ensures rise { IfOk result (λ all. T (is_sorted (slice_cmp nat_cmp) all.items)) }
        ensures are { IfOk result (λ all. from_sorted all.items ≡ map.remove (book_of self.now).tables name.now) }
    {
        let name = name.twin(self.alloc)?;
        let all = without_entry(self.alloc, &self.tables, name)?;
        Ok(all)
    }

    /// The schema without a row.
    fn schema_without(&self, at: i64) -> Result<Vec<(i64, KeptRow)>, AllocError>
        ensures rise { IfOk result (λ all. T (is_sorted int_cmp all.items)) }
        ensures are { IfOk result (λ all. from_sorted all.items ≡ map.remove (book_of self.now).schema at) }
    {
        let all = without_entry(self.alloc, &self.schema, at)?;
        Ok(all)
    }

    /// The plain tables and then the others, each with its name.
    fn listed(&self) -> Result<Vec<(Bytes, TableEntry)>, AllocError>
        ensures { IfOk result (λ all. all.items ≡ map (λ table. (table.0, Plain (record { name = table.0; columns = table.1.columns }))) (map.entries (book_of self.now).tables) ++ map (λ name. (name, Foreign name)) (foreign_names (book_of self.now))) }
    {
        let mut all = Vec::new(self.alloc);
        push_plain(self.alloc, &mut all, &self.tables)?;
        push_foreign(self.alloc, &mut all, self.foreign.as_slice(), &self.tables)?;
        Ok(all)
    }

    /// What is left of a bound when what the book may need is taken away.
    fn left(&self, bound: u64) -> u64
        ensures { result ≡ bound - need_of (book_of self.now) }
    {
        let usable = self.numbers.usable;
        let rest = left_of_rows(usable, bound, &self.schema);
        left_of_tables(usable, rest, &self.tables)
    }

    /// The same with an empty table, whose root is on a page.
    fn with_table_at(
        &self,
        name: &Bytes,
        columns: ByteLists,
        root: u64,
    ) -> Result<MapShelf, AllocError>
        requires { root < 2 ^ 63 }
        ensures { IfOk result (λ shelf. book_of shelf ≡ emptied (with_table (book_of self.now) name.now columns root)) }
    {
        let alloc = self.alloc;
        let at = self.next();
        let row = entry_row(alloc, name, &columns, root)?;
        let table = KeptTable::empty(alloc, columns, at);
        let tables = self.tables_with(name, table)?;
        let schema = self.schema_with(at, row)?;
        self.changed(tables, schema)
    }

    /// Whether an empty table with its root on a page may pass the greatest database.
    fn root_may_pass(
        &self,
        name: &Bytes,
        columns: &ByteLists,
        root: u64,
    ) -> Result<bool, AllocError>
        requires { root < 2 ^ 63 }
        ensures { IfOk result (λ may. may ≡ passes (book_of self.now) (with_table (book_of self.now) name.now columns.now root)) }
    {
        let changed = self.with_table_at(name, columns.twin(self.alloc)?, root)?;
        Ok(self.may_pass(&changed))
    }

    /// The same of one of some pages.
    fn some_root_may_pass(
        &self,
        name: &Bytes,
        columns: &ByteLists,
        roots: &[u64],
    ) -> Result<bool, AllocError>
        requires { All (λ root. root < 2 ^ 63) roots.now }
        ensures { IfOk result (λ may. may ≡ list_any (λ root. passes (book_of self.now) (with_table (book_of self.now) name.now columns.now root)) roots.now) }
    {
        let [root, more @ ..] = roots else {
            return Ok(false);
        };
        if self.root_may_pass(name, columns, *root)? {
            return Ok(true);
        }
        self.some_root_may_pass(name, columns, more)
    }

    /// The same with another table of a name.
    fn with_kept(&self, name: &Bytes, table: KeptTable) -> Result<MapShelf, AllocError>
        ensures { IfOk result (λ shelf. book_of shelf ≡ emptied (record (book_of self.now) { tables = map.insert (book_of self.now).tables name.now table })) }
    {
        let tables = self.tables_with(name, table)?;
        let schema = twins(self.alloc, &self.schema)?;
        self.changed(tables, schema)
    }
}

impl Numbers {
    /// The numbers of pages, of which there are some.
    fn of_pages(pages: &RefPages) -> Numbers
        requires { HasPage (pages_of pages.now) 1 }
        ensures are { AreNumbers (pages_of pages.now) result.counter result.pages result.free result.page result.usable }
        ensures least { 480 ≤ result.usable }
        ensures most { result.usable ≤ 65536 }
    {
        Numbers {
            counter: word_of(pages, 1, 24),
            pages: pages.size() as usize,
            free: word_of(pages, 1, 36) as usize,
            page: page_size(pages),
            usable: pages.usable(),
        }
    }

    /// Every page is free but those that nothing names.
    fn emptied(self, unnamed: usize) -> Numbers
        ensures { result ≡ record self { pages = max self.pages unnamed; free = max self.pages unnamed - unnamed } }
    {
        let pages = self.pages.max(unnamed);
        Numbers {
            counter: self.counter,
            pages,
            free: pages - unnamed,
            page: self.page,
            usable: self.usable,
        }
    }

    /// The least number of pages that passes the greatest database.
    fn too_many(&self) -> u64
        ensures { result ≡ 2 ^ 30 / self.now.page + 1 }
    {
        match self.page {
            0 => 1,
            page => (1 << 30) / u64::from(page) + 1,
        }
    }

    /// The pages that nothing names, where they are so many, and those in use.
    fn in_use(&self, unnamed: usize) -> u64
        ensures { result ≡ unnamed + (self.now.pages - self.now.free - unnamed) }
    {
        self.pages.saturating_sub(self.free).max(unnamed) as u64
    }
}

/// An empty table without columns.
fn no_table(alloc: Global) -> KeptTable
    ensures { result ≡ record { columns = []; entry = pos 0; rows = map.empty } }
{
    KeptTable::empty(alloc, ByteLists::from_vec(Vec::new(alloc)), 0)
}

/// The reply that gives a row of a table, or says that there is none.
fn row_reply(alloc: Global, table: &KeptTable, rowid: &i64) -> Result<Reply, AllocError>
    ensures { IfOk result (λ said. said ≡ row_reply rowid.now (map.get table.now.rows rowid.now)) }
{
    match table.row(rowid) {
        Some(row) => {
            let values = row.record(alloc)?;
            Ok(Reply::Row {
                rowid: *rowid,
                values,
            })
        }
        None => Ok(Reply::Nothing),
    }
}

/// Puts the plain tables behind others, each with its name.
fn push_plain(
    alloc: Global,
    all: &mut Vec<(Bytes, TableEntry)>,
    tables: &[(Bytes, KeptTable)],
) -> Result<(), AllocError>
    ensures { OnOk result (all.new.items ≡ all.old.items ++ map (λ table. (table.0, Plain (record { name = table.0; columns = table.1.columns }))) tables.now) }
{
    let [first, more @ ..] = tables else {
        return Ok(());
    };
    let entry = TableEntry::Plain(first.1.create(alloc, &first.0)?);
    all.push((first.0.twin(alloc)?, entry))?;
    push_plain(alloc, all, more)
}

/// Puts the names that no plain table has behind others, each with itself.
fn push_foreign(
    alloc: Global,
    all: &mut Vec<(Bytes, TableEntry)>,
    foreign: &[Bytes],
    tables: &[(Bytes, KeptTable)],
) -> Result<(), AllocError>
    ensures { OnOk result (all.new.items ≡ all.old.items ++ map (λ name. (name, Foreign name)) (filter (λ name. not (list_any (str_eq_ignore_ascii_case name) (map (λ e. e.0) tables.now))) foreign.now)) }
{
    let [first, more @ ..] = foreign else {
        return Ok(());
    };
    if !is_table_name(tables, first.as_slice()) {
        let entry = TableEntry::Foreign(first.twin(alloc)?);
        all.push((first.twin(alloc)?, entry))?;
    }
    push_foreign(alloc, all, more, tables)
}

/// Puts the values of entries behind others.
fn push_values(
    alloc: Global,
    all: &mut TableList,
    items: &[(Bytes, TableEntry)],
) -> Result<(), AllocError>
    ensures { OnOk result (all.new ≡ all.old ++ map (λ e. e.1) items.now) }
{
    let [first, more @ ..] = items else {
        return Ok(());
    };
    all.push(first.1.twin(alloc)?)?;
    push_values(alloc, all, more)
}

impl Shelf for MapShelf {
    ghost use Rattle.ref_book.specs.Shelf.{book_of};

    ghost book = { book_of };

    fn is_plain(&self, name: &Bytes) -> bool {
        self.table(name).is_some()
    }

    fn is_foreign(&self, name: &Bytes) -> bool {
        is_foreign_name(self.foreign.as_slice(), &self.tables, name.as_slice())
    }

    fn is_taken(&self, name: &Bytes) -> bool {
        is_taken_name(&self.schema, name.as_slice())
    }

    fn columns(&self, name: &Bytes) -> usize {
        match self.table(name) {
            Some(table) => table.width(),
            None => 0,
        }
    }

    fn has_row(&self, name: &Bytes, rowid: &i64) -> bool {
        let none = no_table(self.alloc);
        let table = self.read(name, &none);
        table.row(rowid).is_some()
    }

    fn row(&self, name: &Bytes, rowid: &i64) -> Result<Reply, AllocError> {
        let none = no_table(self.alloc);
        let table = self.read(name, &none);
        row_reply(self.alloc, table, rowid)
    }

    fn rows(&self, name: &Bytes, low: &i64, high: &i64) -> Result<Reply, AllocError> {
        let none = no_table(self.alloc);
        let table = self.read(name, &none);
        let rows = table.between(self.alloc, low, high)?;
        let lines = rows.as_slice().len() as u64;
        Ok(Reply::Rows {
            rows,
            last: ScanEnd::End { lines },
        })
    }

    fn count(&self, name: &Bytes) -> Reply {
        let none = no_table(self.alloc);
        let table = self.read(name, &none);
        Reply::Count {
            rows: table.count(),
        }
    }

    fn tables(&self) -> Result<Reply, AllocError> {
        let listed = self.listed()?;
        let ordered = sorted(self.alloc, &listed)?;
        let mut tables = TableList::from_vec(Vec::new(self.alloc));
        push_values(self.alloc, &mut tables, &ordered)?;
        Ok(Reply::TableLines { tables })
    }

    fn counter(&self) -> u32 {
        self.numbers.counter
    }

    fn set_counter(&mut self, counter: u32) {
        self.numbers.counter = counter;
    }

    fn with_row(&self, name: &Bytes, rowid: &i64, values: Record) -> Result<MapShelf, AllocError> {
        let none = no_table(self.alloc);
        let table = self.read(name, &none);
        let table = table.with_row(self.alloc, rowid, values)?;
        self.with_kept(name, table)
    }

    fn without_row(&self, name: &Bytes, rowid: &i64) -> Result<MapShelf, AllocError> {
        let none = no_table(self.alloc);
        let table = self.read(name, &none);
        let table = table.without_row(self.alloc, rowid)?;
        self.with_kept(name, table)
    }

    fn with_table(&self, name: &Bytes, columns: ByteLists) -> Result<MapShelf, AllocError> {
        self.with_table_at(name, columns, 0)
    }

    fn without_table(&self, name: &Bytes) -> Result<MapShelf, AllocError> {
        let none = no_table(self.alloc);
        let at = self.read(name, &none).entry();
        let tables = self.tables_without(name)?;
        let schema = self.schema_without(at)?;
        self.changed(tables, schema)
    }

    fn twin(&self) -> Result<MapShelf, AllocError> {
        let alloc = self.alloc;
        let tables = twins(alloc, &self.tables)?;
        let foreign = self.foreign.twin(alloc)?;
        let schema = twins(alloc, &self.schema)?;
        let unnamed = twins(alloc, &self.unnamed)?;
        let numbers = self.numbers;
        Ok(MapShelf {
            alloc,
            tables,
            foreign,
            schema,
            unnamed,
            numbers,
        })
    }

    fn is_too_many(&self, pages: u32) -> bool {
        u64::from(pages) == self.numbers.too_many()
    }

    fn may_pass(&self, changed: &MapShelf) -> bool {
        let bound = self.numbers.too_many();
        let rest = bound.saturating_sub(self.numbers.in_use(self.unnamed.len()));
        changed.left(rest) == 0
    }

    fn table_may_pass(&self, name: &Bytes, columns: &ByteLists) -> Result<bool, AllocError> {
        roots_of_each_size();
        self.some_root_may_pass(name, columns, &roots())
    }
}
