//! A plain table.

ghost use Rattle.std.specs.Prelude.{◌≡◌, T, length, IfOk, OnOk, ◌-◌, ◌≤◌, ◌++◌, map, filter, ◌&&◌};
ghost use Rattle.std.specs.Option.{option_copied};
ghost use Rattle.std.specs.Ordering.{int_cmp, is_le};
ghost use Rattle.std.specs.FinMap as map;
ghost use Rattle.std.specs.FinMap.{is_sorted, from_sorted};
ghost use Rattle.book_model.specs.Book.{written_row, need_of_map};
ghost use Rattle.shell_model.specs.Cases.{rows_between};

use crate::need::left_of_rows;
use crate::row::KeptRow;
use crate::sorted::{find, with_entry, without_entry};
use crate::twin::{Twin, twins};
use byte_base::{ByteLists, Bytes};
use db_format::{Create, Record};
use shell_lang::RowList;
use std::alloc::{AllocError, Global};
use std::marker::Model;

/// A plain table. Contracts see it as a `Table` of a book.
#[derive(Debug, Drop)]
pub(crate) struct KeptTable {
    columns: ByteLists,
    /// The rowid of its row in the schema.
    entry: i64,
    /// Its rows in the order of their rowids.
    rows: Vec<(i64, KeptRow)>,
}

impl Model for KeptTable {
    ghost use Rattle.std.specs.Prelude.{T};
    ghost use Rattle.std.specs.Ordering.{int_cmp};
    ghost use Rattle.std.specs.FinMap.{from_sorted, is_sorted};
    ghost use Rattle.book_model.specs.Book.{Table};
    ghost use Rattle.ref_book.specs.Codes.{table_code};
    ghost use Rattle.ref_book.specs.contracts.row.KeptRow as row;

    ghost Value = { Table };

    ghost coded = { table_code row.the_row.coded };

    ghost view = { λ t. record { columns = t.columns; entry = t.entry; rows = from_sorted t.rows.items } };

    ghost invariant = { λ t. T (is_sorted int_cmp t.rows.items) };
}

impl KeptTable {
    /// A table without rows.
    pub(crate) fn empty(alloc: Global, columns: ByteLists, entry: i64) -> KeptTable
        ensures { result ≡ record { columns = columns; entry = entry; rows = map.empty } }
    {
        KeptTable {
            columns,
            entry,
            rows: Vec::new(alloc),
        }
    }

    /// A table with these rows, which stand in the order of their rowids.
    pub(crate) fn of_rows(columns: ByteLists, entry: i64, rows: Vec<(i64, KeptRow)>) -> KeptTable
        requires { T (is_sorted int_cmp rows.items) }
        ensures { result ≡ record { columns = columns; entry = entry; rows = from_sorted rows.items } }
    {
        KeptTable {
            columns,
            entry,
            rows,
        }
    }

    /// How many columns it has.
    pub(crate) fn width(&self) -> usize
        ensures { result ≡ length self.now.columns }
    {
        self.columns.as_slice().len()
    }

    /// The rowid of its row in the schema.
    pub(crate) fn entry(&self) -> i64
        ensures { result ≡ self.now.entry }
    {
        self.entry
    }

    /// How many rows it has.
    pub(crate) fn count(&self) -> u64
        ensures { result ≡ map.len self.now.rows }
    {
        self.rows.len() as u64
    }

    /// A row, where it is there.
    pub(crate) fn row(&self, rowid: &i64) -> Option<&KeptRow>
        ensures { option_copied result ≡ map.get self.now.rows rowid.now }
    {
        find(&self.rows, rowid)
    }

    /// The rows between two rowids.
    pub(crate) fn between(
        &self,
        alloc: Global,
        low: &i64,
        high: &i64,
    ) -> Result<RowList, AllocError>
        ensures { IfOk result (λ rows. rows ≡ rows_between low.now high.now self.now.rows) }
    {
        let mut rows = RowList::from_vec(Vec::new(alloc));
        push_between(alloc, &mut rows, &self.rows, low, high)?;
        Ok(rows)
    }

    /// What is left of a bound when what its rows may need is taken away.
    pub(crate) fn left(&self, usable: u32, bound: u64) -> u64
        requires least { 480 ≤ usable }
        requires most { usable ≤ 65536 }
        ensures { result ≡ bound - need_of_map usable self.now.rows }
    {
        left_of_rows(usable, bound, &self.rows)
    }

    /// The table with a row put.
    pub(crate) fn with_row(
        &self,
        alloc: Global,
        rowid: &i64,
        values: Record,
    ) -> Result<KeptTable, AllocError>
        ensures { IfOk result (λ table. table ≡ record self.now { rows = map.insert self.now.rows rowid.now (written_row values) }) }
    {
        let columns = self.columns.twin(alloc)?;
        let entry = self.entry;
        let row = KeptRow::written(values)?;
        let rows = with_entry(alloc, &self.rows, *rowid, row)?;
        Ok(KeptTable {
            columns,
            entry,
            rows,
        })
    }

    /// The table with a row taken out.
    pub(crate) fn without_row(&self, alloc: Global, rowid: &i64) -> Result<KeptTable, AllocError>
        ensures { IfOk result (λ table. table ≡ record self.now { rows = map.remove self.now.rows rowid.now }) }
    {
        let columns = self.columns.twin(alloc)?;
        let entry = self.entry;
        let rows = without_entry(alloc, &self.rows, *rowid)?;
        Ok(KeptTable {
            columns,
            entry,
            rows,
        })
    }

    /// What its text spells.
    pub(crate) fn create(&self, alloc: Global, name: &Bytes) -> Result<Create, AllocError>
        ensures { IfOk result (λ create. create ≡ record { name = name.now; columns = self.now.columns }) }
    {
        let name = name.twin(alloc)?;
        let columns = self.columns.twin(alloc)?;
        Ok(Create { name, columns })
    }
}

impl Twin for KeptTable {
    fn twin(&self, alloc: Global) -> Result<KeptTable, AllocError> {
        let columns = self.columns.twin(alloc)?;
        let entry = self.entry;
        let rows = twins(alloc, &self.rows)?;
        Ok(KeptTable {
            columns,
            entry,
            rows,
        })
    }
}

/// Puts those of some rows that are between two rowids behind others.
fn push_between(
    alloc: Global,
    all: &mut RowList,
    rows: &[(i64, KeptRow)],
    low: &i64,
    high: &i64,
) -> Result<(), AllocError>
    ensures { OnOk result (all.new ≡ all.old ++ map (λ row. (row.0, row.1.values)) (filter (λ row. is_le (int_cmp low.now row.0) && is_le (int_cmp row.0 high.now)) rows.now)) }
{
    let [first, more @ ..] = rows else {
        return Ok(());
    };
    if is_between(&first.0, low, high) {
        all.push(shown(alloc, first)?)?;
    }
    push_between(alloc, all, more, low, high)
}

/// Whether a rowid is between two, or one of them.
fn is_between(rowid: &i64, low: &i64, high: &i64) -> bool
    ensures { result ≡ (is_le (int_cmp low.now rowid.now) && is_le (int_cmp rowid.now high.now)) }
{
    low.cmp(rowid).is_le() && rowid.cmp(high).is_le()
}

/// A row as it is told: its rowid and its values.
fn shown(alloc: Global, entry: &(i64, KeptRow)) -> Result<(i64, Record), AllocError>
    ensures { IfOk result (λ row. row ≡ (entry.now.0, entry.now.1.values)) }
{
    let values = entry.1.record(alloc)?;
    Ok((entry.0, values))
}
