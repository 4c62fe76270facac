//! How much of a bound is left when the pages that rows may need are taken away.

ghost use Rattle.std.specs.Prelude.{◌≡◌, ◌-◌, ◌≤◌, map};
ghost use Rattle.std.specs.List.{sum_by};
ghost use Rattle.tree_model.specs.Need.{chains_pages, need_of_rows};
ghost use Rattle.book_model.specs.Book.{need_of_map};

use crate::row::KeptRow;
use crate::table::KeptTable;
use byte_base::Bytes;
use ref_trees::chain_pages;

/// What is left of a bound when what a tree of these rows may need is taken away: two pages for each row, or two where there is none,
/// and the chains.
pub(crate) fn left_of_rows(usable: u32, bound: u64, rows: &[(i64, KeptRow)]) -> u64
    requires least { 480 ≤ usable }
    requires most { usable ≤ 65536 }
    ensures { result ≡ bound - need_of_rows usable (map (λ row. row.size) (map (λ e. e.1) rows.now)) }
{
    let count = rows.len().max(1) as u64;
    let rest = bound.saturating_sub(count).saturating_sub(count);
    left_of_chains(usable, rest, rows)
}

/// What is left of a bound when the overflow pages of these rows are taken away.
fn left_of_chains(usable: u32, bound: u64, rows: &[(i64, KeptRow)]) -> u64
    requires least { 480 ≤ usable }
    requires most { usable ≤ 65536 }
    ensures { result ≡ bound - chains_pages usable (map (λ row. row.size) (map (λ e. e.1) rows.now)) }
{
    match rows {
        [] => bound,
        [first, more @ ..] => {
            let rest = bound.saturating_sub(chain_pages(usable, first.1.size()));
            left_of_chains(usable, rest, more)
        }
    }
}

/// What is left of a bound when what these tables may need is taken away.
pub(crate) fn left_of_tables(usable: u32, bound: u64, tables: &[(Bytes, KeptTable)]) -> u64
    requires least { 480 ≤ usable }
    requires most { usable ≤ 65536 }
    ensures { result ≡ bound - sum_by (λ table. need_of_map usable table.rows) (map (λ e. e.1) tables.now) }
{
    match tables {
        [] => bound,
        [first, more @ ..] => {
            let rest = first.1.left(usable, bound);
            left_of_tables(usable, rest, more)
        }
    }
}
