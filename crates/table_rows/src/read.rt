//! The record that the payload of a row is.

ghost use Rattle.std.specs.Prelude.{◌≤◌, length, IfOk, IfErr};
ghost use Rattle.db_format.specs.Record.{IsRecord};
ghost use Rattle.page_pool.specs.Space.{IsReady, HasSizes};
ghost use Rattle.table_rows.specs.Steps.{IsNoRecord};

use db_format::{FormatFault, Record, one_record, read_record};
use page_pool::{PageSpace, SpaceFault};
use std::alloc::Global;
use tree_search::OnLeaf;

/// The values that the payload of a row is a record of, where there are at most `columns`.
///
/// Refused with `Corrupt` of the leaf of the row where it is no such record, else with `Memory`.
pub(crate) fn record_of(alloc: Global, row: &OnLeaf, columns: usize) -> Result<Record, SpaceFault>
    ensures found { IfOk result (IsRecord row.now.payload) }
    ensures few { IfOk result (λ values. length values ≤ columns) }
    ensures refused { IfErr result (IsNoRecord columns row.now) }
{
    one_record();
    let record = match read_record(alloc, row.payload.as_slice()) {
        Ok(record) => record,
        Err(FormatFault::Corrupt) => return Err(SpaceFault::Corrupt { page: row.leaf }),
        Err(FormatFault::Memory) => return Err(SpaceFault::Memory),
    };
    if columns < record.as_slice().len() {
        return Err(SpaceFault::Corrupt { page: row.leaf });
    }
    Ok(record)
}

/// Reads nothing: a space that may be asked has sound sizes, which stands after each call, also where no page is read.
pub(crate) fn ask_sizes<S: PageSpace>(space: &S)
    requires ready { IsReady (S.state space.now) }
    ensures sizes { HasSizes (S.state space.now) }
{
    let _size = space.size();
}
