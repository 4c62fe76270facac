//! Whether keys rise.

ghost use Rattle.std.specs.Prelude.{◌↔◌, IsTrue};
ghost use Rattle.tree_join.specs.Join.{KeysRise};
ghost use Rattle.tree_join.specs.Steps.{IsBehind};

use tree_page::InnerCell;

/// Whether the keys of the cells rise.
pub(crate) fn rises(cells: &[InnerCell]) -> bool
    ensures { IsTrue result ↔ KeysRise cells.now }
{
    let mut last = None;
    for cell in cells {
        if !is_behind(last, cell.rowid) {
            return false;
        }
        last = Some(cell.rowid);
    }
    true
}

/// Whether a key comes behind the last one, if there is one.
fn is_behind(last: Option<i64>, key: i64) -> bool
    ensures { IsTrue result ↔ IsBehind last key }
{
    match last {
        None => true,
        Some(low) => low < key,
    }
}
