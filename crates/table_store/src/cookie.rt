//! The schema cookie on page 1.
//!
//! After sqlite.org, "Database File Format", section 1.3.9, "Schema cookie".

ghost use Rattle.std.specs.Prelude.{◌≤◌, IfErr, OnOk};
ghost use Rattle.page_pool.specs.Space.{IsWritable, Steady};
ghost use Rattle.page_pool.specs.Pool.{NotesChange};
ghost use Rattle.table_store.specs.Cookie.{CookieRaised, CookieRefused};

use byte_base::{put_u32, u32_at};
use db_format::SpaceFault;
use page_pool::{PageSpace, put_cleared};
use std::alloc::Global;

/// Where page 1 has the schema cookie.
const COOKIE: usize = 40;

/// Raises the schema cookie, modulo 2^32. Refused as `get` and `put` of page 1 are: then nothing has changed.
pub(crate) fn raise_cookie<S: PageSpace>(alloc: Global, space: &mut S) -> Result<(), SpaceFault>
    requires writable { IsWritable (S.state space.old) }
    requires some { 1 ≤ (S.state space.old).pages.size }
    ensures steady { Steady (S.state space.old) (S.state space.new) }
    ensures raised { OnOk result (CookieRaised (S.state space.old) (S.state space.new)) }
    ensures refused { IfErr result (CookieRefused (S.state space.old) (S.state space.new)) }
    ensures noted { NotesChange (S.state space.old) (S.state space.new) }
{
    let mut page = vec![in alloc; 0; space.page_size() as usize]?;
    space.get(1, &mut page)?;
    let cookie = u32_at(&page, COOKIE);
    put_u32(&mut page, COOKIE, cookie.wrapping_add(1));
    put_cleared(space, 1, &mut page)
}
