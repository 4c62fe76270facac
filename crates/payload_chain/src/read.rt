//! A chain, read.

ghost use Rattle.std.specs.Prelude.{◌≡◌, ℕ, ◌+◌, ◌-◌, ◌*◌, ◌≤◌, ◌<◌, ◌++◌, length, take, drop, min, IsTrue, IfOk, IfErr, OnOk, OnErr};
ghost use Rattle.page_pool.specs.Space.{IsReady, HasSizes, Steady, Stays};
ghost use Rattle.payload_chain.specs.Chains.{Found, ReadRefused};
ghost use Rattle.payload_chain.specs.Steps.{HasMet, StepsOn, StepRefused, IsBehind};

use crate::walk::{Walk, page_buffer, pages_needed, room};
use byte_base::Bytes;
use page_pool::{PageSpace, SpaceFault};
use std::alloc::Global;

/// Reads the `len` bytes of the chain that begins at page `first`, and puts them behind what `out` has. A chain of
/// no bytes has no page, and its first page is 0.
///
/// Refused as `get` is, and with `Corrupt` exactly where the chain leaves the pages or ends early (of the page that
/// holds the number, which is `first` where that is out of range), meets a page twice (of that page), or goes on
/// behind its bytes (of its last page). After a refusal `out` is as it was.
pub fn read_chain<S: PageSpace>(
    alloc: Global,
    space: &mut S,
    first: u32,
    len: u64,
    out: &mut Bytes,
) -> Result<(), SpaceFault>
    requires ready { IsReady (S.state space.old) }
    ensures steady { Steady (S.state space.old) (S.state space.new) }
    ensures stays { Stays (S.state space.old) (S.state space.new) }
    ensures cause { IfErr result (ReadRefused (S.state space.old) (S.state space.new) first len) }
    ensures found { IsTrue (S.state space.old).tells → OnOk result (Found (S.state space.old).pages first len out.old out.new) }
    ensures long { OnOk result (length out.new ≡ length out.old + len) }
    ensures kept { take (length out.old) out.new ≡ out.old }
    ensures refused { OnErr result (out.new ≡ out.old) }
{
    let before = out.as_slice().len();
    let read = read_pages(alloc, space, first, len, out);
    if read.is_err() {
        out.truncate(before);
    }
    read
}

/// The same, but that a refusal leaves bytes of the chain behind what `out` had.
fn read_pages<S: PageSpace>(
    alloc: Global,
    space: &mut S,
    first: u32,
    len: u64,
    out: &mut Bytes,
) -> Result<(), SpaceFault>
    requires ready { IsReady (S.state space.old) }
    ensures steady { Steady (S.state space.old) (S.state space.new) }
    ensures stays { Stays (S.state space.old) (S.state space.new) }
    ensures cause { IfErr result (ReadRefused (S.state space.old) (S.state space.new) first len) }
    ensures found { IsTrue (S.state space.old).tells → OnOk result (Found (S.state space.old).pages first len out.old out.new) }
    ensures long { OnOk result (length out.new ≡ length out.old + len) }
    ensures kept { IsBehind out.old out.new }
{
    let needed = pages_needed(space, len);
    let mut page = page_buffer(alloc, space)?;
    let mut walk = Walk::new(alloc, first);
    let mut left = len;
    for _ in 0..needed {
        left = read_page(space, &mut walk, &mut page, left, out)?;
    }
    let _numbers = walk.finish()?;
    Ok(())
}

/// Goes one page further, and puts what it holds of the `left` bytes behind what `out` has. Says how many are left
/// then.
fn read_page<S: PageSpace>(
    space: &mut S,
    walk: &mut Walk,
    page: &mut [u8],
    left: u64,
    out: &mut Bytes,
) -> Result<u64, SpaceFault>
    requires ready { IsReady (S.state space.old) }
    requires sizes { HasSizes (S.state space.old) }
    requires one_page { length page.old ≡ (S.state space.old).page_size }
    requires met { HasMet walk.old.met walk.old.numbers.items }
    ensures steady { Steady (S.state space.old) (S.state space.new) }
    ensures stays { Stays (S.state space.old) (S.state space.new) }
    ensures cause { IfErr result (StepRefused (S.state space.old) (S.state space.new) walk.old) }
    ensures ok { OnOk result (StepsOn (S.state space.old) walk.old walk.new page.new) }
    ensures left { IfOk result (λ now. now ≡ left - ((S.state space.old).pages.usable - 4)) }
    ensures out { OnOk result (out.new ≡ out.old ++ take (min left ((S.state space.old).pages.usable - 4)) (drop 4 page.new)) }
    ensures kept { OnErr result (out.new ≡ out.old) }
{
    walk.step(space, page)?;
    let count = left.min(u64::from(room(space)));
    let end = 4 + count as usize;
    out.extend_from_slice(&page[4..end])?;
    Ok(left - count)
}
