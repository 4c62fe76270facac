//! Pages taken from the freelist and given to it: that calls succeed, and that a call that failed half-way gives no page
//! twice.

ghost use Rattle.std.specs.Prelude.{◌≡◌, IfOk};
ghost use Rattle.page_pool.specs.Memory.{mem_state};
ghost use Rattle.page_pool.specs.Space.{IsWritable};

use crate::spaces::{Counted, Flawed, database};
use byte_base::put_u32;
use page_pool::{MemSpace, PageSpace, SpaceFault, give_page, put_cleared, take_page};
use std::alloc::Global;
use std::process::Abort;
use std::test::Fail;

/// A space of four pages of 512 bytes, with a header on page 1 that names this first trunk, and on page 2 a trunk
/// with so many leaves, each of them this one.
fn with_trunk(
    rt: &impl Abort,
    alloc: Global,
    first_trunk: u32,
    leaves: u32,
    leaf: u32,
) -> Result<MemSpace, Fail>
    ensures { IfOk result (λ space. (mem_state space).pages.size ≡ 4) }
{
    let mut space = database(rt, alloc, 4, first_trunk)?;
    let mut page = [0; 512];
    put_u32(&mut page, 4, leaves);
    for place in 2..128 {
        put_u32(&mut page, 4 * place, leaf);
    }
    put_cleared(&mut space, 2, &mut page)?;
    Ok(space)
}

/// Takes a page of a space that has one.
fn take<S: PageSpace>(rt: &impl Abort, alloc: Global, space: &mut S) -> Result<u32, SpaceFault>
    requires { IsWritable (S.state space.old) }
{
    assert!(rt; space.size() > 0);
    take_page(alloc, space)
}

/// Gives a page that the space has.
fn give<S: PageSpace>(
    rt: &impl Abort,
    alloc: Global,
    space: &mut S,
    number: u32,
) -> Result<(), SpaceFault>
    requires { IsWritable (S.state space.old) }
{
    assert!(rt; 1 <= number && number <= space.size());
    give_page(alloc, space, number)
}

#[test]
fn freed_pages_are_taken_again(rt: HostRuntime) -> Result<(), Fail> {
    let mut space = with_trunk(&rt, rt.alloc(), 0, 0, 0)?;
    for number in [3, 4, 2] {
        give(&rt, rt.alloc(), &mut space, number)?;
    }
    for number in [2, 4, 3, 5] {
        assert!(rt; take(&rt, rt.alloc(), &mut space)? == number);
    }
    Ok(())
}

#[test]
fn freelists_made_by_hand(rt: HostRuntime) -> Result<(), Fail> {
    // the first trunk, how many leaves page 2 says and which, and what is taken, or the page that is malformed
    let cases = [
        (2, 0, 3, 2, 0),
        (2, 1, 3, 3, 0),
        (2, 126, 3, 3, 0),
        (2, 127, 3, 0, 2),
        (2, 1, 0, 0, 2),
        (2, 1, 5, 0, 2),
        (5, 1, 3, 0, 1),
    ];
    for (trunk, leaves, leaf, taken, malformed) in cases {
        let mut space = with_trunk(&rt, rt.alloc(), trunk, leaves, leaf)?;
        match take(&rt, rt.alloc(), &mut space) {
            Ok(number) => assert!(rt; number == taken),
            Err(fault) => assert!(rt; fault == SpaceFault::Corrupt { page: malformed }),
        }
    }
    Ok(())
}

#[test]
fn a_failed_call_gives_no_page_twice(rt: HostRuntime) -> Result<(), Fail> {
    // two calls read, the third one writes the trunk, and the fourth page 1
    for (fails_in, next) in [(1, 4), (2, 4), (3, 4), (4, 3)] {
        let mut space = with_trunk(&rt, rt.alloc(), 0, 0, 0)?;
        give(&rt, rt.alloc(), &mut space, 3)?;
        give(&rt, rt.alloc(), &mut space, 4)?;
        let mut flawed = Flawed {
            space,
            fails_in,
            faults: 0,
        };
        assert!(rt; take(&rt, rt.alloc(), &mut flawed) == Err(SpaceFault::Failed));
        assert!(rt; take(&rt, rt.alloc(), &mut flawed)? == next);
    }
    Ok(())
}

#[test]
fn the_greatest_database_does_not_grow(rt: HostRuntime) -> Result<(), Fail> {
    let mut space = Counted {
        pages: 2097151,
        changed: false,
    };
    give(&rt, rt.alloc(), &mut space, 2097151)?;
    assert!(rt; take(&rt, rt.alloc(), &mut space)? == 2097152);
    assert!(rt; space.grow() == Err(SpaceFault::Large { pages: 2097153 }));
    Ok(())
}
