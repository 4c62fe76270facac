//! Overflow chains written, read and freed: that calls succeed, chains that were made by hand, and a device that fails.

ghost use Rattle.page_pool.specs.Space.{IsReady, IsWritable};

use crate::spaces::{Flawed, database};
use byte_base::{Bytes, put_u32, u32_at};
use page_pool::{MemSpace, PageSpace, SpaceFault};
use payload_chain::{free_chain, read_chain, write_chain};
use std::alloc::Global;
use std::process::Abort;
use std::test::Fail;

/// Puts a page of 512 bytes.
fn put(rt: &impl Abort, space: &mut MemSpace, number: u32, page: &[u8; 512]) -> Result<(), Fail> {
    assert!(rt; 1 <= number && number <= space.size());
    assert!(rt; space.page_size() == 512 && space.usable() == 512);
    space.put(number, page)?;
    Ok(())
}

/// A page of 512 bytes.
fn get(rt: &impl Abort, space: &mut MemSpace, number: u32) -> Result<[u8; 512], Fail> {
    assert!(rt; 1 <= number && number <= space.size() && space.page_size() == 512);
    let mut page = [0; 512];
    space.get(number, &mut page)?;
    Ok(page)
}

/// Writes a chain of bytes to a space that has a page.
fn write<S: PageSpace>(
    rt: &impl Abort,
    alloc: Global,
    space: &mut S,
    rest: &[u8],
) -> Result<u32, SpaceFault>
    requires { IsWritable (S.state space.old) }
{
    assert!(rt; space.size() > 0 && !rest.is_empty());
    write_chain(alloc, space, rest)
}

/// Reads a chain behind three bytes.
fn read<S: PageSpace>(
    rt: &impl Abort,
    alloc: Global,
    space: &mut S,
    first: u32,
    len: u64,
) -> Result<Result<Bytes, SpaceFault>, Fail>
    requires { IsReady (S.state space.old) }
{
    let mut out = Bytes::copy_of(alloc, b"abc")?;
    let read = read_chain(alloc, space, first, len, &mut out);
    assert!(rt; out.as_slice().len() >= 3 && &out.as_slice()[..3] == b"abc".as_slice());
    Ok(read.map(|_| out))
}

/// The bytes 1 to 250, over and over.
fn pattern(alloc: Global, len: usize) -> Result<Vec<u8>, Fail> {
    let mut bytes = Vec::new(alloc);
    for place in 0..len {
        bytes.push((place % 250) as u8 + 1)?;
    }
    Ok(bytes)
}

/// Sees that a chain holds just these bytes.
fn see_bytes<S: PageSpace>(
    rt: &impl Abort,
    alloc: Global,
    space: &mut S,
    first: u32,
    payload: &[u8],
) -> Result<(), Fail>
    requires { IsReady (S.state space.old) }
{
    let out = read(rt, alloc, space, first, payload.len() as u64)??;
    let bytes = out.as_slice();
    assert!(rt; bytes.len() == 3 + payload.len() && &bytes[3..] == payload);
    Ok(())
}

/// Sees that a page ends a chain and holds so many of its bytes, and zeros behind them.
fn see_last(rt: &impl Abort, space: &mut MemSpace, number: u32, count: usize) -> Result<(), Fail> {
    let page = get(rt, space, number)?;
    assert!(rt; 1 <= count && count <= 508);
    assert!(rt; u32_at(&page, 0) == 0 && page[3 + count] != 0);
    assert!(rt; page[4 + count..].iter().all(|byte| *byte == 0));
    Ok(())
}

#[test]
fn what_spills_is_written_read_and_freed(rt: HostRuntime) -> Result<(), Fail> {
    // the length, the pages of the chain, and how many bytes the last of them holds
    for (len, pages, last) in [(508, 1, 508), (509, 2, 1), (65501, 129, 477)] {
        let mut space = database(&rt, rt.alloc(), 1, 0)?;
        let payload = pattern(rt.alloc(), len)?;
        assert_eq!(rt; write(&rt, rt.alloc(), &mut space, &payload), Ok(2));
        assert_eq!(rt; space.size(), 1 + pages);
        see_last(&rt, &mut space, 1 + pages, last)?;
        see_bytes(&rt, rt.alloc(), &mut space, 2, &payload)?;
        free_chain(rt.alloc(), &mut space, 2, len as u64)?;
        // the freelist gives what it was given, and the space does not grow
        write(&rt, rt.alloc(), &mut space, &payload)?;
        assert_eq!(rt; space.size(), 1 + pages);
    }
    Ok(())
}

/// What reading and freeing a chain of so many bytes answer over seven pages: 2, 3, 4 and the end; 5, 6 and 5 again;
/// 7 and a page that is not there.
fn told(
    rt: &impl Abort,
    alloc: Global,
    first: u32,
    len: u64,
) -> Result<Result<(), SpaceFault>, Fail> {
    let mut space = database(rt, alloc, 7, 0)?;
    for (number, next) in [(2, 3), (3, 4), (4, 0), (5, 6), (6, 5), (7, 8)] {
        let mut page = [7; 512];
        put_u32(&mut page, 0, next);
        put(rt, &mut space, number, &page)?;
    }
    let read = read(rt, alloc, &mut space, first, len)?.map(|_| ());
    assert_eq!(rt; read, free_chain(alloc, &mut space, first, len));
    Ok(read)
}

#[test]
fn chains_made_by_hand(rt: HostRuntime) -> Result<(), Fail> {
    // the first page, the length, and the page that is named
    let cases = [
        (0, 0, Ok(())),
        (2, 1017, Ok(())),
        (2, 1524, Ok(())),
        (4, 508, Ok(())),
        // it has no page, or begins out of range
        (0, 1, Err(0)),
        (4294967295, 65501, Err(4294967295)),
        // it leaves the pages
        (7, 509, Err(7)),
        // it ends early
        (2, 1525, Err(4)),
        // it goes on behind its bytes
        (2, 0, Err(2)),
        (2, 1016, Err(3)),
        // it meets a page twice
        (5, 1017, Err(5)),
        (6, 18446744073709551615, Err(6)),
    ];
    for (first, len, answer) in cases {
        let expected = answer.map_err(|page| SpaceFault::Corrupt { page });
        assert_eq!(rt;
            told(&rt, rt.alloc(), first, len)?,
            expected,
            "{first}, {len}"
        );
    }
    Ok(())
}

/// Writes a chain of three pages, each of which is taken by two calls, and put, where one call fails.
fn see_write(rt: &impl Abort, alloc: Global, flawed: &mut Flawed, fails_in: u32, payload: &[u8]) {
    flawed.fails_in = fails_in;
    let written = write(rt, alloc, flawed, payload);
    let expected = if fails_in <= 9 {
        Err(SpaceFault::Failed)
    } else {
        Ok(2)
    };
    assert_eq!(rt; written, expected, "write, {fails_in}");
}

/// Reads a chain of three pages where one call fails, and then where none does.
fn see_read(
    rt: &impl Abort,
    alloc: Global,
    flawed: &mut Flawed,
    fails_in: u32,
    first: u32,
    payload: &[u8],
) -> Result<(), Fail> {
    flawed.fails_in = fails_in;
    let out = read(rt, alloc, flawed, first, payload.len() as u64)?;
    assert_eq!(rt; out.is_err(), fails_in <= 3, "read, {fails_in}");
    flawed.fails_in = 0;
    see_bytes(rt, alloc, flawed, first, payload)
}

/// Frees a chain of three pages where one call fails: each is read and given, the first by three calls, the others,
/// which become its leaves, by four.
fn see_free(rt: &impl Abort, alloc: Global, flawed: &mut Flawed, fails_in: u32, first: u32) {
    flawed.fails_in = fails_in;
    let freed = free_chain(alloc, flawed, first, 1500);
    assert_eq!(rt; freed.is_err(), fails_in <= 14, "free, {fails_in}");
}

#[test]
fn a_device_that_fails_is_told_once(rt: HostRuntime) -> Result<(), Fail> {
    let payload = pattern(rt.alloc(), 1500)?;
    for fails_in in 1..17 {
        let mut flawed = Flawed {
            space: database(&rt, rt.alloc(), 1, 0)?,
            fails_in: 0,
            faults: 0,
        };
        see_write(&rt, rt.alloc(), &mut flawed, fails_in, &payload);
        // what a refused call has taken is no part of the next chain
        flawed.fails_in = 0;
        let first = write(&rt, rt.alloc(), &mut flawed, &payload)?;
        see_read(&rt, rt.alloc(), &mut flawed, fails_in, first, &payload)?;
        see_free(&rt, rt.alloc(), &mut flawed, fails_in, first);
    }
    Ok(())
}
