//! The bytes of a journal, while it is open and closed.

use crate::pages::{before, journal_name, plan_of};
use journal_file::{close_gate, open_gate, prepare, write_journal};
use journal_format::journal_bytes;
use mem_vfs::MemVfs;
use std::alloc::Global;
use std::test::Fail;

/// The header behind its first byte: two records, the first number 1, two pages, and both sizes.
const HEADER: &[u8] =
    b"\xd5\x05\xf9\x20\xa1\x63\xd7\x00\x00\x00\x02\x00\x00\x00\x01\x00\x00\x00\x02\x00\x00\x02\x00\x00\x00\x02\x00";

/// The journal with this first byte. The checksum of either page is 1.
fn spelled(alloc: Global, first: u8) -> Result<Vec<u8>, Fail> {
    let file = before(alloc)?;
    let mut bytes = vec![in alloc; first]?;
    bytes.extend_from_slice(HEADER)?;
    bytes.resize(512, 0)?;
    for (number, page) in [(1, file.get(..512)), (2, file.get(512..))] {
        bytes.extend_from_slice(&[0, 0, 0, number])?;
        bytes.extend_from_slice(page.ok_or("two pages")?)?;
        bytes.extend_from_slice(&[0, 0, 0, 1])?;
    }
    Ok(bytes)
}

#[test]
fn the_first_byte_opens_and_closes(rt: HostRuntime) -> Result<(), Fail> {
    let alloc = rt.alloc();
    let name = journal_name()?;
    let file = before(alloc)?;
    if file.len() != 1024 {
        return Err("two pages".into());
    }
    let bytes = journal_bytes(alloc, &plan_of(alloc, &file)?)?;
    if bytes.as_slice().len() != 1552 {
        return Err("1552 bytes".into());
    }
    let mut device = MemVfs::new(alloc)?;
    let journal = prepare(&mut device, &name)?;
    assert_eq!(rt; device.bytes_of(&name), Some(b"\x00".as_slice()));
    write_journal(&mut device, journal, bytes.as_slice())?;
    assert_eq!(rt; device.bytes_of(&name), Some(spelled(alloc, 0)?.as_slice()));
    open_gate(&mut device, journal)?;
    assert_eq!(rt;
        device.bytes_of(&name),
        Some(spelled(alloc, 0xd9)?.as_slice())
    );
    close_gate(&mut device, journal)?;
    assert_eq!(rt; device.bytes_of(&name), Some(spelled(alloc, 0)?.as_slice()));
    Ok(())
}
