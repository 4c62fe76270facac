//! The checksum layer. The sums of pages here were computed outside this repository's code, from their definition.

ghost use Rattle.std.specs.Prelude.{◌≡◌, ◌≤◌, ◌^◌, drop, length, replicate};

use crate::opened::{Opened, PAGE, open_file};
use cksum_vfs::{Cksum, sum};
use mem_vfs::{MemVfs, SureVfs};
use std::alloc::Global;
use std::process::Abort;
use std::test::Fail;
use trace_vfs::Trace;
use vfs_model::Name;
use vfs_trait::{Bytes, Vfs, VfsFault};

#[test]
fn sums_are_the_defined_ones(rt: HostRuntime) {
    let pair = [1, 0, 0, 0, 2, 0, 0, 0];
    let two = [1, 0, 0, 0, 2, 0, 0, 0, 255, 255, 255, 255, 0, 0, 0, 0];
    let cases: [(&[u8], (u32, u32)); 5] = [
        (&pair, (1, 3)),
        (&two, (3, 6)),
        (&[0; PAGE - 8], (0, 0)),
        (&[1; PAGE - 8], (612_940_828, 2_093_870_788)),
        (&[2; PAGE - 8], (1_225_881_656, 4_187_741_576)),
    ];
    for (bytes, expected) in cases {
        let (first, second) = sum(bytes);
        assert_eq!(rt; first, expected.0);
        assert_eq!(rt; second, expected.1);
    }
}

/// The sums of 504 bytes 1, of 504 bytes 2, and of these with a byte 3 and a byte 7 in the place 100.
const ONES: u64 = 0x1cbc_8824_c4ee_cd7c;

const TWOS: u64 = 0x3878_1149_88dd_9bf9;

const TWOS_CHANGED: u64 = 0xfb37_a60e_4d16_2c8a;

const ONES_CHANGED: u64 = 0xae3a_05c6_6243_2fe0;
/// Those of 100 bytes 2 and 404 bytes 0.
const SHORT: u64 = 0x2a79_c853_f0e2_36c7;

/// A page with a byte in all places but the last eight, where zeros stand.
pub fn page_of(byte: u8) -> [u8; PAGE]
    ensures { drop 504 result ≡ replicate 8 0 }
{
    let mut page = [0; PAGE];
    page[..PAGE - 8].fill(byte);
    page
}

pub fn a_name(bytes: &[u8]) -> Result<Name, Fail> {
    Ok(Name::new(bytes).ok_or("a name")?)
}

/// The file of a name with these bytes, for a device.
pub fn one_file(alloc: Global, name: &Name, bytes: &[u8]) -> Result<Vec<(Name, Bytes)>, Fail> {
    let mut files = Vec::new(alloc);
    files.push((*name, Bytes::from_vec(Vec::from_slice(alloc, bytes)?)))?;
    Ok(files)
}

/// A file of these bytes, opened through a checksum layer.
fn checked(alloc: Global, name: &Name, bytes: &[u8]) -> Result<Opened<Cksum<SureVfs>>, Fail> {
    let device = SureVfs::with(alloc, one_file(alloc, name, bytes)?)?;
    match Cksum::new(alloc, device, 512) {
        Ok(layer) => Ok(open_file(layer, name)?),
        Err(_) => Err("memory".into()),
    }
}

/// The bytes of two pages that were written through a layer, as the device has them.
pub fn two_pages(alloc: Global, name: &Name) -> Result<Vec<u8>, Fail> {
    let mut file = checked(alloc, name, &[])?;
    file.write(0, &page_of(1))?;
    file.write(1, &page_of(2))?;
    let bytes = file.stack.below().bytes_of(name).ok_or("a file")?;
    Ok(Vec::from_slice(alloc, bytes)?)
}

#[test]
fn pages_keep_their_sums(rt: HostRuntime) -> Result<(), Fail> {
    let name = a_name(b"main")?;
    let bytes = two_pages(rt.alloc(), &name)?;
    let mut expected = Vec::new(rt.alloc());
    expected.extend_from_slice(&[1; PAGE - 8])?;
    expected.extend_from_slice(&ONES.to_be_bytes())?;
    expected.extend_from_slice(&[2; PAGE - 8])?;
    expected.extend_from_slice(&TWOS.to_be_bytes())?;
    assert!(rt; bytes.as_slice() == expected.as_slice());
    Ok(())
}

/// A page that is bad, with the sums that it keeps and has.
type Bad = (u32, u64, u64);

/// The name of a file of the two pages, the bytes of it that were changed behind the layer, how many are left, the range
/// that is read, and how many bytes that gives, or which page is bad.
type Case = (
    &'static [u8],
    &'static [(usize, u8)],
    usize,
    (u16, usize),
    Result<usize, Bad>,
);

/// Reads, and gives the page that is named as bad.
fn answer(
    file: &mut Opened<Cksum<SureVfs>>,
    off: u16,
    buf: &mut [u8],
) -> Result<Result<usize, Bad>, VfsFault>
    requires { length buf.old ≤ 2 ^ 31 }
{
    match file.read(off, buf) {
        Ok(count) => Ok(Ok(count)),
        Err(VfsFault::BadPage { page, kept, found }) => Ok(Err((page, kept, found))),
        Err(fault) => Err(fault),
    }
}

fn check(rt: &impl Abort, alloc: Global, case: &Case) -> Result<(), Fail> {
    let (name, changed, left, (off, len), expected) = *case;
    let mut bytes = two_pages(alloc, &a_name(b"main")?)?;
    for (place, byte) in changed {
        if let Some(old) = bytes.get_mut(*place) {
            *old = *byte;
        }
    }
    bytes.truncate(left);
    let mut file = checked(alloc, &a_name(name)?, &bytes)?;
    let mut room = [9; 2 * PAGE];
    let buf = room.get_mut(..len).ok_or("two pages at most")?;
    let got = answer(&mut file, off, buf)?;
    assert_eq!(rt; got, expected, "{off} {len}");
    if got.is_err() {
        assert!(rt; buf.iter().all(|b| *b == 0), "zeros after {off} {len}");
    }
    Ok(())
}

#[test]
fn the_first_bad_page_is_named(rt: HostRuntime) -> Result<(), Fail> {
    let cases: [Case; 12] = [
        (b"main", &[], 1024, (0, 1024), Ok(1024)),
        (b"main", &[], 1024, (500, 100), Ok(100)),
        (b"main", &[], 1024, (1000, 100), Ok(24)),
        (b"main", &[], 1024, (1024, 100), Ok(0)),
        (b"main", &[(612, 3)], 1024, (0, 512), Ok(512)),
        (
            b"main",
            &[(612, 3)],
            1024,
            (600, 10),
            Err((2, TWOS, TWOS_CHANGED)),
        ),
        (
            b"main",
            &[(612, 3)],
            1024,
            (500, 100),
            Err((2, TWOS, TWOS_CHANGED)),
        ),
        (
            b"main",
            &[(612, 3), (100, 7)],
            1024,
            (500, 100),
            Err((1, ONES, ONES_CHANGED)),
        ),
        (b"main", &[], 612, (0, 512), Ok(512)),
        (b"main", &[], 612, (0, 513), Err((2, 0, SHORT))),
        (b"main", &[], 612, (700, 10), Err((2, 0, SHORT))),
        (b"main-journal", &[(612, 3)], 612, (0, 1024), Ok(612)),
    ];
    for case in &cases {
        check(&rt, rt.alloc(), case)?;
    }
    Ok(())
}

/// Writes a page, reads a part of it, and compares the calls that were kept.
fn use_once<V: Vfs>(rt: &impl Abort, file: &mut Opened<V>, read: &str) -> Result<(), Fail> {
    file.write(0, &page_of(1))?;
    let mut buf = [9; 16];
    let count = file.read(496, &mut buf)?;
    assert_eq!(rt; count, 16);
    assert_eq!(rt; buf, [1, 1, 1, 1, 1, 1, 1, 1, 0, 0, 0, 0, 0, 0, 0, 0]);
    let list = file.lines()?.ok_or("a trace layer")?;
    let expected = [
        "call 1 open main main = fid 0",
        "call 2 length 0 = len 0",
        "call 3 write 0 0 512 = ok",
        read,
    ];
    assert_eq!(rt; list.lines.as_slice().len(), expected.len());
    for (line, text) in list.lines.as_slice().iter().zip(&expected) {
        assert!(rt; line.as_slice() == text.as_bytes(), "{text}");
    }
    Ok(())
}

#[test]
fn layers_stand_on_each_other(rt: HostRuntime) -> Result<(), Fail> {
    let name = a_name(b"main")?;
    let alloc = rt.alloc();
    let Ok(below) = Trace::new(alloc, MemVfs::new(alloc)?, 8) else {
        return Err("memory".into());
    };
    let Ok(stack) = Cksum::new(alloc, below, 512) else {
        return Err("memory".into());
    };
    let stack: Cksum<Trace<MemVfs>> = stack;
    use_once(
        &rt,
        &mut open_file(stack, &name)?,
        "call 4 read 0 0 512 = bytes 512",
    )?;
    let Ok(below) = Cksum::new(alloc, MemVfs::new(alloc)?, 512) else {
        return Err("memory".into());
    };
    let Ok(stack) = Trace::new(alloc, below, 8) else {
        return Err("memory".into());
    };
    let stack: Trace<Cksum<MemVfs>> = stack;
    use_once(
        &rt,
        &mut open_file(stack, &name)?,
        "call 4 read 0 496 16 = bytes 16",
    )
}
