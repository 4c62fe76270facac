//! A checksum layer over a device of which each call fails in turn: what it shows, of the device and of what a stop would
//! leave, is what the slow program computes of the bytes.

use crate::cksum::{a_name, one_file, page_of, two_pages};
use crate::opened::{Opened, PAGE, open_file};
use cksum_vfs::Cksum;
use mem_vfs::{Edge, FailAt, Fill, ImageChoice, MemVfs};
use ref_stack::{is_bad, through};
use std::alloc::Global;
use std::process::Abort;
use std::test::Fail;
use vfs_model::{Layer, Name};
use vfs_trait::VfsFault;

/// The most pages that the file of these tests has.
const PAGES: usize = 3;

/// A call on the open file.
#[derive(Clone, Copy)]
enum Step {
    /// A page of this byte, by its number from 0.
    Write(u16, u8),
    /// To so many pages.
    Cut(u16),
    Sync,
}

/// What is seen of the file: its bytes, or the first page that is bad.
type Seen = Result<Vec<u8>, u32>;

/// What the slow program computes of the file.
fn computed(alloc: Global, device: &MemVfs, name: &Name) -> Result<Seen, Fail> {
    let bytes = device.bytes_of(name).ok_or("a file")?;
    let files = one_file(alloc, name, bytes)?;
    let layers = [Layer::Cksum { page: 512 }];
    for page in 0..PAGES as u32 {
        if is_bad(alloc, &layers, &files, name.bytes(), 512 * page)? {
            return Ok(Err(page + 1));
        }
    }
    let shown = through(alloc, &layers, &files, name.bytes())?;
    Ok(Ok(Vec::from_slice(alloc, shown.bytes.as_slice())?))
}

/// What the layer shows of it, if the device does not fail.
fn read(alloc: Global, file: &mut Opened<Cksum<MemVfs>>) -> Result<Option<Seen>, Fail> {
    let mut buf = [9; PAGES * PAGE];
    match file.read(0, &mut buf) {
        Ok(count) => {
            let bytes = buf.get(..count).ok_or("no more than asked")?;
            Ok(Some(Ok(Vec::from_slice(alloc, bytes)?)))
        }
        Err(VfsFault::BadPage { page, .. }) => Ok(Some(Err(page))),
        Err(_) => Ok(None),
    }
}

fn compare(rt: &impl Abort, got: Seen, expected: Seen, call: u64) {
    match (got, expected) {
        (Ok(got), Ok(expected)) => assert!(rt;
            got.as_slice() == expected.as_slice(),
            "call {call}"
        ),
        (Err(got), Err(expected)) => assert!(rt; got == expected, "call {call}"),
        (Ok(_), Err(_)) => assert!(rt; false, "a bad page is shown, call {call}"),
        (Err(_), Ok(_)) => assert!(rt; false, "a good page is refused, call {call}"),
    }
}

/// Compares what is shown of the device, and of an image of it.
fn check(
    rt: &impl Abort,
    alloc: Global,
    file: &mut Opened<Cksum<MemVfs>>,
    name: &Name,
    call: u64,
) -> Result<(), Fail> {
    let expected = computed(alloc, file.stack.below(), name)?;
    if let Some(got) = read(alloc, file)? {
        compare(rt, got, expected, call);
    }
    let choice = ImageChoice {
        length: if call % 2 == 0 {
            Edge::Old
        } else {
            Edge::Present
        },
        bytes: if call % 3 == 0 {
            Fill::Present
        } else {
            Fill::Old
        },
        names: Edge::Present,
    };
    let image = file.stack.below().image(alloc, &choice)?;
    let expected = computed(alloc, &image, name)?;
    let Ok(layer) = Cksum::new(alloc, image, 512) else {
        return Err("memory".into());
    };
    let mut left = open_file(layer, name)?;
    if let Some(got) = read(alloc, &mut left)? {
        compare(rt, got, expected, call);
    }
    Ok(())
}

/// Makes the calls over a device that fails at one of its own.
fn run(rt: &impl Abort, alloc: Global, call: u64) -> Result<(), Fail> {
    let name = a_name(b"main")?;
    let files = one_file(alloc, &name, &two_pages(alloc, &name)?)?;
    let mut fails = Vec::new(alloc);
    fails.push(FailAt {
        call,
        reach: 100,
        from_then_on: false,
    })?;
    let Ok(layer) = Cksum::new(alloc, MemVfs::with(alloc, files, fails)?, 512) else {
        return Err("memory".into());
    };
    let Ok(mut file) = open_file(layer, &name) else {
        return Ok(());
    };
    let steps = [
        Step::Write(1, 5),
        Step::Sync,
        Step::Write(2, 6),
        Step::Cut(1),
        Step::Write(1, 7),
        Step::Sync,
    ];
    for step in steps {
        let _done = match step {
            Step::Write(number, byte) => file.write(number, &page_of(byte)),
            Step::Cut(pages) => file.cut(pages),
            Step::Sync => file.sync(),
        };
        check(rt, alloc, &mut file, &name, call)?;
    }
    Ok(())
}

#[test]
fn what_is_shown_is_computed(rt: HostRuntime) -> Result<(), Fail> {
    for call in 1..=40 {
        run(&rt, rt.alloc(), call)?;
    }
    Ok(())
}
