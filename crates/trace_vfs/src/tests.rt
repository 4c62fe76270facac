//! What a recorder keeps, as lines.

use crate::recorder::Recorder;
use std::alloc::Global;
use std::process::Abort;
use std::test::Fail;
use vfs_model::{Fid, Level, Name, Owner};
use vfs_trait::{Call, Outcome, VfsFault};

/// The lines that a recorder with so much room keeps of five calls, and how many went out.
fn check(
    rt: &impl Abort,
    alloc: Global,
    room: usize,
    dropped: u64,
    expected: &[&str],
) -> Result<(), Fail> {
    let fid = Fid(0);
    let name = Name::new(b"main").ok_or("a name")?;
    let owner = Owner::new(1).ok_or("an owner")?;
    let level = Level::Shared;
    let full = VfsFault::Full {
        total: 4096,
        limit: 4000,
    };
    let calls = [
        (
            Call::Open {
                name,
                kind: name.kind(),
            },
            Outcome::Fid(fid),
        ),
        (
            Call::Write {
                fid,
                off: 512,
                len: 1024,
            },
            Outcome::Fault(full),
        ),
        (Call::Length { fid }, Outcome::Len(512)),
        (Call::Lock { fid, owner, level }, Outcome::Ok),
        (Call::Exists { name }, Outcome::Yes),
    ];
    let mut recorder = Recorder::new(alloc, room)?;
    for (call, outcome) in calls {
        recorder.record(call, outcome);
    }
    let list = recorder.take()?;
    assert!(rt; list.dropped == dropped);
    assert!(rt; list.lines.as_slice().len() == expected.len());
    for (line, text) in list.lines.as_slice().iter().zip(expected) {
        assert!(rt; line.as_slice() == text.as_bytes(), "{text}");
    }
    Ok(())
}

#[test]
fn the_last_calls_are_kept(rt: HostRuntime) -> Result<(), Fail> {
    let all = [
        "call 1 open main main = fid 0",
        "call 2 write 0 512 1024 = full 4096 4000",
        "call 3 length 0 = len 512",
        "call 4 lock 0 1 shared = ok",
        "call 5 exists main = yes",
    ];
    check(&rt, rt.alloc(), 4096, 0, &all)?;
    check(&rt, rt.alloc(), 2, 3, &all[3..])
}
