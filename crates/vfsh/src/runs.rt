//! What no clause says: that runs succeed where there is memory, and which calls of the ends and of the
//! device fail.

ghost use Rattle.std.specs.Prelude.{◌≡◌, []};
ghost use Rattle.vfs_trait.specs.State.{NoneOpen};

use mem_vfs::{FailAt, MemVfs, SureVfs};
use shell_top::{ListSink, ListSource, Source, Status, SureSink, SureSource, vfsh_run};
use std::alloc::{AllocError, Global};
use std::test::Fail;
use vfs_model::Name;
use vfs_trait::{Bytes, Vfs};

const TWO_PUTS: &[u8] = b"put 1 t:a\nput 1 t:b\n";

fn numbers(alloc: Global, list: &[u64]) -> Result<Vec<u64>, AllocError> {
    Vec::from_slice(alloc, list)
}

fn bytes(alloc: Global, list: &[u8]) -> Result<Bytes, AllocError> {
    Ok(Bytes::from_vec(Vec::from_slice(alloc, list)?))
}

/// One word of the command line.
fn word(alloc: Global, word: &str) -> Result<Vec<String>, AllocError> {
    let mut words = Vec::new(alloc);
    words.push(String::from_str(alloc, word)?)?;
    Ok(words)
}

/// A run of `main` over a device, with ends that never fail.
fn run_over<V: Vfs>(
    alloc: Global,
    device: &mut V,
    input: &[u8],
) -> Result<(Status, SureSink), AllocError>
    requires bare { (V.state device.old).layers ≡ [] }
    requires closed { NoneOpen (V.state device.old) }
{
    let words = word(alloc, "main")?;
    let mut source = SureSource::new(bytes(alloc, input)?);
    let mut sink = SureSink::new(alloc);
    let status = vfsh_run(alloc, &words, device, &mut source, &mut sink);
    Ok((status, sink))
}

#[test]
fn lines_are_answered(rt: HostRuntime) -> Result<(), Fail> {
    let cases: [(&[u8], &[u8]); 14] = [
        (b"", b"open 0\n"),
        (TWO_PUTS, b"open 0\nnew\nreplaced\n"),
        (b"put 1 t:a\nput 1 t:b", b"open 0\nnew\nreplaced\n"),
        (b"\n", b"open 0\nerror bad-line\n"),
        (b"put 1 a\n", b"open 0\nerror bad-line\n"),
        (b"put 01 t:a\n", b"open 0\nerror bad-line\n"),
        (b"put -0 t:a\n", b"open 0\nerror bad-line\n"),
        (b"put +1 t:a\n", b"open 0\nerror bad-line\n"),
        (b"put  1 t:a\n", b"open 0\nerror bad-line\n"),
        (b"put 1 t:a \n", b"open 0\nerror bad-line\n"),
        (b"Put 1 t:a\r\n", b"open 0\nerror bad-line\n"),
        (
            b"put 9223372036854775808 t:a\n",
            b"open 0\nerror bad-line\n",
        ),
        (b"put 1 t:\nput 0 t:-._~\n", b"open 0\nnew\nnew\n"),
        (
            b"put -9223372036854775808 t:Az09\nput 9223372036854775807 t:\nput -9223372036854775808 t:b\n",
            b"open 0\nnew\nnew\nreplaced\n",
        ),
    ];
    for (input, replies) in cases {
        let mut device = SureVfs::new(rt.alloc())?;
        let (status, sink) = run_over(rt.alloc(), &mut device, input)?;
        assert_eq!(rt; status, Status::Done);
        assert_eq!(rt; sink.bytes(), replies);
    }
    Ok(())
}

#[test]
fn rows_stand_in_signed_order(rt: HostRuntime) -> Result<(), Fail> {
    let mut device = SureVfs::new(rt.alloc())?;
    run_over(
        rt.alloc(),
        &mut device,
        b"put 2 t:b\nput -1 t:a\nput 2 t:cd\n",
    )?;
    let name = Name::new(b"main").ok_or("a name")?;
    let rows =
        b"\xff\xff\xff\xff\xff\xff\xff\xff\x00\x00\x00\x01a\x00\x00\x00\x00\x00\x00\x00\x02\x00\x00\x00\x02cd";
    assert_eq!(rt; device.bytes_of(&name), Some(rows.as_slice()));
    Ok(())
}

#[test]
fn refused_words_touch_nothing(rt: HostRuntime) -> Result<(), Fail> {
    let cases = [
        ("a1", 0, 0),
        ("", 2, 20),
        ("-x", 2, 20),
        (".x", 2, 20),
        ("a/b", 2, 20),
        ("x-journal", 2, 20),
    ];
    for (given, code, left) in cases {
        let words = word(rt.alloc(), given)?;
        let mut device = SureVfs::new(rt.alloc())?;
        let mut source = SureSource::new(bytes(rt.alloc(), TWO_PUTS)?);
        let mut sink = SureSink::new(rt.alloc());
        let status = vfsh_run(rt.alloc(), &words, &mut device, &mut source, &mut sink);
        assert_eq!(rt; status.code(), code);
        let mut buf = [0; 64];
        let count = source
            .read(&mut buf)
            .map_err(|_| "a source that never fails")?;
        assert_eq!(rt; count, left);
        assert_eq!(rt; sink.bytes().is_empty(), code == 2);
    }
    Ok(())
}

#[test]
fn a_text_has_a_greatest_length(rt: HostRuntime) -> Result<(), Fail> {
    for (length, reply) in [
        (65536, b"open 0\nnew\n".as_slice()),
        (65537, b"open 0\nerror too-long\n"),
    ] {
        let mut input = Vec::from_slice(rt.alloc(), b"put 7 t:")?;
        input.resize(8 + length, b'x')?;
        let mut device = SureVfs::new(rt.alloc())?;
        let (status, sink) = run_over(rt.alloc(), &mut device, &input)?;
        assert_eq!(rt; status, Status::Done);
        assert_eq!(rt; sink.bytes(), reply);
    }
    Ok(())
}

#[test]
fn a_file_that_is_not_empty_is_refused(rt: HostRuntime) -> Result<(), Fail> {
    let name = Name::new(b"main").ok_or("a name")?;
    let mut files = Vec::new(rt.alloc());
    files.push((name, bytes(rt.alloc(), b"x")?))?;
    let mut device = MemVfs::with(rt.alloc(), files, Vec::new(rt.alloc()))?;
    let (status, sink) = run_over(rt.alloc(), &mut device, b"put 1 t:a\nput 1 a\n")?;
    assert_eq!(rt; status, Status::Stopped);
    assert_eq!(rt;
        sink.bytes(),
        b"refused main not-a-database\nstopped\nerror bad-line\n".as_slice()
    );
    assert_eq!(rt; device.bytes_of(&name), Some(b"x".as_slice()));
    Ok(())
}

/// The calls of two puts are: open, length; write, cut, sync; write, cut, sync.
#[test]
fn each_device_call_fails_in_turn(rt: HostRuntime) -> Result<(), Fail> {
    let cases: [(u64, &[u8], u8); 9] = [
        (1, b"fault\nstopped\nstopped\n", 1),
        (2, b"fault\nstopped\nstopped\n", 1),
        (3, b"open 0\nfault\nstopped\n", 1),
        (4, b"open 0\nfault\nstopped\n", 1),
        (5, b"open 0\nfault\nstopped\n", 1),
        (6, b"open 0\nnew\nfault\n", 1),
        (7, b"open 0\nnew\nfault\n", 1),
        (8, b"open 0\nnew\nfault\n", 1),
        (9, b"open 0\nnew\nreplaced\n", 0),
    ];
    for (call, replies, code) in cases {
        for (reach, from_then_on) in [(0, false), (0, true), (1, false), (1, true)] {
            let mut fails = Vec::new(rt.alloc());
            fails.push(FailAt {
                call,
                reach,
                from_then_on,
            })?;
            let mut device = MemVfs::with(rt.alloc(), Vec::new(rt.alloc()), fails)?;
            let (status, sink) = run_over(rt.alloc(), &mut device, TWO_PUTS)?;
            assert_eq!(rt; sink.bytes(), replies);
            assert_eq!(rt; status.code(), code);
        }
    }
    Ok(())
}

/// A run with ends that fail and move as they are told: the status, and what the sink took.
fn run_between(
    alloc: Global,
    reads: (&[u64], &[u64]),
    writes: (&[u64], &[u64]),
) -> Result<(Status, ListSink), AllocError> {
    let words = word(alloc, "main")?;
    let mut device = SureVfs::new(alloc)?;
    let input = bytes(alloc, TWO_PUTS)?;
    let mut source = ListSource::new(input, numbers(alloc, reads.0)?, numbers(alloc, reads.1)?);
    let mut sink = ListSink::new(alloc, numbers(alloc, writes.0)?, numbers(alloc, writes.1)?);
    let status = vfsh_run(alloc, &words, &mut device, &mut source, &mut sink);
    Ok((status, sink))
}

#[test]
fn ends_fail_and_move_pieces(rt: HostRuntime) -> Result<(), Fail> {
    type Told = (&'static [u64], &'static [u64]);
    let cases: [(Told, Told, u8, &[u8]); 8] = [
        ((&[], &[]), (&[], &[]), 0, b"open 0\nnew\nreplaced\n"),
        (
            (&[], &[1, 2, 3, 4, 5, 1]),
            (&[], &[1, 2, 3, 4]),
            0,
            b"open 0\nnew\nreplaced\n",
        ),
        ((&[1], &[]), (&[], &[]), 4, b"open 0\n"),
        ((&[2], &[15]), (&[], &[]), 4, b"open 0\nnew\n"),
        ((&[], &[]), (&[1], &[]), 5, b""),
        ((&[], &[]), (&[2], &[]), 5, b"open 0\n"),
        ((&[], &[]), (&[2], &[3]), 5, b"ope"),
        ((&[], &[]), (&[], &[7, 2, 0]), 5, b"open 0\nne"),
    ];
    for (reads, writes, code, taken) in cases {
        let (status, sink) = run_between(rt.alloc(), reads, writes)?;
        assert_eq!(rt; status.code(), code);
        assert_eq!(rt; sink.bytes(), taken);
    }
    Ok(())
}
