//! The run: lines from the source, each answered into the sink before the next is read.

ghost use Rattle.std.specs.Prelude.{◌≡◌, ℕ, ◌+◌, ◌*◌, ◌^◌, ◌≤◌, List, [], ◌∷◌, length, OnOk, OnErr, IsErrOf};
ghost use Rattle.byte_base.specs.Count.{Rose};
ghost use Rattle.shell_lang.specs.Ends.{SinkSteady};
ghost use Rattle.shell_top.specs.Line.{HasNoFeed, last_line};
ghost use Rattle.shell_top.specs.Running.{Took, TookSome, AllRun, SomeRun, BytesRun, BytesStopped};
ghost use Rattle.shell_top.specs.Status.{halt_status};
ghost use Rattle.shell_top.specs.Stands.{machine, Stands, Keeps, rows_len};

use crate::session::Session;
use crate::status::Status;
use shell_lang::{Sink, SinkFault};
use std::alloc::Global;
use vfs_model::looser_twice;
use vfs_trait::Vfs;

/// Why a run went no further.
#[derive(Clone, Copy, Debug, PartialEq, Eq)]
pub enum Halt {
    /// There was no memory for a line or for the sink.
    Memory,
    /// The sink failed, or took nothing.
    WriteFault,
}

impl Halt {
    /// How the run ends.
    pub fn status(self) -> Status
        ensures { result ≡ halt_status self }
    {
        match self {
            Halt::Memory => Status::Memory,
            Halt::WriteFault => Status::WriteFault,
        }
    }
}

/// Runs what these bytes complete of lines: the bytes so far of the line under way come before them, and
/// those of the next are left.
pub fn run_bytes<V: Vfs, O: Sink>(
    alloc: Global,
    session: &mut Session,
    stack: &mut V,
    output: &mut O,
    line: &mut Vec<u8>,
    piece: &[u8],
) -> Result<(), Halt>
    requires stands { Stands session.old (V.state stack.old) }
    requires no_feed { HasNoFeed line.old.items }
    requires room { 2 * rows_len session.old + 3 * (length line.old.items + length piece.now) ≤ 3 * 2 ^ 30 }
    ensures stands { Stands session.new (V.state stack.new) }
    ensures keeps { Keeps session.old session.new (V.state stack.old) (V.state stack.new) }
    ensures sink { SinkSteady (O.state output.old) (O.state output.new) }
    ensures no_feed { OnOk result (HasNoFeed line.new.items) }
    ensures grows { OnOk result (2 * rows_len session.new + 3 * length line.new.items ≤ 2 * rows_len session.old + 3 * (length line.old.items + length piece.now)) }
    ensures ok { OnOk result (BytesRun (machine session.old (V.state stack.old)) (machine session.new (V.state stack.new)) (O.state output.old) (O.state output.new) line.old.items piece.now line.new.items) }
    ensures err { OnErr result (BytesStopped (machine session.old (V.state stack.old)) (machine session.new (V.state stack.new)) (O.state output.old) (O.state output.new) line.old.items piece.now) }
    ensures cause { IsErrOf result Halt.WriteFault → Rose (O.state output.old).faults (O.state output.new).faults }
{
    looser_twice();
    for b in piece {
        run_byte(alloc, session, stack, output, line, *b)?;
    }
    Ok(())
}

/// Goes on with the line under way by a byte, and runs it at a line feed.
fn run_byte<V: Vfs, O: Sink>(
    alloc: Global,
    session: &mut Session,
    stack: &mut V,
    output: &mut O,
    line: &mut Vec<u8>,
    byte: u8,
) -> Result<(), Halt>
    requires stands { Stands session.old (V.state stack.old) }
    requires no_feed { HasNoFeed line.old.items }
    requires room { 2 * rows_len session.old + 3 * length line.old.items ≤ 3 * 2 ^ 30 }
    ensures stands { Stands session.new (V.state stack.new) }
    ensures keeps { Keeps session.old session.new (V.state stack.old) (V.state stack.new) }
    ensures sink { SinkSteady (O.state output.old) (O.state output.new) }
    ensures no_feed { OnOk result (HasNoFeed line.new.items) }
    ensures grows { OnOk result (2 * rows_len session.new + 3 * length line.new.items ≤ 2 * rows_len session.old + 3 * (1 + length line.old.items)) }
    ensures ok { OnOk result (BytesRun (machine session.old (V.state stack.old)) (machine session.new (V.state stack.new)) (O.state output.old) (O.state output.new) line.old.items (byte ∷ []) line.new.items) }
    ensures err { OnErr result (BytesStopped (machine session.old (V.state stack.old)) (machine session.new (V.state stack.new)) (O.state output.old) (O.state output.new) line.old.items (byte ∷ [])) }
    ensures cause { IsErrOf result Halt.WriteFault → Rose (O.state output.old).faults (O.state output.new).faults }
{
    if byte == b'\n' {
        run_line(alloc, session, stack, output, line)?;
        line.clear();
        return Ok(());
    }
    match line.push(byte) {
        Ok(()) => Ok(()),
        Err(_) => Err(Halt::Memory),
    }
}

/// Runs the last line of the input, which has no line feed and counts where it is not empty.
pub fn run_last<V: Vfs, O: Sink>(
    alloc: Global,
    session: &mut Session,
    stack: &mut V,
    output: &mut O,
    line: &[u8],
) -> Result<(), Halt>
    requires stands { Stands session.old (V.state stack.old) }
    requires room { 2 * rows_len session.old + 3 * length line.now ≤ 3 * 2 ^ 30 }
    ensures stands { Stands session.new (V.state stack.new) }
    ensures keeps { Keeps session.old session.new (V.state stack.old) (V.state stack.new) }
    ensures sink { SinkSteady (O.state output.old) (O.state output.new) }
    ensures ok { OnOk result (AllRun (machine session.old (V.state stack.old)) (machine session.new (V.state stack.new)) (O.state output.old) (O.state output.new) (last_line line.now)) }
    ensures err { OnErr result (SomeRun (machine session.old (V.state stack.old)) (machine session.new (V.state stack.new)) (O.state output.old) (O.state output.new) (last_line line.now)) }
    ensures cause { IsErrOf result Halt.WriteFault → Rose (O.state output.old).faults (O.state output.new).faults }
{
    if line.is_empty() {
        return Ok(());
    }
    run_line(alloc, session, stack, output, line)
}

/// Runs one line and writes its reply.
fn run_line<V: Vfs, O: Sink>(
    alloc: Global,
    session: &mut Session,
    stack: &mut V,
    output: &mut O,
    line: &[u8],
) -> Result<(), Halt>
    requires stands { Stands session.old (V.state stack.old) }
    requires room { 2 * rows_len session.old + 3 * length line.now ≤ 3 * 2 ^ 30 }
    ensures stands { Stands session.new (V.state stack.new) }
    ensures keeps { Keeps session.old session.new (V.state stack.old) (V.state stack.new) }
    ensures sink { SinkSteady (O.state output.old) (O.state output.new) }
    ensures grows { 2 * rows_len session.new ≤ 2 * rows_len session.old + 3 * length line.now }
    ensures ok { OnOk result (AllRun (machine session.old (V.state stack.old)) (machine session.new (V.state stack.new)) (O.state output.old) (O.state output.new) (line.now ∷ [])) }
    ensures err { OnErr result (SomeRun (machine session.old (V.state stack.old)) (machine session.new (V.state stack.new)) (O.state output.old) (O.state output.new) (line.now ∷ [])) }
    ensures cause { IsErrOf result Halt.WriteFault → Rose (O.state output.old).faults (O.state output.new).faults }
{
    let reply = session.step(alloc, stack, line);
    write_all(output, reply.text())
}

/// Writes all the bytes.
pub fn write_all<O: Sink>(output: &mut O, bytes: &[u8]) -> Result<(), Halt>
    ensures sink { SinkSteady (O.state output.old) (O.state output.new) }
    ensures ok { OnOk result (Took (O.state output.old) (O.state output.new) bytes.now []) }
    ensures err { OnErr result (TookSome (O.state output.old) (O.state output.new) bytes.now) }
    ensures cause { IsErrOf result Halt.WriteFault → Rose (O.state output.old).faults (O.state output.new).faults }
{
    let mut rest = bytes;
    while !rest.is_empty() {
        match output.write(rest) {
            Ok(0) | Err(SinkFault::Failed) => return Err(Halt::WriteFault),
            Ok(count) => rest = &rest[count..],
            Err(SinkFault::Memory) => return Err(Halt::Memory),
        }
    }
    Ok(())
}
