//! Standard input and output as the two ends of a session.
//!
//! Neither tells what it holds or has taken: no clause can say what the system gives or takes. Their counts of
//! faults are exact.

ghost use Rattle.std.specs.Prelude.{◌≡◌, ℕ, ◌≤◌, length, IsTrue, IfOk, OnErr, IsErrOf};
ghost use Rattle.byte_base.specs.Count.{Rose};
ghost use Rattle.shell_lang.specs.Ends.{SourceSteady, SinkSteady, Gives, Takes};
ghost use Rattle.vfsh.specs.Counted.{ReadCounts, WriteCounts, one_more};

use crate::again::{read_again, write_again};
use shell_top::{ReadFailed, Sink, SinkFault, Source};
use std::io::{ErrorKind, Stdin, Stdout};

/// Standard input. Its count rises at each read that fails; at the greatest count it stays.
#[derive(Drop)]
pub struct StdinSource {
    stdin: Stdin,
    faults: u64,
}

impl StdinSource {
    /// Standard input, which has not failed yet.
    pub fn new(stdin: Stdin) -> StdinSource
        ensures { result.faults ≡ 0 }
    {
        StdinSource { stdin, faults: 0 }
    }
}

impl Source for StdinSource {
    ghost use Rattle.vfsh.specs.Ends.{source_state};

    ghost state = { source_state };

    fn read(&mut self, buf: &mut [u8]) -> Result<usize, ReadFailed>
        ensures steady { SourceSteady (source_state self.old) (source_state self.new) }
        ensures gives { IfOk result (Gives (source_state self.old) (source_state self.new) buf.new) }
        ensures cause { OnErr result (Rose self.old.faults self.new.faults) }
        ensures refused { OnErr result (IsTrue (source_state self.old).tells → (source_state self.new).holds ≡ (source_state self.old).holds) }
        ensures counts { ReadCounts self.old.faults self.new.faults result }
    {
        match read_again(&mut self.stdin, buf) {
            Ok(count) => Ok(count),
            Err(_) => {
                count_fault(&mut self.faults);
                Err(ReadFailed)
            }
        }
    }
}

/// Standard output, without a buffer of its own. Its count rises at each write that fails or takes nothing; at
/// the greatest count it stays.
#[derive(Drop)]
pub struct StdoutSink {
    stdout: Stdout,
    faults: u64,
}

impl StdoutSink {
    /// Standard output, which has not failed yet.
    pub fn new(stdout: Stdout) -> StdoutSink
        ensures { result.faults ≡ 0 }
    {
        StdoutSink { stdout, faults: 0 }
    }
}

impl Sink for StdoutSink {
    ghost use Rattle.vfsh.specs.Ends.{sink_state};

    ghost state = { sink_state };

    fn write(&mut self, bytes: &[u8]) -> Result<usize, SinkFault>
        ensures steady { SinkSteady (sink_state self.old) (sink_state self.new) }
        ensures takes { IfOk result (Takes (sink_state self.old) (sink_state self.new) bytes.now) }
        ensures nothing { IfOk result (λ count. count ≡ 0 → Rose self.old.faults self.new.faults) }
        ensures cause { IsErrOf result SinkFault.Failed → Rose self.old.faults self.new.faults }
        ensures refused { OnErr result (IsTrue (sink_state self.old).tells → (sink_state self.new).taken ≡ (sink_state self.old).taken) }
        ensures counts { WriteCounts self.old.faults self.new.faults result }
    {
        match write_again(&mut self.stdout, bytes) {
            Ok(0) => {
                count_fault(&mut self.faults);
                Ok(0)
            }
            Ok(count) => Ok(count),
            Err(error) if error.kind() == ErrorKind::OutOfMemory => Err(SinkFault::Memory),
            Err(_) => {
                count_fault(&mut self.faults);
                Err(SinkFault::Failed)
            }
        }
    }
}

/// Counts one more fault.
fn count_fault(faults: &mut u64)
    ensures counted { faults.new ≡ one_more faults.old }
    ensures grows { faults.old ≤ faults.new }
{
    *faults = faults.saturating_add(1);
}
