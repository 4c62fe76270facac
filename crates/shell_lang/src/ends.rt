//! The two ends of a session: where its lines come from, and where its replies go.

ghost use Rattle.std.specs.Prelude.{◌≡◌, ℕ, ◌≤◌, [], ◌+◌, ◌-◌, ◌++◌, length, take, drop, min, IsTrue, IfOk, OnErr, IsErrOf};
ghost use Rattle.byte_base.specs.Count.{Rose};
ghost use Rattle.shell_lang.specs.Ends.{SourceState, SinkState, SourceSteady, SinkSteady, Gives, Takes};

use byte_base::Bytes;
use std::alloc::Global;
use thiserror::Error;

/// The source failed, and its count of faults rose.
#[derive(Clone, Copy, Debug, Error)]
#[error("the input failed")]
pub struct ReadFailed;

/// Why a sink took nothing.
#[derive(Clone, Copy, Debug, Error)]
pub enum SinkFault {
    /// The sink failed, and its count of faults rose.
    #[error("the output failed")]
    Failed,
    /// There was no memory.
    #[error("no memory")]
    Memory,
}

/// Where lines come from.
pub trait Source {
    ghost state: { Self → SourceState };

    /// Moves bytes to the front of the buffer, and answers how many; 0 is the end. What stands in the buffer
    /// behind them is not said. Refused: the source holds what it held.
    fn read(&mut self, buf: &mut [u8]) -> Result<usize, ReadFailed>
        requires { 1 ≤ length buf.old }
        ensures steady { SourceSteady (state self.old) (state self.new) }
        ensures gives { IfOk result (Gives (state self.old) (state self.new) buf.new) }
        ensures cause { OnErr result (Rose (state self.old).faults (state self.new).faults) }
        ensures refused { OnErr result (IsTrue (state self.old).tells → (state self.new).holds ≡ (state self.old).holds) };
}

/// Where replies go.
pub trait Sink {
    ghost state: { Self → SinkState };

    /// Takes bytes from the front, and answers how many; 0 is a fault too. Refused: nothing was taken.
    fn write(&mut self, bytes: &[u8]) -> Result<usize, SinkFault>
        requires { 1 ≤ length bytes.now }
        ensures steady { SinkSteady (state self.old) (state self.new) }
        ensures takes { IfOk result (Takes (state self.old) (state self.new) bytes.now) }
        ensures nothing { IfOk result (λ count. count ≡ 0 → Rose (state self.old).faults (state self.new).faults) }
        ensures cause { IsErrOf result SinkFault.Failed → Rose (state self.old).faults (state self.new).faults }
        ensures refused { OnErr result (IsTrue (state self.old).tells → (state self.new).taken ≡ (state self.old).taken) };
}

/// A source of these bytes that never fails: its count of faults is the constant 0.
#[derive(Drop)]
pub struct SureSource {
    bytes: Bytes,
    at: usize,
    ghost within: { at ≤ length bytes },
}

impl SureSource {
    ghost use Rattle.shell_lang.specs.SureEnds.{source_state};

    /// A source of these bytes, without taking memory.
    pub fn new(bytes: Bytes) -> SureSource
        ensures holds { (source_state result).holds ≡ bytes }
    {
        SureSource { bytes, at: 0 }
    }
}

impl Source for SureSource {
    ghost use Rattle.shell_lang.specs.SureEnds.{source_state};

    ghost state = { source_state };

    fn read(&mut self, buf: &mut [u8]) -> Result<usize, ReadFailed> {
        let count = move_from(self.bytes.as_slice(), self.at, buf);
        self.at += count;
        Ok(count)
    }
}

/// Copies as many bytes as there are from a place on, or as fit, to the front of the buffer.
pub(crate) fn move_from(bytes: &[u8], at: usize, buf: &mut [u8]) -> usize
    requires { at ≤ length bytes.now }
    ensures count { result ≡ min (length bytes.now - at) (length buf.old) }
    ensures moved { drop at bytes.now ≡ take result buf.new ++ drop (at + result) bytes.now }
    ensures len { length buf.new ≡ length buf.old }
{
    let count = buf.len().min(bytes.len() - at);
    buf[..count].copy_from_slice(&bytes[at..at + count]);
    count
}

/// A sink that never fails: its count of faults is the constant 0.
#[derive(Drop)]
pub struct SureSink {
    taken: Vec<u8>,
}

impl SureSink {
    ghost use Rattle.shell_lang.specs.SureEnds.{sink_state};

    /// A sink that has taken nothing yet.
    pub fn new(alloc: Global) -> SureSink
        ensures taken { (sink_state result).taken ≡ [] }
    {
        SureSink {
            taken: Vec::new(alloc),
        }
    }

    /// What was taken.
    pub fn bytes(&self) -> &[u8]
        ensures { result.now ≡ (sink_state self.now).taken }
    {
        self.taken.as_slice()
    }
}

impl Sink for SureSink {
    ghost use Rattle.shell_lang.specs.SureEnds.{sink_state};

    ghost state = { sink_state };

    fn write(&mut self, bytes: &[u8]) -> Result<usize, SinkFault> {
        match self.taken.extend_from_slice(bytes) {
            Ok(()) => Ok(bytes.len()),
            Err(_) => Err(SinkFault::Memory),
        }
    }
}
