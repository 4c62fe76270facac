//! Ends in memory that fail at the calls, and move only so much, as they are told to.

ghost use Rattle.std.specs.Prelude.{◌≡◌, ℕ, ◌≤◌, [], length, IfNone, OnSome};
ghost use Rattle.byte_base.specs.Count.{Rose};

use crate::ends::{ReadFailed, Sink, SinkFault, Source, move_from};
use byte_base::Bytes;
use std::alloc::Global;

/// The calls of an end, numbered from 1.
#[derive(Drop)]
pub(crate) struct Calls {
    /// The numbers of the calls that fail.
    fails: Vec<u64>,
    /// The most bytes that each call moves, the first call's first; a call behind the last has no bound.
    pieces: Vec<u64>,
    count: u64,
    faults: u64,
}

impl Calls {
    fn new(fails: Vec<u64>, pieces: Vec<u64>) -> Calls
        ensures { result.faults ≡ 0 }
    {
        Calls {
            fails,
            pieces,
            count: 0,
            faults: 0,
        }
    }

    /// Counts a call: the most bytes that it moves, or `None` where it fails.
    fn next(&mut self) -> Option<usize>
        ensures goes { OnSome result (self.new.faults ≡ self.old.faults) }
        ensures fails { IfNone result (Rose self.old.faults self.new.faults) }
        ensures counts { self.old.faults ≤ self.new.faults }
    {
        let place = self.count as usize;
        self.count = self.count.saturating_add(1);
        let number = self.count;
        if self.fails.iter().any(|fail| *fail == number) {
            self.fail();
            return None;
        }
        match self.pieces.get(place) {
            Some(piece) => Some(*piece as usize),
            None => Some(usize::MAX),
        }
    }

    /// Counts a failure. At the greatest count it stays.
    fn fail(&mut self)
        ensures rose { Rose self.old.faults self.new.faults }
        ensures counts { self.old.faults ≤ self.new.faults }
    {
        self.faults = self.faults.saturating_add(1);
    }
}

/// A source of given bytes whose calls fail as they are told to.
#[derive(Drop)]
pub struct ListSource {
    bytes: Bytes,
    at: usize,
    calls: Calls,
    ghost within: { at ≤ length bytes },
}

impl ListSource {
    ghost use Rattle.shell_lang.specs.ListEnds.{list_source};

    /// A source of these bytes. The calls with these numbers, from 1, fail and move nothing; the k-th call
    /// moves the k-th piece at most, and a piece 0 counts as 1, since a source that moves nothing has ended.
    pub fn new(bytes: Bytes, fails: Vec<u64>, pieces: Vec<u64>) -> ListSource
        ensures holds { (list_source result).holds ≡ bytes }
        ensures faults { (list_source result).faults ≡ 0 }
    {
        ListSource {
            bytes,
            at: 0,
            calls: Calls::new(fails, pieces),
        }
    }
}

impl Source for ListSource {
    ghost use Rattle.shell_lang.specs.ListEnds.{list_source};

    ghost state = { list_source };

    fn read(&mut self, buf: &mut [u8]) -> Result<usize, ReadFailed> {
        let Some(most) = self.calls.next() else {
            return Err(ReadFailed);
        };
        let len = buf.len().min(most.max(1));
        let count = move_from(self.bytes.as_slice(), self.at, &mut buf[..len]);
        self.at += count;
        Ok(count)
    }
}

/// A sink in memory whose calls fail as they are told to.
#[derive(Drop)]
pub struct ListSink {
    taken: Vec<u8>,
    calls: Calls,
}

impl ListSink {
    ghost use Rattle.shell_lang.specs.ListEnds.{list_sink};

    /// A sink that has taken nothing yet. The calls with these numbers, from 1, fail and take nothing; the
    /// k-th call takes the k-th piece at most, and a piece 0 is an answer 0, which counts as a failure.
    pub fn new(alloc: Global, fails: Vec<u64>, pieces: Vec<u64>) -> ListSink
        ensures taken { (list_sink result).taken ≡ [] }
        ensures faults { (list_sink result).faults ≡ 0 }
    {
        ListSink {
            taken: Vec::new(alloc),
            calls: Calls::new(fails, pieces),
        }
    }

    /// What was taken.
    pub fn bytes(&self) -> &[u8]
        ensures { result.now ≡ (list_sink self.now).taken }
    {
        self.taken.as_slice()
    }
}

impl Sink for ListSink {
    ghost use Rattle.shell_lang.specs.ListEnds.{list_sink};

    ghost state = { list_sink };

    fn write(&mut self, bytes: &[u8]) -> Result<usize, SinkFault> {
        let Some(most) = self.calls.next() else {
            return Err(SinkFault::Failed);
        };
        let count = bytes.len().min(most);
        if count == 0 {
            self.calls.fail();
            return Ok(0);
        }
        match self.taken.extend_from_slice(&bytes[..count]) {
            Ok(()) => Ok(count),
            Err(_) => Err(SinkFault::Memory),
        }
    }
}
