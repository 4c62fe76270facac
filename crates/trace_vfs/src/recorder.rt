//! The last calls of a layer, in a ring whose room is taken once.

ghost use Rattle.std.specs.Prelude.{◌≡◌, ◌+◌, ◌-◌, [], ◌∷◌, ◌++◌, IfOk, OnErr, drop, length};
ghost use Rattle.vfs_trait.specs.Log.{with_call, emptied, entry_text};
ghost use Rattle.trace_vfs.specs.Traced.{fresh, Taken, TakenFrom, after_call, is_on};

use crate::texts::line_lists;
use circular_buffer::HeapCircularBuffer;
use std::alloc::{AllocError, Global};
use std::marker::Model;
use vfs_trait::{Answer, Call, Entry, Outcome, TraceList, VfsFault};

/// The last calls of a layer. Contracts see them as a ring.
#[derive(Drop)]
pub struct Recorder {
    alloc: Global,
    entries: HeapCircularBuffer<Entry>,
    dropped: u64,
    next: u64,
}

impl Model for Recorder {
    ghost use Rattle.vfs_trait.specs.Log.{Ring};

    ghost Value = { Ring };

    ghost view = { λ r. record { entries = r.entries.items; room = r.entries.capacity; dropped = r.dropped; next = r.next } };
}

impl Recorder {
    /// A recorder without calls, with room for this many.
    pub fn new(alloc: Global, room: usize) -> Result<Recorder, AllocError>
        ensures { IfOk result (λ recorder. recorder ≡ fresh room) }
    {
        Ok(Recorder {
            alloc,
            entries: HeapCircularBuffer::with_capacity(alloc, room)?,
            dropped: 0,
            next: 1,
        })
    }

    /// Keeps a call, and lets the oldest one go where there is no room. It takes no memory.
    pub fn record(&mut self, call: Call, outcome: Outcome)
        ensures { self.new ≡ with_call call outcome self.old }
    {
        // the check finds the fault in an outcome only where its type is named
        let _named: Option<VfsFault> = None;
        let entry = Entry {
            number: self.next,
            call,
            result: outcome,
        };
        let gone = push_out(&mut self.entries, entry);
        self.dropped = self.dropped.saturating_add(gone);
        self.next = self.next.saturating_add(1);
    }

    /// The lines of the calls and how many went out; it keeps none of them then. Without memory nothing changes.
    pub fn take(&mut self) -> Result<TraceList, AllocError>
        ensures ok { IfOk result (Taken self.old self.new) }
        ensures err { OnErr result (self.new ≡ self.old) }
    {
        let lines = line_lists(self.alloc, &self.entries)?;
        let dropped = self.dropped;
        self.entries.clear();
        self.dropped = 0;
        Ok(TraceList { dropped, lines })
    }
}

/// Puts an item at the end of a ring, and answers how many went out in front.
fn push_out<T: Drop>(entries: &mut HeapCircularBuffer<T>, item: T) -> u64
    ensures items { entries.new.items ≡ drop (length entries.old.items + 1 - entries.old.capacity) (entries.old.items ++ item ∷ []) }
    ensures capacity { entries.new.capacity ≡ entries.old.capacity }
    ensures gone { result ≡ length entries.old.items + 1 - entries.old.capacity }
{
    let is_full = entries.len() == entries.capacity();
    let _gone = entries.push_back(item);
    u64::from(is_full)
}

/// Keeps a call of a layer that is on.
pub fn note(kept: &mut Option<Recorder>, call: Call, outcome: Outcome)
    ensures kept { kept.new ≡ after_call call outcome kept.old }
    ensures on { is_on kept.new ≡ is_on kept.old }
{
    if let Some(recorder) = kept {
        recorder.record(call, outcome);
    }
}

/// The calls of a layer that is on.
pub fn taken(recorder: &mut Recorder) -> Result<Answer, VfsFault>
    ensures { TakenFrom recorder.old recorder.new result }
{
    match recorder.take() {
        Ok(list) => Ok(Answer::Trace(list)),
        Err(_) => Err(VfsFault::Memory),
    }
}
