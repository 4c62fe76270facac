//! What is asked of the layers of a stack by themselves, and what they answer.

use byte_base::ByteLists;
use std::alloc::AllocError;
use std::marker::Model;

/// A question or an order to one layer. Layers of a kind are counted from 1 at the top.
#[derive(Clone, Copy, Debug)]
pub enum Control {
    /// The totals of the groups of a quota layer.
    Totals {
        /// The quota layer.
        layer: u32,
    },
    /// Another limit for a group of a quota layer.
    SetLimit {
        /// The quota layer.
        layer: u32,
        /// The group, from 1.
        group: u32,
        /// The most bytes that its files may have together; 0 for no limit.
        limit: u64,
    },
    /// The calls that a trace layer keeps, which it then forgets.
    TakeTrace {
        /// The trace layer.
        layer: u32,
    },
}

/// What a control was answered.
#[derive(Debug, Drop)]
pub enum Answer {
    /// There is no such layer or group.
    Unknown,
    /// The limit was set.
    Done,
    /// The totals of the groups, in order, each with its limit.
    Totals(TotalList),
    /// The calls.
    Trace(TraceList),
}

/// Totals of groups, each with its limit. Contracts see them as a list of pairs.
#[derive(Debug, Drop)]
pub struct TotalList {
    items: Vec<(u64, u64)>,
}

impl Model for TotalList {
    ghost use Rattle.std.specs.Prelude.{List, ℕ};

    ghost Value = { List (ℕ × ℕ) };

    ghost view = { λ t. t.items.items };
}

impl TotalList {
    ghost use Rattle.std.specs.Prelude.{◌≡◌, [], ◌∷◌, ◌++◌, OnOk, OnErr};

    /// The totals of a vector, without taking memory.
    pub fn from_vec(items: Vec<(u64, u64)>) -> TotalList
        ensures { result ≡ items.items }
    {
        TotalList { items }
    }

    /// The totals, without taking memory.
    pub fn as_slice(&self) -> &[(u64, u64)]
        ensures { result.now ≡ self.now }
    {
        self.items.as_slice()
    }

    /// Puts a total with its limit at the end. Without memory the list stays as it was.
    pub fn push(&mut self, item: (u64, u64)) -> Result<(), AllocError>
        ensures ok { OnOk result (self.new ≡ self.old ++ item ∷ []) }
        ensures err { OnErr result (self.new ≡ self.old) }
    {
        self.items.push(item)?;
        Ok(())
    }
}

/// The lines of the calls that were kept, the oldest first, each a text, and how many calls went out.
#[derive(Debug, Drop)]
pub struct TraceList {
    /// How many calls went out of the ring.
    pub dropped: u64,
    /// The lines.
    pub lines: ByteLists,
}
