//! Calls of a stack as a trace layer keeps them.

use crate::VfsFault;
use vfs_model::{Fid, Kind, Level, Name, Owner};

/// A call, with its arguments but the bytes.
#[derive(Clone, Copy, Debug)]
pub enum Call {
    /// `open`.
    Open {
        /// The name of the file.
        name: Name,
        /// Its kind.
        kind: Kind,
    },
    /// `exists`.
    Exists {
        /// The name of the file.
        name: Name,
    },
    /// `read`.
    Read {
        /// The file.
        fid: Fid,
        /// The place of the first byte.
        off: u64,
        /// How many bytes were asked for.
        len: u64,
    },
    /// `write`.
    Write {
        /// The file.
        fid: Fid,
        /// The place of the first byte.
        off: u64,
        /// How many bytes there were.
        len: u64,
    },
    /// `cut`.
    Cut {
        /// The file.
        fid: Fid,
        /// The length asked for.
        len: u64,
    },
    /// `sync`.
    Sync {
        /// The file.
        fid: Fid,
    },
    /// `length`.
    Length {
        /// The file.
        fid: Fid,
    },
    /// `delete`.
    Delete {
        /// The name of the file.
        name: Name,
        /// Its kind.
        kind: Kind,
    },
    /// `sync_names`.
    SyncNames,
    /// `lock`.
    Lock {
        /// The file.
        fid: Fid,
        /// The connection.
        owner: Owner,
        /// The level asked for.
        level: Level,
    },
    /// `unlock`.
    Unlock {
        /// The file.
        fid: Fid,
        /// The connection.
        owner: Owner,
        /// The level to fall to.
        level: Level,
    },
}

/// What a call was answered.
#[derive(Clone, Copy, Debug)]
pub enum Outcome {
    /// It was done.
    Ok,
    /// A file was opened by this number.
    Fid(Fid),
    /// The file is there.
    Yes,
    /// The file is not there.
    No,
    /// So many bytes were read.
    Bytes(u64),
    /// The file has this length.
    Len(u64),
    /// It was refused.
    Fault(VfsFault),
}

/// A call of a layer, its number from 1, and what it was answered.
#[derive(Clone, Copy, Debug)]
pub struct Entry {
    /// The number of the call, from 1.
    pub number: u64,
    /// The call.
    pub call: Call,
    /// What it was answered.
    pub result: Outcome,
}
