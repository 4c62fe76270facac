//! The locks of one file: which level each of eight connections holds, and the rule by which a level is
//! granted or refused.
//!
//! After sqlite.org, "File Locking And Concurrency In SQLite Version 3", section 3.
#![tactic(auto)]

ghost use Rattle.lock_table.specs.Reached.{OneWriter, ExclusiveIsAlone, NoneRises};

mod table;

pub use table::{Busy, LockTable};

/// At most one connection holds Reserved or more, whichever calls were made.
pub fn one_writer()
    ensures { OneWriter }
{}

/// A connection that holds Exclusive is the only one that holds a lock.
pub fn exclusive_is_alone()
    ensures { ExclusiveIsAlone }
{}

/// Beside Pending and Exclusive nothing is granted, so the readers end and no new one comes.
pub fn none_rises()
    ensures { NoneRises }
{}
