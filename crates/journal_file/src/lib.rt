//! The rollback journal as a file of a stack: made ready, written, opened and closed by its first byte, and played back.
//!
//! `gate` writes a journal and sets its first byte, `first_use` makes one ready, `playback` writes what a journal undoes, and
//! `rollback` reads a journal, plays it back and closes it. `recovery`, `commit` and `by_name`
//! are callers of these.
//!
//! After sqlite.org, "Atomic Commit In SQLite", and "Database File Format", section 3.
#![tactic(auto)]

mod by_name;
mod commit;
mod first_use;
mod gate;
mod laws;
mod playback;
mod recovery;
mod rollback;

pub use by_name::commit_named;
pub use commit::commit_pages;
pub use first_use::prepare;
pub use gate::{close_gate, open_gate, write_journal};
pub use laws::{
    cold_stands, gate_stands, kept_image, kept_stands, kept_twice, play_exit, shut_is_cold,
    stays_kept, stays_stood, stood_twice,
};
pub use playback::play;
pub use recovery::recover;
pub use rollback::rollback_from;
