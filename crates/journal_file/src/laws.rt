//! What follows from the steps, as laws that callers may call.

ghost use Rattle.journal_file.specs.Laws.{ShutIsCold, ColdStands, GateStands, KeptImage, KeptStands, KeptTwice, StaysKept, StoodTwice, StaysStood, PlayExit};

use journal_format::{closed_is_cold, short_is_cold};
use vfs_model::{now_is_image, older_images, settled_stays};

/// A journal that is shut is cold.
pub fn shut_is_cold()
    ensures { ShutIsCold }
{}

/// Under a cold journal a settled file stands for itself.
pub fn cold_stands()
    ensures { ColdStands }
{
    closed_is_cold();
    short_is_cold();
    settled_stays();
}

/// A journal whose first byte alone is unsettled: by its gate.
pub fn gate_stands()
    ensures { GateStands }
{
    closed_is_cold();
}

/// An undo done to a settled file gives the same done to each image of what was kept of it.
pub fn kept_image()
    ensures { KeptImage }
{}

/// Under a settled journal that is hot, each image of what was kept stands for what the settled file did.
pub fn kept_stands()
    ensures { KeptStands }
{
    settled_stays();
}

/// What is kept twice is kept.
pub fn kept_twice()
    ensures { KeptTwice }
{}

/// What is no looser is kept.
pub fn stays_kept()
    ensures { StaysKept }
{}

/// What has stood twice has stood.
pub fn stood_twice()
    ensures { StoodTwice }
{}

/// What a stop leaves of files that are no looser has stood.
pub fn stays_stood()
    ensures { StaysStood }
{
    older_images();
}

/// Under a settled journal that is hot and stays, each image of what was kept has stood.
pub fn play_exit()
    ensures { PlayExit }
{
    now_is_image();
    older_images();
    settled_stays();
}
