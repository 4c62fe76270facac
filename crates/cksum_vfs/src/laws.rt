//! What follows from the definitions, as a law that callers may call.

ghost use Rattle.cksum_vfs.specs.Laws.{SettledAbove};

/// A file that is settled below is settled above a layer that is on: then it is not wild, and a stop leaves it as it is.
pub fn settled_above()
    ensures { SettledAbove }
{}
