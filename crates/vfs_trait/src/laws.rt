//! What follows from the clauses of the trait, as laws that callers may call.

ghost use Rattle.vfs_trait.specs.Free.{SeparateIsFree};
ghost use Rattle.vfs_trait.specs.Laws.{SteadyTwice, RestsTwice, FilesTwice, RingsTwice, RoseInTwo, CheckedOnce, NoneWild, NeverWild};

use vfs_model::{Kind, looser_twice, separate_apart};

/// A short name that is separate from every open one is free, under any layers.
pub fn separate_is_free()
    ensures { SeparateIsFree }
{
    separate_apart();
}

/// What two calls one after the other keep of a stack, its files and its rings.
pub fn kept_twice()
    ensures steady { SteadyTwice }
    ensures rests { RestsTwice }
    ensures files { FilesTwice }
    ensures rings { RingsTwice }
{
    looser_twice();
}

/// Where the count of faults rose in one of two calls, it rose.
pub fn rose_in_two()
    ensures { RoseInTwo }
{}

/// A permitted stack has at most one checksum layer.
pub fn checked_once()
    ensures { CheckedOnce }
{}

/// Where no layer makes files of its kind wild, a file is not wild.
pub fn none_wild()
    ensures { NoneWild }
{}

/// In no stack is a journal or a super-journal wild.
pub fn never_wild()
    ensures journals { NeverWild Kind.Journal }
    ensures super_journals { NeverWild Kind.Super }
{}
