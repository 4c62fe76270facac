//! Laws of journals.

ghost use Rattle.journal_format.specs.Laws.{ClosedIsCold, ShortIsCold, PagesCover, SameLaid, ReadBack, Asked, FewRecords, OnePlayed};

/// The first byte alone closes a journal.
pub fn closed_is_cold()
    ensures { ClosedIsCold }
{}

/// What is shorter than a header is not hot.
pub fn short_is_cold()
    ensures { ShortIsCold }
{}

/// A place of a page that is among the pages has a byte there.
pub fn pages_cover()
    ensures { PagesCover }
{}

/// Pages that a file has already change nothing of it.
pub fn same_laid()
    ensures { SameLaid }
{}

/// A journal that was written is read back.
pub fn read_back()
    ensures { ReadBack }
{}

/// A journal is read without knowing which super-journals exist, and then the one that it names is asked for.
pub fn asked()
    ensures { Asked }
{}

/// A plan has few records, and its journal is short.
pub fn few_records()
    ensures { FewRecords }
{}

/// A file has one content with a journal undone.
pub fn one_played()
    ensures { OnePlayed }
{}
