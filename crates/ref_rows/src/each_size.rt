//! Roots of each size that their numbers may have in a record.

ghost use Rattle.std.specs.Prelude.{◌≡◌};
ghost use Rattle.ref_rows.specs.Roots.{roots, RootsOfEachSize};

/// A root page of each size that the number of one may have in a record.
pub fn roots() -> [u64; 7]
    ensures { result ≡ roots }
{
    [0, 2, 1 << 7, 1 << 15, 1 << 23, 1 << 31, 1 << 47]
}

/// The row of the schema for a table is as large with one of these for its root as with any other.
pub fn roots_of_each_size()
    ensures { RootsOfEachSize }
{}
