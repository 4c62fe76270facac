//! Marks on the places of a page that a cell or a freeblock takes.

ghost use Rattle.std.specs.Prelude.{◌≡◌, ◌+◌, ◌≤◌, true, false, length};
ghost use Rattle.tree_page.specs.Page.{Extent};
ghost use Rattle.tree_page.specs.Steps.{IsClear, Marks};

/// Marks so many places, unless one of them is marked.
pub(crate) fn mark(marks: &mut [bool], place: usize, size: usize) -> bool
    requires { place + size ≤ length marks.old }
    ensures marked { result ≡ true → IsClear marks.old (record { place = place; size = size }) }
    ensures after { result ≡ true → Marks marks.old marks.new (record { place = place; size = size }) }
    ensures taken { result ≡ false → IsClear marks.old (record { place = place; size = size }) → ⊥ }
{
    let taken = &mut marks[place..place + size];
    if taken.contains(&true) {
        return false;
    }
    taken.fill(true);
    true
}
