//! Numbers of pages that stand in a list twice.

ghost use Rattle.std.specs.Prelude.{◌≡◌, ℕ, ◌≤◌, IfSome, IfNone};
ghost use Rattle.page_list.specs.Pages.{times, AllDifferent};
ghost use Rattle.ref_pages.specs.Different.{IsFirst};

/// The first number of the list that stands in it more than once, `None` where they are all different. It compares each
/// with all.
pub fn first_twice(numbers: &[u32]) -> Option<u32>
    ensures twice { IfSome result (λ number. 2 ≤ times number numbers.now) }
    ensures first { IfSome result (IsFirst numbers.now) }
    ensures none { IfNone result (AllDifferent numbers.now) }
{
    for number in numbers {
        if times(*number, numbers) > 1 {
            return Some(*number);
        }
    }
    None
}

/// How often a number stands in the list.
pub fn times(number: u32, numbers: &[u32]) -> usize
    ensures { result ≡ times number numbers.now }
{
    let mut count = 0;
    for other in numbers {
        if *other == number {
            count += 1;
        }
    }
    count
}
