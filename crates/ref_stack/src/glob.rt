//! Glob patterns, tried at every place.

ghost use Rattle.std.specs.Prelude.{◌≡◌, ◌≤◌, ◌<◌, ◌&&◌, length, get_or, true, false, nat_eq, nat_le, [], IfSome, IfNone};
ghost use Rattle.vfs_model.specs.Glob.{matches, some_end, one_then, part_of, allows, in_list, parts_from, parts_match_if, First, Opened, OneOf};
ghost use Rattle.ref_stack.specs.Brackets.{ClosesAt, NeverCloses};

/// Whether a pattern matches a whole text.
#[cycle(glob)]
pub fn matches(pattern: &[u8], text: &[u8]) -> bool
    ensures { result ≡ matches pattern.now text.now }
{
    let Some((first, more)) = pattern.split_first() else {
        return is_end(text);
    };
    match *first {
        b'*' => some_end(more, text),
        b'[' => in_brackets(more, text),
        part => byte_then(part, more, text),
    }
}

/// Whether the empty pattern matches a text.
#[tactic(auto, using(crate::proofs::GlobLemmas::end_matches))]
fn is_end(text: &[u8]) -> bool
    ensures { result ≡ matches [] text.now }
{
    text.len() == 0
}

/// Whether a pattern matches some end of a text.
#[cycle(glob)]
fn some_end(pattern: &[u8], text: &[u8]) -> bool
    ensures { result ≡ some_end (matches pattern.now) text.now }
{
    if matches(pattern, text) {
        return true;
    }
    match text {
        [] => false,
        [_, rest @ ..] => some_end(pattern, rest),
    }
}

/// Whether a part of one byte and the pattern behind it match a text.
#[cycle(glob)]
fn byte_then(part: u8, pattern: &[u8], text: &[u8]) -> bool
    ensures { result ≡ one_then (part_of part) (matches pattern.now) text.now }
{
    match text {
        [] => false,
        [b, rest @ ..] => allows(part, *b) && matches(pattern, rest),
    }
}

/// Whether what stands behind an opening bracket matches a text.
#[cycle(glob)]
fn in_brackets(pattern: &[u8], text: &[u8]) -> bool
    ensures { result ≡ parts_match_if (parts_from Opened pattern.now) text.now }
{
    let Some((first, list)) = pattern.split_first() else {
        return false;
    };
    if *first == b'^' {
        list_then(true, list, text)
    } else {
        list_then(false, pattern, text)
    }
}

/// Whether a list, whose bytes are those allowed or those that are not, and the pattern behind it match a text.
#[cycle(glob)]
fn list_then(but: bool, pattern: &[u8], text: &[u8]) -> bool
    ensures { result ≡ parts_match_if (parts_from (First but) pattern.now) text.now }
{
    let Some(end) = end_of_list(pattern) else {
        return false;
    };
    listed_then(but, &pattern[..end], &pattern[end + 1..], text)
}

/// Whether a byte that a list allows and the pattern behind it match a text.
#[cycle(glob)]
fn listed_then(but: bool, list: &[u8], pattern: &[u8], text: &[u8]) -> bool
    ensures { result ≡ one_then (OneOf but list.now) (matches pattern.now) text.now }
{
    match text {
        [] => false,
        [b, rest @ ..] => is_allowed(but, list, *b) && matches(pattern, rest),
    }
}

/// Where the bracket stands that closes a list, whose first byte is in it whatever it is.
#[tactic(auto, using(crate::proofs::GlobLemmas::reads_first, crate::proofs::GlobLemmas::reads_on, crate::proofs::GlobLemmas::reads_end, crate::proofs::GlobLemmas::reads_none))]
fn end_of_list(pattern: &[u8]) -> Option<usize>
    ensures within { IfSome result (λ end. end < length pattern.now) }
    ensures some { IfSome result (ClosesAt pattern.now) }
    ensures none { IfNone result (NeverCloses pattern.now) }
{
    for place in 1..pattern.len() {
        if pattern[place] == b']' {
            return Some(place);
        }
    }
    None
}

/// Whether a part of one byte allows a byte.
fn allows(part: u8, b: u8) -> bool
    ensures { result ≡ allows (part_of part) b }
{
    match part {
        b'*' | b'?' => true,
        b'/' => b == b'/' || b == b'\\',
        _ => part == b,
    }
}

/// Whether a list allows a byte: one that it has, or one that it has not.
fn is_allowed(but: bool, list: &[u8], b: u8) -> bool
    ensures { result ≡ allows (OneOf but list.now) b }
{
    if but {
        !in_list(list, b)
    } else {
        in_list(list, b)
    }
}

/// Whether a byte stands in a list.
#[tactic(auto, using(crate::proofs::GlobLemmas::none_in, crate::proofs::GlobLemmas::range_in, crate::proofs::GlobLemmas::other_in))]
fn in_list(list: &[u8], b: u8) -> bool
    ensures { result ≡ in_list list.now b }
{
    if list.is_empty() {
        return false;
    }
    if is_range(list) {
        return is_between(list[0], list[2], b) || in_list(&list[3..], b);
    }
    is_same(list[0], b) || in_list(&list[1..], b)
}

/// Whether a list begins with a range.
fn is_range(list: &[u8]) -> bool
    ensures yes { result ≡ true → (3 ≤ length list.now) × (get_or list.now 1 0 ≡ 45) }
    ensures no { result ≡ false → 3 ≤ length list.now → nat_eq (get_or list.now 1 0) 45 ≡ false }
{
    list.len() >= 3 && list[1] == b'-'
}

/// Whether a byte lies in a range.
fn is_between(low: u8, high: u8, b: u8) -> bool
    ensures { result ≡ (nat_le low b && nat_le b high) }
{
    low <= b && b <= high
}

/// Whether two bytes are the same.
fn is_same(a: u8, b: u8) -> bool
    ensures { result ≡ nat_eq a b }
{
    a == b
}
