//! The one form of a command: `put R t:TEXT`.

ghost use Rattle.std.specs.Prelude.{◌≡◌, ◌≢◌, ℕ, ℤ, List, [], ◌∷◌, ◌++◌, FitsSigned, MatchOption};
ghost use Rattle.std.specs.List.{AllByRecursion, list_all};
ghost use Rattle.std.specs.Fmt.{signed_decimal};
ghost use Rattle.std.specs.Int.{w64};
ghost use Rattle.shell_top.specs.Line.{is_text_byte, IsTextValue, IsPut, IsBad};

use itoa::Buffer;
use std::str;

/// The rowid and the text of a `put`, or `None` where the line is none.
pub fn read_put(line: &[u8]) -> Option<(i64, &[u8])>
    ensures { MatchOption result (IsBad line.now) (λ put. IsPut line.now put.0 put.1.now) }
{
    let Some(words) = after(line, b"put ") else {
        return None;
    };
    let Some((number, value)) = split_at_blank(words) else {
        return None;
    };
    let Some(rowid) = read_number(number) else {
        return None;
    };
    let Some(text) = read_text(value) else {
        return None;
    };
    Some((rowid, text))
}

/// What stands behind these bytes at the front, or `None` where others stand there.
fn after<'a>(text: &'a [u8], front: &[u8]) -> Option<&'a [u8]>
    ensures { MatchOption result ((rest : List ℕ) → text.now ≢ front.now ++ rest) (λ rest. text.now ≡ front.now ++ rest.now) }
{
    text.strip_prefix(front)
}

/// The text of a value `t:TEXT`, or `None` where the value is none.
fn read_text(value: &[u8]) -> Option<&[u8]>
    ensures { MatchOption result ((text : List ℕ) → ¬ (IsTextValue value.now text)) (λ text. IsTextValue value.now text.now) }
{
    let Some(text) = after(value, b"t:") else {
        return None;
    };
    if has_text_bytes(text) {
        Some(text)
    } else {
        None
    }
}

/// Whether a text may have all these bytes.
fn has_text_bytes(text: &[u8]) -> bool
    ensures { result ≡ list_all is_text_byte text.now }
{
    text.iter().all(|b| is_text_byte(*b))
}

/// Whether a text may have this byte.
fn is_text_byte(b: u8) -> bool
    ensures { result ≡ is_text_byte b }
{
    b.is_ascii_alphanumeric() || b == b'-' || b == b'.' || b == b'_' || b == b'~'
}

/// What stands before the first blank, and what stands behind it.
fn split_at_blank(words: &[u8]) -> Option<(&[u8], &[u8])>
    ensures { MatchOption result (AllByRecursion (λ b. b ≢ 32) words.now)
        (λ parts. (words.now ≡ parts.0.now ++ 32 ∷ parts.1.now) × AllByRecursion (λ b. b ≢ 32) parts.0.now) }
{
    for (place, b) in words.iter().enumerate() {
        if *b == b' ' {
            return Some((&words[..place], &words[place + 1..]));
        }
    }
    None
}

/// The signed 64-bit number that is written so, or `None` where none is: no plus sign, no needless zeros.
fn read_number(number: &[u8]) -> Option<i64>
    ensures { MatchOption result ((z : ℤ) → FitsSigned w64 z → number.now ≢ signed_decimal z) (λ z. number.now ≡ signed_decimal z) }
{
    let Ok(text) = str::from_utf8(number) else {
        return None;
    };
    let Ok(rowid) = text.parse::<i64>() else {
        return None;
    };
    let mut buffer = Buffer::new();
    if buffer.format(rowid).as_bytes() == number {
        Some(rowid)
    } else {
        None
    }
}
