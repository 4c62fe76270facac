//! The command lines of a load: a sequence of lines that a key determines, the same at each run.
//!
//! Each line but the first puts, gets or deletes one of 5000 rows, by a number mixed from the key and the
//! place of the line.
#![tactic(auto)]

ghost use Rattle.std.specs.Prelude.{◌≡◌, ◌≤◌, IfOk, string_bytes};
ghost use Rattle.load_gen.specs.Line.{hash_of, put_line, row_line, line_of};

use std::alloc::{AllocError, Global};

/// What the key is multiplied with. It and `STEP` are the constants of Knuth's generator MMIX.
const FACTOR: u64 = 6_364_136_223_846_793_005;

/// What the place of a line is multiplied with.
const STEP: u64 = 1_442_695_040_888_963_407;

/// How many rows the lines are about.
const ROWS: u64 = 5000;

/// A text has fewer letters than this.
const LETTERS: u64 = 200;

/// The line at a place of the sequence of a key. Places count from 1.
pub fn line(alloc: Global, key: u64, k: u64) -> Result<String, AllocError>
    requires { 1 ≤ k }
    ensures { IfOk result (λ text. string_bytes text ≡ line_of key k) }
{
    if k == 1 {
        return String::from_str(alloc, "create t a b");
    }
    row_line(alloc, hash(key, k), k)
}

/// The number that a line is made from: the high 31 bits of a mix of the key and the place.
fn hash(key: u64, k: u64) -> u64
    ensures { result ≡ hash_of key k }
{
    key.wrapping_mul(FACTOR).wrapping_add(k.wrapping_mul(STEP)) >> 33
}

/// The line about one row that this number stands for.
fn row_line(alloc: Global, hash: u64, k: u64) -> Result<String, AllocError>
    ensures { IfOk result (λ text. string_bytes text ≡ row_line hash k) }
{
    let rowid = hash / 10 % ROWS;
    match hash % 10 {
        0..=6 => put_line(alloc, rowid, k, hash % LETTERS),
        7 | 8 => format!(in alloc; "get t {rowid}"),
        _ => format!(in alloc; "del t {rowid}"),
    }
}

/// The line that puts a row: the place of the line, and a text of so many letters `n`.
fn put_line(alloc: Global, rowid: u64, k: u64, letters: u64) -> Result<String, AllocError>
    ensures { IfOk result (λ text. string_bytes text ≡ put_line rowid k letters) }
{
    let mut text = format!(in alloc; "put t {rowid} i:{k} t:")?;
    for _ in 0..letters {
        text.push('n')?;
    }
    Ok(text)
}

#[cfg(test)]
mod tests {
    use super::*;
    use std::test::Fail;

    /// The lines that `bench/load_lines.py table` computes.
    #[test]
    fn lines_are_those_computed_elsewhere(rt: HostRuntime) -> Result<(), Fail> {
        let lines: [(u64, u64, &str); 41] = [
            (0, 1, "create t a b"),
            (18446744073709551615, 1, "create t a b"),
            (0, 2, "put t 361 i:2 t:nnnnnnnnnnnnnn"),
            (0, 4, "del t 722"),
            (0, 5, "get t 903"),
            (1, 18446744073709551615, "del t 3115"),
            (1, 65535, "get t 4037"),
            (1, 5, "put t 4200 i:5 t:nnnn"),
            (2, 2, "get t 1954"),
            (2, 16, "put t 1120 i:16 t:nnnnn"),
            (2, 19, "del t 3297"),
            (3, 1000000000, "put t 3701 i:1000000000 t:nnnnnnnnnnnnnnnn"),
            (3, 5, "del t 2428"),
            (3, 14, "get t 690"),
            (7, 1000, "del t 4640"),
            (7, 999, "put t 4460 i:999 t:nn"),
            (7, 5, "get t 2250"),
            (42, 3, "del t 1894"),
            (42, 4, "get t 2075"),
            (42, 17, "put t 1060 i:17 t:nnnnnn"),
            (1000, 4, "del t 1531"),
            (1000, 13, "get t 4793"),
            (1000, 999, "put t 3922 i:999 t:nnnnnnnnnnnnnnnnnnnnn"),
            (2147483648, 2, "get t 1189"),
            (2147483648, 19, "del t 2532"),
            (
                2147483648,
                1000,
                "put t 4122 i:1000 t:nnnnnnnnnnnnnnnnnnnnnn",
            ),
            (4294967295, 5, "del t 898"),
            (4294967295, 7, "put t 1260 i:7 t:nnnn"),
            (4294967295, 14, "get t 4160"),
            (4294967296, 4, "get t 4014"),
            (4294967296, 18, "put t 3180 i:18 t:nnnnn"),
            (9223372036854775807, 18446744073709551615, "del t 704"),
            (9223372036854775807, 65536, "get t 1807"),
            (9223372036854775808, 2, "get t 4543"),
            (
                9223372036854775808,
                8,
                "put t 2263 i:8 t:nnnnnnnnnnnnnnnnnnnnnnnnnnnnnnnnnnn",
            ),
            (9223372036854775808, 18446744073709551614, "del t 3820"),
            (18446744073709551614, 2, "del t 2132"),
            (18446744073709551614, 3, "get t 2313"),
            (18446744073709551614, 18, "put t 1660 i:18 t:n"),
            (18446744073709551615, 9223372036854775808, "get t 885"),
            (
                18446744073709551615,
                1000,
                "put t 3362 i:1000 t:nnnnnnnnnnnnnnnnnnnn",
            ),
        ];
        for (key, k, expected) in lines {
            assert!(rt; k >= 1, "places count from 1");
            let text = line(rt.alloc(), key, k)?;
            assert!(rt; text.as_str() == expected, "{text} at {k} of {key}");
        }
        Ok(())
    }
}
