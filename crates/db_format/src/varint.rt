//! Varints: numbers of 64 bits in one to nine bytes.
//!
//! After sqlite.org, "Database File Format", section 1.6. Every spelling of a number is read, also those
//! that begin with zeros; the shortest is written.

ghost use Rattle.std.specs.Prelude.{◌≡◌, ℕ, ◌+◌, ◌*◌, ◌^◌, ◌%◌, ◌-◌, ◌≤◌, ◌<◌, ◌↔◌, length, take, drop, IsNone, IfSome, IfNone};
ghost use Rattle.std.specs.List.{AllByRecursion};
ghost use Rattle.std.specs.Int.{w64, cast_unsigned};
ghost use Rattle.db_format.specs.Varint.{Continues, sevens, IsVarint, IsSize, IsShortest, ReadsAgain, EndsInside, NoVarint, OneVarint, OneSpelling};

/// The most bytes that a varint has.
pub(crate) const VARINT_LEN: usize = 9;

/// Reads the number at the front, and how many bytes it takes. Bytes may follow it. `None` where the
/// bytes end inside the number.
pub fn read_varint(bytes: &[u8]) -> Option<(i64, usize)>
    ensures within { IfSome result (λ found. found.1 ≤ length bytes.now) }
    ensures found { IfSome result (λ found. IsVarint (take found.1 bytes.now) found.0) }
    ensures ends { IsNone result ↔ EndsInside bytes.now }
    ensures none { IfNone result (NoVarint bytes.now) }
{
    let front = &bytes[..bytes.len().min(VARINT_LEN - 1)];
    let mut bits = 0;
    for (at, byte) in front.iter().enumerate() {
        bits = with_seven(bits, *byte);
        if *byte < 0x80 {
            return Some((bits.cast_signed(), at + 1));
        }
    }
    let last = bytes.get(VARINT_LEN - 1)?;
    let bits = bits << 8 | u64::from(*last);
    Some((bits.cast_signed(), VARINT_LEN))
}

/// The number with the low seven bits of a byte behind it.
fn with_seven(number: u64, byte: u8) -> u64
    requires { number < 2 ^ 57 }
    ensures { result ≡ 128 * number + byte % 128 }
{
    number << 7 | u64::from(byte & 0x7f)
}

/// Writes the shortest spelling of a number, and answers how many bytes it takes.
pub fn put_varint(value: i64, into: &mut [u8; 9]) -> usize
    ensures size { IsSize (cast_unsigned w64 value) result }
    ensures spelled { IsVarint (take result into.new) value }
    ensures again { ReadsAgain (take result into.new) value }
    ensures shortest { IsShortest (take result into.new) value }
    ensures rest { drop result into.new ≡ drop result into.old }
{
    let bits = value.cast_unsigned();
    let len = varint_len(bits);
    let front = &mut into[..len - 1];
    if len < VARINT_LEN {
        put_sevens(bits >> 7, front);
        into[len - 1] = (bits & 0x7f) as u8;
    } else {
        put_sevens(bits >> 8, front);
        into[len - 1] = (bits & 0xff) as u8;
    }
    len
}

/// How many bytes the shortest spelling of these bits has.
fn varint_len(bits: u64) -> usize
    ensures { IsSize bits result }
{
    for len in 1..VARINT_LEN {
        if bits >> (7 * len) == 0 {
            return len;
        }
    }
    VARINT_LEN
}

/// Fills the bytes with the low seven bits of each place of a number, and says that another byte
/// follows each.
fn put_sevens(bits: u64, bytes: &mut [u8])
    requires { bits < 128 ^ length bytes.old }
    ensures continues { AllByRecursion Continues bytes.new }
    ensures number { sevens bytes.new ≡ bits }
{
    let mut rest = bits;
    for at in (0..bytes.len()).rev() {
        bytes[at] = 0x80 | (rest & 0x7f) as u8;
        rest >>= 7;
    }
}

/// No spelling of a number begins another, so what was written is read again as the same number,
/// whatever follows it.
pub fn one_varint()
    ensures { OneVarint }
{}

/// Of each length a number has one spelling at most, so what is written follows from the number.
pub fn one_spelling()
    ensures { OneSpelling }
{}
