//! How many bytes a record takes.

ghost use Rattle.std.specs.Prelude.{◌≡◌, ◌+◌, ◌*◌, IfOk, length};
ghost use Rattle.std.specs.List.{sum_by};
ghost use Rattle.db_format.specs.Writing.{written_type, written_content, int_content};
ghost use Rattle.book_model.specs.Size.{varint_size, types_size, header_size, record_size};

use db_format::Value;
use std::alloc::AllocError;

/// How many bytes the record of these values takes. `AllocError` from 2^64 bytes on, which no memory holds.
#[tactic(auto, unfolding(book_model::specs::Size::record_size))]
pub fn record_size(values: &[Value]) -> Result<u64, AllocError>
    ensures { IfOk result (λ size. size ≡ record_size values.now) }
{
    let header = header_size(types_size(values)?)?;
    let size = sum(header, contents_size(values)?)?;
    Ok(size)
}

/// The bytes of the serial types of some values.
fn types_size(values: &[Value]) -> Result<u64, AllocError>
    ensures { IfOk result (λ size. size ≡ types_size values.now) }
{
    match values {
        [] => Ok(0),
        [first, more @ ..] => sum(type_size(first)?, types_size(more)?),
    }
}

/// The bytes of the contents of some values.
fn contents_size(values: &[Value]) -> Result<u64, AllocError>
    ensures { IfOk result (λ size. size ≡ sum_by (λ value. length (written_content value)) values.now) }
{
    match values {
        [] => Ok(0),
        [first, more @ ..] => sum(content_size(first), contents_size(more)?),
    }
}

/// The bytes of a header, which counts itself too, where the serial types take so many.
fn header_size(types: u64) -> Result<u64, AllocError>
    ensures { IfOk result (λ size. size ≡ header_size types) }
{
    let most = sum(types, 3)?;
    if types + 1 < 1 << 7 {
        Ok(types + 1)
    } else if types + 2 < 1 << 14 {
        Ok(types + 2)
    } else {
        Ok(most)
    }
}

/// The bytes of the serial type of a value.
fn type_size(value: &Value) -> Result<u64, AllocError>
    ensures { IfOk result (λ size. size ≡ varint_size (written_type value.now)) }
{
    match value {
        Value::Null => Ok(1),
        Value::Int(_) => Ok(1),
        Value::Text(bytes) => long_type_size(13, bytes.as_slice().len() as u64),
        Value::Blob(bytes) => long_type_size(12, bytes.as_slice().len() as u64),
        Value::Real(_) => Ok(1),
    }
}

/// The bytes of the serial type of so many bytes, where none has this serial type.
fn long_type_size(none: u64, len: u64) -> Result<u64, AllocError>
    ensures { IfOk result (λ size. size ≡ varint_size (none + 2 * len)) }
{
    let twice = sum(len, len)?;
    Ok(varint_size(sum(none, twice)?))
}

/// The bytes of the shortest varint of a number.
fn varint_size(number: u64) -> u64
    ensures { result ≡ varint_size number }
{
    if number < 1 << 7 {
        1
    } else if number < 1 << 14 {
        2
    } else if number < 1 << 21 {
        3
    } else if number < 1 << 28 {
        4
    } else if number < 1 << 35 {
        5
    } else if number < 1 << 42 {
        6
    } else if number < 1 << 49 {
        7
    } else if number < 1 << 56 {
        8
    } else {
        9
    }
}

/// The bytes of the content of a value.
fn content_size(value: &Value) -> u64
    ensures { result ≡ length (written_content value.now) }
{
    match value {
        Value::Null => 0,
        Value::Int(number) => int_size(*number),
        Value::Text(bytes) => bytes.as_slice().len() as u64,
        Value::Blob(bytes) => bytes.as_slice().len() as u64,
        Value::Real(_) => 8,
    }
}

/// The bytes of an integer: none for 0 and 1, else the fewest of those that serial types have.
fn int_size(number: i64) -> u64
    ensures { result ≡ length (int_content number) }
{
    match number {
        0 => 0,
        1 => 0,
        -0x80..=0x7f => 1,
        -0x8000..=0x7fff => 2,
        -0x80_0000..=0x7f_ffff => 3,
        -0x8000_0000..=0x7fff_ffff => 4,
        -0x8000_0000_0000..=0x7fff_ffff_ffff => 6,
        _ => 8,
    }
}

/// The sum, where it is below 2^64.
fn sum(one: u64, other: u64) -> Result<u64, AllocError>
    ensures { IfOk result (λ both. both ≡ one + other) }
{
    match one.checked_add(other) {
        Some(both) => Ok(both),
        None => Err(AllocError),
    }
}
