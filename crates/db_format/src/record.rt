//! Records: the values of a row as the bytes of its payload.
//!
//! After sqlite.org, "Database File Format", section 2.1. Bytes after the last value, and the serial types
//! 10 and 11, which no file has, make a payload no record. Texts are not checked against an encoding.

ghost use Rattle.std.specs.Prelude.{◌≡◌, ℕ, ◌+◌, ◌≤◌, ◌<◌, ◌++◌, pos, List, [], length, take, Option, Some, IfOk, OnOk, IfSome, IfNone, IsErrOf, ◌*◌, ◌^◌};
ghost use Rattle.std.specs.List.{flat_map};
ghost use Rattle.db_format.specs.declared.value.Value.{Value};
ghost use Rattle.db_format.specs.Varint.{IsVarint};
ghost use Rattle.db_format.specs.Record.{content_size, value_of, Stands, Field, IsField, AreFields, HasParts, IsRecord, ReadsAgain, IsShortest, OneRecord};
ghost use Rattle.db_format.specs.Reading.{NoCount, Begins, NoValue};
ghost use Rattle.db_format.specs.Writing.{int_type, int_content, written_content, IsWrittenType, AppendsVarint, AreTypes, IsHeaderSize};

use crate::fault::FormatFault;
use crate::value::{Record, Value};
use crate::varint::{VARINT_LEN, put_varint, read_varint};
use byte_base::Bytes;
use byteorder::{BigEndian, ByteOrder};
use std::alloc::{AllocError, Global};

/// No memory holds so many bytes, so what is this long is refused as for want of memory.
const TOO_LONG: usize = 1 << 61;

/// The record that a payload is. `Corrupt` exactly where it is none.
pub fn read_record(alloc: Global, payload: &[u8]) -> Result<Record, FormatFault>
    ensures found { IfOk result (λ values. IsRecord payload.now values) }
    ensures corrupt { IsErrOf result FormatFault.Corrupt → (values : List Value) → ¬ (IsRecord payload.now values) }
{
    let Some((types, contents)) = parts(payload) else {
        return Err(FormatFault::Corrupt);
    };
    read_values(alloc, types, contents)
}

/// The serial types of a payload, and its contents. `None` where its header is malformed.
fn parts(payload: &[u8]) -> Option<(&[u8], &[u8])>
    ensures found { IfSome result (λ found. HasParts payload.now found.0.now found.1.now) }
    ensures none { IfNone result ((types contents : List ℕ) → ¬ (HasParts payload.now types contents)) }
{
    let (size, len) = read_count(payload)?;
    if size < len || payload.len() < size {
        return None;
    }
    let (header, contents) = payload.split_at(size);
    Some((&header[len..], contents))
}

/// The varint at the front where it is not negative, and how many bytes it takes.
fn read_count(bytes: &[u8]) -> Option<(usize, usize)>
    ensures within { IfSome result (λ found. found.1 ≤ length bytes.now) }
    ensures found { IfSome result (λ found. IsVarint (take found.1 bytes.now) (pos found.0)) }
    ensures none { IfNone result (NoCount bytes.now) }
{
    let (value, len) = read_varint(bytes)?;
    let number = usize::try_from(value).ok()?;
    Some((number, len))
}

/// The values that serial types and contents stand for, one after the other.
fn read_values(alloc: Global, types: &[u8], contents: &[u8]) -> Result<Record, FormatFault>
    ensures found { IfOk result (λ values. AreFields types.now contents.now values) }
    ensures corrupt { IsErrOf result FormatFault.Corrupt → (values : List Value) → ¬ (AreFields types.now contents.now values) }
{
    let mut values = Vec::new(alloc);
    let mut types_left = types;
    let mut contents_left = contents;
    while !types_left.is_empty() {
        let Some(first) = first_part(types_left, contents_left) else {
            return Err(FormatFault::Corrupt);
        };
        values.push(value_of(alloc, first.serial, first.content)?)?;
        types_left = first.more_types;
        contents_left = first.more_contents;
    }
    if !contents_left.is_empty() {
        return Err(FormatFault::Corrupt);
    }
    Ok(Record::from_vec(values))
}

/// The first value of a record, as it is spelled, and what stands behind it.
#[derive(Clone, Copy)]
struct Part<'a> {
    serial: usize,
    content: &'a [u8],
    more_types: &'a [u8],
    more_contents: &'a [u8],
}

/// The first of the values that serial types and contents spell, or `None` where they begin with none.
fn first_part<'a>(types: &'a [u8], contents: &'a [u8]) -> Option<Part<'a>>
    ensures found { IfSome result (λ p. Begins types.now contents.now p.serial p.content.now p.more_types.now p.more_contents.now) }
    ensures none { IfNone result (NoValue types.now contents.now) }
{
    let (serial, len) = read_count(types)?;
    let size = content_size(serial)?;
    if contents.len() < size {
        return None;
    }
    let (content, more_contents) = contents.split_at(size);
    Some(Part {
        serial,
        content,
        more_types: &types[len..],
        more_contents,
    })
}

/// The shortest payload that is a record of the values. `AllocError` also where a text, a blob or the
/// header would have 2^61 bytes or more, which no memory holds.
pub fn write_record(alloc: Global, values: &[Value]) -> Result<Bytes, AllocError>
    ensures is_record { IfOk result (λ payload. IsRecord payload values.now) }
    ensures again { IfOk result (λ payload. ReadsAgain payload values.now) }
    ensures shortest { IfOk result (λ payload. IsShortest payload values.now) }
{
    let types = serial_types(alloc, values)?;
    if types.len() >= TOO_LONG {
        return Err(AllocError);
    }
    let mut payload = Vec::new(alloc);
    push_varint(&mut payload, header_size(types.len()))?;
    payload.extend_from_slice(&types)?;
    push_contents(&mut payload, values)?;
    Ok(Bytes::from_vec(payload))
}

/// The varints of the serial types of the values.
fn serial_types(alloc: Global, values: &[Value]) -> Result<Vec<u8>, AllocError>
    ensures { IfOk result (λ types. AreTypes types.items values.now) }
{
    let mut types = Vec::new(alloc);
    for value in values {
        push_varint(&mut types, serial_type(value)?)?;
    }
    Ok(types)
}

/// Puts the contents of the values at the end.
fn push_contents(out: &mut Vec<u8>, values: &[Value]) -> Result<(), AllocError>
    ensures { OnOk result (out.new.items ≡ out.old.items ++ flat_map written_content values.now) }
{
    for value in values {
        push_content(out, value)?;
    }
    Ok(())
}

/// Puts the shortest varint of a number at the end.
fn push_varint(out: &mut Vec<u8>, number: usize) -> Result<(), AllocError>
    requires { number < 2 ^ 63 }
    ensures { OnOk result (AppendsVarint out.old.items out.new.items number) }
{
    let mut bytes = [0; VARINT_LEN];
    let len = put_varint(number as i64, &mut bytes);
    out.extend_from_slice(&bytes[..len])?;
    Ok(())
}

/// The size of a header with so many bytes of serial types, which counts its own varint.
fn header_size(types: usize) -> usize
    requires { types < 2 ^ 61 }
    ensures { IsHeaderSize types result }
{
    for len in 1..VARINT_LEN {
        if (len + types) >> (7 * len) == 0 {
            return len + types;
        }
    }
    VARINT_LEN + types
}

/// The serial type that a value is written with.
fn serial_type(value: &Value) -> Result<usize, AllocError>
    ensures { IfOk result (λ serial. IsWrittenType value.now serial) }
{
    Ok(match value {
        Value::Null => 0,
        Value::Int(number) => int_type(*number),
        Value::Text(bytes) => 13 + twice(bytes.as_slice().len())?,
        Value::Blob(bytes) => 12 + twice(bytes.as_slice().len())?,
        Value::Real(bits) => {
            // Read, since the contract needs the range of the number.
            let _bits = *bits;
            7
        }
    })
}

/// Twice a length that memory can have.
fn twice(len: usize) -> Result<usize, AllocError>
    ensures small { IfOk result (λ n. n < 2 ^ 62) }
    ensures value { IfOk result (λ n. n ≡ 2 * len) }
{
    if len >= TOO_LONG {
        return Err(AllocError);
    }
    Ok(2 * len)
}

/// The serial type that an integer is written with: 0 and 1 have their own, others that of the shortest
/// content that holds them.
fn int_type(number: i64) -> usize
    ensures { result ≡ int_type number }
{
    match number {
        0 => 8,
        1 => 9,
        -0x80..=0x7f => 1,
        -0x8000..=0x7fff => 2,
        -0x80_0000..=0x7f_ffff => 3,
        -0x8000_0000..=0x7fff_ffff => 4,
        -0x8000_0000_0000..=0x7fff_ffff_ffff => 5,
        _ => 6,
    }
}

/// Puts the content of a value at the end.
fn push_content(out: &mut Vec<u8>, value: &Value) -> Result<(), AllocError>
    ensures { OnOk result (out.new.items ≡ out.old.items ++ written_content value.now) }
{
    match value {
        Value::Null => {}
        Value::Int(number) => push_int(out, *number)?,
        Value::Text(bytes) | Value::Blob(bytes) => out.extend_from_slice(bytes.as_slice())?,
        Value::Real(bits) => out.extend_from_slice(&bits.to_be_bytes())?,
    }
    Ok(())
}

/// Puts the content of an integer at the end.
fn push_int(out: &mut Vec<u8>, number: i64) -> Result<(), AllocError>
    ensures { OnOk result (out.new.items ≡ out.old.items ++ int_content number) }
{
    let size = content_size(int_type(number)).unwrap_or(0);
    if size > 0 {
        let mut content = [0; 8];
        BigEndian::write_int(&mut content, number, size);
        out.extend_from_slice(&content[..size])?;
    }
    Ok(())
}

/// How many bytes the content of a serial type has, or `None` where no record has the type.
fn content_size(serial: usize) -> Option<usize>
    ensures { result ≡ content_size serial }
{
    match serial {
        0 | 8 | 9 => Some(0),
        1 => Some(1),
        2 => Some(2),
        3 => Some(3),
        4 => Some(4),
        5 => Some(6),
        6 | 7 => Some(8),
        10 | 11 => None,
        _ => Some((serial - 12) / 2),
    }
}

/// The value that a content stands for.
fn value_of(alloc: Global, serial: usize, content: &[u8]) -> Result<Value, AllocError>
    requires { content_size serial ≡ Some (length content.now) }
    ensures { IfOk result (λ value. value ≡ value_of serial content.now) }
{
    Ok(match serial {
        0 => Value::Null,
        1..=6 => Value::Int(BigEndian::read_int(content, content.len())),
        7 => Value::Real(BigEndian::read_u64(content)),
        8 => Value::Int(0),
        9 => Value::Int(1),
        _ if serial % 2 == 0 => Value::Blob(owned(alloc, content)?),
        _ => Value::Text(owned(alloc, content)?),
    })
}

/// The bytes in memory of their own.
fn owned(alloc: Global, bytes: &[u8]) -> Result<Bytes, AllocError>
    ensures { IfOk result (λ owned. owned ≡ bytes.now) }
{
    Ok(Bytes::from_vec(Vec::from_slice(alloc, bytes)?))
}

/// A payload is a record of one list of values at most.
pub fn one_record()
    ensures { OneRecord }
{}
