//! Records, read and written.

use db_format::{FormatFault, Value, read_record, write_record};
use std::alloc::Global;
use std::test::Fail;

/// The number that a payload spells, where it spells one integer alone.
fn number_in(alloc: Global, payload: &[u8]) -> Result<Option<i64>, FormatFault> {
    let read = read_record(alloc, payload)?;
    match read.as_slice() {
        [Value::Int(number)] => Ok(Some(*number)),
        _ => Ok(None),
    }
}

/// Whether what a payload spells is written as it.
fn comes_back(alloc: Global, payload: &[u8]) -> Result<bool, FormatFault> {
    let read = read_record(alloc, payload)?;
    let written = write_record(alloc, read.as_slice())?;
    Ok(written.as_slice() == payload)
}

#[test]
fn values_have_these_records(rt: HostRuntime) -> Result<(), Fail> {
    let cases: [(i64, &[u8]); 10] = [
        (0, b"\x02\x08"),
        (1, b"\x02\x09"),
        (-1, b"\x02\x01\xff"),
        (2, b"\x02\x01\x02"),
        (127, b"\x02\x01\x7f"),
        (128, b"\x02\x02\x00\x80"),
        (-32769, b"\x02\x03\xff\x7f\xff"),
        (8388608, b"\x02\x04\x00\x80\x00\x00"),
        (2147483648, b"\x02\x05\x00\x00\x80\x00\x00\x00"),
        (i64::MIN, b"\x02\x06\x80\x00\x00\x00\x00\x00\x00\x00"),
    ];
    for (number, payload) in cases {
        assert!(rt; number_in(rt.alloc(), payload)? == Some(number), "{number}");
        assert!(rt; comes_back(rt.alloc(), payload)?, "{number}");
    }
    let others: [&[u8]; 6] = [
        b"\x02\x00",
        b"\x02\x0f\x61",
        b"\x02\x0e\x61",
        b"\x02\x07\x40\x09\x21\xfb\x54\x44\x2d\x18",
        b"\x06\x17\x0f\x0f\x01\x2ftablett\x02CREATE TABLE t(a)",
        b"\x01",
    ];
    for payload in others {
        assert!(rt; comes_back(rt.alloc(), payload)?, "{payload:?}");
    }
    Ok(())
}

#[test]
fn a_header_of_129_bytes(rt: HostRuntime) -> Result<(), Fail> {
    let mut values = Vec::new(rt.alloc());
    for _ in 0..127 {
        values.push(Value::Null)?;
    }
    let written = write_record(rt.alloc(), &values)?;
    assert!(rt; written.as_slice().starts_with(b"\x81\x01") && written.as_slice().len() == 129);
    Ok(())
}

#[test]
fn other_spellings_are_read_and_other_bytes_are_no_record(rt: HostRuntime) -> Result<(), Fail> {
    let spellings: [&[u8]; 3] = [b"\x80\x03\x08", b"\x03\x80\x08", b"\x02\x02\x00\x00"];
    for payload in spellings {
        assert!(rt; number_in(rt.alloc(), payload)? == Some(0), "{payload:?}");
    }
    let refused: [&[u8]; 10] = [
        b"",
        b"\x00",
        b"\x02",
        b"\x81",
        b"\x02\x0a",
        b"\x02\x0b",
        b"\x02\x01",
        b"\x02\x08\x00",
        b"\x02\x81",
        b"\x0a\xff\xff\xff\xff\xff\xff\xff\xff\xff",
    ];
    for payload in refused {
        let fault = read_record(rt.alloc(), payload).err();
        assert!(rt; matches!(fault, Some(FormatFault::Corrupt)), "{payload:?}");
    }
    Ok(())
}
