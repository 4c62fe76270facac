//! Varints, read and written.

use db_format::{put_varint, read_varint};

#[test]
fn numbers_have_these_varints_and_others_are_read(rt: HostRuntime) {
    let cases: [(i64, &[u8]); 9] = [
        (0, b"\x00"),
        (127, b"\x7f"),
        (128, b"\x81\x00"),
        (16383, b"\xff\x7f"),
        (16384, b"\x81\x80\x00"),
        (72057594037927935, b"\xff\xff\xff\xff\xff\xff\xff\x7f"),
        (72057594037927936, b"\x80\xc0\x80\x80\x80\x80\x80\x80\x00"),
        (-1, b"\xff\xff\xff\xff\xff\xff\xff\xff\xff"),
        (i64::MIN, b"\xc0\x80\x80\x80\x80\x80\x80\x80\x00"),
    ];
    for (value, bytes) in cases {
        let mut into = [0; 9];
        let len = put_varint(value, &mut into);
        assert!(rt; &into[..len] == bytes, "{value}");
        assert!(rt; read_varint(bytes) == Some((value, len)), "{value}");
    }
    let read: [(&[u8], Option<(i64, usize)>); 6] = [
        (b"", None),
        (b"\x81", None),
        (b"\xff\xff\xff\xff\xff\xff\xff\xff", None),
        (b"\x80\x01", Some((1, 2))),
        (b"\x05\xff", Some((5, 1))),
        (b"\x80\x80\x80\x80\x80\x80\x80\x80\x01\x07", Some((1, 9))),
    ];
    for (bytes, found) in read {
        assert!(rt; read_varint(bytes) == found, "{bytes:?}");
    }
}
