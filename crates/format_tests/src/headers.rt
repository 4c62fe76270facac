//! Headers of database files, read and written.

use db_format::HeaderFault::{
    AutoVacuum, Corrupt, Encoding, FileVersion, NotADatabase, PageSize, Reserved, SchemaFormat,
    TooLarge,
};
use db_format::{
    GREATEST_LENGTH, Header, HeaderFault, header_in_front, new_header, read_header, write_header,
};

/// A length that is past the greatest by one byte.
const LONG: u64 = GREATEST_LENGTH + 1;

/// The header of a database of two pages of 512 bytes, after its first table was made.
const ONE_TABLE: [u8; 100] = *b"SQLite format 3\0\
    \x02\0\x01\x01\0\x40\x20\x20\0\0\0\x01\0\0\0\x02\
    \0\0\0\0\0\0\0\0\0\0\0\x01\0\0\0\x04\
    \0\0\0\0\0\0\0\0\0\0\0\x01\0\0\0\0\
    \0\0\0\0\0\0\0\0\0\0\0\0\0\0\0\0\
    \0\0\0\0\0\0\0\0\0\0\0\0\0\0\0\x01\
    \0\x2e\x63\0";

/// What that header says.
const FIELDS: Header = Header {
    page: 512,
    reserved: 0,
    counter: 1,
    size: 2,
    first_trunk: 0,
    free_pages: 0,
    cookie: 1,
};

/// That header with other bytes at some places.
fn changed(changes: &[(usize, u8)]) -> [u8; 100] {
    let mut first = ONE_TABLE;
    for (place, byte) in changes {
        if let Some(old) = first.get_mut(*place) {
            *old = *byte;
        }
    }
    first
}

#[test]
fn known_header_is_written(rt: HostRuntime) {
    let mut page = [0xaa; 512];
    new_header(512, 0, &mut page);
    write_header(&FIELDS, &mut page);
    assert!(rt; page.starts_with(&ONE_TABLE));
    assert!(rt; page[100..].iter().all(|byte| *byte == 0xaa));
    assert!(rt; read_header(&ONE_TABLE, 1024, None) == Ok(FIELDS));
    header_in_front();
}

#[test]
fn first_fault_is_answered(rt: HostRuntime) {
    let cases: [(&[(usize, u8)], u64, Option<u32>, Option<HeaderFault>); 23] = [
        (&[], 1024, None, None),
        (&[], 99, None, Some(NotADatabase)),
        (&[(0, b's')], 1024, None, Some(NotADatabase)),
        (
            &[(16, 3), (17, 0)],
            1024,
            None,
            Some(PageSize { found: 768 }),
        ),
        (&[(16, 0), (17, 1)], 131072, None, None),
        (&[(16, 0), (17, 1)], 65536, None, Some(Corrupt)),
        (&[], 1024, Some(1024), Some(PageSize { found: 512 })),
        (
            &[(18, 2), (19, 3)],
            1024,
            None,
            Some(FileVersion { found: 2 }),
        ),
        (&[(19, 2)], 1024, None, Some(FileVersion { found: 2 })),
        (&[(20, 33)], 1024, None, Some(Reserved { found: 33 })),
        (&[], 1024, Some(512), Some(Reserved { found: 0 })),
        (&[(20, 8)], 1024, Some(512), None),
        (
            &[(20, 33), (47, 3)],
            1024,
            None,
            Some(Reserved { found: 33 }),
        ),
        (&[(47, 3)], 1024, None, Some(SchemaFormat { found: 3 })),
        (&[(47, 0)], 1024, None, Some(SchemaFormat { found: 0 })),
        (&[(47, 0), (59, 0)], 1024, None, None),
        (&[(55, 1)], 1024, None, Some(AutoVacuum)),
        (&[(59, 2)], 1024, None, Some(Encoding { found: 2 })),
        (&[], LONG, None, Some(TooLarge { bytes: LONG })),
        (&[], 1025, None, Some(Corrupt)),
        (&[(23, 33)], 1024, None, Some(Corrupt)),
        (&[(31, 3)], 1024, None, Some(Corrupt)),
        (&[(31, 3), (95, 2)], 1024, None, None),
    ];
    for (changes, length, cksum, fault) in cases {
        let answer = read_header(&changed(changes), length, cksum);
        assert!(rt; answer.err() == fault, "{changes:?} {length}");
    }
}
