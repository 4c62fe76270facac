//! Worked examples, by hand and from the formats.

use byte_base::Bytes;
use ref_stack::{
    Limits, OpenFile, OpenFiles, Passing, chunk_name, fails, group_of, is_bad, lengths_shown,
    matches, next_start, pass, placed, sum_of, through,
};
use std::alloc::{AllocError, Global};
use std::test::Fail;
use vfs_model::{Group, Groups, Layer, Name, Pattern, Placed};

/// So many bytes, each the same.
fn all(alloc: Global, b: u8, len: usize) -> Result<Bytes, AllocError> {
    let mut bytes = Vec::new(alloc);
    for _ in 0..len {
        bytes.push(b)?;
    }
    Ok(Bytes::from_vec(bytes))
}

#[test]
fn sums_run_over_pairs_of_words(rt: HostRuntime) {
    let pair = [1, 0, 0, 0, 2, 0, 0, 0];
    assert!(rt; sum_of(&pair) == (1, 3));
    let two = [1, 0, 0, 0, 2, 0, 0, 0, 255, 255, 255, 255, 0, 0, 0, 0];
    assert!(rt; sum_of(&two) == (3, 6));
    assert!(rt; sum_of(&[0; 504]) == (0, 0));
    let mut page = [0; 512];
    assert!(rt; !fails(512, &page, 0));
    page[0] = 1;
    assert!(rt; fails(512, &page, 0));
    assert!(rt; fails(512, &page[..100], 0));
    assert!(rt; !fails(512, &page, 1));
}

#[test]
fn patterns_match_whole_names(rt: HostRuntime) {
    let cases: [(&[u8], &[u8], bool); 13] = [
        (b"main*", b"main", true),
        (b"main*", b"main001", true),
        (b"m[a-c]in", b"main", true),
        (b"m[^a]in", b"main", false),
        (b"m?in", b"main", true),
        (b"[]]x", b"]x", true),
        (b"*", b"", true),
        (b"main", b"mainx", false),
        (b"a[b", b"ab", false),
        (b"[a-]", b"-", true),
        (b"[z-a]x", b"zx", false),
        (b"a/b", b"a\\b", true),
        (b"a/b", b"axb", false),
    ];
    for (pattern, text, expected) in cases {
        assert!(rt; matches(pattern, text) == expected, "{pattern:?} {text:?}");
    }
}

#[test]
fn chunks_have_numbered_names(rt: HostRuntime) -> Result<(), Fail> {
    let cases: [(u32, &[u8]); 4] = [
        (0, b"main"),
        (1, b"main001"),
        (12, b"main012"),
        (1000, b"main1000"),
    ];
    for (number, expected) in cases {
        let name = chunk_name(rt.alloc(), b"main", number)?;
        assert!(rt; name.as_slice() == expected, "{number}");
    }
    Ok(())
}

#[test]
fn a_file_without_a_mark_is_an_empty_database_behind_it(rt: HostRuntime) -> Result<(), Fail> {
    let bytes = all(rt.alloc(), b'x', 5000)?;
    assert!(rt; placed(bytes.as_slice()) == Placed::Fresh(5000) && next_start(5000) == 8192);
    let main = Name::new(b"main").ok_or("a name")?;
    let journal = Name::new(b"main-journal").ok_or("a name")?;
    let files = [(main, bytes), (journal, all(rt.alloc(), b'x', 10)?)];
    let shown = through(rt.alloc(), &[Layer::Append], &files, b"main")?;
    assert!(rt; shown.there && shown.bytes.as_slice().is_empty());
    let journal = through(rt.alloc(), &[Layer::Append], &files, b"main-journal")?;
    assert!(rt; journal.there && journal.bytes.as_slice().len() == 10);
    let other = through(rt.alloc(), &[Layer::Append], &files, b"other")?;
    assert!(rt; !other.there);
    Ok(())
}

#[test]
fn chunks_are_joined_up_to_a_short_one(rt: HostRuntime) -> Result<(), Fail> {
    let layers = [Layer::Trace, Layer::Mux { chunk: 65536 }];
    let main = Name::new(b"main").ok_or("a name")?;
    let next = Name::new(b"main001").ok_or("a name")?;
    let whole = [
        (main, all(rt.alloc(), 1, 65536)?),
        (next, all(rt.alloc(), 2, 512)?),
    ];
    let shown = through(rt.alloc(), &layers, &whole, b"main")?;
    assert!(rt; shown.bytes.as_slice().len() == 66048 && shown.bytes.as_slice()[65536] == 2);
    let stale = [
        (main, all(rt.alloc(), 1, 512)?),
        (next, all(rt.alloc(), 2, 512)?),
    ];
    let shown = through(rt.alloc(), &layers, &stale, b"main")?;
    assert!(rt; shown.bytes.as_slice().len() == 512);
    Ok(())
}

#[test]
fn a_page_keeps_its_sums_to_itself(rt: HostRuntime) -> Result<(), Fail> {
    let layers = [Layer::Cksum { page: 512 }];
    let main = Name::new(b"main").ok_or("a name")?;
    let files = [(main, all(rt.alloc(), 1, 1000)?)];
    let shown = through(rt.alloc(), &layers, &files, b"main")?;
    let bytes = shown.bytes.as_slice();
    assert!(rt;
        bytes.len() == 1000
            && bytes[503] == 1
            && bytes[504] == 0
            && bytes[511] == 0
            && bytes[512] == 1
    );
    assert!(rt; is_bad(rt.alloc(), &layers, &files, b"main", 0)?);
    assert!(rt; is_bad(rt.alloc(), &layers, &files, b"main", 512)?);
    assert!(rt; !is_bad(rt.alloc(), &[], &files, b"main", 0)?);
    Ok(())
}

#[test]
fn the_first_group_that_matches_counts(rt: HostRuntime) -> Result<(), Fail> {
    let groups = [
        Group {
            glob: Pattern::new(b"other*").ok_or("a pattern")?,
            limit: 0,
        },
        Group {
            glob: Pattern::new(b"main*").ok_or("a pattern")?,
            limit: 1024,
        },
        Group {
            glob: Pattern::new(b"*1").ok_or("a pattern")?,
            limit: 512,
        },
    ];
    assert!(rt; group_of(&groups, b"main001") == Some(1));
    assert!(rt; group_of(&groups, b"aux1") == Some(2));
    assert!(rt; group_of(&groups, b"aux2").is_none());
    Ok(())
}

/// An open file that is a database by itself.
fn counted(alloc: Global, name: &[u8], len: u64) -> Result<OpenFile, AllocError> {
    let name = Bytes::copy_of(alloc, name)?;
    Ok(OpenFile::new(name, len, Placed::Ordinary))
}

/// A quota layer with one group, of names that begin with `main`.
fn quota(alloc: Global) -> Result<Layer, Fail> {
    let group = Group {
        glob: Pattern::new(b"main*").ok_or("a pattern")?,
        limit: 0,
    };
    let groups = Groups::new(vec![in alloc; group]?).ok_or("groups")?;
    Ok(Layer::Quota { groups })
}

/// Whether open files have these names and lengths.
fn are(files: &OpenFiles, expected: &[(&[u8], u64)]) -> bool {
    let files = files.as_slice();
    files.len() == expected.len()
        && files.iter().zip(expected).all(|(file, wanted)| file.name() == wanted.0
            && file.len() == wanted.1)
}

#[test]
fn a_group_refuses_what_passes_its_limit(rt: HostRuntime) -> Result<(), Fail> {
    let alloc = rt.alloc();
    let layers = [quota(alloc)?];
    let limits = [Limits::from_vec(vec![in alloc; 1024]?)];
    let main = counted(alloc, b"main", 1024)?;
    let lengths = [OpenFiles::from_vec(vec![in alloc; main]?)];
    let longer = pass(alloc, &layers, &limits, &lengths, b"main", 1024, 1536)?;
    assert!(rt;
        matches!(
            longer,
            Passing::IsFull {
                total: 1536,
                limit: 1024
            }
        )
    );
    let within = pass(alloc, &layers, &limits, &lengths, b"main", 512, 1024)?;
    let Passing::Passes(after) = within else {
        return Err(Fail::from("a write within the limit passes"));
    };
    assert!(rt; matches!(after.as_slice(), [own] if are(own, &[(b"main", 1024)])));
    Ok(())
}

#[test]
fn each_chunk_counts_for_its_group(rt: HostRuntime) -> Result<(), Fail> {
    let alloc = rt.alloc();
    let layers = [Layer::Mux { chunk: 65536 }, quota(alloc)?];
    let limits = [Limits::from_vec(vec![in alloc; 66048]?)];
    let main = counted(alloc, b"main", 65536)?;
    let lengths = [OpenFiles::from_vec(vec![in alloc; main]?)];
    let longer = pass(alloc, &layers, &limits, &lengths, b"main", 65024, 66560)?;
    assert!(rt;
        matches!(
            longer,
            Passing::IsFull {
                total: 66560,
                limit: 66048
            }
        )
    );
    let within = pass(alloc, &layers, &limits, &lengths, b"main", 65024, 66048)?;
    let Passing::Passes(after) = within else {
        return Err(Fail::from("a write within the limit passes"));
    };
    let expected: [(&[u8], u64); 2] = [(b"main", 65536), (b"main001", 512)];
    assert!(rt; matches!(after.as_slice(), [own] if are(own, &expected)));
    Ok(())
}

#[test]
fn a_growing_file_behind_other_content_has_a_limit(rt: HostRuntime) -> Result<(), Fail> {
    let alloc = rt.alloc();
    let name = Bytes::copy_of(alloc, b"main")?;
    let main = OpenFile::new(name, 1_000_013_312, Placed::Behind(0));
    let lengths = [OpenFiles::from_vec(vec![in alloc; main]?)];
    let cases: [(u64, u64, Option<u64>); 4] = [
        (1_000_013_312, 1_000_013_824, Some(1_000_013_849)),
        (1_000_013_312, 1_000_013_800, Some(1_000_013_825)),
        (1_000_013_312, 1_000_013_799, None),
        (1_000_012_800, 1_000_013_312, None),
    ];
    for (off, end, refused) in cases {
        let passing = pass(alloc, &[Layer::Append], &[], &lengths, b"main", off, end)?;
        let told = match passing {
            Passing::IsFull {
                total,
                limit: 1_000_013_824,
            } => Some(total),
            _ => None,
        };
        assert!(rt; told == refused, "{off} {end}");
    }
    Ok(())
}

#[test]
fn the_first_write_behind_other_content_settles_its_place(rt: HostRuntime) -> Result<(), Fail> {
    let alloc = rt.alloc();
    let layers = [Layer::Append, Layer::Mux { chunk: 65536 }, quota(alloc)?];
    let main = Name::new(b"main").ok_or("a name")?;
    let next = Name::new(b"main001").ok_or("a name")?;
    let files = [
        (main, all(alloc, b'x', 65536)?),
        (next, all(alloc, b'x', 512)?),
    ];
    let names = [Bytes::copy_of(alloc, b"main")?];
    let shown = lengths_shown(alloc, &layers, &files, &names)?;
    let chunks: [(&[u8], u64); 2] = [(b"main", 65536), (b"main001", 512)];
    assert!(rt;
        matches!(shown.as_slice(), [top, own] if are(top, &[(b"main", 0)]) && are(own, &chunks))
    );
    let limits = [Limits::from_vec(vec![in alloc; 0]?)];
    let Passing::Passes(same) = pass(alloc, &layers, &limits, &shown, b"main", 0, 0)? else {
        return Err(Fail::from("a write of no byte passes"));
    };
    assert!(rt;
        matches!(same.as_slice(), [top, own] if are(top, &[(b"main", 0)]) && are(own, &chunks))
    );
    let first = pass(alloc, &layers, &limits, &shown, b"main", 0, 512)?;
    let Passing::Passes(after) = first else {
        return Err(Fail::from("no limit refuses it"));
    };
    let chunks: [(&[u8], u64); 2] = [(b"main", 65536), (b"main001", 69632 + 512 + 25 - 65536)];
    assert!(rt;
        matches!(after.as_slice(), [top, own] if are(top, &[(b"main", 512)]) && are(own, &chunks))
    );
    let place = after
        .first()
        .and_then(|top| top.as_slice().first())
        .map(|file| file.place());
    assert!(rt; place == Some(Placed::Behind(69632)));
    Ok(())
}
