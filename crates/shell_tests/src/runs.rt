//! Whole runs over a book in memory.

use ref_book::MapShelf;
use ref_shell::run;
use std::alloc::{AllocError, Global};
use std::test::Fail;

/// What it shows, the input, and the text that it is answered.
type Case = (&'static str, &'static [u8], &'static [u8]);

/// Runs over a book of no pages.
const FROM_NOTHING: [Case; 10] = [
    ("an empty input", b"", b"open 0\n"),
    (
        "rows are put, replaced and told",
        b"create t a\nput t 1 t:a\nput t 1 t:b\nget t 1\nput 1 t:a\n",
        b"open 0\nok\nnew\nreplaced\nrow 1 t:b\nerror bad-line\n",
    ),
    (
        "the least and the greatest rowid",
        b"create t a\nput t -9223372036854775808 null\nput t 9223372036854775807 i:0\n\
          scan t -9223372036854775808 9223372036854775807\n",
        b"open 0\nok\nnew\nnew\nrow -9223372036854775808 null\nrow 9223372036854775807 i:0\nend 2\n",
    ),
    (
        "a writer waits for a reader",
        b"create t a\nput t 1 i:1\n@1 begin\n@1 get t 1\n@2 put t 1 i:2\n@1 commit\n@2 put t 1 i:2\n",
        b"open 0\nok\nnew\nok\nrow 1 i:1\nbusy\nok\nreplaced\n",
    ),
    (
        "a commit that waits lets no new reader in",
        b"create t a\nput t 1 i:1\n@1 begin\n@1 put t 1 i:2\n@2 begin\n@2 get t 1\n@1 commit\n@3 get t 1\n\
          @2 commit\n@1 commit\n@3 get t 1\n@2 get t 1\n",
        b"open 0\nok\nnew\nok\nreplaced\nok\nrow 1 i:1\nbusy\nbusy\nok\nok\nrow 1 i:2\nrow 1 i:2\n",
    ),
    (
        "what is refused",
        b"@9 count t\nget\ncommit\nget t 1\ncreate t a\ncreate T b\ncreate t b\nput t 1 i:1 i:2\n\
          begin\nbegin\nrollback\n",
        b"open 0\nerror no-conn\nerror bad-line\nerror no-txn\nerror no-table\nok\nerror bad-line\n\
          error exists\nerror columns\nok\nerror in-txn\nok\n",
    ),
    (
        "rows and tables go",
        b"create t a\nput t 1 i:1\ndel t 1\ndel t 1\ntables\ndrop t\ntables\n",
        b"open 0\nok\nnew\nok\nnone\ntable t a\nend 1\nok\nend 0\n",
    ),
    (
        "a draft is seen by its connection alone, and forgotten by a rollback",
        b"create t a\nbegin\nput t 1 i:1\ncreate u a b\nget t 1\ntables\n@2 get t 1\n@2 tables\n@2 put t 2 i:2\n\
          rollback\nget t 1\ncount t\ntables",
        b"open 0\nok\nok\nnew\nok\nrow 1 i:1\ntable t a\ntable u a b\nend 2\nnone\ntable t a\nend 1\nbusy\n\
          ok\nnone\ncount 0\ntable t a\nend 1\n",
    ),
    (
        "rows are told in the order of their rowids, tables in that of their names",
        b"create b x y\ncreate a z\ncreate ab z\ntables\nput b 7 t:7 null\nput b -7 b:00ff t:%0a\nput b 0 i:-1 i:1\n\
          count b\nscan b -7 0\nscan b 1 0\ndrop ab\ncreate c k\ntables\n",
        b"open 0\nok\nok\nok\ntable a z\ntable ab z\ntable b x y\nend 3\nnew\nnew\nnew\n\
          count 3\nrow -7 b:00ff t:%0A\nrow 0 i:-1 i:1\nend 2\nend 0\nok\nok\ntable a z\ntable b x y\ntable c k\nend 3\n",
    ),
    (
        "an opening ends what was begun, and counts the commits",
        b"create t a\nbegin\nput t 1 i:1\nreopen\nget t 1\ncommit\nput t 1 i:1\nreopen\nget t 1\n",
        b"open 0\nok\nok\nnew\nopen 1\nnone\nerror no-txn\nnew\nopen 2\nrow 1 i:1\n",
    ),
];

#[test]
fn runs_from_nothing_give_their_text(rt: HostRuntime) -> Result<(), Fail> {
    let alloc = rt.alloc();
    for (name, input, text) in FROM_NOTHING {
        let given = run(alloc, MapShelf::new(alloc, 512, 512), input)?;
        assert!(rt; given.as_slice() == text, "{name}");
    }
    Ok(())
}

/// A line that puts a text of so many bytes.
fn put_of(alloc: Global, len: usize) -> Result<Vec<u8>, AllocError> {
    let mut input = Vec::from_slice(alloc, b"create t a\nput t 1 t:")?;
    let text = vec![in alloc; b'a'; len]?;
    input.extend_from_slice(&text)?;
    Ok(input)
}

#[test]
fn a_text_has_65536_bytes_at_most(rt: HostRuntime) -> Result<(), Fail> {
    let alloc = rt.alloc();
    let cases: [(usize, &[u8]); 2] = [
        (65_536, b"open 0\nok\nnew\n"),
        (65_537, b"open 0\nok\nerror too-long\n"),
    ];
    for (len, text) in cases {
        let given = run(alloc, MapShelf::new(alloc, 512, 512), &put_of(alloc, len)?)?;
        assert!(rt; given.as_slice() == text, "{len}");
    }
    Ok(())
}
