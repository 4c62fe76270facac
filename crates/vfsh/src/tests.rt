//! What no clause says: that an interrupted call is tried again, and no other is.

ghost use Rattle.std.specs.Prelude.{◌≤◌, IfOk};

use crate::again::{read_again, write_again};
use std::io;
use std::io::{ErrorKind, Read, Write};
use std::test::Fail;

/// An end that answers as it is told to, one call after another, and counts its calls.
#[derive(Drop)]
struct Told {
    answers: [Result<usize, ErrorKind>; 3],
    calls: usize,
}

impl Told {
    fn answer(&mut self, most: usize) -> io::Result<usize>
        ensures { IfOk result (λ count. count ≤ most) }
    {
        let answer = match self.answers.get(self.calls) {
            Some(Ok(count)) => Ok((*count).min(most)),
            Some(Err(kind)) => Err(io::Error::from(*kind)),
            None => Ok(0),
        };
        self.calls = self.calls.saturating_add(1);
        answer
    }
}

impl Read for Told {
    fn read(&mut self, buf: &mut [u8]) -> io::Result<usize> {
        self.answer(buf.len())
    }
}

impl Write for Told {
    fn write(&mut self, bytes: &[u8]) -> io::Result<usize> {
        self.answer(bytes.len())
    }

    fn flush(&mut self) -> io::Result<()> {
        Ok(())
    }
}

const INTERRUPTED: Result<usize, ErrorKind> = Err(ErrorKind::Interrupted);

const DENIED: Result<usize, ErrorKind> = Err(ErrorKind::PermissionDenied);

/// What an end answers, what one call through `again` gives, and how many calls that took.
const CASES: [(
    [Result<usize, ErrorKind>; 3],
    Result<usize, ErrorKind>,
    usize,
); 5] = [
    ([Ok(4), DENIED, DENIED], Ok(4), 1),
    ([Ok(0), DENIED, DENIED], Ok(0), 1),
    ([INTERRUPTED, INTERRUPTED, Ok(2)], Ok(2), 3),
    ([DENIED, Ok(4), Ok(4)], DENIED, 1),
    ([INTERRUPTED, DENIED, Ok(4)], DENIED, 2),
];

#[test]
fn interrupted_reads_are_tried_again(rt: HostRuntime) -> Result<(), Fail> {
    for (answers, wanted, calls) in CASES {
        let mut end = Told { answers, calls: 0 };
        let mut buf = [0; 8];
        let answer = read_again(&mut end, &mut buf).map_err(|error| error.kind());
        assert_eq!(rt; answer, wanted);
        assert_eq!(rt; end.calls, calls);
    }
    Ok(())
}

#[test]
fn interrupted_writes_are_tried_again(rt: HostRuntime) -> Result<(), Fail> {
    for (answers, wanted, calls) in CASES {
        let mut end = Told { answers, calls: 0 };
        let answer = write_again(&mut end, b"replaced").map_err(|error| error.kind());
        assert_eq!(rt; answer, wanted);
        assert_eq!(rt; end.calls, calls);
    }
    Ok(())
}
