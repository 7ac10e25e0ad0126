//! What a fetch makes of a reader and of an error.

use rs_outside::{FetchFault, fetch_opened};
use std::alloc::Global;
use std::io;
use std::io::ErrorKind;
use std::process::Abort;
use std::test::Fail;

/// A reader that is interrupted before each read, gives three bytes at most, and ends or fails behind the last one.
#[derive(Drop)]
struct Slow<'a> {
    left: usize,
    fails: Option<ErrorKind>,
    interrupted: bool,
    given: &'a mut usize,
}

impl<'a> io::Read for Slow<'a> {
    fn read(&mut self, buffer: &mut [u8]) -> io::Result<usize> {
        self.interrupted = !self.interrupted;
        if self.interrupted {
            return Err(io::Error::from(ErrorKind::Interrupted));
        }
        if self.left == 0 {
            return match self.fails {
                Some(kind) => Err(io::Error::from(kind)),
                None => Ok(0),
            };
        }
        let count = buffer.len().min(self.left).min(3);
        buffer[..count].fill(b'x');
        self.left -= count;
        *self.given = self.given.saturating_add(count);
        Ok(count)
    }
}

/// How many bytes the reader has, the error behind them, the limit; the answer, how long the buffer is then, and how many
/// bytes were read.
const READS: [(
    usize,
    Option<ErrorKind>,
    usize,
    Result<(), FetchFault>,
    usize,
    usize,
); 8] = [
    (0, None, 0, Ok(()), 1, 0),
    (7, None, 9, Ok(()), 8, 7),
    (9, None, 9, Ok(()), 10, 9),
    (10, None, 9, Err(FetchFault::TooLong), 1, 10),
    (20, None, 9, Err(FetchFault::TooLong), 1, 10),
    (
        5,
        Some(ErrorKind::OutOfMemory),
        9,
        Err(FetchFault::Memory),
        1,
        5,
    ),
    (
        5,
        Some(ErrorKind::PermissionDenied),
        9,
        Err(FetchFault::Failed),
        1,
        5,
    ),
    (
        5,
        Some(ErrorKind::NotFound),
        9,
        Err(FetchFault::Failed),
        1,
        5,
    ),
];

/// What is fetched of a reader into a buffer that held `>`, and how long the buffer is then.
fn fetched(
    alloc: Global,
    length: usize,
    fails: Option<ErrorKind>,
    limit: usize,
    given: &mut usize,
) -> Result<(Result<(), FetchFault>, usize), Fail> {
    let mut into = b">".to_vec(alloc)?;
    let reader = Slow {
        left: length,
        fails,
        interrupted: false,
        given,
    };
    let (got, _) = fetch_opened(Ok(reader), limit, &mut into);
    Ok((got, into.len()))
}

fn assert_at(rt: &impl Abort, holds: bool, length: usize, limit: usize) {
    assert!(rt; holds, "at {length}, {limit}");
}

fn assert_read(
    rt: &impl Abort,
    alloc: Global,
    length: usize,
    fails: Option<ErrorKind>,
    limit: usize,
    answer: Result<(), FetchFault>,
    kept: usize,
    read: usize,
) -> Result<(), Fail> {
    let mut given = 0;
    let (got, held) = fetched(alloc, length, fails, limit, &mut given)?;
    let holds = got == answer && held == kept && given == read;
    assert_at(rt, holds, length, limit);
    Ok(())
}

#[test]
fn reads_to_the_end_or_one_byte_beyond_the_limit(rt: HostRuntime) -> Result<(), Fail> {
    for (length, fails, limit, answer, kept, read) in READS {
        assert_read(&rt, rt.alloc(), length, fails, limit, answer, kept, read)?;
    }
    Ok(())
}

/// Errors of the system where a file is opened, and the faults that they are.
const REFUSALS: [(ErrorKind, FetchFault); 5] = [
    (ErrorKind::NotFound, FetchFault::Missing),
    (ErrorKind::OutOfMemory, FetchFault::Memory),
    (ErrorKind::PermissionDenied, FetchFault::Failed),
    (ErrorKind::IsADirectory, FetchFault::Failed),
    (ErrorKind::Interrupted, FetchFault::Failed),
];

fn assert_refused(
    rt: &impl Abort,
    alloc: Global,
    kind: ErrorKind,
    fault: FetchFault,
) -> Result<(), Fail> {
    let mut into = b">".to_vec(alloc)?;
    let opened: io::Result<io::Empty> = Err(io::Error::from(kind));
    let (got, _) = fetch_opened(opened, 9, &mut into);
    assert!(rt;
        got == Err(fault) && into.as_slice() == b">".as_slice(),
        "at {kind:?}"
    );
    Ok(())
}

#[test]
fn tells_why_a_file_was_not_opened(rt: HostRuntime) -> Result<(), Fail> {
    for (kind, fault) in REFUSALS {
        assert_refused(&rt, rt.alloc(), kind, fault)?;
    }
    Ok(())
}
