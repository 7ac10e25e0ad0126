//! Files that are fetched, and sinks that are written.

use crate::rows::assert_number;
use rs_outside::{DirFiles, FetchFault, Files, MemFiles, MemSink, OutSink, Sink, SinkFault};
use rs_value::Text;
use std::alloc::Global;
use std::hash::RandomState;
use std::process::Abort;
use std::random::RandomSource;
use std::test::Fail;
use std::{fs, io};

fn text(alloc: Global, bytes: &[u8]) -> Result<Text, Fail> {
    Ok(Text::from_bytes(alloc, bytes)?)
}

/// What a fetch answers, and what the buffer then holds, which held `>`.
fn fetched<F: Files>(
    files: &mut F,
    alloc: Global,
    name: &str,
    limit: usize,
) -> Result<(Result<(), FetchFault>, Vec<u8>), Fail> {
    let mut into = b">".to_vec(alloc)?;
    let name = text(alloc, name.as_bytes())?;
    let got = files.fetch(&name, limit, &mut into);
    Ok((got, into))
}

/// Adds a file.
fn add(files: &mut MemFiles, alloc: Global, name: &str, bytes: &str) -> Result<(), Fail> {
    let bytes = bytes.as_bytes().to_vec(alloc)?;
    files.add(text(alloc, name.as_bytes())?, bytes)?;
    Ok(())
}

fn add_two_files(files: &mut MemFiles, alloc: Global) -> Result<(), Fail> {
    add(files, alloc, "a", "old")?;
    add(files, alloc, "b", "x,y")?;
    add(files, alloc, "a", "newer")
}

/// A name, a limit, what the fetch answers, and what the buffer then holds, which held `>`.
type Fetch = (&'static str, usize, Result<(), FetchFault>, &'static str);

/// Asserts what holds of the fetch of a file.
fn assert_at(rt: &impl Abort, holds: bool, name: &str, limit: usize) {
    assert!(rt; holds, "at {name}, {limit}");
}

/// Fetches a file, and compares.
fn assert_fetch(
    rt: &impl Abort,
    alloc: Global,
    files: &mut MemFiles,
    row: &Fetch,
) -> Result<(), Fail> {
    let (name, limit, answer, bytes) = *row;
    let (got, into) = fetched(files, alloc, name, limit)?;
    let holds = got == answer && into.as_slice() == bytes.as_bytes();
    assert_at(rt, holds, name, limit);
    Ok(())
}

/// Fetches from the two files, and compares.
fn assert_fetches(
    rt: &impl Abort,
    alloc: Global,
    files: &mut MemFiles,
    rows: &[Fetch],
) -> Result<(), Fail> {
    for row in rows {
        assert_fetch(rt, alloc, files, row)?;
    }
    Ok(())
}

const FETCHES: [Fetch; 4] = [
    ("a", 9, Ok(()), ">newer"),
    ("b", 3, Ok(()), ">x,y"),
    ("b", 2, Err(FetchFault::TooLong), ">"),
    ("c", 9, Err(FetchFault::Missing), ">"),
];

#[test]
fn fetches_from_memory(rt: HostRuntime) -> Result<(), Fail> {
    let mut files = MemFiles::new(rt.alloc(), RandomState::new(&rt)?);
    add_two_files(&mut files, rt.alloc())?;
    assert_fetches(&rt, rt.alloc(), &mut files, &FETCHES)
}

/// The second fetch is planned to fail.
const PLANNED: [Fetch; 3] = [
    ("b", 3, Ok(()), ">x,y"),
    ("b", 3, Err(FetchFault::Failed), ">"),
    ("b", 3, Ok(()), ">x,y"),
];

fn plan_the_second(files: &mut MemFiles, alloc: Global) -> Result<(), Fail> {
    add_two_files(files, alloc)?;
    files.fail_at(2)?;
    Ok(())
}

#[test]
fn fails_where_it_is_planned(rt: HostRuntime) -> Result<(), Fail> {
    let mut files = MemFiles::new(rt.alloc(), RandomState::new(&rt)?);
    plan_the_second(&mut files, rt.alloc())?;
    assert_fetches(&rt, rt.alloc(), &mut files, &PLANNED)
}

/// The pieces that are put, `abcdefg` in all.
const PIECES: [&[u8]; 3] = [b"abc", b"def", b"g"];

/// Puts each piece, and counts those that failed.
fn put_all<S: Sink>(sink: &mut S, pieces: &[&[u8]]) -> Result<u32, Fail> {
    let mut failed = 0u32;
    for piece in pieces {
        match sink.put(piece) {
            Ok(()) => {}
            Err(SinkFault::Failed) => failed = failed.saturating_add(1),
            Err(SinkFault::Memory) => return Err(Fail::new("no memory")),
        }
    }
    Ok(failed)
}

/// Puts pieces, of which this many fail.
fn assert_puts<S: Sink>(
    rt: &impl Abort,
    sink: &mut S,
    pieces: &[&[u8]],
    failed: u32,
) -> Result<(), Fail> {
    let count = put_all(sink, pieces)?;
    assert_number(rt, u64::from(count), u64::from(failed));
    Ok(())
}

/// Asserts which bytes are taken.
fn assert_bytes(rt: &impl Abort, bytes: &[u8], want: &str) {
    assert_eq!(rt; bytes, want.as_bytes());
}

/// A put that is planned to fail, and how many bytes it takes first; how many puts fail, and what is taken in all.
const PUTS: [(u32, usize, u32, &str); 5] = [
    (0, 0, 0, "abcdefg"),
    (2, 2, 1, "abcdeg"),
    (2, 0, 1, "abcg"),
    (2, 9, 1, "abcdefg"),
    (4, 0, 0, "abcdefg"),
];

fn assert_taken(
    rt: &impl Abort,
    sink: &mut MemSink,
    row: &(u32, usize, u32, &str),
) -> Result<(), Fail> {
    sink.fail_at(row.0, row.1)?;
    assert_puts(rt, sink, &PIECES, row.2)?;
    assert_bytes(rt, sink.bytes(), row.3);
    Ok(())
}

#[test]
fn puts_into_memory(rt: HostRuntime) -> Result<(), Fail> {
    for row in &PUTS {
        assert_taken(&rt, &mut MemSink::new(rt.alloc()), row)?;
    }
    Ok(())
}

/// The file that the test of the disk writes, 20,000 bytes long.
const ON_DISK: &str = "rs_outside_fetches_from_the_disk.txt";

/// A name, a limit, what the fetch answers, and how many bytes the buffer then holds.
const ON_DISK_FETCHES: [(&str, usize, Result<(), FetchFault>, usize); 7] = [
    (ON_DISK, 20_000, Ok(()), 20_001),
    (ON_DISK, usize::MAX, Ok(()), 20_001),
    (ON_DISK, 19_999, Err(FetchFault::TooLong), 1),
    (ON_DISK, 0, Err(FetchFault::TooLong), 1),
    (
        "rs_outside_no_such_file.txt",
        9,
        Err(FetchFault::Missing),
        1,
    ),
    (".", 9, Err(FetchFault::Failed), 1),
    ("a\0b", 9, Err(FetchFault::Failed), 1),
];

/// Writes a file that is longer than two reads.
fn write_long_file(rt: &HostRuntime) -> Result<(), Fail> {
    let long = vec![in rt.alloc(); b'x'; 20_000]?;
    fs::write(rt, ON_DISK, long.as_slice())?;
    Ok(())
}

fn assert_length<F: Files>(
    rt: &impl Abort,
    alloc: Global,
    files: &mut F,
    name: &str,
    limit: usize,
    answer: Result<(), FetchFault>,
    length: usize,
) -> Result<(), Fail> {
    let (got, into) = fetched(files, alloc, name, limit)?;
    assert_at(rt, got == answer && into.len() == length, name, limit);
    Ok(())
}

fn assert_lengths<F: Files>(rt: &impl Abort, alloc: Global, files: &mut F) -> Result<(), Fail> {
    for (name, limit, answer, length) in &ON_DISK_FETCHES {
        assert_length(rt, alloc, files, name, *limit, *answer, *length)?;
    }
    Ok(())
}

fn assert_long_file(
    rt: &(impl Abort + std::rt::Files + RandomSource + AllocGlobal),
) -> Result<(), Fail> {
    let mut files = DirFiles::new(rt, RandomState::new(rt)?);
    assert_lengths(rt, rt.alloc(), &mut files)
}

fn assert_empty_file(
    rt: &(impl Abort + std::rt::Files + RandomSource + AllocGlobal),
) -> Result<(), Fail> {
    let mut files = DirFiles::new(rt, RandomState::new(rt)?);
    assert_length(rt, rt.alloc(), &mut files, ON_DISK, 0, Ok(()), 1)
}

#[test]
fn fetches_from_the_disk(rt: HostRuntime) -> Result<(), Fail> {
    write_long_file(&rt)?;
    assert_long_file(&rt)?;
    fs::write(&rt, ON_DISK, b"")?;
    assert_empty_file(&rt)?;
    fs::remove_file(&rt, ON_DISK)?;
    Ok(())
}

/// A writer that takes two bytes at most, is interrupted before each write, and takes `room` bytes in all.
#[derive(Drop)]
struct Narrow {
    taken: Vec<u8>,
    room: usize,
    interrupted: bool,
    flushes: u32,
}

impl io::Write for Narrow {
    fn write(&mut self, bytes: &[u8]) -> io::Result<usize> {
        self.interrupted = !self.interrupted;
        if self.interrupted {
            return Err(io::Error::from(io::ErrorKind::Interrupted));
        }
        let count = bytes.len().min(self.room).min(2);
        self.taken.extend_from_slice(&bytes[..count])?;
        self.room -= count;
        Ok(count)
    }

    fn flush(&mut self) -> io::Result<()> {
        self.flushes = self.flushes.saturating_add(1);
        Ok(())
    }
}

/// The room of the writer; how many puts fail, how many flushes there are, and what is taken.
const NARROW_PUTS: [(usize, u32, u32, &str); 3] = [
    (9, 0, 3, "abcdefg"),
    (5, 2, 1, "abcde"),
    (3, 2, 1, "abc"),
];

/// A narrow writer with this room.
fn narrow_writer(alloc: Global, room: usize) -> Narrow {
    Narrow {
        taken: Vec::new(alloc),
        room,
        interrupted: false,
        flushes: 0,
    }
}

fn assert_narrow(
    rt: &impl Abort,
    writer: &mut Narrow,
    failed: u32,
    flushes: u32,
    bytes: &str,
) -> Result<(), Fail> {
    assert_puts(rt, &mut OutSink::new(&mut *writer), &PIECES, failed)?;
    assert_bytes(rt, &writer.taken, bytes);
    assert!(rt; writer.flushes == flushes, "{bytes}");
    Ok(())
}

#[test]
fn puts_through_a_narrow_writer(rt: HostRuntime) -> Result<(), Fail> {
    for (room, failed, flushes, bytes) in NARROW_PUTS {
        assert_narrow(
            &rt,
            &mut narrow_writer(rt.alloc(), room),
            failed,
            flushes,
            bytes,
        )?;
    }
    Ok(())
}

/// Writes a line in three pieces.
fn assert_line<S: Sink>(rt: &impl Abort, sink: &mut S) -> Result<(), Fail> {
    let pieces = [b"rs_outside ".as_slice(), b"", b"writes\n"];
    assert_puts(rt, sink, &pieces, 0)
}

#[test]
fn puts_on_the_streams(rt: HostRuntime) -> Result<(), Fail> {
    assert_line(&rt, &mut OutSink::output(&rt))?;
    assert_line(&rt, &mut OutSink::error(&rt))
}
