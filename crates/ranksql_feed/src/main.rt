//! The program `ranksql_feed`. It joins two streams, which it reads record by record, and puts each pair as soon as it is sure.
//!
//! Its promise: what is put and drawn is that of `feed_streams` of rs_stream_word over the two files that were opened, LEFT first, and the
//! line on standard error and the status are those of its fault. What the system answers to an opening, a read and a write is only tested. A standard
//! stream that is closed at the start stays closed to the program: no file of its own gets its number.
#![tactic(auto)]

use rs_outside::{OutSink, Sink};
use rs_program::{ClosedStreams, command_line};
use rs_stream_word::{StreamWords, StreamsFault, feed_streams, words_of};
use rs_value::{Memory, Text};
use std::alloc::Global;
use std::fs::File;
use std::io::{BufReader, ErrorKind};
use std::process::ExitCode;
use std::{env, fs};

/// The line of words that are of no form.
const USAGE: &str = "usage: ranksql_feed LEFT RIGHT K -\n";

/// What a stream is read from, or that it isn't opened.
enum Opened {
    Reader(BufReader<File>),
    Missing,
    Failed,
    Memory,
}

/// Opens the file of this name. A FIFO waits here for who writes it.
fn open(rt: &HostRuntime, name: &Text) -> Opened {
    match fs::open(rt, name.as_str()) {
        Ok(file) => match BufReader::new(rt.alloc(), file) {
            Ok(reader) => Opened::Reader(reader),
            Err(_) => Opened::Memory,
        },
        Err(error) => match error.kind() {
            ErrorKind::NotFound => Opened::Missing,
            ErrorKind::OutOfMemory => Opened::Memory,
            _ => Opened::Failed,
        },
    }
}

/// Says that a file isn't opened.
fn unopened<E: Sink>(alloc: Global, name: &Text, why: &str, err: &mut E) -> u8 {
    let name = name.as_str();
    match format!(in alloc; "read: {name}: {why}\n") {
        Ok(line) => {
            let _ = err.put(line.as_bytes());
            3
        }
        Err(_) => no_memory(err),
    }
}

/// Says that there was no memory.
fn no_memory<E: Sink>(err: &mut E) -> u8 {
    let _ = err.put(b"memory\n");
    1
}

/// Says that the words are of no form.
fn usage<E: Sink>(err: &mut E) -> u8 {
    let _ = err.put(USAGE.as_bytes());
    2
}

/// Says how a fault ended the joining.
fn tell<E: Sink>(alloc: Global, words: &StreamWords<'_>, why: StreamsFault, err: &mut E) -> u8 {
    match why.line(alloc, words.left, words.right) {
        Ok(line) => {
            let _ = err.put(line.as_bytes());
            why.status()
        }
        Err(_) => no_memory(err),
    }
}

/// Opens both files, LEFT first, joins them, and says how it ended.
fn feed<O: Sink, E: Sink>(
    rt: &HostRuntime,
    words: &StreamWords<'_>,
    out: &mut O,
    err: &mut E,
) -> u8 {
    let alloc = rt.alloc();
    let left = match open(rt, words.left) {
        Opened::Reader(reader) => reader,
        Opened::Missing => return unopened(alloc, words.left, "missing", err),
        Opened::Failed => return unopened(alloc, words.left, "failed", err),
        Opened::Memory => return no_memory(err),
    };
    let right = match open(rt, words.right) {
        Opened::Reader(reader) => reader,
        Opened::Missing => return unopened(alloc, words.right, "missing", err),
        Opened::Failed => return unopened(alloc, words.right, "failed", err),
        Opened::Memory => return no_memory(err),
    };
    match feed_streams(alloc, words.count, left, right, out) {
        Ok(()) => 0,
        Err(why) => tell(alloc, words, why, err),
    }
}

/// Does what these words say.
fn run<O: Sink, E: Sink>(
    rt: &HostRuntime,
    words: Result<Vec<Text>, Memory>,
    out: &mut O,
    err: &mut E,
) -> u8 {
    let Ok(words) = words else {
        return no_memory(err);
    };
    match words_of(&words) {
        Some(words) => feed(rt, &words, out, err),
        None => usage(err),
    }
}

fn main(rt: HostRuntime) -> ExitCode {
    // Before any file is opened.
    let _streams = ClosedStreams::hold(&rt);
    let words = command_line(rt.alloc(), env::args(&rt));
    let mut out = OutSink::output(&rt);
    let mut err = OutSink::error(&rt);
    ExitCode::from(run(&rt, words, &mut out, &mut err))
}
