//! Lines that are answers, lines that aren't, and reads that fail.

use crate::failing::FailingBytes;
use crate::told::{Told, is_told};
use rs_ask::{NoAnswer, ReadAnswers, read_answer};
use std::io::ErrorKind;
use std::process::Abort;

/// What an answer is: a number, or why there is none.
type Expected = Result<i64, Told>;

/// Bytes, the next answer, and what is left behind it.
type Row = (&'static [u8], Expected, &'static [u8]);

const ANSWERS: [Row; 26] = [
    (b"7\n", Ok(7), b""),
    (b"7\n8\n", Ok(7), b"8\n"),
    (b"-7\r\n8\n", Ok(-7), b"8\n"),
    (b"+7\n", Ok(7), b""),
    (b"007\n", Ok(7), b""),
    (b"-0\n", Ok(0), b""),
    (b"4000000000000000000\n", Ok(4_000_000_000_000_000_000), b""),
    (
        b"-4000000000000000000\n",
        Ok(-4_000_000_000_000_000_000),
        b"",
    ),
    // 63 zeros and a 5, which are as many bytes as a line may have.
    (
        b"0000000000000000000000000000000000000000000000000000000000000005\n",
        Ok(5),
        b"",
    ),
    // One more.
    (
        b"00000000000000000000000000000000000000000000000000000000000000005\n",
        Err(Told::TooLong),
        b"\n",
    ),
    (
        b"4000000000000000001\n",
        Err(Told::NotNumber(b"4000000000000000001")),
        b"",
    ),
    (b"", Err(Told::Ended), b""),
    (b"7", Err(Told::Ended), b""),
    // 64 bytes without an end, which might still be ended.
    (
        b"0000000000000000000000000000000000000000000000000000000000000005",
        Err(Told::Ended),
        b"",
    ),
    (b"\n7\n", Err(Told::NotNumber(b"")), b"7\n"),
    (b"\r\n7\n", Err(Told::NotNumber(b"\r")), b"7\n"),
    // Blanks behind the number, and in front of it.
    (b"7 \n", Ok(7), b""),
    (b"7\t \r\n8\n", Ok(7), b"8\n"),
    (b" 7\n", Err(Told::NotNumber(b" 7")), b""),
    (b"7\r \n", Err(Told::NotNumber(b"7\r ")), b""),
    (b" \n", Err(Told::NotNumber(b" ")), b""),
    (b"7 7\n", Err(Told::NotNumber(b"7 7")), b""),
    (b"7.0\n", Err(Told::NotNumber(b"7.0")), b""),
    (b"50.0 \n", Err(Told::NotNumber(b"50.0 ")), b""),
    (b"seven\n", Err(Told::NotNumber(b"seven")), b""),
    (b"7\r\r\n", Err(Told::NotNumber(b"7\r\r")), b""),
];

/// The read that fails, counted from 1, and with what; then the next answer, how many reads are counted as failed, and
/// what is left behind it. The bytes are `70`, a line feed, `8` and a line feed, and each byte takes one read.
type FailingRow = (u64, ErrorKind, Expected, u64, &'static [u8]);

const FAILING: [FailingRow; 8] = [
    (1, ErrorKind::BrokenPipe, Err(Told::Unread), 1, b"70\n8\n"),
    (2, ErrorKind::BrokenPipe, Err(Told::Unread), 1, b"0\n8\n"),
    (3, ErrorKind::BrokenPipe, Err(Told::Unread), 1, b"\n8\n"),
    // The answer is read by then.
    (4, ErrorKind::BrokenPipe, Ok(70), 0, b"8\n"),
    (2, ErrorKind::UnexpectedEof, Err(Told::Unread), 1, b"0\n8\n"),
    // A read that is interrupted is made again.
    (1, ErrorKind::Interrupted, Ok(70), 0, b"8\n"),
    (2, ErrorKind::Interrupted, Ok(70), 0, b"8\n"),
    (3, ErrorKind::Interrupted, Ok(70), 0, b"8\n"),
];

/// Whether this is the answer that is expected.
fn is_expected(answer: &Result<i64, NoAnswer>, expected: &Expected) -> bool {
    match (answer, expected) {
        (Ok(number), Ok(other)) => number == other,
        (Err(why), Err(told)) => is_told(why, told),
        _ => false,
    }
}

fn assert_answer(rt: &impl Abort, row: &Row) {
    let mut bytes = row.0;
    let mut answers = ReadAnswers::new(&mut bytes);
    let answer = read_answer(&mut answers);
    assert!(rt; is_expected(&answer, &row.1));
    assert_eq!(rt; answers.faults(), 0);
    drop(answers);
    assert!(rt; bytes == row.2);
}

fn assert_failing(rt: &impl Abort, row: &FailingRow) {
    let mut bytes = FailingBytes::new(b"70\n8\n", row.0, row.1);
    let mut answers = ReadAnswers::new(&mut bytes);
    let answer = read_answer(&mut answers);
    assert!(rt; is_expected(&answer, &row.2));
    assert_eq!(rt; answers.faults(), row.3);
    drop(answers);
    assert!(rt; bytes.left == row.4);
}

#[test]
fn reads_answers(rt: HostRuntime) {
    for row in &ANSWERS {
        assert_answer(&rt, row);
    }
}

#[test]
fn counts_reads_that_fail(rt: HostRuntime) {
    for row in &FAILING {
        assert_failing(&rt, row);
    }
}
