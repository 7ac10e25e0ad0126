ghost use Rattle.std.specs.Prelude.{◌≡◌, ◌≤◌, take};
ghost use Rattle.rs_value.specs.Outside.{Keeps};
ghost use Rattle.rs_ask.specs.Answers.{ReadsNext, answer_in, is_blank, line_answer, without_blanks};

use crate::answer_line::AnswerLine;
use crate::answers::Answers;
use crate::no_answer::NoAnswer;
use rs_value::int_of;

/// The greatest number of bytes of an answer's line, without its end.
pub const MOST_ANSWER: usize = 64;

/// The next answer: one line with a whole number from -4,000,000,000,000,000,000 to 4,000,000,000,000,000,000. The line may end with
/// CR LF, and blanks, which are spaces and tabs, may stand between the number and the line's end.
///
/// # Errors
///
/// - `Unread`: a read failed, which the answers count.
/// - `Ended`: exactly where the answers end before the end of the next line, which has no more than `MOST_ANSWER` bytes by then.
/// - `TooLong`: exactly where the next line has more than `MOST_ANSWER` bytes. One more than these is read of it.
/// - `NotNumber`: exactly where the next line is ended and has no such number. It tells the line.
/// - `Unasked`, `OutOfRange`: never.
pub fn read_answer<A: Answers>(answers: &mut A) -> Result<i64, NoAnswer>
    ensures reads { ReadsNext result (A.state answers.old) (A.state answers.new) }
    ensures keeps { Keeps (A.state answers.old) (A.state answers.new) }
{
    let mut line = [0u8; MOST_ANSWER];
    for len in 0..MOST_ANSWER {
        match answers.next_byte() {
            Ok(Some(b'\n')) => return line_answer(line, len),
            Ok(Some(byte)) => line[len] = byte,
            Ok(None) => return Err(NoAnswer::Ended),
            Err(_) => return Err(NoAnswer::Unread),
        }
    }
    match answers.next_byte() {
        Ok(Some(b'\n')) => line_answer(line, MOST_ANSWER),
        Ok(Some(_)) => Err(NoAnswer::TooLong),
        Ok(None) => Err(NoAnswer::Ended),
        Err(_) => Err(NoAnswer::Unread),
    }
}

/// The number of the first bytes of these, or their line.
fn line_answer(line: [u8; MOST_ANSWER], len: usize) -> Result<i64, NoAnswer>
    requires { len ≤ 64 }
    ensures { result ≡ line_answer (take len line) }
{
    match answer_in(&line[..len]) {
        Some(number) => Ok(number),
        None => Err(NoAnswer::NotNumber(AnswerLine::of(line, len))),
    }
}

/// The number of a line, which may end with blanks and CR.
fn answer_in(line: &[u8]) -> Option<i64>
    ensures { result ≡ answer_in line.now }
{
    match line.strip_suffix(b"\r") {
        Some(number) => int_of(without_blanks(number)),
        None => int_of(without_blanks(line)),
    }
}

/// A line without the blanks at its end.
fn without_blanks(line: &[u8]) -> &[u8]
    ensures { result.now ≡ without_blanks line.now }
{
    match line.split_last() {
        Some((last, rest)) => {
            if is_blank(*last) {
                without_blanks(rest)
            } else {
                line
            }
        }
        None => line,
    }
}

/// Whether a byte is a space or a tab.
fn is_blank(byte: u8) -> bool
    ensures { result ≡ is_blank byte }
{
    byte == b' ' || byte == b'\t'
}
