use crate::answer_line::AnswerLine;

/// Why a question has no answer.
#[derive(Debug, Drop)]
pub enum NoAnswer {
    /// Its put failed: who answers reads no more. Nothing was read.
    Unasked,
    /// A read of the answers failed.
    Unread,
    /// The answers ended, before the end of the next line.
    Ended,
    /// The next line has more than `MOST_ANSWER` bytes.
    TooLong,
    /// The next line, which is this one without its end, has no number.
    NotNumber(AnswerLine),
    /// The next line has this number, which is no score of the predicate that was asked for.
    OutOfRange(i64),
}
