//! Why a question has no answer, as tests expect it.

use rs_ask::NoAnswer;

/// What is expected of a `NoAnswer`.
pub(crate) enum Told {
    Unasked,
    Unread,
    Ended,
    TooLong,
    NotNumber(&'static [u8]),
    OutOfRange(i64),
}

/// Whether that is told.
pub(crate) fn is_told(why: &NoAnswer, told: &Told) -> bool {
    match (why, told) {
        (NoAnswer::Unasked, Told::Unasked) => true,
        (NoAnswer::Unread, Told::Unread) => true,
        (NoAnswer::Ended, Told::Ended) => true,
        (NoAnswer::TooLong, Told::TooLong) => true,
        (NoAnswer::NotNumber(line), Told::NotNumber(bytes)) => line.bytes() == *bytes,
        (NoAnswer::OutOfRange(number), Told::OutOfRange(other)) => number == other,
        _ => false,
    }
}
