ghost use Rattle.std.specs.Prelude.{◌≡◌, ◌≤◌, take};

use crate::answer::MOST_ANSWER;
use std::marker::Model;

/// A line of the answers without its line feed, of at most `MOST_ANSWER` bytes.
#[derive(Debug, Drop)]
pub struct AnswerLine {
    bytes: [u8; MOST_ANSWER],
    len: usize,
}

impl Model for AnswerLine {
    ghost use Rattle.std.specs.Prelude.{◌≡◌, ◌≤◌, List, length, take, ℕ};

    ghost Value = { List ℕ };

    ghost view = { λ l. take l.len l.bytes };

    ghost invariant = { λ l. l.len ≤ 64 };
}

impl AnswerLine {
    /// The line of these bytes.
    pub(crate) fn of(bytes: [u8; MOST_ANSWER], len: usize) -> AnswerLine
        requires { len ≤ 64 }
        ensures { result ≡ take len bytes }
    {
        AnswerLine { bytes, len }
    }

    /// The bytes of the line.
    pub fn bytes(&self) -> &[u8]
        ensures { result.now ≡ self.now }
    {
        &self.bytes[..self.len]
    }
}
