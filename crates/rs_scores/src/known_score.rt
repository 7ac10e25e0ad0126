ghost use Rattle.std.specs.Prelude.{◌≡◌, IfOk};

use crate::line::{record_line, row_of};
use crate::question::Question;
use rs_value::Memory;
use std::alloc::Global;

/// A question with its score, as a file of known scores has it.
#[derive(Debug, Drop)]
pub struct KnownScore {
    pub question: Question,
    pub score: i64,
}

impl KnownScore {
    ghost use Rattle.rs_scores.specs.Lines.{known_line};

    /// The record of CSV that a file of known scores has for it, ended by a line feed: the predicate's name, the arguments, and
    /// the score.
    ///
    /// # Errors
    ///
    /// - `Memory`: at any call.
    pub fn line(&self, alloc: Global) -> Result<Vec<u8>, Memory>
        ensures { IfOk result (λ line. line.items ≡ known_line self.now) }
    {
        let digits = self.score.to_string(alloc)?;
        let mut row = row_of(alloc, self.question.fields())?;
        row.push_field(digits.as_bytes())?;
        record_line(alloc, &row)
    }
}
