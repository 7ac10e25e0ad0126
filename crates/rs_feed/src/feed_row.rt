ghost use Rattle.std.specs.Prelude.{◌≡◌, IfOk};

use rs_value::{Memory, Text};

/// A row of a feed: the text by which rows of two feeds are joined, and the row's score.
#[derive(Debug, Drop)]
pub struct FeedRow {
    pub join: Text,
    pub score: u32,
}

impl FeedRow {
    /// An equal row.
    ///
    /// # Errors
    ///
    /// - `Memory`: at any call.
    pub fn copy(&self) -> Result<FeedRow, Memory>
        ensures { IfOk result (λ row. row ≡ self.now) }
    {
        Ok(FeedRow {
            join: self.join.copy()?,
            score: self.score,
        })
    }
}
