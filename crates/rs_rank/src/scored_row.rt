use crate::stable::Scored;

/// A row of a table with its score. Rows count from 1.
#[derive(Clone, Copy, Debug, PartialEq, Eq)]
pub struct ScoredRow {
    pub score: u32,
    pub row: u32,
}

impl Scored for ScoredRow {
    ghost score_of = { λ scored. scored.score };

    fn score(&self) -> u64 {
        self.score as u64
    }
}
