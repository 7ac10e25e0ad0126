use crate::ids::Ids;
use crate::stable::Scored;
use rs_value::{List, Value};

/// A row of a query's answer: which rows it is made of, its score, and the values of the output columns.
#[derive(Debug, Drop)]
pub struct Answer {
    pub ids: Ids,
    pub score: u64,
    pub values: List<Value>,
}

impl Scored for Answer {
    ghost score_of = { λ answer. answer.score };

    fn score(&self) -> u64 {
        self.score
    }
}
