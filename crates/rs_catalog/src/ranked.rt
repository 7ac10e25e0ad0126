ghost use Rattle.std.specs.Prelude.{◌≡◌, IfOk, map};
ghost use Rattle.rs_rank.specs.Stable.{stable};

use rs_rank::{ScoredRow, sort_stably};
use rs_value::Memory;
use std::alloc::Global;

/// Rows of a table by score, the best one first, and their scores in the order of the rows.
#[derive(Drop)]
pub(crate) struct Ranked {
    pub ranking: Vec<ScoredRow>,
    pub scores: Vec<u32>,
}

impl Ranked {
    /// Rows that stand in their order.
    pub fn of(alloc: Global, mut rows: Vec<ScoredRow>) -> Result<Ranked, Memory>
        ensures ranking { IfOk result (λ ranked. ranked.ranking.items ≡ stable (λ row. row.score) rows.items) }
        ensures scores { IfOk result (λ ranked. ranked.scores.items ≡ map (λ row. row.score) rows.items) }
    {
        let scores = scores_of(alloc, &rows)?;
        sort_stably(&mut rows)?;
        Ok(Ranked {
            ranking: rows,
            scores,
        })
    }
}

/// The scores of rows, in their order.
fn scores_of(alloc: Global, rows: &[ScoredRow]) -> Result<Vec<u32>, Memory>
    ensures { IfOk result (λ scores. scores.items ≡ map (λ row. row.score) rows.now) }
{
    Ok(rows.iter().map(|row| row.score).collect(alloc)?)
}
