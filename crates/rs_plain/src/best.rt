ghost use Rattle.std.specs.Prelude.{◌≡◌, ◌++◌, ◌∷◌, [], IfOk, OnOk};
ghost use Rattle.rs_plain.specs.Keeping.{HasBest, best_of};

use crate::answer::cut;
use rs_rank::{RankRow, sort_stably};
use rs_value::Memory;
use std::alloc::Global;

/// So many rows at least are kept before the best of them are looked for, as that takes a sort.
const MANY: usize = 512;

/// The best of the rows that were added, as many as a limit says, in space for twice as many or for about a thousand.
#[derive(Drop)]
pub(crate) struct BestRows {
    limit: Option<u32>,
    /// In no order.
    rows: Vec<RankRow>,
}

impl BestRows {
    pub(crate) fn new(alloc: Global, limit: Option<u32>) -> BestRows
        ensures limit { result.limit ≡ limit }
        ensures none { result.rows.items ≡ [] }
    {
        BestRows {
            limit,
            rows: Vec::new(alloc),
        }
    }

    pub(crate) fn add(&mut self, row: RankRow) -> Result<(), Memory>
        ensures limit { self.new.limit ≡ self.old.limit }
        ensures best { OnOk result (HasBest self.old.limit self.new.rows.items (self.old.rows.items ++ row ∷ [])) }
    {
        self.rows.push(row)?;
        if let Some(limit) = self.limit {
            let most = MANY.max(limit as usize);
            if self.rows.len() / 2 >= most {
                sort_stably(&mut self.rows)?;
                self.rows.truncate(limit as usize);
            }
        }
        Ok(())
    }

    /// The best rows, in order.
    pub(crate) fn into_rows(self) -> Result<Vec<RankRow>, Memory>
        ensures { IfOk result (λ rows. rows.items ≡ best_of self.limit self.rows.items) }
    {
        let mut rows = self.rows;
        sort_stably(&mut rows)?;
        cut(&mut rows, self.limit);
        Ok(rows)
    }
}
