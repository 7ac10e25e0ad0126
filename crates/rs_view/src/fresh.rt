//! The rows that new combinations of a block make. It is here that the scorer is called.

ghost use Rattle.std.specs.Prelude.{take};
ghost use Rattle.rs_expr.specs.InOrder.{Inquires};
ghost use Rattle.rs_plain.specs.Plain.{plain_faults};
ghost use Rattle.rs_plain.specs.Results.{as_list};
ghost use Rattle.rs_query.specs.Blocks.{block_in};
ghost use Rattle.rs_query.specs.Questions.{asking};
ghost use Rattle.rs_query.specs.WellFormed.{IsQuery};
ghost use Rattle.rs_rank.specs.Stable.{stable};
ghost use Rattle.rs_view.specs.Fresh.{fresh_questions, fresh_rows};

use rs_catalog::Snapshot;
use rs_expr::Scorer;
use rs_plain::{PlainFault, scored_rows};
use rs_query::{Query, block_in};
use rs_rank::{RankRow, sort_stably};
use std::alloc::Global;

/// The first rows that the combinations of a query's block make of which some row is behind those of an old view, at most so many.
/// All are scored.
pub(crate) fn fresh_rows<S: Scorer>(
    alloc: Global,
    catalog: &Snapshot<'_>,
    query: &Query,
    old: &[u32; 6],
    most: u32,
    scorer: &mut S,
) -> Result<Vec<RankRow>, PlainFault>
    requires { IsQuery catalog.now query.now }
    ensures { Inquires PlainFault.Memory
        (asking plain_faults (S.state scorer.old).answer catalog.now (fresh_questions catalog.now (block_in query.now 1) old.now)
        (take most (stable (λ row. row.sum) (fresh_rows (S.state scorer.old).answer catalog.now (block_in query.now 1) old.now))))
        (as_list result) (S.state scorer.old) (S.state scorer.new) }
{
    let block = block_in(query, 1);
    let combinations = block.fresh(alloc, catalog, old)?;
    let mut scored = scored_rows(alloc, catalog, block, 1, &combinations, scorer)?;
    sort_stably(&mut scored)?;
    scored.truncate(most as usize);
    Ok(scored)
}
