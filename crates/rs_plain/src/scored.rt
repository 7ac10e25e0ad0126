//! The combinations of blocks with their scores. It is here that the scorer is called.

ghost use Rattle.std.specs.Prelude.{◌≡◌, map};
ghost use Rattle.std.specs.List.{AllByRecursion, flat_map};
ghost use Rattle.rs_expr.specs.InOrder.{Inquires};
ghost use Rattle.rs_query.specs.Answers.{score_of};
ghost use Rattle.rs_query.specs.Questions.{asking};
ghost use Rattle.rs_query.specs.Tables.{HasRows, all_entries, sizes_of};
ghost use Rattle.rs_query.specs.WellFormed.{IsBlock};
ghost use Rattle.rs_plain.specs.Keeping.{scored_block, scored_for};
ghost use Rattle.rs_plain.specs.Plain.{block_questions, plain_faults, row_questions};
ghost use Rattle.rs_plain.specs.Results.{as_list};

use crate::fault::PlainFault;
use rs_catalog::Snapshot;
use rs_expr::Scorer;
use rs_query::{Block, KeptList};
use rs_rank::{Ids, RankRow};
use std::alloc::Global;

/// All combinations of a block of this number, each with its score.
pub(crate) fn scored_block<S: Scorer>(
    alloc: Global,
    catalog: &Snapshot<'_>,
    block: &Block,
    number: u8,
    scorer: &mut S,
) -> Result<Vec<RankRow>, PlainFault>
    requires { IsBlock catalog.now block.now }
    ensures { Inquires PlainFault.Memory
        (asking plain_faults (S.state scorer.old).answer catalog.now (block_questions catalog.now number block.now (sizes_of catalog.now block.now))
        (scored_block (S.state scorer.old).answer catalog.now number block.now))
        (as_list result) (S.state scorer.old) (S.state scorer.new) }
{
    let combinations = block.combinations(alloc, catalog)?;
    scored_rows(alloc, catalog, block, number, &combinations, scorer)
}

/// Some combinations of a block of this number, each with its score. The scorer is called for each of them for the terms in order, up to
/// the first fault.
///
/// # Errors
///
/// - `BadScore`: exactly at the first call whose answer lies outside 0 to the predicate's MAX, unless `Probe` or
///   `Memory` came before.
/// - `Probe`: only where the last call that was made failed; the scorer's count of faults rose.
/// - `Memory`: at any time, but not behind an answer outside that range. Then the calls that were made are the first
///   ones, in their order.
pub fn scored_rows<S: Scorer>(
    alloc: Global,
    catalog: &Snapshot<'_>,
    block: &Block,
    number: u8,
    combinations: &[[u32; 6]],
    scorer: &mut S,
) -> Result<Vec<RankRow>, PlainFault>
    requires block { IsBlock catalog.now block.now }
    requires rows { AllByRecursion (HasRows catalog.now block.now (all_entries block.now)) combinations.now }
    ensures { Inquires PlainFault.Memory
        (asking plain_faults (S.state scorer.old).answer catalog.now (flat_map (row_questions number block.now) combinations.now)
        (map (scored_for (S.state scorer.old).answer catalog.now number block.now) combinations.now))
        (as_list result) (S.state scorer.old) (S.state scorer.new) }
{
    let mut scored = Vec::new(alloc);
    let mut args = KeptList::new(alloc);
    for rows in combinations {
        let ids = Ids {
            block: number,
            mask: block.all_entries(),
            rows: *rows,
        };
        let sum = score_for(catalog, block, &ids, &mut args, scorer)?;
        scored.push(RankRow { ids, sum })?;
    }
    Ok(scored)
}

/// The score of a combination of all entries: the sum of weight times worth over the terms, which are asked in order.
pub(crate) fn score_for<S: Scorer>(
    catalog: &Snapshot<'_>,
    block: &Block,
    ids: &Ids,
    args: &mut KeptList,
    scorer: &mut S,
) -> Result<u64, PlainFault>
    requires block { IsBlock catalog.now block.now }
    requires all { ids.now.mask ≡ all_entries block.now }
    requires rows { HasRows catalog.now block.now (all_entries block.now) ids.now.rows }
    ensures { Inquires PlainFault.Memory
        (asking plain_faults (S.state scorer.old).answer catalog.now (row_questions ids.now.block block.now ids.now.rows)
        (score_of (S.state scorer.old).answer catalog.now block.now ids.now.rows block.now.terms))
        result (S.state scorer.old) (S.state scorer.new) }
{
    let mut score = 0;
    for (index, term) in block.terms.items().iter().enumerate() {
        let worth = block.ask(catalog, index as u8 + 1, ids, args, scorer)?;
        score += u64::from(term.weight) * u64::from(worth);
    }
    Ok(score)
}
