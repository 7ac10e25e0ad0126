//! The rows of queries that keep duplicates. Of their combinations no more is kept than what can be among the rows of the answer.

ghost use Rattle.std.specs.Prelude.{◌≡◌, ◌≤◌, ◌++◌, OnOk, map};
ghost use Rattle.std.specs.List.{AllByRecursion, flat_map};
ghost use Rattle.rs_expr.specs.InOrder.{Inquires};
ghost use Rattle.rs_query.specs.Answers.{limit_of};
ghost use Rattle.rs_query.specs.Questions.{asking};
ghost use Rattle.rs_query.specs.Tables.{HasRows, all_entries, sizes_of};
ghost use Rattle.rs_query.specs.Views.{all_rows};
ghost use Rattle.rs_query.specs.WellFormed.{IsBlock, IsQuery};
ghost use Rattle.rs_plain.specs.Keeping.{HasBest, best_of, scored_block, scored_for, scored_query};
ghost use Rattle.rs_plain.specs.Plain.{block_questions, plain_faults, questions_of, row_questions};
ghost use Rattle.rs_plain.specs.Results.{as_list};

use crate::best::BestRows;
use crate::fault::PlainFault;
use crate::scored::score_for;
use rs_catalog::Snapshot;
use rs_expr::Scorer;
use rs_query::{Block, KeptList, Query, Search, limit_of, size_of, sizes_of};
use rs_rank::{Ids, RankRow};
use std::alloc::Global;

/// About so many choices of rows are looked at in one piece, whether the conditions hold of them or not.
const PIECE: u32 = 65536;

/// The best combinations of a query with their scores, in order and as many as the limit says.
pub(crate) fn best_rows<S: Scorer>(
    alloc: Global,
    catalog: &Snapshot<'_>,
    query: &Query,
    scorer: &mut S,
) -> Result<Vec<RankRow>, PlainFault>
    requires { IsQuery catalog.now query.now }
    ensures { Inquires PlainFault.Memory
        (asking plain_faults (S.state scorer.old).answer catalog.now (questions_of catalog.now query.now (all_rows catalog.now query.now))
        (best_of (limit_of query.now) (scored_query (S.state scorer.old).answer catalog.now query.now)))
        (as_list result) (S.state scorer.old) (S.state scorer.new) }
{
    let mut best = BestRows::new(alloc, limit_of(query));
    add_query(alloc, catalog, query, &mut best, scorer)?;
    Ok(best.into_rows()?)
}

/// Scores all combinations of a query, block after block.
fn add_query<S: Scorer>(
    alloc: Global,
    catalog: &Snapshot<'_>,
    query: &Query,
    best: &mut BestRows,
    scorer: &mut S,
) -> Result<(), PlainFault>
    requires { IsQuery catalog.now query.now }
    ensures asks { Inquires PlainFault.Memory
        (asking plain_faults (S.state scorer.old).answer catalog.now (questions_of catalog.now query.now (all_rows catalog.now query.now)) tt)
        result (S.state scorer.old) (S.state scorer.new) }
    ensures limit { best.new.limit ≡ best.old.limit }
    ensures best { OnOk result (HasBest best.old.limit best.new.rows.items
        (best.old.rows.items ++ scored_query (S.state scorer.old).answer catalog.now query.now)) }
{
    match query {
        Query::One(block, _) => add_block(alloc, catalog, block, 1, best, scorer),
        Query::Set(_, left, right, _) => {
            add_block(alloc, catalog, left, 1, best, scorer)?;
            add_block(alloc, catalog, right, 2, best, scorer)
        }
    }
}

/// Scores all combinations of a block of this number, piece by piece.
fn add_block<S: Scorer>(
    alloc: Global,
    catalog: &Snapshot<'_>,
    block: &Block,
    number: u8,
    best: &mut BestRows,
    scorer: &mut S,
) -> Result<(), PlainFault>
    requires { IsBlock catalog.now block.now }
    ensures asks { Inquires PlainFault.Memory
        (asking plain_faults (S.state scorer.old).answer catalog.now (block_questions catalog.now number block.now (sizes_of catalog.now block.now)) tt)
        result (S.state scorer.old) (S.state scorer.new) }
    ensures limit { best.new.limit ≡ best.old.limit }
    ensures best { OnOk result (HasBest best.old.limit best.new.rows.items
        (best.old.rows.items ++ scored_block (S.state scorer.old).answer catalog.now number block.now)) }
{
    let size = size_of(catalog, block, 1);
    let many = rows_at_once(catalog, block);
    let mut search = Search::start(alloc, catalog, block)?;
    let mut above = 0;
    while above < size {
        let last = size.min(above + many);
        let piece = search.between(alloc, catalog, block, above, last)?;
        add_rows(alloc, catalog, block, number, &piece, best, scorer)?;
        above = last;
    }
    Ok(())
}

/// How many rows of the first entry make one piece: with the rows of the other entries they are combined in about `PIECE` ways.
fn rows_at_once(catalog: &Snapshot<'_>, block: &Block) -> u32
    requires { IsBlock catalog.now block.now }
    ensures least { 1 ≤ result }
    ensures most { result ≤ 65536 }
{
    let sizes = sizes_of(catalog, block);
    let mut rows = PIECE;
    for size in &sizes[1..] {
        rows /= (*size).max(1);
    }
    rows.max(1)
}

/// Scores some combinations of a block of this number.
fn add_rows<S: Scorer>(
    alloc: Global,
    catalog: &Snapshot<'_>,
    block: &Block,
    number: u8,
    combinations: &[[u32; 6]],
    best: &mut BestRows,
    scorer: &mut S,
) -> Result<(), PlainFault>
    requires block { IsBlock catalog.now block.now }
    requires rows { AllByRecursion (HasRows catalog.now block.now (all_entries block.now)) combinations.now }
    ensures asks { Inquires PlainFault.Memory
        (asking plain_faults (S.state scorer.old).answer catalog.now (flat_map (row_questions number block.now) combinations.now) tt)
        result (S.state scorer.old) (S.state scorer.new) }
    ensures limit { best.new.limit ≡ best.old.limit }
    ensures best { OnOk result (HasBest best.old.limit best.new.rows.items
        (best.old.rows.items ++ map (scored_for (S.state scorer.old).answer catalog.now number block.now) combinations.now)) }
{
    let mut args = KeptList::new(alloc);
    for rows in combinations {
        let ids = Ids {
            block: number,
            mask: block.all_entries(),
            rows: *rows,
        };
        let sum = score_for(catalog, block, &ids, &mut args, scorer)?;
        best.add(RankRow { ids, sum })?;
    }
    Ok(())
}
