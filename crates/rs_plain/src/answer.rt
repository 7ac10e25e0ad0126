ghost use Rattle.std.specs.Prelude.{◌≡◌, IfErr, true};
ghost use Rattle.rs_expr.specs.InOrder.{Inquires};
ghost use Rattle.rs_plain.specs.Keeping.{keeps_duplicates};
ghost use Rattle.rs_plain.specs.Plain.{evaluation_of};
ghost use Rattle.rs_plain.specs.Results.{NamesCalled, as_list};
ghost use Rattle.rs_query.specs.Answers.{cut};
ghost use Rattle.rs_query.specs.Views.{all_rows};
ghost use Rattle.rs_query.specs.WellFormed.{IsQuery};

use crate::fault::PlainFault;
use crate::limited::best_rows;
use crate::outputs::query_answers;
use crate::rows::query_rows;
use rs_catalog::{Catalog, Snapshot};
use rs_expr::Scorer;
use rs_query::{Query, limit_of};
use rs_rank::{Answer, sort_stably};
use rs_value::SetOp;
use std::alloc::Global;

/// The answer of a query: everything joined, filtered and scored, duplicates dropped where the query says so, and the rest stably
/// sorted and cut to LIMIT. The scorer is called for every combination in lexicographic order, block after block, and for each
/// combination for the terms in order, up to the first fault.
///
/// # Errors
///
/// - `BadScore`: exactly at the first call whose answer lies outside 0 to the predicate's MAX, unless `Probe` or
///   `Memory` came before.
/// - `Probe`: only where the last call that was made failed; the scorer's count of faults rose.
/// - `Memory`: at any time, but not behind an answer outside that range. Then the calls that were made are the first
///   ones, in their order.
pub fn answer_plainly<S: Scorer>(
    alloc: Global,
    catalog: &Catalog,
    query: &Query,
    scorer: &mut S,
) -> Result<Vec<Answer>, PlainFault>
    requires { IsQuery catalog.now query.now }
    // The query sees all rows that its tables have now.
    ensures evaluates { Inquires PlainFault.Memory
        (evaluation_of (S.state scorer.old).answer catalog.now query.now (all_rows catalog.now query.now))
        (as_list result) (S.state scorer.old) (S.state scorer.new) }

    // A bad or failed call is one of a term of the query.
    ensures names { IfErr result (NamesCalled catalog.now query.now) }
{
    answer_over(alloc, &Snapshot::current(catalog), query, scorer)
}

/// The answer of a query over what is seen of a catalogue.
fn answer_over<S: Scorer>(
    alloc: Global,
    catalog: &Snapshot<'_>,
    query: &Query,
    scorer: &mut S,
) -> Result<Vec<Answer>, PlainFault>
    requires { IsQuery catalog.now query.now }
    ensures evaluates { Inquires PlainFault.Memory
        (evaluation_of (S.state scorer.old).answer catalog.now query.now (all_rows catalog.now query.now))
        (as_list result) (S.state scorer.old) (S.state scorer.new) }
    ensures names { IfErr result (NamesCalled catalog.now query.now) }
{
    if keeps_duplicates(query) {
        return answer_with_duplicates(alloc, catalog, query, scorer);
    }
    let mut rows = query_rows(alloc, catalog, query, scorer)?;
    sort_stably(&mut rows)?;
    cut(&mut rows, limit_of(query));
    Ok(rows)
}

/// Whether a query keeps duplicates, so that it compares no rows by their output values.
fn keeps_duplicates(query: &Query) -> bool
    ensures { result ≡ keeps_duplicates query.now }
{
    match query {
        Query::One(block, _) => !block.distinct,
        Query::Set(SetOp::UnionAll, left, right, _) => !left.distinct && !right.distinct,
        Query::Set(_, _, _, _) => false,
    }
}

/// The answer of a query that keeps duplicates. Output values are made behind the order and the limit, for the rows of the
/// answer alone.
fn answer_with_duplicates<S: Scorer>(
    alloc: Global,
    catalog: &Snapshot<'_>,
    query: &Query,
    scorer: &mut S,
) -> Result<Vec<Answer>, PlainFault>
    requires query { IsQuery catalog.now query.now }
    requires keeps { keeps_duplicates query.now ≡ true }
    ensures { Inquires PlainFault.Memory
        (evaluation_of (S.state scorer.old).answer catalog.now query.now (all_rows catalog.now query.now))
        (as_list result) (S.state scorer.old) (S.state scorer.new) }
{
    let best = best_rows(alloc, catalog, query, scorer)?;
    Ok(query_answers(alloc, catalog, query, &best)?)
}

/// Drops the rows behind the limit, where there is one.
pub(crate) fn cut<T: Drop>(rows: &mut Vec<T>, limit: Option<u32>)
    ensures { rows.new.items ≡ cut limit rows.old.items }
{
    if let Some(limit) = limit {
        rows.truncate(limit as usize);
    }
}
