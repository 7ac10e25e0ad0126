ghost use Rattle.std.specs.Prelude.{ℕ, ◌≤◌};
ghost use Rattle.std.specs.List.{AllByRecursion};
ghost use Rattle.rs_rank.specs.Weights.{IsWeights};
ghost use Rattle.rs_query.specs.Answers.{weights_of};
ghost use Rattle.rs_query.specs.Blocks.{block_in};
ghost use Rattle.rs_query.specs.Tables.{sizes_of};
ghost use Rattle.rs_query.specs.WellFormed.{IsQuery};

use crate::query::Query;
use rs_catalog::Snapshot;

/// No table of either block has more than 131,072 rows. In block 1 no weight is above 1,000,000 and no maximum of a term above
/// 4,294,967,295; so it is in block 2, which has the same (`scores_are_evaluated`). It computes nothing; it is called for its contract.
pub fn limits_hold(catalog: &Snapshot<'_>, query: &Query)
    requires { IsQuery catalog.now query.now }
    ensures rows { (number : ℕ) → AllByRecursion (λ size. size ≤ 131072) (sizes_of catalog.now (block_in query.now number)) }
    ensures weights { IsWeights (weights_of (block_in query.now 1)) }
{
    catalog.limits_hold();
}
