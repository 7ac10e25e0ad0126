//! What the list of DISTINCT is: a law that holds of every scorer, catalogue and query. The function computes nothing; it is
//! called for its contract.

ghost use Rattle.std.specs.Prelude.{◌≡◌, ℕ};
ghost use Rattle.rs_outputs.specs.Rows.{firsts};
ghost use Rattle.rs_plan.specs.Lists.{World, numbered_block, weights_in};
ghost use Rattle.rs_plan.specs.Plans.{IsPart};
ghost use Rattle.rs_plan.specs.Trees.{Distinct, PlanTree};
ghost use Rattle.rs_query.specs.WellFormed.{IsQuery};
ghost use Rattle.rs_rank.specs.Weights.{IsWeights};
ghost use Rattle.rs_exec.specs.Asked.{HasBoundedWorths};
ghost use Rattle.rs_exec.specs.OutputValues.{outputs_in};

/// The list of an operator that drops duplicates has the rows of its input's list, but of each list of output values the first
/// row alone, in the same order.
pub fn distinct_gives_the_first_rows()
    ensures { (w : World) (number : ℕ) (child : PlanTree) → IsQuery w.catalogue w.query → HasBoundedWorths w number
        → IsWeights (weights_in w)
        → IsPart w.catalogue (numbered_block w number) (Distinct child)
        → outputs_in w number (Distinct child) ≡ firsts (outputs_in w number child) }
{}
