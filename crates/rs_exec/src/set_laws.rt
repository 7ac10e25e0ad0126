//! What the list of a set operator is, and how it asks its sides: laws that hold of every scorer, catalogue and query. The
//! functions compute nothing; each is called for its contract.

ghost use Rattle.std.specs.Prelude.{◌≡◌, ℕ, suc};
ghost use Rattle.rs_order.specs.Asks.{asks_for};
ghost use Rattle.rs_order.specs.Schedule.{Left, Right};
ghost use Rattle.rs_plan.specs.Asks.{bar_of, child_asks, keys_of};
ghost use Rattle.rs_plan.specs.Counts.{asked_of};
ghost use Rattle.rs_plan.specs.Lists.{World, weights_in};
ghost use Rattle.rs_plan.specs.Trees.{SetOperator, PlanTree};
ghost use Rattle.rs_query.specs.WellFormed.{IsQuery};
ghost use Rattle.rs_rank.specs.Keys.{key_cmp};
ghost use Rattle.rs_rank.specs.Weights.{IsWeights};
ghost use Rattle.rs_setop.specs.Sides.{answers, schedule_of};
ghost use Rattle.rs_exec.specs.Asked.{IsBoundedWorld};
ghost use Rattle.rs_exec.specs.OutputValues.{outputs_in};
ghost use Rattle.rs_exec.specs.Parts.{IsPartOf};
ghost use Rattle.rs_exec.specs.SetNodes.{operator_of, right_asks, sides_for};

/// The list of a set operator has the rows that the operator makes of the lists of its sides, in the order of their keys.
pub fn set_operators_give_the_rows_of_both_sides()
    ensures { (w : World) (left right : PlanTree) → IsQuery w.catalogue w.query → IsBoundedWorld w → IsWeights (weights_in w)
        → IsPartOf w.catalogue w.query 1 (SetOperator left right)
        → outputs_in w 1 (SetOperator left right)
        ≡ answers (sides_for w left) (operator_of w.query) (outputs_in w 1 left) (outputs_in w 2 right) }
{}

/// It asks its sides in the order that the operator's schedule over both lists says: the left side one time more than there are
/// rows of it before the next answer, and the right side of a union too; that of INTERSECT and EXCEPT for a left row that is drawn
/// up to the first row whose bound is less.
pub fn set_operators_ask_their_sides()
    ensures order { (w : World) (left right : PlanTree) (n : ℕ) → IsQuery w.catalogue w.query → IsBoundedWorld w → IsWeights (weights_in w)
        → IsPartOf w.catalogue w.query 1 (SetOperator left right)
        → child_asks w 1 (SetOperator left right) n
        ≡ schedule_of (sides_for w left) (operator_of w.query) (outputs_in w 1 left) (outputs_in w 2 right) n }
    ensures left { (w : World) (left right : PlanTree) (n : ℕ) → IsPartOf w.catalogue w.query 1 (SetOperator left right)
        → asked_of w 1 (SetOperator left right) (suc n) Left
        ≡ asks_for key_cmp (λ key. key) (keys_of w 1 left) (bar_of w 1 (SetOperator left right) n) }
    ensures right { (w : World) (left right : PlanTree) (n : ℕ) → IsPartOf w.catalogue w.query 1 (SetOperator left right)
        → asked_of w 1 (SetOperator left right) (suc n) Right
        ≡ right_asks (operator_of w.query) (keys_of w 1 left) (keys_of w 2 right) (bar_of w 1 (SetOperator left right) n) }
{}
