//! What the list of a join is, and how it asks its sides: laws that hold of every scorer, catalogue and query. The functions compute
//! nothing; each is called for its contract.

ghost use Rattle.std.specs.Prelude.{◌≡◌, ℕ, suc};
ghost use Rattle.rs_filter.specs.Matching.{IsView};
ghost use Rattle.rs_order.specs.Schedule.{Left, Right};
ghost use Rattle.rs_plan.specs.Asks.{bar_of, child_asks, keys_of};
ghost use Rattle.rs_plan.specs.Counts.{asked_of};
ghost use Rattle.rs_plan.specs.Lists.{World, list_of, numbered_block, sizes_in, weights_in};
ghost use Rattle.rs_plan.specs.Plans.{IsPart};
ghost use Rattle.rs_plan.specs.Trees.{Hash, JoinKind, JoinOperator, Nested, PlanTree};
ghost use Rattle.rs_query.specs.Tables.{sizes_of};
ghost use Rattle.rs_query.specs.WellFormed.{IsQuery};
ghost use Rattle.rs_rank.specs.Keys.{key_cmp};
ghost use Rattle.rs_rank.specs.Turns.{left_asks, right_asks};
ghost use Rattle.rs_rank.specs.Weights.{IsWeights};
ghost use Rattle.rs_ripple.specs.Stands.{answers, merged_key, schedule_of};
ghost use Rattle.rs_exec.specs.Asked.{HasBoundedWorths};
ghost use Rattle.rs_exec.specs.Joining.{join_for};

/// The list of a join is made of the rows of the lists of its sides that match, merged, in the order of their keys. It is the
/// same whichever way the join is done.
pub fn joins_give_the_pairs_that_match()
    ensures { (w : World) (number : ℕ) (kind : JoinKind) (left right : PlanTree) → IsQuery w.catalogue w.query → HasBoundedWorths w number → IsWeights (weights_in w)
        → IsView (sizes_in w number) (sizes_of w.catalogue (numbered_block w number))
        → IsPart w.catalogue (numbered_block w number) (JoinOperator kind left right)
        → list_of w number (JoinOperator kind left right)
        ≡ answers (join_for w number left right) (list_of w number left) (list_of w number right) }
{}

/// It asks its sides in the order of the join's schedule over both lists. So it asks each side one time more than there are rows of it
/// whose key, merged with the first one of the other side, comes before that of the next answer; where the left side is empty, it
/// asks the right one not at all. A hash join asks as a nested one does.
pub fn joins_ask_their_sides()
    ensures order { (w : World) (number : ℕ) (kind : JoinKind) (left right : PlanTree) (n : ℕ) → IsQuery w.catalogue w.query
        → HasBoundedWorths w number → IsWeights (weights_in w) → IsView (sizes_in w number) (sizes_of w.catalogue (numbered_block w number))
        → IsPart w.catalogue (numbered_block w number) (JoinOperator kind left right)
        → child_asks w number (JoinOperator kind left right) n
        ≡ schedule_of (join_for w number left right) (list_of w number left) (list_of w number right) n }
    ensures left { (w : World) (number : ℕ) (kind : JoinKind) (left right : PlanTree) (n : ℕ) → IsQuery w.catalogue w.query
        → HasBoundedWorths w number → IsWeights (weights_in w) → IsView (sizes_in w number) (sizes_of w.catalogue (numbered_block w number))
        → IsPart w.catalogue (numbered_block w number) (JoinOperator kind left right)
        → asked_of w number (JoinOperator kind left right) (suc n) Left
        ≡ left_asks key_cmp (merged_key (join_for w number left right)) (keys_of w number left) (keys_of w number right)
        (bar_of w number (JoinOperator kind left right) n) }
    ensures right { (w : World) (number : ℕ) (kind : JoinKind) (left right : PlanTree) (n : ℕ) → IsQuery w.catalogue w.query
        → HasBoundedWorths w number → IsWeights (weights_in w) → IsView (sizes_in w number) (sizes_of w.catalogue (numbered_block w number))
        → IsPart w.catalogue (numbered_block w number) (JoinOperator kind left right)
        → asked_of w number (JoinOperator kind left right) (suc n) Right
        ≡ right_asks key_cmp (merged_key (join_for w number left right)) (keys_of w number left) (keys_of w number right)
        (bar_of w number (JoinOperator kind left right) n) }
    ensures hashed { (w : World) (number : ℕ) (left right : PlanTree) (n : ℕ)
        → child_asks w number (JoinOperator Hash left right) n ≡ child_asks w number (JoinOperator Nested left right) n }
{}
