//! Plans over other plans.

ghost use Rattle.std.specs.Prelude.{◌≡◌, IfOk};
ghost use Rattle.rs_plan.specs.Shapes.{tree_of};
ghost use Rattle.rs_plan.specs.Trees.{Distinct, Hash, JoinOperator, Nested, Rank, SetOperator};

use rs_plan::Plan;
use rs_value::Memory;
use std::alloc::Global;

/// An operator for a term over a plan.
pub(crate) fn rank(alloc: Global, term: u8, child: Plan) -> Result<Plan, Memory>
    ensures { IfOk result (λ plan. tree_of plan ≡ Rank term (tree_of child)) }
{
    let child = Box::new(alloc, child)?;
    Ok(Plan::Rank { term, child })
}

/// A hash join of two plans.
pub(crate) fn hash_join(alloc: Global, left: Plan, right: Plan) -> Result<Plan, Memory>
    ensures { IfOk result (λ plan. tree_of plan ≡ JoinOperator Hash (tree_of left) (tree_of right)) }
{
    let (left, right) = boxes(alloc, left, right)?;
    Ok(Plan::HashJoin { left, right })
}

/// A nested join of two plans.
pub(crate) fn nested_join(alloc: Global, left: Plan, right: Plan) -> Result<Plan, Memory>
    ensures { IfOk result (λ plan. tree_of plan ≡ JoinOperator Nested (tree_of left) (tree_of right)) }
{
    let (left, right) = boxes(alloc, left, right)?;
    Ok(Plan::NestedJoin { left, right })
}

/// A plan whose duplicates are dropped.
pub(crate) fn without_duplicates(alloc: Global, child: Plan) -> Result<Plan, Memory>
    ensures { IfOk result (λ plan. tree_of plan ≡ Distinct (tree_of child)) }
{
    let child = Box::new(alloc, child)?;
    Ok(Plan::Distinct { child })
}

/// The set operator of two plans.
pub(crate) fn set_operator(alloc: Global, left: Plan, right: Plan) -> Result<Plan, Memory>
    ensures { IfOk result (λ plan. tree_of plan ≡ SetOperator (tree_of left) (tree_of right)) }
{
    let (left, right) = boxes(alloc, left, right)?;
    Ok(Plan::SetOperator { left, right })
}

/// Two plans, each in a place of its own.
fn boxes(alloc: Global, left: Plan, right: Plan) -> Result<(Box<Plan>, Box<Plan>), Memory>
    ensures { IfOk result (λ made. (made.0.value ≡ left) × (made.1.value ≡ right)) }
{
    let left = match Box::new(alloc, left) {
        Ok(left) => left,
        Err(failed) => {
            drop(failed);
            drop(right);
            return Err(Memory);
        }
    };
    match Box::new(alloc, right) {
        Ok(right) => Ok((left, right)),
        Err(failed) => {
            drop(failed);
            drop(left);
            Err(Memory)
        }
    }
}
