//! Trees of plans, built from the scans upwards.

use rs_plan::Plan;
use std::alloc::Global;
use std::test::Fail;

/// What is put on a stack of trees. What has children takes them from its top, the right one first.
#[derive(Clone, Copy, Debug)]
pub(crate) enum Step {
    Scan(u8),
    RankScan(u8, u8, u8),
    Rank(u8),
    HashJoin,
    NestedJoin,
    Distinct,
    SetOperator,
}

/// The tree of some steps.
pub(crate) fn tree(alloc: Global, steps: &[Step]) -> Result<Plan, Fail> {
    let mut stack = Vec::new(alloc);
    for step in steps {
        let plan = next(alloc, &mut stack, *step)?;
        stack.push(plan)?;
    }
    Ok(stack.pop().ok_or("no tree")?)
}

/// The tree of a step over those that it takes.
fn next(alloc: Global, stack: &mut Vec<Plan>, step: Step) -> Result<Plan, Fail> {
    match step {
        Step::Scan(entry) => Ok(Plan::SeqScan { entry }),
        Step::RankScan(entry, term, index) => Ok(Plan::RankScan { entry, term, index }),
        Step::Rank(term) => Ok(Plan::Rank {
            term,
            child: child(alloc, stack)?,
        }),
        Step::HashJoin => {
            let (left, right) = children(alloc, stack)?;
            Ok(Plan::HashJoin { left, right })
        }
        Step::NestedJoin => {
            let (left, right) = children(alloc, stack)?;
            Ok(Plan::NestedJoin { left, right })
        }
        Step::Distinct => Ok(Plan::Distinct {
            child: child(alloc, stack)?,
        }),
        Step::SetOperator => {
            let (left, right) = children(alloc, stack)?;
            Ok(Plan::SetOperator { left, right })
        }
    }
}

/// The tree at the top.
fn child(alloc: Global, stack: &mut Vec<Plan>) -> Result<Box<Plan>, Fail> {
    let plan = stack.pop().ok_or("no child")?;
    Ok(Box::new(alloc, plan)?)
}

/// The two trees at the top, the lower one first.
fn children(alloc: Global, stack: &mut Vec<Plan>) -> Result<(Box<Plan>, Box<Plan>), Fail> {
    let right = child(alloc, stack)?;
    match child(alloc, stack) {
        Ok(left) => Ok((left, right)),
        Err(fail) => {
            drop(right);
            Err(fail)
        }
    }
}
