//! The order of the codes of plans.

ghost use Rattle.std.specs.Prelude.{◌≡◌};
ghost use Rattle.rs_plan.specs.Numbers.{HasNumbers, kind_number};
ghost use Rattle.rs_plan.specs.Shapes.{tree_of};
ghost use Rattle.rs_plan.specs.Trees.{code, code_cmp};

use crate::plan::Plan;
use std::cmp::Ordering;

impl Plan {
    /// The order of the codes of two plans, number by number. It takes no memory.
    pub fn cmp_code(&self, other: &Plan) -> Ordering
        requires own { HasNumbers (tree_of self.now) }
        requires others { HasNumbers (tree_of other.now) }
        ensures { result ≡ code_cmp (code (tree_of self.now)) (code (tree_of other.now)) }
    {
        match self {
            Plan::SeqScan { entry } => match other {
                Plan::SeqScan { entry: other } => entry.cmp(other),
                _ => self.kind_number().cmp(&other.kind_number()),
            },
            Plan::RankScan {
                entry,
                term,
                index: _,
            } => match other {
                Plan::RankScan {
                    entry: other_entry,
                    term: other_term,
                    index: _,
                } => entry.cmp(other_entry).then(term.cmp(other_term)),
                _ => self.kind_number().cmp(&other.kind_number()),
            },
            Plan::Rank { term, child } => match other {
                Plan::Rank {
                    term: other_term,
                    child: other_child,
                } => term.cmp(other_term).then(child.cmp_code(other_child)),
                _ => self.kind_number().cmp(&other.kind_number()),
            },
            Plan::HashJoin { left, right } | Plan::NestedJoin { left, right } => match other {
                Plan::HashJoin {
                    left: other_left,
                    right: other_right,
                }
                | Plan::NestedJoin {
                    left: other_left,
                    right: other_right,
                } => {
                    let kinds = self.kind_number().cmp(&other.kind_number());
                    let masks = left.cmp_signature(other_left);
                    let sides = left.cmp_code(other_left).then(right.cmp_code(other_right));
                    kinds.then(masks.then(sides))
                }
                _ => self.kind_number().cmp(&other.kind_number()),
            },
            Plan::Distinct { child } => match other {
                Plan::Distinct { child: other_child } => child.cmp_code(other_child),
                _ => self.kind_number().cmp(&other.kind_number()),
            },
            Plan::SetOperator { left, right } => match other {
                Plan::SetOperator {
                    left: other_left,
                    right: other_right,
                } => left.cmp_code(other_left).then(right.cmp_code(other_right)),
                _ => self.kind_number().cmp(&other.kind_number()),
            },
        }
    }

    /// The number of the plan's kind, with which its code begins.
    fn kind_number(&self) -> u8
        ensures { result ≡ kind_number (tree_of self.now) }
    {
        match self {
            Plan::SeqScan { entry: _ } => 1,
            Plan::RankScan {
                entry: _,
                term: _,
                index: _,
            } => 2,
            Plan::Rank { term: _, child: _ } => 3,
            Plan::HashJoin { left: _, right: _ } => 4,
            Plan::NestedJoin { left: _, right: _ } => 5,
            Plan::Distinct { child: _ } => 6,
            Plan::SetOperator { left: _, right: _ } => 7,
        }
    }
}
