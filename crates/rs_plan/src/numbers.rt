//! The numbers of entries and terms that stand in a tree.

ghost use Rattle.std.specs.Prelude.{◌↔◌, IsTrue};
ghost use Rattle.rs_plan.specs.Numbers.{HasNumbers, IsUpTo};
ghost use Rattle.rs_plan.specs.Shapes.{tree_of};

use crate::plan::Plan;

impl Plan {
    /// Whether all entry numbers are 1 to 6, and all term numbers 1 to 8. It takes no memory.
    pub fn has_numbers(&self) -> bool
        ensures { IsTrue result ↔ HasNumbers (tree_of self.now) }
    {
        match self {
            Plan::SeqScan { entry } => is_up_to(6, *entry),
            Plan::RankScan {
                entry,
                term,
                index: _,
            } => is_up_to(6, *entry) && is_up_to(8, *term),
            Plan::Rank { term, child } => is_up_to(8, *term) && child.has_numbers(),
            Plan::HashJoin { left, right }
            | Plan::NestedJoin { left, right }
            | Plan::SetOperator { left, right } => left.has_numbers() && right.has_numbers(),
            Plan::Distinct { child } => child.has_numbers(),
        }
    }
}

/// Whether a number is one from 1 up to another one.
fn is_up_to(most: u8, number: u8) -> bool
    ensures { IsTrue result ↔ IsUpTo most number }
{
    1 <= number && number <= most
}
