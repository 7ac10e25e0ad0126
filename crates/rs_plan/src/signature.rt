//! What a plan ranges over, and what it evaluates.

ghost use Rattle.std.specs.Prelude.{◌≡◌, bit_or};
ghost use Rattle.std.specs.Ordering.{nat_cmp, ordering_then};
ghost use Rattle.rs_plan.specs.Numbers.{HasNumbers};
ghost use Rattle.rs_plan.specs.Shapes.{tree_of};
ghost use Rattle.rs_plan.specs.Trees.{entries, terms};

use crate::plan::Plan;
use rs_rank::{mask_of, union};
use std::cmp::Ordering;

/// The mask of the FROM entries of a plan, and that of the terms that it evaluates.
#[derive(Clone, Copy, Debug, PartialEq, Eq)]
pub struct Signature {
    pub entries: u8,
    pub terms: u8,
}

impl Signature {
    /// The entries and the terms of both.
    fn union(self, other: Signature) -> Signature
        ensures entries { result.entries ≡ bit_or self.entries other.entries }
        ensures terms { result.terms ≡ bit_or self.terms other.terms }
    {
        Signature {
            entries: union(self.entries, other.entries),
            terms: union(self.terms, other.terms),
        }
    }

    /// The order of the numbers that the masks are, that of the entries first.
    fn cmp_masks(self, other: Signature) -> Ordering
        ensures { result ≡ ordering_then (nat_cmp self.entries other.entries) (nat_cmp self.terms other.terms) }
    {
        self.entries
            .cmp(&other.entries)
            .then(self.terms.cmp(&other.terms))
    }
}

impl Plan {
    /// The order of the masks of two plans, that of the entries first.
    pub(crate) fn cmp_signature(&self, other: &Plan) -> Ordering
        requires own { HasNumbers (tree_of self.now) }
        requires others { HasNumbers (tree_of other.now) }
        ensures { result ≡ ordering_then (nat_cmp (entries (tree_of self.now)) (entries (tree_of other.now)))
            (nat_cmp (terms (tree_of self.now)) (terms (tree_of other.now))) }
    {
        self.signature().cmp_masks(other.signature())
    }

    /// The entries of the plan, and the terms that it evaluates; of a set operator those of its left side. It takes no
    /// memory.
    pub fn signature(&self) -> Signature
        requires { HasNumbers (tree_of self.now) }
        ensures entries { result.entries ≡ entries (tree_of self.now) }
        ensures terms { result.terms ≡ terms (tree_of self.now) }
    {
        match self {
            Plan::SeqScan { entry } => Signature {
                entries: mask_of(*entry),
                terms: 0,
            },
            Plan::RankScan {
                entry,
                term,
                index: _,
            } => Signature {
                entries: mask_of(*entry),
                terms: mask_of(*term),
            },
            Plan::Rank { term, child } => {
                let below = child.signature();
                Signature {
                    entries: below.entries,
                    terms: union(below.terms, mask_of(*term)),
                }
            }
            Plan::HashJoin { left, right } | Plan::NestedJoin { left, right } => {
                left.signature().union(right.signature())
            }
            Plan::Distinct { child } => child.signature(),
            Plan::SetOperator { left, right: _ } => left.signature(),
        }
    }
}
