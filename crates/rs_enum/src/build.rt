//! The plan that is built of what was found.

ghost use Rattle.std.specs.Prelude.{◌≡◌, ◌≤◌, ◌<◌, ◌^◌, IfOk, IsSome, Some, bit_and, length};
ghost use Rattle.rs_plan.specs.Shapes.{tree_of};
ghost use Rattle.rs_plan.specs.Trees.{PlanTree};
ghost use Rattle.rs_enum.specs.Made.{AreBuilt, AreSidesBuilt, kept_plans};
ghost use Rattle.rs_enum.specs.Places.{candidate_at, tree_at};
ghost use Rattle.rs_enum.specs.Within.{terms_within};

use crate::candidate::{Candidate, Choice};
use crate::find::{candidate_at, terms_inside};
use crate::nodes::{hash_join, nested_join, rank, without_duplicates};
use rs_plan::{Plan, Signature};
use rs_query::Block;
use rs_rank::mask_of;
use rs_value::Memory;
use std::alloc::Global;

/// The part of a signature that has these entries, with the terms that speak of them alone.
fn side_of(block: &Block, of: Signature, entries: u8) -> Signature
    requires { length block.now.terms ≤ 8 }
    ensures entries { result.entries ≡ entries }
    ensures terms { result.terms ≡ bit_and of.terms (terms_within entries block.now.terms) }
{
    Signature {
        entries,
        terms: of.terms & terms_inside(block, entries),
    }
}

/// The plan of a signature of a block.
#[cycle(build)]
pub(crate) fn build(
    alloc: Global,
    block: &Block,
    places: &[Option<Candidate>],
    of: Signature,
) -> Result<Plan, Memory>
    requires few { length block.now.terms ≤ 8 }
    requires built { AreBuilt block.now.terms places.now }
    requires terms { of.terms < 2 ^ length block.now.terms }
    requires found { IsSome (candidate_at (length block.now.terms) places.now of.entries of.terms) }
    ensures { IfOk result (λ plan. tree_at (length block.now.terms) (kept_plans block.now.terms places.now) of.entries of.terms ≡ Some (tree_of plan)) }
{
    let found = candidate_at(block.terms.len() as u8, places, of).unwrap();
    match found.choice {
        Choice::SeqScan { entry } => Ok(Plan::SeqScan { entry }),
        Choice::RankScan { entry, term, index } => Ok(Plan::RankScan { entry, term, index }),
        Choice::Rank { term } => {
            let below = Signature {
                entries: of.entries,
                terms: of.terms ^ mask_of(term),
            };
            let child = build(alloc, block, places, below)?;
            rank(alloc, term, child)
        }
        Choice::HashJoin { left } => {
            let (left, right) = build_sides(alloc, block, places, of, left)?;
            hash_join(alloc, left, right)
        }
        Choice::NestedJoin { left } => {
            let (left, right) = build_sides(alloc, block, places, of, left)?;
            nested_join(alloc, left, right)
        }
        Choice::Base => {
            let below = Signature {
                entries: of.entries - 1,
                terms: of.terms,
            };
            let child = build(alloc, block, places, below)?;
            without_duplicates(alloc, child)
        }
    }
}

/// The plans of both sides of a join of a signature, where the left one has these entries.
#[cycle(build)]
fn build_sides(
    alloc: Global,
    block: &Block,
    places: &[Option<Candidate>],
    of: Signature,
    left: u8,
) -> Result<(Plan, Plan), Memory>
    requires few { length block.now.terms ≤ 8 }
    requires built { AreBuilt block.now.terms places.now }
    requires terms { of.terms < 2 ^ length block.now.terms }
    requires sides { (l : PlanTree) × (r : PlanTree) × AreSidesBuilt block.now.terms (kept_plans block.now.terms places.now) of.entries of.terms left l r }
    ensures { IfOk result (λ sides. AreSidesBuilt block.now.terms (kept_plans block.now.terms places.now) of.entries of.terms left (tree_of sides.0) (tree_of sides.1)) }
{
    let right_of = side_of(block, of, of.entries ^ left);
    let left_plan = build(alloc, block, places, side_of(block, of, left))?;
    match build(alloc, block, places, right_of) {
        Ok(right_plan) => Ok((left_plan, right_plan)),
        Err(Memory) => {
            drop(left_plan);
            Err(Memory)
        }
    }
}
