//! The costs of the plans of a query by their signatures, and the least plan that is built of what was found.

ghost use Rattle.std.specs.Prelude.{ℕ, ◌≡◌, ◌≤◌, ◌<◌, ◌^◌, IfOk, IsSome, None, Some, length, vec_capacity};
ghost use Rattle.rs_query.specs.Answers.{all_terms};
ghost use Rattle.rs_query.specs.WellFormed.{IsQuery};
ghost use Rattle.rs_sample.specs.Kept.{cards_of};
ghost use Rattle.rs_plan.specs.Shapes.{tree_of};
ghost use Rattle.rs_plan.specs.Trees.{PlanTree, SetOperator};
ghost use Rattle.rs_enum.specs.Given.{CanPlan, block_at, complete_of, top_row};
ghost use Rattle.rs_enum.specs.Least.{IsLeast};
ghost use Rattle.rs_enum.specs.LeastCosts.{HasCost};
ghost use Rattle.rs_enum.specs.Made.{AreBuilt, kept_plans};
ghost use Rattle.rs_enum.specs.Places.{candidate_at, kept_at};
ghost use Rattle.rs_enum.specs.QueryCards.{AreCards};
ghost use Rattle.rs_enum.specs.Tops.{IsExtent, plan_of};
ghost use Rattle.rs_enum.specs.declared.extent.Extent.TheVariants as whole;

use crate::block_grid::BlockGrid;
use crate::build::build;
use crate::candidate::{Candidate, Choice};
use crate::fill::{fill_set, masks, top_row};
use crate::find::candidate_at;
use crate::nodes::{rank, set_operator};
use crate::planning::Planning;
use rs_catalog::Catalog;
use rs_plan::{Plan, Signature};
use rs_query::{Block, Query, block_in};
use rs_rank::mask_of;
use rs_sample::Cards;
use rs_value::Memory;
use std::alloc::Global;
use std::marker::Model;

/// What is found of the plans of a query: in each block for each signature, and for each mask of terms above a Distinct or above a
/// set operator. It has room for any query, so that filling it again takes no memory.
#[derive(Drop)]
pub struct Grid {
    pub(crate) left: BlockGrid,
    pub(crate) right: BlockGrid,
    /// For each mask of terms the plan that has the set operator of both blocks.
    pub(crate) both: Vec<Option<Candidate>>,
    ghost room: { 256 ≤ vec_capacity both },
}

impl Model for Grid {
    ghost use Rattle.rs_enum.specs.Grids.{GridPlans, plans_within};

    ghost Value = { GridPlans };

    ghost view = { λ g. record { left = plans_within g.left; right = plans_within g.right; both = g.both.items } };
}

impl Grid {
    ghost use Rattle.rs_enum.specs.Grids.{IsSearched, IsSetSearched, cost_at};

    /// Room for any query. Nothing is found in it.
    ///
    /// # Errors
    ///
    /// - `Memory`: at any call.
    pub fn make(alloc: Global) -> Result<Grid, Memory>
        ensures { IfOk result (λ grid. (block entries terms : ℕ) → cost_at grid block entries terms ≡ None) }
    {
        let left = BlockGrid::make(alloc)?;
        let right = match BlockGrid::make(alloc) {
            Ok(right) => right,
            Err(Memory) => {
                drop(left);
                return Err(Memory);
            }
        };
        match Vec::with_capacity(alloc, 256) {
            Ok(both) => Ok(Grid { left, right, both }),
            Err(_) => {
                drop(left);
                drop(right);
                Err(Memory)
            }
        }
    }

    /// Finds the plans of a query, in place of what was found before. It takes no memory.
    pub fn fill(&mut self, catalog: &Catalog, query: &Query, cards: &Cards)
        requires query { IsQuery catalog.now query.now }
        requires cards { AreCards query.now (cards_of cards.now) }
        ensures { (block entries terms : ℕ)
            → HasCost catalog.now query.now (cards_of cards.now) block entries terms (cost_at self.new block entries terms) }
    {
        let planning = Planning {
            catalog,
            query,
            cards,
        };
        self.search(&planning);
    }

    /// The least cost of all plans of a signature of a block that drop no duplicates, by the query, the catalogue and the cards
    /// that the grid was last filled for, whatever it was filled for before.
    ///
    /// # Errors
    ///
    /// - `None`: exactly where no such plan has the signature, as where the query has no such block; and of a grid that was never
    ///   filled.
    pub fn cost(&self, block: u8, entries: u8, terms: u8) -> Option<u128>
        ensures { result ≡ cost_at self.now block entries terms }
    {
        if block == 1 {
            self.left.cost(entries, terms)
        } else if block == 2 {
            self.right.cost(entries, terms)
        } else {
            None
        }
    }

    /// Finds the plans of each block, and those that have the set operator of both.
    pub(crate) fn search(&mut self, planning: &Planning)
        requires { CanPlan planning.now }
        ensures { IsSearched planning.now self.new }
    {
        self.left.fill(planning, 1);
        match planning.query {
            Query::One(_, _) => self.right.clear(),
            Query::Set(_, _, _, _) => {
                self.right.fill(planning, 2);
                let left = &self.left;
                let right = &self.right;
                fill_set(planning, &left.places, &right.places, &mut self.both);
            }
        }
    }

    /// The least plan of the query that was searched.
    pub(crate) fn plan(&self, alloc: Global, planning: &Planning) -> Result<Plan, Memory>
        requires planning { CanPlan planning.now }
        requires searched { IsSearched planning.now self.now }
        ensures { IfOk result (λ plan. IsLeast planning.now.catalog.now planning.now.query.now (cards_of planning.now.cards.now) (tree_of plan)) }
    {
        let block = block_in(planning.query, 1);
        let all = all_terms(block);
        match planning.query {
            Query::One(_, _) => build_complete(alloc, block, &self.left.places, all),
            Query::Set(_, _, _, _) => self.build_set(alloc, planning, all),
        }
    }

    /// The plan that has the set operator of both blocks and evaluates these terms.
    fn build_set(&self, alloc: Global, planning: &Planning, evaluated: u8) -> Result<Plan, Memory>
        requires planning { CanPlan planning.now }
        requires searched { IsSetSearched planning.now self.now }
        requires evaluated { evaluated < 2 ^ length (block_at planning.now 1).terms }
        requires found { IsSome (candidate_at (length (block_at planning.now 1).terms) self.now.both 0 evaluated) }
        requires both { IsExtent planning.now.query.now (cards_of planning.now.cards.now) whole.Both }
        ensures { IfOk result (λ plan. (is : IsSetSearched planning.now self.now) → plan_of (is.both.view evaluated) ≡ Some (tree_of plan)) }
    {
        let of = Signature {
            entries: 0,
            terms: evaluated,
        };
        let count = block_in(planning.query, 1).terms.len() as u8;
        let found = candidate_at(count, &self.both, of).unwrap();
        match found.choice {
            Choice::Rank { term } => {
                let child = self.build_set(alloc, planning, evaluated ^ mask_of(term))?;
                rank(alloc, term, child)
            }
            _ => self.build_both(alloc, planning, evaluated),
        }
    }

    /// The set operator of the plans of both blocks that evaluate these terms.
    fn build_both(&self, alloc: Global, planning: &Planning, evaluated: u8) -> Result<Plan, Memory>
        requires planning { CanPlan planning.now }
        requires searched { IsSetSearched planning.now self.now }
        requires evaluated { evaluated < 2 ^ length (block_at planning.now 1).terms }
        requires left { IsSome (complete_of planning.now 1 self.now.left.places evaluated) }
        requires right { IsSome (complete_of planning.now 2 self.now.right.places evaluated) }
        requires both { IsExtent planning.now.query.now (cards_of planning.now.cards.now) whole.Both }
        ensures { IfOk result (λ plan. (l r : PlanTree) → plan_of (complete_of planning.now 1 self.now.left.places evaluated) ≡ Some l
            → plan_of (complete_of planning.now 2 self.now.right.places evaluated) ≡ Some r → tree_of plan ≡ SetOperator l r) }
    {
        let left = build_complete(
            alloc,
            block_in(planning.query, 1),
            &self.left.places,
            evaluated,
        )?;
        match build_complete(
            alloc,
            block_in(planning.query, 2),
            &self.right.places,
            evaluated,
        ) {
            Ok(right) => set_operator(alloc, left, right),
            Err(Memory) => {
                drop(left);
                Err(Memory)
            }
        }
    }
}

/// The complete plan of a block that evaluates these terms.
fn build_complete(
    alloc: Global,
    block: &Block,
    places: &[Option<Candidate>],
    evaluated: u8,
) -> Result<Plan, Memory>
    requires some { 1 ≤ length block.now.from }
    requires small { length block.now.from ≤ 6 }
    requires few { length block.now.terms ≤ 8 }
    requires built { AreBuilt block.now.terms places.now }
    requires evaluated { evaluated < 2 ^ length block.now.terms }
    requires found { IsSome (kept_at (length block.now.terms) (kept_plans block.now.terms places.now) (top_row block.now) evaluated) }
    ensures { IfOk result (λ plan. plan_of (kept_at (length block.now.terms) (kept_plans block.now.terms places.now) (top_row block.now) evaluated) ≡ Some (tree_of plan)) }
{
    let of = Signature {
        entries: top_row(block),
        terms: evaluated,
    };
    build(alloc, block, places, of)
}

/// The mask of all terms of a block.
fn all_terms(block: &Block) -> u8
    requires { length block.now.terms ≤ 8 }
    ensures { result ≡ all_terms block.now }
{
    let count = masks(block.terms.len() as u8);
    let all = count - 1;
    all as u8
}
