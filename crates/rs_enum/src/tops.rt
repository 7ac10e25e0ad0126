//! The least plans of all entries of a block, or of both blocks, where operators for terms stand above a plan that drops duplicates
//! or above the set operator.

ghost use Rattle.std.specs.Prelude.{ℕ, ◌≡◌, ◌≤◌, ◌<◌, ◌^◌, Option, length};
ghost use Rattle.rs_sample.specs.Kept.{cards_of};
ghost use Rattle.rs_query.specs.Blocks.{block_in};
ghost use Rattle.rs_enum.specs.declared.extent.Extent.TheVariants as whole;
ghost use Rattle.rs_enum.specs.Bounds.{IsNumberedTerm};
ghost use Rattle.rs_enum.specs.Places.{Placed};
ghost use Rattle.rs_enum.specs.Given.{AreTopsIn, CanPlan, CanRank, HasTops, IsTheBaseOf, IsTheFirstIn, IsTheRankOf, block_above};
ghost use Rattle.rs_enum.specs.Tops.{IsExtent, base_top, number_of, rows_most, whole_rows};

use crate::candidate::{Candidate, Choice};
use crate::costs::{call_cost, rows_of_all, with_calls};
use crate::extent::Extent;
use crate::find::{candidate_at, cheaper};
use crate::planning::Planning;
use crate::row::Row;
use rs_plan::Signature;
use rs_query::block_in;
use rs_rank::{has_number, mask_of};

/// The block whose terms are evaluated.
fn number_of(extent: Extent) -> u8
    ensures { result ≡ number_of extent }
{
    match extent {
        Extent::Block { number } => number,
        Extent::Both => 1,
    }
}

/// How many rows are expected of all entries, once these terms are evaluated.
fn whole_rows(planning: &Planning, extent: Extent, evaluated: u8) -> u128
    requires planning { CanPlan planning.now }
    requires extent { IsExtent planning.now.query.now (cards_of planning.now.cards.now) extent }
    requires evaluated { evaluated < 2 ^ length (block_in planning.now.query.now (number_of extent)).terms }
    ensures value { result ≡ whole_rows planning.now.query.now (cards_of planning.now.cards.now) extent evaluated }
    ensures most { result ≤ rows_most extent }
{
    match extent {
        Extent::Block { number } => rows_of_all(planning, number, evaluated),
        Extent::Both => both_rows(planning, evaluated),
    }
}

/// How many rows are expected of all entries of both blocks.
fn both_rows(planning: &Planning, evaluated: u8) -> u128
    requires planning { CanPlan planning.now }
    requires both { IsExtent planning.now.query.now (cards_of planning.now.cards.now) whole.Both }
    requires evaluated { evaluated < 2 ^ length (block_in planning.now.query.now 1).terms }
    ensures value { result ≡ whole_rows planning.now.query.now (cards_of planning.now.cards.now) whole.Both evaluated }
    ensures most { result ≤ 2 ^ 103 }
{
    let left = rows_of_all(planning, 1, evaluated);
    let right = rows_of_all(planning, 2, evaluated);
    left + right
}

impl Row<'_> {
    /// An operator for a term over what was found without it.
    fn rank(&self, evaluated: u8, term: u8) -> Option<Candidate>
        requires row { CanRank self.now }
        requires tops { HasTops self.now evaluated }
        requires evaluated { evaluated < 2 ^ length (block_above self.now).terms }
        requires term { IsNumberedTerm (block_above self.now) term }
        ensures { (tops : ℕ → Option Placed) → AreTopsIn self.now evaluated tops → IsTheRankOf self.now tops evaluated term result }
    {
        if !has_number(evaluated, term) {
            return None;
        }
        let block = block_in(self.planning.query, number_of(self.extent));
        let terms = evaluated ^ mask_of(term);
        let below = Signature {
            entries: self.entries,
            terms,
        };
        let child = candidate_at(block.terms.len() as u8, self.places, below)?;
        let rows = whole_rows(&self.planning, self.extent, terms);
        let cost = with_calls(
            child.cost,
            rows,
            call_cost(self.planning.catalog, block, term),
        );
        Some(Candidate {
            cost,
            choice: Choice::Rank { term },
        })
    }

    /// The first of all operators for terms.
    fn first_rank(&self, evaluated: u8) -> Option<Candidate>
        requires row { CanRank self.now }
        requires tops { HasTops self.now evaluated }
        requires evaluated { evaluated < 2 ^ length (block_above self.now).terms }
        ensures { (base : Option Placed) (tops : ℕ → Option Placed) → AreTopsIn self.now evaluated tops → IsTheFirstIn self.now base tops evaluated 9 result }
    {
        let count = block_in(self.planning.query, number_of(self.extent))
            .terms
            .len() as u8;
        let mut best = None;
        for place in 0..count {
            best = cheaper(best, self.rank(evaluated, place + 1));
        }
        best
    }

    /// The first of all plans of these terms, where this one stands there without an operator for a term at the root.
    pub(crate) fn first(&self, evaluated: u8, base: Option<Candidate>) -> Option<Candidate>
        requires row { CanRank self.now }
        requires tops { HasTops self.now evaluated }
        requires evaluated { evaluated < 2 ^ length (block_above self.now).terms }
        ensures { (kept : Option Placed) (tops : ℕ → Option Placed) → IsTheBaseOf self.now.planning self.now.extent evaluated kept → base ≡ base_top kept
            → AreTopsIn self.now evaluated tops → IsTheFirstIn self.now kept tops evaluated 10 result }
    {
        cheaper(self.first_rank(evaluated), base)
    }
}
