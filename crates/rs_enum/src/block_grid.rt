//! What is found of the plans of one block.

ghost use Rattle.std.specs.Prelude.{◌≡◌, ◌≤◌, [], IfOk, length, vec_capacity};
ghost use Rattle.rs_sample.specs.Kept.{cards_of};
ghost use Rattle.rs_enum.specs.Given.{CanPlan};
ghost use Rattle.rs_enum.specs.LeastCosts.{HasBlock};
ghost use Rattle.rs_enum.specs.QueryCards.{IsBlockNumber};

use crate::candidate::Candidate;
use crate::fill::{fill_block, masks};
use crate::find::candidate_at;
use crate::planning::Planning;
use rs_plan::Signature;
use rs_query::block_in;
use rs_value::Memory;
use std::alloc::Global;

/// The places of the plans of a block. There is a row of places for each mask of entries, and one more where duplicates are
/// dropped; in a row there is a place for each mask of terms. So there are at most 65 rows of 256 places.
#[derive(Drop)]
pub(crate) struct BlockGrid {
    /// How many entries and terms the block has.
    pub entries: u8,
    pub terms: u8,
    pub places: Vec<Option<Candidate>>,
    ghost room: { 16640 ≤ vec_capacity places },
    ghost small: { entries ≤ 6 },
    ghost few: { terms ≤ 8 },
}

impl BlockGrid {
    ghost use Rattle.rs_enum.specs.Grids.{IsGridOf, cost_within, plans_within};

    /// Room for any block.
    pub(crate) fn make(alloc: Global) -> Result<BlockGrid, Memory>
        ensures { IfOk result (λ grid. grid.places.items ≡ []) }
    {
        let places = Vec::with_capacity(alloc, 16640)?;
        Ok(BlockGrid {
            entries: 0,
            terms: 0,
            places,
        })
    }

    /// Forgets what was found.
    pub(crate) fn clear(&mut self)
        ensures { self.new.places.items ≡ [] }
    {
        self.places.clear();
    }

    /// Finds the plans of the block of this number.
    pub(crate) fn fill(&mut self, planning: &Planning, number: u8)
        requires planning { CanPlan planning.now }
        requires number { IsBlockNumber (cards_of planning.now.cards.now) number }
        requires block { HasBlock planning.now.query.now number }
        ensures { IsGridOf planning.now number (plans_within self.new) }
    {
        let block = block_in(planning.query, number);
        self.entries = block.from.len() as u8;
        self.terms = block.terms.len() as u8;
        fill_block(planning, number, &mut self.places);
    }

    /// The least cost that was found for a signature.
    pub(crate) fn cost(&self, entries: u8, terms: u8) -> Option<u128>
        ensures { result ≡ cost_within (plans_within self.now) entries terms }
    {
        if entries as u32 >= masks(self.entries) || terms as u32 >= masks(self.terms) {
            return None;
        }
        let found = candidate_at(self.terms, &self.places, Signature { entries, terms })?;
        Some(found.cost)
    }
}
