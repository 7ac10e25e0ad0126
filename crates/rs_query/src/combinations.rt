//! The combinations of a block. They are found entry by entry, along the equalities of the conditions.

ghost use Rattle.std.specs.Prelude.{◌≡◌, ◌≤◌, ◌<◌, ◌-◌, IfOk, OnOk, [], length, replicate, slice_set, true};
ghost use Rattle.std.specs.List.{AllByRecursion};
ghost use Rattle.rs_query.specs.Combinations.{all_combinations, satisfies};
ghost use Rattle.rs_query.specs.Fresh.{fresh_combinations};
ghost use Rattle.rs_query.specs.Searching.{Adds, AreSteps, GoesOn, IsBegun, IsNewAt, IsNewBefore};
ghost use Rattle.rs_query.specs.Tables.{HasRows, all_entries, sizes_of};
ghost use Rattle.rs_query.specs.WellFormed.{IsBlock};

use crate::block::Block;
use crate::sizes::size_of;
use crate::step::Step;
use rs_catalog::Snapshot;
use rs_rank::{Ids, mask_of, union};
use rs_value::Memory;
use std::alloc::Global;

impl Block {
    /// The combinations of all entries of which every conjunct holds, in lexicographic order: for each entry the number of
    /// its row, counted from 1, and 0 past the last entry. At an entry that an equality ties to entries before it in the search only
    /// the rows of equal cells are looked at, so the time is that of a join and not of the product.
    ///
    /// # Errors
    ///
    /// - `Memory`: at any call.
    pub fn combinations(
        &self,
        alloc: Global,
        catalog: &Snapshot<'_>,
    ) -> Result<Vec<[u32; 6]>, Memory>
        requires { IsBlock catalog.now self.now }
        ensures value { IfOk result (λ rows. rows.items ≡ all_combinations catalog.now self.now) }
        ensures each { IfOk result (λ rows. AllByRecursion (HasRows catalog.now self.now (all_entries self.now)) rows.items) }
    {
        self.fresh(alloc, catalog, &[0; 6])
    }

    /// The combinations in which some row is behind those that an old view has of its entry, in lexicographic order. An entry
    /// that has no such row costs no more than a look at its size.
    ///
    /// # Errors
    ///
    /// - `Memory`: at any call.
    pub fn fresh(
        &self,
        alloc: Global,
        catalog: &Snapshot<'_>,
        old: &[u32; 6],
    ) -> Result<Vec<[u32; 6]>, Memory>
        requires { IsBlock catalog.now self.now }
        ensures value { IfOk result (λ rows. rows.items ≡ fresh_combinations catalog.now self.now old.now (sizes_of catalog.now self.now)) }
        ensures each { IfOk result (λ rows. AllByRecursion (HasRows catalog.now self.now (all_entries self.now)) rows.items) }
    {
        let mut found = Vec::new(alloc);
        self.find_all(alloc, catalog, old, &mut found)?;
        found.sort_unstable();
        Ok(found)
    }

    /// Finds the combinations with a new row, first those in which the first entry has one.
    fn find_all(
        &self,
        alloc: Global,
        catalog: &Snapshot<'_>,
        old: &[u32; 6],
        found: &mut Vec<[u32; 6]>,
    ) -> Result<(), Memory>
        requires { IsBlock catalog.now self.now }
        ensures { OnOk result (Adds (IsNewBefore catalog.now self.now old.now (length self.now.from)) found.old.items found.new.items) }
    {
        if !self.holds_of_all(catalog) {
            return Ok(());
        }
        for place in 0..self.from.len() {
            self.find(alloc, catalog, place as u8 + 1, old, found)?;
            // Every row of this entry is new, so no combination is left whose first new row is that of an entry behind it.
            if old[place] == 0 {
                return Ok(());
            }
        }
        Ok(())
    }

    /// Whether the conditions without columns hold.
    pub(crate) fn holds_of_all(&self, catalog: &Snapshot<'_>) -> bool
        requires { IsBlock catalog.now self.now }
        ensures { result ≡ satisfies catalog.now self.now 0 (replicate 6 0) }
    {
        let ids = Ids {
            block: 1,
            mask: 0,
            rows: [0; 6],
        };
        self.holds(catalog, self.within(0), &ids)
    }

    /// Finds the combinations whose first new row is that of an entry, the pivot.
    fn find(
        &self,
        alloc: Global,
        catalog: &Snapshot<'_>,
        pivot: u8,
        old: &[u32; 6],
        found: &mut Vec<[u32; 6]>,
    ) -> Result<(), Memory>
        requires block { IsBlock catalog.now self.now }
        requires least { 1 ≤ pivot }
        requires most { pivot ≤ length self.now.from }
        requires satisfied { satisfies catalog.now self.now 0 (replicate 6 0) ≡ true }
        ensures { OnOk result (Adds (IsNewAt catalog.now self.now old.now pivot) found.old.items found.new.items) }
    {
        if size_of(catalog, self, pivot) <= old[pivot as usize - 1] {
            return Ok(());
        }
        let steps = self.steps(alloc, catalog, pivot, old)?;
        self.extend(catalog, &steps, 0, [0; 6], found)
    }

    /// Finds the combinations that have these rows at the entries in a mask, and go on by these steps.
    pub(crate) fn extend(
        &self,
        catalog: &Snapshot<'_>,
        steps: &[Step],
        mask: u8,
        rows: [u32; 6],
        found: &mut Vec<[u32; 6]>,
    ) -> Result<(), Memory>
        requires block { IsBlock catalog.now self.now }
        requires steps { AreSteps catalog.now self.now mask (all_entries self.now) steps.now }
        requires begun { IsBegun catalog.now self.now mask rows }
        ensures { OnOk result (Adds (GoesOn catalog.now self.now steps.now mask rows) found.old.items found.new.items) }
    {
        let Some((step, rest)) = steps.split_first() else {
            found.push(rows)?;
            return Ok(());
        };
        let more = union(mask, mask_of(step.entry));
        let mut row = step.first(catalog, self, &rows);
        while row != 0 {
            let longer = with_row(rows, step.entry - 1, row);
            let ids = Ids {
                block: 1,
                mask: more,
                rows: longer,
            };
            if self.holds(catalog, step.conditions, &ids) {
                self.extend(catalog, rest, more, longer, found)?;
            }
            row = step.next(catalog, self, &rows, row);
        }
        Ok(())
    }
}

/// The rows with another one at a place.
fn with_row(mut rows: [u32; 6], place: u8, row: u32) -> [u32; 6]
    requires { place < 6 }
    ensures { result ≡ slice_set rows place row }
{
    rows[place as usize] = row;
    rows
}
