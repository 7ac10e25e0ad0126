//! Which entry a search goes on to, and which rows and conditions it looks at there.

ghost use Rattle.std.specs.Prelude.{◌≡◌, ◌⊎◌, ◌≤◌, ℕ, IfOk, IfNone, IfSome, length, true, false};
ghost use Rattle.std.specs.List.{AllByRecursion};
ghost use Rattle.rs_rank.specs.Masks.{has_number};
ghost use Rattle.rs_catalog.specs.Catalog.{CatalogDef};
ghost use Rattle.rs_query.specs.Pieces.{BeginsAt};
ghost use Rattle.rs_query.specs.Searching.{AreEquated, AreSteps, IsEquatedBy, IsRanged, IsStep, IsTie};
ghost use Rattle.rs_query.specs.Tables.{all_entries};
ghost use Rattle.rs_query.specs.WellFormed.{IsBlock};

use crate::block::Block;
use crate::conjunct::Conjunct;
use crate::row_search::RowSearch;
use crate::sizes::size_of;
use crate::step::Step;
use crate::tie::Tie;
use rs_catalog::Snapshot;
use rs_rank::{has_number, mask_of, union};
use rs_value::Memory;
use std::alloc::Global;

/// A step that is reached at most so many times looks at each row of its entry, in place of lists of the rows of equal cells. At
/// 100,000 rows the lists of one equality take as long as 60 such looks in a build with checks at run time, and as a few hundred
/// without them.
const MOST_SCANS: u32 = 64;

impl Block {
    /// The steps of the search that begins at an entry, the pivot. Of the pivot new rows are looked at, which come behind those of
    /// the old view, of each entry before it the old ones alone, and of each entry behind it all.
    pub(crate) fn steps(
        &self,
        alloc: Global,
        catalog: &Snapshot<'_>,
        pivot: u8,
        old: &[u32; 6],
    ) -> Result<Vec<Step>, Memory>
        requires block { IsBlock catalog.now self.now }
        requires least { 1 ≤ pivot }
        requires most { pivot ≤ length self.now.from }
        ensures steps { IfOk result (λ steps. AreSteps catalog.now self.now 0 (all_entries self.now) steps.items) }
        ensures ranges { IfOk result (λ steps. AllByRecursion (IsRanged catalog.now self.now old.now pivot) steps.items) }
        ensures first { IfOk result (λ steps. BeginsAt pivot steps.items) }
    {
        let mut steps = Vec::new(alloc);
        let mut mask = 0;
        let mut next = Some(pivot);
        while let Some(entry) = next {
            steps.push(self.step(alloc, catalog, mask, entry, pivot, old)?)?;
            mask = union(mask, mask_of(entry));
            next = self.next_entry(mask);
        }
        Ok(steps)
    }

    /// The entry to which a search goes on from those in a mask: the first one that an equality ties to them, or else the first
    /// one of all.
    fn next_entry(&self, mask: u8) -> Option<u8>
        requires { (catalogue : CatalogDef) × IsBlock catalogue self.now }
        ensures some { IfSome result (λ entry. (1 ≤ entry) × (entry ≤ length self.now.from) × (has_number mask entry ≡ false)) }
        ensures none { IfNone result ((entry : ℕ) → 1 ≤ entry → entry ≤ length self.now.from → has_number mask entry ≡ true) }
    {
        let mut free = None;
        for place in 0..self.from.len() {
            let entry = place as u8 + 1;
            if has_number(mask, entry) {
                continue;
            }
            if self.equated(mask, entry).is_some() {
                return Some(entry);
            }
            if free.is_none() {
                free = Some(entry);
            }
        }
        free
    }

    /// The step from the entries in a mask to another one.
    fn step(
        &self,
        alloc: Global,
        catalog: &Snapshot<'_>,
        mask: u8,
        entry: u8,
        pivot: u8,
        old: &[u32; 6],
    ) -> Result<Step, Memory>
        requires block { IsBlock catalog.now self.now }
        requires least { 1 ≤ entry }
        requires most { entry ≤ length self.now.from }
        requires least_pivot { 1 ≤ pivot }
        requires most_pivot { pivot ≤ length self.now.from }
        requires is_new { has_number mask entry ≡ false }
        requires start { (mask ≡ 0) ⊎ (entry ≡ pivot → ⊥) }
        ensures step { IfOk result (λ step. IsStep catalog.now self.now mask step) }
        ensures entry { IfOk result (λ step. step.entry ≡ entry) }
        ensures range { IfOk result (λ step. IsRanged catalog.now self.now old.now pivot step) }
    {
        let search = self.search(catalog, mask, pivot, old);
        let tie = self.tie(alloc, catalog, mask, entry, search)?;
        let size = size_of(catalog, self, entry);
        let old_size = old[entry as usize - 1];
        Ok(Step {
            entry,
            above: if entry == pivot { old_size } else { 0 },
            last: if entry < pivot {
                size.min(old_size)
            } else {
                size
            },
            conditions: self.within(union(mask, mask_of(entry))) - self.within(mask),
            tie,
        })
    }

    /// How the step from the entries in a mask finds its rows. Where the pivot has few new rows, the step right behind it is reached a
    /// few times at most, and each step behind that one not often enough to pay for the lists of more than one equality. The answer
    /// bears on nothing but the time.
    fn search(&self, catalog: &Snapshot<'_>, mask: u8, pivot: u8, old: &[u32; 6]) -> RowSearch
        requires block { IsBlock catalog.now self.now }
        requires least { 1 ≤ pivot }
        requires most { pivot ≤ length self.now.from }
    {
        let new_rows = size_of(catalog, self, pivot).saturating_sub(old[pivot as usize - 1]);
        if new_rows > MOST_SCANS {
            RowSearch::AllEqualities
        } else if mask == mask_of(pivot) {
            RowSearch::Scan
        } else {
            RowSearch::OneEquality
        }
    }

    /// An equality that ties an entry to those in a mask, with the rows of equal cells unless it is scanned for them.
    fn tie(
        &self,
        alloc: Global,
        catalog: &Snapshot<'_>,
        mask: u8,
        entry: u8,
        search: RowSearch,
    ) -> Result<Option<Tie>, Memory>
        requires block { IsBlock catalog.now self.now }
        ensures { IfOk result (λ tie. IsTie catalog.now self.now mask entry tie) }
    {
        match self.equated(mask, entry) {
            Some((left, right)) => {
                // The cells of both columns are of their kinds.
                let _ = self.kind(catalog, left);
                let _ = self.kind(catalog, right);
                let listed = self.listed(alloc, catalog, left, right, search)?;
                Ok(Some(Tie {
                    left,
                    right,
                    listed,
                }))
            }
            None => Ok(None),
        }
    }

    /// A column of an entry in a mask, and one of another entry, that a condition equates.
    fn equated(&self, mask: u8, entry: u8) -> Option<((u8, u8), (u8, u8))>
        requires { (catalogue : CatalogDef) × IsBlock catalogue self.now }
        ensures { IfSome result (λ columns. AreEquated self.now mask entry columns.0 columns.1) }
    {
        for conjunct in self.conjuncts.items() {
            if let Some(columns) = equated_by(conjunct, mask, entry) {
                return Some(columns);
            }
        }
        None
    }
}

/// The columns that a conjunct equates, that of an entry in a mask first, where the other one is of this entry.
pub(crate) fn equated_by(conjunct: &Conjunct, mask: u8, entry: u8) -> Option<((u8, u8), (u8, u8))>
    requires { IfSome conjunct.now.equality (λ columns. (1 ≤ columns.0.0) × (columns.0.0 ≤ 8) × (1 ≤ columns.1.0) × (columns.1.0 ≤ 8)) }
    ensures { IfSome result (λ columns. IsEquatedBy conjunct.now mask entry columns.0 columns.1) }
{
    let (first, second) = conjunct.equality()?;
    if second.0 == entry && has_number(mask, first.0) {
        return Some((first, second));
    }
    if first.0 == entry && has_number(mask, second.0) {
        return Some((second, first));
    }
    None
}
