//! The plan that is to be kept of a signature, made of those that are kept of lesser ones: the cheapest, and of those the one of
//! the least code. Plans are tried in the order of their codes, which is told by where a code starts, as each signature has one
//! plan. So a plan that costs as much as an earlier one comes later.

ghost use Rattle.std.specs.Prelude.{ℕ, ◌≡◌, ◌≤◌, ◌<◌, ◌+◌, ◌*◌, ◌^◌, MatchOption, get_or, length, slice_get, Some, ◌-◌, count_ones};
ghost use Rattle.rs_rank.specs.Masks.{mask_of};
ghost use Rattle.rs_plan.specs.Numbers.{IsUpTo};
ghost use Rattle.rs_plan.specs.Plans.{IsEntryNumber};
ghost use Rattle.rs_enum.specs.Bounds.{IsNumberedTerm};
ghost use Rattle.rs_enum.specs.Given.{CanSearch, block_of, cards_in, kept_in, query_in};
ghost use Rattle.rs_enum.specs.Places.{AreTheSides, IsTheFirst, IsTheOne, IsTheScan, candidate_at, cheaper};
ghost use Rattle.rs_enum.specs.Within.{terms_within};

use crate::candidate::{Candidate, Choice, Sides};
use crate::costs::{
    call_cost, hash_cost, index_rows, nested_cost, rows_of, table_rows, with_calls,
};
use crate::search::Search;
use rs_plan::{Signature, can_hash};
use rs_query::{Block, Term, block_in, is_inside};
use rs_rank::{has_number, mask_of};

/// What was found for a signature, where the block has this many terms.
pub(crate) fn candidate_at(
    count: u8,
    places: &[Option<Candidate>],
    of: Signature,
) -> Option<Candidate>
    requires { count ≤ 8 }
    ensures { result ≡ candidate_at count places.now of.entries of.terms }
{
    let place = place_of(count, of);
    match places.get(place) {
        Some(found) => *found,
        None => None,
    }
}

/// The place of a signature, where the block has this many terms.
fn place_of(count: u8, of: Signature) -> usize
    requires { count ≤ 8 }
    ensures { result ≡ of.entries * 2 ^ count + of.terms }
{
    of.entries as usize * (1 << count) + of.terms as usize
}

/// The term of this number.
fn term_at(block: &Block, term: u8) -> &Term
    requires { IsNumberedTerm block.now term }
    ensures { slice_get block.now.terms (term - 1) ≡ Some result.now }
{
    &block.terms.items()[term as usize - 1]
}

/// The mask of the terms of a block whose entries are all in a mask.
pub(crate) fn terms_inside(block: &Block, entries: u8) -> u8
    requires { length block.now.terms ≤ 8 }
    ensures { result ≡ terms_within entries block.now.terms }
{
    terms_within(entries, block.terms.items())
}

/// The cheaper one of two, and of equal ones the first.
pub(crate) fn cheaper(best: Option<Candidate>, next: Option<Candidate>) -> Option<Candidate>
    ensures { result ≡ cheaper best next }
{
    match best {
        None => next,
        Some(first) => match next {
            None => best,
            Some(second) => { if second.cost < first.cost { next } else { best } }
        },
    }
}

/// The mask of the terms whose entries are all in a mask.
pub(crate) fn terms_within(entries: u8, terms: &[Term]) -> u8
    requires { length terms.now ≤ 8 }
    ensures value { result ≡ terms_within entries terms.now }
    ensures below { result < 2 ^ length terms.now }
{
    match terms.split_first() {
        Some((first, rest)) => {
            let others = terms_within(entries, rest);
            if is_inside(first.entries, entries) {
                1 + 2 * others
            } else {
                2 * others
            }
        }
        None => 0,
    }
}

/// For each mask of entries the mask of the terms of a block that speak of these alone.
pub(crate) fn masks_inside(block: &Block) -> [u8; 64]
    requires { length block.now.terms ≤ 8 }
    ensures { (entries : ℕ) → entries < 64 → get_or result entries 0 ≡ terms_within entries block.now.terms }
{
    let mut masks = [0; 64];
    for entries in 0..64 {
        masks[entries] = terms_inside(block, entries as u8);
    }
    masks
}

/// The number from 1 up to another one whose mask this is.
fn number_of(mask: u8, most: u8) -> Option<u8>
    requires { most ≤ 8 }
    ensures { MatchOption result ((number : ℕ) → 1 ≤ number → number ≤ most → mask_of number ≡ mask → ⊥)
        (λ number. IsUpTo most number × (mask_of number ≡ mask)) }
{
    for place in 0..most {
        if mask_of(place + 1) == mask {
            return Some(place + 1);
        }
    }
    None
}

impl Search<'_> {
    /// The mask of the terms of the block that speak of some entries alone.
    fn terms_inside(&self, entries: u8) -> u8
        requires search { CanSearch self.now }
        requires entries { entries < 64 }
        ensures { result ≡ terms_within entries (block_of self.now).terms }
    {
        self.inside[entries as usize]
    }

    /// An operator for a term over what is kept without it.
    fn rank(&self, of: Signature, term: u8) -> Option<Candidate>
        requires search { CanSearch self.now }
        requires terms { of.terms < 2 ^ length (block_of self.now).terms }
        requires term { IsNumberedTerm (block_of self.now) term }
        ensures { IsTheOne self.now.planning.catalog.now (query_in self.now) (cards_in self.now) (kept_in self.now) of.entries of.terms (3 * 256 + term) result }
    {
        let block = block_in(self.planning.query, self.number);
        let reads = term_at(block, term).entries;
        if !has_number(of.terms, term) {
            return None;
        }
        if reads & of.entries != reads {
            return None;
        }
        let below = Signature {
            entries: of.entries,
            terms: of.terms ^ mask_of(term),
        };
        let child = candidate_at(block.terms.len() as u8, self.places, below)?;
        let rows = rows_of(self.planning.cards, self.number, below);
        let cost = with_calls(
            child.cost,
            rows,
            call_cost(self.planning.catalog, block, term),
        );
        Some(Candidate {
            cost,
            choice: Choice::Rank { term },
        })
    }

    /// What is kept of the sides of a join whose left side has these entries. The left side evaluates those of the terms that speak
    /// of its entries alone, and the right side likewise.
    fn sides(&self, of: Signature, left: u8) -> Option<Sides>
        requires search { CanSearch self.now }
        requires entries { of.entries < 2 ^ length (block_of self.now).from }
        requires terms { of.terms < 2 ^ length (block_of self.now).terms }
        ensures { AreTheSides self.now.planning.catalog.now (query_in self.now) (cards_in self.now) (kept_in self.now) of.entries of.terms left result }
    {
        if left & of.entries != left {
            return None;
        }
        let block = block_in(self.planning.query, self.number);
        let count = block.terms.len() as u8;
        let right = of.entries ^ left;
        let left_terms = of.terms & self.terms_inside(left);
        let right_terms = of.terms & self.terms_inside(right);
        if left_terms | right_terms != of.terms {
            return None;
        }
        let left_of = Signature {
            entries: left,
            terms: left_terms,
        };
        let right_of = Signature {
            entries: right,
            terms: right_terms,
        };
        let left_found = candidate_at(count, self.places, left_of)?;
        let right_found = candidate_at(count, self.places, right_of)?;
        Some(Sides {
            left_cost: left_found.cost,
            right_cost: right_found.cost,
            left_rows: rows_of(self.planning.cards, self.number, left_of),
            right_rows: rows_of(self.planning.cards, self.number, right_of),
        })
    }

    /// A hash join of what is kept, whose left side has these entries.
    fn hash_join(&self, of: Signature, left: u8) -> Option<Candidate>
        requires search { CanSearch self.now }
        requires entries { of.entries < 2 ^ length (block_of self.now).from }
        requires terms { of.terms < 2 ^ length (block_of self.now).terms }
        ensures { IsTheOne self.now.planning.catalog.now (query_in self.now) (cards_in self.now) (kept_in self.now) of.entries of.terms (4 * 256 + left) result }
    {
        let found = self.sides(of, left)?;
        if !can_hash(
            block_in(self.planning.query, self.number),
            left,
            of.entries ^ left,
        ) {
            return None;
        }
        let rows = rows_of(self.planning.cards, self.number, of);
        let cost = hash_cost(
            found.left_cost,
            found.right_cost,
            found.left_rows,
            found.right_rows,
            rows,
        );
        Some(Candidate {
            cost,
            choice: Choice::HashJoin { left },
        })
    }

    /// A nested join of what is kept, whose left side has these entries.
    fn nested_join(&self, of: Signature, left: u8) -> Option<Candidate>
        requires search { CanSearch self.now }
        requires entries { of.entries < 2 ^ length (block_of self.now).from }
        requires terms { of.terms < 2 ^ length (block_of self.now).terms }
        ensures { IsTheOne self.now.planning.catalog.now (query_in self.now) (cards_in self.now) (kept_in self.now) of.entries of.terms (5 * 256 + left) result }
    {
        let found = self.sides(of, left)?;
        let rows = rows_of(self.planning.cards, self.number, of);
        let cost = nested_cost(
            found.left_cost,
            found.right_cost,
            found.left_rows,
            found.right_rows,
            rows,
        );
        Some(Candidate {
            cost,
            choice: Choice::NestedJoin { left },
        })
    }

    /// A scan of an entry by the index of a term.
    fn rank_scan(&self, entry: u8, term: u8) -> Option<Candidate>
        requires search { CanSearch self.now }
        requires entry { IsEntryNumber (block_of self.now) entry }
        requires term { IsNumberedTerm (block_of self.now) term }
        ensures { IsTheScan self.now.planning.catalog.now (query_in self.now) (cards_in self.now) entry term result }
    {
        let block = block_in(self.planning.query, self.number);
        let found = &block.terms.items()[term as usize - 1];
        if found.entries != mask_of(entry) {
            return None;
        }
        let table = block.from.items()[entry as usize - 1].0;
        let index = self
            .planning
            .catalog
            .index_for(table, found.predicate, found.args.items(), entry)?;
        Some(Candidate {
            cost: 2 * index_rows(self.planning.cards, self.number, entry, term),
            choice: Choice::RankScan { entry, term, index },
        })
    }

    /// A scan of an entry, as its table has the rows or by an index.
    fn scan(&self, of: Signature) -> Option<Candidate>
        requires search { CanSearch self.now }
        requires terms { of.terms < 2 ^ length (block_of self.now).terms }
        ensures { IsTheFirst self.now.planning.catalog.now (query_in self.now) (cards_in self.now) (kept_in self.now) of.entries of.terms (3 * 256) result }
    {
        let block = block_in(self.planning.query, self.number);
        let entry = number_of(of.entries, block.from.len() as u8)?;
        if of.terms == 0 {
            return Some(Candidate {
                cost: table_rows(self.planning.catalog, block, entry),
                choice: Choice::SeqScan { entry },
            });
        }
        let term = number_of(of.terms, block.terms.len() as u8)?;
        self.rank_scan(entry, term)
    }

    /// What was found, and operators for each of the evaluated terms.
    fn with_ranks(&self, of: Signature, found: Option<Candidate>) -> Option<Candidate>
        requires search { CanSearch self.now }
        requires terms { of.terms < 2 ^ length (block_of self.now).terms }
        requires found { IsTheFirst self.now.planning.catalog.now (query_in self.now) (cards_in self.now) (kept_in self.now) of.entries of.terms (3 * 256) found }
        ensures { IsTheFirst self.now.planning.catalog.now (query_in self.now) (cards_in self.now) (kept_in self.now) of.entries of.terms (4 * 256 + 1) result }
    {
        let count = block_in(self.planning.query, self.number).terms.len() as u8;
        let mut best = found;
        for place in 0..count {
            best = cheaper(best, self.rank(of, place + 1));
        }
        best
    }

    /// What was found, and hash joins of what is kept.
    fn with_hash_joins(&self, of: Signature, found: Option<Candidate>) -> Option<Candidate>
        requires search { CanSearch self.now }
        requires entries { of.entries < 2 ^ length (block_of self.now).from }
        requires terms { of.terms < 2 ^ length (block_of self.now).terms }
        requires found { IsTheFirst self.now.planning.catalog.now (query_in self.now) (cards_in self.now) (kept_in self.now) of.entries of.terms (4 * 256 + 1) found }
        ensures { IsTheFirst self.now.planning.catalog.now (query_in self.now) (cards_in self.now) (kept_in self.now) of.entries of.terms (5 * 256 + 1) result }
    {
        let mut best = found;
        for left in 1..of.entries {
            best = cheaper(best, self.hash_join(of, left));
        }
        best
    }

    /// What was found, and nested joins of what is kept.
    fn with_nested_joins(&self, of: Signature, found: Option<Candidate>) -> Option<Candidate>
        requires search { CanSearch self.now }
        requires entries { of.entries < 2 ^ length (block_of self.now).from }
        requires terms { of.terms < 2 ^ length (block_of self.now).terms }
        requires found { IsTheFirst self.now.planning.catalog.now (query_in self.now) (cards_in self.now) (kept_in self.now) of.entries of.terms (5 * 256 + 1) found }
        ensures { IsTheFirst self.now.planning.catalog.now (query_in self.now) (cards_in self.now) (kept_in self.now) of.entries of.terms (6 * 256) result }
    {
        let mut best = found;
        for left in 1..of.entries {
            best = cheaper(best, self.nested_join(of, left));
        }
        best
    }

    /// The first of all plans that can be made for a signature. There is none where a term speaks of other entries.
    pub(crate) fn first_candidate(&self, of: Signature) -> Option<Candidate>
        requires search { CanSearch self.now }
        requires entries { of.entries < 2 ^ length (block_of self.now).from }
        requires terms { of.terms < 2 ^ length (block_of self.now).terms }
        ensures { IsTheFirst self.now.planning.catalog.now (query_in self.now) (cards_in self.now) (kept_in self.now) of.entries of.terms (6 * 256) result }
    {
        let inside = self.terms_inside(of.entries);
        if of.terms & inside != of.terms {
            return None;
        }
        let scanned = self.scan(of);
        let ranked = self.with_ranks(of, scanned);
        let hashed = self.with_hash_joins(of, ranked);
        self.with_nested_joins(of, hashed)
    }
}
