//! Which trees are plans of a query.

ghost use Rattle.std.specs.Prelude.{◌≡◌, ◌≤◌, ◌↔◌, ◌==◌, ◌&&◌, IsTrue, length};
ghost use Rattle.rs_catalog.specs.Indexes.{index_of};
ghost use Rattle.rs_rank.specs.Masks.{has_number, mask_of};
ghost use Rattle.rs_query.specs.WellFormed.{IsBlock, IsQuery};
ghost use Rattle.rs_plan.specs.Deciding.{are_joined, has_no_distinct, is_complete, is_distinct, is_found, is_hashed, is_part, is_plan, is_rank, is_rank_scan, is_set_plan, joins_sides};
ghost use Rattle.rs_plan.specs.Numbers.{HasNumbers, IsUpTo};
ghost use Rattle.rs_query.specs.Answers.{all_terms};
ghost use Rattle.rs_plan.specs.Plans.{IsHashed, IsPlan};
ghost use Rattle.rs_plan.specs.Shapes.{tree_of};
ghost use Rattle.rs_plan.specs.Trees.{entries, terms};

use crate::plan::Plan;
use crate::signature::Signature;
use rs_catalog::Catalog;
use rs_query::{Block, Query, Term, is_inside};
use rs_rank::{has_number, mask_of};

impl Plan {
    /// Whether the tree is a plan of the query. It takes no memory.
    pub fn valid(&self, catalog: &Catalog, query: &Query) -> bool
        requires { IsQuery catalog.now query.now }
        ensures { IsTrue result ↔ IsPlan catalog.now query.now (tree_of self.now) }
    {
        self.has_numbers() && self.is_plan(catalog, query)
    }

    /// Whether it is a plan of the query.
    fn is_plan(&self, catalog: &Catalog, query: &Query) -> bool
        requires query { IsQuery catalog.now query.now }
        requires numbers { HasNumbers (tree_of self.now) }
        ensures { result ≡ is_plan catalog.now query.now (tree_of self.now) }
    {
        match query {
            Query::One(block, _) => self.is_complete(catalog, block) && self.has_all_terms(block),
            Query::Set(_, left, right, _) => {
                self.is_set_plan(catalog, left, right) && self.has_all_terms(left)
            }
        }
    }

    /// Whether it evaluates all terms of a block.
    fn has_all_terms(&self, block: &Block) -> bool
        requires most { length block.now.terms ≤ 8 }
        requires numbers { HasNumbers (tree_of self.now) }
        ensures { result ≡ (terms (tree_of self.now) == all_terms block.now) }
    {
        self.signature().terms as u16 == (1 << block.terms.len()) - 1
    }

    /// Whether it is a plan of two blocks: a set operator, and operators for the terms that its sides leave out.
    fn is_set_plan(&self, catalog: &Catalog, left: &Block, right: &Block) -> bool
        requires left { IsBlock catalog.now left.now }
        requires right { IsBlock catalog.now right.now }
        requires numbers { HasNumbers (tree_of self.now) }
        ensures { result ≡ is_set_plan catalog.now left.now right.now (tree_of self.now) }
    {
        match self {
            Plan::SeqScan { entry: _ } => false,
            Plan::RankScan {
                entry: _,
                term: _,
                index: _,
            } => false,
            Plan::Rank { term, child } => {
                child.is_set_plan(catalog, left, right) && is_rank(left, *term, child.signature())
            }
            Plan::HashJoin { left: _, right: _ } | Plan::NestedJoin { left: _, right: _ } => false,
            Plan::Distinct { child: _ } => false,
            Plan::SetOperator {
                left: left_side,
                right: right_side,
            } => {
                left_side.is_complete(catalog, left)
                    && right_side.is_complete(catalog, right)
                    && left_side.signature().terms == right_side.signature().terms
            }
        }
    }

    /// Whether it is a plan of a block, though maybe not of all its terms.
    fn is_complete(&self, catalog: &Catalog, block: &Block) -> bool
        requires block { IsBlock catalog.now block.now }
        requires numbers { HasNumbers (tree_of self.now) }
        ensures { result ≡ is_complete catalog.now block.now (tree_of self.now) }
    {
        self.is_part(catalog, block)
            && self.signature().entries == block.all_entries()
            && (!block.distinct || !self.has_no_distinct())
    }

    /// Whether it is a part of a plan of a block.
    fn is_part(&self, catalog: &Catalog, block: &Block) -> bool
        requires block { IsBlock catalog.now block.now }
        requires numbers { HasNumbers (tree_of self.now) }
        ensures { result ≡ is_part catalog.now block.now (tree_of self.now) }
    {
        match self {
            Plan::SeqScan { entry } => *entry as usize <= block.from.len(),
            Plan::RankScan { entry, term, index } => {
                is_rank_scan(catalog, block, *entry, *term, *index)
            }
            Plan::Rank { term, child } => {
                child.is_part(catalog, block) && is_rank(block, *term, child.signature())
            }
            Plan::HashJoin { left, right } => {
                left.is_part(catalog, block)
                    && right.is_part(catalog, block)
                    && are_joined(left, right)
                    && is_hashed(block, left.signature().entries, right.signature().entries)
            }
            Plan::NestedJoin { left, right } => {
                left.is_part(catalog, block)
                    && right.is_part(catalog, block)
                    && are_joined(left, right)
            }
            Plan::Distinct { child } => {
                child.is_part(catalog, block) && child.can_drop_duplicates(block)
            }
            Plan::SetOperator { left: _, right: _ } => false,
        }
    }

    /// Whether duplicates are to be dropped here: of rows of all entries, where the block says so, and never twice.
    fn can_drop_duplicates(&self, block: &Block) -> bool
        requires some { 1 ≤ length block.now.from }
        requires most { length block.now.from ≤ 6 }
        requires numbers { HasNumbers (tree_of self.now) }
        ensures { result ≡ is_distinct block.now (tree_of self.now) }
    {
        block.distinct && self.signature().entries == block.all_entries() && self.has_no_distinct()
    }

    /// Whether no duplicates are dropped in the tree.
    fn has_no_distinct(&self) -> bool
        ensures { result ≡ has_no_distinct (tree_of self.now) }
    {
        match self {
            Plan::SeqScan { entry: _ } => true,
            Plan::RankScan {
                entry: _,
                term: _,
                index: _,
            } => true,
            Plan::Rank { term: _, child } => child.has_no_distinct(),
            Plan::HashJoin { left, right }
            | Plan::NestedJoin { left, right }
            | Plan::SetOperator { left, right } => {
                left.has_no_distinct() && right.has_no_distinct()
            }
            Plan::Distinct { child: _ } => false,
        }
    }
}

/// Whether two plans may be the sides of a join: they share no entry, and drop no duplicates.
fn are_joined(left: &Plan, right: &Plan) -> bool
    requires left { HasNumbers (tree_of left.now) }
    requires right { HasNumbers (tree_of right.now) }
    ensures { result ≡ are_joined (tree_of left.now) (tree_of right.now) }
{
    left.signature().entries & right.signature().entries == 0
        && left.has_no_distinct()
        && right.has_no_distinct()
}

/// Whether a term speaks of an entry alone, and this index of the entry's table is the first one for it.
fn is_rank_scan(catalog: &Catalog, block: &Block, entry: u8, term: u8, index: u8) -> bool
    requires entry { IsUpTo 6 entry }
    requires term { IsUpTo 8 term }
    ensures { result ≡ is_rank_scan catalog.now block.now entry term index }
{
    let Some(term) = block.terms.items().get(term as usize - 1) else {
        return false;
    };
    let Some(from) = block.from.items().get(entry as usize - 1) else {
        return false;
    };
    is_scan_by(catalog, term, from.0, entry, index)
}

/// Whether a term speaks of an entry alone, and this index is the first one of the table for it.
fn is_scan_by(catalog: &Catalog, term: &Term, table: u8, entry: u8, index: u8) -> bool
    requires { IsUpTo 6 entry }
    ensures { result ≡ ((term.now.entries == mask_of entry)
        && is_found (index_of table term.now.predicate term.now.args entry catalog.now) index) }
{
    term.entries == mask_of(entry)
        && is_found(
            catalog.index_for(table, term.predicate, term.args.items(), entry),
            index,
        )
}

/// Whether an index was found, and it is this one.
fn is_found(found: Option<u8>, index: u8) -> bool
    ensures { result ≡ is_found found index }
{
    match found {
        Some(first) => first == index,
        None => false,
    }
}

/// Whether a term that isn't evaluated below can be evaluated: all its entries are there.
fn is_rank(block: &Block, term: u8, below: Signature) -> bool
    requires { IsUpTo 8 term }
    ensures { result ≡ is_rank block.now term below.entries below.terms }
{
    match block.terms.items().get(term as usize - 1) {
        Some(found) => !has_number(below.terms, term) && is_inside(found.entries, below.entries),
        None => false,
    }
}

/// Whether a hash join of sides with these entries is a plan: a conjunct says that a column of the left ones equals one of the
/// right ones. It takes no memory.
pub fn can_hash(block: &Block, left: u8, right: u8) -> bool
    ensures { IsTrue result ↔ IsHashed block.now left right }
{
    is_hashed(block, left, right)
}

/// Whether a conjunct says that a column of the left entries equals one of the right entries.
fn is_hashed(block: &Block, left: u8, right: u8) -> bool
    ensures { result ≡ is_hashed block.now left right }
{
    block
        .conjuncts
        .items()
        .iter()
        .any(|conjunct| joins_sides(left, right, conjunct.equality()))
}

/// Whether one of two columns is of the left entries, and the other one of the right entries.
fn joins_sides(left: u8, right: u8, equality: Option<((u8, u8), (u8, u8))>) -> bool
    ensures { result ≡ joins_sides left right equality }
{
    match equality {
        Some((first, second)) => {
            (has_entry(left, first.0) && has_entry(right, second.0))
                || (has_entry(right, first.0) && has_entry(left, second.0))
        }
        None => false,
    }
}

/// Whether an entry is in a mask. One that a mask of eight bits can't have isn't.
fn has_entry(mask: u8, entry: u8) -> bool
    ensures { result ≡ has_number mask entry }
{
    let place = entry.saturating_sub(1);
    place < 8 && (mask >> place) % 2 == 1
}
