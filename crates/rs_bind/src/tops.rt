//! The tops of a query's terms: the first score of a term's rank index bounds what the term is worth.

ghost use Rattle.std.specs.Prelude.{◌≡◌, ◌<◌, ◌≤◌, IfSome, length, max, option_map, slice_get, take, Some, ℕ};
ghost use Rattle.rs_catalog.specs.Indexes.{predicate_for, ranking_at};
ghost use Rattle.rs_catalog.specs.declared.index.IndexDef.{IndexDef as Defined};
ghost use Rattle.rs_query.specs.Answers.{padded};
ghost use Rattle.rs_query.specs.Tops.{HasTops, bounded_by, first_score, set_tops, top_by, top_of, tops_of, with_maxima, with_tops};
ghost use Rattle.rs_query.specs.WellFormed.{IsBlock, IsQuery};

use rs_catalog::Catalog;
use rs_query::{Block, Query, Term};
use rs_rank::mask_of;
use rs_value::List;

/// A query with the tops of its terms as their maxima. It takes no memory.
pub(crate) fn with_tops(catalog: &Catalog, query: Query) -> Query
    requires { IsQuery catalog.now query }
    ensures value { result ≡ with_tops catalog.now query }
    ensures formed { IsQuery catalog.now result }
    ensures tops { HasTops catalog.now result }
{
    match query {
        Query::One(block, limit) => {
            let tops = tops_of(catalog, &block);
            Query::One(bounded_by(block, &tops), limit)
        }
        Query::Set(op, left, right, limit) => {
            let tops = set_tops(catalog, &left, &right);
            Query::Set(op, bounded_by(left, &tops), bounded_by(right, &tops), limit)
        }
    }
}

/// The tops of two blocks with the same terms: of each term the greater one. 0 stands past the last term.
fn set_tops(catalog: &Catalog, left: &Block, right: &Block) -> [u32; 8]
    requires left { IsBlock catalog.now left.now }
    requires right { IsBlock catalog.now right.now }
    requires same { length left.now.terms ≡ length right.now.terms }
    ensures { result ≡ padded 8 (set_tops catalog.now left.now right.now) }
{
    let mut tops = [0; 8];
    for place in 0..left.terms.len() {
        let own = top_of(catalog, left, &left.terms.items()[place]);
        let other = top_of(catalog, right, &right.terms.items()[place]);
        tops[place] = greater(own, other);
    }
    tops
}

/// The greater of two numbers.
fn greater(one: u32, other: u32) -> u32
    ensures { result ≡ max one other }
{
    if one < other { other } else { one }
}

/// The tops of the terms of a block, and 0 past the last one.
fn tops_of(catalog: &Catalog, block: &Block) -> [u32; 8]
    requires { IsBlock catalog.now block.now }
    ensures { result ≡ padded 8 (tops_of catalog.now block.now) }
{
    let mut tops = [0; 8];
    for place in 0..block.terms.len() {
        tops[place] = top_of(catalog, block, &block.terms.items()[place]);
    }
    tops
}

/// The top of a term of a block.
fn top_of(catalog: &Catalog, block: &Block, term: &Term) -> u32
    requires few { length block.now.from ≤ 6 }
    requires predicate { term.now.predicate < length catalog.now.predicates }
    ensures { result ≡ top_of catalog.now block.now term.now }
{
    for (place, from) in block.from.items().iter().enumerate() {
        let entry = place as u8 + 1;
        if term.entries == mask_of(entry) {
            let index = catalog.index_for(from.0, term.predicate, term.args.items(), entry);
            return top_by(catalog, term.predicate, index);
        }
    }
    top_by(catalog, term.predicate, None)
}

/// The first score of an index of a predicate, and the predicate's greatest score where there is no index.
fn top_by(catalog: &Catalog, predicate: u8, index: Option<u8>) -> u32
    requires predicate { predicate < length catalog.now.predicates }
    requires within { IfSome index (λ number. number < length catalog.now.indexes) }
    requires index { (number : ℕ) → index ≡ Some number → (def : Defined)
        → option_map (λ i. i.def) (slice_get catalog.now.indexes number) ≡ Some def → def.predicate ≡ predicate }
    ensures { result ≡ top_by catalog.now predicate index }
{
    match index {
        None => catalog.predicate(predicate).max(),
        Some(number) => first_score(catalog, number),
    }
}

/// The first score of an index, which is its greatest; 0 where it has no entry.
fn first_score(catalog: &Catalog, index: u8) -> u32
    requires { index < length catalog.now.indexes }
    ensures value { result ≡ first_score (ranking_at catalog.now index) }
    ensures low { (def : Defined) → option_map (λ i. i.def) (slice_get catalog.now.indexes index) ≡ Some def
        → result ≤ (predicate_for catalog.now def).max }
{
    let table = catalog.index(index).table;
    if catalog.table(table).is_empty() {
        return 0;
    }
    let (score, _) = catalog.index_row(index, 1);
    score
}

/// A block whose terms have these maxima.
fn bounded_by(block: Block, maxima: &[u32; 8]) -> Block
    requires { length block.terms ≤ 8 }
    ensures { result ≡ bounded_by (take (length block.terms) maxima.now) block }
{
    let Block {
        from,
        conjuncts,
        items,
        terms,
        distinct,
    } = block;
    Block {
        from,
        conjuncts,
        items,
        terms: with_maxima(terms, maxima),
        distinct,
    }
}

/// Terms with these maxima.
fn with_maxima(terms: List<Term>, maxima: &[u32; 8]) -> List<Term>
    requires { length terms ≤ 8 }
    ensures { result ≡ with_maxima (take (length terms) maxima.now) terms }
{
    let mut bounded = terms.into_items();
    for place in 0..bounded.len() {
        bounded[place].max = maxima[place];
    }
    List::of(bounded)
}
