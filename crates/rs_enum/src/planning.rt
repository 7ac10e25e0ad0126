use rs_catalog::Catalog;
use rs_query::Query;
use rs_sample::Cards;

/// What plans are costed and chosen by: a query over a catalogue, and the cards of its blocks.
#[derive(Clone, Copy)]
pub(crate) struct Planning<'a> {
    pub catalog: &'a Catalog,
    pub query: &'a Query,
    pub cards: &'a Cards,
}
