ghost use Rattle.std.specs.Prelude.{◌↔◌, IsTrue};
ghost use Rattle.rs_view.specs.Views.{IsKeepable};

use rs_query::Query;

/// Whether a view of a query may be kept: it is one block without DISTINCT. It takes no memory.
pub fn is_keepable(query: &Query) -> bool
    ensures { IsTrue result ↔ IsKeepable query.now }
{
    match query {
        Query::One(block, _) => !block.distinct,
        Query::Set(_, _, _, _) => false,
    }
}
