ghost use Rattle.std.specs.Prelude.{IfOk};
ghost use Rattle.rs_value.specs.Answer.{Gives};
ghost use Rattle.rs_syntax.specs.Syntax.{query_of};
ghost use Rattle.rs_syntax.specs.Written.{IsWrittenQuery};
ghost use Rattle.rs_query.specs.WellFormed.{IsQuery};
ghost use Rattle.rs_bind.specs.Queries.{bound_query};
ghost use Rattle.rs_statement.specs.Statements.{or_bind_fault};

use rs_bind::bind;
use rs_catalog::Catalog;
use rs_query::Query;
use rs_statement::Fault;
use rs_syntax::Select;
use std::alloc::Global;

/// The query that a statement binds, with the faults of statements.
pub(crate) fn bound_query(alloc: Global, catalog: &Catalog, select: &Select) -> Result<Query, Fault>
    requires { IsWrittenQuery (query_of select.now) }
    ensures gives { Gives Fault.Memory (or_bind_fault (bound_query catalog.now (query_of select.now))) result }
    ensures formed { IfOk result (λ query. IsQuery catalog.now query) }
{
    let query = bind(alloc, catalog, select)?;
    Ok(query)
}
