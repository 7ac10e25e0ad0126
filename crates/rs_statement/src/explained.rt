//! EXPLAIN: the text of the plan of a query.

ghost use Rattle.std.specs.Prelude.{◌≡◌};
ghost use Rattle.rs_syntax.specs.Syntax.{query_of};
ghost use Rattle.rs_syntax.specs.Written.{IsWrittenQuery};
ghost use Rattle.rs_bind.specs.Queries.{bound_query};
ghost use Rattle.rs_statement.specs.Parts.Steps.{Stepped};
ghost use Rattle.rs_statement.specs.Statements.{explained_step, or_bind_fault, refused_or};

use crate::fault::Fault;
use crate::planned_query::PlannedQuery;
use crate::sampling::Sampling;
use rs_bind::bind;
use rs_catalog::Catalog;
use rs_events::{Host, put_text};
use rs_syntax::Select;
use std::alloc::Global;

/// Puts the text of the least plan of a query, once its sample was taken. No row is asked for.
pub fn explain_planned<W: Host>(
    alloc: Global,
    sampling: Sampling,
    select: &Select,
    catalog: &Catalog,
    host: &mut W,
) -> Result<(), Fault>
    requires written { IsWrittenQuery (query_of select.now) }
    ensures { Stepped
        (λ step. step ≡ refused_or (explained_step (W.state host.old).scorer.answer catalog.now sampling) (or_bind_fault (bound_query catalog.now (query_of select.now))))
        catalog.now result (W.state host.old) (W.state host.new) }
{
    let query = bind(alloc, catalog, select)?;
    let planned = PlannedQuery::make(alloc, sampling, catalog, query, host.scorer())?;
    let told = planned.text(alloc, catalog);
    drop(planned);
    let text = told?;
    put_text(&text, host.out())
}
