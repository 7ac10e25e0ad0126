//! Statements that ask: a query, and the two forms of EXPLAIN, by the way in which queries are evaluated.

ghost use Rattle.std.specs.Prelude.{◌≡◌};
ghost use Rattle.rs_syntax.specs.Syntax.{query_of};
ghost use Rattle.rs_syntax.specs.Written.{IsWrittenQuery};
ghost use Rattle.rs_catalog.specs.IndexesHold.{IndexesHold};
ghost use Rattle.rs_statement.specs.Parts.Steps.{Stepped};
ghost use Rattle.rs_statement.specs.Statements.{analyze_step, explain_step, select_step};

use crate::analyzed::analyze_planned;
use crate::evaluating::Evaluating;
use crate::explained::explain_planned;
use crate::fault::Fault;
use crate::planned::run_planned;
use crate::query::{explain_query, run_query};
use rs_catalog::Catalog;
use rs_events::Host;
use rs_syntax::Select;
use std::alloc::Global;

/// Prints the rows of a query. Plainly it makes all its calls, and then one put for each row. By a plan it makes the calls of the sample,
/// and then for each ask the calls of this ask and the put of its row.
///
/// # Errors
///
/// - `Script`: exactly where the query breaks a rule of names and types; nobody is called then.
/// - `BadScore`: exactly at the first call behind those of the sample whose answer lies outside 0 to the predicate's
///   MAX, unless another fault came before. A number of the sample is put into that range.
/// - `Probe`: only where the last call that was made failed; the scorer's count of faults rose.
/// - `Write`: only where a put failed; standard output's count of faults rose.
/// - `Memory`: at any time, in place of what else would come.
/// - `Read`, `Table`, `Session`: never.
pub fn run_select<W: Host>(
    alloc: Global,
    evaluating: Evaluating,
    select: &Select,
    catalog: &Catalog,
    host: &mut W,
) -> Result<(), Fault>
    requires written { IsWrittenQuery (query_of select.now) }
    requires held { IndexesHold (W.state host.old).scorer.answer catalog.now }
    ensures { Stepped
        (λ step. step ≡ select_step evaluating (W.state host.old).scorer.answer catalog.now (query_of select.now)) catalog.now result (W.state host.old) (W.state host.new) }
{
    match evaluating {
        Evaluating::Plainly => run_query(alloc, select, catalog, host),
        Evaluating::Planned(sampling) => run_planned(alloc, sampling, select, catalog, host),
    }
}

/// EXPLAIN. By a plan it makes the calls of the sample, and puts the text of the plan in one put. Plainly, the query is bound, and nothing
/// is told of it.
///
/// # Errors
///
/// - `Script`: exactly where the query breaks a rule of names and types; nobody is called then.
/// - `Probe`: only where the last call that was made failed; the scorer's count of faults rose.
/// - `Write`: only where a put failed; standard output's count of faults rose.
/// - `Memory`: at any time, in place of what else would come.
/// - `Read`, `Table`, `BadScore`, `Session`: never.
pub fn run_explain<W: Host>(
    alloc: Global,
    evaluating: Evaluating,
    select: &Select,
    catalog: &Catalog,
    host: &mut W,
) -> Result<(), Fault>
    requires written { IsWrittenQuery (query_of select.now) }
    ensures { Stepped
        (λ step. step ≡ explain_step evaluating (W.state host.old).scorer.answer catalog.now (query_of select.now)) catalog.now result (W.state host.old) (W.state host.new) }
{
    match evaluating {
        Evaluating::Plainly => explain_query(alloc, select, catalog),
        Evaluating::Planned(sampling) => explain_planned(alloc, sampling, select, catalog, host),
    }
}

/// EXPLAIN ANALYZE. By a plan it makes the calls of the sample and those of all asks that the query wants, puts no row, and puts the text of
/// the plan, with what each node has done by then, in one put. Plainly, the query is bound, and nothing is told of it.
///
/// # Errors
///
/// - `Script`: exactly where the query breaks a rule of names and types; nobody is called then.
/// - `BadScore`: exactly at the first call behind those of the sample whose answer lies outside 0 to the predicate's
///   MAX, unless another fault came before. A number of the sample is put into that range.
/// - `Probe`: only where the last call that was made failed; the scorer's count of faults rose.
/// - `Write`: only where a put failed; standard output's count of faults rose.
/// - `Memory`: at any time, in place of what else would come.
/// - `Read`, `Table`, `Session`: never.
pub fn run_analyze<W: Host>(
    alloc: Global,
    evaluating: Evaluating,
    select: &Select,
    catalog: &Catalog,
    host: &mut W,
) -> Result<(), Fault>
    requires written { IsWrittenQuery (query_of select.now) }
    requires held { IndexesHold (W.state host.old).scorer.answer catalog.now }
    ensures { Stepped
        (λ step. step ≡ analyze_step evaluating (W.state host.old).scorer.answer catalog.now (query_of select.now)) catalog.now result (W.state host.old) (W.state host.new) }
{
    match evaluating {
        Evaluating::Plainly => explain_query(alloc, select, catalog),
        Evaluating::Planned(sampling) => analyze_planned(alloc, sampling, select, catalog, host),
    }
}
