//! The views that a script holds: what DECLARE, INSERT, FETCH and CLOSE do with them under the word `view`.

ghost use Rattle.std.specs.Prelude.{◌≡◌, [], IfErr, IfOk, drop, suc, take};
ghost use Rattle.rs_catalog.specs.Catalog.{CatalogDef};
ghost use Rattle.rs_expr.specs.InOrder.{Inquires};
ghost use Rattle.rs_expr.specs.Scoring.{Answering};
ghost use Rattle.rs_query.specs.WellFormed.{IsQuery};
ghost use Rattle.rs_view.specs.Views.{IsKeepable, Stands, rows_in};
ghost use Rattle.rs_events.specs.Environment.{Environment};
ghost use Rattle.rs_events.specs.Run.{lines_run};
ghost use Rattle.rs_statement.specs.Lines.{rank_lines};
ghost use Rattle.rs_statement.specs.Parts.Named.{entries};
ghost use Rattle.rs_statement.specs.Parts.Steps.{Leaves, Ran, Stepped};
ghost use Rattle.rs_run.specs.Parts.Holding.{AllStand, NamesSome, as_all_grown, kept_of, views_in};
ghost use Rattle.rs_run.specs.Viewing.{close_outcome, fetch_step, growing_all, grown_step, named_step};

use rs_bind::bind_count;
use rs_catalog::Catalog;
use rs_expr::Scorer;
use rs_lex::Span;
use rs_outside::Sink;
use rs_plain::PlainFault;
use rs_query::Query;
use rs_statement::{Fault, Named, put_rows, query_fault};
use rs_syntax::Name;
use rs_value::Text;
use rs_view::View;
use std::alloc::Global;

/// How many rows of a view have their output values at once while they are put.
const ROWS_AT_ONCE: usize = 64;

/// The views of a script by name, in the order of their DECLARE.
#[derive(Drop)]
pub(crate) struct HeldViews {
    views: Named<View>,
}

impl HeldViews {
    /// No views.
    pub(crate) fn new(alloc: Global) -> HeldViews
        ensures { views_in result ≡ [] }
    {
        HeldViews {
            views: Named::new(alloc),
        }
    }
}

/// Makes the view of a query and holds it under this name, as the last one. Whether the name can be held counts before the calls.
pub(crate) fn make_view<S: Scorer>(
    alloc: Global,
    name: &Text,
    query: Query,
    catalog: &Catalog,
    held: &mut HeldViews,
    scorer: &mut S,
) -> Result<(), Fault>
    requires query { IsQuery catalog.now query }
    requires keepable { IsKeepable query }
    requires stand { AllStand (S.state scorer.old).answer catalog.now (views_in held.old) }
    ensures makes { (beside : Environment) → Stepped
        (λ step. step ≡ named_step (S.state scorer.old).answer name.now (kept_of catalog.now (views_in held.old)) query)
        (kept_of catalog.now (views_in held.new)) result
        (record beside { scorer = S.state scorer.old }) (record beside { scorer = S.state scorer.new }) }
    ensures stand { IfOk result (λ _. AllStand (S.state scorer.old).answer catalog.now (views_in held.new)) }
{
    // What isn't kept is handed to `drop`: to let go of it here, at each end, takes minutes to prove.
    match held.views.room(name) {
        Ok(()) => {}
        Err(why) => {
            drop(query);
            return Err(why);
        }
    }
    match View::make(alloc, catalog, query, scorer) {
        Ok(view) => {
            held.views.add(name, view)?;
            Ok(())
        }
        Err(why) => Err(query_fault(catalog, why)),
    }
}

/// Brings the views up to date with the tables, in the order of their DECLARE, up to the first fault.
pub(crate) fn grow_views<S: Scorer>(
    alloc: Global,
    catalog: &Catalog,
    held: &mut HeldViews,
    scorer: &mut S,
) -> Result<(), Fault>
    requires { AllStand (S.state scorer.old).answer catalog.now (views_in held.old) }
    ensures grows { (beside : Environment) → Stepped
        (λ step. step ≡ grown_step (S.state scorer.old).answer catalog.now (views_in held.old))
        (kept_of catalog.now (views_in held.new)) result
        (record beside { scorer = S.state scorer.old }) (record beside { scorer = S.state scorer.new }) }
    ensures stand { IfOk result (λ _. AllStand (S.state scorer.old).answer catalog.now (views_in held.new)) }
{
    match grow_all(alloc, catalog, &mut held.views, scorer) {
        Ok(()) => Ok(()),
        Err(why) => Err(query_fault(catalog, why)),
    }
}

/// Brings views up to date, one after another.
fn grow_all<S: Scorer>(
    alloc: Global,
    catalog: &Catalog,
    views: &mut Named<View>,
    scorer: &mut S,
) -> Result<(), PlainFault>
    requires { AllStand (S.state scorer.old).answer catalog.now (entries views.old) }
    ensures grows { Inquires PlainFault.Memory (growing_all (S.state scorer.old).answer catalog.now (entries views.old))
        (as_all_grown (entries views.new) result) (S.state scorer.old) (S.state scorer.new) }
    ensures stand { IfOk result (λ _. AllStand (S.state scorer.old).answer catalog.now (entries views.new)) }

    // A bad or failed call is one of a term of some view's query.
    ensures names { IfErr result (NamesSome catalog.now) }
{
    for index in 0..views.len() {
        if let Some(view) = views.at_mut(index) {
            view.grow(alloc, catalog, scorer)?;
        }
    }
    Ok(())
}

/// FETCH: puts the first rows of a view, at most this many, with ranks from 1 on.
pub(crate) fn fetch_view<O: Sink>(
    alloc: Global,
    count: &(i64, Span),
    name: &Name,
    catalog: &Catalog,
    held: &HeldViews,
    out: &mut O,
) -> Result<(), Fault>
    requires { (answer : Answering) × AllStand answer catalog.now (views_in held.now) }
    ensures { (beside : Environment) → Stepped
        (λ step. step ≡ fetch_step (kept_of catalog.now (views_in held.now)) count.now name.now) (kept_of catalog.now (views_in held.now)) result
        (record beside { out = O.state out.old }) (record beside { out = O.state out.new }) }
{
    let count = bind_count(count.0, count.1)?;
    let view = held.views.named(&name.text)?;
    put_first(alloc, catalog, view, count, out)
}

/// Puts the first rows of a view, at most this many. Output values would take far more memory than the view does, so they are made of
/// a few rows at a time.
fn put_first<O: Sink>(
    alloc: Global,
    catalog: &Catalog,
    view: &View,
    count: u32,
    out: &mut O,
) -> Result<(), Fault>
    requires { (answer : Answering) × Stands answer catalog.now view.now }
    ensures { (beside : Environment) → Ran (lines_run (rank_lines 1 (take count (rows_in catalog.now view.now)))) result
        (record beside { out = O.state out.old }) (record beside { out = O.state out.new }) }
{
    let wanted = (count as usize).min(view.len());
    let mut given = 0;
    while given < wanted {
        let some = ROWS_AT_ONCE.min(wanted - given);
        put_some(alloc, catalog, view, given, some, out)?;
        given += some;
    }
    Ok(())
}

/// Puts some rows of a view behind so many that were put.
fn put_some<O: Sink>(
    alloc: Global,
    catalog: &Catalog,
    view: &View,
    given: usize,
    some: usize,
    out: &mut O,
) -> Result<(), Fault>
    requires { (answer : Answering) × Stands answer catalog.now view.now }
    ensures { (beside : Environment) → Ran (lines_run (rank_lines (suc given) (take some (drop given (rows_in catalog.now view.now))))) result
        (record beside { out = O.state out.old }) (record beside { out = O.state out.new }) }
{
    let rows = view.rows(alloc, catalog, given, some)?;
    put_rows(alloc, given, &rows, out)
}

/// CLOSE: the name of a view is free again. All other views stay in their order.
pub(crate) fn close_view(name: &Name, held: &mut HeldViews) -> Result<(), Fault>
    ensures closes { (catalogue : CatalogDef) → Leaves (close_outcome (kept_of catalogue (views_in held.old)) name.now) (kept_of catalogue (views_in held.new)) result }
    ensures stand { (answer : Answering) (catalogue : CatalogDef) → AllStand answer catalogue (views_in held.old)
        → AllStand answer catalogue (views_in held.new) }
{
    held.views.remove(&name.text)
}
