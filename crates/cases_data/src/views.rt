//! Views that are kept while rows join their tables.

ghost use Rattle.std.specs.Prelude.{◌≡◌, IfOk};
ghost use Rattle.rs_expr.specs.Scoring.{Answering};
ghost use Rattle.rs_query.specs.Growth.{CatalogueGrows};
ghost use Rattle.rs_query.specs.WellFormed.{IsQuery};
ghost use Rattle.rs_syntax.specs.Syntax.{command_of, commands_of};
ghost use Rattle.rs_syntax.specs.Written.{AreWritten, IsWritten};
ghost use Rattle.rs_view.specs.Views.{IsKeepable, Stands};

use crate::queries::{tell_answer, tell_calls};
use cases_lines::Fault;
use rs_bind::{bind, bind_insert};
use rs_catalog::Catalog;
use rs_expr::{MemScorer, Scorer};
use rs_plain::PlainFault;
use rs_query::{Query, catalogues_grow};
use rs_syntax::Statement;
use rs_view::{View, is_keepable, views_go_on_to_stand};
use std::alloc::Global;

/// Makes a view of the query that comes first, and lets it grow behind each INSERT that comes then. Its rows or its fault are told each
/// time, and at last the calls, of which the one of this number fails.
pub fn tell_view(
    alloc: Global,
    catalog: &mut Catalog,
    statements: &[Statement],
    failing: u64,
) -> Result<String, Fault>
    requires { AreWritten (commands_of statements.now) }
{
    let mut scorer = MemScorer::new(alloc);
    scorer.fail_at(failing)?;
    let mut told = String::new(alloc);
    tell_along(alloc, catalog, statements, &mut scorer, &mut told)?;
    tell_calls(scorer.calls(), &mut told)?;
    Ok(told)
}

fn tell_along<S: Scorer>(
    alloc: Global,
    catalog: &mut Catalog,
    statements: &[Statement],
    scorer: &mut S,
    told: &mut String,
) -> Result<(), Fault>
    requires { AreWritten (commands_of statements.now) }
{
    let Some((first, inserts)) = statements.split_first() else {
        return Err(Fault::Form);
    };
    let query = keepable_of(alloc, catalog, first)?;
    match View::make(alloc, catalog, query, scorer) {
        Ok(mut view) => {
            tell_rows(alloc, catalog, &view, told)?;
            grow_along(alloc, catalog, &mut view, inserts, scorer, told)
        }
        Err(fault) => tell_fault(fault, told),
    }
}

/// Lets a view grow behind the rows of each of these INSERTs, one after another.
fn grow_along<S: Scorer>(
    alloc: Global,
    catalog: &mut Catalog,
    view: &mut View,
    inserts: &[Statement],
    scorer: &mut S,
    told: &mut String,
) -> Result<(), Fault>
    requires written { AreWritten (commands_of inserts.now) }
    requires stands { Stands (S.state scorer.old).answer catalog.old view.old }
{
    let Some((first, rest)) = inserts.split_first() else {
        return Ok(());
    };
    grow_behind(alloc, catalog, view, first, scorer, told)?;
    grow_along(alloc, catalog, view, rest, scorer, told)
}

/// The query of a statement, where a view of it may be kept.
fn keepable_of(alloc: Global, catalog: &Catalog, statement: &Statement) -> Result<Query, Fault>
    requires { IsWritten (command_of statement.now) }
    ensures query { IfOk result (IsQuery catalog.now) }
    ensures keepable { IfOk result IsKeepable }
{
    let Statement::Query(select) = statement else {
        return Err(Fault::Form);
    };
    let Ok(query) = bind(alloc, catalog, select) else {
        return Err(Fault::Form);
    };
    if is_keepable(&query) {
        return Ok(query);
    }
    Err(Fault::Form)
}

/// Lets a view grow behind the rows of an INSERT.
fn grow_behind<S: Scorer>(
    alloc: Global,
    catalog: &mut Catalog,
    view: &mut View,
    statement: &Statement,
    scorer: &mut S,
    told: &mut String,
) -> Result<(), Fault>
    requires written { IsWritten (command_of statement.now) }
    requires stands { Stands (S.state scorer.old).answer catalog.old view.old }
    ensures { Stands (S.state scorer.new).answer catalog.new view.new }
{
    views_go_on_to_stand();
    join(alloc, catalog, statement, scorer)?;
    match view.grow(alloc, catalog, scorer) {
        Ok(()) => tell_rows(alloc, catalog, view, told),
        Err(fault) => tell_fault(fault, told),
    }
}

/// The rows of an INSERT join their table.
fn join<S: Scorer>(
    alloc: Global,
    catalog: &mut Catalog,
    statement: &Statement,
    scorer: &mut S,
) -> Result<(), Fault>
    requires { IsWritten (command_of statement.now) }
    ensures grows { CatalogueGrows catalog.old catalog.new }
    ensures answers { (S.state scorer.new).answer ≡ (S.state scorer.old).answer }
{
    catalogues_grow();
    if !matches!(statement, Statement::Insert { .. }) {
        return Err(Fault::Form);
    }
    let Ok((table, rows)) = bind_insert(alloc, catalog, statement) else {
        return Err(Fault::Form);
    };
    match catalog.add_rows(alloc, table, rows, scorer) {
        Ok(()) => Ok(()),
        Err(_) => Err(Fault::Memory),
    }
}

fn tell_rows(alloc: Global, catalog: &Catalog, view: &View, told: &mut String) -> Result<(), Fault>
    requires { (answer : Answering) × Stands answer catalog.now view.now }
{
    told.push_str("rows")?;
    let rows = view.rows(alloc, catalog, 0, view.len())?;
    for row in &rows {
        tell_answer(row, told)?;
    }
    Ok(told.push_str("\n")?)
}

fn tell_fault(fault: PlainFault, told: &mut String) -> Result<(), Fault> {
    match fault {
        PlainFault::Memory => Err(Fault::Memory),
        fault => Ok(write!(told, "{fault:?}\n")?),
    }
}
