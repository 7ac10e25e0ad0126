//! The word `view`: a script whose queries are kept as views, which grow as rows join their tables.

ghost use Rattle.std.specs.Prelude.{◌≡◌, ◌≤◌, ℕ, IfOk, length};
ghost use Rattle.rs_syntax.specs.Syntax.{command_of, commands_of, query_of};
ghost use Rattle.rs_syntax.specs.Written.{AreWritten, IsWritten, IsWrittenQuery};
ghost use Rattle.rs_catalog.specs.IndexesHold.{IndexesHold};
ghost use Rattle.rs_query.specs.WellFormed.{IsQuery};
ghost use Rattle.rs_bind.specs.Inserts.{IsInsert};
ghost use Rattle.rs_events.specs.Environment.{Environment};
ghost use Rattle.rs_outside.specs.Files.{finds_in};
ghost use Rattle.rs_events.specs.Running.{Runs, Stepped};
ghost use Rattle.rs_statement.specs.Parts.Steps as steps;
ghost use Rattle.rs_run.specs.Faults.{run_faults};
ghost use Rattle.rs_run.specs.Parts.Holding.{AllStand, IsKept, kept_of, views_in};
ghost use Rattle.rs_run.specs.Running.{IsFormRun};
ghost use Rattle.rs_run.specs.Viewing.{DoesByViews, DoesKept, declared_step, viewed_step};
ghost use Rattle.rs_run.specs.Words.{Views};
ghost use Rattle.rs_run.specs.declared.fault.ScriptWord.TheVariants as word;

use crate::bound_query::bound_query;
use crate::dialect::{Dialect, interpret};
use crate::fault::{RunFault, ScriptWord};
use crate::readers::Readers;
use crate::statement::run_without_cursor;
use crate::views::{HeldViews, close_view, fetch_view, grow_views, make_view};
use rs_catalog::Catalog;
use rs_events::Host;
use rs_expr::Scorer;
use rs_query::Query;
use rs_statement::{Evaluating, Fault, Session, insert_rows, release};
use rs_syntax::{Name, Select, Statement};
use rs_table::TableReader;
use rs_value::Text;
use rs_view::{is_keepable, views_go_on_to_stand};
use std::alloc::Global;

/// What `view` makes of statements: each DECLARE makes a view, which grows with its tables. The catalogue is kept, and the views that
/// are held. Tables are read by `tables`.
#[derive(Drop)]
struct Viewed<'t, T> {
    catalog: Catalog,
    held: HeldViews,
    tables: &'t mut T,
}

impl<'t, T: TableReader> Dialect for Viewed<'t, T> {
    ghost use Rattle.rs_catalog.specs.IndexesHold.{IndexesHold};
    ghost use Rattle.rs_run.specs.Parts.Holding.{AllStand, kept_of, views_in};
    ghost use Rattle.rs_run.specs.Viewing.{DoesByViews, Kept};
    ghost use Rattle.rs_run.specs.declared.fault.RunFault.TheVariants.{Statement};

    type OwnFault = RunFault;

    ghost State = { Kept };

    ghost state = { λ own. kept_of own.catalog (views_in own.held) };

    ghost Way = { Unit {0} };

    ghost way = { λ own. tt };

    ghost does = { λ way. DoesByViews };

    ghost holds = { λ answer own. IndexesHold answer own.catalog × AllStand answer own.catalog (views_in own.held) };

    ghost tells = { Statement };

    fn take<W: Host>(
        &mut self,
        alloc: Global,
        number: usize,
        statement: &Statement,
        host: &mut W,
    ) -> Result<(), RunFault> {
        self.run_statement(alloc, number, statement, host)
    }

    fn told(why: Fault) -> RunFault {
        RunFault::Statement(why)
    }
}

/// Does what a script says, statement by statement, up to the first fault, with its queries kept as views. It and its tables are
/// read by these readers.
pub fn run_with_views<T: TableReader, W: Host>(
    alloc: Global,
    name: &Text,
    readers: &mut Readers<T>,
    host: &mut W,
) -> Result<(), RunFault>
    ensures { Runs run_faults
        (IsFormRun (finds_in (W.state host.old).files.contents) (W.state host.old).scorer.answer (Views name.now)) result
        (W.state host.old) (W.state host.new) }
{
    let mut viewed = Viewed {
        catalog: Catalog::new(alloc),
        held: HeldViews::new(alloc),
        tables: &mut readers.tables,
    };
    let done = interpret(alloc, &mut viewed, name, &mut readers.script, host);
    drop(viewed.held);
    release(viewed.catalog, Session::new(alloc));
    done
}

impl<'t, T: TableReader> Viewed<'t, T> {
    /// Runs the statement of this number.
    fn run_statement<W: Host>(
        &mut self,
        alloc: Global,
        number: usize,
        statement: &Statement,
        host: &mut W,
    ) -> Result<(), RunFault>
        requires written { IsWritten (command_of statement.now) }
        requires indexes { IndexesHold (W.state host.old).scorer.answer self.old.catalog }
        requires stand { AllStand (W.state host.old).scorer.answer self.old.catalog (views_in self.old.held) }
        ensures does { Stepped run_faults
            (DoesByViews (finds_in (W.state host.old).files.contents) (W.state host.old).scorer.answer number (kept_of self.old.catalog (views_in self.old.held)) (command_of statement.now))
            (kept_of self.new.catalog (views_in self.new.held)) result (W.state host.old) (W.state host.new) }
        ensures indexes { IfOk result (λ _. IndexesHold (W.state host.old).scorer.answer self.new.catalog) }
        ensures stand { IfOk result (λ _. AllStand (W.state host.old).scorer.answer self.new.catalog (views_in self.new.held)) }
    {
        match statement {
            Statement::Declare { name, select } => declare_view(
                alloc,
                number,
                name,
                select,
                &self.catalog,
                &mut self.held,
                host.scorer(),
            ),
            Statement::Query(_) => Err(not_eligible(number)),
            Statement::Explain(_) => Err(not_eligible(number)),
            Statement::ExplainAnalyze(_) => Err(not_eligible(number)),
            _ => told(
                alloc,
                statement,
                &mut self.catalog,
                &mut self.held,
                &mut *self.tables,
                host,
            ),
        }
    }
}

/// The fault of the statement of this number, which the word doesn't take.
fn not_eligible(number: usize) -> RunFault
    ensures { result ≡ RunFault.NotEligible word.View number }
{
    RunFault::NotEligible {
        word: ScriptWord::View,
        statement: number,
    }
}

/// DECLARE, the statement of this number: makes the view of a query, which is bound first.
fn declare_view<S: Scorer>(
    alloc: Global,
    number: usize,
    name: &Name,
    select: &Select,
    catalog: &Catalog,
    held: &mut HeldViews,
    scorer: &mut S,
) -> Result<(), RunFault>
    requires written { IsWrittenQuery (query_of select.now) }
    requires stand { AllStand (S.state scorer.old).answer catalog.now (views_in held.old) }
    ensures makes { (beside : Environment) → Stepped run_faults
        (λ step. step ≡ declared_step (S.state scorer.old).answer number (kept_of catalog.now (views_in held.old)) name.now (query_of select.now))
        (kept_of catalog.now (views_in held.new)) result
        (record beside { scorer = S.state scorer.old }) (record beside { scorer = S.state scorer.new }) }
    ensures stand { IfOk result (λ _. AllStand (S.state scorer.old).answer catalog.now (views_in held.new)) }
{
    let query = bound_query(alloc, catalog, select)?;
    view_query(alloc, number, &name.text, query, catalog, held, scorer)
}

/// Makes the view of a bound query under this name, where one may be kept of it.
fn view_query<S: Scorer>(
    alloc: Global,
    number: usize,
    name: &Text,
    query: Query,
    catalog: &Catalog,
    held: &mut HeldViews,
    scorer: &mut S,
) -> Result<(), RunFault>
    requires formed { IsQuery catalog.now query }
    requires stand { AllStand (S.state scorer.old).answer catalog.now (views_in held.old) }
    ensures makes { (beside : Environment) → Stepped run_faults
        (λ step. step ≡ viewed_step (S.state scorer.old).answer number name.now (kept_of catalog.now (views_in held.old)) query)
        (kept_of catalog.now (views_in held.new)) result
        (record beside { scorer = S.state scorer.old }) (record beside { scorer = S.state scorer.new }) }
    ensures stand { IfOk result (λ _. AllStand (S.state scorer.old).answer catalog.now (views_in held.new)) }
{
    if !is_keepable(&query) {
        drop(query);
        return Err(not_eligible(number));
    }
    make_view(alloc, name, query, catalog, held, scorer)?;
    Ok(())
}

/// Runs a statement that the word takes and that isn't a DECLARE.
fn told<T: TableReader, W: Host>(
    alloc: Global,
    statement: &Statement,
    catalog: &mut Catalog,
    held: &mut HeldViews,
    tables: &mut T,
    host: &mut W,
) -> Result<(), RunFault>
    requires kept { IsKept (command_of statement.now) }
    requires written { IsWritten (command_of statement.now) }
    requires indexes { IndexesHold (W.state host.old).scorer.answer catalog.old }
    requires stand { AllStand (W.state host.old).scorer.answer catalog.old (views_in held.old) }
    ensures does { (number : ℕ) → Stepped run_faults
        (DoesByViews (finds_in (W.state host.old).files.contents) (W.state host.old).scorer.answer number (kept_of catalog.old (views_in held.old)) (command_of statement.now))
        (kept_of catalog.new (views_in held.new)) result (W.state host.old) (W.state host.new) }
    ensures indexes { IfOk result (λ _. IndexesHold (W.state host.old).scorer.answer catalog.new) }
    ensures stand { IfOk result (λ _. AllStand (W.state host.old).scorer.answer catalog.new (views_in held.new)) }
{
    run_kept(alloc, statement, catalog, held, tables, host)?;
    Ok(())
}

/// Runs a statement that the word takes and that isn't a DECLARE, with the faults of statements.
fn run_kept<T: TableReader, W: Host>(
    alloc: Global,
    statement: &Statement,
    catalog: &mut Catalog,
    held: &mut HeldViews,
    tables: &mut T,
    host: &mut W,
) -> Result<(), Fault>
    requires kept { IsKept (command_of statement.now) }
    requires written { IsWritten (command_of statement.now) }
    requires indexes { IndexesHold (W.state host.old).scorer.answer catalog.old }
    requires stand { AllStand (W.state host.old).scorer.answer catalog.old (views_in held.old) }
    ensures does { steps.Stepped
        (DoesKept (finds_in (W.state host.old).files.contents) (W.state host.old).scorer.answer (kept_of catalog.old (views_in held.old)) (command_of statement.now))
        (kept_of catalog.new (views_in held.new)) result (W.state host.old) (W.state host.new) }
    ensures indexes { IfOk result (λ _. IndexesHold (W.state host.old).scorer.answer catalog.new) }
    ensures stand { IfOk result (λ _. AllStand (W.state host.old).scorer.answer catalog.new (views_in held.new)) }
{
    match statement {
        Statement::Fetch { count, name } => fetch_view(
            alloc,
            count,
            name,
            catalog,
            held,
            host.out(),
        ),
        Statement::Close { name } => close_view(name, held),
        Statement::Insert { .. } => insert_and_grow(alloc, statement, catalog, held, host.scorer()),
        _ => {
            views_go_on_to_stand();
            run_without_cursor(alloc, Evaluating::Plainly, statement, catalog, tables, host)
        }
    }
}

/// INSERT: puts rows into their table and its indexes, and then brings the views up to date.
fn insert_and_grow<S: Scorer>(
    alloc: Global,
    statement: &Statement,
    catalog: &mut Catalog,
    held: &mut HeldViews,
    scorer: &mut S,
) -> Result<(), Fault>
    requires form { IsInsert (command_of statement.now) }
    requires written { IsWritten (command_of statement.now) }
    requires indexes { IndexesHold (S.state scorer.old).answer catalog.old }
    requires stand { AllStand (S.state scorer.old).answer catalog.old (views_in held.old) }
    ensures does { (beside : Environment) → steps.Stepped
        (DoesKept (finds_in beside.files.contents) (S.state scorer.old).answer (kept_of catalog.old (views_in held.old)) (command_of statement.now))
        (kept_of catalog.new (views_in held.new)) result
        (record beside { scorer = S.state scorer.old }) (record beside { scorer = S.state scorer.new }) }
    ensures indexes { IfOk result (λ _. IndexesHold (S.state scorer.old).answer catalog.new) }
    ensures stand { IfOk result (λ _. AllStand (S.state scorer.old).answer catalog.new (views_in held.new)) }
{
    views_go_on_to_stand();
    insert_rows(alloc, statement, catalog, scorer)?;
    grow_views(alloc, catalog, held, scorer)
}
