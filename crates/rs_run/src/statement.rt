ghost use Rattle.std.specs.Prelude.{◌≡◌, IfOk};
ghost use Rattle.rs_syntax.specs.Syntax.{command_of};
ghost use Rattle.rs_syntax.specs.Written.{IsWritten};
ghost use Rattle.rs_catalog.specs.IndexesHold.{IndexesHold};
ghost use Rattle.rs_statement.specs.Parts.Steps.{Stepped};
ghost use Rattle.rs_outside.specs.Files.{finds_in};
ghost use Rattle.rs_statement.specs.Statements.{Does};
ghost use Rattle.rs_statement.specs.Session.{DoesInSession};
ghost use Rattle.rs_statement.specs.Parts.Session.{CanAllBeAsked, IsOfNoCursor, held_in, state_of};

use crate::dialect::Dialect;
use rs_catalog::Catalog;
use rs_events::Host;
use rs_exec::cursors_stand_in_larger_catalogues;
use rs_statement::{
    Evaluating, Fault, Session, close, create_index, create_predicate, create_table, declare,
    fetch, insert_rows, run_analyze, run_explain, run_select,
};
use rs_syntax::Statement;
use rs_table::TableReader;
use std::alloc::Global;

/// What `run` and `plain` make of statements: each query is evaluated so, and cursors are kept beside the catalogue. Tables are read
/// by `tables`.
#[derive(Drop)]
pub(crate) struct Evaluated<'t, T> {
    pub(crate) evaluating: Evaluating,
    pub(crate) catalog: Catalog,
    pub(crate) session: Session,
    pub(crate) tables: &'t mut T,
}

impl<'t, T: TableReader> Dialect for Evaluated<'t, T> {
    ghost use Rattle.rs_catalog.specs.IndexesHold.{IndexesHold};
    ghost use Rattle.rs_statement.specs.Parts.Session.{CanAllBeAsked, held_in, state_of};
    ghost use Rattle.rs_statement.specs.Session.{DoesInSession, State as SessionState};
    ghost use Rattle.rs_statement.specs.declared.evaluating.Evaluating.{Evaluating as Way};
    ghost use Rattle.rs_run.specs.Plain.{as_it_is};

    type OwnFault = Fault;

    ghost State = { SessionState };

    ghost state = { λ own. state_of own.catalog (held_in own.session) };

    ghost Way = { Way };

    ghost way = { λ own. own.evaluating };

    ghost does = { λ evaluating finds answer number. DoesInSession finds answer evaluating };

    ghost holds = { λ answer own. IndexesHold answer own.catalog × CanAllBeAsked answer own.catalog (held_in own.session) };

    ghost tells = { as_it_is };

    fn take<W: Host>(
        &mut self,
        alloc: Global,
        _number: usize,
        statement: &Statement,
        host: &mut W,
    ) -> Result<(), Fault> {
        self.run_statement(alloc, statement, host)
    }

    fn told(why: Fault) -> Fault {
        why
    }
}

impl<'t, T: TableReader> Evaluated<'t, T> {
    /// Runs a statement.
    fn run_statement<W: Host>(
        &mut self,
        alloc: Global,
        statement: &Statement,
        host: &mut W,
    ) -> Result<(), Fault>
        requires written { IsWritten (command_of statement.now) }
        requires held { IndexesHold (W.state host.old).scorer.answer self.old.catalog }
        requires asked { CanAllBeAsked (W.state host.old).scorer.answer self.old.catalog (held_in self.old.session) }
        ensures does { Stepped
            (DoesInSession (finds_in (W.state host.old).files.contents) (W.state host.old).scorer.answer self.old.evaluating
            (state_of self.old.catalog (held_in self.old.session)) (command_of statement.now)) (state_of self.new.catalog (held_in self.new.session)) result
            (W.state host.old) (W.state host.new) }
        ensures held { IfOk result (λ _. IndexesHold (W.state host.old).scorer.answer self.new.catalog) }
        ensures asked { IfOk result (λ _. CanAllBeAsked (W.state host.old).scorer.answer self.new.catalog (held_in self.new.session)) }
        ensures same { self.new.evaluating ≡ self.old.evaluating }
    {
        match statement {
            Statement::Declare { name, select } => declare(
                alloc,
                self.evaluating,
                name,
                select,
                &self.catalog,
                &mut self.session,
                host.scorer(),
            ),
            Statement::Fetch { count, name } => {
                fetch(alloc, count, name, &self.catalog, &mut self.session, host)
            }
            Statement::Close { name } => close(name, &mut self.session),
            _ => {
                cursors_stand_in_larger_catalogues();
                run_without_cursor(
                    alloc,
                    self.evaluating,
                    statement,
                    &mut self.catalog,
                    &mut *self.tables,
                    host,
                )
            }
        }
    }
}

/// Runs a statement that concerns no cursor.
pub(crate) fn run_without_cursor<T: TableReader, W: Host>(
    alloc: Global,
    evaluating: Evaluating,
    statement: &Statement,
    catalog: &mut Catalog,
    tables: &mut T,
    host: &mut W,
) -> Result<(), Fault>
    requires form { IsOfNoCursor (command_of statement.now) }
    requires written { IsWritten (command_of statement.now) }
    requires held { IndexesHold (W.state host.old).scorer.answer catalog.old }
    ensures { Stepped
        (Does (finds_in (W.state host.old).files.contents) (W.state host.old).scorer.answer evaluating catalog.old (command_of statement.now)) catalog.new result
        (W.state host.old) (W.state host.new) }
{
    match statement {
        Statement::CreateTable {
            name,
            columns,
            file,
        } => {
            let columns = columns.items();
            create_table(alloc, name, columns, file, catalog, tables, host.files())
        }
        Statement::CreatePredicate { name, .. } => create_predicate(
            alloc, name, statement, catalog,
        ),
        Statement::CreateRankIndex { name, .. } => {
            create_index(alloc, name, statement, catalog, host.scorer())
        }
        Statement::Insert { .. } => insert_rows(alloc, statement, catalog, host.scorer()),
        Statement::Query(select) => { run_select(alloc, evaluating, select, catalog, host) }
        Statement::Explain(select) => { run_explain(alloc, evaluating, select, catalog, host) }
        Statement::ExplainAnalyze(select) => {
            run_analyze(alloc, evaluating, select, catalog, host)
        }
        _ => unreachable!(),
    }
}
