//! What statements are bound to.

ghost use Rattle.std.specs.Prelude.{IfOk};
ghost use Rattle.rs_syntax.specs.Syntax.{command_of, commands_of};
ghost use Rattle.rs_query.specs.WellFormed.{IsQuery};
ghost use Rattle.rs_syntax.specs.Written.{AreWritten, IsWritten};

use crate::queries::{tell_combinations, tell_plain};
use crate::show::{show_count, show_index, show_predicate, show_query, show_rows, show_table};
use crate::views::tell_view;
use cases_lines::{Fault, count_of, cut_word, number_of, text_of};
use cases_scripts::{make, statements_of};
use rs_bind::{bind, bind_count, bind_index, bind_insert, bind_predicate, bind_table};
use rs_catalog::{Catalog, Snapshot};
use rs_query::Query;
use rs_syntax::Statement;
use std::alloc::Global;
use std::hash::RandomState;

/// Binds the only statement of a script, and tells what came of it.
pub fn tell_bound(alloc: Global, catalog: &Catalog, script: &[u8]) -> Result<String, Fault> {
    let statements = statements_of(alloc, &text_of(alloc, script)?)?;
    let told = tell_statement(alloc, catalog, &statements);
    drop(statements);
    told
}

/// The same, and the statement joins the catalogue. Texts of its table are hashed by the keys.
pub fn tell_joined(
    alloc: Global,
    hash_keys: RandomState,
    catalog: &mut Catalog,
    script: &[u8],
) -> Result<String, Fault> {
    let statements = statements_of(alloc, &text_of(alloc, script)?)?;
    let told = make_statement(alloc, hash_keys, catalog, &statements);
    drop(statements);
    told
}

/// What is asked of a query.
#[derive(Clone, Copy)]
pub enum Asked {
    /// Its combinations that have a row behind the first so many of its table. Behind none is every row.
    Rows(u32),
    /// Its answers, where the call of this number fails, counted from 1.
    Answers(u64),
}

/// The answers of a query where a call fails: `NUMBER QUERY`.
pub fn tell_failing(alloc: Global, catalog: &Catalog, words: &[u8]) -> Result<String, Fault> {
    let (number, script) = cut_word(words);
    tell_query(alloc, catalog, Asked::Answers(number_of(number)?), script)
}

/// The combinations of a query that have a row behind the first so many of its table: `NUMBER QUERY`.
pub fn tell_fresh(alloc: Global, catalog: &Catalog, words: &[u8]) -> Result<String, Fault> {
    let (number, script) = cut_word(words);
    tell_query(alloc, catalog, Asked::Rows(count_of(number)?), script)
}

/// A view of a query, which grows behind each INSERT that comes then: `NUMBER STATEMENTS`. The call of this number fails.
pub fn tell_kept(alloc: Global, catalog: &mut Catalog, words: &[u8]) -> Result<String, Fault> {
    let (number, script) = cut_word(words);
    let failing = number_of(number)?;
    let statements = statements_of(alloc, &text_of(alloc, script)?)?;
    let told = tell_view(alloc, catalog, &statements, failing);
    drop(statements);
    told
}

/// Binds the query that is the only statement of a script, and tells what is asked of it.
pub fn tell_query(
    alloc: Global,
    catalog: &Catalog,
    asked: Asked,
    script: &[u8],
) -> Result<String, Fault> {
    let query = query_in(alloc, catalog, script)?;
    let told = tell_asked(alloc, catalog, asked, &query);
    drop(query);
    told
}

fn tell_asked(
    alloc: Global,
    catalog: &Catalog,
    asked: Asked,
    query: &Query,
) -> Result<String, Fault>
    requires { IsQuery catalog.now query.now }
{
    match asked {
        Asked::Rows(old) => tell_combinations(alloc, &Snapshot::current(catalog), query, old),
        Asked::Answers(failing) => tell_plain(alloc, catalog, query, failing),
    }
}

/// The query that is the only statement of a script.
fn query_in(alloc: Global, catalog: &Catalog, script: &[u8]) -> Result<Query, Fault>
    ensures { IfOk result (λ query. IsQuery catalog.now query) }
{
    let statements = statements_of(alloc, &text_of(alloc, script)?)?;
    let query = query_of(alloc, catalog, &statements);
    drop(statements);
    query
}

fn query_of(alloc: Global, catalog: &Catalog, statements: &[Statement]) -> Result<Query, Fault>
    requires { AreWritten (commands_of statements.now) }
    ensures { IfOk result (λ query. IsQuery catalog.now query) }
{
    if statements.len() != 1 {
        return Err(Fault::Form);
    }
    let Statement::Query(select) = &statements[0] else {
        return Err(Fault::Form);
    };
    match bind(alloc, catalog, select) {
        Ok(query) => Ok(query),
        Err(_) => Err(Fault::Form),
    }
}

fn tell_statement(
    alloc: Global,
    catalog: &Catalog,
    statements: &[Statement],
) -> Result<String, Fault>
    requires { AreWritten (commands_of statements.now) }
{
    if statements.len() != 1 {
        return Err(Fault::Form);
    }
    let mut told = String::new(alloc);
    show_bound(alloc, catalog, &statements[0], &mut told)?;
    Ok(told)
}

fn make_statement(
    alloc: Global,
    hash_keys: RandomState,
    catalog: &mut Catalog,
    statements: &[Statement],
) -> Result<String, Fault>
    requires { AreWritten (commands_of statements.now) }
{
    let told = tell_statement(alloc, catalog, statements)?;
    if statements.len() != 1 {
        return Err(Fault::Form);
    }
    make(alloc, hash_keys, catalog, &statements[0])?;
    Ok(told)
}

/// Binds a statement, and shows what came of it.
fn show_bound(
    alloc: Global,
    catalog: &Catalog,
    statement: &Statement,
    told: &mut String,
) -> Result<(), Fault>
    requires { IsWritten (command_of statement.now) }
{
    match statement {
        Statement::CreateTable { columns, .. } => {
            let bound = bind_table(alloc, columns.items());
            let shown = show_table(told, &bound);
            drop(bound);
            shown
        }
        Statement::CreatePredicate { .. } => {
            let bound = bind_predicate(alloc, statement);
            let shown = show_predicate(told, &bound);
            drop(bound);
            shown
        }
        Statement::CreateRankIndex { .. } => {
            let bound = bind_index(alloc, catalog, statement);
            let shown = show_index(told, &bound);
            drop(bound);
            shown
        }
        Statement::Insert { .. } => {
            let bound = bind_insert(alloc, catalog, statement);
            let shown = show_rows(told, &bound);
            drop(bound);
            shown
        }
        Statement::Query(select) => {
            let bound = bind(alloc, catalog, select);
            let shown = show_query(told, &bound);
            drop(bound);
            shown
        }
        Statement::Fetch { count, .. } => show_count(told, bind_count(count.0, count.1)),
        _ => Err(Fault::Form),
    }
}
