//! The query of a script, over the tables, predicates and rank indexes that it makes.

ghost use Rattle.std.specs.Prelude.{◌≡◌, IfOk, Ok};
ghost use Rattle.rs_syntax.specs.Syntax.{command_of, commands_of};
ghost use Rattle.rs_syntax.specs.Written.{AreWritten, IsWritten};
ghost use Rattle.rs_bind.specs.Indexes.{IsCreateRankIndex};
ghost use Rattle.rs_catalog.specs.Catalog.{room_for};
ghost use Rattle.rs_catalog.specs.Indexes.{IsIndex};
ghost use Rattle.rs_catalog.specs.declared.room.What.TheVariants as what;
ghost use Rattle.rs_expr.specs.MemScorer.{answered_score};
ghost use Rattle.rs_catalog.specs.IndexesHold.{IndexesHold};

use crate::calls::tell_calls;
use crate::query::{Asked, tell_query};
use cases_lines::Fault;
use cases_scripts::{bind_fault, make};
use rs_bind::bind_index;
use rs_catalog::{Catalog, IndexDef, IndexFault, What};
use rs_enum::Grid;
use rs_expr::{Call, MemScorer};
use rs_syntax::Statement;
use std::alloc::Global;
use std::hash::RandomState;

/// Makes what the statements say, up to the first query, and tells what is asked of that one.
pub fn tell_script(
    alloc: Global,
    hash_keys: RandomState,
    statements: &[Statement],
    asked: &Asked,
    scorer: &mut MemScorer,
    grid: &mut Grid,
) -> Result<String, Fault>
    requires { AreWritten (commands_of statements.now) }
{
    let mut catalog = Catalog::new(alloc);
    let told = tell_statements(
        alloc,
        hash_keys,
        statements,
        asked,
        &mut catalog,
        scorer,
        grid,
    );
    drop(catalog);
    told
}

/// Adds to a catalogue what the statements make, up to the first query, and tells what is asked of that one.
fn tell_statements(
    alloc: Global,
    hash_keys: RandomState,
    statements: &[Statement],
    asked: &Asked,
    catalog: &mut Catalog,
    scorer: &mut MemScorer,
    grid: &mut Grid,
) -> Result<String, Fault>
    requires written { AreWritten (commands_of statements.now) }
    requires held { IndexesHold (answered_score scorer.old) catalog.old }
{
    for statement in statements {
        if let Statement::Query(select) = statement {
            return tell_query(alloc, catalog, select, asked, scorer, grid);
        }
        if let Some(fault) = join(alloc, hash_keys, catalog, statement, scorer)? {
            return tell_index_fault(alloc, fault, scorer.calls());
        }
    }
    Err(Fault::Form)
}

/// Makes the table, the predicate or the index of a statement. Where the index can't be made, it answers why.
fn join(
    alloc: Global,
    hash_keys: RandomState,
    catalog: &mut Catalog,
    statement: &Statement,
    scorer: &mut MemScorer,
) -> Result<Option<IndexFault>, Fault>
    requires written { IsWritten (command_of statement.now) }
    requires held { IndexesHold (answered_score scorer.old) catalog.old }
    ensures { IfOk result (λ _. IndexesHold (answered_score scorer.new) catalog.new) }
{
    match statement {
        Statement::CreateRankIndex { .. } => make_index(alloc, catalog, statement, scorer),
        _ => {
            make(alloc, hash_keys, catalog, statement)?;
            Ok(None)
        }
    }
}

fn make_index(
    alloc: Global,
    catalog: &mut Catalog,
    statement: &Statement,
    scorer: &mut MemScorer,
) -> Result<Option<IndexFault>, Fault>
    requires form { IsCreateRankIndex (command_of statement.now) }
    requires written { IsWritten (command_of statement.now) }
    requires held { IndexesHold (answered_score scorer.old) catalog.old }
    ensures { IfOk result (λ _. IndexesHold (answered_score scorer.new) catalog.new) }
{
    let def = match bind_index(alloc, catalog, statement) {
        Ok(def) => def,
        Err(fault) => return Err(bind_fault(fault)),
    };
    if catalog.room(What::Index, &def.name) != Ok(()) {
        drop(def);
        return Err(Fault::Form);
    }
    match add_index(alloc, catalog, def, scorer) {
        Ok(()) => Ok(None),
        Err(IndexFault::Memory) => Err(Fault::Memory),
        Err(fault) => Ok(Some(fault)),
    }
}

/// Makes an index the last one of the catalogue. Whatever comes of it, all indexes go on to hold the scorer's answers.
fn add_index(
    alloc: Global,
    catalog: &mut Catalog,
    def: IndexDef,
    scorer: &mut MemScorer,
) -> Result<(), IndexFault>
    requires room { room_for what.Index def.name catalog.old ≡ Ok tt }
    requires fits { IsIndex catalog.old def }
    requires held { IndexesHold (answered_score scorer.old) catalog.old }
    ensures { IndexesHold (answered_score scorer.new) catalog.new }
{
    catalog.add_index(alloc, def, scorer)
}

/// Tells why an index can't be made, and the calls for it and for those before it.
fn tell_index_fault(alloc: Global, fault: IndexFault, calls: &[Call]) -> Result<String, Fault> {
    let mut told = format!(in alloc; "  index {fault:?}")?;
    tell_calls(calls, &mut told)?;
    Ok(told)
}
