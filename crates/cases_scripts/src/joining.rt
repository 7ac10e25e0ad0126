ghost use Rattle.std.specs.Prelude.{◌≡◌, ◌≤◌, IfOk, Ok, OnErr, length};
ghost use Rattle.rs_syntax.specs.Syntax.{command_of};
ghost use Rattle.rs_bind.specs.Predicates.{IsCreatePredicate};
ghost use Rattle.rs_syntax.specs.Written.{IsWritten};
ghost use Rattle.cases_scripts.specs.Joining.{HasJoined, PredicateJoined, TableJoined};

use cases_lines::Fault;
use rs_bind::{BindFault, bind_predicate, bind_table};
use rs_catalog::{Catalog, What};
use rs_syntax::{Name, Statement};
use rs_table::{TABLE_LIMIT, Table, TableFault};
use rs_value::{Kind, Text};
use std::alloc::Global;
use std::hash::RandomState;

/// Makes the table or the predicate of a statement, the last one of the catalogue. The text behind FROM is not the name of a
/// table's file, but what is in the file, whose texts are hashed by the keys. After a fault nothing joined.
pub fn make(
    alloc: Global,
    hash_keys: RandomState,
    catalog: &mut Catalog,
    statement: &Statement,
) -> Result<(), Fault>
    requires { IsWritten (command_of statement.now) }
    ensures ok { IfOk result (λ _. HasJoined catalog.old catalog.new) }
    ensures err { OnErr result (catalog.new ≡ catalog.old) }
{
    match statement {
        Statement::CreateTable {
            name,
            columns,
            file,
        } => make_table(alloc, hash_keys, catalog, name, columns.items(), file),
        Statement::CreatePredicate { .. } => make_predicate(alloc, catalog, statement),
        _ => Err(Fault::Form),
    }
}

/// Makes a table of these columns and of a file's bytes.
fn make_table(
    alloc: Global,
    hash_keys: RandomState,
    catalog: &mut Catalog,
    name: &Name,
    columns: &[(Name, Kind)],
    file: &Text,
) -> Result<(), Fault>
    requires { 1 ≤ length columns.now }
    ensures ok { IfOk result (λ _. TableJoined catalog.old catalog.new) }
    ensures err { OnErr result (catalog.new ≡ catalog.old) }
{
    let table = table_of(alloc, hash_keys, columns, file)?;
    let Ok(name) = name.text.copy() else {
        return Err(Fault::Memory);
    };
    if catalog.room(What::Table, &name) != Ok(()) {
        return Err(Fault::Form);
    }
    match catalog.add_table(name, table) {
        Ok(()) => Ok(()),
        Err(_) => Err(Fault::Memory),
    }
}

/// The table of these columns and of a file's bytes.
fn table_of(
    alloc: Global,
    hash_keys: RandomState,
    columns: &[(Name, Kind)],
    file: &Text,
) -> Result<Table, Fault>
    requires { 1 ≤ length columns.now }
{
    if file.bytes().len() > TABLE_LIMIT {
        return Err(Fault::Form);
    }
    let schema = match bind_table(alloc, columns) {
        Ok(schema) => schema,
        Err(fault) => return Err(bind_fault(fault)),
    };
    match Table::read(alloc, hash_keys, schema, file.bytes()) {
        Ok(table) => Ok(table),
        Err(TableFault::Memory) => Err(Fault::Memory),
        Err(_) => Err(Fault::Form),
    }
}

/// Makes the predicate of a statement.
fn make_predicate(alloc: Global, catalog: &mut Catalog, statement: &Statement) -> Result<(), Fault>
    requires form { IsCreatePredicate (command_of statement.now) }
    requires written { IsWritten (command_of statement.now) }
    ensures ok { IfOk result (λ _. PredicateJoined catalog.old catalog.new) }
    ensures err { OnErr result (catalog.new ≡ catalog.old) }
{
    let predicate = match bind_predicate(alloc, statement) {
        Ok(predicate) => predicate,
        Err(fault) => return Err(bind_fault(fault)),
    };
    if catalog.room(What::Predicate, predicate.name()) != Ok(()) {
        return Err(Fault::Form);
    }
    match catalog.add_predicate(predicate) {
        Ok(()) => Ok(()),
        Err(_) => Err(Fault::Memory),
    }
}

/// The fault of a line whose statement can't be bound.
pub fn bind_fault(fault: BindFault) -> Fault {
    match fault {
        BindFault::Memory => Fault::Memory,
        BindFault::At(_, _) => Fault::Form,
    }
}
