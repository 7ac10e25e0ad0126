//! Statements that create: a table, a predicate or a rank index.

ghost use Rattle.std.specs.Prelude.{◌≡◌, ◌≤◌, Ok, IfOk, length};
ghost use Rattle.rs_value.specs.Answer.{Gives};
ghost use Rattle.rs_syntax.specs.Syntax.{command_of};
ghost use Rattle.rs_bind.specs.Indexes.{index_def_of};
ghost use Rattle.rs_bind.specs.Names.{columns_of};
ghost use Rattle.rs_bind.specs.Predicates.{predicate_of};
ghost use Rattle.rs_syntax.specs.Written.{IsWritten};
ghost use Rattle.rs_catalog.specs.Catalog.{room_for};
ghost use Rattle.rs_catalog.specs.Indexes.{IsIndex};
ghost use Rattle.rs_catalog.specs.declared.room.What.TheVariants as what;
ghost use Rattle.rs_statement.specs.Parts.Steps.{FetchesFile, IsIndexNamed, IsPredicateNamed, IsReadTable, Leaves, Stepped};
ghost use Rattle.rs_outside.specs.Files.{finds_in};
ghost use Rattle.rs_statement.specs.Statements.{DoesTable, index_step, or_room_fault, predicate_outcome, refused_or, with_room};
ghost use Rattle.rs_events.specs.Environment.{Environment};

use crate::fault::{Fault, index_fault};
use crate::file::{fetch_file, table_fault};
use crate::script_fault::ScriptFault;
use rs_bind::{bind_index, bind_predicate, bind_table};
use rs_catalog::{Catalog, IndexDef, What};
use rs_expr::{Predicate, Scorer};
use rs_outside::Files;
use rs_syntax::{Name, Statement};
use rs_table::{Schema, TABLE_LIMIT, Table, TableReader};
use rs_value::{Kind, Text};
use std::alloc::Global;

/// Whether the catalogue has room for a name, or the fault at the name.
fn room(catalog: &Catalog, what: What, name: &Name) -> Result<(), Fault>
    ensures { result ≡ or_room_fault name.now (room_for what name.now.text catalog.now) }
{
    match catalog.room(what, &name.text) {
        Ok(()) => Ok(()),
        Err(why) => Err(Fault::Script(ScriptFault::Room {
            why,
            at: name.at.start,
        })),
    }
}

/// The columns of a table for which the catalogue has room.
fn table_schema(
    alloc: Global,
    name: &Name,
    columns: &[(Name, Kind)],
    catalog: &Catalog,
) -> Result<Schema, Fault>
    requires { 1 ≤ length columns.now }
    ensures gives { Gives Fault.Memory (with_room catalog.now what.Table name.now (columns_of columns.now)) result }
    ensures room { IfOk result (λ _. room_for what.Table name.now.text catalog.now ≡ Ok tt) }
{
    let schema = bind_table(alloc, columns)?;
    room(catalog, What::Table, name)?;
    Ok(schema)
}

/// The table in a file.
fn read_table<F: Files, T: TableReader>(
    alloc: Global,
    file: &Text,
    schema: Schema,
    tables: &mut T,
    files: &mut F,
) -> Result<Table, Fault>
    ensures { FetchesFile file.now result (IsReadTable file.now schema) (F.state files.old) (F.state files.new) }
{
    let bytes = fetch_file(alloc, file, TABLE_LIMIT, files)?;
    match tables.read_table(alloc, files.hash_keys(), schema, &bytes) {
        Ok(table) => Ok(table),
        Err(why) => Err(table_fault(file, why)),
    }
}

/// Makes a table of a file. Names and types count first, then whether there is room for the name. Then the file is fetched, once.
///
/// # Errors
///
/// - `Script`: exactly where the statement breaks a rule of names and types, or the catalogue has no room for its name;
///   nothing is fetched then.
/// - `Read`: where the files tell what they hold, `Missing` exactly where they have none of the name, and `TooLong` exactly
///   where it has more than 33,554,432 bytes; `Failed` only where their count of faults rose.
/// - `Table`: exactly where the file is no table of these columns, with what `Table::read` of rs_table tells.
/// - `Memory`: at any time, in place of what else would come.
/// - `Write`, `BadScore`, `Probe`, `Session`: never.
pub fn create_table<F: Files, T: TableReader>(
    alloc: Global,
    name: &Name,
    columns: &[(Name, Kind)],
    file: &Text,
    catalog: &mut Catalog,
    tables: &mut T,
    files: &mut F,
) -> Result<(), Fault>
    requires { 1 ≤ length columns.now }
    ensures { (beside : Environment) → Stepped
        (DoesTable (finds_in (F.state files.old).contents) catalog.old name.now file.now (with_room catalog.old what.Table name.now (columns_of columns.now)))
        catalog.new result (record beside { files = F.state files.old }) (record beside { files = F.state files.new }) }
{
    let schema = table_schema(alloc, name, columns, catalog)?;
    let table = read_table(alloc, file, schema, tables, files)?;
    let name = name.text.copy()?;
    catalog.add_table(name, table)?;
    Ok(())
}

/// The predicate of a statement for whose name the catalogue has room.
fn roomy_predicate(
    alloc: Global,
    name: &Name,
    statement: &Statement,
    catalog: &Catalog,
) -> Result<Predicate, Fault>
    requires form { IsPredicateNamed name.now (command_of statement.now) }
    requires written { IsWritten (command_of statement.now) }
    ensures gives { Gives Fault.Memory (with_room catalog.now what.Predicate name.now (predicate_of (command_of statement.now))) result }
    ensures room { IfOk result (λ predicate. room_for what.Predicate predicate.name catalog.now ≡ Ok tt) }
{
    let predicate = bind_predicate(alloc, statement)?;
    room(catalog, What::Predicate, name)?;
    Ok(predicate)
}

/// Makes a predicate. Names and types count first, then whether there is room for the name.
///
/// # Errors
///
/// - `Script`: exactly where the statement breaks a rule of names and types, or the catalogue has no room for its name.
/// - `Memory`: at any time, in place of what else would come.
/// - `Read`, `Write`, `Table`, `BadScore`, `Probe`, `Session`: never.
pub fn create_predicate(
    alloc: Global,
    name: &Name,
    statement: &Statement,
    catalog: &mut Catalog,
) -> Result<(), Fault>
    requires form { IsPredicateNamed name.now (command_of statement.now) }
    requires written { IsWritten (command_of statement.now) }
    ensures { Leaves (predicate_outcome catalog.old name.now (command_of statement.now)) catalog.new result }
{
    let predicate = roomy_predicate(alloc, name, statement, catalog)?;
    catalog.add_predicate(predicate)?;
    Ok(())
}

/// What the rank index of a statement is of, where the catalogue has room for its name.
fn roomy_index(
    alloc: Global,
    name: &Name,
    statement: &Statement,
    catalog: &Catalog,
) -> Result<IndexDef, Fault>
    requires form { IsIndexNamed name.now (command_of statement.now) }
    requires written { IsWritten (command_of statement.now) }
    ensures gives { Gives Fault.Memory (with_room catalog.now what.Index name.now (index_def_of catalog.now (command_of statement.now))) result }
    ensures room { IfOk result (λ def. room_for what.Index def.name catalog.now ≡ Ok tt) }
    ensures fits { IfOk result (λ def. IsIndex catalog.now def) }
{
    let def = bind_index(alloc, catalog, statement)?;
    room(catalog, What::Index, name)?;
    Ok(def)
}

/// Makes a rank index. Names and types count first, then whether there is room for the name. Then come the calls, one a row in the order of
/// the rows.
///
/// # Errors
///
/// - `Script`: exactly where the statement breaks a rule of names and types, or the catalogue has no room for its name;
///   nobody is called then.
/// - `BadScore`: exactly at the first row for which a number outside 0 to the predicate's MAX is answered, unless
///   `Probe` or `Memory` came before.
/// - `Probe`: only where the last call that was made failed; the scorer's count of faults rose.
/// - `Memory`: at any time, in place of what else would come.
/// - `Read`, `Write`, `Table`, `Session`: never.
pub fn create_index<S: Scorer>(
    alloc: Global,
    name: &Name,
    statement: &Statement,
    catalog: &mut Catalog,
    scorer: &mut S,
) -> Result<(), Fault>
    requires form { IsIndexNamed name.now (command_of statement.now) }
    requires written { IsWritten (command_of statement.now) }
    ensures { (beside : Environment) → Stepped
        (λ step. step ≡ refused_or (index_step (S.state scorer.old).answer catalog.old)
        (with_room catalog.old what.Index name.now (index_def_of catalog.old (command_of statement.now))))
        catalog.new result (record beside { scorer = S.state scorer.old }) (record beside { scorer = S.state scorer.new }) }
{
    let def = roomy_index(alloc, name, statement, catalog)?;
    let predicate = catalog.predicate(def.predicate).name().copy()?;
    match catalog.add_index(alloc, def, scorer) {
        Ok(()) => Ok(()),
        Err(why) => Err(index_fault(predicate, why)),
    }
}
