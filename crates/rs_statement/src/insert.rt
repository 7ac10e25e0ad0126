//! INSERT: rows that join a table and its rank indexes.

ghost use Rattle.std.specs.Prelude.{◌≡◌, ◌⊎◌, ◌<◌, IfOk, OnErr, length};
ghost use Rattle.rs_value.specs.Answer.{Gives};
ghost use Rattle.rs_catalog.specs.Growing.{CanJoin};
ghost use Rattle.rs_typing.specs.Models.{result_map};
ghost use Rattle.rs_syntax.specs.Syntax.{command_of};
ghost use Rattle.rs_syntax.specs.Written.{IsWritten};
ghost use Rattle.rs_bind.specs.Inserts.{IsInsert, insert_of};
ghost use Rattle.rs_events.specs.Environment.{Environment};
ghost use Rattle.rs_statement.specs.Inserts.{NamesIndex, grow_fault, index_predicate, insert_step};
ghost use Rattle.rs_statement.specs.Parts.Steps.{Stepped};
ghost use Rattle.rs_statement.specs.Statements.{or_bind_fault, refused_or};

use crate::fault::{Fault, only_row};
use crate::query::{bad_score, failed_call};
use rs_bind::bind_insert;
use rs_catalog::{Catalog, GrowFault};
use rs_expr::{Predicate, Scorer};
use rs_syntax::Statement;
use rs_value::{List, Value};
use std::alloc::Global;

/// The number of the table of an INSERT, and the rows that join it.
fn bound_rows(
    alloc: Global,
    catalog: &Catalog,
    statement: &Statement,
) -> Result<(u8, Vec<List<Value>>), Fault>
    requires form { IsInsert (command_of statement.now) }
    requires written { IsWritten (command_of statement.now) }
    ensures gives { Gives Fault.Memory (or_bind_fault (insert_of catalog.now (command_of statement.now))) (result_map (λ made. (made.0, made.1.items)) result) }
    ensures joins { IfOk result (λ made. CanJoin catalog.now made.0 made.1.items) }
{
    let bound = bind_insert(alloc, catalog, statement)?;
    Ok(bound)
}

/// Puts the rows of an INSERT behind those of their table, and into its rank indexes. Names and types count first, and then
/// the scores of the new rows, index by index. After a fault nothing has joined.
///
/// # Errors
///
/// - `Script`: exactly where the statement breaks a rule of names and types; nobody is called then.
/// - `BadScore`: exactly at the first call whose answer lies outside 0 to the predicate's MAX, unless `Probe` or
///   `Memory` came before.
/// - `Probe`: only where the last call that was made failed; the scorer's count of faults rose.
/// - `Memory`: at any time, in place of what else would come.
/// - `Read`, `Write`, `Table`, `Session`: never.
pub fn insert_rows<S: Scorer>(
    alloc: Global,
    statement: &Statement,
    catalog: &mut Catalog,
    scorer: &mut S,
) -> Result<(), Fault>
    requires form { IsInsert (command_of statement.now) }
    requires written { IsWritten (command_of statement.now) }
    ensures does { (beside : Environment) → Stepped
        (λ step. step ≡ refused_or (insert_step (S.state scorer.old).answer catalog.old) (or_bind_fault (insert_of catalog.old (command_of statement.now))))
        catalog.new result (record beside { scorer = S.state scorer.old }) (record beside { scorer = S.state scorer.new }) }
    ensures kept { OnErr result (catalog.new ≡ catalog.old) }
{
    let (table, rows) = bound_rows(alloc, catalog, statement)?;
    match catalog.add_rows(alloc, table, rows, scorer) {
        Ok(()) => Ok(()),
        Err(why) => Err(grow_fault(catalog, why)),
    }
}

/// The fault of a run in which rows don't join a table. Where there is no memory for a name, that is the fault.
fn grow_fault(catalog: &Catalog, why: GrowFault) -> Fault
    requires { NamesIndex catalog.now why }
    ensures { (result ≡ grow_fault catalog.now why) ⊎ (result ≡ Fault.Memory) }
{
    match why {
        GrowFault::BadScore {
            index,
            row,
            got,
            max,
        } => bad_score(index_predicate(catalog, index), only_row(row), got, max),
        GrowFault::Probe { index } => failed_call(index_predicate(catalog, index)),
        GrowFault::Memory => Fault::Memory,
    }
}

/// The predicate that the index of this number is of.
fn index_predicate(catalog: &Catalog, index: u8) -> &Predicate
    requires { index < length catalog.now.indexes }
    ensures { result.now.name ≡ index_predicate catalog.now index }
{
    catalog.predicate(catalog.index(index).predicate)
}
