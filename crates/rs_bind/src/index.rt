ghost use Rattle.std.specs.Prelude.{◌≡◌, ◌<◌, IfOk, length};
ghost use Rattle.rs_catalog.specs.Catalog.{names_of, number_named};
ghost use Rattle.rs_catalog.specs.Indexes.{IsIndex};
ghost use Rattle.rs_syntax.specs.Syntax.{command_of};
ghost use Rattle.rs_value.specs.Answer.{Gives};
ghost use Rattle.rs_typing.specs.Missing.{or_fault};
ghost use Rattle.rs_bind.specs.Indexes.{IsCreateRankIndex, index_def_of};
ghost use Rattle.rs_syntax.specs.Written.{IsWritten};

use crate::columns::OneEntry;
use crate::term::term_args;
use rs_catalog::{Catalog, IndexDef, What};
use rs_syntax::{Name, Statement};
use rs_typing::{BindFault, Why};
use std::alloc::Global;

/// The rank index of a CREATE RANK INDEX statement. The rules are looked at in this order: the table (`NoTable`); the
/// predicate (`NoPredicate`); the number of the arguments (`WrongCount`); the arguments from left to right (`NoColumn`,
/// then `WrongKind`); and that one of them is a column (`ConstantTerm`). What is answered fits the catalogue.
///
/// # Errors
///
/// - `At`: exactly where the statement breaks a rule, with the first one in this order and its place.
/// - `Memory`: at any call, in place of each answer.
pub fn bind_index(
    alloc: Global,
    catalog: &Catalog,
    statement: &Statement,
) -> Result<IndexDef, BindFault>
    requires form { IsCreateRankIndex (command_of statement.now) }
    requires written { IsWritten (command_of statement.now) }
    ensures gives { Gives BindFault.Memory (index_def_of catalog.now (command_of statement.now)) result }
    ensures fits { IfOk result (λ def. IsIndex catalog.now def) }
{
    let Statement::CreateRankIndex {
        name,
        table,
        predicate,
        args,
        at,
    } = statement
    else {
        unreachable!()
    };
    let table_number = number_of(catalog, What::Table, table, Why::NoTable)?;
    let predicate_number = number_of(catalog, What::Predicate, predicate, Why::NoPredicate)?;
    let entry = OneEntry {
        alias: &table.text,
        schema: catalog.table(table_number).schema(),
    };
    let params = catalog.predicate(predicate_number).params();
    let args = term_args(alloc, &entry, params, args.items(), *at)?;
    Ok(IndexDef {
        name: name.text.copy()?,
        table: table_number,
        predicate: predicate_number,
        args,
    })
}

/// The number of a table, a predicate or an index by its name, or this fault at the name.
pub(crate) fn number_of(
    catalog: &Catalog,
    what: What,
    name: &Name,
    why: Why,
) -> Result<u8, BindFault>
    ensures value { result ≡ or_fault (BindFault.At why name.now.at) (number_named what name.now.text catalog.now) }
    ensures within { IfOk result (λ number. number < length (names_of what catalog.now)) }
{
    match catalog.find(what, &name.text) {
        Some(number) => Ok(number),
        None => Err(BindFault::At(why, name.at)),
    }
}
