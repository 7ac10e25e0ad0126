//! What is asked of rank indexes.

ghost use Rattle.std.specs.Prelude.{◌≡◌, ◌<◌, IfOk, Ok, length, true};
ghost use Rattle.rs_catalog.specs.Catalog.{names_of, room_for};
ghost use Rattle.rs_catalog.specs.Indexes.{IsIndex, arg_fits, args_fit};
ghost use Rattle.rs_catalog.specs.declared.room.What.TheVariants as what;

use crate::catalogue::found;
use crate::keys::is_space;
use cases_lines::{Fault, cut_at, cut_word, print_call, small_number_of, text_of, value_of};
use rs_catalog::{BoundArg, Catalog, IndexDef, IndexFault, What};
use rs_expr::{Call, MemScorer, Predicate};
use rs_table::Table;
use rs_value::{GREATEST_INT, Kind, List, Memory, Text, Value};
use std::alloc::{AllocError, Global};

/// Makes an index, `NAME TABLE PREDICATE ARGUMENT..`, and tells what becomes of it, and the calls.
pub fn tell_made(
    alloc: Global,
    catalog: &mut Catalog,
    scorer: &mut MemScorer,
    words: &[u8],
    told: &mut String,
) -> Result<(), Fault> {
    let (name, words) = cut_word(words);
    match make(alloc, catalog, scorer, name, words)? {
        Ok(()) => tell_entries(alloc, catalog, name, told)?,
        Err(IndexFault::Memory) => return Err(Fault::Memory),
        Err(fault) => write!(told, "{fault:?}")?,
    }
    Ok(tell_calls(scorer.calls(), told)?)
}

fn make(
    alloc: Global,
    catalog: &mut Catalog,
    scorer: &mut MemScorer,
    name: &[u8],
    words: &[u8],
) -> Result<Result<(), IndexFault>, Fault> {
    let def = def_of(alloc, catalog, name, words)?;
    if can_join(catalog, &def) {
        Ok(catalog.add_index(alloc, def, scorer))
    } else {
        Err(Fault::Form)
    }
}

/// What an index of this name is of: `TABLE PREDICATE ARGUMENT..`.
fn def_of(alloc: Global, catalog: &Catalog, name: &[u8], words: &[u8]) -> Result<IndexDef, Fault>
    ensures table { IfOk result (λ def. def.table < length catalog.now.tables) }
    ensures predicate { IfOk result (λ def. def.predicate < length catalog.now.predicates) }
{
    let (table, words) = cut_word(words);
    let (predicate, words) = cut_word(words);
    let table = number_in(alloc, catalog, What::Table, table)?;
    let predicate = number_in(alloc, catalog, What::Predicate, predicate)?;
    let name = text_of(alloc, name)?;
    let args = args_of(alloc, words)?;
    Ok(IndexDef {
        name,
        table,
        predicate,
        args: List::of(args),
    })
}

/// The number of the one of this name in a list.
pub fn number_in(alloc: Global, catalog: &Catalog, what: What, name: &[u8]) -> Result<u8, Fault>
    ensures { IfOk result (λ number. number < length (names_of what catalog.now)) }
{
    match found(alloc, catalog, what, name)? {
        Some(number) => Ok(number),
        None => Err(Fault::Form),
    }
}

/// Arguments of an index or a term.
fn args_of(alloc: Global, words: &[u8]) -> Result<Vec<BoundArg>, Fault> {
    let mut args = Vec::new(alloc);
    for word in words.split(is_space) {
        args.push(arg_of(alloc, word)?)?;
    }
    Ok(args)
}

fn arg_of(alloc: Global, word: &[u8]) -> Result<BoundArg, Fault> {
    match word {
        [b'@', column @ ..] => column_of(column),
        _ => match value_of(alloc, word)? {
            Value::Int(number) => Ok(BoundArg::Int(number)),
            Value::Text(text) => Ok(BoundArg::Text(text)),
        },
    }
}

/// The column that a word stands for: `ENTRY.COLUMN`.
fn column_of(word: &[u8]) -> Result<BoundArg, Fault> {
    let Some((entry, column)) = cut_at(word, b'.') else {
        return Err(Fault::Form);
    };
    let entry = small_number_of(entry)?;
    let column = small_number_of(column)?;
    Ok(BoundArg::Column(entry, column))
}

/// Whether an index can join the catalogue: there is room for it, and its arguments fit.
fn can_join(catalog: &Catalog, def: &IndexDef) -> bool
    requires table { def.now.table < length catalog.now.tables }
    requires predicate { def.now.predicate < length catalog.now.predicates }
    ensures room { result ≡ true → room_for what.Index def.now.name catalog.now ≡ Ok tt }
    ensures index { result ≡ true → IsIndex catalog.now def.now }
{
    if catalog.room(What::Index, &def.name) != Ok(()) {
        return false;
    }
    are_fit(
        catalog.table(def.table),
        catalog.predicate(def.predicate),
        def.args.items(),
    )
}

/// Whether up to three arguments fit a table and a predicate.
fn are_fit(table: &Table, predicate: &Predicate, args: &[BoundArg]) -> bool
    ensures { result ≡ true → args_fit table.now.schema predicate.now.params args.now ≡ true }
{
    let columns = table.schema().columns();
    match (predicate.params(), args) {
        ([kind], [arg]) => fits(columns, *kind, arg),
        ([first, second], [arg, other]) => {
            fits(columns, *first, arg) && fits(columns, *second, other)
        }
        ([first, second, third], [arg, other, last]) => {
            fits(columns, *first, arg)
                && fits(columns, *second, other)
                && fits(columns, *third, last)
        }
        _ => false,
    }
}

/// Whether an argument fits a parameter of this kind.
fn fits(columns: &[(Text, Kind)], kind: Kind, arg: &BoundArg) -> bool
    ensures { result ≡ true → arg_fits columns.now kind arg.now ≡ true }
{
    match arg {
        BoundArg::Column(entry, column) => {
            *entry == 1 && (*column as usize) < columns.len() && columns[*column as usize].1 == kind
        }
        BoundArg::Int(number) => kind == Kind::Int && number.unsigned_abs() <= GREATEST_INT,
        BoundArg::Text(_) => kind == Kind::Text,
    }
}

/// Tells the entries of the index of this name: the score and the row of each.
fn tell_entries(
    alloc: Global,
    catalog: &Catalog,
    name: &[u8],
    told: &mut String,
) -> Result<(), Fault> {
    let index = number_in(alloc, catalog, What::Index, name)?;
    Ok(tell_entries_of(catalog, index, told)?)
}

fn tell_entries_of(catalog: &Catalog, index: u8, told: &mut String) -> Result<(), AllocError>
    requires { index < length catalog.now.indexes }
{
    told.push_str("entries")?;
    let def = catalog.index(index);
    for place in 1..=catalog.table(def.table).len() {
        let (score, row) = catalog.index_row(index, place);
        write!(told, " {score}.{row}")?;
    }
    Ok(())
}

/// Tells the calls of a scorer.
fn tell_calls(calls: &[Call], told: &mut String) -> Result<(), Memory> {
    told.push_str("; calls")?;
    let mut between = " ";
    for call in calls {
        told.push_str(between)?;
        print_call(call.predicate.bytes(), call.args.items(), told)?;
        between = ", ";
    }
    Ok(())
}

/// Tells the number of the first index of a term: `TABLE PREDICATE ENTRY ARGUMENT..`.
pub fn tell_index_for(
    alloc: Global,
    catalog: &Catalog,
    words: &[u8],
    told: &mut String,
) -> Result<(), Fault> {
    let (table, words) = cut_word(words);
    let (predicate, words) = cut_word(words);
    let (entry, words) = cut_word(words);
    let table = small_number_of(table)?;
    let predicate = small_number_of(predicate)?;
    let entry = small_number_of(entry)?;
    let args = args_of(alloc, words)?;
    let found = catalog.index_for(table, predicate, &args, entry);
    drop(args);
    Ok(write!(told, "{found:?}")?)
}
