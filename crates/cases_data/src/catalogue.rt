//! What joins the catalogue, and what is asked of it.

ghost use Rattle.std.specs.Prelude.{◌≡◌, ◌≤◌, ◌<◌, IfOk, IfSome, length, slice_get, true};
ghost use Rattle.rs_value.specs.declared.kind.Kind.TheVariants as kind;
ghost use Rattle.rs_expr.specs.Formulas.{Argument};
ghost use Rattle.rs_expr.specs.Uses.{is_kind};
ghost use Rattle.rs_catalog.specs.Catalog.{names_of};

use crate::keys::is_space;
use cases_lines::{Fault, bytes_of, columns_of, count_of, cut_word, text_of, value_of};
use rs_catalog::{Catalog, What};
use rs_expr::{Expr, MemScorer, Predicate};
use rs_table::{Schema, TABLE_LIMIT, Table, TableFault};
use rs_value::{Kind, List, Text, Value, int_of};
use std::alloc::Global;
use std::hash::RandomState;

/// Adds a table, whose texts are hashed by the keys: `NAME COLUMNS FILE`.
pub fn add_table(
    alloc: Global,
    hash_keys: RandomState,
    catalog: &mut Catalog,
    words: &[u8],
) -> Result<(), Fault> {
    let (name, words) = cut_word(words);
    let (columns, file) = cut_word(words);
    let name = text_of(alloc, name)?;
    if catalog.room(What::Table, &name) != Ok(()) {
        return Err(Fault::Form);
    }
    let table = table_of(alloc, hash_keys, columns, file)?;
    Ok(catalog.add_table(name, table)?)
}

fn table_of(
    alloc: Global,
    hash_keys: RandomState,
    columns: &[u8],
    file: &[u8],
) -> Result<Table, Fault> {
    let file = bytes_of(alloc, file)?;
    if file.len() > TABLE_LIMIT {
        return Err(Fault::Form);
    }
    let schema = Schema::make(columns_of(alloc, columns)?);
    match Table::read(alloc, hash_keys, schema, &file) {
        Ok(table) => Ok(table),
        Err(TableFault::Memory) => Err(Fault::Memory),
        Err(_) => Err(Fault::Form),
    }
}

/// Adds a predicate: `NAME MAX KIND..`.
pub fn add_predicate(alloc: Global, catalog: &mut Catalog, words: &[u8]) -> Result<(), Fault> {
    let (name, words) = cut_word(words);
    let (max, kinds) = cut_word(words);
    let max = max_of(max)?;
    let params = params_of(alloc, kinds)?;
    let name = text_of(alloc, name)?;
    put_predicate(catalog, predicate_of(name, params, max))
}

/// A greatest score.
fn max_of(word: &[u8]) -> Result<u32, Fault>
    ensures { IfOk result (λ max. 1 ≤ max) }
{
    let max = count_of(word)?;
    if max == 0 {
        return Err(Fault::Form);
    }
    Ok(max)
}

/// The kinds of parameters, of which the first one is of a number.
fn params_of(alloc: Global, words: &[u8]) -> Result<List<Kind>, Fault>
    ensures few { IfOk result (λ params. length params ≤ 8) }
    ensures number { IfOk result (λ params. is_kind kind.Int (slice_get params 0) ≡ true) }
{
    let kinds = kinds_of(alloc, words)?;
    if are_params(&kinds) {
        Ok(List::of(kinds))
    } else {
        Err(Fault::Form)
    }
}

/// Kinds, with one space between.
fn kinds_of(alloc: Global, words: &[u8]) -> Result<Vec<Kind>, Fault> {
    let mut kinds = Vec::new(alloc);
    for word in words.split(is_space) {
        kinds.push(kind_of(word)?)?;
    }
    Ok(kinds)
}

fn kind_of(word: &[u8]) -> Result<Kind, Fault> {
    match word {
        b"number" => Ok(Kind::Int),
        b"text" => Ok(Kind::Text),
        _ => Err(Fault::Form),
    }
}

/// Whether these can be the parameters of a predicate whose score is the first one.
fn are_params(kinds: &[Kind]) -> bool
    ensures few { result ≡ true → length kinds.now ≤ 8 }
    ensures number { result ≡ true → is_kind kind.Int (slice_get kinds.now 0) ≡ true }
{
    match kinds.first() {
        Some(kind) => *kind == Kind::Int && kinds.len() <= 8,
        None => false,
    }
}

/// The predicate of these parameters, whose score is the number that it is given first.
fn predicate_of(name: Text, params: List<Kind>, max: u32) -> Predicate
    requires some { 1 ≤ max }
    requires few { length params ≤ 8 }
    requires number { is_kind kind.Int (slice_get params 0) ≡ true }
    ensures { result ≡ record { name = name; params = params; max = max; cost = 1; formula = Argument 0 } }
{
    Predicate::new(name, params, max, 1, Expr::Arg(0))
}

/// Adds a predicate, where there is room for it.
fn put_predicate(catalog: &mut Catalog, predicate: Predicate) -> Result<(), Fault> {
    match catalog.room(What::Predicate, predicate.name()) {
        Ok(()) => Ok(catalog.add_predicate(predicate)?),
        Err(_) => Err(Fault::Form),
    }
}

/// Writes the score of a call: `SCORE PREDICATE VALUE..`.
pub fn write_score(alloc: Global, scorer: &mut MemScorer, words: &[u8]) -> Result<(), Fault> {
    let (score, words) = cut_word(words);
    let (predicate, values) = cut_word(words);
    let score = score_of(score)?;
    let predicate = text_of(alloc, predicate)?;
    set_score(alloc, scorer, &predicate, values, score)
}

fn set_score(
    alloc: Global,
    scorer: &mut MemScorer,
    predicate: &Text,
    values: &[u8],
    score: i128,
) -> Result<(), Fault> {
    let values = values_of(alloc, values)?;
    Ok(scorer.set(predicate, &values, score)?)
}

fn score_of(word: &[u8]) -> Result<i128, Fault> {
    match word {
        b"least" => Ok(i128::MIN),
        b"greatest" => Ok(i128::MAX),
        _ => match int_of(word) {
            Some(number) => Ok(number as i128),
            None => Err(Fault::Form),
        },
    }
}

fn values_of(alloc: Global, words: &[u8]) -> Result<Vec<Value>, Fault> {
    let mut values = Vec::new(alloc);
    for word in words.split(is_space) {
        values.push(value_of(alloc, word)?)?;
    }
    Ok(values)
}

/// The number of the one of this name in a list, where there is one.
pub fn found(alloc: Global, catalog: &Catalog, what: What, name: &[u8]) -> Result<Option<u8>, Fault>
    ensures { IfOk result (λ found. IfSome found (λ number. number < length (names_of what catalog.now))) }
{
    let name = text_of(alloc, name)?;
    Ok(catalog.find(what, &name))
}

/// Tells the number of the table of a name, its name, and how many rows it has.
pub fn tell_table(
    alloc: Global,
    catalog: &Catalog,
    name: &[u8],
    told: &mut String,
) -> Result<(), Fault> {
    match found(alloc, catalog, What::Table, name)? {
        Some(number) => {
            let name = catalog.table_name(number).as_str();
            let rows = catalog.table(number).len();
            Ok(write!(told, "{number} {name} {rows}")?)
        }
        None => Ok(told.push_str("none")?),
    }
}

/// Tells the number of the predicate of a name, and its name.
pub fn tell_predicate(
    alloc: Global,
    catalog: &Catalog,
    name: &[u8],
    told: &mut String,
) -> Result<(), Fault> {
    match found(alloc, catalog, What::Predicate, name)? {
        Some(number) => {
            let name = catalog.predicate(number).name().as_str();
            Ok(write!(told, "{number} {name}")?)
        }
        None => Ok(told.push_str("none")?),
    }
}

/// Tells the number of the index of a name, and the numbers of its table and its predicate.
pub fn tell_index(
    alloc: Global,
    catalog: &Catalog,
    name: &[u8],
    told: &mut String,
) -> Result<(), Fault> {
    match found(alloc, catalog, What::Index, name)? {
        Some(number) => {
            let def = catalog.index(number);
            let table = def.table;
            let predicate = def.predicate;
            Ok(write!(told, "{number} {table} {predicate}")?)
        }
        None => Ok(told.push_str("none")?),
    }
}

/// Tells whether one more of a name can join a list.
pub fn tell_room(
    alloc: Global,
    catalog: &Catalog,
    words: &[u8],
    told: &mut String,
) -> Result<(), Fault> {
    let (list, name) = cut_word(words);
    let what = list_of(list)?;
    let name = text_of(alloc, name)?;
    let room = catalog.room(what, &name);
    drop(name);
    Ok(write!(told, "{room:?}")?)
}

fn list_of(word: &[u8]) -> Result<What, Fault> {
    match word {
        b"tables" => Ok(What::Table),
        b"predicates" => Ok(What::Predicate),
        b"indexes" => Ok(What::Index),
        _ => Err(Fault::Form),
    }
}
