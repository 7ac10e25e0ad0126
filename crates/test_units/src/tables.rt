//! A catalogue of a predicate and of two tables of one column of numbers.

ghost use Rattle.std.specs.Prelude.{◌≡◌, ◌≤◌, ◌+◌, [], IfOk, Ok, length, slice_get, true};
ghost use Rattle.std.specs.List.{AllByRecursion};
ghost use Rattle.rs_value.specs.declared.kind.Kind.TheVariants as kind;
ghost use Rattle.rs_expr.specs.Formulas.{Argument};
ghost use Rattle.rs_expr.specs.Uses.{is_kind};
ghost use Rattle.rs_catalog.specs.Catalog.{empty, room_for};
ghost use Rattle.rs_query.specs.WellFormed.{IsFromEntry, column_kind};
ghost use Rattle.test_units.specs.Tables.{HasPredicate};

use rs_catalog::{Catalog, What};
use rs_expr::{Expr, Predicate};
use rs_query::Block;
use rs_table::{Schema, Table};
use rs_value::{Kind, List, Text};
use std::alloc::Global;
use std::hash::RandomState;
use std::process::Abort;
use std::random::RandomSource;
use std::test::Fail;

pub(crate) fn text(alloc: Global, chars: &str) -> Result<Text, Fail> {
    Ok(Text::from_bytes(alloc, chars.as_bytes())?)
}

/// The predicate of these parameters, whose score is the number that it is given first.
fn predicate(name: Text, params: List<Kind>, max: u32) -> Predicate
    requires some { 1 ≤ max }
    requires few { length params ≤ 8 }
    requires number { is_kind kind.Int (slice_get params 0) ≡ true }
    ensures { result ≡ record { name = name; params = params; max = max; cost = 1; formula = Argument 0 } }
{
    Predicate::new(name, params, max, 1, Expr::Arg(0))
}

/// Asserts that one more of this name can join a list of the catalogue.
fn assert_room(rt: &impl Abort, catalog: &Catalog, what: What, name: &Text)
    ensures { room_for what name.now catalog.now ≡ Ok tt }
{
    assert!(rt; catalog.room(what, name) == Ok(()));
}

/// Adds the predicate of this name and these parameters.
pub(crate) fn add_predicate(
    rt: &impl Abort,
    alloc: Global,
    catalog: &mut Catalog,
    name: &str,
    params: &[Kind],
    max: u32,
) -> Result<(), Fail>
    requires some { 1 ≤ max }
    requires few { length params.now ≤ 8 }
    requires number { is_kind kind.Int (slice_get params.now 0) ≡ true }
    ensures predicate { IfOk result (λ _. catalog.old.predicates ≡ [] → HasPredicate params.now max catalog.new) }
    ensures tables { IfOk result (λ _. catalog.new.tables ≡ catalog.old.tables) }
{
    let name = text(alloc, name)?;
    let params = Vec::from_slice(alloc, params)?;
    assert_room(rt, catalog, What::Predicate, &name);
    Ok(catalog.add_predicate(predicate(name, List::of(params), max))?)
}

/// The table of a file of one column of numbers, "k".
fn numbers(rt: &(impl Abort + RandomSource), alloc: Global, file: &[u8]) -> Result<Table, Fail> {
    assert!(rt; file.len() <= 33_554_432);
    let hash_keys = RandomState::new(rt)?;
    let columns = vec![in alloc; (text(alloc, "k")?, Kind::Int)]?;
    Ok(Table::read(alloc, hash_keys, Schema::make(columns), file)?)
}

/// Adds the table of such a file.
fn add_table(
    rt: &(impl Abort + RandomSource),
    alloc: Global,
    catalog: &mut Catalog,
    name: &str,
    file: &[u8],
) -> Result<(), Fail>
    ensures tables { IfOk result (λ _. length catalog.new.tables ≡ length catalog.old.tables + 1) }
    ensures predicates { IfOk result (λ _. catalog.new.predicates ≡ catalog.old.predicates) }
{
    let table = numbers(rt, alloc, file)?;
    let name = match text(alloc, name) {
        Ok(name) => name,
        Err(fail) => {
            drop(table);
            return Err(fail);
        }
    };
    assert_room(rt, catalog, What::Table, &name);
    Ok(catalog.add_table(name, table)?)
}

/// Adds the predicate of these parameters, and the tables "left" and "right" of two files.
fn fill(
    rt: &(impl Abort + RandomSource),
    alloc: Global,
    catalog: &mut Catalog,
    params: &[Kind],
    max: u32,
    files: (&[u8], &[u8]),
) -> Result<(), Fail>
    requires empty { catalog.old ≡ empty }
    requires some { 1 ≤ max }
    requires few { length params.now ≤ 8 }
    requires number { is_kind kind.Int (slice_get params.now 0) ≡ true }
    ensures tables { IfOk result (λ _. length catalog.new.tables ≡ 2) }
    ensures predicate { IfOk result (λ _. HasPredicate params.now max catalog.new) }
{
    add_predicate(rt, alloc, catalog, "p", params, max)?;
    add_table(rt, alloc, catalog, "left", files.0)?;
    add_table(rt, alloc, catalog, "right", files.1)
}

/// The catalogue of such a predicate and such tables.
pub(crate) fn catalogue(
    rt: &(impl Abort + RandomSource),
    alloc: Global,
    params: &[Kind],
    max: u32,
    files: (&[u8], &[u8]),
) -> Result<Catalog, Fail>
    requires some { 1 ≤ max }
    requires few { length params.now ≤ 8 }
    requires number { is_kind kind.Int (slice_get params.now 0) ≡ true }
    ensures tables { IfOk result (λ catalog. length catalog.tables ≡ 2) }
    ensures predicate { IfOk result (HasPredicate params.now max) }
{
    let mut catalog = Catalog::new(alloc);
    match fill(rt, alloc, &mut catalog, params, max, files) {
        Ok(()) => Ok(catalog),
        Err(fail) => {
            drop(catalog);
            Err(fail)
        }
    }
}

/// Whether the first column of a FROM entry is one of numbers.
pub(crate) fn is_number(catalog: &Catalog, block: &Block, entry: u8) -> bool
    requires entries { AllByRecursion (IsFromEntry catalog.now) block.now.from }
    requires least { 1 ≤ entry }
    requires most { entry ≤ length block.now.from }
    ensures { result ≡ is_kind kind.Int (column_kind catalog.now block.now (entry, 0)) }
{
    let (table, _) = &block.from.items()[entry as usize - 1];
    match catalog.table(*table).schema().columns().first() {
        Some((_, kind)) => *kind == Kind::Int,
        None => false,
    }
}
