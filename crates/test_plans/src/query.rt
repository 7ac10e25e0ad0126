//! A query of two entries of one table: SELECT a.k FROM t a, t b WHERE a.k = b.k ORDER BY p(a.k), with DISTINCT or without.

ghost use Rattle.std.specs.Prelude.{◌≡◌, ◌≤◌, ◌+◌, ◌∷◌, [], IfOk, Ok, Some, length, true};
ghost use Rattle.std.specs.List.{AllByRecursion};
ghost use Rattle.rs_value.specs.declared.kind.Kind.TheVariants as kind;
ghost use Rattle.rs_value.specs.declared.rel.Rel.TheVariants.{Eq};
ghost use Rattle.rs_expr.specs.Formulas.{Argument, Numbers};
ghost use Rattle.rs_expr.specs.Uses.{is_kind};
ghost use Rattle.rs_catalog.specs.Catalog.{empty, room_for};
ghost use Rattle.rs_catalog.specs.declared.index.BoundArg.TheVariants as arg;
ghost use Rattle.rs_query.specs.WellFormed.{IsBlock, IsFromEntry, IsQuery, column_kind};
ghost use Rattle.test_plans.specs.Pair.{ArePair, HasPredicate, IsPair};

use rs_catalog::{BoundArg, Catalog, What};
use rs_expr::{Cond, Expr, Predicate};
use rs_query::{Block, Conjunct, Query, Term};
use rs_table::{Schema, Table};
use rs_value::{Kind, List, Rel, Text};
use std::alloc::Global;
use std::hash::RandomState;
use std::process::Abort;
use std::random::RandomSource;
use std::test::Fail;

fn text(alloc: Global, chars: &str) -> Result<Text, Fail> {
    Ok(Text::from_bytes(alloc, chars.as_bytes())?)
}

/// The predicate p of a number, which is its score.
fn predicate(alloc: Global) -> Result<Predicate, Fail>
    ensures { IfOk result (λ p. p ≡ record { name = p.name; params = kind.Int ∷ []; max = 10; cost = 1; formula = Argument 0 }) }
{
    let params = List::of(vec![in alloc; Kind::Int]?);
    match text(alloc, "p") {
        Ok(name) => Ok(Predicate::new(name, params, 10, 1, Expr::Arg(0))),
        Err(fail) => {
            drop(params);
            Err(fail)
        }
    }
}

/// The table of a column of numbers, k.
fn table(rt: &impl RandomSource, alloc: Global) -> Result<Table, Fail> {
    let columns = vec![in alloc; (text(alloc, "k")?, Kind::Int)]?;
    Ok(Table::read(
        alloc,
        RandomState::new(rt)?,
        Schema::make(columns),
        b"k\n4\n7\n4\n",
    )?)
}

/// Asserts that one more of this name can join a list of the catalogue.
fn assert_room(rt: &impl Abort, catalog: &Catalog, what: What, name: &Text)
    ensures { room_for what name.now catalog.now ≡ Ok tt }
{
    assert!(rt; catalog.room(what, name) == Ok(()));
}

/// Adds the predicate.
fn add_predicate(rt: &impl Abort, alloc: Global, catalog: &mut Catalog) -> Result<(), Fail>
    requires { catalog.old.predicates ≡ [] }
    ensures predicate { IfOk result (λ _. HasPredicate catalog.new) }
    ensures tables { IfOk result (λ _. catalog.new.tables ≡ catalog.old.tables) }
{
    let predicate = predicate(alloc)?;
    assert_room(rt, catalog, What::Predicate, predicate.name());
    Ok(catalog.add_predicate(predicate)?)
}

/// Adds the table.
fn add_table(
    rt: &(impl Abort + RandomSource),
    alloc: Global,
    catalog: &mut Catalog,
) -> Result<(), Fail>
    ensures tables { IfOk result (λ _. length catalog.new.tables ≡ length catalog.old.tables + 1) }
    ensures predicates { IfOk result (λ _. catalog.new.predicates ≡ catalog.old.predicates) }
{
    let table = table(rt, alloc)?;
    let name = match text(alloc, "t") {
        Ok(name) => name,
        Err(fail) => {
            drop(table);
            return Err(fail);
        }
    };
    assert_room(rt, catalog, What::Table, &name);
    Ok(catalog.add_table(name, table)?)
}

/// Adds the predicate and the table.
fn fill(rt: &(impl Abort + RandomSource), alloc: Global, catalog: &mut Catalog) -> Result<(), Fail>
    requires { catalog.old ≡ empty }
    ensures tables { IfOk result (λ _. length catalog.new.tables ≡ 1) }
    ensures predicate { IfOk result (λ _. HasPredicate catalog.new) }
{
    add_predicate(rt, alloc, catalog)?;
    add_table(rt, alloc, catalog)
}

/// The catalogue of the table and the predicate.
pub(crate) fn catalogue(rt: &(impl Abort + RandomSource), alloc: Global) -> Result<Catalog, Fail>
    ensures tables { IfOk result (λ catalog. length catalog.tables ≡ 1) }
    ensures predicate { IfOk result HasPredicate }
{
    let mut catalog = Catalog::new(alloc);
    match fill(rt, alloc, &mut catalog) {
        Ok(()) => Ok(catalog),
        Err(fail) => {
            drop(catalog);
            Err(fail)
        }
    }
}

/// Both entries.
fn from(alloc: Global) -> Result<Vec<(u8, Text)>, Fail>
    ensures { IfOk result (λ from. ArePair from.items) }
{
    let left = text(alloc, "a")?;
    match text(alloc, "b") {
        Ok(right) => Ok(vec![in alloc; (0, left), (0, right)]?),
        Err(fail) => {
            drop(left);
            Err(fail)
        }
    }
}

/// That their numbers are equal.
fn conjuncts(alloc: Global) -> Result<Vec<Conjunct>, Fail>
    ensures { IfOk result (λ conjuncts. conjuncts.items ≡ record {
      condition = Numbers Eq (Argument 0) (Argument 1);
      columns = (1, 0) ∷ (2, 0) ∷ [];
      entries = 3;
      equality = Some ((1, 0), (2, 0));
    } ∷ []) }
{
    let columns = List::of(vec![in alloc; (1, 0), (2, 0)]?);
    let condition = Cond::Numbers(Rel::Eq, Expr::Arg(0), Expr::Arg(1));
    let conjunct = Conjunct::new(condition, columns, 3, Some(((1, 0), (2, 0))));
    Ok(vec![in alloc; conjunct]?)
}

/// The term.
fn terms(alloc: Global) -> Result<Vec<Term>, Fail>
    ensures { IfOk result (λ terms. terms.items ≡ record {
      weight = 1;
      predicate = 0;
      args = arg.Column 1 0 ∷ [];
      max = 10;
      entries = 1;
    } ∷ []) }
{
    let term = Term {
        weight: 1,
        predicate: 0,
        args: List::of(vec![in alloc; BoundArg::Column(1, 0)]?),
        max: 10,
        entries: 1,
    };
    Ok(vec![in alloc; term]?)
}

/// The block.
fn pair(alloc: Global, distinct: bool) -> Result<Block, Fail>
    ensures { IfOk result IsPair }
{
    let items = vec![in alloc; (1, 0)]?;
    let from = from(alloc)?;
    let conjuncts = conjuncts(alloc)?;
    let terms = terms(alloc)?;
    Ok(Block {
        from: List::of(from),
        conjuncts: List::of(conjuncts),
        items: List::of(items),
        terms: List::of(terms),
        distinct,
    })
}

/// Whether the first column of an entry is one of numbers.
fn is_number(catalog: &Catalog, block: &Block, entry: u8) -> bool
    requires entries { AllByRecursion (IsFromEntry catalog.now) block.now.from }
    requires least { 1 ≤ entry }
    requires most { entry ≤ length block.now.from }
    ensures { result ≡ is_kind kind.Int (column_kind catalog.now block.now (entry, 0)) }
{
    let (table, _) = &block.from.items()[entry as usize - 1];
    match catalog.table(*table).schema().columns().first() {
        Some((_, kind)) => *kind == Kind::Int,
        None => false,
    }
}

/// Asserts that the block is well-formed.
fn assert_pair(rt: &impl Abort, catalog: &Catalog, block: &Block)
    requires tables { length catalog.now.tables ≡ 1 }
    requires predicate { HasPredicate catalog.now }
    requires pair { IsPair block.now }
    ensures { IsBlock catalog.now block.now }
{
    assert!(rt; is_number(catalog, block, 1));
    assert!(rt; is_number(catalog, block, 2));
}

/// The block, which is well-formed.
pub(crate) fn formed_pair(
    rt: &impl Abort,
    alloc: Global,
    catalog: &Catalog,
    distinct: bool,
) -> Result<Block, Fail>
    requires tables { length catalog.now.tables ≡ 1 }
    requires predicate { HasPredicate catalog.now }
    ensures pair { IfOk result IsPair }
    ensures formed { IfOk result (IsBlock catalog.now) }
{
    let block = pair(alloc, distinct)?;
    assert_pair(rt, catalog, &block);
    Ok(block)
}

/// The query.
pub(crate) fn query(
    rt: &impl Abort,
    alloc: Global,
    catalog: &Catalog,
    distinct: bool,
) -> Result<Query, Fail>
    requires tables { length catalog.now.tables ≡ 1 }
    requires predicate { HasPredicate catalog.now }
    ensures { IfOk result (IsQuery catalog.now) }
{
    Ok(Query::One(formed_pair(rt, alloc, catalog, distinct)?, None))
}
