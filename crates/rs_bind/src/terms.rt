ghost use Rattle.std.specs.Prelude.{◌≡◌, ◌<◌, ◌∷◌, [], IfOk, Some, length};
ghost use Rattle.std.specs.List.{AllByRecursion, list_any};
ghost use Rattle.std.specs.Option.{option_copied};
ghost use Rattle.rs_syntax.specs.declared.name.ColRef.{ColRef};
ghost use Rattle.rs_catalog.specs.Catalog.{number_named};
ghost use Rattle.rs_catalog.specs.declared.room.What.TheVariants as what;
ghost use Rattle.rs_value.specs.Answer.{Gives};
ghost use Rattle.rs_query.specs.WellFormed.{argument_columns, entries_mask, same_column};
ghost use Rattle.rs_typing.specs.Missing.{or_fault};
ghost use Rattle.rs_bind.specs.Queries.{IsEntryArg, are_outputs, bound_limit, terms_of};
ghost use Rattle.rs_bind.specs.Terms.{is_output, term_of};

use crate::columns::Columns;
use crate::count::MOST_ROWS;
use crate::names::number_in;
use crate::term::term_args;
use rs_catalog::{BoundArg, Catalog, What};
use rs_lex::Span;
use rs_query::Term;
use rs_rank::mask_of;
use rs_syntax::{Name, TermSyn};
use rs_typing::{BindFault, Why};
use rs_value::{Kind, List};
use std::alloc::Global;

/// The most terms of a query.
const MOST_TERMS: usize = 8;

/// The greatest weight of a term.
const MOST_WEIGHT: u32 = 1_000_000;

/// The terms of ORDER BY, at most eight, over what their columns stand for. At each, from left to right, the rules are
/// looked at in this order: its number (`LimitOf` for the ninth); its weight (`LimitOf`); its predicate (`NoPredicate`); its
/// arguments; and where output columns are needed, that each of its columns is one (`DistinctNeedsOutput`).
pub(crate) fn bind_terms<C: Columns>(
    alloc: Global,
    catalog: &Catalog,
    columns: &C,
    needed: Option<&[((u8, u8), Kind)]>,
    terms: &[TermSyn],
) -> Result<List<Term>, BindFault>
    requires few { (c : ColRef) → IfOk (C.finds columns.now c) (λ found. IsEntryArg found.0) }
    ensures { Gives BindFault.Memory (terms_of catalog.now (C.finds columns.now) (option_copied needed.entry) terms.now) result }
{
    let mut made = Vec::new(alloc);
    for term in terms {
        if made.len() == MOST_TERMS {
            return Err(BindFault::At(Why::LimitOf, term.at));
        }
        made.push(bind_term(alloc, catalog, columns, needed, term)?)?;
    }
    Ok(List::of(made))
}

/// A term: its weight, its predicate, its arguments, and whether its columns are output columns where they have to be.
fn bind_term<C: Columns>(
    alloc: Global,
    catalog: &Catalog,
    columns: &C,
    needed: Option<&[((u8, u8), Kind)]>,
    term: &TermSyn,
) -> Result<Term, BindFault>
    requires few { (c : ColRef) → IfOk (C.finds columns.now c) (λ found. IsEntryArg found.0) }
    ensures { Gives BindFault.Memory (term_of catalog.now (C.finds columns.now) (option_copied needed.entry) term.now) result }
{
    let weight = number_in(&term.weight, 1, MOST_WEIGHT)?;
    let number = predicate_number(catalog, &term.predicate)?;
    let predicate = catalog.predicate(number);
    let args = term_args(
        alloc,
        columns,
        predicate.params(),
        term.args.items(),
        term.at,
    )?;
    if !are_outputs(needed, args.items()) {
        return Err(BindFault::At(Why::DistinctNeedsOutput, term.at));
    }
    let entries = entries_of(args.items());
    Ok(Term {
        weight,
        predicate: number,
        args,
        max: predicate.max(),
        entries,
    })
}

/// The number of a predicate by its name.
fn predicate_number(catalog: &Catalog, name: &Name) -> Result<u8, BindFault>
    ensures value { result ≡ or_fault (BindFault.At Why.NoPredicate name.now.at) (number_named what.Predicate name.now.text catalog.now) }
    ensures within { IfOk result (λ number. number < length catalog.now.predicates) }
{
    match catalog.find(What::Predicate, &name.text) {
        Some(number) => Ok(number),
        None => Err(BindFault::At(Why::NoPredicate, name.at)),
    }
}

/// Whether each column among these arguments is an output column, where output columns are needed.
fn are_outputs(needed: Option<&[((u8, u8), Kind)]>, args: &[BoundArg]) -> bool
    ensures { result ≡ are_outputs (option_copied needed.entry) (argument_columns args.now) }
{
    match needed {
        None => true,
        Some(items) => all_outputs(items, args),
    }
}

/// Whether each column among these arguments is one of these output columns.
fn all_outputs(items: &[((u8, u8), Kind)], args: &[BoundArg]) -> bool
    ensures { result ≡ are_outputs (Some items.now) (argument_columns args.now) }
{
    args.iter().all(|arg| is_output(items, arg))
}

/// Whether an argument is one of these output columns, where it is a column.
fn is_output(items: &[((u8, u8), Kind)], arg: &BoundArg) -> bool
    ensures { result ≡ is_output items.now arg.now }
{
    match arg {
        BoundArg::Column(entry, column) => has_column(items, *entry, *column),
        _ => true,
    }
}

/// Whether this column is one of these output columns.
fn has_column(items: &[((u8, u8), Kind)], entry: u8, column: u8) -> bool
    ensures { result ≡ list_any (λ item. same_column (entry, column) item.0) items.now }
{
    items
        .iter()
        .any(|item| entry == item.0.0 && column == item.0.1)
}

/// The mask of the FROM entries of the columns among these arguments.
fn entries_of(args: &[BoundArg]) -> u8
    requires { AllByRecursion IsEntryArg args.now }
    ensures { result ≡ entries_mask (argument_columns args.now) }
{
    let mut entries = 0;
    for arg in args {
        entries |= entries_of_one(arg);
    }
    entries
}

/// The mask of the FROM entry of an argument, where it is a column.
fn entries_of_one(arg: &BoundArg) -> u8
    requires { IsEntryArg arg.now }
    ensures { result ≡ entries_mask (argument_columns (arg.now ∷ [])) }
{
    match arg {
        BoundArg::Column(entry, _) => mask_of(*entry),
        _ => 0,
    }
}

/// The number in LIMIT, where one is written.
pub fn limit_of(limit: &Option<(i64, Span)>) -> Result<Option<u32>, BindFault>
    ensures { result ≡ bound_limit limit.now }
{
    match limit {
        None => Ok(None),
        Some(limit) => Ok(Some(number_in(limit, 0, MOST_ROWS)?)),
    }
}
