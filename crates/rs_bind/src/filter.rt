//! WHERE: the condition of a block, split at each AND at its top.

ghost use Rattle.std.specs.Prelude.{◌≡◌, ◌≤◌, ◌+◌, ◌++◌, ◌∷◌, [], IfOk, MatchResult, OnOk, Ok, Some, length, option_map, slice_get, true};
ghost use Rattle.std.specs.List.{AllByRecursion};
ghost use Rattle.rs_value.specs.Answer.{Gives};
ghost use Rattle.rs_syntax.specs.Syntax.{expression_of};
ghost use Rattle.rs_value.specs.Results.{◌>>=◌ as ◌and_then◌};
ghost use Rattle.rs_expr.specs.Formulas.{condition_of};
ghost use Rattle.rs_expr.specs.Widths.{is_narrow};
ghost use Rattle.rs_query.specs.WellFormed.{across, entries_mask, equality_of, equated};
ghost use Rattle.rs_typing.specs.Typing.{span_of, as_truth, type_of};
ghost use Rattle.rs_typing.specs.Models.{result_map};
ghost use Rattle.rs_bind.specs.Conditions.{condition_over, conjunct_in, conjuncts_in, conjuncts_of, few_parts, filter_of, parts_of_and};
ghost use Rattle.rs_bind.specs.Narrow.{IsNarrow};
ghost use Rattle.rs_bind.specs.Sources.{most_block_columns, sources_of};
ghost use Rattle.rs_bind.specs.Terms.{IsEntryColumn};

use crate::places::Places;
use crate::references::named_columns;
use crate::sources::Sources;
use rs_expr::{Cond, Expr, Rel, TextSide};
use rs_query::Conjunct;
use rs_rank::{mask_of, union};
use rs_syntax::Node;
use rs_typing::{BindFault, Scope, Why, span_of, truth, type_node};
use rs_value::List;
use std::alloc::Global;

/// The most conjuncts of a block.
const MOST_CONJUNCTS: usize = 32;

/// The conjuncts of the condition of a block, none where it has no condition. The rules are looked at in this order: those
/// of the condition, its parts first; that it is a truth value (`WrongKind`); and that AND joins at most 32 parts at its
/// top (`LimitOf` for the 33rd).
pub(crate) fn bind_filter(
    alloc: Global,
    sources: &Sources,
    filter: &Option<Node>,
) -> Result<List<Conjunct>, BindFault>
    ensures gives { Gives BindFault.Memory
        (filter_of (sources_of sources.now.catalog.now sources.now.from.now) (option_map expression_of filter.now)) result }
    ensures narrow { IfOk result (λ made. AllByRecursion IsNarrow made) }
{
    match filter {
        None => Ok(List::of(Vec::new(alloc))),
        Some(node) => conjuncts_in(alloc, sources, node),
    }
}

/// The conjuncts of a condition. The whole condition is typed first, and then each part once more over the columns that it names alone;
/// the second time nothing can fail but memory.
fn conjuncts_in(alloc: Global, sources: &Sources, node: &Node) -> Result<List<Conjunct>, BindFault>
    ensures gives { Gives BindFault.Memory (conjuncts_in (sources_of sources.now.catalog.now sources.now.from.now) (expression_of node.now)) result }
    ensures narrow { IfOk result (λ made. AllByRecursion IsNarrow made) }
{
    // The rules of the whole condition come before the number of its parts.
    let whole = conjunct_in(alloc, sources, node)?;
    drop(whole);
    few_parts(node)?;
    let mut made = Vec::new(alloc);
    add_conjuncts(alloc, sources, node, &mut made)?;
    Ok(List::of(made))
}

/// Adds the parts of a condition as conjuncts, from left to right.
fn add_conjuncts(
    alloc: Global,
    sources: &Sources,
    node: &Node,
    made: &mut Vec<Conjunct>,
) -> Result<(), BindFault>
    ensures gives { Gives BindFault.Memory
        (conjuncts_of (sources_of sources.now.catalog.now sources.now.from.now) (parts_of_and (expression_of node.now)) and_then λ more. Ok (made.old.items ++ more))
        (result_map (λ done. made.new.items) result) }
    ensures narrow { OnOk result (AllByRecursion IsNarrow made.old.items → AllByRecursion IsNarrow made.new.items) }
{
    match node {
        Node::And(left, right, _) => {
            add_conjuncts(alloc, sources, left, made)?;
            add_conjuncts(alloc, sources, right, made)
        }
        _ => add_conjunct(alloc, sources, node, made),
    }
}

/// Adds a condition as a conjunct.
fn add_conjunct(
    alloc: Global,
    sources: &Sources,
    node: &Node,
    made: &mut Vec<Conjunct>,
) -> Result<(), BindFault>
    ensures gives { Gives BindFault.Memory
        (conjunct_in (sources_of sources.now.catalog.now sources.now.from.now) (expression_of node.now) and_then λ one. Ok (made.old.items ++ one ∷ []))
        (result_map (λ done. made.new.items) result) }
    ensures narrow { OnOk result (AllByRecursion IsNarrow made.old.items → AllByRecursion IsNarrow made.new.items) }
{
    made.push(conjunct_in(alloc, sources, node)?)?;
    Ok(())
}

/// A condition as a conjunct: its arguments are the columns that it names.
fn conjunct_in(alloc: Global, sources: &Sources, node: &Node) -> Result<Conjunct, BindFault>
    ensures gives { Gives BindFault.Memory (conjunct_in (sources_of sources.now.catalog.now sources.now.from.now) (expression_of node.now)) result }
    ensures narrow { IfOk result IsNarrow }
{
    let columns = named_columns(alloc, sources, node)?;
    let condition = condition_over(alloc, sources, &columns, node)?;
    let entries = entries_of(&columns);
    let equality = equality_of(&condition, &columns);
    Ok(Conjunct::new(condition, List::of(columns), entries, equality))
}

/// The condition that an expression is over these columns, which has to be a truth value.
fn condition_over(
    alloc: Global,
    sources: &Sources,
    columns: &[(u8, u8)],
    node: &Node,
) -> Result<Cond, BindFault>
    requires { length columns.now ≤ most_block_columns }
    ensures gives { Gives BindFault.Memory
        (condition_over columns.now (sources_of sources.now.catalog.now sources.now.from.now) (expression_of node.now)) (result_map condition_of result) }
    ensures narrow { IfOk result (λ made. is_narrow (condition_of made) ≡ true) }
{
    let places = Places { sources, columns };
    condition_in(alloc, &places, node)
}

/// The condition that an expression is, which has to be a truth value.
fn condition_in<S: Scope>(alloc: Global, scope: &S, node: &Node) -> Result<Cond, BindFault>
    ensures gives { Gives BindFault.Memory (type_of (S.finds scope.now) (expression_of node.now) and_then as_truth (span_of (expression_of node.now)))
        (result_map condition_of result) }
    ensures narrow { IfOk result (λ made. is_narrow (condition_of made) ≡ true) }
{
    let typed = type_node(alloc, node, scope)?;
    truth(typed, span_of(node))
}

/// Whether AND joins no more parts at the top of an expression than a block may have conjuncts.
fn few_parts(node: &Node) -> Result<(), BindFault>
    ensures { result ≡ few_parts (parts_of_and (expression_of node.now)) }
{
    room_behind(node, MOST_CONJUNCTS)?;
    Ok(())
}

/// How many more parts there may be behind those of this expression, where there may be this many in it and behind it. The
/// first one too many is refused.
fn room_behind(node: &Node, room: usize) -> Result<usize, BindFault>
    ensures { MatchResult result (λ rest. length (parts_of_and (expression_of node.now)) + rest ≡ room)
        (λ fault. option_map (λ part. BindFault.At Why.LimitOf (span_of part)) (slice_get (parts_of_and (expression_of node.now)) room) ≡ Some fault) }
{
    match node {
        Node::And(left, right, _) => {
            let room = room_behind(left, room)?;
            room_behind(right, room)
        }
        _ => {
            if room == 0 {
                return Err(BindFault::At(Why::LimitOf, span_of(node)));
            }
            Ok(room - 1)
        }
    }
}

/// The mask of the entries of these columns.
fn entries_of(columns: &[(u8, u8)]) -> u8
    requires { AllByRecursion IsEntryColumn columns.now }
    ensures { result ≡ entries_mask columns.now }
{
    match columns {
        [] => 0,
        [column, rest @ ..] => union(mask_of(column.0), entries_of(rest)),
    }
}

/// The two columns of different entries that a condition over these columns equates.
fn equality_of(condition: &Cond, columns: &[(u8, u8)]) -> Option<((u8, u8), (u8, u8))>
    ensures { result ≡ equality_of (condition_of condition.now) columns.now }
{
    let (left, right) = equated_columns(condition)?;
    across(column_at(columns, left), column_at(columns, right))
}

/// The column at a place, where there is one.
fn column_at(columns: &[(u8, u8)], place: u16) -> Option<(u8, u8)>
    ensures { result ≡ slice_get columns.now place }
{
    columns.get(place as usize).copied()
}

/// Two columns, where they are of different entries.
fn across(left: Option<(u8, u8)>, right: Option<(u8, u8)>) -> Option<((u8, u8), (u8, u8))>
    ensures { result ≡ across left right }
{
    let (left, right) = (left?, right?);
    if left.0 == right.0 {
        return None;
    }
    Some((left, right))
}

/// The two arguments of a condition that is an equation of two columns.
fn equated_columns(condition: &Cond) -> Option<(u16, u16)>
    ensures { result ≡ equated (condition_of condition.now) }
{
    match condition {
        Cond::Numbers(Rel::Eq, Expr::Arg(left), Expr::Arg(right)) => Some((*left, *right)),
        Cond::Texts(Rel::Eq, TextSide::Arg(left), TextSide::Arg(right)) => Some((*left, *right)),
        _ => None,
    }
}
