ghost use Rattle.std.specs.Prelude.{◌≡◌, ◌≤◌, IfOk, is_some, length, map, true};
ghost use Rattle.rs_value.specs.Answer.{Gives};
ghost use Rattle.rs_syntax.specs.Syntax.{command_of, expression_of};
ghost use Rattle.rs_expr.specs.Formulas.{formula_of};
ghost use Rattle.rs_expr.specs.Uses.{has_parameter, uses};
ghost use Rattle.rs_expr.specs.Widths.{width_of};
ghost use Rattle.rs_typing.specs.Parameters.{formula_in};
ghost use Rattle.rs_typing.specs.Models.{result_map};
ghost use Rattle.rs_bind.specs.Predicates.{IsCreatePredicate, cost_of, predicate_of};
ghost use Rattle.rs_syntax.specs.Written.{IsWritten};

use crate::names::{distinct_columns, number_in};
use rs_expr::{Expr, Predicate};
use rs_lex::Span;
use rs_syntax::{Node, Statement};
use rs_typing::{BindFault, Parameters, number, span_of, type_node};
use rs_value::{Kind, List, Memory, Text};
use std::alloc::Global;

/// The greatest number of parameters of a predicate.
const MOST_PARAMETERS: usize = 8;

/// What a call costs where a statement doesn't say it.
const USUAL_COST: u16 = 1;

/// The predicate of a CREATE PREDICATE statement. The rules are looked at in this order: the parameters from left to right,
/// at each its number (`LimitOf` for the ninth) and then its name (`NameTwice`); MAX (`LimitOf`); COST (`LimitOf`); the
/// formula, its parts first, which has to be a number (`WrongKind`).
///
/// # Errors
///
/// - `At`: exactly where the statement breaks a rule, with the first one in this order and its place.
/// - `Memory`: at any call, in place of each answer.
pub fn bind_predicate(alloc: Global, statement: &Statement) -> Result<Predicate, BindFault>
    requires form { IsCreatePredicate (command_of statement.now) }
    requires written { IsWritten (command_of statement.now) }
    ensures { Gives BindFault.Memory (predicate_of (command_of statement.now)) result }
{
    match statement {
        Statement::CreatePredicate {
            name,
            params,
            max,
            cost,
            formula,
        } => {
            let columns = distinct_columns(alloc, params.items(), MOST_PARAMETERS)?;
            let max = number_in(max, 1, u32::MAX)?;
            let cost = cost_of(cost)?;
            let formula = bind_formula(alloc, &columns, formula)?;
            let name = name.text.copy()?;
            let kinds = kinds_of(alloc, &columns)?;
            Ok(Predicate::new(name, List::of(kinds), max, cost, formula))
        }
        _ => unreachable!(),
    }
}

/// What a call costs, from 0 to 65,535.
fn cost_of(cost: &Option<(i64, Span)>) -> Result<u16, BindFault>
    ensures { result ≡ cost_of cost.now }
{
    match cost {
        None => Ok(USUAL_COST),
        Some(cost) => Ok(number_in(cost, 0, u16::MAX as u32)? as u16),
    }
}

/// The formula over these parameters, which has to be a number.
fn bind_formula(alloc: Global, columns: &[(Text, Kind)], formula: &Node) -> Result<Expr, BindFault>
    requires { length columns.now ≤ 8 }
    ensures gives { Gives BindFault.Memory (formula_in columns.now (expression_of formula.now)) (result_map formula_of result) }
    ensures fits { IfOk result (λ made. uses (has_parameter (map (λ column. column.1) columns.now)) (formula_of made) ≡ true) }
    ensures narrow { IfOk result (λ made. is_some (width_of (formula_of made)) ≡ true) }
{
    let typed = type_node(alloc, formula, &Parameters { columns })?;
    number(typed, span_of(formula))
}

/// The kinds of these columns, in their order.
fn kinds_of(alloc: Global, columns: &[(Text, Kind)]) -> Result<Vec<Kind>, Memory>
    ensures { IfOk result (λ kinds. kinds.items ≡ map (λ column. column.1) columns.now) }
{
    let mut kinds = Vec::new(alloc);
    for column in columns {
        kinds.push(column.1)?;
    }
    Ok(kinds)
}
