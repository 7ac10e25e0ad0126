//! The rules of typing: what a node is, where its parts are typed.
//!
//! Where a function ends early, it drops each part that it still owns by name. That keeps its proof short.

ghost use Rattle.std.specs.Prelude.{◌≡◌, [], ◌∷◌, length};
ghost use Rattle.rs_value.specs.Answer.{Gives};
ghost use Rattle.rs_syntax.specs.Syntax.{Abs, And, Arith, Case, Compare, Expression, Greatest, Least, Neg, Not, Or, expression_of};
ghost use Rattle.rs_expr.specs.Formulas.{condition_of, formula_of};
ghost use Rattle.rs_typing.specs.Typing.{Scope, Typed as Meaning, argument, divisor_of, narrow, negated_divisor, pair_of, parts_of, as_number, as_numbers, rule, span_of, as_truth, as_truths, as_text};
ghost use Rattle.rs_typing.specs.Models.{result_map, typed_of};

use crate::fault::{BindFault, Why};
use crate::scope::span_of_column;
use crate::typed::Typed;
use rs_expr::{Cond, Expr, Rel, TextSide};
use rs_lex::Span;
use rs_syntax::{Node, Op};
use rs_value::Kind;
use std::alloc::Global;

/// An argument of this number and kind.
pub fn argument(found: (u16, Kind)) -> Typed
    ensures { typed_of result ≡ argument found }
{
    match found.1 {
        Kind::Int => Typed::Number(Expr::Arg(found.0)),
        Kind::Text => Typed::Words(TextSide::Arg(found.0)),
    }
}

/// What a node of one part is, where that part is typed.
pub(crate) fn rule_of_one(alloc: Global, node: &Node, part: Typed) -> Result<Typed, BindFault>
    requires { length (parts_of (expression_of node.now)) ≡ 1 }
    ensures { (scope : Scope) → Gives BindFault.Memory (rule scope (expression_of node.now) (typed_of part ∷ [])) (result_map typed_of result) }
{
    match node {
        Node::Neg(_, at) => negate(alloc, part, *at),
        Node::Abs(_, at) => magnitude(alloc, part, *at),
        Node::Not(_, at) => negation(alloc, part, *at),
        _ => unreachable!(),
    }
}

/// What a node of two parts is, where these are typed.
pub(crate) fn rule_of_two(
    alloc: Global,
    node: &Node,
    left: Typed,
    right: Typed,
) -> Result<Typed, BindFault>
    requires { length (parts_of (expression_of node.now)) ≡ 2 }
    ensures { (scope : Scope)
        → Gives BindFault.Memory (rule scope (expression_of node.now) (typed_of left ∷ typed_of right ∷ [])) (result_map typed_of result) }
{
    match node {
        Node::Arith(op, _, divisor, at) => arithmetic(alloc, *op, left, right, divisor, *at),
        Node::Least(_, _, at) => least(alloc, left, right, *at),
        Node::Greatest(_, _, at) => greatest(alloc, left, right, *at),
        Node::Compare(rel, _, _, at) => compare(*rel, left, right, *at),
        Node::And(_, _, at) => both(alloc, left, right, *at),
        Node::Or(_, _, at) => either(alloc, left, right, *at),
        _ => unreachable!(),
    }
}

fn negate(alloc: Global, part: Typed, at: Span) -> Result<Typed, BindFault>
    ensures { (scope : Scope) (x : Expression) → Gives BindFault.Memory (rule scope (Neg x at) (typed_of part ∷ [])) (result_map typed_of result) }
{
    let part = number(part, at)?;
    narrow(Expr::Neg(Box::new(alloc, part)?), at)
}

/// A sum, a difference or a product; or a quotient, of which the right part is looked at as it is written.
fn arithmetic(
    alloc: Global,
    op: Op,
    left: Typed,
    right: Typed,
    divisor: &Node,
    at: Span,
) -> Result<Typed, BindFault>
    ensures { (scope : Scope) (x : Expression)
        → Gives BindFault.Memory (rule scope (Arith op x (expression_of divisor.now) at) (typed_of left ∷ typed_of right ∷ [])) (result_map typed_of result) }
{
    match op {
        Op::Add => {
            let (left, right) = numbers(alloc, left, right, at)?;
            narrow(Expr::Add(left, right), at)
        }
        Op::Sub => {
            let (left, right) = numbers(alloc, left, right, at)?;
            narrow(Expr::Sub(left, right), at)
        }
        Op::Mul => {
            let (left, right) = numbers(alloc, left, right, at)?;
            narrow(Expr::Mul(left, right), at)
        }
        Op::Div => {
            drop(right);
            quotient(alloc, left, divisor, at)
        }
    }
}

/// A quotient. Only a number that is written, with `-` or without, and that isn't 0 may be a divisor.
fn quotient(alloc: Global, part: Typed, divisor: &Node, at: Span) -> Result<Typed, BindFault>
    ensures { (scope : Scope) (x : Expression) (t : Meaning)
        → Gives BindFault.Memory (rule scope (Arith Op.Div x (expression_of divisor.now) at) (typed_of part ∷ t ∷ [])) (result_map typed_of result) }
{
    let part = number(part, at)?;
    match divisor_of(divisor) {
        Some(number) => narrow(Expr::Div(Box::new(alloc, part)?, number), at),
        None => {
            drop(part);
            Err(BindFault::At(Why::BadDivisor, span_of(divisor)))
        }
    }
}

/// The divisor that a node is: a number that isn't 0, or the negation of one.
fn divisor_of(node: &Node) -> Option<i64>
    ensures { result ≡ divisor_of (expression_of node.now) }
{
    match node {
        Node::Int(number, _) => (*number != 0).then_some(*number),
        Node::Neg(part, _) => match part.as_ref() {
            Node::Int(number, _) => negated_divisor(*number),
            _ => None,
        },
        _ => None,
    }
}

/// The negation of a number that is written with no sign, and isn't 0.
fn negated_divisor(number: i64) -> Option<i64>
    ensures { result ≡ negated_divisor number }
{
    if number <= 0 {
        return None;
    }
    Some(-number)
}

fn magnitude(alloc: Global, part: Typed, at: Span) -> Result<Typed, BindFault>
    ensures { (scope : Scope) (x : Expression) → Gives BindFault.Memory (rule scope (Abs x at) (typed_of part ∷ [])) (result_map typed_of result) }
{
    let part = number(part, at)?;
    narrow(Expr::Abs(Box::new(alloc, part)?), at)
}

fn least(alloc: Global, left: Typed, right: Typed, at: Span) -> Result<Typed, BindFault>
    ensures { (scope : Scope) (x y : Expression)
        → Gives BindFault.Memory (rule scope (Least x y at) (typed_of left ∷ typed_of right ∷ [])) (result_map typed_of result) }
{
    let (left, right) = numbers(alloc, left, right, at)?;
    narrow(Expr::Least(left, right), at)
}

fn greatest(alloc: Global, left: Typed, right: Typed, at: Span) -> Result<Typed, BindFault>
    ensures { (scope : Scope) (x y : Expression)
        → Gives BindFault.Memory (rule scope (Greatest x y at) (typed_of left ∷ typed_of right ∷ [])) (result_map typed_of result) }
{
    let (left, right) = numbers(alloc, left, right, at)?;
    narrow(Expr::Greatest(left, right), at)
}

pub fn case(
    alloc: Global,
    condition: Typed,
    outcome: Typed,
    rest: Typed,
    at: Span,
) -> Result<Typed, BindFault>
    ensures { (scope : Scope) (x y z : Expression)
        → Gives BindFault.Memory (rule scope (Case x y z at) (typed_of condition ∷ typed_of outcome ∷ typed_of rest ∷ [])) (result_map typed_of result) }
{
    let condition = match truth(condition, at) {
        Ok(condition) => condition,
        Err(fault) => {
            drop(outcome);
            drop(rest);
            return Err(fault);
        }
    };
    let (outcome, rest) = match numbers(alloc, outcome, rest, at) {
        Ok(parts) => parts,
        Err(fault) => {
            drop(condition);
            return Err(fault);
        }
    };
    match Box::new(alloc, condition) {
        Ok(condition) => narrow(Expr::Case(condition, outcome, rest), at),
        Err(failed) => {
            drop(failed);
            drop(outcome);
            drop(rest);
            Err(BindFault::Memory)
        }
    }
}

/// A comparison of two numbers or of two texts.
fn compare(rel: Rel, left: Typed, right: Typed, at: Span) -> Result<Typed, BindFault>
    ensures { (scope : Scope) (x y : Expression)
        → result_map typed_of result ≡ rule scope (Compare rel x y at) (typed_of left ∷ typed_of right ∷ []) }
{
    match left {
        Typed::Number(left) => match number(right, at) {
            Ok(right) => Ok(Typed::Truth(Cond::Numbers(rel, left, right))),
            Err(fault) => {
                drop(left);
                Err(fault)
            }
        },
        Typed::Words(left) => match words(right, at) {
            Ok(right) => Ok(Typed::Truth(Cond::Texts(rel, left, right))),
            Err(fault) => {
                drop(left);
                Err(fault)
            }
        },
        Typed::Truth(left) => {
            drop(left);
            drop(right);
            Err(BindFault::At(Why::WrongKind, at))
        }
    }
}

fn both(alloc: Global, left: Typed, right: Typed, at: Span) -> Result<Typed, BindFault>
    ensures { (scope : Scope) (x y : Expression)
        → Gives BindFault.Memory (rule scope (And x y at) (typed_of left ∷ typed_of right ∷ [])) (result_map typed_of result) }
{
    let (left, right) = truths(alloc, left, right, at)?;
    Ok(Typed::Truth(Cond::And(left, right)))
}

fn either(alloc: Global, left: Typed, right: Typed, at: Span) -> Result<Typed, BindFault>
    ensures { (scope : Scope) (x y : Expression)
        → Gives BindFault.Memory (rule scope (Or x y at) (typed_of left ∷ typed_of right ∷ [])) (result_map typed_of result) }
{
    let (left, right) = truths(alloc, left, right, at)?;
    Ok(Typed::Truth(Cond::Or(left, right)))
}

fn negation(alloc: Global, part: Typed, at: Span) -> Result<Typed, BindFault>
    ensures { (scope : Scope) (x : Expression) → Gives BindFault.Memory (rule scope (Not x at) (typed_of part ∷ [])) (result_map typed_of result) }
{
    let part = truth(part, at)?;
    Ok(Typed::Truth(Cond::Not(Box::new(alloc, part)?)))
}

/// A formula, where it isn't too wide.
fn narrow(formula: Expr, at: Span) -> Result<Typed, BindFault>
    ensures { result_map typed_of result ≡ narrow at (formula_of formula) }
{
    if formula.width().is_none() {
        drop(formula);
        return Err(BindFault::At(Why::TooWide, at));
    }
    Ok(Typed::Number(formula))
}

/// The formula of a part that has to be a number.
///
/// # Errors
///
/// - `At`: with `WrongKind` and the place, exactly where the part is no number.
/// - `Memory`: never.
pub fn number(part: Typed, at: Span) -> Result<Expr, BindFault>
    ensures { result_map formula_of result ≡ as_number at (typed_of part) }
{
    match part {
        Typed::Number(formula) => Ok(formula),
        Typed::Words(side) => {
            drop(side);
            Err(BindFault::At(Why::WrongKind, at))
        }
        Typed::Truth(condition) => {
            drop(condition);
            Err(BindFault::At(Why::WrongKind, at))
        }
    }
}

/// The text of a part that has to be one.
fn words(part: Typed, at: Span) -> Result<TextSide, BindFault>
    ensures { result ≡ as_text at (typed_of part) }
{
    match part {
        Typed::Number(formula) => {
            drop(formula);
            Err(BindFault::At(Why::WrongKind, at))
        }
        Typed::Words(side) => Ok(side),
        Typed::Truth(condition) => {
            drop(condition);
            Err(BindFault::At(Why::WrongKind, at))
        }
    }
}

/// The condition of a part that has to be a truth value.
///
/// # Errors
///
/// - `At`: with `WrongKind` and the place, exactly where the part is no truth value.
/// - `Memory`: never.
pub fn truth(part: Typed, at: Span) -> Result<Cond, BindFault>
    ensures { result_map condition_of result ≡ as_truth at (typed_of part) }
{
    match part {
        Typed::Number(formula) => {
            drop(formula);
            Err(BindFault::At(Why::WrongKind, at))
        }
        Typed::Words(side) => {
            drop(side);
            Err(BindFault::At(Why::WrongKind, at))
        }
        Typed::Truth(condition) => Ok(condition),
    }
}

/// The formulas of two parts that have to be numbers.
fn numbers(
    alloc: Global,
    left: Typed,
    right: Typed,
    at: Span,
) -> Result<(Box<Expr>, Box<Expr>), BindFault>
    ensures { Gives BindFault.Memory (as_numbers at (typed_of left) (typed_of right))
        (result_map (λ made. (formula_of made.0.value, formula_of made.1.value)) result) }
{
    box_both(alloc, number(left, at), number(right, at))
}

/// The conditions of two parts that have to be truth values.
fn truths(
    alloc: Global,
    left: Typed,
    right: Typed,
    at: Span,
) -> Result<(Box<Cond>, Box<Cond>), BindFault>
    ensures { Gives BindFault.Memory (as_truths at (typed_of left) (typed_of right))
        (result_map (λ made. (condition_of made.0.value, condition_of made.1.value)) result) }
{
    box_both(alloc, truth(left, at), truth(right, at))
}

/// Two parts, each in a box, or the fault of the first of them that has one.
fn box_both<T: Drop>(
    alloc: Global,
    left: Result<T, BindFault>,
    right: Result<T, BindFault>,
) -> Result<(Box<T>, Box<T>), BindFault>
    ensures { Gives BindFault.Memory (pair_of left right) (result_map (λ made. (made.0.value, made.1.value)) result) }
{
    let left = match left {
        Ok(left) => left,
        Err(fault) => {
            drop(right);
            return Err(fault);
        }
    };
    let right = match right {
        Ok(right) => right,
        Err(fault) => {
            drop(left);
            return Err(fault);
        }
    };
    let left = match Box::new(alloc, left) {
        Ok(left) => left,
        Err(failed) => {
            drop(failed);
            drop(right);
            return Err(BindFault::Memory);
        }
    };
    match Box::new(alloc, right) {
        Ok(right) => Ok((left, right)),
        Err(failed) => {
            drop(failed);
            drop(left);
            Err(BindFault::Memory)
        }
    }
}

/// Where an expression stands.
pub fn span_of(node: &Node) -> Span
    ensures { result ≡ span_of (expression_of node.now) }
{
    match node {
        Node::Int(_, at) => *at,
        Node::Text(_, at) => *at,
        Node::Column(column) => span_of_column(column),
        Node::Neg(_, at) => *at,
        Node::Arith(_, _, _, at) => *at,
        Node::Abs(_, at) => *at,
        Node::Least(_, _, at) => *at,
        Node::Greatest(_, _, at) => *at,
        Node::Case(_, _, _, at) => *at,
        Node::Compare(_, _, _, at) => *at,
        Node::And(_, _, at) => *at,
        Node::Or(_, _, at) => *at,
        Node::Not(_, at) => *at,
    }
}
