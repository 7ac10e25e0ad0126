ghost use Rattle.std.specs.Prelude.{◌≡◌, [], ◌∷◌, IfOk, Ok, true};
ghost use Rattle.rs_value.specs.Answer.{Gives};
ghost use Rattle.rs_value.specs.Results.{◌>>=◌ as ◌and_then◌};
ghost use Rattle.rs_syntax.specs.Syntax.{Case, expression_of};
ghost use Rattle.rs_expr.specs.declared.expr.TextSide.TheVariants as side;
ghost use Rattle.rs_typing.specs.Typing.{Words, argument, has_width, pair_of, parts_of, type_of};
ghost use Rattle.rs_typing.specs.Models.{result_map, typed_of};

use crate::fault::BindFault;
use crate::rules::{argument, case, rule_of_one, rule_of_two};
use crate::scope::Scope;
use crate::typed::Typed;
use rs_expr::{Expr, TextSide};
use rs_lex::Span;
use rs_syntax::{ColRef, Node};
use rs_value::Text;
use std::alloc::Global;

/// What an expression is, or the first rule that it breaks: that of a part, from left to right, before its own. Each
/// number in what is answered has a width.
///
/// # Errors
///
/// - `At`: exactly where a part breaks a rule, with the first one and its place.
/// - `Memory`: at any call, in place of each answer.
#[cycle(typing)]
pub fn type_node<S: Scope>(alloc: Global, node: &Node, scope: &S) -> Result<Typed, BindFault>
    ensures gives { Gives BindFault.Memory (type_of (S.finds scope.now) (expression_of node.now)) (result_map typed_of result) }
    ensures narrow { IfOk result (λ typed. has_width (typed_of typed) ≡ true) }
{
    match node {
        Node::Int(number, _) => Ok(Typed::Number(Expr::Int(*number))),
        Node::Text(text, _) => type_text(text),
        Node::Column(column) => type_column(column, scope),
        Node::Neg(part, _) => type_one(alloc, node, part, scope),
        Node::Arith(_, left, right, _) => type_two(alloc, node, left, right, scope),
        Node::Abs(part, _) => type_one(alloc, node, part, scope),
        Node::Least(left, right, _) => type_two(alloc, node, left, right, scope),
        Node::Greatest(left, right, _) => type_two(alloc, node, left, right, scope),
        Node::Case(condition, outcome, rest, at) => {
            type_case(alloc, condition, outcome, rest, *at, scope)
        }
        Node::Compare(_, left, right, _) => type_two(alloc, node, left, right, scope),
        Node::And(left, right, _) => type_two(alloc, node, left, right, scope),
        Node::Or(left, right, _) => type_two(alloc, node, left, right, scope),
        Node::Not(part, _) => type_one(alloc, node, part, scope),
    }
}

/// A text that is written.
fn type_text(text: &Text) -> Result<Typed, BindFault>
    ensures { Gives BindFault.Memory (Ok (Words (side.Text text.now))) (result_map typed_of result) }
{
    Ok(Typed::Words(TextSide::Text(text.copy()?)))
}

/// What a column stands for.
fn type_column<S: Scope>(column: &ColRef, scope: &S) -> Result<Typed, BindFault>
    ensures { result_map typed_of result ≡ (S.finds scope.now column.now and_then λ found. Ok (argument found)) }
{
    Ok(argument(scope.find(column)?))
}

/// An expression of one part.
#[cycle(typing)]
fn type_one<S: Scope>(
    alloc: Global,
    node: &Node,
    part: &Node,
    scope: &S,
) -> Result<Typed, BindFault>
    requires { parts_of (expression_of node.now) ≡ expression_of part.now ∷ [] }
    ensures gives { Gives BindFault.Memory (type_of (S.finds scope.now) (expression_of node.now)) (result_map typed_of result) }
    ensures narrow { IfOk result (λ typed. has_width (typed_of typed) ≡ true) }
{
    match type_node(alloc, part, scope) {
        Ok(part) => rule_of_one(alloc, node, part),
        Err(fault) => Err(fault),
    }
}

/// An expression of two parts.
#[cycle(typing)]
fn type_two<S: Scope>(
    alloc: Global,
    node: &Node,
    left: &Node,
    right: &Node,
    scope: &S,
) -> Result<Typed, BindFault>
    requires { parts_of (expression_of node.now) ≡ expression_of left.now ∷ expression_of right.now ∷ [] }
    ensures gives { Gives BindFault.Memory (type_of (S.finds scope.now) (expression_of node.now)) (result_map typed_of result) }
    ensures narrow { IfOk result (λ typed. has_width (typed_of typed) ≡ true) }
{
    match type_pair(alloc, left, right, scope) {
        Ok((left, right)) => rule_of_two(alloc, node, left, right),
        Err(fault) => Err(fault),
    }
}

/// A choice by a condition.
#[cycle(typing)]
fn type_case<S: Scope>(
    alloc: Global,
    condition: &Node,
    outcome: &Node,
    rest: &Node,
    at: Span,
    scope: &S,
) -> Result<Typed, BindFault>
    ensures gives { Gives BindFault.Memory
        (type_of (S.finds scope.now) (Case (expression_of condition.now) (expression_of outcome.now) (expression_of rest.now) at)) (result_map typed_of result) }
    ensures narrow { IfOk result (λ typed. has_width (typed_of typed) ≡ true) }
{
    let condition = match type_node(alloc, condition, scope) {
        Ok(condition) => condition,
        Err(fault) => return Err(fault),
    };
    match type_pair(alloc, outcome, rest, scope) {
        Ok((outcome, rest)) => case(alloc, condition, outcome, rest, at),
        Err(fault) => {
            drop(condition);
            Err(fault)
        }
    }
}

/// What two expressions are, the left one first.
#[cycle(typing)]
fn type_pair<S: Scope>(
    alloc: Global,
    left: &Node,
    right: &Node,
    scope: &S,
) -> Result<(Typed, Typed), BindFault>
    ensures gives { Gives BindFault.Memory
        (pair_of (type_of (S.finds scope.now) (expression_of left.now)) (type_of (S.finds scope.now) (expression_of right.now)))
        (result_map (λ made. (typed_of made.0, typed_of made.1)) result) }
    ensures narrow { IfOk result (λ made. (has_width (typed_of made.0) ≡ true) × (has_width (typed_of made.1) ≡ true)) }
{
    let left = match type_node(alloc, left, scope) {
        Ok(left) => left,
        Err(fault) => return Err(fault),
    };
    match type_node(alloc, right, scope) {
        Ok(right) => Ok((left, right)),
        Err(fault) => {
            drop(left);
            Err(fault)
        }
    }
}
