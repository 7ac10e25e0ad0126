ghost use Rattle.std.specs.Prelude.{◌≡◌, IfErr, IfOk};
ghost use Rattle.rs_syntax.specs.Expressions.{extreme_of};
ghost use Rattle.rs_syntax.specs.Levels.{joined};
ghost use Rattle.rs_syntax.specs.Makes.{Makes};
ghost use Rattle.rs_syntax.specs.Syntax.{Abs, Case, Compare, Neg, Not, expression_of};
ghost use Rattle.rs_syntax.specs.declared.parser.ParserFault.TheVariants.{Memory};

use crate::node::Node;
use crate::parser::ParserFault;
use crate::parser::operators::Operator;
use rs_grammar::TokenKind;
use rs_lex::Span;
use rs_value::Rel;
use std::alloc::{AllocFailed, Global};

impl<T: Drop> From<AllocFailed<T>> for ParserFault {
    ghost use Rattle.std.specs.Prelude.{◌≡◌};
    ghost use Rattle.rs_syntax.specs.declared.parser.ParserFault.TheVariants.{Memory};

    ghost from_gives = { λ _ fault. fault ≡ Memory };

    fn from(_: AllocFailed<T>) -> ParserFault {
        ParserFault::Memory
    }
}

/// Each of two nodes in a box.
fn boxes(alloc: Global, left: Node, right: Node) -> Result<(Box<Node>, Box<Node>), ParserFault>
    ensures left { IfOk result (λ made. made.0.value ≡ left) }
    ensures right { IfOk result (λ made. made.1.value ≡ right) }
    ensures memory { IfErr result (λ fault. fault ≡ Memory) }
{
    let left = match Box::new(alloc, left) {
        Ok(left) => left,
        Err(failed) => {
            drop(failed);
            drop(right);
            return Err(ParserFault::Memory);
        }
    };
    let right = Box::new(alloc, right)?;
    Ok((left, right))
}

pub fn neg(alloc: Global, part: Node, at: Span) -> Result<Node, ParserFault>
    ensures { Makes (Neg (expression_of part) at) result }
{
    Ok(Node::Neg(Box::new(alloc, part)?, at))
}

pub fn not(alloc: Global, part: Node, at: Span) -> Result<Node, ParserFault>
    ensures { Makes (Not (expression_of part) at) result }
{
    Ok(Node::Not(Box::new(alloc, part)?, at))
}

pub fn abs(alloc: Global, part: Node, at: Span) -> Result<Node, ParserFault>
    ensures { Makes (Abs (expression_of part) at) result }
{
    Ok(Node::Abs(Box::new(alloc, part)?, at))
}

/// Two operands with the operator between them.
pub fn join(
    alloc: Global,
    operator: Operator,
    left: Node,
    right: Node,
    at: Span,
) -> Result<Node, ParserFault>
    ensures { Makes (joined operator (expression_of left) (expression_of right) at) result }
{
    let (left, right) = boxes(alloc, left, right)?;
    match operator {
        Operator::Or => Ok(Node::Or(left, right, at)),
        Operator::And => Ok(Node::And(left, right, at)),
        Operator::Arith(op) => Ok(Node::Arith(op, left, right, at)),
    }
}

pub fn compare(
    alloc: Global,
    rel: Rel,
    left: Node,
    right: Node,
    at: Span,
) -> Result<Node, ParserFault>
    ensures { Makes (Compare rel (expression_of left) (expression_of right) at) result }
{
    let (left, right) = boxes(alloc, left, right)?;
    Ok(Node::Compare(rel, left, right, at))
}

/// The lesser one of two where the word is MIN, else the greater one.
pub(crate) fn extreme(
    alloc: Global,
    word: TokenKind,
    first: Node,
    second: Node,
    at: Span,
) -> Result<Node, ParserFault>
    ensures { Makes (extreme_of word (expression_of first) (expression_of second) at) result }
{
    let (first, second) = boxes(alloc, first, second)?;
    if word.is(TokenKind::Min) {
        return Ok(Node::Least(first, second, at));
    }
    Ok(Node::Greatest(first, second, at))
}

pub fn case(
    alloc: Global,
    condition: Node,
    outcome: Node,
    rest: Node,
    at: Span,
) -> Result<Node, ParserFault>
    ensures { Makes (Case (expression_of condition) (expression_of outcome) (expression_of rest) at) result }
{
    let (condition, outcome) = or_drop!(boxes(alloc, condition, outcome), rest);
    let rest = Box::new(alloc, rest)?;
    Ok(Node::Case(condition, outcome, rest, at))
}
