//! CASE, with any number of WHEN parts.
ghost use Rattle.std.specs.Prelude.{map};
ghost use Rattle.rs_grammar.specs.Grammar.{Many, Use, case, when};
ghost use Rattle.rs_syntax.specs.Cases.{cases_in, when_of, when_view, whens_of};
ghost use Rattle.rs_syntax.specs.Expressions.{case_of};
ghost use Rattle.rs_syntax.specs.Makes.{Makes};
ghost use Rattle.rs_syntax.specs.Reads.{Reads};
ghost use Rattle.rs_syntax.specs.Syntax.{Case, expression_of};

use crate::node::Node;
use crate::parser::nodes::case;
use crate::parser::operators::Level;
use crate::parser::{Parser, ParserFault};
use rs_grammar::TokenKind;
use rs_lex::Span;
use std::alloc::Global;

/// A WHEN part: where it starts, its condition and its result.
#[derive(Drop)]
pub struct When {
    pub from: u32,
    pub condition: Node,
    pub outcome: Node,
}

impl Parser {
    /// `CASE when { when } ELSE expr END`
    #[cycle(expr)]
    pub fn case(&mut self, alloc: Global) -> Result<Node, ParserFault>
        ensures { Reads (Use case) case_of expression_of self.old self.new result }
    {
        let from = self.start();
        self.expect(TokenKind::Case)?;
        let first = self.when(alloc)?;
        let others = or_drop!(self.whens(alloc), first);
        or_drop!(self.expect(TokenKind::Else), first, others);
        let otherwise = or_drop!(self.expr_before(alloc, TokenKind::End), first, others);
        let at = self.since(from);
        cases(alloc, first, others, otherwise, at)
    }

    /// `{ when }`
    #[cycle(expr)]
    fn whens(&mut self, alloc: Global) -> Result<Vec<When>, ParserFault>
        ensures { Reads (Many (Use when)) whens_of (λ parts. map when_view parts.items) self.old self.new result }
    {
        let mut parts = Vec::new(alloc);
        'more: while self.at(TokenKind::When) {
            let part = self.when(alloc)?;
            parts.push(part)?;
        }
        Ok(parts)
    }

    /// `WHEN expr THEN expr`
    #[cycle(expr)]
    fn when(&mut self, alloc: Global) -> Result<When, ParserFault>
        ensures { Reads (Use when) when_of when_view self.old self.new result }
    {
        let from = self.start();
        self.expect(TokenKind::When)?;
        let condition = self.expr_before(alloc, TokenKind::Then)?;
        let outcome = or_drop!(self.chain(alloc, Level::Or), condition);
        Ok(When {
            from,
            condition,
            outcome,
        })
    }
}

/// A CASE of a first WHEN part, others and an ELSE part.
fn cases(
    alloc: Global,
    first: When,
    others: Vec<When>,
    otherwise: Node,
    at: Span,
) -> Result<Node, ParserFault>
    ensures { Makes (Case (expression_of first.condition) (expression_of first.outcome) (cases_in at.end (map when_view others.items) (expression_of otherwise)) at) result }
{
    let rest = or_drop!(fold_cases(alloc, others, otherwise, at.end), first);
    case(alloc, first.condition, first.outcome, rest, at)
}

/// The WHEN parts up to a place, each with the next one as its rest, and the ELSE part as that of the last one.
fn fold_cases(
    alloc: Global,
    mut parts: Vec<When>,
    otherwise: Node,
    to: u32,
) -> Result<Node, ParserFault>
    ensures { Makes (cases_in to (map when_view parts.items) (expression_of otherwise)) result }
{
    let mut rest = otherwise;
    while let Some(part) = parts.pop() {
        let at = Span {
            start: part.from,
            end: to,
        };
        rest = or_drop!(case(alloc, part.condition, part.outcome, rest, at), parts);
    }
    Ok(rest)
}
