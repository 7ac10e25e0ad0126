//! Operators: those that group to the left, in four levels, and comparisons.
ghost use Rattle.std.specs.Prelude.{◌≡◌, [], ◌∷◌};
ghost use Rattle.rs_grammar.specs.Grammar.{One};
ghost use Rattle.rs_grammar.specs.Kinds.{comparisons};
ghost use Rattle.rs_grammar.specs.Reading.{next_is};
ghost use Rattle.rs_grammar.specs.declared.kind.TokenKind.TheVariants.{Minus, Plus, Slash, Star};
ghost use Rattle.rs_syntax.specs.Expressions.{adding_of, multiplying_of, rel_of};
ghost use Rattle.rs_syntax.specs.Levels.{operator_of, operators};
ghost use Rattle.rs_syntax.specs.Reads.{Reads};

use crate::node::Op;
use crate::parser::{Parser, ParserFault};
use rs_grammar::TokenKind;
use rs_value::Rel;

/// Operators that bind equally strongly, those that bind least first.
#[derive(Clone, Copy)]
pub enum Level {
    Or,
    And,
    Sum,
    Product,
}

/// An operator between two operands of a level.
#[derive(Clone, Copy)]
pub enum Operator {
    Or,
    And,
    Arith(Op),
}

impl Parser {
    /// Whether the next token is an operator of this level.
    pub(crate) fn at_operator(&self, level: Level) -> bool
        ensures { result ≡ next_is (operators level) self.now.rest }
    {
        match level {
            Level::Or => self.at(TokenKind::Or),
            Level::And => self.at(TokenKind::And),
            Level::Sum => self.at_any(&[TokenKind::Plus, TokenKind::Minus]),
            Level::Product => self.at_any(&[TokenKind::Star, TokenKind::Slash]),
        }
    }

    /// An operator of this level.
    pub fn operator(&mut self, level: Level) -> Result<Operator, ParserFault>
        ensures { Reads (One (operators level)) (operator_of level) (λ o. o) self.old self.new result }
    {
        match level {
            Level::Or => {
                self.expect(TokenKind::Or)?;
                Ok(Operator::Or)
            }
            Level::And => {
                self.expect(TokenKind::And)?;
                Ok(Operator::And)
            }
            Level::Sum => {
                let op = self.adding()?;
                Ok(Operator::Arith(op))
            }
            Level::Product => {
                let op = self.multiplying()?;
                Ok(Operator::Arith(op))
            }
        }
    }

    /// `"+" | "-"`
    fn adding(&mut self) -> Result<Op, ParserFault>
        ensures { Reads (One (Plus ∷ Minus ∷ [])) adding_of (λ op. op) self.old self.new result }
    {
        let kind = self.any_of(&[TokenKind::Plus, TokenKind::Minus])?;
        Ok(if kind.is(TokenKind::Plus) {
            Op::Add
        } else {
            Op::Sub
        })
    }

    /// `"*" | "/"`
    fn multiplying(&mut self) -> Result<Op, ParserFault>
        ensures { Reads (One (Star ∷ Slash ∷ [])) multiplying_of (λ op. op) self.old self.new result }
    {
        let kind = self.any_of(&[TokenKind::Star, TokenKind::Slash])?;
        Ok(if kind.is(TokenKind::Star) {
            Op::Mul
        } else {
            Op::Div
        })
    }

    /// `"=" | "<>" | "<" | "<=" | ">" | ">="`
    pub fn comparison(&mut self) -> Result<Rel, ParserFault>
        ensures { Reads (One comparisons) rel_of (λ rel. rel) self.old self.new result }
    {
        let kind = self.any_of(&COMPARISONS)?;
        Ok(match kind {
            TokenKind::Equal => Rel::Eq,
            TokenKind::NotEqual => Rel::Ne,
            TokenKind::Less => Rel::Lt,
            TokenKind::LessEqual => Rel::Le,
            TokenKind::Greater => Rel::Gt,
            _ => Rel::Ge,
        })
    }
}

pub(crate) const COMPARISONS: [TokenKind; 6] = [
    TokenKind::Equal,
    TokenKind::NotEqual,
    TokenKind::Less,
    TokenKind::LessEqual,
    TokenKind::Greater,
    TokenKind::GreaterEqual,
];
