//! A parser by recursive descent, with one token ahead.

/// What a step gives. Where it fails, the values that were read before it are let go of, and its fault is returned.
/// At a `?` each of their parts would be let go of by itself, which takes long to prove.
macro_rules! or_drop {
    ($step:expr, $($read:ident),+) => {
        match $step {
            Ok(value) => value,
            Err(fault) => {
                $(drop($read);)+
                return Err(fault);
            }
        }
    };
}

mod blocks;
mod cases;
mod expressions;
mod names;
mod nodes;
mod operators;
mod order;
mod rows;
mod statements;
mod terms;
mod tokens;

use crate::parser::tokens::MOST_DEEP;
use rs_grammar::Lexeme;
use std::marker::Model;

/// Reads the lexemes of a script from left to right.
#[derive(Drop)]
pub struct Parser {
    /// The lexemes that are left, the next one last.
    reversed: Vec<Lexeme>,
    /// How many tokens that count towards the depth of a statement may still come in this one.
    left: u32,
    /// Where the last token ended.
    last: u32,
}

impl Model for Parser {
    ghost use Rattle.std.specs.Prelude.{reverse};
    ghost use Rattle.rs_grammar.specs.Reading.{State};
    ghost use Rattle.rs_syntax.specs.Numbers.{AreNumbers};

    ghost Value = { State };

    ghost view = { λ p. record { rest = reverse p.reversed.items; left = p.left; last = p.last } };

    ghost invariant = { λ p. AreNumbers p.reversed.items };
}

/// Why the parser can't go on at the next token.
#[derive(Clone, Copy, Debug)]
pub enum ParserFault {
    /// No such token may stand there.
    Expected,
    /// It is one more token that counts towards the depth than a statement may have.
    TooDeep,
    Memory,
}

impl Parser {
    ghost use Rattle.std.specs.Prelude.{◌≡◌};
    ghost use Rattle.rs_grammar.specs.Places.{most_deep};
    ghost use Rattle.rs_syntax.specs.Numbers.{AreNumbers};

    /// A parser in front of these lexemes.
    pub fn new(mut lexemes: Vec<Lexeme>) -> Parser
        requires { AreNumbers lexemes.items }
        ensures { result ≡ record { rest = lexemes.items; left = most_deep; last = 0 } }
    {
        lexemes.reverse();
        Parser {
            reversed: lexemes,
            left: MOST_DEEP,
            last: 0,
        }
    }
}
