//! Predicates with their arguments, and the terms of ORDER BY.
ghost use Rattle.rs_grammar.specs.Grammar.{Use, arg, args, optional, term, terms, word, ◌⨟◌};
ghost use Rattle.rs_grammar.specs.declared.kind.TokenKind.TheVariants.{Minus, Number, Star};
ghost use Rattle.rs_syntax.specs.Reads.{Reads};
ghost use Rattle.rs_syntax.specs.Statements.{arg_of, args_of, signed_number_of, term_of, terms_of};
ghost use Rattle.rs_syntax.specs.Trees.{if_there, leaf_number, weight_in};

use crate::name::Arg;
use crate::parser::{Parser, ParserFault};
use crate::select::TermSyn;
use rs_grammar::TokenKind;
use rs_lex::Span;
use rs_value::List;
use std::alloc::Global;

impl Parser {
    /// `term { "+" term }`
    pub fn terms(&mut self, alloc: Global) -> Result<List<TermSyn>, ParserFault>
        ensures { Reads (Use terms) terms_of (λ t. t) self.old self.new result }
    {
        let mut terms = Vec::new(alloc);
        terms.push(self.term(alloc)?)?;
        'more: while self.at(TokenKind::Plus) {
            self.expect(TokenKind::Plus)?;
            terms.push(self.term(alloc)?)?;
        }
        Ok(List::of(terms))
    }

    /// `[ number "*" ] name "(" args ")"`
    fn term(&mut self, alloc: Global) -> Result<TermSyn, ParserFault>
        ensures { Reads (Use term) term_of (λ t. t) self.old self.new result }
    {
        let from = self.start();
        let weight = self.weight()?;
        let predicate = self.name()?;
        or_drop!(self.expect(TokenKind::OpenBracket), predicate);
        let args = or_drop!(self.args(alloc), predicate);
        or_drop!(self.expect(TokenKind::CloseBracket), predicate, args);
        let at = self.since(from);
        let weight = match weight {
            Some(weight) => weight,
            None => (1, predicate.at),
        };
        Ok(TermSyn {
            weight,
            predicate,
            args,
            at,
        })
    }

    /// `[ number "*" ]`
    fn weight(&mut self) -> Result<Option<(i64, Span)>, ParserFault>
        ensures { Reads (optional (word Number ⨟ word Star)) (if_there weight_in) (λ w. w) self.old self.new result }
    {
        if !self.at(TokenKind::Number) {
            return Ok(None);
        }
        let weight = self.number()?;
        self.expect(TokenKind::Star)?;
        Ok(Some(weight))
    }

    /// `arg { "," arg }`
    pub fn args(&mut self, alloc: Global) -> Result<List<Arg>, ParserFault>
        ensures { Reads (Use args) args_of (λ a. a) self.old self.new result }
    {
        let mut args = Vec::new(alloc);
        args.push(self.arg()?)?;
        while self.at(TokenKind::Comma) {
            self.expect(TokenKind::Comma)?;
            args.push(self.arg()?)?;
        }
        Ok(List::of(args))
    }

    /// `colref | [ "-" ] number | literal`
    fn arg(&mut self) -> Result<Arg, ParserFault>
        ensures { Reads (Use arg) arg_of (λ a. a) self.old self.new result }
    {
        if self.at_name() {
            return Ok(Arg::Column(self.colref()?));
        }
        if self.at_any(&[TokenKind::Minus, TokenKind::Number]) {
            let (number, at) = self.signed_number()?;
            return Ok(Arg::Int(number, at));
        }
        let (text, at) = self.literal()?;
        Ok(Arg::Text(text, at))
    }

    /// `[ "-" ] number`
    pub(crate) fn signed_number(&mut self) -> Result<(i64, Span), ParserFault>
        ensures { Reads (optional (word Minus) ⨟ word Number) signed_number_of (λ n. n) self.old self.new result }
    {
        let from = self.start();
        let is_negative = self.accept(TokenKind::Minus)?;
        let (number, _) = self.number()?;
        let at = self.since(from);
        Ok((if is_negative { -number } else { number }, at))
    }
}
