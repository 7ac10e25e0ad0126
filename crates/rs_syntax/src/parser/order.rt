//! The order of a query's rows, and how many of them are asked for.
ghost use Rattle.rs_grammar.specs.Grammar.{Use, optional, terms, word, ◌⨟◌};
ghost use Rattle.rs_grammar.specs.declared.kind.TokenKind.TheVariants.{By, Desc, Limit, Number, Order};
ghost use Rattle.rs_syntax.specs.Reads.{Reads};
ghost use Rattle.rs_syntax.specs.Statements.{limit_of, terms_of};
ghost use Rattle.rs_syntax.specs.Trees.{if_there, last, part};

use crate::parser::{Parser, ParserFault};
use crate::select::TermSyn;
use rs_grammar::TokenKind;
use rs_lex::Span;
use rs_value::List;
use std::alloc::Global;

impl Parser {
    /// `ORDER BY terms [ DESC ] [ LIMIT number ]`
    pub fn order(
        &mut self,
        alloc: Global,
    ) -> Result<(List<TermSyn>, Option<(i64, Span)>), ParserFault>
        ensures { Reads (word Order ⨟ word By ⨟ Use terms ⨟ optional (word Desc) ⨟ optional (word Limit ⨟ word Number))
            (λ t. (terms_of (part 2 t), if_there limit_of (last 4 t))) (λ o. o) self.old self.new result }
    {
        self.expect(TokenKind::Order)?;
        self.expect(TokenKind::By)?;
        let terms = self.terms(alloc)?;
        let _ = self.accept(TokenKind::Desc)?;
        let limit = self.numbered(TokenKind::Limit)?;
        Ok((terms, limit))
    }
}
