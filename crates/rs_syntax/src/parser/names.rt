ghost use Rattle.std.specs.Prelude.{◌≡◌, [], ◌∷◌};
ghost use Rattle.rs_grammar.specs.Grammar.{One, Use, colref, column, columns, name as name_part, optional, word, ◌⨟◌};
ghost use Rattle.rs_grammar.specs.declared.kind.TokenKind.TheVariants.{Dot, Int, Integer, Text};
ghost use Rattle.rs_syntax.specs.Reads.{Reads};
ghost use Rattle.rs_syntax.specs.Statements.{column_of, columns_of, data_type_of};
ghost use Rattle.rs_syntax.specs.Trees.{colref_of, qualified};

use crate::name::{ColRef, Name};
use crate::parser::{Parser, ParserFault};
use rs_grammar::TokenKind;
use rs_value::{Kind as ValueKind, List};
use std::alloc::Global;

impl Parser {
    /// A column: `name [ "." name ]`.
    pub(crate) fn colref(&mut self) -> Result<ColRef, ParserFault>
        ensures { Reads (Use colref) colref_of (λ c. c) self.old self.new result }
    {
        let first = self.name()?;
        self.qualify(first)
    }

    /// What may stand behind a name that is a column or its alias: `[ "." name ]`.
    pub(crate) fn qualify(&mut self, first: Name) -> Result<ColRef, ParserFault>
        ensures { Reads (optional (word Dot ⨟ name_part)) (qualified first) (λ c. c) self.old self.new result }
    {
        if !self.at(TokenKind::Dot) {
            return Ok(ColRef {
                alias: None,
                column: first,
            });
        }
        self.expect(TokenKind::Dot)?;
        let column = self.name()?;
        Ok(ColRef {
            alias: Some(first),
            column,
        })
    }

    /// The columns of a table, or the parameters of a predicate: `column { "," column }`.
    pub fn columns(&mut self, alloc: Global) -> Result<List<(Name, ValueKind)>, ParserFault>
        ensures { Reads (Use columns) columns_of (λ c. c) self.old self.new result }
    {
        let mut columns = Vec::new(alloc);
        columns.push(self.column()?)?;
        while self.at(TokenKind::Comma) {
            self.expect(TokenKind::Comma)?;
            columns.push(self.column()?)?;
        }
        Ok(List::of(columns))
    }

    /// `name ( INT | INTEGER | TEXT )`
    fn column(&mut self) -> Result<(Name, ValueKind), ParserFault>
        ensures { Reads (Use column) column_of (λ c. c) self.old self.new result }
    {
        let name = self.name()?;
        let kind = self.data_type()?;
        Ok((name, kind))
    }

    /// `INT | INTEGER | TEXT`
    fn data_type(&mut self) -> Result<ValueKind, ParserFault>
        ensures { Reads (One (Int ∷ Integer ∷ Text ∷ [])) data_type_of (λ kind. kind) self.old self.new result }
    {
        let kind = self.any_of(&[TokenKind::Int, TokenKind::Integer, TokenKind::Text])?;
        Ok(if kind.is(TokenKind::Text) {
            ValueKind::Text
        } else {
            ValueKind::Int
        })
    }
}
