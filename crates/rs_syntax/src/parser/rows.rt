//! INSERT and its rows.
ghost use Rattle.rs_grammar.specs.Grammar.{Use, cell, cells, insert, row, rows};
ghost use Rattle.rs_syntax.specs.Reads.{Reads};
ghost use Rattle.rs_syntax.specs.Statements.{cell_of, cells_of, insert_of, row_of, rows_of};
ghost use Rattle.rs_syntax.specs.Syntax.{command_of};

use crate::parser::{Parser, ParserFault};
use crate::row::{Cell, RowSyn};
use crate::statement::Statement;
use rs_grammar::TokenKind;
use rs_value::List;
use std::alloc::Global;

impl Parser {
    /// `INSERT INTO name VALUES rows`
    pub(crate) fn insert(&mut self, alloc: Global) -> Result<Statement, ParserFault>
        ensures { Reads (Use insert) insert_of command_of self.old self.new result }
    {
        self.expect(TokenKind::Insert)?;
        self.expect(TokenKind::Into)?;
        let table = self.name()?;
        or_drop!(self.expect(TokenKind::Values), table);
        let rows = or_drop!(self.rows(alloc), table);
        Ok(Statement::Insert { table, rows })
    }

    /// `row { "," row }`
    fn rows(&mut self, alloc: Global) -> Result<List<RowSyn>, ParserFault>
        ensures { Reads (Use rows) rows_of (λ r. r) self.old self.new result }
    {
        let mut rows = Vec::new(alloc);
        rows.push(self.row(alloc)?)?;
        while self.at(TokenKind::Comma) {
            self.expect(TokenKind::Comma)?;
            rows.push(self.row(alloc)?)?;
        }
        Ok(List::of(rows))
    }

    /// `"(" cells ")"`
    fn row(&mut self, alloc: Global) -> Result<RowSyn, ParserFault>
        ensures { Reads (Use row) row_of (λ r. r) self.old self.new result }
    {
        let from = self.start();
        self.expect(TokenKind::OpenBracket)?;
        let cells = self.cells(alloc)?;
        or_drop!(self.expect(TokenKind::CloseBracket), cells);
        let at = self.since(from);
        Ok(RowSyn { cells, at })
    }

    /// `cell { "," cell }`
    fn cells(&mut self, alloc: Global) -> Result<List<Cell>, ParserFault>
        ensures { Reads (Use cells) cells_of (λ c. c) self.old self.new result }
    {
        let mut cells = Vec::new(alloc);
        cells.push(self.cell()?)?;
        while self.at(TokenKind::Comma) {
            self.expect(TokenKind::Comma)?;
            cells.push(self.cell()?)?;
        }
        Ok(List::of(cells))
    }

    /// `[ "-" ] number | literal`
    fn cell(&mut self) -> Result<Cell, ParserFault>
        ensures { Reads (Use cell) cell_of (λ c. c) self.old self.new result }
    {
        if self.at_any(&[TokenKind::Minus, TokenKind::Number]) {
            let (number, at) = self.signed_number()?;
            return Ok(Cell::Int(number, at));
        }
        let (text, at) = self.literal()?;
        Ok(Cell::Text(text, at))
    }
}
