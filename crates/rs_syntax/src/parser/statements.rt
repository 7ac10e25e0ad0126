//! Statements and scripts.
ghost use Rattle.rs_grammar.specs.Grammar.{Use, close, create, create_predicate, create_rank_index, create_table, declare, explain, fetch, script, statement};
ghost use Rattle.rs_syntax.specs.Reads.{Reads};
ghost use Rattle.rs_syntax.specs.Statements.{close_of, create_of, create_predicate_of, create_rank_index_of, create_table_of, declare_of, explain_of, fetch_of, script_of, statement_of};
ghost use Rattle.rs_syntax.specs.Syntax.{command_of, commands_of};

use crate::parser::{Parser, ParserFault};
use crate::statement::Statement;
use rs_grammar::TokenKind;
use std::alloc::Global;

impl Parser {
    /// `{ statement ";" } [ statement ]`
    pub fn script(&mut self, alloc: Global) -> Result<Vec<Statement>, ParserFault>
        ensures { Reads script script_of (λ s. commands_of s.items) self.old self.new result }
    {
        let mut statements = Vec::new(alloc);
        'statements: while self.at_any(&STATEMENTS) {
            statements.push(self.statement(alloc)?)?;
            if !self.at(TokenKind::Semicolon) {
                return Ok(statements);
            }
            self.expect(TokenKind::Semicolon)?;
        }
        Ok(statements)
    }

    /// `create | select | declare | fetch | close | explain | insert`
    fn statement(&mut self, alloc: Global) -> Result<Statement, ParserFault>
        ensures { Reads (Use statement) statement_of command_of self.old self.new result }
    {
        if self.at(TokenKind::Create) {
            return self.create(alloc);
        }
        if self.at(TokenKind::Select) {
            return Ok(Statement::Query(self.select(alloc)?));
        }
        if self.at(TokenKind::Declare) {
            return self.declare(alloc);
        }
        if self.at(TokenKind::Fetch) {
            return self.fetch();
        }
        if self.at(TokenKind::Close) {
            return self.close();
        }
        if self.at(TokenKind::Explain) {
            return self.explain(alloc);
        }
        self.insert(alloc)
    }

    /// `CREATE ( create_table | create_predicate | create_rank_index )`
    fn create(&mut self, alloc: Global) -> Result<Statement, ParserFault>
        ensures { Reads (Use create) create_of command_of self.old self.new result }
    {
        self.expect(TokenKind::Create)?;
        if self.at(TokenKind::Table) {
            return self.create_table(alloc);
        }
        if self.at(TokenKind::Predicate) {
            return self.create_predicate(alloc);
        }
        self.create_rank_index(alloc)
    }

    /// `TABLE name "(" columns ")" FROM literal`
    fn create_table(&mut self, alloc: Global) -> Result<Statement, ParserFault>
        ensures { Reads (Use create_table) create_table_of command_of self.old self.new result }
    {
        self.expect(TokenKind::Table)?;
        let name = self.name()?;
        or_drop!(self.expect(TokenKind::OpenBracket), name);
        let columns = or_drop!(self.columns(alloc), name);
        or_drop!(self.expect(TokenKind::CloseBracket), name, columns);
        or_drop!(self.expect(TokenKind::From), name, columns);
        let (file, _) = or_drop!(self.literal(), name, columns);
        Ok(Statement::CreateTable {
            name,
            columns,
            file,
        })
    }

    /// `PREDICATE name "(" columns ")" MAX number [ COST number ] AS expr`
    fn create_predicate(&mut self, alloc: Global) -> Result<Statement, ParserFault>
        ensures { Reads (Use create_predicate) create_predicate_of command_of self.old self.new result }
    {
        self.expect(TokenKind::Predicate)?;
        let name = self.name()?;
        or_drop!(self.expect(TokenKind::OpenBracket), name);
        let params = or_drop!(self.columns(alloc), name);
        or_drop!(self.expect(TokenKind::CloseBracket), name, params);
        or_drop!(self.expect(TokenKind::Max), name, params);
        let max = or_drop!(self.number(), name, params);
        let cost = or_drop!(self.numbered(TokenKind::Cost), name, params);
        or_drop!(self.expect(TokenKind::As), name, params);
        let formula = or_drop!(self.expr(alloc), name, params);
        Ok(Statement::CreatePredicate {
            name,
            params,
            max,
            cost,
            formula,
        })
    }

    /// `RANK INDEX name ON name "(" name "(" args ")" ")"`
    fn create_rank_index(&mut self, alloc: Global) -> Result<Statement, ParserFault>
        ensures { Reads (Use create_rank_index) create_rank_index_of command_of self.old self.new result }
    {
        self.expect(TokenKind::Rank)?;
        self.expect(TokenKind::Index)?;
        let name = self.name()?;
        or_drop!(self.expect(TokenKind::On), name);
        let table = or_drop!(self.name(), name);
        or_drop!(self.expect(TokenKind::OpenBracket), name, table);
        let from = self.start();
        let predicate = or_drop!(self.name(), name, table);
        or_drop!(self.expect(TokenKind::OpenBracket), name, table, predicate);
        let args = or_drop!(self.args(alloc), name, table, predicate);
        or_drop!(
            self.expect(TokenKind::CloseBracket),
            name,
            table,
            predicate,
            args
        );
        let at = self.since(from);
        or_drop!(
            self.expect(TokenKind::CloseBracket),
            name,
            table,
            predicate,
            args
        );
        Ok(Statement::CreateRankIndex {
            name,
            table,
            predicate,
            args,
            at,
        })
    }

    /// `DECLARE name CURSOR FOR select`
    fn declare(&mut self, alloc: Global) -> Result<Statement, ParserFault>
        ensures { Reads (Use declare) declare_of command_of self.old self.new result }
    {
        self.expect(TokenKind::Declare)?;
        let name = self.name()?;
        or_drop!(self.expect(TokenKind::Cursor), name);
        or_drop!(self.expect(TokenKind::For), name);
        let select = or_drop!(self.select(alloc), name);
        Ok(Statement::Declare { name, select })
    }

    /// `FETCH number FROM name`
    fn fetch(&mut self) -> Result<Statement, ParserFault>
        ensures { Reads (Use fetch) fetch_of command_of self.old self.new result }
    {
        self.expect(TokenKind::Fetch)?;
        let count = self.number()?;
        self.expect(TokenKind::From)?;
        let name = self.name()?;
        Ok(Statement::Fetch { count, name })
    }

    /// `CLOSE name`
    fn close(&mut self) -> Result<Statement, ParserFault>
        ensures { Reads (Use close) close_of command_of self.old self.new result }
    {
        self.expect(TokenKind::Close)?;
        let name = self.name()?;
        Ok(Statement::Close { name })
    }

    /// `EXPLAIN [ ANALYZE ] select`
    fn explain(&mut self, alloc: Global) -> Result<Statement, ParserFault>
        ensures { Reads (Use explain) explain_of command_of self.old self.new result }
    {
        self.expect(TokenKind::Explain)?;
        let is_analyze = self.accept(TokenKind::Analyze)?;
        let select = self.select(alloc)?;
        Ok(if is_analyze {
            Statement::ExplainAnalyze(select)
        } else {
            Statement::Explain(select)
        })
    }
}

/// The words that begin a statement.
const STATEMENTS: [TokenKind; 7] = [
    TokenKind::Close,
    TokenKind::Create,
    TokenKind::Declare,
    TokenKind::Explain,
    TokenKind::Fetch,
    TokenKind::Insert,
    TokenKind::Select,
];
