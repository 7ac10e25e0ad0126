//! Queries: blocks, what puts two of them together, and the order of their rows.
ghost use Rattle.std.specs.Prelude.{option_map};
ghost use Rattle.rs_grammar.specs.Grammar.{Many, Use, block, colref, entries, entry, expr, items, name as name_part, optional, select, set_operator, word, ◌⨟◌};
ghost use Rattle.rs_grammar.specs.declared.kind.TokenKind.TheVariants.{As, Comma, Number, Where};
ghost use Rattle.rs_grammar.specs.declared.kind.TokenKind.{TokenKind};
ghost use Rattle.rs_syntax.specs.Reads.{Reads};
ghost use Rattle.rs_syntax.specs.Statements.{alias_of, block_of, entries_of, entry_of, filter_of, limit_of, right_of, select_items_of, select_of, set_operator_of};
ghost use Rattle.rs_syntax.specs.Syntax as syntax;
ghost use Rattle.rs_syntax.specs.Syntax.{expression_of, query_of};
ghost use Rattle.rs_syntax.specs.Trees.{colref_of, if_there, listed};

use crate::name::{ColRef, Name};
use crate::node::Node;
use crate::parser::{Parser, ParserFault};
use crate::select::{BlockSyn, Items, Select};
use rs_grammar::TokenKind;
use rs_lex::Span;
use rs_value::{List, SetOp};
use std::alloc::Global;

impl Parser {
    /// `block [ set_operator block ] ORDER BY terms [ DESC ] [ LIMIT number ]`
    pub fn select(&mut self, alloc: Global) -> Result<Select, ParserFault>
        ensures { Reads (Use select) select_of query_of self.old self.new result }
    {
        let left = self.block(alloc)?;
        let right = or_drop!(self.right(alloc), left);
        let (terms, limit) = or_drop!(self.order(alloc), left, right);
        Ok(Select {
            left,
            right,
            terms,
            limit,
        })
    }

    /// `[ set_operator block ]`
    fn right(&mut self, alloc: Global) -> Result<Option<(SetOp, BlockSyn)>, ParserFault>
        ensures { Reads (optional (Use set_operator ⨟ Use block)) (if_there right_of) (λ r. option_map syntax.right_of r) self.old self.new result }
    {
        if !self.at_any(&[TokenKind::Except, TokenKind::Intersect, TokenKind::Union]) {
            return Ok(None);
        }
        let operator = self.set_operator()?;
        let block = self.block(alloc)?;
        Ok(Some((operator, block)))
    }

    /// `UNION [ ALL ] | INTERSECT | EXCEPT`
    fn set_operator(&mut self) -> Result<SetOp, ParserFault>
        ensures { Reads (Use set_operator) set_operator_of (λ o. o) self.old self.new result }
    {
        if self.at(TokenKind::Union) {
            self.expect(TokenKind::Union)?;
            let is_all = self.accept(TokenKind::All)?;
            return Ok(if is_all {
                SetOp::UnionAll
            } else {
                SetOp::Union
            });
        }
        if self.at(TokenKind::Intersect) {
            self.expect(TokenKind::Intersect)?;
            return Ok(SetOp::Intersect);
        }
        self.expect(TokenKind::Except)?;
        Ok(SetOp::Except)
    }

    /// A word and a number, where the word stands there: `[ LIMIT number ]` or `[ COST number ]`.
    pub fn numbered(&mut self, kind: TokenKind) -> Result<Option<(i64, Span)>, ParserFault>
        ensures { Reads (optional (word kind ⨟ word Number)) (if_there limit_of) (λ n. n) self.old self.new result }
    {
        if !self.at(kind) {
            return Ok(None);
        }
        self.expect(kind)?;
        let number = self.number()?;
        Ok(Some(number))
    }

    /// `SELECT [ DISTINCT ] items FROM entries [ WHERE expr ]`
    fn block(&mut self, alloc: Global) -> Result<BlockSyn, ParserFault>
        ensures { Reads (Use block) block_of syntax.block_of self.old self.new result }
    {
        self.expect(TokenKind::Select)?;
        let distinct = self.accept(TokenKind::Distinct)?;
        let items = self.items(alloc)?;
        or_drop!(self.expect(TokenKind::From), items);
        let from = or_drop!(self.entries(alloc), items);
        let filter = or_drop!(self.filter(alloc), items, from);
        Ok(BlockSyn {
            distinct,
            items,
            from,
            filter,
        })
    }

    /// `[ WHERE expr ]`
    fn filter(&mut self, alloc: Global) -> Result<Option<Node>, ParserFault>
        ensures { Reads (optional (word Where ⨟ Use expr)) (if_there filter_of) (λ f. option_map expression_of f) self.old self.new result }
    {
        if !self.at(TokenKind::Where) {
            return Ok(None);
        }
        self.expect(TokenKind::Where)?;
        let filter = self.expr(alloc)?;
        Ok(Some(filter))
    }

    /// `"*" | colref { "," colref }`
    fn items(&mut self, alloc: Global) -> Result<Items, ParserFault>
        ensures { Reads (Use items) select_items_of (λ i. i) self.old self.new result }
    {
        if self.at(TokenKind::Star) {
            let at = self.expect(TokenKind::Star)?;
            return Ok(Items::Star(at));
        }
        let columns = self.colrefs(alloc)?;
        Ok(Items::List(columns))
    }

    /// `colref { "," colref }`
    fn colrefs(&mut self, alloc: Global) -> Result<List<ColRef>, ParserFault>
        ensures { Reads (Use colref ⨟ Many (word Comma ⨟ Use colref)) (listed colref_of) (λ c. c) self.old self.new result }
    {
        let mut columns = Vec::new(alloc);
        columns.push(self.colref()?)?;
        while self.at(TokenKind::Comma) {
            self.expect(TokenKind::Comma)?;
            columns.push(self.colref()?)?;
        }
        Ok(List::of(columns))
    }

    /// `entry { "," entry }`
    fn entries(&mut self, alloc: Global) -> Result<List<(Name, Option<Name>)>, ParserFault>
        ensures { Reads (Use entries) entries_of (λ e. e) self.old self.new result }
    {
        let mut entries = Vec::new(alloc);
        entries.push(self.entry()?)?;
        while self.at(TokenKind::Comma) {
            self.expect(TokenKind::Comma)?;
            entries.push(self.entry()?)?;
        }
        Ok(List::of(entries))
    }

    /// `name [ [ AS ] name ]`
    fn entry(&mut self) -> Result<(Name, Option<Name>), ParserFault>
        ensures { Reads (Use entry) entry_of (λ e. e) self.old self.new result }
    {
        let table = self.name()?;
        let alias = self.alias()?;
        Ok((table, alias))
    }

    /// `[ [ AS ] name ]`
    fn alias(&mut self) -> Result<Option<Name>, ParserFault>
        ensures { Reads (optional (optional (word As) ⨟ name_part)) (if_there alias_of) (λ a. a) self.old self.new result }
    {
        if !self.at(TokenKind::As) && !self.at_name() {
            return Ok(None);
        }
        let _ = self.accept(TokenKind::As)?;
        let alias = self.name()?;
        Ok(Some(alias))
    }
}
