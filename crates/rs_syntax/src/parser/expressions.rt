//! Expressions, one function a rule, but for the four rules of operators that group to the left, which share one. Every
//! recursion stands behind a token that counts towards the depth, so that the depth bounds the stack; chains of
//! operators are read by loops.
ghost use Rattle.std.specs.Prelude.{◌≡◌, [], ◌∷◌, false};
ghost use Rattle.rs_grammar.specs.Grammar.{One, Use, absolute, base, brackets, comp, expr, extreme, name as name_part, neg, optional, plain, sign, word, ◌∣◌, ◌⨟◌};
ghost use Rattle.rs_grammar.specs.Reading.{next_is};
ghost use Rattle.rs_grammar.specs.declared.kind.TokenKind.TheVariants.{Abs, Case, Dot, Max, Min, OpenBracket};
ghost use Rattle.rs_syntax.specs.Expressions.{absolute_of, base_of, brackets_of, column_in, comp_of, expr_of, extreme_in, neg_of, sign_of};
ghost use Rattle.rs_syntax.specs.Levels.{chain_of, operand_of, operand_rule, rule_at};
ghost use Rattle.rs_syntax.specs.Operands.{first_expr_of, word_of};
ghost use Rattle.rs_syntax.specs.Reads.{Reads};
ghost use Rattle.rs_syntax.specs.Syntax.{expression_of};

use crate::name::{ColRef, Name};
use crate::node::Node;
use crate::parser::nodes::{abs, compare, extreme, join, neg, not};
use crate::parser::operators::{COMPARISONS, Level};
use crate::parser::{Parser, ParserFault};
use rs_grammar::{Lexeme, TokenKind};
use rs_lex::Span;
use std::alloc::Global;

/// What a word is that is a function's name where a bracket stands behind it.
#[derive(Drop)]
enum Word {
    Column(ColRef),
    /// A function, and where its name starts.
    Function(TokenKind, u32),
}

impl Parser {
    /// `conj { OR conj }`
    pub fn expr(&mut self, alloc: Global) -> Result<Node, ParserFault>
        ensures { Reads (Use expr) expr_of expression_of self.old self.new result }
    {
        self.chain(alloc, Level::Or)
    }

    /// What the operators of a level join: `conj { OR conj }`, `neg { AND neg }`, `prod { ( "+" | "-" ) prod }` or
    /// `sign { ( "*" | "/" ) sign }`.
    #[cycle(expr)]
    pub fn chain(&mut self, alloc: Global, level: Level) -> Result<Node, ParserFault>
        ensures { Reads (Use (rule_at level)) (chain_of level) expression_of self.old self.new result }
    {
        let from = self.start();
        let mut node = self.operand(alloc, level)?;
        'more: while self.at_operator(level) {
            let operator = or_drop!(self.operator(level), node);
            let right = or_drop!(self.operand(alloc, level), node);
            let at = self.since(from);
            node = join(alloc, operator, node, right, at)?;
        }
        Ok(node)
    }

    /// What stands at each side of an operator of a level: `conj`, `neg`, `prod` or `sign`.
    #[cycle(expr)]
    fn operand(&mut self, alloc: Global, level: Level) -> Result<Node, ParserFault>
        ensures { Reads (Use (operand_rule level)) (operand_of level) expression_of self.old self.new result }
    {
        match level {
            Level::Or => self.chain(alloc, Level::And),
            Level::And => self.neg(alloc),
            Level::Sum => self.chain(alloc, Level::Product),
            Level::Product => self.sign(alloc),
        }
    }

    /// `NOT neg | comp`
    #[cycle(expr)]
    fn neg(&mut self, alloc: Global) -> Result<Node, ParserFault>
        ensures { Reads (Use neg) neg_of expression_of self.old self.new result }
    {
        if !self.at(TokenKind::Not) {
            return self.comp(alloc);
        }
        let from = self.start();
        self.expect(TokenKind::Not)?;
        let part = self.neg(alloc)?;
        let at = self.since(from);
        not(alloc, part, at)
    }

    /// `sum [ comparison sum ]`
    #[cycle(expr)]
    fn comp(&mut self, alloc: Global) -> Result<Node, ParserFault>
        ensures { Reads (Use comp) comp_of expression_of self.old self.new result }
    {
        let from = self.start();
        let left = self.chain(alloc, Level::Sum)?;
        if !self.at_any(&COMPARISONS) {
            return Ok(left);
        }
        let rel = or_drop!(self.comparison(), left);
        let right = or_drop!(self.chain(alloc, Level::Sum), left);
        let at = self.since(from);
        compare(alloc, rel, left, right, at)
    }

    /// `"-" sign | base`
    #[cycle(expr)]
    fn sign(&mut self, alloc: Global) -> Result<Node, ParserFault>
        ensures { Reads (Use sign) sign_of expression_of self.old self.new result }
    {
        if !self.at(TokenKind::Minus) {
            return self.base(alloc);
        }
        let from = self.start();
        self.expect(TokenKind::Minus)?;
        let part = self.sign(alloc)?;
        let at = self.since(from);
        neg(alloc, part, at)
    }

    /// `number | literal | plain | absolute | extreme | brackets | case`
    #[cycle(expr)]
    fn base(&mut self, alloc: Global) -> Result<Node, ParserFault>
        ensures { Reads (Use base) base_of expression_of self.old self.new result }
    {
        if self.at(TokenKind::Abs) {
            return self.absolute(alloc);
        }
        if self.at_any(&[TokenKind::Max, TokenKind::Min]) {
            return self.extreme(alloc);
        }
        if self.at(TokenKind::OpenBracket) {
            return self.brackets(alloc);
        }
        if self.at(TokenKind::Case) {
            return self.case(alloc);
        }
        self.simple()
    }

    /// `number | literal | plain`, where none of the other operands begins.
    fn simple(&mut self) -> Result<Node, ParserFault>
        requires absolute { next_is (Abs ∷ []) self.old.rest ≡ false }
        requires extreme { next_is (Max ∷ Min ∷ []) self.old.rest ≡ false }
        requires brackets { next_is (OpenBracket ∷ []) self.old.rest ≡ false }
        requires case { next_is (Case ∷ []) self.old.rest ≡ false }
        ensures { Reads (Use base) base_of expression_of self.old self.new result }
    {
        if self.at(TokenKind::Number) {
            let (number, at) = self.number()?;
            return Ok(Node::Int(number, at));
        }
        if self.at(TokenKind::Literal) {
            let (text, at) = self.literal()?;
            return Ok(Node::Text(text, at));
        }
        if self.at_plain_name() {
            let column = self.plain()?;
            return Ok(Node::Column(column));
        }
        Err(ParserFault::Expected)
    }

    /// A column whose name is no function's: `name [ "." name ]`.
    fn plain(&mut self) -> Result<ColRef, ParserFault>
        ensures { Reads (Use plain) column_in (λ c. c) self.old self.new result }
    {
        let first = self.plain_name()?;
        self.qualify(first)
    }

    /// `ABS "(" expr ")"`, or the column `abs`.
    #[cycle(expr)]
    fn absolute(&mut self, alloc: Global) -> Result<Node, ParserFault>
        ensures { Reads (Use absolute) absolute_of expression_of self.old self.new result }
    {
        let word = self.word(&[TokenKind::Abs])?;
        match word {
            Word::Column(column) => Ok(Node::Column(column)),
            Word::Function(_, from) => {
                let part = self.expr_before(alloc, TokenKind::CloseBracket)?;
                let at = self.since(from);
                abs(alloc, part, at)
            }
        }
    }

    /// `( MIN | MAX ) "(" expr "," expr ")"`, or the column `min` or `max`.
    #[cycle(expr)]
    fn extreme(&mut self, alloc: Global) -> Result<Node, ParserFault>
        ensures { Reads (Use extreme) extreme_in expression_of self.old self.new result }
    {
        let word = self.word(&[TokenKind::Min, TokenKind::Max])?;
        match word {
            Word::Column(column) => Ok(Node::Column(column)),
            Word::Function(kind, from) => {
                let first = self.expr_before(alloc, TokenKind::Comma)?;
                let second = or_drop!(self.expr_before(alloc, TokenKind::CloseBracket), first);
                let at = self.since(from);
                extreme(alloc, kind, first, second, at)
            }
        }
    }

    /// `"(" expr ")"`
    #[cycle(expr)]
    fn brackets(&mut self, alloc: Global) -> Result<Node, ParserFault>
        ensures { Reads (Use brackets) brackets_of expression_of self.old self.new result }
    {
        self.expect(TokenKind::OpenBracket)?;
        self.expr_before(alloc, TokenKind::CloseBracket)
    }

    /// An expression, and a token of this kind behind it.
    #[cycle(expr)]
    pub(crate) fn expr_before(
        &mut self,
        alloc: Global,
        kind: TokenKind,
    ) -> Result<Node, ParserFault>
        ensures { Reads (Use expr ⨟ word kind) first_expr_of expression_of self.old self.new result }
    {
        let node = self.chain(alloc, Level::Or)?;
        or_drop!(self.expect(kind), node);
        Ok(node)
    }

    /// A word that is a function's name, and the bracket behind it, or a column that is called so.
    fn word(&mut self, kinds: &[TokenKind]) -> Result<Word, ParserFault>
        ensures { Reads (One kinds.now ⨟ (word OpenBracket ∣ optional (word Dot ⨟ name_part))) word_of (λ w. w) self.old self.new result }
    {
        let accepted = self.at_any(kinds);
        let Lexeme { kind, text, at, .. } = self.take(accepted)?;
        if self.at(TokenKind::OpenBracket) {
            drop(text);
            self.expect(TokenKind::OpenBracket)?;
            return Ok(Word::Function(kind, at.start));
        }
        let column = self.qualify(Name { text, at })?;
        Ok(Word::Column(column))
    }
}
