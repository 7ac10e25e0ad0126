ghost use Rattle.std.specs.Prelude.{◌≡◌, [], ◌∷◌, Bool, List, IfOk, IsTrue, MatchOption, false, true, ◌↔◌};
ghost use Rattle.rs_grammar.specs.Grammar.{One, name as name_part, optional, start_of, word};
ghost use Rattle.rs_grammar.specs.Kinds.{names, plain_names};
ghost use Rattle.rs_grammar.specs.Reading.{is_too_deep, left_behind, next_is};
ghost use Rattle.rs_grammar.specs.declared.kind.TokenKind.{TokenKind};
ghost use Rattle.rs_grammar.specs.declared.lexeme.Lexeme.{Lexeme};
ghost use Rattle.rs_grammar.specs.declared.kind.TokenKind.TheVariants.{Literal, Number};
ghost use Rattle.rs_syntax.specs.Numbers.{IsNumber};
ghost use Rattle.rs_syntax.specs.Reads.{Reads};
ghost use Rattle.rs_syntax.specs.Trees.{span, is_there, kind_at, leaf, leaf_name, leaf_number, leaf_span, leaf_text};

use crate::name::Name;
use crate::parser::{Parser, ParserFault};
use rs_grammar::{Lexeme, TokenKind};
use rs_lex::Span;
use rs_value::Text;

/// The most tokens of a statement that count towards its depth.
pub(crate) const MOST_DEEP: u32 = 256;

/// How many tokens that count towards the depth may still come behind a token of this kind, where this many may
/// from it on; `None` where it is one too many.
fn left_behind(kind: TokenKind, left: u32) -> Option<u32>
    ensures { MatchOption result (is_too_deep kind left ≡ true) (λ n. (is_too_deep kind left ≡ false) × (n ≡ left_behind kind left)) }
{
    if kind.is(TokenKind::Semicolon) {
        return Some(MOST_DEEP);
    }
    if !kind.is_counted() {
        return Some(left);
    }
    left.checked_sub(1)
}

impl Parser {
    /// Whether the next token is of this kind.
    pub fn at(&self, kind: TokenKind) -> bool
        ensures { result ≡ next_is (kind ∷ []) self.now.rest }
    {
        match self.reversed.last() {
            Some(lexeme) => lexeme.kind.is(kind),
            None => false,
        }
    }

    /// Whether the next token is of one of these kinds.
    pub(crate) fn at_any(&self, kinds: &[TokenKind]) -> bool
        ensures { result ≡ next_is kinds.now self.now.rest }
    {
        match self.reversed.last() {
            Some(lexeme) => lexeme.kind.is_any(kinds),
            None => false,
        }
    }

    /// Whether the next token may be a name.
    pub(crate) fn at_name(&self) -> bool
        ensures { result ≡ next_is names self.now.rest }
    {
        match self.reversed.last() {
            Some(lexeme) => lexeme.kind.is_name(),
            None => false,
        }
    }

    /// Whether the next token may be a name that is no function's.
    pub(crate) fn at_plain_name(&self) -> bool
        ensures { result ≡ next_is plain_names self.now.rest }
    {
        match self.reversed.last() {
            Some(lexeme) => lexeme.kind.is_plain_name(),
            None => false,
        }
    }

    /// The next token.
    pub fn next(&self) -> Option<&Lexeme>
        ensures { MatchOption result (self.now.rest ≡ []) (λ l. (rest : List Lexeme) × (self.now.rest ≡ l.now ∷ rest)) }
    {
        self.reversed.last()
    }

    /// Whether no token is left.
    pub(crate) fn is_done(&self) -> bool
        ensures { IsTrue result ↔ (self.now.rest ≡ []) }
    {
        self.reversed.is_empty()
    }

    /// Where the next token starts.
    pub fn start(&self) -> u32
        ensures { result ≡ start_of self.now.rest }
    {
        match self.reversed.last() {
            Some(lexeme) => lexeme.at.start,
            None => 0,
        }
    }

    /// From a place to where the last token ended.
    pub fn since(&self, from: u32) -> Span
        ensures { result ≡ span from self.now.last }
    {
        Span {
            start: from,
            end: self.last,
        }
    }

    /// Takes the next token, if it is one that may stand there.
    pub fn take(&mut self, accepted: bool) -> Result<Lexeme, ParserFault>
        ensures reads { (kinds : List TokenKind) → accepted ≡ next_is kinds self.old.rest → Reads (One kinds) leaf (λ l. l) self.old self.new result }
        ensures in_range { IfOk result (λ l. IsNumber l.number) }
    {
        if !accepted {
            return Err(ParserFault::Expected);
        }
        let Some(next) = self.reversed.last() else {
            return Err(ParserFault::Expected);
        };
        let Some(left) = left_behind(next.kind, self.left) else {
            return Err(ParserFault::TooDeep);
        };
        let Some(lexeme) = self.reversed.pop() else {
            return Err(ParserFault::Expected);
        };
        self.left = left;
        self.last = lexeme.at.end;
        Ok(lexeme)
    }

    /// Takes a token of this kind, and says where it stands.
    pub(crate) fn expect(&mut self, kind: TokenKind) -> Result<Span, ParserFault>
        ensures { Reads (word kind) leaf_span (λ at. at) self.old self.new result }
    {
        let accepted = self.at(kind);
        let lexeme = self.take(accepted)?;
        Ok(lexeme.at)
    }

    /// Takes a token of this kind if it stands there, and says whether it did.
    pub(crate) fn accept(&mut self, kind: TokenKind) -> Result<bool, ParserFault>
        ensures { Reads (optional (word kind)) is_there (λ there. there) self.old self.new result }
    {
        if !self.at(kind) {
            return Ok(false);
        }
        self.expect(kind)?;
        Ok(true)
    }

    /// Takes a token of one of these kinds.
    pub(crate) fn any_of(&mut self, kinds: &[TokenKind]) -> Result<TokenKind, ParserFault>
        ensures { Reads (One kinds.now) kind_at (λ kind. kind) self.old self.new result }
    {
        let accepted = self.at_any(kinds);
        let lexeme = self.take(accepted)?;
        Ok(lexeme.kind)
    }

    pub fn name(&mut self) -> Result<Name, ParserFault>
        ensures { Reads name_part leaf_name (λ name. name) self.old self.new result }
    {
        let accepted = self.at_name();
        let Lexeme { text, at, .. } = self.take(accepted)?;
        Ok(Name { text, at })
    }

    /// A name that is no function's.
    pub(crate) fn plain_name(&mut self) -> Result<Name, ParserFault>
        ensures { Reads (One plain_names) leaf_name (λ name. name) self.old self.new result }
    {
        let accepted = self.at_plain_name();
        let Lexeme { text, at, .. } = self.take(accepted)?;
        Ok(Name { text, at })
    }

    pub fn number(&mut self) -> Result<(i64, Span), ParserFault>
        ensures reads { Reads (word Number) leaf_number (λ number. number) self.old self.new result }
        ensures in_range { IfOk result (λ number. IsNumber number.0) }
    {
        let accepted = self.at(TokenKind::Number);
        let lexeme = self.take(accepted)?;
        Ok((lexeme.number, lexeme.at))
    }

    pub fn literal(&mut self) -> Result<(Text, Span), ParserFault>
        ensures { Reads (word Literal) leaf_text (λ text. text) self.old self.new result }
    {
        let accepted = self.at(TokenKind::Literal);
        let Lexeme { text, at, .. } = self.take(accepted)?;
        Ok((text, at))
    }
}
