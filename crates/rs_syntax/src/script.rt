ghost use Rattle.std.specs.Prelude.{◌≡◌, ◌⊎◌, ◌≤◌, Err, IfOk, IfErr, List, MatchResult, [], drop, length, take, ℕ};
ghost use Rattle.rs_grammar.specs.Places.{IsWithinStatements};
ghost use Rattle.rs_lex.specs.Spelling.{Spells};
ghost use Rattle.rs_lex.specs.declared.token.Token.{Token};
ghost use Rattle.rs_syntax.specs.Cut.{EndsLast, refusal_of};
ghost use Rattle.rs_syntax.specs.Scripts.{IsSound, Parses, Refuses};
ghost use Rattle.rs_syntax.specs.Spans.{SpansInOrder};
ghost use Rattle.rs_syntax.specs.Syntax.{Command, commands_of};
ghost use Rattle.rs_syntax.specs.Written.{AreWritten, HasFewRows};
ghost use Rattle.std.specs.List.{AllByRecursion};
ghost use Rattle.rs_syntax.specs.declared.fault.SyntaxFault.{SyntaxFault};

use crate::fault::SyntaxFault;
use crate::parser::{Parser, ParserFault};
use crate::statement::Statement;
use rs_grammar::{Lexeme, TokenKind, lexemes};
use rs_lex::Token;
use rs_value::Text;
use std::alloc::Global;

/// The statements that the tokens of a script parse to, all of them, in their order, with all places, weights, costs
/// and groupings. Tokens parse to one list at most: that is answered where nothing is wrong with them, and else the
/// first thing that is wrong. A table has a column, a predicate a parameter, a block a FROM entry, an INSERT a row and
/// a row a cell, and numbers in expressions and among arguments and cells are in range.
///
/// # Errors
///
/// - `Expected`: exactly where the first thing wrong is a token, or the end, with which the tokens in front of it are the
///   beginning of no script, unless it is a word that isn't part of this language.
/// - `NotInProfile`: exactly where it is such a word.
/// - `TooDeep`: exactly where it is the 257th token of a statement that counts towards its depth.
/// - `TooManyStatements`: exactly where it is a token behind the `;` that ends statement 1,000.
/// - `Memory`: at any call, in place of each answer.
pub fn parse(alloc: Global, script: &Text, tokens: &[Token]) -> Result<Vec<Statement>, SyntaxFault>
    requires spelled { Spells 0 script.now tokens.now }
    requires small { length script.now ≤ 1048576 }
    // What is answered is what the tokens parse to, and nothing is wrong with them.
    ensures found { IfOk result (λ made. Parses script.now tokens.now (commands_of made.items)) }
    ensures sound { IfOk result (λ _. IsSound script.now tokens.now) }
    // Each span lies in the script, within that of what it is a part of, and those of its parts stand in order.
    ensures ordered { IfOk result (λ made. SpansInOrder 0 (length script.now) (commands_of made.items)) }
    // A table has a column, a predicate a parameter, a block a FROM entry, an INSERT a row and each row a cell, and numbers
    // in expressions and among arguments and cells are in range.
    ensures written { IfOk result (λ made. AreWritten (commands_of made.items)) }
    // Whatever the tokens parse to, where nothing is wrong with them, is answered: the grammar gives one list at most.
    ensures only { (commands : List Command) → Parses script.now tokens.now commands → IsSound script.now tokens.now
        → MatchResult result (λ made. commands_of made.items ≡ commands) (λ fault. fault ≡ SyntaxFault.Memory) }
    // A fault tells the first place at which something is wrong, and what is wrong there is told.
    ensures refused { IfErr result (λ fault. (fault ≡ SyntaxFault.Memory) ⊎ Refuses script.now tokens.now fault) }
    ensures exact { (fault : SyntaxFault) → Refuses script.now tokens.now fault → (result ≡ Err fault) ⊎ (result ≡ Err SyntaxFault.Memory) }
{
    let Ok(mut lexemes) = lexemes(alloc, script, tokens) else {
        return Err(SyntaxFault::Memory);
    };
    let end = statements_end(&lexemes);
    lexemes.truncate(end);
    let more = &tokens[end..];
    let mut parser = Parser::new(lexemes);
    let statements = match parser.script(alloc) {
        Ok(statements) => statements,
        Err(ParserFault::Expected) => return Err(refusal(&parser, more, script, false)),
        Err(ParserFault::TooDeep) => return Err(refusal(&parser, more, script, true)),
        Err(ParserFault::Memory) => return Err(SyntaxFault::Memory),
    };
    if !parser.is_done() {
        return Err(refusal(&parser, more, script, false));
    }
    if !more.is_empty() {
        return Err(refusal(&parser, more, script, false));
    }
    Ok(statements)
}

/// The most statements of a script.
const MOST_STATEMENTS: u32 = 1000;

/// How many lexemes stand up to and with the `;` that ends the last statement that a script may have.
fn statements_end(lexemes: &[Lexeme]) -> usize
    ensures within { result ≤ length lexemes.now }
    ensures few { IsWithinStatements (take result lexemes.now) }
    ensures cut { (drop result lexemes.now ≡ []) ⊎ EndsLast (take result lexemes.now) }
{
    let mut ended = 0;
    for (index, lexeme) in lexemes.iter().enumerate() {
        if lexeme.kind.is(TokenKind::Semicolon) {
            ended += 1;
            if ended == MOST_STATEMENTS {
                return index + 1;
            }
        }
    }
    lexemes.len()
}

/// What is told where the parser can't go on: at its next lexeme, or where there is none, at the next token behind
/// the last statement that a script may have, or at the end of the script.
fn refusal(parser: &Parser, more: &[Token], script: &Text, is_too_deep: bool) -> SyntaxFault
    requires { length script.now ≤ 1048576 }
    ensures { result ≡ refusal_of parser.now.rest more.now (length script.now) is_too_deep }
{
    let Some(lexeme) = parser.next() else {
        return match more.first() {
            Some(token) => SyntaxFault::TooManyStatements { at: token.at.start },
            None => SyntaxFault::Expected {
                at: script.bytes().len() as u32,
            },
        };
    };
    let at = lexeme.at.start;
    if is_too_deep {
        SyntaxFault::TooDeep { at }
    } else if lexeme.kind.is(TokenKind::Foreign) {
        SyntaxFault::NotInProfile { at }
    } else {
        SyntaxFault::Expected { at }
    }
}

/// The tokens of a script parse to one list of statements at most, whatever their number and depth.
pub fn one_list_of_statements()
    ensures { (text : List ℕ) (tokens : List Token) (a b : List Command) → Parses text tokens a → Parses text tokens b → a ≡ b }
{}

/// The tokens of a script are refused with one fault at most, and not where nothing is wrong with them.
pub fn one_refusal()
    ensures one { (text : List ℕ) (tokens : List Token) (a b : SyntaxFault) → Refuses text tokens a → Refuses text tokens b → a ≡ b }
    ensures sound { (text : List ℕ) (tokens : List Token) (a : SyntaxFault) → IsSound text tokens → Refuses text tokens a → ⊥ }
{}

/// Where nothing is wrong with the tokens of a script, each INSERT that they parse to has at most 256 rows: the bracket of
/// each row counts towards the depth.
pub fn rows_are_few()
    ensures { (text : List ℕ) (tokens : List Token) (commands : List Command) → Parses text tokens commands → IsSound text tokens
        → AllByRecursion HasFewRows commands }
{}

/// Tokens parse to statements, and nothing is wrong with them, or they are refused.
pub fn each_list_of_tokens_parses_or_is_refused()
    ensures { (text : List ℕ) (tokens : List Token) → ((commands : List Command) × Parses text tokens commands × IsSound text tokens)
        ⊎ ((fault : SyntaxFault) × Refuses text tokens fault) }
{}
