ghost use Rattle.std.specs.Prelude.{◌≡◌, IfOk, IsUtf8, Some, map};
ghost use Rattle.rs_value.specs.Number.{decimal_value, greatest_int, number_of};
ghost use Rattle.rs_lex.specs.declared.token.Sort.{Sort};
ghost use Rattle.rs_grammar.specs.Lexemes.{IsFront, IsTokenOf, between, token_kind, lexeme_of, token_text, undoubled, value_of};

use crate::kind::TokenKind;
use rs_lex::{Sort, Span, Token};
use rs_value::{GREATEST_INT, Memory, Text, TextFault, decimal_of};
use std::alloc::Global;

/// A token as the grammar sees it.
#[derive(Debug, Drop)]
pub struct Lexeme {
    pub kind: TokenKind,
    /// What a name or a text says; empty for each other token.
    pub text: Text,
    /// The value of a number; 0 for each other token.
    pub number: i64,
    pub at: Span,
}

/// The kind of a token of this sort.
fn kind_of(sort: Sort, bytes: &[u8]) -> TokenKind
    ensures { result ≡ token_kind sort bytes.now }
{
    match sort {
        Sort::Word => TokenKind::of_word(bytes),
        Sort::Quoted => TokenKind::Name,
        Sort::Number => TokenKind::Number,
        Sort::Literal => TokenKind::Literal,
        Sort::Symbol => TokenKind::of_symbol(bytes),
    }
}

/// The text of these bytes, which are UTF-8.
fn copy(alloc: Global, bytes: &[u8]) -> Result<Text, Memory>
    requires { IsUtf8 bytes.now }
    ensures { IfOk result (λ text. text ≡ bytes.now) }
{
    match Text::from_bytes(alloc, bytes) {
        Ok(text) => Ok(text),
        Err(TextFault::Memory) => Err(Memory),
        Err(TextFault::NotUtf8 { .. }) => unreachable!(),
    }
}

/// The bytes between the marks at both ends.
fn between(bytes: &[u8]) -> &[u8]
    ensures { result.now ≡ between bytes.now }
{
    match bytes {
        [_, inner @ .., _] => inner,
        _ => &[],
    }
}

/// The text of these bytes with each doubled mark made one.
fn undouble(alloc: Global, mark: u8, mut bytes: &[u8]) -> Result<Text, Memory>
    requires { IsUtf8 (undoubled mark bytes.now) }
    ensures { IfOk result (λ text. text ≡ undoubled mark bytes.entry.now) }
{
    let mut made = Vec::new(alloc);
    while let [byte, rest @ ..] = bytes {
        made.push(*byte)?;
        bytes = match rest {
            [next, after @ ..] if *byte == mark && *next == mark => after,
            _ => rest,
        };
    }
    copy(alloc, &made)
}

/// What a name or a text says, of a token of this sort and kind.
fn text_of(alloc: Global, sort: Sort, kind: TokenKind, bytes: &[u8]) -> Result<Text, Memory>
    requires kind { kind ≡ token_kind sort bytes.now }
    requires utf8 { IsUtf8 (token_text sort bytes.now) }
    ensures { IfOk result (λ text. text ≡ token_text sort bytes.now) }
{
    match sort {
        Sort::Word if kind.is_name() => copy(alloc, bytes),
        Sort::Quoted => undouble(alloc, b'"', between(bytes)),
        Sort::Literal => undouble(alloc, b'\'', between(bytes)),
        Sort::Word | Sort::Number | Sort::Symbol => copy(alloc, b""),
    }
}

/// The value of a number, and 0 of another token.
fn value_of(sort: Sort, bytes: &[u8]) -> i64
    requires { sort ≡ Sort.Number → decimal_value greatest_int bytes.now ≡ Some (number_of bytes.now) }
    ensures { result ≡ value_of sort bytes.now }
{
    match sort {
        Sort::Number => match decimal_of(bytes, GREATEST_INT) {
            Some(number) => number as i64,
            None => unreachable!(),
        },
        Sort::Word | Sort::Quoted | Sort::Literal | Sort::Symbol => 0,
    }
}

/// What a token of the script is to the grammar.
fn lexeme_of(alloc: Global, script: &[u8], token: Token) -> Result<Lexeme, Memory>
    requires utf8 { IsUtf8 script.now }
    requires token { IsTokenOf script.now token }
    ensures { IfOk result (λ lexeme. lexeme ≡ lexeme_of script.now token) }
{
    let bytes = &script[token.at.start as usize..token.at.end as usize];
    let kind = kind_of(token.sort, bytes);
    Ok(Lexeme {
        kind,
        text: text_of(alloc, token.sort, kind, bytes)?,
        number: value_of(token.sort, bytes),
        at: token.at,
    })
}

/// What the tokens of a script are to the grammar, or the first ones of them. It takes time linear in the script's
/// length. Each has its kind, the text that a name or a text says, the value of a number, and its place.
///
/// # Errors
///
/// - `Memory`: at any call.
pub fn lexemes(alloc: Global, script: &Text, tokens: &[Token]) -> Result<Vec<Lexeme>, Memory>
    requires { IsFront script.now tokens.now }
    ensures { IfOk result (λ made. made.items ≡ map (lexeme_of script.now) tokens.now) }
{
    let bytes = script.bytes();
    let mut made = Vec::new(alloc);
    for token in tokens {
        made.push(lexeme_of(alloc, bytes, *token)?)?;
    }
    Ok(made)
}
