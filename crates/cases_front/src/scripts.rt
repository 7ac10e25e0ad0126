//! What is asked of scripts: their tokens and their lexemes.

ghost use Rattle.std.specs.Prelude.{◌≤◌, IfOk, length};
ghost use Rattle.rs_grammar.specs.Lexemes.{IsFront};

use cases_lines::Fault;
use rs_grammar::{Lexeme, lexemes};
use rs_lex::{LexFault, MOST_BYTES, Token, tokens};
use rs_value::Text;
use std::alloc::{AllocError, Global};

/// What is asked of a script.
#[derive(Clone, Copy)]
pub enum Asked {
    Tokens,
    /// How many tokens there are.
    Count,
    Lexemes,
}

/// What is asked of the script of these bytes, or why it is refused.
pub fn tell_script(alloc: Global, asked: Asked, file: &[u8]) -> Result<String, Fault> {
    let script = script_of(alloc, file)?;
    match tokens(alloc, &script) {
        Ok(tokens) => tell_asked(alloc, asked, &script, &tokens),
        Err(LexFault::Memory) => Err(Fault::Memory),
        Err(fault) => Ok(format!(in alloc; "{fault:?}")?),
    }
}

/// The script of these bytes.
pub fn script_of(alloc: Global, file: &[u8]) -> Result<Text, Fault>
    ensures { IfOk result (λ script. length script ≤ 1048576) }
{
    if file.len() > MOST_BYTES {
        return Err(Fault::Form);
    }
    Ok(Text::from_bytes(alloc, file)?)
}

fn tell_asked(alloc: Global, asked: Asked, script: &Text, tokens: &[Token]) -> Result<String, Fault>
    requires { IsFront script.now tokens.now }
{
    match asked {
        Asked::Tokens => tell_tokens(alloc, tokens),
        Asked::Count => {
            let count = tokens.len();
            Ok(format!(in alloc; "{count}")?)
        }
        Asked::Lexemes => tell_lexemes(alloc, script, tokens),
    }
}

/// The sort of each token, its start and its end.
fn tell_tokens(alloc: Global, tokens: &[Token]) -> Result<String, Fault> {
    let mut told = String::from_str(alloc, "tokens")?;
    for token in tokens {
        tell_token(token, &mut told)?;
    }
    Ok(told)
}

fn tell_token(token: &Token, told: &mut String) -> Result<(), AllocError> {
    let sort = token.sort;
    let start = token.at.start;
    let end = token.at.end;
    write!(told, " {sort:?} {start}-{end}")
}

/// The kind of each lexeme, its text between `'`, and its number.
fn tell_lexemes(alloc: Global, script: &Text, tokens: &[Token]) -> Result<String, Fault>
    requires { IsFront script.now tokens.now }
{
    let lexemes = lexemes(alloc, script, tokens)?;
    told_lexemes(alloc, &lexemes)
}

fn told_lexemes(alloc: Global, lexemes: &[Lexeme]) -> Result<String, Fault> {
    let mut told = String::from_str(alloc, "lexemes")?;
    for lexeme in lexemes {
        tell_lexeme(lexeme, &mut told)?;
    }
    Ok(told)
}

fn tell_lexeme(lexeme: &Lexeme, told: &mut String) -> Result<(), AllocError> {
    let kind = lexeme.kind;
    let text = lexeme.text.as_str();
    let number = lexeme.number;
    write!(told, " {kind:?}'{text}'{number}")
}
