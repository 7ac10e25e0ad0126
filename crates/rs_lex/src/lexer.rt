ghost use Rattle.std.specs.Prelude.{◌≡◌, ◌≤◌, ◌+◌, ◌⊎◌, List, [], Err, Some, drop, length, IfErr, IfOk, MatchOption, MatchResult};
ghost use Rattle.rs_lex.specs.Spelling.{TokensInOrder, IsMore, IsNext, RefusesBytes, Spells, most_tokens, reach, token_or_fault};
ghost use Rattle.rs_lex.specs.declared.fault.LexFault.{LexFault};
ghost use Rattle.rs_lex.specs.declared.token.Token.{Token};

use crate::fault::LexFault;
use crate::front::{Front, front_at};
use crate::token::{Sort, Span, Token};
use rs_value::Text;
use std::alloc::Global;

/// The most tokens of a script.
pub const MOST_TOKENS: usize = 100_000;

/// The most bytes of a script.
pub const MOST_BYTES: usize = 1_048_576;

// Each place in a script fits the `u32` of a span, that of its end too.
const _: () = prove!(MOST_BYTES <= u32::MAX as usize);

/// The tokens of a script in their order, each with its place. Blanks and comments stand between tokens and are left
/// out. Where no token begins, or one too many does, the answer is the first such place. A script spells one list of
/// tokens at most: what it spells within the limit is answered, and each refused place with its fault.
///
/// # Errors
///
/// - `TooManyTokens`: exactly where the first such place stands behind 100,000 tokens.
/// - `BadByte`: exactly where it stands behind fewer, and is a byte at which no token begins, the first mark of an
///   empty name among them, or a letter directly behind a number.
/// - `OpenText`: exactly where it stands behind fewer, and is a mark that opens a text or a name that is never closed.
/// - `NumberTooWide`: exactly where it stands behind fewer, and is that of digits whose number passes
///   4,000,000,000,000,000,000.
/// - `Memory`: at any call, in place of each answer.
pub fn tokens(alloc: Global, script: &Text) -> Result<Vec<Token>, LexFault>
    requires { length script.now ≤ 1048576 }
    ensures spells { IfOk result (λ tokens. Spells 0 script.now tokens.items) }
    ensures few { IfOk result (λ tokens. length tokens.items ≤ most_tokens) }
    ensures ordered { IfOk result (λ tokens. TokensInOrder 0 tokens.items (length script.now)) }
    ensures refused { IfErr result (λ fault. (fault ≡ LexFault.Memory) ⊎ RefusesBytes 0 0 script.now fault) }
    ensures only { (tokens : List Token) → Spells 0 script.now tokens → length tokens ≤ most_tokens → MatchResult result (λ made. made.items ≡ tokens) (λ fault. fault ≡ LexFault.Memory) }
    ensures exact { (fault : LexFault) → RefusesBytes 0 0 script.now fault → (result ≡ Err fault) ⊎ (result ≡ Err LexFault.Memory) }
{
    let bytes = script.bytes();
    let mut made = Vec::new(alloc);
    let mut at = 0;
    while let Some(token) = next_token(bytes, at, made.len())? {
        if made.push(token).is_err() {
            return Err(LexFault::Memory);
        }
        at = token.at.end as usize;
    }
    Ok(made)
}

/// The next token from this place on, behind this many others, or `None` where there is no further one.
fn next_token(bytes: &[u8], mut at: usize, count: usize) -> Result<Option<Token>, LexFault>
    requires small { length bytes.now ≤ 1048576 }
    requires within { at ≤ length bytes.now }
    requires few { count ≤ most_tokens }
    ensures next { IfOk result (λ next. MatchOption next (Spells at (drop at bytes.now) []) (λ token. IsNext count at bytes.now token)) }
    ensures refused { IfErr result (λ fault. RefusesBytes count at (drop at bytes.now) fault) }
{
    loop {
        match front_at(&bytes[at..]) {
            Front::End => return Ok(None),
            Front::Gap(n) => at += n,
            front => return Ok(Some(token_of(front, at, count)?)),
        }
    }
}

/// The token at a place where this front stands, behind this many others.
fn token_of(front: Front, at: usize, count: usize) -> Result<Token, LexFault>
    requires more { IsMore front }
    requires within { at + reach front ≤ 1048576 }
    ensures { Some result ≡ token_or_fault count at front }
{
    let start = at as u32;
    if count >= MOST_TOKENS {
        return Err(LexFault::TooManyTokens { at: start });
    }
    match front {
        Front::Found(sort, n) => Ok(Token {
            sort,
            at: Span {
                start,
                end: start + n as u32,
            },
        }),
        Front::Bad(n) => Err(LexFault::BadByte {
            at: start + n as u32,
        }),
        Front::Open => Err(LexFault::OpenText { at: start }),
        Front::Wide => Err(LexFault::NumberTooWide { at: start }),
        Front::End | Front::Gap(_) => unreachable!(),
    }
}
