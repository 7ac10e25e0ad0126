ghost use Rattle.std.specs.Prelude.{◌≡◌, IfOk};
ghost use Rattle.std.specs.String.{string_bytes};
ghost use Rattle.rs_statement.specs.Faults.{lex_text, parse_text, room_text, script_text, why_text};

use rs_bind::Why;
use rs_catalog::RoomFault;
use rs_lex::LexFault;
use rs_syntax::SyntaxFault;
use rs_value::Memory;
use std::alloc::Global;

/// Why a script ends early. Bytes count from 0, behind a byte order mark.
#[derive(Clone, Copy, Debug, PartialEq, Eq)]
pub enum ScriptFault {
    /// The bytes aren't UTF-8. `at` is the length of the longest prefix that is.
    NotUtf8 { at: usize },
    /// The script has no tokens.
    Lex(LexFault),
    /// The tokens are no statements.
    Parse(SyntaxFault),
    /// A statement breaks a rule of names and types at this place.
    Bind { why: Why, at: u32 },
    /// The catalogue has no room for a statement's name, which stands at this place.
    Room { why: RoomFault, at: u32 },
}

impl ScriptFault {
    /// What is told of the fault.
    ///
    /// # Errors
    ///
    /// - `Memory`: at any call.
    pub fn text(&self, alloc: Global) -> Result<String, Memory>
        ensures { IfOk result (λ text. string_bytes text ≡ script_text self.now) }
    {
        match self {
            ScriptFault::NotUtf8 { at } => Ok(format!(in alloc; "NotUtf8 at {at}")?),
            ScriptFault::Lex(why) => {
                let why = lex_text(alloc, *why)?;
                let why = why.as_str();
                Ok(format!(in alloc; "lex {why}")?)
            }
            ScriptFault::Parse(why) => {
                let why = parse_text(alloc, *why)?;
                let why = why.as_str();
                Ok(format!(in alloc; "parse {why}")?)
            }
            ScriptFault::Bind { why, at } => {
                let why = why_text(*why);
                Ok(format!(in alloc; "bind {why} at {at}")?)
            }
            ScriptFault::Room { why, at } => {
                let why = room_text(*why);
                Ok(format!(in alloc; "catalogue {why} at {at}")?)
            }
        }
    }
}

fn lex_text(alloc: Global, why: LexFault) -> Result<String, Memory>
    ensures { IfOk result (λ text. string_bytes text ≡ lex_text why) }
{
    match why {
        LexFault::BadByte { at } => Ok(format!(in alloc; "BadByte at {at}")?),
        LexFault::OpenText { at } => Ok(format!(in alloc; "OpenText at {at}")?),
        LexFault::NumberTooWide { at } => Ok(format!(in alloc; "NumberTooWide at {at}")?),
        LexFault::TooManyTokens { at } => Ok(format!(in alloc; "TooManyTokens at {at}")?),
        LexFault::Memory => Ok(String::from_str(alloc, "memory")?),
    }
}

fn parse_text(alloc: Global, why: SyntaxFault) -> Result<String, Memory>
    ensures { IfOk result (λ text. string_bytes text ≡ parse_text why) }
{
    match why {
        SyntaxFault::Expected { at } => Ok(format!(in alloc; "Expected at {at}")?),
        SyntaxFault::TooDeep { at } => Ok(format!(in alloc; "TooDeep at {at}")?),
        SyntaxFault::TooManyStatements { at } => {
            Ok(format!(in alloc; "TooManyStatements at {at}")?)
        }
        SyntaxFault::NotInProfile { at } => Ok(format!(in alloc; "NotInProfile at {at}")?),
        SyntaxFault::Memory => Ok(String::from_str(alloc, "memory")?),
    }
}

/// The name of the rule.
fn why_text(why: Why) -> &'static str
    ensures { result.now ≡ why_text why }
{
    match why {
        Why::NoTable => "NoTable",
        Why::NoColumn => "NoColumn",
        Why::Ambiguous => "Ambiguous",
        Why::NoPredicate => "NoPredicate",
        Why::WrongKind => "WrongKind",
        Why::WrongCount => "WrongCount",
        Why::NameTwice => "NameTwice",
        Why::TooWide => "TooWide",
        Why::DistinctNeedsOutput => "DistinctNeedsOutput",
        Why::SetColumnsDiffer => "SetColumnsDiffer",
        Why::LimitOf => "LimitOf",
        Why::ConstantTerm => "ConstantTerm",
        Why::BadDivisor => "BadDivisor",
    }
}

fn room_text(why: RoomFault) -> &'static str
    ensures { result.now ≡ room_text why }
{
    match why {
        RoomFault::NameTaken => "NameTaken",
        RoomFault::Full => "Full",
    }
}
