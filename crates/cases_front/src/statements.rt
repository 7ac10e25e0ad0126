//! What is asked of the script in a line: the statements that it parses to, or whether it is accepted.

ghost use Rattle.std.specs.Prelude.{◌≤◌, IfOk, length};
ghost use Rattle.rs_lex.specs.Spelling.{Spells};

use crate::replaced::replaced;
use crate::scripts::script_of;
use cases_lines::{Fault, bytes_of};
use rs_lex::{LexFault, Token, tokens};
use rs_syntax::{Statement, SyntaxFault, parse};
use rs_value::{Memory, Text};
use std::alloc::Global;

/// What is asked of a script in a line.
#[derive(Clone, Copy)]
pub enum Wanted {
    /// The statements that it parses to, each with all its parts and places.
    Tree,
    /// Whether it is accepted.
    Verdict,
}

/// What is written shorter in a refusal.
const REFUSAL: [(&str, &str); 2] = [(" { at: ", " at "), (" }", "")];

/// What is written shorter in the text of a tree.
const TREE: [(&str, &str); 12] = [
    ("\"", "'"),
    (" }", ""),
    ("Text { chars: ", ""),
    ("Name { text: ", ""),
    ("List { items: ", ""),
    ("Span { start: ", ""),
    (", end: ", "-"),
    (", at: ", "@"),
    ("Column(", "("),
    ("ColRef { alias: None, column: ", ""),
    ("ColRef { alias: Some(", ""),
    ("), column: ", "."),
];

/// The line that tells what is asked of the script that these bytes stand for.
pub fn tell_parsed(alloc: Global, wanted: Wanted, escaped: &[u8]) -> Result<String, Fault> {
    let mut told = tell(alloc, wanted, escaped)?;
    told.push_str("\n")?;
    Ok(told)
}

/// What is asked of the script that these bytes stand for.
fn tell(alloc: Global, wanted: Wanted, escaped: &[u8]) -> Result<String, Fault> {
    let script = script_in(alloc, escaped)?;
    Ok(answer(alloc, wanted, &script)?)
}

/// The script that the escaped bytes of a line stand for.
fn script_in(alloc: Global, escaped: &[u8]) -> Result<Text, Fault>
    ensures { IfOk result (λ script. length script ≤ 1048576) }
{
    let bytes = bytes_of(alloc, escaped)?;
    script_of(alloc, &bytes)
}

/// What is said of a script: what is asked where it is accepted, and else its refusal.
fn answer(alloc: Global, wanted: Wanted, script: &Text) -> Result<String, Memory>
    requires { length script.now ≤ 1048576 }
{
    match tokens(alloc, script) {
        Ok(tokens) => parsed(alloc, wanted, script, &tokens),
        Err(LexFault::Memory) => Err(Memory),
        Err(fault) => {
            let shown = format!(in alloc; "{fault:?}")?;
            Ok(replaced(alloc, &shown, &REFUSAL)?)
        }
    }
}

/// The same of a script whose tokens are these.
fn parsed(alloc: Global, wanted: Wanted, script: &Text, tokens: &[Token]) -> Result<String, Memory>
    requires spelled { Spells 0 script.now tokens.now }
    requires small { length script.now ≤ 1048576 }
{
    match parse(alloc, script, tokens) {
        Ok(statements) => accepted(alloc, wanted, &statements),
        Err(SyntaxFault::Memory) => Err(Memory),
        Err(fault) => {
            let shown = format!(in alloc; "{fault:?}")?;
            Ok(replaced(alloc, &shown, &REFUSAL)?)
        }
    }
}

/// What is asked of a script that parses to these statements. In a tree, each place is `start-end`, each text stands
/// between `'`, and names of structs and fields are left out where a name, a column, a list or a place has them.
fn accepted(alloc: Global, wanted: Wanted, statements: &[Statement]) -> Result<String, Memory> {
    match wanted {
        Wanted::Tree => {
            let shown = format!(in alloc; "{statements:?}")?;
            Ok(replaced(alloc, &shown, &TREE)?)
        }
        Wanted::Verdict => Ok(String::from_str(alloc, "accepted")?),
    }
}
