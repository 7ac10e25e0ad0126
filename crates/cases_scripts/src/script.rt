ghost use Rattle.std.specs.Prelude.{IfOk};
ghost use Rattle.rs_syntax.specs.Syntax.{commands_of};
ghost use Rattle.rs_syntax.specs.Written.{AreWritten};

use cases_lines::Fault;
use rs_lex::{LexFault, MOST_BYTES, tokens};
use rs_syntax::{Statement, SyntaxFault, parse};
use rs_value::Text;
use std::alloc::Global;

/// The statements of a script.
pub fn statements_of(alloc: Global, script: &Text) -> Result<Vec<Statement>, Fault>
    ensures { IfOk result (λ made. AreWritten (commands_of made.items)) }
{
    if script.bytes().len() > MOST_BYTES {
        return Err(Fault::Form);
    }
    let tokens = match tokens(alloc, script) {
        Ok(tokens) => tokens,
        Err(LexFault::Memory) => return Err(Fault::Memory),
        Err(_) => return Err(Fault::Form),
    };
    match parse(alloc, script, &tokens) {
        Ok(statements) => Ok(statements),
        Err(SyntaxFault::Memory) => Err(Fault::Memory),
        Err(_) => Err(Fault::Form),
    }
}
