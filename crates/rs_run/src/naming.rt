ghost use Rattle.std.specs.Prelude.{◌≡◌, ◌≢◌, IfOk, None, option_map};
ghost use Rattle.rs_outside.specs.Files.{KeepsFiles};
ghost use Rattle.rs_syntax.specs.Syntax.{command_of, commands_of};
ghost use Rattle.rs_run.specs.Naming.{Looks, has_predicate, makes_predicate, unmade_in};

use crate::plain::fetch_script;
use crate::readers::Readers;
use rs_outside::Files;
use rs_statement::Fault;
use rs_syntax::Statement;
use rs_value::{Memory, Text};
use std::alloc::Global;

/// The first of these names of which the script makes no predicate, by the statements CREATE PREDICATE that stand in it. It fetches
/// and reads the script as a run of it does first; these readers know it then. Where the script can't be fetched, or isn't made of
/// statements, no name is given: its run tells why.
///
/// # Errors
///
/// - `None`: exactly where the script makes each of them, can't be fetched, or isn't made of statements.
/// - `Memory`: at any call.
pub fn unmade_predicate<'a, T, F: Files>(
    alloc: Global,
    script: &Text,
    names: &'a [Text],
    readers: &mut Readers<T>,
    files: &mut F,
) -> Result<Option<&'a Text>, Memory>
    ensures looks { IfOk result (λ name. Looks script.now names.now (option_map (λ name. name.now) name)
        (F.state files.old) (F.state files.new)) }
    ensures keeps { KeepsFiles (F.state files.old) (F.state files.new) }
{
    match fetch_script(alloc, script, files) {
        Ok(text) => match readers.script.read(alloc, text) {
            Ok(()) => Ok(unmade_in(names, readers.script.statements())),
            Err(fault) => none_but(fault),
        },
        Err(fault) => none_but(fault),
    }
}

/// No name, but where there is no memory.
fn none_but<'a>(fault: Fault) -> Result<Option<&'a Text>, Memory>
    ensures { IfOk result (λ name. (name ≡ None) × (fault ≢ Fault.Memory)) }
{
    match &fault {
        Fault::Memory => Err(Memory),
        _ => Ok(None),
    }
}

/// The first of these names of which the statements make no predicate.
fn unmade_in<'a>(names: &'a [Text], statements: &[Statement]) -> Option<&'a Text>
    ensures { option_map (λ name. name.now) result ≡ unmade_in names.now (commands_of statements.now) }
{
    names.iter().find(|name| !has_predicate(name, statements))
}

/// Whether the statements make a predicate of this name.
fn has_predicate(name: &Text, statements: &[Statement]) -> bool
    ensures { result ≡ has_predicate name.now (commands_of statements.now) }
{
    match statements {
        [] => false,
        [first, rest @ ..] => makes_predicate(name, first) || has_predicate(name, rest),
    }
}

/// Whether a statement makes a predicate of this name.
fn makes_predicate(name: &Text, statement: &Statement) -> bool
    ensures { result ≡ makes_predicate name.now (command_of statement.now) }
{
    match statement {
        Statement::CreatePredicate { name: own, .. } => own.text.bytes() == name.bytes(),
        _ => false,
    }
}
