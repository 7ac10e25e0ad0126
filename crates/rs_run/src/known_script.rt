ghost use Rattle.std.specs.Prelude.{◌≡◌, ◌≤◌, ◌⊎◌, ◌↔◌, IfErr, IfOk, IsTrue, None, OnErr, OnOk, Some, length, option_map};
ghost use Rattle.rs_run.specs.Parts.Script.{IsRefused, IsScriptRead, ScriptRead};

use rs_lex::tokens;
use rs_statement::Fault;
use rs_syntax::{Statement, parse};
use rs_value::Text;
use std::alloc::Global;
use std::marker::Model;

/// The text of a script, and its statements.
#[derive(Drop)]
struct ReadScript {
    text: Text,
    statements: Vec<Statement>,
}

impl Model for ReadScript {
    ghost use Rattle.rs_run.specs.Parts.Script.{IsScriptRead, ScriptRead, script_code};

    ghost Value = { ScriptRead };

    ghost coded = { script_code };

    ghost view = { λ r. record { text = r.text; statements = r.statements.items } };

    ghost invariant = { λ r. IsScriptRead (record { text = r.text; statements = r.statements.items }) };
}

/// The statements of the script that was read last. The same text isn't lexed and parsed again.
#[derive(Drop)]
pub struct KnownScript {
    read: Option<ReadScript>,
}

impl Model for KnownScript {
    ghost use Rattle.std.specs.Coded.{coded_option};
    ghost use Rattle.std.specs.Prelude.{Option};
    ghost use Rattle.rs_run.specs.Parts.Script.{ScriptRead, script_code};

    ghost Value = { Option ScriptRead };

    ghost coded = { coded_option script_code };

    ghost view = { λ k. k.read };
}

impl KnownScript {
    /// No script was read yet.
    pub fn new() -> KnownScript
        ensures { result ≡ None }
    {
        KnownScript { read: None }
    }

    /// Reads a script of this text, unless it is the one that was read last.
    pub(crate) fn read(&mut self, alloc: Global, text: Text) -> Result<(), Fault>
        requires { length text ≤ 1048576 }
        ensures read { OnOk result (option_map (λ read. read.text) self.new ≡ Some text) }
        ensures refused { IfErr result (λ fault. (fault ≡ Fault.Memory) ⊎ IsRefused text fault) }
        ensures same { OnErr result (self.new ≡ self.old) }

        // What was read is read no more.
        ensures known { option_map (λ read. read.text) self.old ≡ Some text → self.new ≡ self.old }
    {
        if self.has(&text) {
            return Ok(());
        }
        self.read = Some(read_script(alloc, text)?);
        Ok(())
    }

    /// The statements of the script that was read last. There are none where none was read.
    pub(crate) fn statements(&self) -> &[Statement]
        ensures statements { (read : ScriptRead) → self.now ≡ Some read → result.now ≡ read.statements }
        ensures made { (read : ScriptRead) → self.now ≡ Some read → IsScriptRead read }
    {
        match &self.read {
            Some(read) => read.statements.as_slice(),
            None => &[],
        }
    }

    /// Whether the script of this text was read last.
    fn has(&self, text: &Text) -> bool
        ensures { IsTrue result ↔ (option_map (λ read. read.text) self.now ≡ Some text.now) }
    {
        match &self.read {
            Some(read) => read.text.bytes() == text.bytes(),
            None => false,
        }
    }
}

/// Reads the statements of a script.
fn read_script(alloc: Global, text: Text) -> Result<ReadScript, Fault>
    requires { length text ≤ 1048576 }
    ensures read { IfOk result (λ read. read.text ≡ text) }
    ensures refused { IfErr result (λ fault. (fault ≡ Fault.Memory) ⊎ IsRefused text fault) }
{
    let tokens = tokens(alloc, &text)?;
    let statements = parse(alloc, &text, &tokens)?;
    Ok(ReadScript { text, statements })
}
