//! Scripts, whatever a word makes of their statements.

ghost use Rattle.std.specs.Prelude.{◌≡◌, ◌+◌, ◌≤◌, ◌<◌, ◌^◌, IfOk, length};
ghost use Rattle.rs_syntax.specs.Syntax.{command_of, commands_of};
ghost use Rattle.rs_syntax.specs.Written.{AreWritten, IsWritten};
ghost use Rattle.rs_outside.specs.Files.{finds_in};
ghost use Rattle.rs_events.specs.Running.{Runs, Stepped};
ghost use Rattle.rs_run.specs.Numbered.{IsDialect, NumberedRun, first_statement};
ghost use Rattle.rs_run.specs.Parts.Script.{TellScript};
ghost use Rattle.rs_run.specs.Plain.{ScriptRuns, TextRuns};

use crate::known_script::KnownScript;
use crate::plain::fetch_script;
use rs_events::{HaltFault, Host};
use rs_statement::Fault;
use rs_syntax::Statement;
use rs_value::Text;
use std::alloc::Global;

/// What does the statements of a script as a word of the command line says, and holds what it keeps from one statement to the
/// next: the catalogue, and what the word has beside it.
pub(crate) trait Dialect {
    ghost use Rattle.std.specs.Prelude.{ℕ};
    ghost use Rattle.rs_expr.specs.Scoring.{Answering};
    ghost use Rattle.rs_syntax.specs.Syntax.{Command};
    ghost use Rattle.rs_outside.specs.Files.{Finds};
    ghost use Rattle.rs_events.specs.Sequence.{Step};
    ghost use Rattle.rs_statement.specs.declared.fault.Fault.{Fault as StatementFault};

    /// The faults with which a run of the word ends.
    type OwnFault: HaltFault;

    /// What contracts see of what is kept.
    ghost State: { Type 0 };

    ghost state: { Self → State };

    /// What stays the same through the script.
    ghost Way: { Type 0 };

    ghost way: { Self → Way };

    /// What the statement of a number does.
    ghost does: { Way → Finds → Answering → ℕ → State → Command → Step Self.OwnFault State → Type 0 };

    /// What holds of what is kept between two statements.
    ghost holds: { Answering → Self → Type 0 };

    /// The faults of a script's file and text, as this word tells them.
    ghost tells: { StatementFault → Self.OwnFault };

    /// Does the statement of this number.
    fn take<W: Host>(
        &mut self,
        alloc: Global,
        number: usize,
        statement: &Statement,
        host: &mut W,
    ) -> Result<(), Self::OwnFault>
        requires written { IsWritten (command_of statement.now) }
        requires holds { holds (W.state host.old).scorer.answer self.old }
        ensures does { Stepped Self.OwnFault.faults
            (does (way self.old) (finds_in (W.state host.old).files.contents) (W.state host.old).scorer.answer number (state self.old) (command_of statement.now)) (state self.new) result
            (W.state host.old) (W.state host.new) }
        ensures holds { IfOk result (λ _. holds (W.state host.old).scorer.answer self.new) }
        ensures way { way self.new ≡ way self.old };

    /// A fault of a script's file or text.
    fn told(why: Fault) -> Self::OwnFault
        ensures { result ≡ tells why };
}

/// Does what the script of a name says, statement by statement, up to the first fault. It is read by `script`.
pub(crate) fn interpret<D: Dialect, W: Host>(
    alloc: Global,
    dialect: &mut D,
    name: &Text,
    script: &mut KnownScript,
    host: &mut W,
) -> Result<(), D::OwnFault>
    requires told { TellScript D.tells D.OwnFault.faults }
    requires dialect { IsDialect (D.does (D.way dialect.old)) }
    requires holds { D.holds (W.state host.old).scorer.answer dialect.old }
    ensures { Runs D.OwnFault.faults
        (ScriptRuns D.tells (finds_in (W.state host.old).files.contents)
        (NumberedRun (D.does (D.way dialect.old) (finds_in (W.state host.old).files.contents) (W.state host.old).scorer.answer) (first_statement (D.state dialect.old))) name.now) result
        (W.state host.old) (W.state host.new) }
{
    match fetch_script(alloc, name, host.files()) {
        Ok(text) => interpret_text(alloc, dialect, text, script, host),
        Err(why) => Err(D::told(why)),
    }
}

/// Does what the text of a script says.
fn interpret_text<D: Dialect, W: Host>(
    alloc: Global,
    dialect: &mut D,
    text: Text,
    script: &mut KnownScript,
    host: &mut W,
) -> Result<(), D::OwnFault>
    requires told { TellScript D.tells D.OwnFault.faults }
    requires dialect { IsDialect (D.does (D.way dialect.old)) }
    requires short { length text ≤ 1048576 }
    requires holds { D.holds (W.state host.old).scorer.answer dialect.old }
    ensures { Runs D.OwnFault.faults
        (TextRuns D.tells (NumberedRun (D.does (D.way dialect.old) (finds_in (W.state host.old).files.contents) (W.state host.old).scorer.answer) (first_statement (D.state dialect.old))) text) result
        (W.state host.old) (W.state host.new) }
{
    match script.read(alloc, text) {
        Ok(()) => interpret_each(alloc, dialect, 0, script.statements(), host),
        Err(why) => Err(D::told(why)),
    }
}

/// Does the statements of a script one after another, up to the first fault, where so many were done before.
fn interpret_each<D: Dialect, W: Host>(
    alloc: Global,
    dialect: &mut D,
    done: usize,
    statements: &[Statement],
    host: &mut W,
) -> Result<(), D::OwnFault>
    requires dialect { IsDialect (D.does (D.way dialect.old)) }
    requires few { done + length statements.now < 2 ^ 64 }
    requires written { AreWritten (commands_of statements.now) }
    requires holds { D.holds (W.state host.old).scorer.answer dialect.old }
    ensures { Runs D.OwnFault.faults
        (NumberedRun (D.does (D.way dialect.old) (finds_in (W.state host.old).files.contents) (W.state host.old).scorer.answer)
        (record { number = done + 1; kept = D.state dialect.old }) (commands_of statements.now)) result
        (W.state host.old) (W.state host.new) }
{
    for (index, statement) in statements.iter().enumerate() {
        dialect.take(alloc, done + index + 1, statement, host)?;
    }
    Ok(())
}
