ghost use Rattle.std.specs.Prelude.{◌≡◌, IfOk, Some};
ghost use Rattle.std.specs.String.{string_bytes};
ghost use Rattle.rs_run.specs.Faults.{run_fault_line, status_of, word_name};

use rs_events::{HaltFault, Status};
use rs_outside::SinkFault;
use rs_statement::Fault;
use rs_value::{Memory, Text};
use std::alloc::Global;

/// The line of words that are of no form. It grows with the words, so it stands above all that one word does.
const USAGE: &str =
    "usage: ranksql top FILE COLUMN MAX K, run SCRIPT SEED, plain SCRIPT, gen NUMBER ROWS, ta SCRIPT, feed LEFT RIGHT K, cert LEFT RIGHT K, check FILE, view SCRIPT\n";

/// A word of the command line whose scripts may have some statements alone.
#[derive(Clone, Copy, Debug, PartialEq, Eq)]
pub enum ScriptWord {
    Ta,
    View,
}

impl ScriptWord {
    fn name(self) -> &'static str
        ensures { result.now ≡ word_name self }
    {
        match self {
            ScriptWord::Ta => "ta",
            ScriptWord::View => "view",
        }
    }
}

/// What ends a run early, with what its line on standard error tells.
#[derive(Debug, Drop)]
pub enum RunFault {
    /// The words of the command line are of no form.
    Usage,
    /// The statement of this number, counted from 1, is none that the word takes.
    NotEligible {
        word: ScriptWord,
        statement: usize,
    },
    /// In the feed of this name a row's score, `got`, is greater than that of the row before it. Rows are counted from 1.
    Order {
        name: Text,
        row: u32,
        before: u32,
        got: u32,
    },
    /// More rows of the feed of this name were drawn than a certificate takes.
    CertTooLong {
        name: Text,
    },
    /// The records of the file of this name are no certificate; this record, counted from 1, is the first that no certificate has there.
    CertForm {
        name: Text,
        place: u32,
    },
    /// A fault that statements have too: of `top`, of a script, or of a file of `feed`, `cert` or `check`.
    Statement(Fault),
}

impl From<Fault> for RunFault {
    ghost use Rattle.rs_run.specs.declared.fault.RunFault.TheVariants as run_fault;

    ghost from_gives = { λ why f. f ≡ run_fault.Statement why };

    fn from(why: Fault) -> RunFault {
        RunFault::Statement(why)
    }
}

impl From<Memory> for RunFault {
    ghost use Rattle.rs_run.specs.declared.fault.RunFault.TheVariants as run_fault;
    ghost use Rattle.rs_statement.specs.declared.fault.Fault.TheVariants as fault;

    ghost from_gives = { λ _ f. f ≡ run_fault.Statement fault.Memory };

    fn from(_memory: Memory) -> RunFault {
        RunFault::Statement(Fault::Memory)
    }
}

impl HaltFault for RunFault {
    ghost use Rattle.rs_run.specs.Faults.{run_faults};

    ghost faults = { run_faults };

    fn of_put(why: SinkFault) -> RunFault {
        match why {
            SinkFault::Failed => RunFault::Statement(Fault::Write),
            SinkFault::Memory => RunFault::Statement(Fault::Memory),
        }
    }
}

impl RunFault {
    /// The status of a run that ends with this fault.
    pub fn status(&self) -> Status
        ensures { result ≡ status_of (Some self.now) }
    {
        match self {
            RunFault::Usage => Status::Usage,
            RunFault::NotEligible { .. } => Status::Script,
            RunFault::Order { .. } => Status::Table,
            RunFault::CertTooLong { .. } => Status::Table,
            RunFault::CertForm { .. } => Status::Table,
            RunFault::Statement(why) => statement_status(why),
        }
    }

    /// The fault's line for standard error, ended by a line feed.
    ///
    /// # Errors
    ///
    /// - `Memory`: at any call.
    pub fn line(&self, alloc: Global) -> Result<String, Memory>
        ensures { IfOk result (λ line. string_bytes line ≡ run_fault_line self.now) }
    {
        match self {
            RunFault::Usage => Ok(String::from_str(alloc, USAGE)?),
            RunFault::NotEligible { word, statement } => {
                let word = word.name();
                Ok(format!(in alloc; "script: {word} NotEligible statement {statement}\n")?)
            }
            RunFault::Order {
                name,
                row,
                before,
                got,
            } => order_line(alloc, name, *row, *before, *got),
            RunFault::CertTooLong { name } => too_long_line(alloc, name),
            RunFault::CertForm { name, place } => form_line(alloc, name, *place),
            RunFault::Statement(why) => why.line(alloc),
        }
    }
}

/// The line of a feed with a row out of order.
fn order_line(alloc: Global, name: &Text, row: u32, before: u32, got: u32) -> Result<String, Memory>
    ensures { IfOk result (λ line. string_bytes line ≡ run_fault_line (RunFault.Order name.now row before got)) }
{
    let name = name.as_str();
    Ok(format!(in alloc; "table: {name}: OutOfOrder row {row} before {before} got {got}\n")?)
}

/// The line of a feed of which too many rows were drawn for a certificate.
fn too_long_line(alloc: Global, name: &Text) -> Result<String, Memory>
    ensures { IfOk result (λ line. string_bytes line ≡ run_fault_line (RunFault.CertTooLong name.now)) }
{
    let name = name.as_str();
    Ok(format!(in alloc; "table: {name}: CertTooLong\n")?)
}

/// The line of a file that is no certificate.
fn form_line(alloc: Global, name: &Text, place: u32) -> Result<String, Memory>
    ensures { IfOk result (λ line. string_bytes line ≡ run_fault_line (RunFault.CertForm name.now place)) }
{
    let name = name.as_str();
    Ok(format!(in alloc; "table: {name}: CertForm record {place}\n")?)
}

/// The status of a run that ends with this fault of `top` or of a script.
fn statement_status(why: &Fault) -> Status
    ensures { result ≡ status_of (Some (RunFault.Statement why.now)) }
{
    match why {
        Fault::Memory => Status::Memory,
        Fault::Read { .. } => Status::Read,
        Fault::Write => Status::Write,
        Fault::Table { .. } => Status::Table,
        Fault::BadScore { .. } => Status::BadScore,
        Fault::Probe { .. } => Status::Probe,
        Fault::Script(_) => Status::Script,
        Fault::Session { .. } => Status::Session,
    }
}
