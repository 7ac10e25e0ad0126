ghost use Rattle.std.specs.Prelude.{◌≡◌, IfOk};
ghost use Rattle.std.specs.String.{string_bytes};
ghost use Rattle.rs_statement.specs.Faults.{fault_line, fetch_text, index_fault, numbers_of, only, session_text, spaced, table_text};

use crate::script_fault::ScriptFault;
use rs_bind::BindFault;
use rs_catalog::IndexFault;
use rs_events::HaltFault;
use rs_lex::LexFault;
use rs_outside::{FetchFault, SinkFault};
use rs_syntax::SyntaxFault;
use rs_table::TableFault;
use rs_value::{Memory, Text};
use std::alloc::{AllocFailed, Global};

/// What ends the run of a script or of `top` early, with what its line on standard error tells.
#[derive(Debug, Drop)]
pub enum Fault {
    Memory,
    /// The file of this name was not read.
    Read {
        name: Text,
        why: FetchFault,
    },
    /// Standard output failed.
    Write,
    /// The file of this name is no table.
    Table {
        name: Text,
        why: TableFault,
    },
    /// What was answered for these rows is no score. For each FROM entry that the predicate's arguments speak of it is
    /// the number of its row, counted from 1, and 0 for the others.
    BadScore {
        predicate: Text,
        rows: [u32; 6],
        got: i128,
        max: u32,
    },
    /// A call of the scorer for this predicate failed.
    Probe {
        predicate: Text,
    },
    /// The script has a fault.
    Script(ScriptFault),
    /// A statement names a cursor that it can't have.
    Session {
        why: SessionFault,
        name: Text,
    },
}

/// Why a statement can't have the cursor that it names.
#[derive(Clone, Copy, Debug, PartialEq, Eq)]
pub enum SessionFault {
    /// A cursor of the name is open.
    NameTaken,
    /// No cursor of the name is open.
    Unknown,
    /// As many cursors are open as may be.
    Full,
}

impl From<Memory> for Fault {
    ghost use Rattle.rs_statement.specs.declared.fault.Fault.TheVariants as fault;

    ghost from_gives = { λ _ f. f ≡ fault.Memory };

    fn from(_memory: Memory) -> Fault {
        Fault::Memory
    }
}

impl<T: Drop> From<AllocFailed<T>> for Fault {
    ghost use Rattle.rs_statement.specs.declared.fault.Fault.TheVariants as fault;

    ghost from_gives = { λ _ f. f ≡ fault.Memory };

    fn from(_failed: AllocFailed<T>) -> Fault {
        Fault::Memory
    }
}

impl HaltFault for Fault {
    ghost use Rattle.rs_statement.specs.Steps.{statement_faults};

    ghost faults = { statement_faults };

    fn of_put(why: SinkFault) -> Fault {
        match why {
            SinkFault::Failed => Fault::Write,
            SinkFault::Memory => Fault::Memory,
        }
    }
}

impl From<LexFault> for Fault {
    ghost use Rattle.rs_statement.specs.Faults.{lex_fault};

    ghost from_gives = { λ why f. f ≡ lex_fault why };

    fn from(why: LexFault) -> Fault {
        match why {
            LexFault::Memory => Fault::Memory,
            why => Fault::Script(ScriptFault::Lex(why)),
        }
    }
}

impl From<SyntaxFault> for Fault {
    ghost use Rattle.rs_statement.specs.Faults.{parse_fault};

    ghost from_gives = { λ why f. f ≡ parse_fault why };

    fn from(why: SyntaxFault) -> Fault {
        match why {
            SyntaxFault::Memory => Fault::Memory,
            why => Fault::Script(ScriptFault::Parse(why)),
        }
    }
}

impl From<BindFault> for Fault {
    ghost use Rattle.rs_statement.specs.Statements.{bind_fault};

    ghost from_gives = { λ why f. f ≡ bind_fault why };

    fn from(why: BindFault) -> Fault {
        match why {
            BindFault::Memory => Fault::Memory,
            BindFault::At(why, at) => Fault::Script(ScriptFault::Bind { why, at: at.start }),
        }
    }
}

impl Fault {
    /// The fault's line for standard error, ended by a line feed.
    ///
    /// # Errors
    ///
    /// - `Memory`: at any call.
    pub fn line(&self, alloc: Global) -> Result<String, Memory>
        ensures { IfOk result (λ line. string_bytes line ≡ fault_line self.now) }
    {
        match self {
            Fault::Memory => Ok(String::from_str(alloc, "memory\n")?),
            Fault::Read { name, why } => read_line(alloc, name, *why),
            Fault::Write => Ok(String::from_str(alloc, "write\n")?),
            Fault::Table { name, why } => table_line(alloc, name, why),
            Fault::BadScore {
                predicate,
                rows,
                got,
                max,
            } => {
                let predicate = predicate.as_str();
                let rows = spaced_rows(alloc, rows)?;
                let rows = rows.as_str();
                Ok(format!(in alloc; "score: {predicate} rows {rows}: {got} is not in 0..{max}\n")?)
            }
            Fault::Probe { predicate } => {
                let predicate = predicate.as_str();
                Ok(format!(in alloc; "probe: {predicate}\n")?)
            }
            Fault::Script(why) => script_line(alloc, why),
            Fault::Session { why, name } => session_line(alloc, *why, name),
        }
    }
}

/// The line of a file that was not read.
fn read_line(alloc: Global, name: &Text, why: FetchFault) -> Result<String, Memory>
    ensures { IfOk result (λ line. string_bytes line ≡ fault_line (Fault.Read name.now why)) }
{
    let name = name.as_str();
    let why = fetch_text(why);
    Ok(format!(in alloc; "read: {name}: {why}\n")?)
}

fn fetch_text(why: FetchFault) -> &'static str
    ensures { result.now ≡ fetch_text why }
{
    match why {
        FetchFault::Missing => "missing",
        FetchFault::TooLong => "too long",
        FetchFault::Failed => "failed",
        FetchFault::Memory => "memory",
    }
}

/// The line of a file that is no table.
fn table_line(alloc: Global, name: &Text, why: &TableFault) -> Result<String, Memory>
    ensures { IfOk result (λ line. string_bytes line ≡ fault_line (Fault.Table name.now why.now)) }
{
    let why = table_text(alloc, why)?;
    let name = name.as_str();
    let why = why.as_str();
    Ok(format!(in alloc; "table: {name}: {why}\n")?)
}

/// The row numbers that aren't 0, with one space between.
fn spaced_rows(alloc: Global, rows: &[u32]) -> Result<String, Memory>
    ensures { IfOk result (λ text. string_bytes text ≡ spaced (numbers_of rows.now)) }
{
    let mut text = String::new(alloc);
    let mut space = "";
    for row in rows {
        if *row == 0 {
            continue;
        }
        text.push_str(space)?;
        text.push_str(row.to_string(alloc)?.as_str())?;
        space = " ";
    }
    Ok(text)
}

/// The row numbers of six entries, of which only the first one has a row.
pub fn only_row(row: u32) -> [u32; 6]
    ensures { result ≡ only row }
{
    [row, 0, 0, 0, 0, 0]
}

/// The fault of a run in which the rows of a table aren't ranked, by this predicate or by the numbers in this column.
pub fn index_fault(predicate: Text, why: IndexFault) -> Fault
    ensures { result ≡ index_fault predicate why }
{
    match why {
        IndexFault::BadScore { row, got, max } => Fault::BadScore {
            predicate,
            rows: only_row(row),
            got,
            max,
        },
        IndexFault::Probe => Fault::Probe { predicate },
        IndexFault::Memory => Fault::Memory,
    }
}

/// The line of a script that ends early.
fn script_line(alloc: Global, why: &ScriptFault) -> Result<String, Memory>
    ensures { IfOk result (λ line. string_bytes line ≡ fault_line (Fault.Script why.now)) }
{
    let why = why.text(alloc)?;
    let why = why.as_str();
    Ok(format!(in alloc; "script: {why}\n")?)
}

/// The line of a statement that can't have the cursor that it names.
fn session_line(alloc: Global, why: SessionFault, name: &Text) -> Result<String, Memory>
    ensures { IfOk result (λ line. string_bytes line ≡ fault_line (Fault.Session why name.now)) }
{
    let why = session_text(why);
    let name = name.as_str();
    Ok(format!(in alloc; "session: {why} {name}\n")?)
}

fn session_text(why: SessionFault) -> &'static str
    ensures { result.now ≡ session_text why }
{
    match why {
        SessionFault::NameTaken => "NameTaken",
        SessionFault::Unknown => "Unknown",
        SessionFault::Full => "Full",
    }
}

fn table_text(alloc: Global, why: &TableFault) -> Result<String, Memory>
    ensures { IfOk result (λ text. string_bytes text ≡ table_text why.now) }
{
    match why {
        TableFault::NoHeader => Ok(String::from_str(alloc, "NoHeader")?),
        TableFault::HeaderDiffers { column } => {
            Ok(format!(in alloc; "HeaderDiffers column {column}")?)
        }
        TableFault::FieldCount { row, found } => {
            Ok(format!(in alloc; "FieldCount row {row} found {found}")?)
        }
        TableFault::NotUtf8 { row, column } => {
            Ok(format!(in alloc; "NotUtf8 row {row} column {column}")?)
        }
        TableFault::NotInt { row, column } => {
            Ok(format!(in alloc; "NotInt row {row} column {column}")?)
        }
        TableFault::TooManyRows => Ok(String::from_str(alloc, "TooManyRows")?),
        TableFault::Memory => Ok(String::from_str(alloc, "memory")?),
        TableFault::NoColumn => Ok(String::from_str(alloc, "NoColumn")?),
        TableFault::TooManyColumns { found } => {
            Ok(format!(in alloc; "TooManyColumns found {found}")?)
        }
    }
}
