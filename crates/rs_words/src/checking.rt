ghost use Rattle.std.specs.Prelude.{◌≡◌, ◌≤◌, ◌∷◌, [], IfOk, length};
ghost use Rattle.std.specs.String.{string_bytes};
ghost use Rattle.rs_events.specs.Environment.{Environment};
ghost use Rattle.rs_outside.specs.Files.{finds_in};
ghost use Rattle.rs_events.specs.Run.{lines_run};
ghost use Rattle.rs_events.specs.Running.{Ran, Runs};
ghost use Rattle.rs_words.specs.Checking.{IsCertIn, IsCheckRun, IsCheckedRun, verdict_line};
ghost use Rattle.rs_words.specs.Faults as told;
ghost use Rattle.rs_words.specs.Faults.{file_faults, put_faults};
ghost use Rattle.rs_words.specs.FeedFiles.{file_limit};

use crate::fault::WordFault;
use crate::feed_file::fetch_bytes;
use rs_cert::{Cert, CertFault, Verdict, read_cert};
use rs_events::put_text;
use rs_outside::{Files, Sink};
use rs_value::{Memory, Text};
use std::alloc::Global;

/// Does what `check FILE` says: it reads a certificate, and puts whether it proves its answer, or which part of it
/// fails first. Of bytes that are no certificate it puts nothing.
///
/// # Errors
///
/// - `Read`: with `Missing` or `TooLong` exactly where the run comes to the fetch of a name that isn't there, or of a
///   file of more than 33,554,432 bytes; with `Failed` only where the fetch failed.
/// - `CertForm`: exactly where the run comes to bytes that are no certificate, with the first record that no
///   certificate has there.
/// - `Write`: only where the put failed.
/// - `Table`, `Range`, `Order`, `CertTooLong`: never.
/// - `Memory`: at any call.
pub fn check_word<F: Files, O: Sink>(
    alloc: Global,
    file: &Text,
    files: &mut F,
    out: &mut O,
) -> Result<(), WordFault>
    ensures { (beside : Environment) → Runs (file_faults file.now) (IsCheckRun (finds_in (F.state files.old).contents) file.now) result
        (record beside { files = F.state files.old; out = O.state out.old }) (record beside { files = F.state files.new; out = O.state out.new }) }
{
    let bytes = fetch_bytes(alloc, 1, file, files)?;
    put_check(alloc, &bytes, out)
}

/// The same of the bytes of a file.
fn put_check<O: Sink>(alloc: Global, bytes: &[u8], out: &mut O) -> Result<(), WordFault>
    requires { length bytes.now ≤ file_limit }
    ensures { (beside : Environment) → Runs put_faults (IsCheckedRun bytes.now) result
        (record beside { out = O.state out.old }) (record beside { out = O.state out.new }) }
{
    let cert = cert_in(alloc, bytes)?;
    let verdict = rs_cert::check(alloc, &cert)?;
    put_verdict(alloc, verdict, out)
}

/// The certificate of the bytes of a file.
fn cert_in(alloc: Global, bytes: &[u8]) -> Result<Cert, WordFault>
    requires { length bytes.now ≤ file_limit }
    ensures { IsCertIn bytes.now result }
{
    match read_cert(alloc, bytes) {
        Ok(cert) => Ok(cert),
        Err(why) => Err(cert_fault(why)),
    }
}

/// The fault of a file that is no certificate. Only want of memory is told as such.
fn cert_fault(why: CertFault) -> WordFault
    ensures { result ≡ told.cert_fault why }
{
    match why {
        CertFault::Form { place } => WordFault::CertForm { place },
        CertFault::Memory => WordFault::Memory,
    }
}

/// Puts the line of a verdict.
fn put_verdict<O: Sink>(alloc: Global, verdict: Verdict, out: &mut O) -> Result<(), WordFault>
    ensures { (beside : Environment) → Ran put_faults (lines_run (verdict_line verdict ∷ [])) result
        (record beside { out = O.state out.old }) (record beside { out = O.state out.new }) }
{
    let line = verdict_line(alloc, verdict)?;
    put_text(line.as_bytes(), out)
}

/// That line.
fn verdict_line(alloc: Global, verdict: Verdict) -> Result<String, Memory>
    ensures { IfOk result (λ line. string_bytes line ≡ verdict_line verdict) }
{
    match verdict {
        Verdict::Yes => Ok(String::from_str(alloc, "yes\n")?),
        Verdict::Order { side, row } => Ok(format!(in alloc; "no Order side {side} row {row}\n")?),
        Verdict::Pairs => Ok(String::from_str(alloc, "no Pairs\n")?),
        Verdict::Short => Ok(String::from_str(alloc, "no Short\n")?),
        Verdict::Left => Ok(String::from_str(alloc, "no Left\n")?),
        Verdict::Right => Ok(String::from_str(alloc, "no Right\n")?),
    }
}
