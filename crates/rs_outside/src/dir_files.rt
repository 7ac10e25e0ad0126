ghost use Rattle.std.specs.Prelude.{◌≡◌, ◌+◌, ℕ, List, Option, Result, Some, IfErr, IfOk, IfSome, IsSomeAnd};
ghost use Rattle.std.specs.IoError.{error_kind};
ghost use Rattle.std.specs.declared.io.Error.{Error};
ghost use Rattle.std.specs.declared.io.ErrorKind.{ErrorKind};
ghost use Rattle.rs_outside.specs.DirFiles.{AnswersBy, AppendsRest, ComesOf, ConsumesAtMost, disk_state, faults_after_fetch, open_fault, read_fault};
ghost use Rattle.rs_value.specs.Outside.{Counts};
ghost use Rattle.rs_outside.specs.Files.{Fetches};

use crate::answered::Answered;
use crate::files::{FetchFault, Files};
use crate::reading::Reading;
use rs_value::Text;
use std::hash::RandomState;
use std::io::{ErrorKind, Read};
use std::marker::Model;
use std::{fs, io};

/// How many bytes one read asks for at most.
const CHUNK: usize = 8192;

/// The files of the system, by their paths; a relative one starts from the current folder. Contracts see how many
/// fetches failed. A name is handed to the system as a path, so it may lead out of the current folder.
#[derive(Drop)]
pub struct DirFiles<R> {
    rt: R,
    hash_keys: RandomState,
    faults: u64,
    last: Option<Answered>,
}

impl<R> Model for DirFiles<R> {
    ghost use Rattle.rs_outside.specs.DirFiles.{DirFilesState};

    ghost Value = { DirFilesState };

    ghost view = { λ d. record { faults = d.faults; last = d.last } };
}

/// The fault that an error is when a file is opened.
fn fault_at_open(error: &io::Error) -> FetchFault
    ensures { result ≡ open_fault (error_kind error.now) }
{
    match error.kind() {
        ErrorKind::NotFound => FetchFault::Missing,
        ErrorKind::OutOfMemory => FetchFault::Memory,
        _ => FetchFault::Failed,
    }
}

/// The fault that an error is when an open file is read.
fn fault_at_read(error: &io::Error) -> FetchFault
    ensures { result ≡ read_fault (error_kind error.now) }
{
    match error.kind() {
        ErrorKind::OutOfMemory => FetchFault::Memory,
        _ => FetchFault::Failed,
    }
}

/// Appends what is left of the reader. It reads at most one byte more than the limit.
fn append_rest<F: Read>(
    file: &mut Reading<F>,
    limit: usize,
    into: &mut Vec<u8>,
) -> Result<(), FetchFault>
    ensures appends { AppendsRest (F.remaining file.old.reader) limit into.old.items result into.new.items }
    ensures consumes { ConsumesAtMost (limit + 1) (F.remaining file.old.reader) (F.remaining file.new.reader) }
    ensures answers { ComesOf file.new.last result }
{
    let mut chunk = [0u8; CHUNK];
    let mut room = limit;
    loop {
        let most = CHUNK.min(room.saturating_add(1));
        let count = match file.read(&mut chunk[..most]) {
            Ok(0) => return Ok(()),
            Ok(count) => count,
            Err(error) => return Err(fault_at_read(&error)),
        };
        if into.extend_from_slice(&chunk[..count]).is_err() {
            return Err(FetchFault::Memory);
        }
        if count > room {
            return Err(FetchFault::TooLong);
        }
        room -= count;
    }
}

/// Appends what is left of the reader, which is read to its end, or one byte beyond the limit where it has more. After a
/// fault `into` is as before. A read that a signal interrupts is tried again.
///
/// # Errors
///
/// - `TooLong`: where the reader tells its bytes and the answer is neither `Failed` nor `Memory`, exactly where more
///   than `limit` are left; of any reader only where the last read gave bytes.
/// - `Failed`: only where the last read failed.
/// - `Memory`: only where the last read gave bytes, or the system had no memory for it; `into` is as before.
/// - `Missing`: never.
pub fn fetch_rest<F: Read>(
    file: &mut Reading<F>,
    limit: usize,
    into: &mut Vec<u8>,
) -> Result<(), FetchFault>
    // The bytes that are left are the file's, where the reader tells them.
    ensures fetches { (left : List ℕ) × IfSome (F.remaining file.old.reader) (λ told. told ≡ left)
        × Fetches (Some left) limit into.old.items result into.new.items }
    ensures consumes { ConsumesAtMost (limit + 1) (F.remaining file.old.reader) (F.remaining file.new.reader) }
    // Ok comes of a read that gave the end, and a fault of bytes that were read or of a read that failed.
    ensures answers { ComesOf file.new.last result }
{
    let start = into.len();
    let Err(fault) = append_rest(file, limit, into) else {
        return Ok(());
    };
    into.truncate(start);
    Err(fault)
}

/// What a fetch gives where the file was opened, or was not, and what the system answered.
///
/// # Errors
///
/// - `Missing`: exactly where the file wasn't opened, since the system says that it wasn't found.
/// - `Failed`: where it wasn't opened, for any other error but want of memory.
/// - `Memory`: where it wasn't opened, exactly where the system had no memory for that.
/// - Those of `fetch_rest`: where it was opened.
pub fn fetch_opened<F: Read + Drop>(
    opened: io::Result<F>,
    limit: usize,
    into: &mut Vec<u8>,
) -> (Result<(), FetchFault>, Answered)
    ensures fetches { (there : Option (List ℕ)) × Fetches there limit into.old.items result.0 into.new.items }
    ensures unopened { IfErr opened (λ error. (result.1 ≡ Answered.Open (error_kind error)) × (into.new.items ≡ into.old.items)) }
    ensures opened { IfOk opened (λ file. (last : Option (Result ℕ ErrorKind)) × (result.1 ≡ Answered.Read last)
        × (left : List ℕ) × IfSome (F.remaining file) (λ told. told ≡ left)
        × Fetches (Some left) limit into.old.items result.0 into.new.items) }
    // The answer comes of what the system said.
    ensures answers { AnswersBy result.1 result.0 }
{
    match opened {
        Ok(file) => {
            let mut file = Reading::new(file);
            let result = fetch_rest(&mut file, limit, into);
            (result, Answered::Read(file.into_last()))
        }
        Err(error) => (Err(fault_at_open(&error)), Answered::Open(error.kind())),
    }
}

impl<R: std::rt::Files> DirFiles<R> {
    /// The files that this runtime opens, and the keys by which texts of theirs are hashed. Nothing is opened yet.
    pub fn new(rt: R, hash_keys: RandomState) -> DirFiles<R>
        ensures { result ≡ record { faults = 0; last = None } }
    {
        DirFiles {
            rt,
            hash_keys,
            faults: 0,
            last: None,
        }
    }
}

impl<R: std::rt::Files> Files for DirFiles<R> {
    ghost state = { disk_state };

    fn fetch(&mut self, name: &Text, limit: usize, into: &mut Vec<u8>) -> Result<(), FetchFault>
        ensures fetches { (there : Option (List ℕ)) × Fetches there limit into.old.items result into.new.items }
        ensures counts { Counts (result ≡ Err FetchFault.Failed) (disk_state self.old).outside (disk_state self.new).outside }

        // A file was opened, or was not, and the bytes are those of what was opened.
        ensures opened { (opened : Result R.File Error)
            × IfErr opened (λ error. (self.new.last ≡ Some (Answered.Open (error_kind error))) × (into.new.items ≡ into.old.items))
            × IfOk opened (λ file. (last : Option (Result ℕ ErrorKind)) × (self.new.last ≡ Some (Answered.Read last))
            × (left : List ℕ) × IfSome (R.File.remaining file) (λ told. told ≡ left)
            × Fetches (Some left) limit into.old.items result into.new.items) }

        // The answer comes of what the system said, and exactly the fetches that failed are counted.
        ensures answers { IsSomeAnd self.new.last (λ answered. AnswersBy answered result) }
        ensures counted { self.new.faults ≡ faults_after_fetch result self.old.faults }
    {
        let (result, answered) = fetch_opened(fs::open(&self.rt, name.as_str()), limit, into);
        self.last = Some(answered);
        let Err(fault) = result else {
            return Ok(());
        };
        if fault == FetchFault::Failed {
            self.faults = self.faults.saturating_add(1);
        }
        Err(fault)
    }

    fn hash_keys(&self) -> RandomState {
        self.hash_keys
    }
}
