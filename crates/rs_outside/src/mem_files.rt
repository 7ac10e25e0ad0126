ghost use Rattle.std.specs.Prelude.{◌≡◌, MatchOption, Some, None, option_map, OnOk, OnErr, position};
ghost use Rattle.std.specs.Str.{bytes_eq};
ghost use Rattle.rs_value.specs.Answer.{Gives};
ghost use Rattle.rs_value.specs.Outside.{Counts};
ghost use Rattle.rs_outside.specs.Files.{file_named, Fetches, FindsFile, StaysKnown, told_after};
ghost use Rattle.rs_outside.specs.MemFiles.{no_files, after_add, after_fail_at, is_fetch_planned, found_answer, fetch_answer, after_fetch, files_state};

use crate::files::{FetchFault, Files};
use rs_value::{List, Memory, Text};
use std::alloc::Global;
use std::hash::RandomState;
use std::marker::Model;

/// A file in memory.
#[derive(Debug, Drop)]
struct MemFile {
    name: Text,
    bytes: List<u8>,
}

impl Model for MemFile {
    ghost use Rattle.rs_outside.specs.Files.{File};

    ghost Value = { File };

    ghost view = { λ f. record { name = f.name; bytes = f.bytes } };
}

/// Files in memory, for tests of what fetches files. It keeps the names that were fetched, and fails where it is told.
/// A fetch for which there was no memory isn't kept, and has no number among the planned failures. It is steady where
/// no failure was ever planned.
#[derive(Debug, Drop)]
pub struct MemFiles {
    files: Vec<MemFile>,
    fetched: Vec<Text>,
    failing: Vec<u32>,
    faults: u64,
    hash_keys: RandomState,
}

impl Model for MemFiles {
    ghost use Rattle.rs_outside.specs.MemFiles.{MemFilesState};

    ghost Value = { MemFilesState };

    ghost view = { λ m. record {
      folder = m.files.items;
      fetched = m.fetched.items;
      failing = m.failing.items;
      faults = m.faults;
    } };
}

/// The place of the first file of this name.
fn place_of(files: &Vec<MemFile>, name: &Text) -> Option<usize>
    ensures { result ≡ position (λ file. bytes_eq file.name name.now) files.now.items }
{
    files
        .iter()
        .position(|file| file.name.bytes() == name.bytes())
}

/// The bytes of the file of this name.
fn bytes_of<'a>(files: &'a Vec<MemFile>, name: &Text) -> Option<&'a List<u8>>
    ensures { MatchOption result (file_named name.now files.now.items ≡ None)
        (λ bytes. file_named name.now files.now.items ≡ Some bytes.now) }
{
    let at = place_of(files, name)?;
    Some(&files[at].bytes)
}

/// The answer of a fetch, where none is to fail. It appends the bytes where it is `Ok`.
fn append_found(
    files: &Vec<MemFile>,
    name: &Text,
    limit: usize,
    into: &mut Vec<u8>,
) -> Result<(), FetchFault>
    ensures answer { Gives FetchFault.Memory (found_answer (file_named name.now files.now.items) limit) result }
    ensures fetches { Fetches (file_named name.now files.now.items) limit into.old.items result into.new.items }
{
    let Some(bytes) = bytes_of(files, name) else {
        return Err(FetchFault::Missing);
    };
    if bytes.items().len() > limit {
        return Err(FetchFault::TooLong);
    }
    match into.extend_from_slice(bytes.items()) {
        Ok(()) => Ok(()),
        Err(_) => Err(FetchFault::Memory),
    }
}

impl MemFiles {
    /// No files, and the keys by which texts of theirs are hashed. It takes no memory.
    pub fn new(alloc: Global, hash_keys: RandomState) -> MemFiles
        ensures { result ≡ no_files }
    {
        MemFiles {
            files: Vec::new(alloc),
            fetched: Vec::new(alloc),
            failing: Vec::new(alloc),
            faults: 0,
            hash_keys,
        }
    }

    /// Holds these bytes under this name: in place of those that are there, or else as a last file.
    ///
    /// # Errors
    ///
    /// - `Memory`: at any call; nothing changes.
    pub fn add(&mut self, name: Text, bytes: Vec<u8>) -> Result<(), Memory>
        ensures ok { OnOk result (self.new ≡ after_add name bytes.items self.old) }
        ensures err { OnErr result (self.new ≡ self.old) }
    {
        let bytes = List::of(bytes);
        match place_of(&self.files, &name) {
            Some(at) => self.files[at].bytes = bytes,
            None => self.files.push(MemFile { name, bytes })?,
        }
        Ok(())
    }

    /// The names that were fetched so far, those of fetches that failed too.
    pub fn fetched_names(&self) -> &[Text]
        ensures { result.now ≡ self.now.fetched }
    {
        &self.fetched
    }

    /// The next fetch is to fail.
    fn is_next_planned(&self) -> bool
        ensures { result ≡ is_fetch_planned self.now }
    {
        let number = self.fetched.len() + 1;
        self.failing.iter().any(|call| *call as usize == number)
    }

    /// The answer of the next fetch. It appends the bytes where it is `Ok`.
    fn answer(&self, name: &Text, limit: usize, into: &mut Vec<u8>) -> Result<(), FetchFault>
        ensures answer { Gives FetchFault.Memory (fetch_answer name.now limit self.now) result }
        ensures fetches { Fetches (file_named name.now self.now.folder) limit into.old.items result into.new.items }
    {
        if self.is_next_planned() {
            return Err(FetchFault::Failed);
        }
        append_found(&self.files, name, limit, into)
    }

    /// Plans that the fetch of this number, counted from 1, fails. Several may be planned.
    ///
    /// # Errors
    ///
    /// - `Memory`: at any call; nothing changes.
    pub fn fail_at(&mut self, call: u32) -> Result<(), Memory>
        ensures ok { OnOk result (self.new ≡ after_fail_at call self.old) }
        ensures err { OnErr result (self.new ≡ self.old) }
    {
        self.failing.push(call)?;
        Ok(())
    }
}

impl Files for MemFiles {
    ghost state = { files_state };

    fn fetch(&mut self, name: &Text, limit: usize, into: &mut Vec<u8>) -> Result<(), FetchFault>
        ensures fetches { FindsFile name.now limit result into.old.items into.new.items (files_state self.new) }
        ensures stays_known { StaysKnown (files_state self.old).contents (files_state self.new).contents }
        ensures told { (files_state self.new).outside.told ≡ option_map (told_after name.now result) (files_state self.old).outside.told }
        ensures counts { Counts (result ≡ Err FetchFault.Failed) (files_state self.old).outside (files_state self.new).outside }

        // The answer, which only want of memory can replace, and what the call leaves.
        ensures answer { Gives FetchFault.Memory (fetch_answer name.now limit self.old) result }
        ensures after { self.new ≡ after_fetch name.now result self.old }
    {
        let Ok(fetched) = name.copy() else {
            return Err(FetchFault::Memory);
        };
        if self.fetched.reserve(1).is_err() {
            return Err(FetchFault::Memory);
        }
        let answer = self.answer(name, limit, into);
        match answer {
            Err(FetchFault::Memory) => return answer,
            Err(FetchFault::Failed) => self.faults = self.faults.saturating_add(1),
            _ => {}
        }
        self.fetched.push(fetched).unwrap();
        answer
    }

    fn hash_keys(&self) -> RandomState {
        self.hash_keys
    }
}
