ghost use Rattle.std.specs.Prelude.{◌≡◌, ◌≢◌, [], Err, IfErr, IfSome, IsSome, List, MatchOption, None, OnOk, Option, Result, Some, ◌++◌, ℕ, find, option_map};
ghost use Rattle.std.specs.Str.{bytes_eq};
ghost use Rattle.rs_value.specs.Outside.{Counts};
ghost use Rattle.rs_outside.specs.Files.{Fetches, FindsFile, StaysKnown};
ghost use Rattle.rs_outside.specs.declared.files.FetchFault.{FetchFault as Fault};
ghost use Rattle.rs_scores.specs.KnownFiles.{Found, Looks, found_under, found_with, known_contents, known_state};

use rs_outside::{FetchFault, Files};
use rs_value::{List as Items, Text};
use std::alloc::Global;
use std::hash::RandomState;
use std::marker::Model;

/// A name, and the bytes that were found under it, if a file was there.
#[derive(Drop)]
struct FoundFile {
    name: Text,
    there: Option<Items<u8>>,
}

impl Model for FoundFile {
    ghost use Rattle.rs_scores.specs.KnownFiles.{Found};

    ghost Value = { Found };

    ghost view = { λ f. record { name = f.name; there = f.there } };
}

/// Files of which each is fetched once: every later fetch of a name gives the same bytes, or says that no file is there,
/// whatever became of it. So what was found is known of them. Where the fetch failed, or the file was longer than was allowed, it is looked for again.
#[derive(Drop)]
pub struct KnownFiles<F> {
    files: F,
    found: Vec<FoundFile>,
}

impl<F> Model for KnownFiles<F> {
    ghost use Rattle.rs_scores.specs.KnownFiles.{KnownFilesState};

    ghost Value = { KnownFilesState F };

    ghost view = { λ k. record { files = k.files; found = k.found.items } };
}

/// What was found under this name, if it was looked for.
fn found_under<'a>(found: &'a [FoundFile], name: &Text) -> Option<&'a FoundFile>
    ensures { option_map (λ file. file.now) result ≡ found_under name.now found.now }
{
    found.iter().find(|file| file.name.bytes() == name.bytes())
}

/// What a fetch gives of what was found.
fn give(there: &Option<Items<u8>>, limit: usize, into: &mut Vec<u8>) -> Result<(), FetchFault>
    ensures fetches { Fetches there.now limit into.old.items result into.new.items }
    ensures goes { result ≢ Err FetchFault.Failed }
{
    let Some(bytes) = there else {
        return Err(FetchFault::Missing);
    };
    if bytes.items().len() > limit {
        return Err(FetchFault::TooLong);
    }
    match into.extend_from_slice(bytes.items()) {
        Ok(()) => Ok(()),
        Err(_) => Err(FetchFault::Memory),
    }
}

/// What a fetch gives of what was found under this name.
fn give_found(
    found: &[FoundFile],
    name: &Text,
    limit: usize,
    into: &mut Vec<u8>,
) -> Result<(), FetchFault>
    requires { IsSome (found_under name.now found.now) }
    ensures fetches { (file : Found) × (found_under name.now found.now ≡ Some file) × Fetches file.there limit into.old.items result into.new.items }
    ensures goes { result ≢ Err FetchFault.Failed }
{
    match found_under(found, name) {
        Some(file) => give(&file.there, limit, into),
        None => unreachable!(),
    }
}

/// Adds what was found under a name.
fn keep(found: &mut Vec<FoundFile>, name: &Text, there: Option<Items<u8>>) -> Result<(), FetchFault>
    ensures ok { OnOk result (found.new.items ≡ found_with name.now there found.old.items) }
    ensures err { IfErr result (λ fault. (fault ≡ FetchFault.Memory) × (found.new.items ≡ found.old.items)) }
{
    let Ok(name) = name.copy() else {
        drop(there);
        return Err(FetchFault::Memory);
    };
    match found.push(FoundFile { name, there }) {
        Ok(()) => Ok(()),
        Err(_) => Err(FetchFault::Memory),
    }
}

impl<F> KnownFiles<F> {
    /// These files, of which none was fetched yet. It takes no memory.
    pub fn new(alloc: Global, files: F) -> KnownFiles<F>
        ensures { result ≡ record { files = files; found = [] } }
    {
        KnownFiles {
            files,
            found: Vec::new(alloc),
        }
    }

    /// The files below.
    pub fn files(&self) -> &F
        ensures { result.now ≡ self.now.files }
    {
        &self.files
    }
}

impl<F: Files> KnownFiles<F> {
    /// Looks for the file of this name, and adds what is found.
    fn look(&mut self, alloc: Global, name: &Text, limit: usize) -> Result<(), FetchFault>
        ensures { Looks name.now limit result (F.state self.old.files) (F.state self.new.files) self.old.found self.new.found }
    {
        let mut bytes = Vec::new(alloc);
        match self.files.fetch(name, limit, &mut bytes) {
            Ok(()) => keep(&mut self.found, name, Some(Items::of(bytes))),
            Err(FetchFault::Missing) => keep(&mut self.found, name, None),
            Err(fault) => Err(fault),
        }
    }
}

impl<F: Files> Files for KnownFiles<F> {
    ghost state = { λ k. known_state k.found (F.state k.files) };

    fn fetch(&mut self, name: &Text, limit: usize, into: &mut Vec<u8>) -> Result<(), FetchFault>
        ensures fetches { FindsFile name.now limit result into.old.items into.new.items (known_state self.new.found (F.state self.new.files)) }
        ensures stays_known { StaysKnown (known_contents self.old.found (F.state self.old.files).contents) (known_contents self.new.found (F.state self.new.files).contents) }
        ensures counts { Counts (result ≡ Err FetchFault.Failed) (known_state self.old.found (F.state self.old.files)).outside (known_state self.new.found (F.state self.new.files)).outside }

        // What was found stays, and a name under which something was found is looked for no more.
        ensures stays { (more : List Found) × (self.new.found ≡ self.old.found ++ more) }
        ensures known { IsSome (found_under name.now self.old.found) → self.new ≡ self.old }

        // Where looking was refused, that fault is the answer.
        ensures looks { found_under name.now self.old.found ≡ None → (looked : Result (Unit {0}) Fault)
            × Looks name.now limit looked (F.state self.old.files) (F.state self.new.files) self.old.found self.new.found
            × IfErr looked (λ fault. result ≡ Err fault) }

        // Where something is found, that is given.
        ensures gives { IfSome (found_under name.now self.new.found) (λ file. Fetches file.there limit into.old.items result into.new.items) }
    {
        if let Some(file) = found_under(&self.found, name) {
            return give(&file.there, limit, into);
        }
        match self.look(*into.allocator(), name, limit) {
            Ok(()) => give_found(&self.found, name, limit, into),
            Err(refused) => Err(refused),
        }
    }

    fn hash_keys(&self) -> RandomState {
        self.files.hash_keys()
    }
}
