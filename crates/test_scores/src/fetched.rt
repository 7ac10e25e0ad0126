//! Files that are fetched once.

use rs_outside::{FetchFault, Files, MemFiles};
use rs_scores::KnownFiles;
use rs_value::Text;
use std::alloc::Global;
use std::hash::RandomState;
use std::process::Abort;
use std::test::Fail;

/// A name, a limit, what a fetch answers, and the bytes that it gives.
type Fetch = (&'static str, usize, Result<(), FetchFault>, &'static [u8]);

/// The second fetch of the files below is to fail.
const FETCHES: [Fetch; 9] = [
    ("b", 3, Ok(()), b"x,y"),
    ("c", 3, Err(FetchFault::Failed), b""),
    ("c", 3, Err(FetchFault::Missing), b""),
    ("b", 3, Ok(()), b"x,y"),
    ("b", 2, Err(FetchFault::TooLong), b""),
    ("c", 9, Err(FetchFault::Missing), b""),
    ("a", 0, Err(FetchFault::TooLong), b""),
    ("a", 1, Ok(()), b"z"),
    ("a", 1, Ok(()), b"z"),
];

/// The names that the files below are asked for.
const FETCHED: [&str; 5] = ["b", "c", "c", "a", "a"];

fn text(alloc: Global, chars: &str) -> Result<Text, Fail> {
    Ok(Text::from_bytes(alloc, chars.as_bytes())?)
}

fn add(files: &mut MemFiles, alloc: Global, name: &str, bytes: &[u8]) -> Result<(), Fail> {
    let bytes = Vec::from_slice(alloc, bytes)?;
    files.add(text(alloc, name)?, bytes)?;
    Ok(())
}

fn files_below(alloc: Global, hash_keys: RandomState) -> Result<MemFiles, Fail> {
    let mut files = MemFiles::new(alloc, hash_keys);
    add(&mut files, alloc, "a", b"z")?;
    add(&mut files, alloc, "b", b"x,y")?;
    files.fail_at(2)?;
    Ok(files)
}

fn assert_fetch(
    rt: &impl Abort,
    alloc: Global,
    files: &mut KnownFiles<MemFiles>,
    fetch: &Fetch,
) -> Result<(), Fail> {
    let name = text(alloc, fetch.0)?;
    let mut bytes = Vec::new(alloc);
    assert_eq!(rt; files.fetch(&name, fetch.1, &mut bytes), fetch.2);
    assert!(rt; bytes.as_slice() == fetch.3);
    Ok(())
}

fn is_fetched(files: &MemFiles, names: &[&str]) -> bool {
    let own = files.fetched_names();
    own.len() == names.len() && own.iter().zip(names).all(|(a, b)| a.as_str() == *b)
}

#[test]
fn fetches_each_file_once(rt: HostRuntime) -> Result<(), Fail> {
    let hash_keys = RandomState::new(&rt)?;
    let mut files = KnownFiles::new(rt.alloc(), files_below(rt.alloc(), hash_keys)?);
    for fetch in &FETCHES {
        assert_fetch(&rt, rt.alloc(), &mut files, fetch)?;
    }
    assert!(rt; is_fetched(files.files(), &FETCHED));
    Ok(())
}
