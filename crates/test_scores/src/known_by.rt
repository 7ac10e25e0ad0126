//! What is known by a file of scores that is fetched.

use crate::read::names;
use rs_outside::{FetchFault, MemFiles};
use rs_scores::{KnownFault, ScoresFault, read_known};
use rs_value::Text;
use std::alloc::Global;
use std::hash::RandomState;
use std::process::Abort;
use std::test::Fail;

/// A file's name, and how many scores are known by it, or why none are.
type Row = (&'static str, Result<usize, ScoresFault>);

/// The fourth fetch of the files below is to fail.
const READS: [Row; 5] = [
    ("scores", Ok(2)),
    ("none", Ok(0)),
    (
        "refused",
        Err(ScoresFault::Refused(KnownFault::Twice { number: 2 })),
    ),
    ("scores", Err(ScoresFault::Fetch(FetchFault::Failed))),
    ("scores", Ok(2)),
];

fn text(alloc: Global, chars: &str) -> Result<Text, Fail> {
    Ok(Text::from_bytes(alloc, chars.as_bytes())?)
}

fn add(files: &mut MemFiles, alloc: Global, name: &str, bytes: &[u8]) -> Result<(), Fail> {
    let bytes = Vec::from_slice(alloc, bytes)?;
    files.add(text(alloc, name)?, bytes)?;
    Ok(())
}

fn assert_read(
    rt: &impl Abort,
    alloc: Global,
    files: &mut MemFiles,
    row: &Row,
) -> Result<(), Fail> {
    let count = match read_known(alloc, names(alloc)?, &text(alloc, row.0)?, files) {
        Ok(known) => Ok(known.len()),
        Err(fault) => Err(fault),
    };
    assert_eq!(rt; count, row.1);
    Ok(())
}

#[test]
fn knows_what_a_file_of_scores_holds(rt: HostRuntime) -> Result<(), Fail> {
    let mut files = MemFiles::new(rt.alloc(), RandomState::new(&rt)?);
    add(&mut files, rt.alloc(), "scores", b"near,5,7\nliked,5,7\n")?;
    add(&mut files, rt.alloc(), "refused", b"near,5,7\nnear,5,8\n")?;
    files.fail_at(4)?;
    for row in &READS {
        assert_read(&rt, rt.alloc(), &mut files, row)?;
    }
    assert_eq!(rt; files.fetched_names().len(), READS.len());
    Ok(())
}
