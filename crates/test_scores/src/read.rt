//! Files of known scores.

ghost use Rattle.std.specs.Prelude.{◌≤◌, length};

use rs_scores::{KnownFault, KnownScore, KnownScores, MOST_BYTES, Question, read_scores};
use rs_value::{Text, Value};
use std::alloc::Global;
use std::process::Abort;
use std::test::Fail;

/// The predicates `near` and `liked` are asked for.
pub(crate) fn names(alloc: Global) -> Result<Vec<Text>, Fail> {
    let mut names = Vec::new(alloc);
    names.push(Text::from_bytes(alloc, b"near")?)?;
    names.push(Text::from_bytes(alloc, b"liked")?)?;
    Ok(names)
}

/// A file, and how many scores it has, or the first thing that refuses it.
type Row = (&'static [u8], Result<usize, KnownFault>);

const FILES: [Row; 30] = [
    (b"", Ok(0)),
    (b"near,5,77\n", Ok(1)),
    (b"near,5,77\r\n\r\nliked,5,-3\n", Ok(2)),
    (b"\xEF\xBB\xBFnear,5,77\n", Ok(1)),
    (b"near,\"a,b\",3\nnear,\"a\nb\",4\nnear,\"\"\"\",5\n", Ok(3)),
    (b"near,1,2,3,4,5,6,7,8,9\n", Ok(1)),
    (b"near,5,+7\nnear,05,7\n", Ok(2)),
    (b"near,5,4000000000000000000\n", Ok(1)),
    (b"near,5,77", Err(KnownFault::NotEnded)),
    (b"near,5,7\nnear", Err(KnownFault::NotEnded)),
    (
        b"near,77\n",
        Err(KnownFault::FieldCount {
            number: 1,
            found: 2,
        }),
    ),
    (
        b"near,5,7\nnear\n",
        Err(KnownFault::FieldCount {
            number: 2,
            found: 1,
        }),
    ),
    (
        b"near,1,2,3,4,5,6,7,8,9,0\n",
        Err(KnownFault::FieldCount {
            number: 1,
            found: 11,
        }),
    ),
    (b"near,\"5,77\n", Err(KnownFault::NotEnded)),
    (b"near,\"5\n,77\n", Err(KnownFault::NotEnded)),
    (b"near,\"5\n\",77\n", Ok(1)),
    (b"near,5\",77\n", Ok(1)),
    (b"\xEF\xBB\xBF\"near\",\"5,77\n", Err(KnownFault::NotEnded)),
    (b"\xEF\xBB\xBF", Ok(0)),
    (b"far,5,77\n", Err(KnownFault::NotAsked { number: 1 })),
    (b"Near,5,77\n", Err(KnownFault::NotAsked { number: 1 })),
    (
        b"near,5,1\nnear,\xFF,1\n",
        Err(KnownFault::NotUtf8 {
            number: 2,
            field: 2,
        }),
    ),
    (b"near,5,\n", Err(KnownFault::NotScore { number: 1 })),
    (b"near,5,7.5\n", Err(KnownFault::NotScore { number: 1 })),
    (
        b"near,5,4000000000000000001\n",
        Err(KnownFault::NotScore { number: 1 }),
    ),
    (b"near,5,1\nliked,5,1\nnear,5,1\n", Ok(2)),
    (b"near,5,1\n\"near\",5,+1\n", Ok(1)),
    (
        b"near,5,1\nnear,5,1\nfar,1,1\n",
        Err(KnownFault::NotAsked { number: 3 }),
    ),
    (
        b"near,5,1\nnear,5,1\nnear,5,2\n",
        Err(KnownFault::Twice { number: 3 }),
    ),
    (
        b"near,5,1\nnear,\"5\",2\nfar,1,1\n",
        Err(KnownFault::Twice { number: 2 }),
    ),
];

/// How many scores a file has.
fn count_of(alloc: Global, names: Vec<Text>, bytes: &[u8]) -> Result<usize, KnownFault>
    requires { length bytes.now ≤ 33554432 }
{
    let known = read_scores(alloc, names, bytes)?;
    Ok(known.len())
}

fn assert_file(rt: &impl Abort, alloc: Global, row: &Row) -> Result<(), Fail> {
    assert!(rt; row.0.len() <= MOST_BYTES);
    let count = count_of(alloc, names(alloc)?, row.0);
    assert_eq!(rt; count, row.1);
    Ok(())
}

#[test]
fn reads_files_of_scores(rt: HostRuntime) -> Result<(), Fail> {
    for row in &FILES {
        assert_file(&rt, rt.alloc(), row)?;
    }
    Ok(())
}

/// Files of a predicate whose name is `near` behind a byte order mark, and of `near`: a mark at the start belongs to the first
/// record.
const MARKED: [Row; 6] = [
    (b"", Ok(0)),
    (b"\xEF\xBB\xBFnear,5,77\n", Ok(1)),
    (b"near,5,76\n\xEF\xBB\xBFnear,5,77\n", Ok(2)),
    (b"\xEF\xBB\xBFnear,5,77\nnear,5,76\n", Ok(2)),
    (
        b"\xEF\xBB\xBF\xEF\xBB\xBFnear,5,77\n",
        Err(KnownFault::NotAsked { number: 1 }),
    ),
    (b"\xEF\xBB\xBF", Err(KnownFault::NotEnded)),
];

/// A predicate whose name is `near` behind a byte order mark, and `near`.
fn marked_names(alloc: Global) -> Result<Vec<Text>, Fail> {
    let mut names = Vec::new(alloc);
    names.push(Text::from_bytes(alloc, b"near")?)?;
    names.push(Text::from_bytes(alloc, b"\xEF\xBB\xBFnear")?)?;
    Ok(names)
}

fn assert_marked(rt: &impl Abort, alloc: Global, row: &Row) -> Result<(), Fail> {
    assert!(rt; row.0.len() <= MOST_BYTES);
    let count = count_of(alloc, marked_names(alloc)?, row.0);
    assert_eq!(rt; count, row.1);
    Ok(())
}

#[test]
fn reads_files_of_marked_names(rt: HostRuntime) -> Result<(), Fail> {
    for row in &MARKED {
        assert_marked(&rt, rt.alloc(), row)?;
    }
    Ok(())
}

/// The line of a score of the marked name.
fn marked_line(alloc: Global) -> Result<Vec<u8>, Fail> {
    let near = Text::from_bytes(alloc, b"\xEF\xBB\xBFnear")?;
    let known = KnownScore {
        question: Question::of(alloc, &near, &[Value::Int(5)])?,
        score: 77,
    };
    Ok(known.line(alloc)?)
}

#[test]
fn reads_back_a_marked_name(rt: HostRuntime) -> Result<(), Fail> {
    let line = marked_line(rt.alloc())?;
    assert!(&rt; line.as_slice() == b"\xEF\xBB\xBFnear,5,77\n".as_slice());
    assert!(&rt; line.len() <= MOST_BYTES);
    let Ok(known) = read_scores(rt.alloc(), marked_names(rt.alloc())?, &line) else {
        return Err(Fail::new("refused"));
    };
    let near = Text::from_bytes(rt.alloc(), b"\xEF\xBB\xBFnear")?;
    let question = Question::of(rt.alloc(), &near, &[Value::Int(5)])?;
    assert!(&rt; known.score(&question) == Some(77));
    Ok(())
}

/// The scores of a file.
pub(crate) fn known_of(rt: &impl Abort, alloc: Global, bytes: &[u8]) -> Result<KnownScores, Fail> {
    assert!(rt; bytes.len() <= MOST_BYTES);
    match read_scores(alloc, names(alloc)?, bytes) {
        Ok(known) => Ok(known),
        Err(_) => Err(Fail::new("refused")),
    }
}
