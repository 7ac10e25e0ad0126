//! Names in a word.

use rs_scores::names_in;
use rs_value::Text;
use std::alloc::Global;
use std::process::Abort;
use std::test::Fail;

/// A word, and the names in it.
type Row = (&'static [u8], Option<&'static [&'static str]>);

const WORDS: [Row; 14] = [
    (b"near", Some(&["near"])),
    (
        b"near,far away,\xC3\xA9",
        Some(&["near", "far away", "\u{e9}"]),
    ),
    (b"near;far", Some(&["near;far"])),
    (b"", None),
    (b",", None),
    (b"near,", None),
    (b",near", None),
    (b"near,,far", None),
    (b"near, far", None),
    (b"near ,far", None),
    (b"near,\tfar", None),
    (b"near,far,near", None),
    (b"\xEF\xBB\xBFnear,near", Some(&["\u{feff}near", "near"])),
    (b"\xEF\xBB\xBFnear,\xEF\xBB\xBFnear", None),
];

fn are_names(names: &[Text], wanted: &[&str]) -> bool {
    names.len() == wanted.len() && names.iter().zip(wanted).all(|(a, b)| a.as_str() == *b)
}

fn assert_word(rt: &impl Abort, alloc: Global, row: &Row) -> Result<(), Fail> {
    let word = Text::from_bytes(alloc, row.0)?;
    let holds = match (names_in(alloc, &word)?, row.1) {
        (Some(names), Some(wanted)) => are_names(&names, wanted),
        (None, None) => true,
        _ => false,
    };
    assert!(rt; holds, "{word:?}");
    Ok(())
}

#[test]
fn finds_the_names_in_a_word(rt: HostRuntime) -> Result<(), Fail> {
    for row in &WORDS {
        assert_word(&rt, rt.alloc(), row)?;
    }
    Ok(())
}
