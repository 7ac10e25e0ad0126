//! Generated files.

use rs_gen::generate;
use rs_outside::{Files, MemFiles};
use rs_value::Text;
use std::alloc::Global;
use std::hash::RandomState;
use std::process::Abort;
use std::random::RandomSource;
use std::test::Fail;

/// The most bytes of a file here.
const LIMIT: usize = 32_768;

/// A file's name, how many bytes it has, and the last of them.
type Ends = (&'static str, usize, &'static str);

/// By the number 0 with one row: the whole tables, and the end of the script.
const SMALLEST: [Ends; 4] = [
    ("hotel.csv", 24, "name,price,city\nh1,77,0\n"),
    ("restaurant.csv", 25, "name,city,rating\nr1,0,13\n"),
    ("museum.csv", 23, "name,city,fame\nm1,0,29\n"),
    ("gen.sql", 912, " 2 * famous(m.fame) LIMIT 10;\n"),
];

/// By the number 7 with 600 rows.
const SIX_HUNDRED: [Ends; 4] = [
    ("hotel.csv", 6888, "\nh599,80,6\nh600,117,7\n"),
    ("restaurant.csv", 6366, "\nr599,4,45\nr600,7,58\n"),
    ("museum.csv", 6678, "\nm599,0,106\nm600,7,135\n"),
    ("gen.sql", 912, " 2 * famous(m.fame) LIMIT 10;\n"),
];

/// By the greatest number with 2,000 rows.
const GREATEST: [Ends; 4] = [
    ("hotel.csv", 25411, "\nh1999,248,94\nh2000,285,95\n"),
    ("restaurant.csv", 23633, "\nr1999,92,62\nr2000,95,75\n"),
    ("museum.csv", 24716, "\nm1999,88,179\nm2000,95,7\n"),
    ("gen.sql", 912, " 2 * famous(m.fame) LIMIT 10;\n"),
];

/// The bytes of a file. Of one that isn't there it has none.
fn bytes_of(alloc: Global, files: &mut MemFiles, name: &str) -> Result<Vec<u8>, Fail> {
    let name = Text::from_bytes(alloc, name.as_bytes())?;
    let mut bytes = Vec::new(alloc);
    let _fetched = files.fetch(&name, LIMIT, &mut bytes);
    Ok(bytes)
}

fn has_end(bytes: &[u8], ends: &Ends) -> bool {
    bytes.len() == ends.1 && bytes.ends_with(ends.2.as_bytes())
}

/// Compares the length and the end of a file.
fn assert_ends(
    rt: &impl Abort,
    alloc: Global,
    files: &mut MemFiles,
    ends: &Ends,
) -> Result<(), Fail> {
    let name = ends.0;
    let bytes = bytes_of(alloc, files, name)?;
    assert!(rt; has_end(&bytes, ends), "at {name}");
    Ok(())
}

/// Makes the files, and compares their ends.
fn assert_files(
    rt: &(impl Abort + RandomSource),
    alloc: Global,
    number: u32,
    rows: u32,
    wanted: &[Ends],
) -> Result<(), Fail> {
    let mut files = generate(alloc, RandomState::new(rt)?, number, rows)?;
    assert_all_ends(rt, alloc, &mut files, wanted)
}

fn assert_all_ends(
    rt: &impl Abort,
    alloc: Global,
    files: &mut MemFiles,
    wanted: &[Ends],
) -> Result<(), Fail> {
    for ends in wanted {
        assert_ends(rt, alloc, files, ends)?;
    }
    Ok(())
}

#[test]
fn generates_tables_and_a_script(rt: HostRuntime) -> Result<(), Fail> {
    assert_files(&rt, rt.alloc(), 0, 1, &SMALLEST)?;
    assert_files(&rt, rt.alloc(), 7, 600, &SIX_HUNDRED)?;
    assert_files(&rt, rt.alloc(), 4_294_967_295, 2000, &GREATEST)
}
