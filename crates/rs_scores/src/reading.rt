ghost use Rattle.std.specs.Prelude.{◌≡◌, ◌∷◌, ◌≤◌, ◌<◌, ◌⊎◌, [], List, IfOk, MatchResult, if◌then◌else◌, length, nat_abs, slice_index_or};
ghost use Rattle.std.specs.Str.{is_utf8};
ghost use Rattle.csv.specs.Reading.{strip_bom};
ghost use Rattle.csv.specs.Records.{fields_of};
ghost use Rattle.rs_value.specs.Answer.{Gives};
ghost use Rattle.rs_value.specs.Number.{greatest_int};
ghost use Rattle.rs_lines.specs.Records.{records_of};
ghost use Rattle.rs_scores.specs.Reading.{Knows, Reads, ReadsTable, is_ended, known_in, known_of, scores_behind, scores_from, scores_in, texts_from, with_entry, with_record};

use crate::fault::KnownFault;
use crate::known::KnownScores;
use crate::known_score::KnownScore;
use crate::names::{has_marked, is_marked};
use crate::place::Place;
use crate::question::Question;
use csv::ByteRecord;
use rs_lines::{next_record, reader_of};
use rs_value::{Memory, Text, TextFault, int_of};
use std::alloc::Global;

/// The greatest number of bytes of a file of known scores.
pub const MOST_BYTES: usize = 33_554_432;

/// The fewest and the most fields of a record: a predicate, 1 to 8 arguments, and a score.
const LEAST_FIELDS: usize = 3;

const MOST_FIELDS: usize = 10;

/// The known scores of a file, of predicates that are asked for and have these names. Each record of the file is a predicate's
/// name, its arguments as they are printed, and the score. A record that stands there twice is taken once. An empty file has none.
/// A byte order mark at the file's start is passed over, unless one of the names begins with a mark: then it belongs to the first
/// record, since that is how a score of such a name is written.
///
/// # Errors
///
/// What refuses the file first, from its first record on:
///
/// - `NotEnded`: before any record is looked at, exactly where the last one isn't ended by a line feed, or that one stands in quotes.
/// - `FieldCount`: exactly where a record has fewer than 3 fields or more than 10.
/// - `NotUtf8`: exactly where a field isn't UTF-8.
/// - `NotAsked`: exactly where the first field is none of the names.
/// - `NotScore`: exactly where the last field is no whole number from -4,000,000,000,000,000,000 to 4,000,000,000,000,000,000.
/// - `Twice`: exactly where an earlier record has the same question and another score.
/// - `Memory`: at any call.
pub fn read_scores(alloc: Global, names: Vec<Text>, bytes: &[u8]) -> Result<KnownScores, KnownFault>
    requires { length bytes.now ≤ 33554432 }
    ensures { ReadsTable names.items (scores_in names.items bytes.now) result }
{
    let mut known = KnownScores::new(alloc, names);
    read_into(alloc, bytes, &mut known)?;
    Ok(known)
}

/// Reads the scores of a file into a table that has none.
fn read_into(alloc: Global, bytes: &[u8], known: &mut KnownScores) -> Result<(), KnownFault>
    requires few { length bytes.now ≤ 33554432 }
    requires none { known.old.scores ≡ [] }
    ensures { Reads known.old.names (scores_in known.old.names bytes.now) result known.new }
{
    if has_marked(known.names()) {
        // The reader takes one mark away, so the one that may stand there is kept.
        read_behind(alloc, &behind_mark(alloc, bytes)?, known)
    } else {
        read_behind(alloc, bytes, known)
    }
}

/// These bytes, with a byte order mark in front.
fn behind_mark(alloc: Global, bytes: &[u8]) -> Result<Vec<u8>, Memory>
    ensures { IfOk result (λ all. all.items ≡ 0xEF ∷ 0xBB ∷ 0xBF ∷ bytes.now) }
{
    let mut all = Vec::new(alloc);
    all.extend_from_slice(&[0xEF, 0xBB, 0xBF])?;
    all.extend_from_slice(bytes)?;
    Ok(all)
}

/// Reads the scores of the records behind one byte order mark into a table that has none.
fn read_behind(alloc: Global, bytes: &[u8], known: &mut KnownScores) -> Result<(), KnownFault>
    requires few { length (strip_bom bytes.now) ≤ 33554432 }
    requires none { known.old.scores ≡ [] }
    ensures { Reads known.old.names (scores_behind known.old.names bytes.now) result known.new }
{
    if !is_ended(bytes) {
        return Err(KnownFault::NotEnded);
    }
    read_records(alloc, bytes, known)
}

/// Whether the last record is ended.
fn is_ended(bytes: &[u8]) -> bool
    ensures { result ≡ is_ended bytes.now }
{
    let mut place = Place::Record;
    for byte in unmarked(bytes) {
        place = place.after(*byte);
    }
    place.is_record()
}

/// The bytes behind one byte order mark.
fn unmarked(bytes: &[u8]) -> &[u8]
    ensures { result.now ≡ strip_bom bytes.now }
{
    if is_marked(bytes) { &bytes[3..] } else { bytes }
}

/// Reads the scores of the records of a file into a table that has none.
fn read_records(alloc: Global, bytes: &[u8], known: &mut KnownScores) -> Result<(), KnownFault>
    requires few { length (strip_bom bytes.now) ≤ 33554432 }
    requires none { known.old.scores ≡ [] }
    ensures { Reads known.old.names (scores_from known.old.names 1 [] (records_of bytes.now)) result known.new }
{
    let mut reader = reader_of(alloc, bytes);
    let mut row = ByteRecord::new(alloc);
    let mut number = 0;
    while next_record(&mut reader, &mut row)? {
        number += 1;
        add_record(alloc, number, &row, known)?;
    }
    Ok(())
}

/// Adds the score of the record of this number.
fn add_record(
    alloc: Global,
    number: u64,
    row: &ByteRecord,
    known: &mut KnownScores,
) -> Result<(), KnownFault>
    ensures { (before : List KnownScore) → Knows known.old.names before known.old
        → Reads known.old.names (with_record known.old.names number before (fields_of row.now)) result known.new }
{
    let entry = known_of(alloc, known.names(), number, row)?;
    add_entry(number, entry, known)
}

/// Adds a score, where its question has none. The same score is taken once.
fn add_entry(number: u64, entry: KnownScore, known: &mut KnownScores) -> Result<(), KnownFault>
    requires { nat_abs entry.score ≤ greatest_int }
    ensures { (before : List KnownScore) → Knows known.old.names before known.old
        → Reads known.old.names (with_entry number before entry) result known.new }
{
    match known.score(&entry.question) {
        Some(score) if score == entry.score => Ok(()),
        Some(_) => Err(KnownFault::Twice { number }),
        None => {
            known.add(entry.question, entry.score)?;
            Ok(())
        }
    }
}

/// The question and the score of the record of this number.
fn known_of(
    alloc: Global,
    names: &[Text],
    number: u64,
    row: &ByteRecord,
) -> Result<KnownScore, KnownFault>
    ensures gives { Gives KnownFault.Memory (known_of names.now number (fields_of row.now)) result }
    ensures in_range { IfOk result (λ entry. nat_abs entry.score ≤ greatest_int) }
{
    let count = row.len();
    if count < LEAST_FIELDS {
        return Err(KnownFault::FieldCount {
            number,
            found: count as u64,
        });
    }
    if count > MOST_FIELDS {
        return Err(KnownFault::FieldCount {
            number,
            found: count as u64,
        });
    }
    let texts = texts_of(alloc, number, row)?;
    known_in(names, number, texts)
}

/// The texts of a record's fields.
fn texts_of(alloc: Global, number: u64, row: &ByteRecord) -> Result<Vec<Text>, KnownFault>
    ensures gives { MatchResult result (λ texts. texts_from number 1 (fields_of row.now) ≡ Ok texts.items)
        (λ fault. (fault ≡ KnownFault.Memory) ⊎ (texts_from number 1 (fields_of row.now) ≡ Err fault)) }
    ensures same { IfOk result (λ texts. texts.items ≡ fields_of row.now) }
{
    let mut texts = Vec::new(alloc);
    for index in 0..row.len() {
        texts.push(text_of(alloc, number, index as u64 + 1, field_at(row, index))?)?;
    }
    Ok(texts)
}

/// The field of a record at this place, counted from 0.
fn field_at(row: &ByteRecord, place: usize) -> &[u8]
    requires { place < length (fields_of row.now) }
    ensures { result.now ≡ slice_index_or (fields_of row.now) place [] }
{
    row.get(place).unwrap()
}

/// The text of a field.
fn text_of(alloc: Global, number: u64, field: u64, bytes: &[u8]) -> Result<Text, KnownFault>
    ensures { Gives KnownFault.Memory (if is_utf8 bytes.now then Ok bytes.now else Err (KnownFault.NotUtf8 number field)) result }
{
    match Text::from_bytes(alloc, bytes) {
        Ok(text) => Ok(text),
        Err(TextFault::NotUtf8 { .. }) => Err(KnownFault::NotUtf8 { number, field }),
        Err(TextFault::Memory) => Err(KnownFault::Memory),
    }
}

/// The question and the score of the texts of a record.
fn known_in(names: &[Text], number: u64, mut texts: Vec<Text>) -> Result<KnownScore, KnownFault>
    requires { 0 < length texts.items }
    ensures value { result ≡ known_in names.now number texts.items }
    ensures in_range { IfOk result (λ entry. nat_abs entry.score ≤ greatest_int) }
{
    if !names.contains(&texts[0]) {
        return Err(KnownFault::NotAsked { number });
    }
    let last = texts.pop().unwrap();
    match int_of(last.bytes()) {
        Some(score) => Ok(KnownScore {
            question: Question::new(texts),
            score,
        }),
        None => Err(KnownFault::NotScore { number }),
    }
}
