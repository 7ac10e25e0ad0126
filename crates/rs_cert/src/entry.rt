ghost use Rattle.std.specs.Prelude.{◌≡◌, ◌∷◌, [], IfOk, MatchOption};
ghost use Rattle.csv.specs.Records.{fields_of};
ghost use Rattle.rs_cert.specs.Records.{AreNotThree, entry_of, greatest_number, number_up_to, pair_with, says_end, side_entry_of, wanted_of};

use csv::ByteRecord;
use rs_feed::FeedRow;
use rs_value::{Memory, Text, TextFault, int_of};
use std::alloc::Global;

/// The greatest number of pairs that can be wanted.
pub const MOST_WANTED: u32 = 1_000_000;

/// What a record says of a side.
#[derive(Drop)]
pub(crate) enum SideEntry {
    Row(FeedRow),
    /// There are no more rows.
    End,
}

/// What a record of a certificate behind the first one says.
#[derive(Drop)]
pub(crate) enum Entry {
    OfLeft(SideEntry),
    OfRight(SideEntry),
    /// The numbers of a left and of a right row.
    OfPair(u32, u32),
}

/// The three fields of a record that has as many.
fn three_fields(fields: &ByteRecord) -> Option<(&[u8], &[u8], &[u8])>
    ensures { MatchOption result (AreNotThree (fields_of fields.now)) (λ three. fields_of fields.now ≡ three.0.now ∷ three.1.now ∷ three.2.now ∷ []) }
{
    let first = fields.get(0)?;
    let second = fields.get(1)?;
    let third = fields.get(2)?;
    if fields.get(3).is_some() {
        return None;
    }
    Some((first, second, third))
}

/// The number of a field, where it is not negative and at most this great.
fn number_up_to(field: &[u8], most: u32) -> Option<u32>
    ensures { result ≡ number_up_to most field.now }
{
    let number = int_of(field)?;
    if number < 0 || number > i64::from(most) {
        return None;
    }
    Some(number as u32)
}

/// How many pairs are wanted, which the first record says.
pub(crate) fn wanted_of(fields: &ByteRecord) -> Option<u32>
    ensures { result ≡ wanted_of (fields_of fields.now) }
{
    let (name, form, wanted) = three_fields(fields)?;
    if name != b"cert".as_slice() || form != b"1".as_slice() {
        return None;
    }
    number_up_to(wanted, MOST_WANTED)
}

/// What a record behind the first one says, if it says anything.
pub(crate) fn entry_of(alloc: Global, fields: &ByteRecord) -> Result<Option<Entry>, Memory>
    ensures { IfOk result (λ entry. entry ≡ entry_of (fields_of fields.now)) }
{
    let Some((name, first, second)) = three_fields(fields) else {
        return Ok(None);
    };
    if name == b"left".as_slice() {
        let entry = side_entry_of(alloc, first, second)?;
        return Ok(entry.map(|entry| Entry::OfLeft(entry)));
    }
    if name == b"right".as_slice() {
        let entry = side_entry_of(alloc, first, second)?;
        return Ok(entry.map(|entry| Entry::OfRight(entry)));
    }
    if name == b"pair".as_slice() {
        return Ok(pair_of(first, second));
    }
    Ok(None)
}

/// What two fields say of a side.
fn side_entry_of(alloc: Global, first: &[u8], second: &[u8]) -> Result<Option<SideEntry>, Memory>
    ensures { IfOk result (λ entry. entry ≡ side_entry_of first.now second.now) }
{
    if says_end(first, second) {
        return Ok(Some(SideEntry::End));
    }
    let Some(score) = number_up_to(first, u32::MAX) else {
        return Ok(None);
    };
    match Text::from_bytes(alloc, second) {
        Ok(join) => Ok(Some(SideEntry::Row(FeedRow { join, score }))),
        Err(TextFault::NotUtf8 { .. }) => Ok(None),
        Err(TextFault::Memory) => Err(Memory),
    }
}

/// Whether two fields say that a side ended.
fn says_end(first: &[u8], second: &[u8]) -> bool
    ensures { result ≡ says_end first.now second.now }
{
    first == b"end".as_slice() && second == b"end".as_slice()
}

/// The pair of these numbers.
fn pair_of(first: &[u8], second: &[u8]) -> Option<Entry>
    ensures { result ≡ pair_with (number_up_to greatest_number first.now) (number_up_to greatest_number second.now) }
{
    let left = number_up_to(first, u32::MAX)?;
    let right = number_up_to(second, u32::MAX)?;
    Some(Entry::OfPair(left, right))
}
