ghost use Rattle.std.specs.Prelude.{◌≡◌, IfOk, option_map};
ghost use Rattle.rs_scores.specs.Names.{are_names, has_marked, is_blank, is_marked, is_name, names_in, parts_of};

use rs_value::{Memory, Text};
use std::alloc::Global;

/// The names in a word, parted at commas, or `None` where one of its parts is empty, begins or ends with a blank, or stands there
/// twice.
///
/// # Errors
///
/// - `Memory`: at any call.
/// - `None`: exactly where a part is empty or has a blank at an end, or two parts are the same.
pub fn names_in(alloc: Global, word: &Text) -> Result<Option<Vec<Text>>, Memory>
    ensures { IfOk result (λ names. option_map (λ texts. texts.items) names ≡ names_in word.now) }
{
    let parts = parts_of(alloc, word)?;
    if are_names(&parts) {
        Ok(Some(parts))
    } else {
        drop(parts);
        Ok(None)
    }
}

/// The parts of a word between its commas.
fn parts_of(alloc: Global, word: &Text) -> Result<Vec<Text>, Memory>
    ensures { IfOk result (λ parts. parts.items ≡ parts_of word.now) }
{
    let mut parts = Vec::new(alloc);
    for part in word.as_str().split(',') {
        parts.push(Text::from(String::from_str(alloc, part)?))?;
    }
    Ok(parts)
}

/// Whether these are names, no two of them the same.
fn are_names(names: &[Text]) -> bool
    ensures { result ≡ are_names names.now }
{
    for place in 0..names.len() {
        if !is_name(names[place].bytes()) {
            return false;
        }
        if names[place + 1..].contains(&names[place]) {
            return false;
        }
    }
    true
}

/// Whether this can be a name.
fn is_name(name: &[u8]) -> bool
    ensures { result ≡ is_name name.now }
{
    match (name.first(), name.last()) {
        (Some(first), Some(last)) => !is_blank(*first) && !is_blank(*last),
        _ => false,
    }
}

/// Whether a byte is a space or a tab.
fn is_blank(byte: u8) -> bool
    ensures { result ≡ is_blank byte }
{
    byte == b' ' || byte == b'\t'
}

/// Whether a byte order mark stands in front of one of these names.
pub(crate) fn has_marked(names: &[Text]) -> bool
    ensures { result ≡ has_marked names.now }
{
    for place in 0..names.len() {
        if is_marked(names[place].bytes()) {
            return true;
        }
    }
    false
}

/// Whether a byte order mark stands in front.
pub(crate) fn is_marked(name: &[u8]) -> bool
    ensures { result ≡ is_marked name.now }
{
    match name {
        [first, second, third, ..] => *first == 0xEF && *second == 0xBB && *third == 0xBF,
        _ => false,
    }
}
