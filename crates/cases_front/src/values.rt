//! What is asked of numbers, texts and values.

ghost use Rattle.std.specs.Prelude.{◌≡◌};
ghost use Rattle.rs_value.specs.Value.{kind_of};

use cases_lines::{
    Fault, bytes_of, cut_word, number_of, numbers_of, print_escaped, text_of, value_of,
};
use rs_lines::RowLines;
use rs_value::{List, Rel, Text, TextFault, Value, decimal_of, int_of};
use std::alloc::Global;
use std::cmp::Ordering;
use std::collections::BTreeMap;

/// The number that a cell of these bytes is.
pub fn tell_number(alloc: Global, word: &[u8]) -> Result<String, Fault> {
    let bytes = bytes_of(alloc, word)?;
    match int_of(&bytes) {
        Some(number) => Ok(format!(in alloc; "{number}")?),
        None => Ok(String::from_str(alloc, "none")?),
    }
}

/// What digits are, up to the number in front of them.
pub fn tell_digits(alloc: Global, words: &[u8]) -> Result<String, Fault> {
    let (most, digits) = cut_word(words);
    match decimal_of(digits, number_of(most)?) {
        Some(number) => Ok(format!(in alloc; "{number}")?),
        None => Ok(String::from_str(alloc, "none")?),
    }
}

/// The text of these bytes: its bytes, its characters, and those of a copy. Else why there is none.
pub fn tell_text(alloc: Global, word: &[u8]) -> Result<String, Fault> {
    let bytes = bytes_of(alloc, word)?;
    match Text::from_bytes(alloc, &bytes) {
        Ok(text) => tell_parts(alloc, &text),
        Err(TextFault::Memory) => Err(Fault::Memory),
        Err(fault) => Ok(format!(in alloc; "{fault}")?),
    }
}

/// What is said where there is no memory for a text.
pub fn tell_no_memory(alloc: Global) -> Result<String, Fault> {
    let fault = TextFault::Memory;
    Ok(format!(in alloc; "{fault}")?)
}

fn tell_parts(alloc: Global, text: &Text) -> Result<String, Fault> {
    let mut told = String::new(alloc);
    print_escaped(text.bytes(), &mut told)?;
    told.push_str(" ")?;
    told.push_str(text.as_str())?;
    told.push_str(" ")?;
    let copied = text.copy()?;
    told.push_str(copied.as_str())?;
    Ok(told)
}

/// The order of two numbers.
pub fn tell_order_of_numbers(alloc: Global, words: &[u8]) -> Result<String, Fault> {
    let (a, b) = cut_word(words);
    let (Some(a), Some(b)) = (int_of(a), int_of(b)) else {
        return Err(Fault::Form);
    };
    let order = order(Value::Int(a), Value::Int(b));
    Ok(format!(in alloc; "{order:?}")?)
}

fn order(a: Value, b: Value) -> Ordering
    requires { kind_of a ≡ kind_of b }
{
    a.cmp(&b)
}

/// The order of two texts, and whether they are equal.
pub fn tell_order_of_texts(alloc: Global, words: &[u8]) -> Result<String, Fault> {
    let (a, b) = cut_word(words);
    let (order, equal) = order_of_texts(alloc, a, b)?;
    Ok(format!(in alloc; "{order:?} {equal}")?)
}

fn order_of_texts(alloc: Global, a: &[u8], b: &[u8]) -> Result<(Ordering, bool), Fault> {
    let a = text_of(alloc, a)?;
    let b = text_of(alloc, b)?;
    let equal = a == b;
    Ok((order(Value::Text(a), Value::Text(b)), equal))
}

/// Whether a comparison holds of two numbers.
pub fn tell_whether(alloc: Global, words: &[u8]) -> Result<String, Fault> {
    let (rel, words) = cut_word(words);
    let rel = rel_of(rel)?;
    let (a, b) = cut_word(words);
    let holds = rel.holds(number_of(a)?.cmp(&number_of(b)?));
    Ok(format!(in alloc; "{holds}")?)
}

/// The comparison that a word stands for.
pub fn rel_of(word: &[u8]) -> Result<Rel, Fault> {
    match word {
        b"=" => Ok(Rel::Eq),
        b"<>" => Ok(Rel::Ne),
        b"<" => Ok(Rel::Lt),
        b"<=" => Ok(Rel::Le),
        b">" => Ok(Rel::Gt),
        b">=" => Ok(Rel::Ge),
        _ => Err(Fault::Form),
    }
}

/// The kind of a copy of the value that a word stands for, and what the copy prints behind `at `.
pub fn tell_print(alloc: Global, word: &[u8]) -> Result<String, Fault> {
    let value = value_of(alloc, word)?;
    tell_value(alloc, &value)
}

fn tell_value(alloc: Global, value: &Value) -> Result<String, Fault> {
    let copied = value.copy()?;
    let kind = copied.kind();
    let printed = printed(alloc, &copied);
    drop(copied);
    let mut told = format!(in alloc; "{kind:?} ")?;
    print_escaped(&printed?, &mut told)?;
    Ok(told)
}

/// What the value prints, behind `at `.
fn printed(alloc: Global, value: &Value) -> Result<Vec<u8>, Fault> {
    let mut bytes = b"at ".to_vec(alloc)?;
    value.print(&mut bytes)?;
    Ok(bytes)
}

/// The line of a printed row: of a rank, a score and values.
pub fn tell_line(alloc: Global, words: &[u8]) -> Result<String, Fault> {
    let (rank, words) = cut_word(words);
    let (score, words) = cut_word(words);
    let rank = rank_of(rank)?;
    let score = number_of(score)?;
    let values = values_of(alloc, words, b' ')?;
    let mut lines = RowLines::new(alloc);
    let mut told = String::new(alloc);
    print_escaped(lines.line(rank, score, &values)?, &mut told)?;
    Ok(told)
}

fn rank_of(word: &[u8]) -> Result<u128, Fault> {
    match word {
        b"greatest" => Ok(u128::MAX),
        _ => Ok(number_of(word)? as u128),
    }
}

/// The values whose words have this byte between.
pub fn values_of(alloc: Global, words: &[u8], between: u8) -> Result<Vec<Value>, Fault> {
    let mut values = Vec::new(alloc);
    if words.is_empty() {
        return Ok(values);
    }
    for word in words.split(|byte| *byte == between) {
        values.push(value_of(alloc, word)?)?;
    }
    Ok(values)
}

/// The place of a key among those behind it, counted from 0. A key is values with `,` between.
pub fn tell_place_of_key(alloc: Global, words: &[u8]) -> Result<String, Fault> {
    let (key, words) = cut_word(words);
    let place = place_of(alloc, key, words)?;
    Ok(format!(in alloc; "{place:?}")?)
}

fn place_of(alloc: Global, key: &[u8], words: &[u8]) -> Result<Option<usize>, Fault> {
    let places = places_of(alloc, words)?;
    let key = values_of(alloc, key, b',')?;
    Ok(places.get(&key).copied())
}

fn places_of(alloc: Global, words: &[u8]) -> Result<BTreeMap<Vec<Value>, usize>, Fault> {
    let mut places = BTreeMap::new(alloc);
    for (place, word) in words.split(|byte| *byte == b' ').enumerate() {
        places.insert(values_of(alloc, word, b',')?, place)?;
    }
    Ok(places)
}

/// The items of a list of numbers, how many there are, whether there is none, and the items that are taken out of it.
pub fn tell_list(alloc: Global, words: &[u8]) -> Result<String, Fault> {
    let list = List::of(numbers_of(alloc, words)?);
    let items = list.items().as_slice();
    let count = list.len();
    let is_empty = list.is_empty();
    let told = format!(in alloc; "{items:?} {count} {is_empty}")?;
    let taken = list.into_items();
    let taken = taken.as_slice();
    Ok(format!(in alloc; "{told} {taken:?}")?)
}

/// Whether a list of no texts has no item.
pub fn tell_no_texts(alloc: Global) -> Result<String, Fault> {
    let is_empty = List::of(Vec::<Text>::new(alloc)).is_empty();
    Ok(format!(in alloc; "{is_empty}")?)
}
