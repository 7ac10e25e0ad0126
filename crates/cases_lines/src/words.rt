//! The words of a line, and the numbers, values and columns that they are.

ghost use Rattle.std.specs.Prelude.{◌≡◌, ◌≤◌, ◌∷◌, ◌++◌, IfOk, IfSome, OnErr, Some, None, length};
ghost use Rattle.rs_value.specs.Number.{decimal_value};
ghost use Rattle.cases_lines.specs.Words.{behind_word, word_of};

use crate::escape::text_of;
use crate::fault::Fault;
use rs_value::{Kind, Text, Value, decimal_of, int_of};
use std::alloc::Global;

/// The first word of a line, and what stands behind the space at its end.
pub fn cut_word(line: &[u8]) -> (&[u8], &[u8])
    ensures word { result.0.now ≡ word_of line.now }
    ensures behind { result.1.now ≡ behind_word line.now }
{
    match line.iter().position(|byte| *byte == b' ') {
        Some(at) => (&line[..at], &line[at + 1..]),
        None => (line, b""),
    }
}

/// What stands in front of the first such byte, and what behind it.
pub fn cut_at(bytes: &[u8], end: u8) -> Option<(&[u8], &[u8])>
    ensures { IfSome result (λ parts. bytes.now ≡ parts.0.now ++ end ∷ parts.1.now) }
{
    let at = bytes.iter().position(|byte| *byte == end)?;
    Some((&bytes[..at], &bytes[at + 1..]))
}

/// The number that decimal digits write.
pub fn number_of(word: &[u8]) -> Result<u64, Fault>
    ensures value { IfOk result (λ number. decimal_value 18446744073709551615 word.now ≡ Some number) }
    ensures none { OnErr result (decimal_value 18446744073709551615 word.now ≡ None) }
{
    match decimal_of(word, u64::MAX) {
        Some(number) => Ok(number),
        None => Err(Fault::Form),
    }
}

/// The same, of 32 bits.
pub fn count_of(word: &[u8]) -> Result<u32, Fault>
    ensures value { IfOk result (λ number. decimal_value 4294967295 word.now ≡ Some number) }
    ensures none { OnErr result (decimal_value 4294967295 word.now ≡ None) }
{
    match decimal_of(word, 4_294_967_295) {
        Some(number) => Ok(number as u32),
        None => Err(Fault::Form),
    }
}

/// The same, of 8 bits.
pub fn small_number_of(word: &[u8]) -> Result<u8, Fault>
    ensures value { IfOk result (λ number. decimal_value 255 word.now ≡ Some number) }
    ensures none { OnErr result (decimal_value 255 word.now ≡ None) }
{
    match decimal_of(word, 255) {
        Some(number) => Ok(number as u8),
        None => Err(Fault::Form),
    }
}

/// The numbers that words with one space between are, none where there is no word.
pub fn numbers_of(alloc: Global, words: &[u8]) -> Result<Vec<u64>, Fault> {
    let mut numbers = Vec::new(alloc);
    if words.is_empty() {
        return Ok(numbers);
    }
    for word in words.split(|byte| *byte == b' ') {
        numbers.push(number_of(word)?)?;
    }
    Ok(numbers)
}

/// The value that a word stands for: behind `'` a text, `least` the least number, and else a number.
pub fn value_of(alloc: Global, word: &[u8]) -> Result<Value, Fault> {
    match word {
        [b'\'', text @ ..] => Ok(Value::Text(text_of(alloc, text)?)),
        b"least" => Ok(Value::Int(i64::MIN)),
        _ => match int_of(word) {
            Some(number) => Ok(Value::Int(number)),
            None => Err(Fault::Form),
        },
    }
}

/// The columns that a word stands for, with `,` between: each is a name, behind `#` of numbers, else of texts.
pub fn columns_of(alloc: Global, word: &[u8]) -> Result<Vec<(Text, Kind)>, Fault>
    ensures some { IfOk result (λ columns. 1 ≤ length columns.items) }
    ensures few { IfOk result (λ columns. length columns.items ≤ 64) }
{
    let mut columns = Vec::new(alloc);
    for column in word.split(|byte| *byte == b',') {
        columns.push(column_of(alloc, column)?)?;
    }
    if columns.is_empty() || columns.len() > 64 {
        return Err(Fault::Form);
    }
    Ok(columns)
}

fn column_of(alloc: Global, word: &[u8]) -> Result<(Text, Kind), Fault> {
    match word {
        [b'#', name @ ..] => Ok((text_of(alloc, name)?, Kind::Int)),
        name => Ok((text_of(alloc, name)?, Kind::Text)),
    }
}
