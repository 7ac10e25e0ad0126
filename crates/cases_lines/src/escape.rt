//! The bytes that escaped ones stand for, and how bytes are printed.
//!
//! `\n` stands for a line feed, `\r` for a carriage return, `\t` for a tab, `\s` for a space, `\\` for a backslash,
//! `\xHH` for the byte with these two hexadecimal digits, and `\-` for no byte. `{N:TEXT}` stands for a text that comes
//! N times, and `\#` in it for the number of the time in two digits, from 01. The text has no such braces in it.

ghost use Rattle.std.specs.Prelude.{◌≡◌, ◌<◌, IfSome};
ghost use Rattle.cases_lines.specs.Words.{digit_meaning, letter_meaning};

use crate::fault::Fault;
use crate::words::{count_of, cut_at};
use rs_value::{Memory, Text, Value};
use std::alloc::Global;
use std::slice::Iter;

/// The text that a word stands for.
pub fn text_of(alloc: Global, word: &[u8]) -> Result<Text, Fault> {
    let bytes = bytes_of(alloc, word)?;
    Ok(Text::from_bytes(alloc, &bytes)?)
}

/// The bytes that a word stands for.
pub fn bytes_of(alloc: Global, word: &[u8]) -> Result<Vec<u8>, Fault> {
    let mut bytes = Vec::new(alloc);
    read_escaped(word, &mut bytes)?;
    Ok(bytes)
}

/// Adds the bytes that these stand for.
pub fn read_escaped(bytes: &[u8], into: &mut Vec<u8>) -> Result<(), Fault> {
    let mut rest = bytes;
    for _ in 0..bytes.len() {
        let Some((front, behind)) = cut_at(rest, b'{') else {
            break;
        };
        read_plain(front, 0, into)?;
        let Some((repeated, behind)) = cut_at(behind, b'}') else {
            return Err(Fault::Form);
        };
        read_repeated(repeated, into)?;
        rest = behind;
    }
    read_plain(rest, 0, into)
}

/// Adds the bytes of a text that comes several times: `N:TEXT`.
fn read_repeated(bytes: &[u8], into: &mut Vec<u8>) -> Result<(), Fault> {
    match cut_at(bytes, b':') {
        Some((times, text)) => read_times(count_of(times)?, text, into),
        None => Err(Fault::Form),
    }
}

/// Adds the bytes that these stand for this many times. None of them is repeated in itself.
pub fn read_times(times: u32, bytes: &[u8], into: &mut Vec<u8>) -> Result<(), Fault> {
    for number in 1..=times {
        read_plain(bytes, number, into)?;
    }
    Ok(())
}

/// Adds the bytes that these stand for, at the time of this number.
fn read_plain(bytes: &[u8], number: u32, into: &mut Vec<u8>) -> Result<(), Fault> {
    let mut rest = bytes.iter();
    for _ in 0..bytes.len() {
        match rest.next() {
            Some(b'\\') => read_escape(&mut rest, number, into)?,
            Some(byte) => into.push(*byte)?,
            None => break,
        }
    }
    Ok(())
}

/// Adds the bytes of an escape, which is read behind its backslash.
fn read_escape(rest: &mut Iter<'_, u8>, number: u32, into: &mut Vec<u8>) -> Result<(), Fault> {
    let byte = match rest.next() {
        Some(b'-') => return Ok(()),
        Some(b'#') => {
            into.extend_from_slice(&two_digits(number))?;
            return Ok(());
        }
        Some(b'x') => hex_byte(rest.next(), rest.next()),
        Some(letter) => letter_byte(*letter),
        None => None,
    };
    match byte {
        Some(byte) => {
            into.push(byte)?;
            Ok(())
        }
        None => Err(Fault::Form),
    }
}

/// The byte that a backslash and this letter stand for.
fn letter_byte(letter: u8) -> Option<u8>
    ensures { result ≡ letter_meaning letter }
{
    match letter {
        b'n' => Some(b'\n'),
        b'r' => Some(b'\r'),
        b't' => Some(b'\t'),
        b's' => Some(b' '),
        b'\\' => Some(b'\\'),
        _ => None,
    }
}

/// The byte with these hexadecimal digits.
fn hex_byte(high: Option<&u8>, low: Option<&u8>) -> Option<u8> {
    let (Some(high), Some(low)) = (high, low) else {
        return None;
    };
    Some(16 * hex_digit(*high)? + hex_digit(*low)?)
}

fn hex_digit(digit: u8) -> Option<u8>
    ensures value { result ≡ digit_meaning digit }
    ensures digit { IfSome result (λ number. number < 16) }
{
    match digit {
        b'0'..=b'9' => Some(digit - b'0'),
        b'A'..=b'F' => Some(digit - b'A' + 10),
        _ => None,
    }
}

/// The last two digits of a number.
fn two_digits(number: u32) -> [u8; 2] {
    [b'0' + (number / 10 % 10) as u8, b'0' + (number % 10) as u8]
}

/// Adds bytes so that they can be read in one line: printable characters of ASCII as they are, others as escapes.
pub fn print_escaped(bytes: &[u8], into: &mut String) -> Result<(), Memory> {
    for byte in bytes {
        print_byte(*byte, into)?;
    }
    Ok(())
}

/// Adds a call of a predicate: its name and its arguments, with one space between.
pub fn print_call(predicate: &[u8], args: &[Value], into: &mut String) -> Result<(), Memory> {
    print_escaped(predicate, into)?;
    for value in args {
        let mut bytes = Vec::new(*into.allocator());
        value.print(&mut bytes)?;
        into.push_str(" ")?;
        print_escaped(&bytes, into)?;
    }
    Ok(())
}

fn print_byte(byte: u8, into: &mut String) -> Result<(), Memory> {
    match byte {
        b'\n' => into.push_str("\\n")?,
        b'\r' => into.push_str("\\r")?,
        b'\\' => into.push_str("\\\\")?,
        b' '..=b'~' => into.push(char::from(byte))?,
        byte => into.push_str(format!(in *into.allocator(); "\\x{byte:02X}")?.as_str())?,
    }
    Ok(())
}
