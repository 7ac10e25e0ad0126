ghost use Rattle.std.specs.Prelude.{◌≡◌, ◌≤◌, ◌==◌, IfSome, IsTrue, length, not};
ghost use Rattle.rs_lex.specs.Bytes.{is_letter, is_digit, is_word_byte, is_blank, begins, quote, apostrophe};
ghost use Rattle.rs_lex.specs.Front.{front_of, run_length, closed_length, number_front, quoted_front, literal_front, symbol_front, is_pair, is_symbol, begins_comment};

use crate::token::Sort;
use rs_value::{GREATEST_INT, decimal_of};

/// What stands at the front of the rest of a script.
#[derive(Clone, Copy, Debug, PartialEq, Eq)]
pub enum Front {
    /// Nothing.
    End,
    /// This many bytes that stand between tokens.
    Gap(usize),
    /// A token of this many bytes.
    Found(Sort, usize),
    /// A byte at which no token may begin, this many bytes further.
    Bad(usize),
    /// A text that is never closed.
    Open,
    /// A number that is too great.
    Wide,
}

/// Whether a word may begin with this byte.
fn is_letter(byte: u8) -> bool
    ensures { result ≡ is_letter byte }
{
    matches!(byte, b'A'..=b'Z' | b'a'..=b'z' | b'_')
}

fn is_digit(byte: u8) -> bool
    ensures { result ≡ is_digit byte }
{
    matches!(byte, b'0'..=b'9')
}

fn is_word_byte(byte: u8) -> bool
    ensures { result ≡ is_word_byte byte }
{
    is_letter(byte) || is_digit(byte)
}

fn is_blank(byte: u8) -> bool
    ensures { result ≡ is_blank byte }
{
    matches!(byte, b' ' | b'\t' | b'\n' | b'\r')
}

fn is_pair(first: u8, second: u8) -> bool
    ensures { result ≡ is_pair first second }
{
    matches!(
        (first, second),
        (b'<', b'>' | b'=') | (b'!', b'=') | (b'>', b'=')
    )
}

fn is_symbol(byte: u8) -> bool
    ensures { result ≡ is_symbol byte }
{
    matches!(
        byte,
        b'(' | b')' | b',' | b';' | b'.' | b'+' | b'-' | b'*' | b'/' | b'=' | b'<' | b'>'
    )
}

/// How many blanks stand at the front.
fn blanks(bytes: &[u8]) -> usize
    ensures { result ≡ run_length is_blank bytes.now }
{
    bytes.iter().take_while(|byte| is_blank(**byte)).count()
}

/// How many bytes stand in front of the next line feed, or of the end.
fn line_length(bytes: &[u8]) -> usize
    ensures { result ≡ run_length (λ c. not (c == 10)) bytes.now }
{
    bytes.iter().take_while(|byte| **byte != b'\n').count()
}

fn word_length(bytes: &[u8]) -> usize
    ensures { result ≡ run_length is_word_byte bytes.now }
{
    bytes.iter().take_while(|byte| is_word_byte(**byte)).count()
}

fn digits(bytes: &[u8]) -> usize
    ensures { result ≡ run_length is_digit bytes.now }
{
    bytes.iter().take_while(|byte| is_digit(**byte)).count()
}

/// How many bytes close a text behind its first mark, the mark at its end included, or `None` where it is
/// never closed.
fn closed_length(mark: u8, bytes: &[u8]) -> Option<usize>
    ensures value { result ≡ closed_length mark bytes.now }
    ensures within { IfSome result (λ n. n ≤ length bytes.now) }
{
    let mut at = 0;
    while at < bytes.len() {
        if bytes[at] != mark {
            at += 1;
        } else if at + 1 < bytes.len() && bytes[at + 1] == mark {
            at += 2;
        } else {
            return Some(at + 1);
        }
    }
    None
}

/// A number at the front, which begins with a digit.
fn number_front(bytes: &[u8]) -> Front
    requires { IsTrue (begins is_digit bytes.now) }
    ensures { result ≡ number_front bytes.now }
{
    let (number, after) = bytes.split_at(digits(bytes));
    if decimal_of(number, GREATEST_INT).is_none() {
        return Front::Wide;
    }
    match after {
        [next, ..] if is_letter(*next) => Front::Bad(number.len()),
        _ => Front::Found(Sort::Number, number.len()),
    }
}

/// A name between marks, behind the first one.
fn quoted_front(after: &[u8]) -> Front
    ensures { result ≡ quoted_front (closed_length quote after.now) }
{
    match closed_length(b'"', after) {
        None => Front::Open,
        Some(1) => Front::Bad(0),
        Some(length) => Front::Found(Sort::Quoted, length + 1),
    }
}

/// A text between marks, behind the first one.
fn literal_front(after: &[u8]) -> Front
    ensures { result ≡ literal_front (closed_length apostrophe after.now) }
{
    match closed_length(b'\'', after) {
        None => Front::Open,
        Some(length) => Front::Found(Sort::Literal, length + 1),
    }
}

fn symbol_front(byte: u8, after: &[u8]) -> Front
    ensures { result ≡ symbol_front byte after.now }
{
    match after {
        [next, ..] if is_pair(byte, *next) => Front::Found(Sort::Symbol, 2),
        _ if is_symbol(byte) => Front::Found(Sort::Symbol, 1),
        _ => Front::Bad(0),
    }
}

/// Whether a comment begins with this byte.
fn begins_comment(byte: u8, after: &[u8]) -> bool
    ensures { result ≡ begins_comment byte after.now }
{
    byte == b'-' && after.first() == Some(&b'-')
}

/// What stands at the front of the rest of a script. It reads the bytes of that token or gap and at most
/// two more, so that reading a script from front to front takes time linear in its length.
pub fn front_at(rest: &[u8]) -> Front
    ensures { result ≡ front_of rest.now }
{
    let [byte, after @ ..] = rest else {
        return Front::End;
    };
    let byte = *byte;
    if is_blank(byte) {
        Front::Gap(blanks(rest))
    } else if begins_comment(byte, after) {
        Front::Gap(line_length(rest))
    } else if is_letter(byte) {
        Front::Found(Sort::Word, word_length(rest))
    } else if is_digit(byte) {
        number_front(rest)
    } else if byte == b'"' {
        quoted_front(after)
    } else if byte == b'\'' {
        literal_front(after)
    } else {
        symbol_front(byte, after)
    }
}
