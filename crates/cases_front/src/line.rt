//! What the lines ask for.

use crate::formulas::{tell_formula, tell_width};
use crate::scripts::{Asked, tell_script};
use crate::statements::{Wanted, tell_parsed};
use crate::tables::{tell_cell, tell_place, tell_rows};
use crate::values::{
    tell_digits, tell_line, tell_list, tell_no_memory, tell_no_texts, tell_number,
    tell_order_of_numbers, tell_order_of_texts, tell_place_of_key, tell_print, tell_text,
    tell_whether,
};
use cases_lines::{Cases, Fault, count_of, cut_word, read_escaped, read_times};
use std::alloc::Global;
use std::hash::RandomState;

/// The bytes of the last line `file`, and of the lines `more` behind it, and the keys by which texts of tables are hashed.
#[derive(Drop)]
pub struct Front {
    file: Vec<u8>,
    hash_keys: RandomState,
}

impl Front {
    pub fn new(alloc: Global, hash_keys: RandomState) -> Front {
        Front {
            file: Vec::new(alloc),
            hash_keys,
        }
    }
}

impl Cases for Front {
    fn answer(&mut self, alloc: Global, line: &[u8]) -> Result<String, Fault> {
        let (word, rest) = cut_word(line);
        match word {
            b"file" => {
                set_file(rest, &mut self.file)?;
                Ok(String::new(alloc))
            }
            b"more" => {
                add_to_file(rest, &mut self.file)?;
                Ok(String::new(alloc))
            }
            b"tree" => tell_parsed(alloc, Wanted::Tree, rest),
            b"read" => tell_parsed(alloc, Wanted::Verdict, rest),
            _ => told_line(alloc, answer(alloc, word, rest, self)?),
        }
    }
}

/// The line that tells an answer.
fn told_line(alloc: Global, answer: String) -> Result<String, Fault> {
    Ok(format!(in alloc; "  {answer}\n")?)
}

fn set_file(escaped: &[u8], file: &mut Vec<u8>) -> Result<(), Fault> {
    file.clear();
    read_escaped(escaped, file)
}

/// Adds bytes as often as the number in front of them says.
fn add_to_file(words: &[u8], file: &mut Vec<u8>) -> Result<(), Fault> {
    let (count, escaped) = cut_word(words);
    read_times(count_of(count)?, escaped, file)
}

fn answer(alloc: Global, word: &[u8], rest: &[u8], front: &Front) -> Result<String, Fault> {
    match word {
        b"number" => tell_number(alloc, rest),
        b"digits" => tell_digits(alloc, rest),
        b"text" => tell_text(alloc, rest),
        b"numbers" => tell_order_of_numbers(alloc, rest),
        b"texts" => tell_order_of_texts(alloc, rest),
        b"holds" => tell_whether(alloc, rest),
        b"print" => tell_print(alloc, rest),
        b"line" => tell_line(alloc, rest),
        _ => answer_of_parts(alloc, word, rest, front),
    }
}

fn answer_of_parts(
    alloc: Global,
    word: &[u8],
    rest: &[u8],
    front: &Front,
) -> Result<String, Fault> {
    match word {
        b"find" => tell_place_of_key(alloc, rest),
        b"list" => tell_list(alloc, rest),
        b"width" => tell_width(alloc, rest),
        b"formula" => tell_formula(alloc, rest),
        b"no-texts" => tell_no_texts(alloc),
        b"no-memory" => tell_no_memory(alloc),
        _ => answer_of_file(alloc, word, rest, front),
    }
}

fn answer_of_file(alloc: Global, word: &[u8], rest: &[u8], front: &Front) -> Result<String, Fault> {
    let Front { file, hash_keys } = front;
    match word {
        b"tokens" => tell_script(alloc, Asked::Tokens, file),
        b"count" => tell_script(alloc, Asked::Count, file),
        b"lexemes" => tell_script(alloc, Asked::Lexemes, file),
        b"place" => tell_place(alloc, rest, file),
        b"rows" => tell_rows(alloc, *hash_keys, rest, file),
        b"cell" => tell_cell(alloc, *hash_keys, rest, file),
        _ => Err(Fault::Form),
    }
}
