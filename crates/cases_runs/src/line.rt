//! What the lines ask for.

use crate::fakes::Fakes;
use crate::told::tell_run;
use cases_lines::{Cases, Fault, count_of, cut_word, number_of, text_of};
use rs_run::Status;
use rs_value::{Text, Value, int_of};
use std::alloc::Global;

impl Cases for Fakes {
    fn answer(&mut self, alloc: Global, line: &[u8]) -> Result<String, Fault> {
        let (word, rest) = cut_word(line);
        match word {
            b"run" => tell_words(alloc, rest, self),
            b"guess" => tell_guesses(alloc, rest, self),
            _ => {
                prepare(alloc, word, rest, self)?;
                Ok(String::new(alloc))
            }
        }
    }
}

/// Runs the words of a line, and tells what came of it.
fn tell_words(alloc: Global, words: &[u8], fakes: &mut Fakes) -> Result<String, Fault> {
    let words = words_of(alloc, words)?;
    let status = fakes.run(alloc, &words)?;
    tell_and_forget(alloc, status, fakes)
}

/// Runs a script by plans that are chosen by guesses, and tells what came of it.
fn tell_guesses(alloc: Global, rest: &[u8], fakes: &mut Fakes) -> Result<String, Fault> {
    let (script, seed) = cut_word(rest);
    let script = text_of(alloc, script)?;
    let status = fakes.run_by_guesses(alloc, &script, number_of(seed)?)?;
    tell_and_forget(alloc, status, fakes)
}

/// Tells what came of a run, which is then forgotten.
fn tell_and_forget(alloc: Global, status: Status, fakes: &mut Fakes) -> Result<String, Fault> {
    let told = tell_run(alloc, status, fakes)?;
    fakes.forget_run(alloc);
    Ok(told)
}

/// The words of a command line.
fn words_of(alloc: Global, line: &[u8]) -> Result<Vec<Text>, Fault> {
    let mut words = Vec::new(alloc);
    if line.is_empty() {
        return Ok(words);
    }
    for word in line.split(|byte| *byte == b' ') {
        words.push(text_of(alloc, word)?)?;
    }
    Ok(words)
}

/// Does what a line asks for that is no run.
fn prepare(alloc: Global, word: &[u8], rest: &[u8], fakes: &mut Fakes) -> Result<(), Fault> {
    match word {
        b"file" => {
            let (name, bytes) = cut_word(rest);
            fakes.set_file(alloc, name, bytes)
        }
        b"front" => fakes.add_to_front(rest),
        b"script" => fakes.set_script(alloc, rest),
        b"more" => {
            let (count, bytes) = cut_word(rest);
            fakes.add_to_file(count_of(count)?, bytes)
        }
        b"score" => write_score(alloc, rest, fakes),
        b"fail" => plan_failure(rest, fakes),
        _ => Err(Fault::Form),
    }
}

/// Writes the score of a call.
fn write_score(alloc: Global, rest: &[u8], fakes: &mut Fakes) -> Result<(), Fault> {
    let (score, call) = cut_word(rest);
    let Some(score) = int_of(score) else {
        return Err(Fault::Form);
    };
    let (predicate, args) = cut_word(call);
    let predicate = text_of(alloc, predicate)?;
    let args = values_of(alloc, args)?;
    fakes.scorer.set(&predicate, &args, score as i128)?;
    Ok(())
}

/// The arguments of a call: numbers, and each word that is no number is a text.
fn values_of(alloc: Global, args: &[u8]) -> Result<Vec<Value>, Fault> {
    let mut values = Vec::new(alloc);
    for word in args.split(|byte| *byte == b' ') {
        values.push(value_of(alloc, word)?)?;
    }
    Ok(values)
}

fn value_of(alloc: Global, word: &[u8]) -> Result<Value, Fault> {
    match int_of(word) {
        Some(number) => Ok(Value::Int(number)),
        None => Ok(Value::Text(text_of(alloc, word)?)),
    }
}

/// Plans that something fails in the next run.
fn plan_failure(rest: &[u8], fakes: &mut Fakes) -> Result<(), Fault> {
    let (what, rest) = cut_word(rest);
    let (number, after) = cut_word(rest);
    let number = count_of(number)?;
    match what {
        b"call" => fakes.scorer.fail_at(number as u64)?,
        b"fetch" => fakes.fail_fetch(number)?,
        b"out" => fakes.out.fail_at(number, count_of(after)? as usize)?,
        b"err" => fakes.err.fail_at(number, count_of(after)? as usize)?,
        _ => return Err(Fault::Form),
    }
    Ok(())
}
