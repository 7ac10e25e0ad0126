ghost use Rattle.std.specs.Prelude.{◌≡◌, IfOk, option_map};
ghost use Rattle.rs_statement.specs.declared.sampling.Sampling.TheVariants.{ByGuesses};
ghost use Rattle.rs_run.specs.Words.{first_form, form_by, plain_words, run_words};
ghost use Rattle.ranksql_ask.specs.Words.{asking_forms, request_of};
ghost use Rattle.ranksql_ask.specs.Parts.Asking.{form_of_asking, request_made};

use rs_prepare::EndNames;
use rs_run::{Evaluating, Sampling, number_word};
use rs_scores::names_in;
use rs_value::{Memory, Text};
use std::alloc::Global;

/// The script that is run, and how its queries are evaluated.
#[derive(Clone, Copy)]
pub struct Asking<'a> {
    pub script: &'a Text,
    pub evaluating: Evaluating,
}

/// What all words ask for: the predicates that are asked for, the files, and what is run.
#[derive(Drop)]
pub struct Request<'a> {
    pub names: Vec<Text>,
    pub ends: EndNames<'a>,
    pub asking: Asking<'a>,
}

/// What words ask for, where they are `NAMES SCORES QUESTIONS ANSWERS` and then `plain SCRIPT` or `run SCRIPT SEED`, and NAMES are names of
/// predicates.
///
/// # Errors
///
/// - `None`: exactly where the words are none of these.
/// - `Memory`: at any call.
pub fn request_of(alloc: Global, words: &[Text]) -> Result<Option<Request<'_>>, Memory>
    ensures { IfOk result (λ request. option_map request_made request ≡ request_of words.now) }
{
    let [names, scores, questions, answers, rest @ ..] = words else {
        return Ok(None);
    };
    let Some(asking) = asking_of(rest) else {
        return Ok(None);
    };
    let Some(names) = names_in(alloc, names)? else {
        return Ok(None);
    };
    let ends = EndNames {
        scores,
        questions,
        answers,
    };
    Ok(Some(Request {
        names,
        ends,
        asking,
    }))
}

/// What words ask for, where they are `plain SCRIPT` or `run SCRIPT SEED`. Under `run` plans are chosen by guesses.
fn asking_of(words: &[Text]) -> Option<Asking<'_>>
    ensures { option_map form_of_asking result ≡ first_form asking_forms words.now }
{
    if let Some(asking) = plain_asking(words) {
        return Some(asking);
    }
    guessing(words)
}

/// What the words `plain SCRIPT` ask for.
fn plain_asking(words: &[Text]) -> Option<Asking<'_>>
    ensures { option_map form_of_asking result ≡ form_by plain_words words.now }
{
    let [word, script] = words else {
        return None;
    };
    if word.as_str() != "plain" {
        return None;
    }
    Some(Asking {
        script,
        evaluating: Evaluating::Plainly,
    })
}

/// What the words `run SCRIPT SEED` ask for.
fn guessing(words: &[Text]) -> Option<Asking<'_>>
    ensures { option_map form_of_asking result ≡ form_by (run_words ByGuesses) words.now }
{
    let [word, script, seed] = words else {
        return None;
    };
    if word.as_str() != "run" {
        return None;
    }
    let seed = number_word(seed, 0, u64::MAX)?;
    let evaluating = Evaluating::Planned(Sampling::ByGuesses(seed));
    Some(Asking { script, evaluating })
}
