ghost use Rattle.std.specs.Prelude.{◌≡◌, option_map};
ghost use Rattle.rs_stream_word.specs.Words.{count_word, form_of, words_form};

use rs_value::{Text, decimal_of};

/// The greatest K.
const MOST_PRINTED: u64 = 1_000_000;

/// What the words of the command line ask for: both streams, by their paths, and how many pairs.
#[derive(Clone, Copy)]
pub struct StreamWords<'a> {
    pub left: &'a Text,
    pub right: &'a Text,
    pub count: u32,
}

/// The words `LEFT RIGHT K -`. K is 1 to 20 decimal digits that write a number of at most 1,000,000.
///
/// # Errors
///
/// - `None`: exactly where the words have another form.
pub fn words_of(words: &[Text]) -> Option<StreamWords<'_>>
    ensures { option_map form_of result ≡ words_form words.now }
{
    let [left, right, count, cert] = words else {
        return None;
    };
    if cert.as_str() != "-" {
        return None;
    }
    let count = count_word(count)?;
    Some(StreamWords {
        left,
        right,
        count: count as u32,
    })
}

/// A number of pairs.
fn count_word(word: &Text) -> Option<u64>
    ensures { result ≡ count_word word.now }
{
    if word.bytes().len() > 20 {
        return None;
    }
    decimal_of(word.bytes(), MOST_PRINTED)
}
