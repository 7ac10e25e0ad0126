ghost use Rattle.std.specs.Prelude.{◌≡◌, ◌==◌, IfOk};
ghost use Rattle.std.proofs.Common.{rules};
ghost use Rattle.std.specs.Cmp.{partial_order_from_own_ties};
ghost use Rattle.std.specs.Cmp.Lexicographic.{lists_ties, pointwise, slice_cmp, texts_ties};
ghost use Rattle.std.specs.Cmp.Rules.{comparing};
ghost use Rattle.std.specs.Ordering.{as_partial_cmp, nat_cmp};
ghost use Rattle.rs_value.specs.Value.{printed};
ghost use Rattle.rs_scores.specs.Lines.{question_line};
ghost use Rattle.rs_scores.specs.Questions.{question_of};

use crate::line::{record_line, row_of};
use rs_value::{Memory, Text, Value};
use std::alloc::Global;
use std::cmp::Ordering;
use std::marker::Model;

/// What is asked outside: the score of a predicate for some arguments. It has the predicate's name, and then the arguments as
/// they are printed, so a number and a text that is printed alike are one question.
#[derive(Debug, Drop)]
pub struct Question {
    fields: Vec<Text>,
}

impl Model for Question {
    ghost use Rattle.std.specs.Prelude.{List, ℕ};

    ghost Value = { List (List ℕ) };

    ghost view = { λ q. q.fields.items };
}

impl Question {
    /// The question of these fields: the predicate's name, and then the arguments as they are printed. It takes no memory.
    pub fn new(fields: Vec<Text>) -> Question
        ensures { result ≡ fields.items }
    {
        Question { fields }
    }

    /// The question of a call of the predicate of this name with these arguments.
    ///
    /// # Errors
    ///
    /// - `Memory`: at any call.
    pub fn of(alloc: Global, predicate: &Text, args: &[Value]) -> Result<Question, Memory>
        ensures { IfOk result (λ question. question ≡ question_of (record { predicate = predicate.now; args = args.now })) }
    {
        let mut fields = Vec::new(alloc);
        fields.push(predicate.copy()?)?;
        for arg in args {
            fields.push(printed_text(alloc, arg)?)?;
        }
        Ok(Question { fields })
    }

    /// An equal question.
    ///
    /// # Errors
    ///
    /// - `Memory`: at any call.
    pub fn copy(&self) -> Result<Question, Memory>
        ensures { IfOk result (λ question. question ≡ self.now) }
    {
        let fields = copied_texts(*self.fields.allocator(), &self.fields)?;
        Ok(Question { fields })
    }

    /// The predicate's name, and then the arguments as they are printed.
    pub fn fields(&self) -> &[Text]
        ensures { result.now ≡ self.now }
    {
        &self.fields
    }

    /// The question as one record of CSV, ended by a line feed.
    ///
    /// # Errors
    ///
    /// - `Memory`: at any call.
    pub fn line(&self, alloc: Global) -> Result<Vec<u8>, Memory>
        ensures { IfOk result (λ line. line.items ≡ question_line self.now) }
    {
        let row = row_of(alloc, &self.fields)?;
        record_line(alloc, &row)
    }
}

/// Equal texts, in the same order.
fn copied_texts(alloc: Global, texts: &[Text]) -> Result<Vec<Text>, Memory>
    ensures { IfOk result (λ copies. copies.items ≡ texts.now) }
{
    let mut copies = Vec::new(alloc);
    for text in texts {
        copies.push(text.copy()?)?;
    }
    Ok(copies)
}

/// The text that a value is printed as.
fn printed_text(alloc: Global, value: &Value) -> Result<Text, Memory>
    ensures { IfOk result (λ text. text ≡ printed value.now) }
{
    match value {
        Value::Int(number) => Ok(Text::from(number.to_string(alloc)?)),
        Value::Text(text) => text.copy(),
    }
}

/// Two questions are equal where they have equal texts.
impl PartialEq for Question {
    ghost eq = { pointwise (pointwise ◌==◌) };

    ghost laws = { Prim.search (comparing, rules) };

    fn eq(&self, other: &Question) -> bool {
        self.fields.as_slice() == other.fields.as_slice()
    }
}

impl Eq for Question {
    ghost laws = { Prim.search (comparing, rules) };
}

/// Lexicographic by the texts.
impl Ord for Question {
    ghost cmp = { slice_cmp (slice_cmp nat_cmp) };

    ghost total = { Prim.search (comparing, rules) };

    ghost matches_partial_cmp = { Prim.search (comparing, rules) };

    ghost matches_eq = { lists_ties (slice_cmp nat_cmp) texts_ties };

    fn cmp(&self, other: &Question) -> Ordering {
        self.fields.as_slice().cmp(other.fields.as_slice())
    }
}

impl PartialOrd for Question {
    ghost partial_cmp = { as_partial_cmp (slice_cmp (slice_cmp nat_cmp)) };

    ghost laws = { partial_order_from_own_ties (Prim.search (comparing, rules)) (lists_ties (slice_cmp nat_cmp) texts_ties) };

    fn partial_cmp(&self, other: &Question) -> Option<Ordering> {
        Some(self.cmp(other))
    }
}
