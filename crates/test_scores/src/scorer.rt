//! A scorer over a table of known scores.

ghost use Rattle.std.specs.Prelude.{◌≡◌, ◌∷◌, [], IfOk};
ghost use Rattle.rs_value.specs.declared.kind.Kind.TheVariants as kind;

use crate::read::known_of;
use rs_expr::{Expr, Predicate, Scorer, ScorerFault};
use rs_scores::{KnownScores, Question, TableScorer};
use rs_value::{Kind, List, Text, Value};
use std::alloc::Global;
use std::process::Abort;
use std::test::Fail;

/// A predicate of one text, whose formula is 9.
fn predicate(alloc: Global, name: &[u8]) -> Result<Predicate, Fail>
    ensures { IfOk result (λ predicate. predicate.params ≡ kind.Text ∷ []) }
{
    let name = Text::from_bytes(alloc, name)?;
    let params = List::of(vec![in alloc; Kind::Text]?);
    Ok(Predicate::new(name, params, 100, 5, Expr::Int(9)))
}

/// A text, what the scorer answers for it, and what is missing then.
type Answer = (
    &'static str,
    Result<i128, ScorerFault>,
    &'static [&'static str],
);

/// What a scorer answers for this text.
fn ask(scorer: &mut TableScorer<'_>, predicate: &Predicate, arg: Text) -> Result<i128, ScorerFault>
    requires { predicate.now.params ≡ kind.Text ∷ [] }
{
    scorer.score(predicate, &[Value::Text(arg)])
}

/// Whether a question has these fields; none has none.
fn is_question(question: &Option<Question>, fields: &[&str]) -> bool {
    let Some(question) = question else {
        return fields.is_empty();
    };
    let own = question.fields();
    own.len() == fields.len() && own.iter().zip(fields).all(|(a, b)| a.as_str() == *b)
}

const OF_NEAR: [Answer; 5] = [
    ("5", Ok(77), &[]),
    ("6", Ok(-1), &[]),
    ("7", Err(ScorerFault::Failed), &["near", "7"]),
    ("a,b", Ok(4), &[]),
    ("", Err(ScorerFault::Failed), &["near", ""]),
];

const OF_FAR: [Answer; 2] = [("5", Ok(9), &[]), ("7", Ok(9), &[])];

/// Asserts what scorers over these scores answer for a predicate of one number, each called once.
fn assert_answers(
    rt: &impl Abort,
    alloc: Global,
    known: &KnownScores,
    name: &[u8],
    answers: &[Answer],
) -> Result<(), Fail> {
    let predicate = predicate(alloc, name)?;
    for (chars, answer, missing) in answers {
        let arg = Text::from_bytes(alloc, chars.as_bytes())?;
        let mut scorer = TableScorer::new(alloc, known);
        assert_eq!(rt; ask(&mut scorer, &predicate, arg), *answer);
        assert!(rt; scorer.count() == 1 && scorer.calls().len() == 1);
        assert!(rt; is_question(&scorer.into_missing(), missing));
    }
    Ok(())
}

#[test]
fn answers_what_is_known(rt: HostRuntime) -> Result<(), Fail> {
    let known = known_of(
        &rt,
        rt.alloc(),
        b"near,5,77\nnear,6,-1\nliked,7,1\nnear,\"a,b\",4\n",
    )?;
    assert_answers(&rt, rt.alloc(), &known, b"near", &OF_NEAR)?;
    assert_answers(&rt, rt.alloc(), &known, b"far", &OF_FAR)
}
