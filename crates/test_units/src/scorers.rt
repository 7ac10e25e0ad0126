//! Predicates and scorers.

ghost use Rattle.std.specs.Prelude.{◌≡◌, ◌∷◌, [], IfOk};
ghost use Rattle.rs_value.specs.declared.kind.Kind.TheVariants as kind;

use crate::rows::assert_number;
use rs_expr::{Call, Expr, FormulaScorer, MemScorer, Predicate, Scorer, ScorerFault};
use rs_value::{Kind, List, Text, Value};
use std::alloc::Global;
use std::process::Abort;
use std::test::Fail;

fn text(alloc: Global, bytes: &[u8]) -> Result<Text, Fail> {
    Ok(Text::from_bytes(alloc, bytes)?)
}

fn number_kind(alloc: Global) -> Result<List<Kind>, Fail>
    ensures { IfOk result (λ params. params ≡ kind.Int ∷ []) }
{
    Ok(List::of(vec![in alloc; Kind::Int]?))
}

/// A predicate of one number, with the score 2 a + 1.
fn doubling(alloc: Global, name: &[u8]) -> Result<Predicate, Fail>
    ensures { IfOk result (λ predicate. predicate.params ≡ kind.Int ∷ []) }
{
    let name = text(alloc, name)?;
    let params = number_kind(alloc)?;
    let two = Box::new(alloc, Expr::Int(2))?;
    let argument = Box::new(alloc, Expr::Arg(0))?;
    let product = Box::new(alloc, Expr::Mul(two, argument))?;
    let one = Box::new(alloc, Expr::Int(1))?;
    Ok(Predicate::new(name, params, 100, 5, Expr::Add(product, one)))
}

/// What a scorer answers.
fn ask<S: Scorer>(scorer: &mut S, predicate: &Predicate, number: u8) -> Result<i128, ScorerFault>
    requires { predicate.now.params ≡ kind.Int ∷ [] }
{
    scorer.score(predicate, &[Value::Int(i64::from(number))])
}

/// A number, and what a scorer answers.
type Answer = (u8, Result<i128, ScorerFault>);

/// Asserts what a scorer answers, one call after another.
fn assert_answers<S: Scorer>(
    rt: &impl Abort,
    scorer: &mut S,
    predicate: &Predicate,
    answers: &[Answer],
)
    requires { predicate.now.params ≡ kind.Int ∷ [] }
{
    for (number, answer) in answers {
        assert_eq!(rt; ask(scorer, predicate, *number), *answer, "at {number}");
    }
}

/// Asserts that the calls are those of a predicate of this name with these numbers.
fn assert_calls(rt: &impl Abort, calls: &[Call], name: &[u8], answers: &[Answer]) {
    assert_number(rt, calls.len() as u64, answers.len() as u64);
    for (call, answer) in calls.iter().zip(answers) {
        assert_call(rt, call, name, answer.0);
    }
}

fn assert_call(rt: &impl Abort, call: &Call, name: &[u8], number: u8) {
    assert!(rt; is_call(call, name, number));
}

fn is_call(call: &Call, name: &[u8], number: u8) -> bool {
    call.predicate.bytes() == name && only_number(call) == Some(i64::from(number))
}

/// The number of a call that has no other argument.
fn only_number(call: &Call) -> Option<i64> {
    match call.args.items().as_slice() {
        [Value::Int(number)] => Some(*number),
        _ => None,
    }
}

/// Asserts the parts of such a predicate.
fn assert_parts(rt: &impl Abort, predicate: &Predicate, name: &[u8]) {
    assert!(rt; predicate.name().bytes() == name);
    assert!(rt; is_of_a_number(predicate.params()) && is_sum(predicate.formula()));
    assert!(rt; predicate.max() == 100 && predicate.cost() == 5);
}

fn is_of_a_number(params: &[Kind]) -> bool {
    matches!(params, [Kind::Int])
}

fn is_sum(formula: &Expr) -> bool {
    matches!(formula, Expr::Add(_, _))
}

#[test]
fn gives_the_parts_of_a_predicate(rt: HostRuntime) -> Result<(), Fail> {
    let near = doubling(rt.alloc(), b"near")?;
    assert_parts(&rt, &near, b"near");
    Ok(())
}

/// The values of the formula. The last one lies above the greatest score.
const OF_FORMULA: [Answer; 4] = [(0, Ok(1)), (7, Ok(15)), (7, Ok(15)), (255, Ok(511))];

/// Asserts what a scorer answers for a predicate of this name.
fn assert_of_name<S: Scorer>(
    rt: &impl Abort,
    alloc: Global,
    scorer: &mut S,
    name: &[u8],
    answers: &[Answer],
) -> Result<(), Fail> {
    let predicate = doubling(alloc, name)?;
    assert_answers(rt, scorer, &predicate, answers);
    Ok(())
}

#[test]
fn answers_the_value_of_the_formula(rt: HostRuntime) -> Result<(), Fail> {
    assert_of_name(
        &rt,
        rt.alloc(),
        &mut FormulaScorer::new(),
        b"near",
        &OF_FORMULA,
    )
}

/// Asserts what a scorer answers for one name, and that these are its calls.
fn assert_near(
    rt: &impl Abort,
    alloc: Global,
    scorer: &mut MemScorer,
    answers: &[Answer],
) -> Result<(), Fail> {
    assert_of_name(rt, alloc, scorer, b"near", answers)?;
    assert_calls(rt, scorer.calls(), b"near", answers);
    Ok(())
}

#[test]
fn answers_the_value_where_no_score_is_written(rt: HostRuntime) -> Result<(), Fail> {
    assert_near(
        &rt,
        rt.alloc(),
        &mut MemScorer::new(rt.alloc()),
        &OF_FORMULA,
    )
}

/// Writes the score of a number.
fn write(scorer: &mut MemScorer, alloc: Global, number: i64, score: i128) -> Result<(), Fail> {
    let near = text(alloc, b"near")?;
    Ok(scorer.set(&near, &[Value::Int(number)], score)?)
}

/// Writes 90 for the text `9`.
fn write_of_text(scorer: &mut MemScorer, alloc: Global) -> Result<(), Fail> {
    let near = text(alloc, b"near")?;
    let nine = Value::Text(text(alloc, b"9")?);
    Ok(scorer.set(&near, &[nine], 90)?)
}

/// Writes 70 for 7, over 60, and -3 for 8, and 90 for the text `9`.
fn write_scores(scorer: &mut MemScorer, alloc: Global) -> Result<(), Fail> {
    write(scorer, alloc, 7, 60)?;
    write(scorer, alloc, 8, -3)?;
    write(scorer, alloc, 7, 70)?;
    write_of_text(scorer, alloc)
}

const WRITTEN: [Answer; 4] = [(7, Ok(70)), (8, Ok(-3)), (9, Ok(19)), (7, Ok(70))];

/// Asserts what is written, and that the scores are of one name alone.
fn assert_written(rt: &impl Abort, alloc: Global, scorer: &mut MemScorer) -> Result<(), Fail> {
    write_scores(scorer, alloc)?;
    assert_near(rt, alloc, scorer, &WRITTEN)?;
    assert_of_name(rt, alloc, scorer, b"far", &[(7, Ok(15))])
}

#[test]
fn answers_the_last_score_that_is_written(rt: HostRuntime) -> Result<(), Fail> {
    assert_written(&rt, rt.alloc(), &mut MemScorer::new(rt.alloc()))
}

/// The second and the fourth call are planned to fail.
const PLANNED: [Answer; 5] = [
    (7, Ok(70)),
    (7, Err(ScorerFault::Failed)),
    (7, Ok(70)),
    (8, Err(ScorerFault::Failed)),
    (8, Ok(17)),
];

fn plan(scorer: &mut MemScorer, alloc: Global) -> Result<(), Fail> {
    write(scorer, alloc, 7, 70)?;
    scorer.fail_at(4)?;
    scorer.fail_at(2)?;
    Ok(())
}

fn assert_planned(rt: &impl Abort, alloc: Global, scorer: &mut MemScorer) -> Result<(), Fail> {
    plan(scorer, alloc)?;
    assert_near(rt, alloc, scorer, &PLANNED)
}

#[test]
fn fails_where_it_is_planned(rt: HostRuntime) -> Result<(), Fail> {
    assert_planned(&rt, rt.alloc(), &mut MemScorer::new(rt.alloc()))
}
