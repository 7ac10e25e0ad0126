//! The lines of questions and of known scores.

use rs_scores::{KnownScore, Question};
use rs_value::{Text, Value};
use std::alloc::Global;
use std::process::Abort;
use std::test::Fail;

/// A number or a text.
enum Arg {
    Number(i64),
    Chars(&'static str),
}

/// The arguments of a call of `near`, its question's line, and the line of the question with the score -7.
type Row = (&'static [Arg], &'static str, &'static str);

const LINES: [Row; 5] = [
    (&[Arg::Number(5)], "near,5\n", "near,5,-7\n"),
    (
        &[Arg::Number(-5), Arg::Chars("Kraków")],
        "near,-5,Kraków\n",
        "near,-5,Kraków,-7\n",
    ),
    (
        &[Arg::Chars("a,b"), Arg::Chars("")],
        "near,\"a,b\",\n",
        "near,\"a,b\",,-7\n",
    ),
    (
        &[Arg::Chars("say \"so\"")],
        "near,\"say \"\"so\"\"\"\n",
        "near,\"say \"\"so\"\"\",-7\n",
    ),
    (
        &[Arg::Chars("two\nlines")],
        "near,\"two\nlines\"\n",
        "near,\"two\nlines\",-7\n",
    ),
];

fn value_of(alloc: Global, arg: &Arg) -> Result<Value, Fail> {
    match arg {
        Arg::Number(number) => Ok(Value::Int(*number)),
        Arg::Chars(chars) => Ok(Value::Text(Text::from_bytes(alloc, chars.as_bytes())?)),
    }
}

fn values_of(alloc: Global, args: &[Arg]) -> Result<Vec<Value>, Fail> {
    let mut values = Vec::new(alloc);
    for arg in args {
        values.push(value_of(alloc, arg)?)?;
    }
    Ok(values)
}

/// The question of a call of `near` with these arguments.
fn question_of(alloc: Global, args: &[Value]) -> Result<Question, Fail> {
    let near = Text::from_bytes(alloc, b"near")?;
    Ok(Question::of(alloc, &near, args)?)
}

/// The line of a question with the score -7, in which the question is used up.
fn known_line(alloc: Global, question: Question) -> Result<Vec<u8>, Fail> {
    let known = KnownScore {
        question,
        score: -7,
    };
    Ok(known.line(alloc)?)
}

fn assert_lines(rt: &impl Abort, alloc: Global, row: &Row) -> Result<(), Fail> {
    let values = values_of(alloc, row.0)?;
    let question = question_of(alloc, &values)?.line(alloc)?;
    assert!(rt; question.as_slice() == row.1.as_bytes());
    let known = known_line(alloc, question_of(alloc, &values)?)?;
    assert!(rt; known.as_slice() == row.2.as_bytes());
    Ok(())
}

#[test]
fn writes_lines(rt: HostRuntime) -> Result<(), Fail> {
    for row in &LINES {
        assert_lines(&rt, rt.alloc(), row)?;
    }
    Ok(())
}
