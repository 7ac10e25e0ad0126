//! Formulas that are built step by step. Each step takes the parts that the steps before it left last, and leaves one.

use crate::values::rel_of;
use cases_lines::{Fault, small_number_of, text_of};
use rs_expr::{Cond, Expr, TextSide};
use rs_value::{Rel, int_of};
use std::alloc::Global;

/// The parts that are built so far.
#[derive(Drop)]
pub struct Parts {
    alloc: Global,
    formulas: Vec<Box<Expr>>,
    conditions: Vec<Box<Cond>>,
    sides: Vec<TextSide>,
}

/// What a formula of two numbers is.
#[derive(Clone, Copy)]
enum Two {
    Sum,
    Difference,
    Product,
    Least,
    Greatest,
}

impl Parts {
    pub fn new(alloc: Global) -> Parts {
        Parts {
            alloc,
            formulas: Vec::new(alloc),
            conditions: Vec::new(alloc),
            sides: Vec::new(alloc),
        }
    }

    /// Does the step that a word stands for.
    pub fn step(&mut self, word: &[u8]) -> Result<(), Fault> {
        if let Some(number) = integer_of(word) {
            return self.put(Expr::Int(number));
        }
        match word {
            [b'@', place @ ..] => self.put(Expr::Arg(place_of(place)?)),
            [b'/', divisor @ ..] => self.divide(divisor),
            b"neg" => {
                let part = self.take()?;
                self.put(Expr::Neg(part))
            }
            b"abs" => {
                let part = self.take()?;
                self.put(Expr::Abs(part))
            }
            _ => self.step_of_two(word),
        }
    }

    /// Divides the last formula by the number that a word stands for.
    fn divide(&mut self, divisor: &[u8]) -> Result<(), Fault> {
        let Some(divisor) = integer_of(divisor) else {
            return Err(Fault::Form);
        };
        let part = self.take()?;
        self.put(Expr::Div(part, divisor))
    }

    fn step_of_two(&mut self, word: &[u8]) -> Result<(), Fault> {
        match two_of(word) {
            Some(two) => {
                let (left, right) = self.take_two()?;
                self.put(formula_of_two(two, left, right))
            }
            None => self.step_of_condition(word),
        }
    }

    fn step_of_condition(&mut self, word: &[u8]) -> Result<(), Fault> {
        match word {
            b"and" => {
                let (left, right) = self.take_two_conditions()?;
                self.put_condition(Cond::And(left, right))
            }
            b"or" => {
                let (left, right) = self.take_two_conditions()?;
                self.put_condition(Cond::Or(left, right))
            }
            b"not" => {
                let part = self.take_condition()?;
                self.put_condition(Cond::Not(part))
            }
            b"case" => self.choose(),
            _ => self.step_of_text(word),
        }
    }

    /// Chooses by the last condition between the last two formulas.
    fn choose(&mut self) -> Result<(), Fault> {
        let (outcome, rest) = self.take_two()?;
        let condition = self.take_condition()?;
        self.put(Expr::Case(condition, outcome, rest))
    }

    fn step_of_text(&mut self, word: &[u8]) -> Result<(), Fault> {
        match word {
            [b'\'', text @ ..] => self.put_text(text),
            [b'$', place @ ..] => self.put_side(TextSide::Arg(place_of(place)?)),
            [b'~', rel @ ..] => self.compare_texts(rel_of(rel)?),
            _ => self.compare(rel_of(word)?),
        }
    }

    fn put_text(&mut self, text: &[u8]) -> Result<(), Fault> {
        let text = text_of(self.alloc, text)?;
        self.put_side(TextSide::Text(text))
    }

    fn compare(&mut self, rel: Rel) -> Result<(), Fault> {
        let (left, right) = self.take_two()?;
        self.put_condition(Cond::Numbers(rel, Box::into_inner(left), Box::into_inner(right)))
    }

    fn compare_texts(&mut self, rel: Rel) -> Result<(), Fault> {
        let (left, right) = self.take_two_sides()?;
        self.put_condition(Cond::Texts(rel, left, right))
    }

    fn put(&mut self, formula: Expr) -> Result<(), Fault> {
        self.formulas.push(Box::new(self.alloc, formula)?)?;
        Ok(())
    }

    fn put_condition(&mut self, condition: Cond) -> Result<(), Fault> {
        self.conditions.push(Box::new(self.alloc, condition)?)?;
        Ok(())
    }

    fn put_side(&mut self, side: TextSide) -> Result<(), Fault> {
        self.sides.push(side)?;
        Ok(())
    }

    /// Takes the last formula.
    pub fn take(&mut self) -> Result<Box<Expr>, Fault> {
        self.formulas.pop().ok_or(Fault::Form)
    }

    fn take_two(&mut self) -> Result<(Box<Expr>, Box<Expr>), Fault> {
        let right = self.take()?;
        let left = self.take()?;
        Ok((left, right))
    }

    fn take_condition(&mut self) -> Result<Box<Cond>, Fault> {
        self.conditions.pop().ok_or(Fault::Form)
    }

    fn take_two_conditions(&mut self) -> Result<(Box<Cond>, Box<Cond>), Fault> {
        let right = self.take_condition()?;
        let left = self.take_condition()?;
        Ok((left, right))
    }

    fn take_side(&mut self) -> Result<TextSide, Fault> {
        self.sides.pop().ok_or(Fault::Form)
    }

    fn take_two_sides(&mut self) -> Result<(TextSide, TextSide), Fault> {
        let right = self.take_side()?;
        let left = self.take_side()?;
        Ok((left, right))
    }
}

/// The number that a word stands for: `least` and `greatest` those of 64 bits, and else one that is written.
fn integer_of(word: &[u8]) -> Option<i64> {
    match word {
        b"least" => Some(i64::MIN),
        b"greatest" => Some(i64::MAX),
        _ => int_of(word),
    }
}

/// The place of an argument, counted from 0.
fn place_of(word: &[u8]) -> Result<u16, Fault> {
    Ok(u16::from(small_number_of(word)?))
}

/// What a formula of two numbers is, where a word stands for one.
fn two_of(word: &[u8]) -> Option<Two> {
    match word {
        b"+" => Some(Two::Sum),
        b"-" => Some(Two::Difference),
        b"*" => Some(Two::Product),
        b"min" => Some(Two::Least),
        b"max" => Some(Two::Greatest),
        _ => None,
    }
}

fn formula_of_two(two: Two, left: Box<Expr>, right: Box<Expr>) -> Expr {
    match two {
        Two::Sum => Expr::Add(left, right),
        Two::Difference => Expr::Sub(left, right),
        Two::Product => Expr::Mul(left, right),
        Two::Least => Expr::Least(left, right),
        Two::Greatest => Expr::Greatest(left, right),
    }
}
