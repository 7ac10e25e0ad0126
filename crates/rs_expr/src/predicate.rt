ghost use Rattle.std.specs.Prelude.{◌≡◌, ◌≤◌};
ghost use Rattle.rs_expr.specs.Formulas.{formula_of};
ghost use Rattle.rs_expr.specs.Predicates.{IsPredicate};

use crate::expr::Expr;
use rs_value::{Kind, List, Text};
use std::marker::Model;

/// A ranking predicate: what gives a row a score. A score that its formula gives lies from 0 to `max`, or is bad.
#[derive(Debug, Drop)]
pub struct Predicate {
    name: Text,
    params: List<Kind>,
    max: u32,
    cost: u16,
    formula: Expr,
}

impl Model for Predicate {
    ghost use Rattle.rs_expr.specs.Formulas.{formula_of};
    ghost use Rattle.rs_expr.specs.Predicates.{IsPredicate, PredicateDef};
    ghost use Rattle.rs_expr.specs.Stored.{predicate_code};

    ghost Value = { PredicateDef };

    ghost coded = { predicate_code };

    ghost view = { λ p. record { name = p.name; params = p.params; max = p.max; cost = p.cost; formula = formula_of p.formula } };

    ghost invariant = { λ p. IsPredicate (record { name = p.name; params = p.params; max = p.max; cost = p.cost; formula = formula_of p.formula }) };
}

impl Predicate {
    /// The predicate of these parts. `max` is 1 at least, there are 1 to 8 parameters, and the formula uses each as what
    /// it is and has a width.
    pub fn new(name: Text, params: List<Kind>, max: u32, cost: u16, formula: Expr) -> Predicate
        requires { IsPredicate (record { name = name; params = params; max = max; cost = cost; formula = formula_of formula }) }
        ensures { result ≡ record { name = name; params = params; max = max; cost = cost; formula = formula_of formula } }
    {
        Predicate {
            name,
            params,
            max,
            cost,
            formula,
        }
    }

    pub fn name(&self) -> &Text
        ensures { result.now ≡ self.now.name }
    {
        &self.name
    }

    /// The kinds of the parameters, 1 to 8.
    pub fn params(&self) -> &[Kind]
        ensures value { result.now ≡ self.now.params }
        ensures is_predicate { IsPredicate self.now }
    {
        self.params.items()
    }

    /// The greatest score, from 1 to 4,294,967,295.
    pub fn max(&self) -> u32
        ensures value { result ≡ self.now.max }
        ensures some { 1 ≤ result }
    {
        self.max
    }

    /// What a call costs, as the planner counts it.
    pub fn cost(&self) -> u16
        ensures { result ≡ self.now.cost }
    {
        self.cost
    }

    /// What gives the scores. Its arguments are the parameters.
    pub fn formula(&self) -> &Expr
        ensures value { formula_of result.now ≡ self.now.formula }
        ensures is_predicate { IsPredicate self.now }
    {
        &self.formula
    }
}
