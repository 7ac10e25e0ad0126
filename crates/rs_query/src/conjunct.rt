ghost use Rattle.std.specs.Prelude.{◌≡◌};
ghost use Rattle.rs_expr.specs.Formulas.{condition_of};

use rs_expr::Cond;
use rs_value::List;
use std::marker::Model;

/// A part of a WHERE condition, which is split at each AND at its top.
///
/// A column is a FROM entry, counted from 1, and a column of its table, counted from 0.
#[derive(Debug, Drop)]
pub struct Conjunct {
    condition: Cond,
    columns: List<(u8, u8)>,
    entries: u8,
    equality: Option<((u8, u8), (u8, u8))>,
}

impl Model for Conjunct {
    ghost use Rattle.rs_expr.specs.Formulas.{condition_of};
    ghost use Rattle.rs_query.specs.Conjuncts.{ConjunctDef};
    ghost use Rattle.rs_query.specs.Stored.{conjunct_code};

    ghost Value = { ConjunctDef };

    ghost coded = { conjunct_code };

    ghost view = { λ c. record { condition = condition_of c.condition; columns = c.columns; entries = c.entries; equality = c.equality } };
}

impl Conjunct {
    /// The conjunct of these parts: a condition whose arguments are the columns, the mask of the entries of the columns,
    /// and the two columns where the condition says that columns of two entries are equal.
    pub fn new(
        condition: Cond,
        columns: List<(u8, u8)>,
        entries: u8,
        equality: Option<((u8, u8), (u8, u8))>,
    ) -> Conjunct
        ensures { result ≡ record { condition = condition_of condition; columns = columns; entries = entries; equality = equality } }
    {
        Conjunct {
            condition,
            columns,
            entries,
            equality,
        }
    }

    /// The condition. Argument i of it is column i, counted from 0.
    pub fn condition(&self) -> &Cond
        ensures { condition_of result.now ≡ self.now.condition }
    {
        &self.condition
    }

    /// The columns of the condition, each once, by their first occurrence.
    pub fn columns(&self) -> &[(u8, u8)]
        ensures { result.now ≡ self.now.columns }
    {
        self.columns.items()
    }

    /// The mask of the entries of the columns.
    pub fn entries(&self) -> u8
        ensures { result ≡ self.now.entries }
    {
        self.entries
    }

    /// The two columns, where the condition is that a column equals a column of another entry.
    ///
    /// # Errors
    ///
    /// - `None`: exactly where the condition doesn't say that columns of two entries are equal.
    pub fn equality(&self) -> Option<((u8, u8), (u8, u8))>
        ensures { result ≡ self.now.equality }
    {
        self.equality
    }
}
