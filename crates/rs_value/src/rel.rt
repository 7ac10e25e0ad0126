ghost use Rattle.std.specs.Prelude.{◌≡◌};
ghost use Rattle.rs_value.specs.Rel.{rel_holds};

use std::cmp::Ordering;

/// A comparison of two values of one kind.
#[derive(Clone, Copy, Debug, PartialEq, Eq)]
pub enum Rel {
    Eq,
    Ne,
    Lt,
    Le,
    Gt,
    Ge,
}

impl Rel {
    /// Whether the comparison holds of two values in this order.
    pub fn holds(self, order: Ordering) -> bool
        ensures { result ≡ rel_holds self order }
    {
        match self {
            Rel::Eq => order == Ordering::Equal,
            Rel::Ne => order != Ordering::Equal,
            Rel::Lt => order == Ordering::Less,
            Rel::Le => order != Ordering::Greater,
            Rel::Gt => order == Ordering::Greater,
            Rel::Ge => order != Ordering::Less,
        }
    }
}
